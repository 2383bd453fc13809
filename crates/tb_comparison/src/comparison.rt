// Bytes and statuses that are compared, and printed where they differ.

ghost use Rattle.std.specs.Prelude.{◌≡◌, ◌⊎◌, true};

/// Prints bytes behind a word: as text where they are UTF-8, else one number each.
pub fn tell(rt: &impl Eprint, word: &str, bytes: &[u8]) {
    let _ = match str::from_utf8(bytes) {
        Ok(text) => eprintln!(rt; "{word} {text:?}"),
        Err(_) => eprintln!(rt; "{word} {bytes:?}"),
    };
}

/// Whether these bytes are those that are wanted. Where they aren't, both are printed.
pub fn is_text(rt: &impl Eprint, got: &[u8], wanted: &[u8]) -> bool
    ensures only { result ≡ true → got.now ≡ wanted.now }
    ensures same { got.now ≡ wanted.now → result ≡ true }
{
    let is = got == wanted;
    if !is {
        tell(rt, "wanted", wanted);
        tell(rt, "got", got);
    }
    is
}

/// Whether these bytes are the one or the other of those that may come. Where they are neither, all
/// of these are printed.
pub fn is_either_text(rt: &impl Eprint, got: &[u8], wanted: &[u8], other: &[u8]) -> bool
    ensures only { result ≡ true → (got.now ≡ wanted.now) ⊎ (got.now ≡ other.now) }
    ensures one { got.now ≡ wanted.now → result ≡ true }
    ensures other { got.now ≡ other.now → result ≡ true }
{
    let is = got == wanted || got == other;
    if !is {
        tell(rt, "wanted", wanted);
        if other != wanted {
            tell(rt, "or", other);
        }
        tell(rt, "got", got);
    }
    is
}

/// Whether the number of a status is the one that is wanted. Where it isn't, both are printed.
pub fn is_status(rt: &impl Eprint, got: u8, wanted: u8) -> bool
    ensures only { result ≡ true → got ≡ wanted }
    ensures same { got ≡ wanted → result ≡ true }
{
    let is = got == wanted;
    if !is {
        let _ = eprintln!(rt; "wanted the status {wanted}, got {got}");
    }
    is
}
