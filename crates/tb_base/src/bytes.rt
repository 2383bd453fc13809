// The bytes of a line.

ghost use Rattle.std.specs.Prelude.{◌≡◌, ◌≤◌, length};
ghost use Rattle.std.specs.List.{list_all, position_or_len};
ghost use Rattle.tb_base.specs.Bytes.{after_blanks, is_blank, is_text_byte};

/// Whether a byte is a tab or a printable ASCII character.
#[tactic(auto, unfolding(crate::specs::Bytes::is_text_byte))]
pub fn is_text_byte(b: u8) -> bool
    ensures { result ≡ is_text_byte b }
{
    b == b'\t' || (0x20 <= b && b <= 0x7e)
}

/// Whether a byte is a space or a tab.
#[tactic(auto, unfolding(crate::specs::Bytes::is_blank))]
pub fn is_blank(b: u8) -> bool
    ensures { result ≡ is_blank b }
{
    b == b' ' || b == b'\t'
}

/// Whether each byte is a tab or a printable ASCII character.
pub fn is_text(line: &[u8]) -> bool
    ensures { result ≡ list_all is_text_byte line.now }
{
    line.iter().all(|b| is_text_byte(*b))
}

/// Whether each byte is a blank.
pub fn are_blanks(text: &[u8]) -> bool
    ensures { result ≡ list_all is_blank text.now }
{
    text.iter().all(|b| is_blank(*b))
}

/// The place of the first blank, or the length.
pub fn blank_at(text: &[u8]) -> usize
    ensures place { result ≡ position_or_len is_blank text.now }
    ensures within { result ≤ length text.now }
{
    text.iter().position(|b| is_blank(*b)).unwrap_or(text.len())
}

/// What stands after the blanks in front.
pub fn skip_blanks(text: &[u8]) -> &[u8]
    ensures { result.now ≡ after_blanks text.now }
{
    let mut rest = text;
    while let [b, after @ ..] = rest {
        if !is_blank(*b) {
            return rest;
        }
        rest = after;
    }
    rest
}
