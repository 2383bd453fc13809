// The names of files among the arguments.

ghost use Rattle.std.specs.Prelude.{◌≡◌};
ghost use Rattle.tb_command.specs.Names.{file_named, is_file_name as names_a_file};

use std::marker::Model;

/// The name of a file, as an argument gives it: it isn't empty and doesn't begin with a minus sign,
/// but for the names that the program itself gives.
#[derive(Drop)]
pub struct FileName<'a> {
    text: &'a str,
}

impl<'a> Model for FileName<'a> {
    ghost use Rattle.std.specs.Prelude.{ℕ, List};

    ghost Value = { List ℕ };

    ghost view = { λ n. n.text.now };
}

impl<'a> FileName<'a> {
    /// The file of that name.
    pub fn of(text: &'a str) -> FileName<'a>
        ensures { result ≡ text.now }
    {
        FileName { text }
    }

    /// The same name.
    pub fn copy(&self) -> FileName<'a>
        ensures { result ≡ self.now }
    {
        FileName { text: self.text }
    }

    /// The name's text.
    pub fn as_str(&self) -> &'a str
        ensures { result.now ≡ self.now }
    {
        self.text
    }
}

// Whether an argument may be a file's name.
pub(crate) fn is_file_name(word: &str) -> bool
    ensures { result ≡ names_a_file word.now }
{
    match word.as_bytes() {
        [] => false,
        [first, ..] => *first != b'-',
    }
}

/// The file that an argument names.
pub(crate) fn read_file_name(word: &str) -> Option<FileName<'_>>
    ensures { result ≡ file_named word.now }
{
    if is_file_name(word) {
        Some(FileName::of(word))
    } else {
        None
    }
}
