// A line `at N QUERY`, taken apart.

ghost use Rattle.std.specs.Prelude.{◌≡◌, ◌≤◌, length};
ghost use Rattle.tb_base.specs.Words.{words_of};
ghost use Rattle.tb_session.specs.PastLines as lines;

use tb_base::{blank_at, first_word, read_number, skip_blanks};

/// The number that a line names, where its first word is `at` and its second is a number.
pub(crate) fn past_number(line: &[u8]) -> Option<u32>
    ensures { result ≡ lines.past_number (words_of line.now) }
{
    let Some((word, rest)) = first_word(line) else {
        return None;
    };
    let Some((next, _)) = first_word(rest) else {
        return None;
    };
    if word != b"at".as_slice() {
        return None;
    }
    read_number(next)
}

/// What follows the first word of a text.
pub(crate) fn after_word(text: &[u8]) -> &[u8]
    ensures after { result.now ≡ lines.after_word text.now }
    ensures shorter { length result.now ≤ length text.now }
{
    let rest = skip_blanks(text);
    let (_word, after) = rest.split_at(blank_at(rest));
    after
}

/// The query in a line `at N QUERY`: what follows the number's last digit.
pub(crate) fn past_query(line: &[u8]) -> &[u8]
    ensures query { result.now ≡ lines.past_query line.now }
    ensures shorter { length result.now ≤ length line.now }
{
    after_word(after_word(line))
}
