// What a line of the leader's asks for.

ghost use Rattle.std.specs.Prelude.{◌≡◌, ◌∷◌, bytes_eq, decimal};
ghost use Rattle.tb_base.specs.Words.{words_of};
ghost use Rattle.tb_leader.specs.LeaderAsks as asks;

use tb_base::{first_word, print_number, read_number};
use tb_lines::is_passed_over;
use tb_revise::begins_edit;

/// What a line of the leader's asks for: to begin the message of a number, to hold an edit in it,
/// to end and deliver it, or to restart the follower; or nothing. Every other line is refused.
#[derive(Clone, Copy, Debug, PartialEq, Eq)]
pub enum LeaderAsks {
    Nothing,
    Begin(u32),
    Edit,
    End,
    Restart,
    Other,
}

// What a word alone asks for.
fn asks_of_word(word: &[u8]) -> LeaderAsks
    ensures { result ≡ asks.asks_of_word word.now }
{
    if word == b"end".as_slice() {
        return LeaderAsks::End;
    }
    if word == b"restart".as_slice() {
        return LeaderAsks::Restart;
    }
    LeaderAsks::Other
}

// Whether a word spells a number without leading zeros.
fn is_spelled(word: &[u8], number: u32) -> bool
    ensures { result ≡ bytes_eq word.now (decimal number) }
{
    let mut digits = [0; 10];
    let len = print_number(number, &mut digits);
    word == &digits[..len]
}

// What `begin` and a word ask for.
fn asks_of_number(word: &[u8]) -> LeaderAsks
    ensures { result ≡ asks.asks_of_number word.now }
{
    match read_number(word) {
        Some(number) if number >= 1 && is_spelled(word, number) => LeaderAsks::Begin(number),
        _ => LeaderAsks::Other,
    }
}

// What two words ask for.
fn asks_of_two(word: &[u8], next: &[u8]) -> LeaderAsks
    ensures { result ≡ asks.asks_of_two word.now next.now }
{
    if word != b"begin".as_slice() {
        return LeaderAsks::Other;
    }
    asks_of_number(next)
}

// What a word and those after it ask for, if they are no edit.
fn asks_of_command(word: &[u8], rest: &[u8]) -> LeaderAsks
    ensures { result ≡ asks.asks_of_command (word.now ∷ words_of rest.now) }
{
    let Some((next, rest)) = first_word(rest) else {
        return asks_of_word(word);
    };
    if first_word(rest).is_some() {
        return LeaderAsks::Other;
    }
    asks_of_two(word, next)
}

// What the words of a line ask for.
fn asks_of_words(line: &[u8]) -> LeaderAsks
    ensures { result ≡ asks.asks_of_words (words_of line.now) }
{
    let Some((word, rest)) = first_word(line) else {
        return LeaderAsks::Other;
    };
    if begins_edit(word) {
        return LeaderAsks::Edit;
    }
    asks_of_command(word, rest)
}

/// What a line of the leader's asks for.
pub fn asks_of(line: &[u8]) -> LeaderAsks
    ensures { result ≡ asks.asks_of line.now }
{
    if is_passed_over(line) {
        return LeaderAsks::Nothing;
    }
    asks_of_words(line)
}
