// What a party's line asks for.

ghost use Rattle.std.specs.Prelude.{◌≡◌, ◌<◌, ◌≤◌, ◌∷◌, IfSome};
ghost use Rattle.tb_base.specs.Words.{words_of};
ghost use Rattle.tb_cache.specs.declared.TheConstants.{MOST_ENTRIES};
ghost use Rattle.tb_session.specs.Asks as asks;

use crate::party::Role;
use crate::past_line::past_number;
use tb_base::{first_word, read_number};
use tb_cache::MOST_ENTRIES;
use tb_describe::is_description;
use tb_lines::is_passed_over;
use tb_revise::begins_edit;

/// What a party's line asks for: what may be asked, a table, one at a release that it names, an
/// edit, to publish the edits that are held, the desk's numbers, to forget the cubes, or another
/// capacity for them; or nothing.
#[derive(Clone, Copy, Debug, PartialEq, Eq)]
pub enum Asks {
    Nothing,
    /// What may be asked.
    Description,
    Table,
    /// A table at the release of this number.
    At(u32),
    Edit,
    Publish,
    Stats,
    Clear,
    /// So many cubes may be kept.
    Cache(u32),
}

// The capacity that a word gives, if it gives one.
fn capacity_in(word: &[u8]) -> Option<u32>
    ensures capacity { result ≡ asks.capacity_in word.now }
    ensures within { IfSome result (λ k. (0 < k) × (k ≤ MOST_ENTRIES)) }
{
    if word.first() == Some(&b'0') {
        return None;
    }
    match read_number(word) {
        Some(capacity) if capacity >= 1 && capacity <= MOST_ENTRIES => Some(capacity),
        _ => None,
    }
}

// What a word alone asks for.
fn asks_of_word(word: &[u8]) -> Asks
    ensures asks { result ≡ asks.asks_of_word word.now }
    ensures within { asks.IsWithin result }
{
    if word == b"publish".as_slice() {
        return Asks::Publish;
    }
    if word == b"stats".as_slice() {
        return Asks::Stats;
    }
    if word == b"clear".as_slice() {
        return Asks::Clear;
    }
    Asks::Table
}

// What two words ask for.
fn asks_of_two(word: &[u8], next: &[u8]) -> Asks
    ensures asks { result ≡ asks.asks_of_two word.now next.now }
    ensures within { asks.IsWithin result }
{
    if word != b"cache".as_slice() {
        return Asks::Table;
    }
    match capacity_in(next) {
        Some(capacity) => Asks::Cache(capacity),
        None => Asks::Table,
    }
}

// What a word and those after it ask for, if they are no edit.
fn asks_of_command(word: &[u8], rest: &[u8]) -> Asks
    ensures asks { result ≡ asks.asks_of_command (word.now ∷ words_of rest.now) }
    ensures within { asks.IsWithin result }
{
    let Some((next, rest)) = first_word(rest) else {
        return asks_of_word(word);
    };
    if first_word(rest).is_some() {
        return Asks::Table;
    }
    asks_of_two(word, next)
}

// What the custodian's line asks for.
fn asks_of_words(line: &[u8]) -> Asks
    ensures asks { result ≡ asks.asks_of_words (words_of line.now) }
    ensures within { asks.IsWithin result }
{
    let Some((word, rest)) = first_word(line) else {
        return Asks::Table;
    };
    if begins_edit(word) {
        return Asks::Edit;
    }
    asks_of_command(word, rest)
}

/// What a party's line asks for: an analyst's for what may be asked, or for a table, at the current
/// release or at one that it names.
pub fn asks_of(role: Role, line: &[u8]) -> Asks
    ensures asks { result ≡ asks.asks_of role line.now }
    ensures within { asks.IsWithin result }
{
    if is_passed_over(line) {
        return Asks::Nothing;
    }
    if is_description(line) {
        return Asks::Description;
    }
    if let Some(number) = past_number(line) {
        return Asks::At(number);
    }
    match role {
        Role::Analyst => Asks::Table,
        Role::Custodian => asks_of_words(line),
    }
}
