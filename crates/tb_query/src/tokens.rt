// The bytes of a line, and its tokens.

ghost use Rattle.std.specs.Prelude.{◌≡◌, ◌<◌, ◌≤◌, ◌^◌, [], IfOk, MatchOption, length, not};
ghost use Rattle.std.specs.Prelude.{position, vec_len};
ghost use Rattle.std.specs.List.{position_or_len};
ghost use Rattle.tb_base.specs.Bytes.{is_text_byte};
ghost use Rattle.tb_query.specs.Bytes.{first_not_text, is_word_byte};
ghost use Rattle.tb_query.specs.Cutting.{IsFirst};
ghost use Rattle.tb_query.specs.Tokens.{cut, kind_of, mark_kind, tokens_of, word_kind};
ghost use Rattle.tb_query.specs.Views.{token_views};

use std::alloc::Global;
use tb_base::{Memory, is_text_byte, skip_blanks};

/// What a token is to the grammar. A name is a word that is none of the nine before it.
#[derive(Clone, Copy, Debug, PartialEq, Eq)]
pub enum Kind {
    Table,
    By,
    Where,
    And,
    Not,
    In,
    With,
    Totals,
    Labels,
    Name,
    Open,
    Comma,
    Close,
    Other,
}

/// A token of a line, and its number among them, from 1.
#[derive(Clone, Copy, Debug)]
pub struct Token<'a> {
    pub number: u32,
    pub kind: Kind,
    pub text: &'a [u8],
}

#[tactic(auto, unfolding(crate::specs::Bytes::is_word_byte))]
fn is_word_byte(b: u8) -> bool
    ensures { result ≡ is_word_byte b }
{
    b.is_ascii_alphanumeric() || b == b'_' || b == b'-' || b == b'+' || b == b'.'
}

fn find_not_text(line: &[u8]) -> Option<usize>
    ensures { result ≡ position (λ b. not (is_text_byte b)) line.now }
{
    line.iter().position(|b| !is_text_byte(*b))
}

/// The number, from 1, of the first byte that is no text.
pub fn first_not_text(line: &[u8]) -> Option<u32>
    requires { length line.now < 2 ^ 31 }
    ensures { result ≡ first_not_text line.now }
{
    match find_not_text(line) {
        Some(i) => Some(i as u32 + 1),
        None => None,
    }
}

#[tactic(auto, unfolding(crate::specs::Tokens::word_kind))]
fn word_kind(text: &[u8]) -> Kind
    ensures { result ≡ word_kind text.now }
{
    if text == b"table".as_slice() {
        Kind::Table
    } else if text == b"by".as_slice() {
        Kind::By
    } else if text == b"where".as_slice() {
        Kind::Where
    } else if text == b"and".as_slice() {
        Kind::And
    } else if text == b"not".as_slice() {
        Kind::Not
    } else if text == b"in".as_slice() {
        Kind::In
    } else if text == b"with".as_slice() {
        Kind::With
    } else if text == b"totals".as_slice() {
        Kind::Totals
    } else if text == b"labels".as_slice() {
        Kind::Labels
    } else {
        Kind::Name
    }
}

#[tactic(auto, unfolding(crate::specs::Tokens::mark_kind))]
fn mark_kind(b: u8) -> Kind
    ensures { result ≡ mark_kind b }
{
    match b {
        b'(' => Kind::Open,
        b',' => Kind::Comma,
        b')' => Kind::Close,
        _ => Kind::Other,
    }
}

fn kind_of(text: &[u8]) -> Kind
    ensures { result ≡ kind_of text.now }
{
    match text {
        [] => Kind::Other,
        [b, ..] => {
            if is_word_byte(*b) {
                word_kind(text)
            } else {
                mark_kind(*b)
            }
        }
    }
}

// How many bytes at the front are bytes of a word.
fn word_len(bytes: &[u8]) -> usize
    ensures count { result ≡ position_or_len (λ b. not (is_word_byte b)) bytes.now }
    ensures within { result ≤ length bytes.now }
{
    bytes
        .iter()
        .position(|b| !is_word_byte(*b))
        .unwrap_or(bytes.len())
}

// The text of the first token, and the bytes after it.
fn first_text(bytes: &[u8]) -> Option<(&[u8], &[u8])>
    ensures { MatchOption result (cut bytes.now ≡ [])
        (λ x. IsFirst bytes.now x.0.now x.1.now) }
{
    let rest = skip_blanks(bytes);
    if rest.is_empty() {
        return None;
    }
    if is_word_byte(rest[0]) {
        return Some(rest.split_at(word_len(rest)));
    }
    Some(rest.split_at(1))
}

/// The tokens of a line.
pub fn tokens<'a>(alloc: Global, line: &'a [u8]) -> Result<Vec<Token<'a>>, Memory>
    requires { length line.now < 2 ^ 31 }
    ensures all { IfOk result (λ v. token_views v.items ≡ tokens_of line.now) }
    ensures few { IfOk result (λ v. vec_len v ≤ length line.now) }
{
    let mut tokens = Vec::new(alloc);
    let mut number = 1;
    let mut rest = line;
    while let Some((text, after)) = first_text(rest) {
        let kind = kind_of(text);
        tokens.push(Token { number, kind, text })?;
        number += 1;
        rest = after;
    }
    Ok(tokens)
}
