// The words that are handed to clap, and those that it finds.

ghost use Rattle.std.specs.Prelude.{◌≡◌, ◌∷◌, IfOk, map, string_bytes};
ghost use Rattle.clap.specs.Words.{found_of, rows_of, subcommand_rows_of};
ghost use Rattle.tb_words.specs.Positions.{value_at, words_found};
ghost use Rattle.tb_words.specs.Words.{AreCommand, IsCommand, handed};
ghost use Rattle.tb_words.specs.Words.{handed_on as handed_words};

use crate::positions::{clap_matches, positions_of};
use clap::ArgMatches;
use std::alloc::Global;
use tb_base::Memory;

// A word as it is handed on.
fn handed_word(word: &str) -> &str
    ensures { result.now ≡ handed word.now }
{
    if word == "-" { "none" } else { word }
}

// The words as they are handed on.
fn handed_on(alloc: Global, words: &[String]) -> Result<Vec<&str>, Memory>
    ensures { IfOk result (λ handed. map (λ s. s.now) handed.items
        ≡ handed_words (map string_bytes words.now)) }
{
    let mut handed = Vec::with_capacity(alloc, words.len())?;
    for word in words {
        let text = handed_word(word.as_str());
        handed.push(text)?;
    }
    Ok(handed)
}

// The name, and what stands at each of these positions, as words of their own.
fn words_at(
    alloc: Global,
    name: &str,
    found: &ArgMatches,
    positions: &[&str],
) -> Result<Vec<String>, Memory>
    ensures { IfOk result (λ words. map string_bytes words.items
        ≡ name.now ∷ map (λ s. value_at (rows_of (found_of found.now)) s.now) positions.now) }
{
    let mut words = Vec::with_capacity(alloc, positions.len() + 1)?;
    let first = String::from_str(alloc, name)?;
    words.push(first)?;
    for position in positions {
        let value = found.get_str(*position);
        let word = String::from_str(alloc, value.unwrap_or(""))?;
        words.push(word)?;
    }
    Ok(words)
}

// The words that clap found.
fn found_words(alloc: Global, matches: &ArgMatches) -> Result<Vec<String>, Memory>
    ensures { IfOk result (λ words. map string_bytes words.items
        ≡ words_found (subcommand_rows_of matches.now)) }
{
    let Some((name, found)) = matches.subcommand() else {
        return Err(Memory);
    };
    let positions = positions_of(alloc, name)?;
    words_at(alloc, name, found, positions.as_slice())
}

// The words that were handed on, as clap found them.
fn told_words(alloc: Global, handed: &[&str]) -> Result<Vec<String>, Memory>
    requires { AreCommand (map (λ s. s.now) handed.now) }
    ensures { IfOk result (λ told. map string_bytes told.items ≡ map (λ s. s.now) handed.now) }
{
    let Ok(matches) = clap_matches(alloc, handed) else {
        return Err(Memory);
    };
    found_words(alloc, &matches)
}

/// The words of a command as they were handed on, each from its position as `clap` found it. It
/// takes memory for them twice, and for `clap`, and fails for want of it alone.
pub fn in_positions(alloc: Global, words: &[String]) -> Result<Vec<String>, Memory>
    requires { IsCommand (map string_bytes words.now) }
    ensures { IfOk result (λ told. map string_bytes told.items
        ≡ handed_words (map string_bytes words.now)) }
{
    let handed = handed_on(alloc, words)?;
    told_words(alloc, handed.as_slice())
}
