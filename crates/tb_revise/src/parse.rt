// The parser: from the words of a line to the edit that they are.

ghost use Rattle.std.specs.Prelude.{◌≡◌, ◌<◌, IfSome, MatchOption, MatchResult, None, Some};
ghost use Rattle.std.specs.Prelude.{length, position};
ghost use Rattle.tb_base.specs.Words.{words_of};
ghost use Rattle.tb_revise.specs.Grammar.{IsEdit, begins_edit, is_equals};
ghost use Rattle.tb_revise.specs.Reading.{ParsesNone, StopsBy, read_add, read_amend, read_drop};
ghost use Rattle.tb_revise.specs.Reading.{read_pvalue, read_setting, read_settings};
ghost use Rattle.tb_revise.specs.Reading.{read_oldest, read_threshold, read_words};
ghost use Rattle.tb_revise.specs.Views.{edit_view, setting_view, setting_views};

use crate::fault::EditTextFault;
use std::alloc::Global;
use tb_base::first_word;

/// Whether a word is one with which an edit begins: `add`, `drop`, `amend`, `pvalue`, `threshold`
/// or `oldest`.
pub fn begins_edit(word: &[u8]) -> bool
    ensures { result ≡ begins_edit word.now }
{
    word == b"add".as_slice()
        || word == b"drop".as_slice()
        || word == b"amend".as_slice()
        || word == b"pvalue".as_slice()
        || word == b"threshold".as_slice()
        || word == b"oldest".as_slice()
}

/// A setting, by the text of its variable's name and of its code.
#[derive(Clone, Copy)]
pub struct Setting<'a> {
    pub name: &'a [u8],
    pub code: &'a [u8],
}

/// An edit, by its words: those of its person, its key and its settings, or of what it sets of the
/// rules.
#[derive(Drop)]
pub enum EditWords<'a> {
    Add {
        person: &'a [u8],
        key: &'a [u8],
        settings: Vec<Setting<'a>>,
    },
    Drop {
        person: &'a [u8],
    },
    Amend {
        person: &'a [u8],
        settings: Vec<Setting<'a>>,
    },
    Pvalue {
        row: &'a [u8],
        key: &'a [u8],
        pvalue: &'a [u8],
    },
    Threshold {
        value: &'a [u8],
    },
    Oldest {
        release: &'a [u8],
    },
}

// The place of the first `=` in a word.
fn find_equals(word: &[u8]) -> Option<usize>
    ensures place { result ≡ position is_equals word.now }
    ensures within { IfSome result (λ i. i < length word.now) }
{
    word.iter().position(|b| *b == b'=')
}

// A word as a setting.
#[tactic(auto, unfolding(crate::specs::Reading::read_setting))]
fn split_setting(word: &[u8]) -> Option<Setting<'_>>
    ensures { MatchOption result (read_setting word.now ≡ None)
        (λ s. read_setting word.now ≡ Some (setting_view s)) }
{
    match find_equals(word) {
        Some(i) => Some(Setting {
            name: &word[..i],
            code: &word[i + 1..],
        }),
        None => None,
    }
}

// The words of a text as settings.
fn settings<'a>(alloc: Global, text: &'a [u8]) -> Result<Vec<Setting<'a>>, EditTextFault>
    ensures { MatchResult result
        (λ v. read_settings (words_of text.now) ≡ Some (setting_views v.items))
        (StopsBy (read_settings (words_of text.now))) }
{
    let mut settings = Vec::new(alloc);
    let mut rest = text;
    while let Some((word, after)) = first_word(rest) {
        let Some(one) = split_setting(word) else {
            return Err(EditTextFault::Syntax);
        };
        settings.push(one)?;
        rest = after;
    }
    Ok(settings)
}

// What follows `add`.
#[tactic(auto, unfolding(crate::specs::Reading::read_add))]
fn add<'a>(alloc: Global, text: &'a [u8]) -> Result<EditWords<'a>, EditTextFault>
    ensures { MatchResult result
        (λ e. read_add (words_of text.now) ≡ Some (edit_view e))
        (StopsBy (read_add (words_of text.now))) }
{
    let Some((person, rest)) = first_word(text) else {
        return Err(EditTextFault::Syntax);
    };
    let Some((key, rest)) = first_word(rest) else {
        return Err(EditTextFault::Syntax);
    };
    let settings = settings(alloc, rest)?;
    Ok(EditWords::Add {
        person,
        key,
        settings,
    })
}

// What follows `drop`.
#[tactic(auto, unfolding(crate::specs::Reading::read_drop))]
fn drop<'a>(text: &'a [u8]) -> Result<EditWords<'a>, EditTextFault>
    ensures { MatchResult result
        (λ e. read_drop (words_of text.now) ≡ Some (edit_view e))
        (StopsBy (read_drop (words_of text.now))) }
{
    let Some((person, rest)) = first_word(text) else {
        return Err(EditTextFault::Syntax);
    };
    match first_word(rest) {
        Some(_) => Err(EditTextFault::Syntax),
        None => Ok(EditWords::Drop { person }),
    }
}

// What follows `amend`.
#[tactic(auto, unfolding(crate::specs::Reading::read_amend))]
fn amend<'a>(alloc: Global, text: &'a [u8]) -> Result<EditWords<'a>, EditTextFault>
    ensures { MatchResult result
        (λ e. read_amend (words_of text.now) ≡ Some (edit_view e))
        (StopsBy (read_amend (words_of text.now))) }
{
    let Some((person, rest)) = first_word(text) else {
        return Err(EditTextFault::Syntax);
    };
    let settings = settings(alloc, rest)?;
    if settings.is_empty() {
        return Err(EditTextFault::Syntax);
    }
    Ok(EditWords::Amend { person, settings })
}

// What follows `pvalue`.
#[tactic(auto, unfolding(crate::specs::Reading::read_pvalue))]
fn pvalue<'a>(text: &'a [u8]) -> Result<EditWords<'a>, EditTextFault>
    ensures { MatchResult result
        (λ e. read_pvalue (words_of text.now) ≡ Some (edit_view e))
        (StopsBy (read_pvalue (words_of text.now))) }
{
    let Some((row, rest)) = first_word(text) else {
        return Err(EditTextFault::Syntax);
    };
    let Some((key, rest)) = first_word(rest) else {
        return Err(EditTextFault::Syntax);
    };
    let Some((pvalue, rest)) = first_word(rest) else {
        return Err(EditTextFault::Syntax);
    };
    match first_word(rest) {
        Some(_) => Err(EditTextFault::Syntax),
        None => Ok(EditWords::Pvalue { row, key, pvalue }),
    }
}

// What follows `threshold`.
#[tactic(auto, unfolding(crate::specs::Reading::read_threshold))]
fn threshold<'a>(text: &'a [u8]) -> Result<EditWords<'a>, EditTextFault>
    ensures { MatchResult result
        (λ e. read_threshold (words_of text.now) ≡ Some (edit_view e))
        (StopsBy (read_threshold (words_of text.now))) }
{
    let Some((value, rest)) = first_word(text) else {
        return Err(EditTextFault::Syntax);
    };
    match first_word(rest) {
        Some(_) => Err(EditTextFault::Syntax),
        None => Ok(EditWords::Threshold { value }),
    }
}

// What follows `oldest`.
#[tactic(auto, unfolding(crate::specs::Reading::read_oldest))]
fn oldest<'a>(text: &'a [u8]) -> Result<EditWords<'a>, EditTextFault>
    ensures { MatchResult result
        (λ e. read_oldest (words_of text.now) ≡ Some (edit_view e))
        (StopsBy (read_oldest (words_of text.now))) }
{
    let Some((release, rest)) = first_word(text) else {
        return Err(EditTextFault::Syntax);
    };
    match first_word(rest) {
        Some(_) => Err(EditTextFault::Syntax),
        None => Ok(EditWords::Oldest { release }),
    }
}

// The whole edit.
#[tactic(auto, unfolding(crate::specs::Reading::read_words))]
fn edit<'a>(alloc: Global, line: &'a [u8]) -> Result<EditWords<'a>, EditTextFault>
    ensures { MatchResult result
        (λ e. read_words (words_of line.now) ≡ Some (edit_view e))
        (StopsBy (read_words (words_of line.now))) }
{
    let Some((word, rest)) = first_word(line) else {
        return Err(EditTextFault::Syntax);
    };
    if word == b"add".as_slice() {
        add(alloc, rest)
    } else if word == b"drop".as_slice() {
        drop(rest)
    } else if word == b"amend".as_slice() {
        amend(alloc, rest)
    } else if word == b"pvalue".as_slice() {
        pvalue(rest)
    } else if word == b"threshold".as_slice() {
        threshold(rest)
    } else if word == b"oldest".as_slice() {
        oldest(rest)
    } else {
        Err(EditTextFault::Syntax)
    }
}

/// The edit that the words of a line are.
pub fn parse<'a>(alloc: Global, line: &'a [u8]) -> Result<EditWords<'a>, EditTextFault>
    ensures { MatchResult result (λ e. IsEdit (words_of line.now) (edit_view e))
        (ParsesNone (words_of line.now)) }
{
    edit(alloc, line)
}
