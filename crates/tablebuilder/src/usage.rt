// The forms of the commands, and what is wrong with arguments that have none of them.

use crate::version::VERSION;
use std::fmt;
use std::fmt::{Display, Formatter, Write};
use tb_base::{MOST_THRESHOLD, read_number};
use tb_command::{
    Dwellings, Form, Layout, LinesFrom, MOST_SESSIONS, all_forms, form_named, of_gen, of_inputs,
};
use tb_gen::MOST_GENERATED;

/// What an argument must be.
#[derive(Clone, Copy, Debug)]
pub enum Rule {
    File,
    FileOrDash,
    /// As DWELLINGS and LINKS are, of which both or neither is `-`.
    FileOrDashes,
    Number { least: u32, most: u32 },
}

// Whether an argument may be the name of a file.
fn may_name_a_file(word: &str) -> bool {
    !word.is_empty() && !word.starts_with('-')
}

// How the ports of a row lie.
fn layout_of(form: Option<&Form>) -> Layout {
    match form {
        Some(form) => match form.lines {
            LinesFrom::Ports(layout) => layout,
            LinesFrom::Script | LinesFrom::Lanes => Layout::Row,
        },
        None => Layout::Row,
    }
}

impl Rule {
    // What an argument must be at the position of this name, of a row or of `gen`.
    fn of(form: Option<&Form>, position: &str) -> Rule {
        match position {
            "DWELLINGS" | "LINKS" => Rule::of_dwellings(form),
            "RECODES" => Rule::FileOrDash,
            "THRESHOLD" => Rule::within(0, MOST_THRESHOLD),
            "PORT" => Rule::within(1, u32::from(layout_of(form).most_port())),
            "WORKERS" => Rule::within(1, layout_of(form).most_workers()),
            "SESSIONS" => Rule::within(1, MOST_SESSIONS),
            "N" => Rule::within(1, MOST_GENERATED as u32),
            "START" => Rule::within(0, u32::MAX),
            _ => Rule::File,
        }
    }

    // What an argument must be where dwellings are named.
    fn of_dwellings(form: Option<&Form>) -> Rule {
        match form {
            Some(form) => match form.dwellings {
                Dwellings::OrDashes => Rule::FileOrDashes,
                Dwellings::Never | Dwellings::Always => Rule::File,
            },
            None => Rule::File,
        }
    }

    fn within(least: u32, most: u32) -> Rule {
        Rule::Number { least, most }
    }

    // Whether an argument is that.
    fn takes(self, word: &str) -> bool {
        match self {
            Rule::File => may_name_a_file(word),
            Rule::FileOrDash | Rule::FileOrDashes => word == "-" || may_name_a_file(word),
            Rule::Number { least, most } => match read_number(word.as_bytes()) {
                Some(number) => least <= number && number <= most,
                None => false,
            },
        }
    }
}

impl Display for Rule {
    fn fmt<W: Write>(&self, f: &mut Formatter<W>) -> fmt::Result {
        match self {
            Rule::File => write!(f, "the name of a file, which doesn't begin with `-`"),
            Rule::FileOrDash => write!(
                f,
                "the name of a file, which doesn't begin with `-`, or `-` where there are no recodes"
            ),
            Rule::FileOrDashes => write!(
                f,
                "the name of a file, which doesn't begin with `-`, or `-` for both DWELLINGS and \
                LINKS where there are no dwellings"
            ),
            Rule::Number { least, most } => write!(f, "a number from {least} to {most}"),
        }
    }
}

/// The first argument that is wrong, counted from 1, and why.
#[derive(Debug, Drop)]
pub enum BadArgument<'a> {
    /// They couldn't be read.
    NotText,
    /// There is none.
    None,
    /// The first is no command.
    NoCommand {
        word: &'a str,
    },
    /// It isn't there.
    Missing {
        at: usize,
        position: &'a str,
        rule: Rule,
    },
    /// It isn't what must stand at its position.
    Unfit {
        at: usize,
        position: &'a str,
        word: &'a str,
        rule: Rule,
    },
    /// It has no position.
    TooMany {
        at: usize,
        word: &'a str,
    },
}

static NO_POSITIONS: [&str; 0] = [];

// The positions of a row, group by group, or those of `gen`.
fn groups(form: Option<&Form>) -> [&'static [&'static str]; 4] {
    let none = NO_POSITIONS.as_slice();
    match form {
        Some(form) => [
            of_inputs(),
            form.dwellings.positions(),
            form.owner.positions(),
            form.lines.positions(),
        ],
        None => [of_gen(), none, none, none],
    }
}

impl<'a> BadArgument<'a> {
    /// The first of these arguments that is wrong, if one is. There are none where they couldn't be
    /// read.
    pub fn of(words: Option<&'a [String]>) -> Option<BadArgument<'a>> {
        let Some(words) = words else {
            return Some(BadArgument::NotText);
        };
        let Some((command, rest)) = words.split_first() else {
            return Some(BadArgument::None);
        };
        let name = command.as_str();
        let form = form_named(name);
        if form.is_none() && name != "gen" {
            return Some(BadArgument::NoCommand { word: name });
        }
        first_of(form.as_ref(), rest)
    }
}

// Whether a word is `-` where the other of DWELLINGS and LINKS isn't. Of two that aren't there
// neither is wrong by the other.
fn stands_alone(position: &str, words: &[String], i: usize) -> bool {
    let other = match position {
        "DWELLINGS" => words.get(i.saturating_add(1)),
        "LINKS" => words.get(i.saturating_sub(1)),
        _ => None,
    };
    match (words.get(i), other) {
        (Some(word), Some(other)) => word.as_str() == "-" && other.as_str() != "-",
        _ => false,
    }
}

// What is wrong with the argument at this place behind the command's name, which is at a position.
fn wrong_at<'a>(
    form: Option<&Form>,
    position: &'static str,
    words: &'a [String],
    i: usize,
) -> Option<BadArgument<'a>> {
    let at = i.saturating_add(2);
    let rule = Rule::of(form, position);
    let Some(word) = words.get(i) else {
        return Some(BadArgument::Missing { at, position, rule });
    };
    let word = word.as_str();
    if rule.takes(word) && !stands_alone(position, words, i) {
        return None;
    }
    Some(BadArgument::Unfit {
        at,
        position,
        word,
        rule,
    })
}

// The first argument of a group that is wrong, if one is: the group begins at this place.
fn first_in<'a>(
    form: Option<&Form>,
    group: &[&'static str],
    words: &'a [String],
    from: usize,
) -> Option<BadArgument<'a>> {
    for (i, position) in group.iter().enumerate() {
        if let Some(bad) = wrong_at(form, *position, words, from.saturating_add(i)) {
            return Some(bad);
        }
    }
    None
}

// The first argument after a command's name that is wrong, if one is.
fn first_of<'a>(form: Option<&Form>, words: &'a [String]) -> Option<BadArgument<'a>> {
    let mut from: usize = 0;
    for group in groups(form) {
        if let Some(bad) = first_in(form, group, words, from) {
            return Some(bad);
        }
        from = from.saturating_add(group.len());
    }
    let word = words.get(from)?.as_str();
    let at = from.saturating_add(2);
    Some(BadArgument::TooMany { at, word })
}

impl<'a> Display for BadArgument<'a> {
    fn fmt<W: Write>(&self, f: &mut Formatter<W>) -> fmt::Result {
        match self {
            BadArgument::NotText => write!(f, "the arguments must be UTF-8"),
            BadArgument::None => write!(f, "argument 1 is missing: it must be a command"),
            BadArgument::NoCommand { word } => {
                write!(
                    f,
                    "argument 1 is `{word}`: it must be a command, and there are no options"
                )
            }
            BadArgument::Missing { at, position, rule } => {
                write!(
                    f,
                    "argument {at}, {position}, is missing: it must be {rule}"
                )
            }
            BadArgument::Unfit {
                at,
                position,
                word,
                rule,
            } => write!(
                f,
                "argument {at}, {position}, is `{word}`: it must be {rule}"
            ),
            BadArgument::TooMany { at, word } => {
                write!(f, "argument {at} is `{word}`: it is one too many")
            }
        }
    }
}

/// What is said of arguments that are refused: the first that is wrong, the version, and the forms
/// of the commands.
#[derive(Debug, Drop)]
pub struct Usage<'a> {
    /// None where no argument is wrong by itself.
    pub bad: Option<BadArgument<'a>>,
}

// Writes the positions of a group.
fn write_group<W: Write>(f: &mut Formatter<W>, group: &[&'static str]) -> fmt::Result {
    for position in group {
        write!(f, " {position}")?;
    }
    Ok(())
}

// Writes the form of a row, or that of `gen`.
fn write_form<W: Write>(f: &mut Formatter<W>, form: Option<&Form>) -> fmt::Result {
    let name = match form {
        Some(form) => form.name,
        None => "gen",
    };
    write!(f, "tablebuilder {name}")?;
    for group in groups(form) {
        write_group(f, group)?;
    }
    Ok(())
}

impl<'a> Display for Usage<'a> {
    fn fmt<W: Write>(&self, f: &mut Formatter<W>) -> fmt::Result {
        if let Some(bad) = &self.bad {
            writeln!(f, "{bad}")?;
        }
        write!(f, "tablebuilder {VERSION}")?;
        let mut before = "\nusage: ";
        for form in all_forms() {
            write!(f, "{before}")?;
            write_form(f, Some(form))?;
            before = "\n       ";
        }
        write!(f, "{before}")?;
        write_form(f, None)
    }
}
