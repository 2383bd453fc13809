// The arguments, and the command that they are.

ghost use Rattle.std.specs.Prelude.{◌≡◌, map, option_map, string_bytes};
ghost use Rattle.tb_command.specs.Commands.{command_of, ports_asked};

use crate::command::{Command, read_command};
use std::marker::Model;

/// The arguments of a run, and the command that they ask for, if they are one's.
#[derive(Drop)]
pub struct Arguments<'a> {
    words: &'a [String],
    command: Option<Command<'a>>,
}

impl<'a> Model for Arguments<'a> {
    ghost use Rattle.std.specs.Prelude.{◌≡◌, ℕ, List, map, string_bytes};
    ghost use Rattle.tb_command.specs.Commands.{command_of};

    ghost Value = { List (List ℕ) };

    ghost view = { λ a. map string_bytes a.words.now };

    ghost invariant = { λ a. a.command ≡ command_of (map string_bytes a.words.now) };
}

impl<'a> Arguments<'a> {
    /// These arguments, which are read here alone.
    pub fn read(words: &'a [String]) -> Arguments<'a>
        ensures { result ≡ map string_bytes words.now }
    {
        let command = read_command(words);
        Arguments { words, command }
    }

    /// The arguments.
    pub fn words(&self) -> &'a [String]
        ensures { map string_bytes result.now ≡ self.now }
    {
        self.words
    }

    /// The command that they ask for.
    pub fn command(&self) -> Option<&Command<'a>>
        ensures { option_map (λ c. c.now) result ≡ command_of self.now }
    {
        self.command.as_ref()
    }

    /// How many ports they ask for.
    pub fn ports(&self) -> u32
        ensures { result ≡ ports_asked (command_of self.now) }
    {
        match self.command() {
            Some(command) => match command.service() {
                Some(service) => service.ports(),
                None => 0,
            },
            None => 0,
        }
    }
}
