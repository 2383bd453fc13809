// The commands as clap sees them.
//
// `clap` doesn't export its view of a command's fields, so settings are read from `app_of`; that a
// subcommand has no global argument follows from `is_plain` of its shape.
//
// The commands are made one by one into a list: a function that holds several owes the drops of all
// at each `?`. A `?` on a `Result` with so many fields costs more than the call: the last call's is
// returned as it is, or a `match` takes it apart.

ghost use Rattle.std.specs.Prelude.{◌≡◌, ◌∷◌, ◌++◌, [], IfErr, IfOk, codes, false, map};
ghost use Rattle.clap.specs.Words.{app_of, kind_of, rule_of, subcommand_of, subcommand_rows_of};
ghost use Rattle.clap.specs.declared.error.kind.ErrorKind.TheVariants.{OutOfMemory};
ghost use Rattle.tb_command.specs.Forms.{form_value};
ghost use Rattle.tb_command.specs.Positions.{positions_of as names_of};
ghost use Rattle.tb_words.specs.Positions.{command_apps, command_with, position as position_of};
ghost use Rattle.tb_words.specs.Positions.{positions_named, program as the_program};
ghost use Rattle.tb_words.specs.Words.{AreCommand};

use clap::{Arg, ArgMatches, Command, Error};
use std::alloc::{AllocError, Global};
use tb_command::{Form, all_forms, form_named, of_gen, of_inputs};

// The positions of a row, one group after another.
fn positions_in(alloc: Global, form: &Form) -> Result<Vec<&'static str>, AllocError>
    ensures { IfOk result (λ places. map (λ s. s.now) places.items
        ≡ names_of (form_value form.now)) }
{
    let mut places = Vec::new(alloc);
    places.extend_from_slice(of_inputs())?;
    places.extend_from_slice(form.dwellings.positions())?;
    places.extend_from_slice(form.owner.positions())?;
    places.extend_from_slice(form.lines.positions())?;
    Ok(places)
}

/// The positions of the command of a name: those of its row, or those of `gen`.
pub(crate) fn positions_of(alloc: Global, name: &str) -> Result<Vec<&'static str>, AllocError>
    ensures { IfOk result (λ places. map (λ s. s.now) places.items ≡ positions_named name.now) }
{
    match form_named(name) {
        Some(form) => positions_in(alloc, &form),
        None => Vec::from_slice(alloc, of_gen()),
    }
}

// A position of that name.
fn position<'a>(alloc: Global, name: &'a str) -> Arg<'a>
    ensures rule { rule_of result ≡ position_of name.entry.now }
    ensures local { result.global ≡ false }
{
    Arg::new(alloc, name).required(true)
}

// The command of that name, with these positions.
fn command<'a>(
    alloc: Global,
    name: &'static str,
    places: &[&'static str],
) -> Result<Command<'a>, AllocError>
    ensures { IfOk result (λ c. app_of c
        ≡ command_with name.now (map (λ s. s.now) places.now)) }
{
    let mut command = Command::new(alloc, name);
    for place in places {
        let one = position(alloc, *place);
        command = command.arg(one)?;
    }
    Ok(command)
}

// The command of a row.
fn command_of<'a>(alloc: Global, form: &Form) -> Result<Command<'a>, AllocError>
    ensures { IfOk result (λ c. app_of c
        ≡ command_with form.now.name.now (names_of (form_value form.now))) }
{
    let places = positions_in(alloc, form)?;
    command(alloc, form.name, places.as_slice())
}

// The commands of these rows.
fn commands_of<'a>(alloc: Global, forms: &[Form]) -> Result<Vec<Command<'a>>, AllocError>
    ensures { IfOk result (λ commands. map app_of commands.items
        ≡ map (λ f. command_with f.name.now (names_of (form_value f))) forms.now) }
{
    let mut commands = Vec::with_capacity(alloc, forms.len())?;
    for form in forms {
        match command_of(alloc, form) {
            Ok(one) => commands.push(one)?,
            Err(error) => return Err(error),
        }
    }
    Ok(commands)
}

// All commands.
fn commands<'a>(alloc: Global) -> Result<Vec<Command<'a>>, AllocError>
    ensures { IfOk result (λ commands. map app_of commands.items ≡ command_apps) }
{
    let mut commands = commands_of(alloc, all_forms())?;
    match command(alloc, "gen", of_gen()) {
        Ok(one) => commands.push(one)?,
        Err(error) => return Err(error),
    }
    Ok(commands)
}

// The program, with a subcommand for each command.
fn program<'a>(alloc: Global) -> Result<Command<'a>, AllocError>
    ensures { IfOk result (λ c. app_of c ≡ the_program) }
{
    let commands = commands(alloc)?;
    Command::new(alloc, "tablebuilder")
        .no_binary_name(true)
        .disable_help_flag(true)
        .disable_help_subcommand(true)
        .subcommands(commands)
}

/// What clap makes of the words of a command. It fails for want of memory alone.
pub(crate) fn clap_matches<'a>(alloc: Global, words: &'a [&'a str]) -> Result<ArgMatches<'a>, Error>
    requires { AreCommand (map (λ s. s.now) words.now) }
    ensures ok { IfOk result (λ m. subcommand_rows_of m
        ≡ subcommand_of the_program (map (λ s. s.now) words.entry.now)) }
    ensures err { IfErr result (λ e. kind_of e ≡ OutOfMemory) }
{
    let program = program(alloc)?;
    program.try_get_matches_from(words)
}
