// What the arguments and the files ask for.

ghost use Rattle.std.specs.Prelude.{◌≡◌, IfErr, IfOk, None, Some, Err, true};
ghost use Rattle.tb_command.specs.Commands.{asks_to_generate, asks_to_keep, asks_to_serve};
ghost use Rattle.tb_command.specs.Commands.{command_of, ports_asked};
ghost use Rattle.tb_command.specs.declared.command.Command.{Command as CommandValue};
ghost use Rattle.tb_endings.specs.declared.endings.End.TheVariants as end;
ghost use Rattle.tb_top.specs.Asking.{asked_over, is_keep, is_service, ports_taken};
ghost use Rattle.tb_top.specs.InputFiles.{command_files};
ghost use Rattle.tb_top.specs.Loading.{AskedIsFirst, Loads, asked_value, reading};

use crate::asked::Asked;
use crate::load::load;
use std::alloc::Global;
use std::thread::Threads;
use tb_command::Arguments;
use tb_endings::End;
use tb_io::Files;
use tb_words::in_positions;

/// What these arguments ask for: their own test has decided whether they are a command's; then
/// `clap` puts them into their positions, before any file is read, and the files are read. It takes
/// memory for the arguments twice, for `clap`, and as `load` does.
pub fn ask<'a, F: Files, R: Threads + Sync>(
    rt: &R,
    alloc: Global,
    arguments: &Arguments<'a>,
    files: &mut F,
) -> Result<Asked<'a>, End>
    ensures first { IfOk result AskedIsFirst }
    ensures kind { IfOk result (λ asked. is_service (asked_value asked)
        ≡ asks_to_serve (command_of arguments.now)) }
    ensures ports { IfOk result (λ asked. ports_taken asked.lines
        ≡ ports_asked (command_of arguments.now)) }
    ensures keeps { IfOk result (λ asked. is_keep (asked_value asked)
        ≡ asks_to_keep (command_of arguments.now)) }
    ensures generated { asks_to_generate (command_of arguments.now) ≡ true
        → IfErr result (λ e. e ≡ end.Memory) }
    ensures usage { command_of arguments.now ≡ None → result ≡ Err end.Usage }
    ensures loads { (command : CommandValue) → command_of arguments.now ≡ Some command
        → Loads (reading F.content F.faults F.readings files.old files.new) 0
        (command_files command) asked_value (asked_over command) result }
{
    match arguments.command() {
        Some(command) => {
            // They are found as they were handed on, so they aren't read again.
            in_positions(alloc, arguments.words())?;
            load(rt, alloc, files, command)
        }
        None => Err(End::Usage),
    }
}
