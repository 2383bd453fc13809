// What a run over a generated population is asked for: what `script` would be asked for over the
// generated files, which stand in memory and are read like any others.

ghost use Rattle.std.specs.Prelude.{◌≡◌, IfErr, IfOk, false};
ghost use Rattle.tb_endings.specs.declared.endings.End.TheVariants as end;
ghost use Rattle.tb_top.specs.Asking.{generated_asked, is_keep, is_service, ports_taken};
ghost use Rattle.tb_top.specs.GeneratedFiles.{HoldGenerated};
ghost use Rattle.tb_top.specs.GeneratedFiles.{generated_inputs as inputs_of_generated};
ghost use Rattle.tb_top.specs.Loading.{AskedIsFirst, Makes, asked_value};
ghost use Rattle.tb_command.specs.Populations.{HasPersons};

use crate::asked::{Asked, AskedLines, Scripted};
use crate::load::load_scripted;
use std::alloc::Global;
use std::thread::Threads;
use tb_base::Memory;
use tb_command::{FileName, Inputs, Owner, Population};
use tb_endings::{End, Input};
use tb_gen::files_of;
use tb_io::SureFiles;

/// The threshold over generated files.
pub const GENERATED_THRESHOLD: u32 = 10;

// The inputs of generated files, each under the name that it has in a last line.
fn generated_inputs<'a>() -> Inputs<'a>
    ensures { result ≡ inputs_of_generated }
{
    Inputs {
        classes: FileName::of(Input::Classes.name()),
        recodes: Some(FileName::of(Input::Recodes.name())),
        ptable: FileName::of(Input::Ptable.name()),
        people: FileName::of(Input::People.name()),
        threshold: GENERATED_THRESHOLD,
    }
}

// The generated files in memory, each under the name that it has in a last line.
fn hold_generated(alloc: Global, population: &Population) -> Result<SureFiles, Memory>
    ensures held { IfOk result (λ files. HoldGenerated population.now files) }
    ensures some { HasPersons population.now }
{
    let generated = files_of(alloc, population.persons(), population.start())?;
    let mut files = SureFiles::new(alloc);
    files.hold(Input::Classes.name(), &generated.classes)?;
    files.hold(Input::Recodes.name(), &generated.recodes)?;
    files.hold(Input::Ptable.name(), &generated.ptable)?;
    files.hold(Input::People.name(), &generated.people)?;
    files.hold(Input::Script.name(), &generated.script)?;
    Ok(files)
}

/// What is asked for over the generated files of a population, which are accepted. It takes memory
/// for the files, for each while it is read, and for what it says.
pub fn load_generated<'a, R: Threads + Sync>(
    rt: &R,
    alloc: Global,
    population: &Population,
) -> Result<Asked<'a>, End>
    ensures first { IfOk result AskedIsFirst }
    ensures kind { IfOk result (λ asked. is_service (asked_value asked) ≡ false) }
    ensures ports { IfOk result (λ asked. ports_taken asked.lines ≡ 0) }
    ensures keeps { IfOk result (λ asked. is_keep (asked_value asked) ≡ false) }
    ensures makes { Makes asked_value (generated_asked population.now) result }
    ensures accepted { IfErr result (λ e. e ≡ end.Memory) }
{
    let mut files = hold_generated(alloc, population)?;
    let inputs = generated_inputs();
    let script = FileName::of(Input::Script.name());
    let read = load_scripted(rt, alloc, &mut files, &inputs, &script)?;
    let population = population.copy();
    let Scripted { census, script } = read;
    Ok(Asked {
        census,
        owner: Owner::Custodian,
        lines: AskedLines::Sums { population, script },
    })
}
