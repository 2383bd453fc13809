// The generated files.

ghost use Rattle.std.specs.Prelude.{◌≡◌, ◌≤◌, IfOk};
ghost use Rattle.tb_gen.specs.declared.limits.TheConstants.{MOST_GENERATED};
ghost use Rattle.tb_gen.specs.Generated.{generated_classes, generated_recodes};
ghost use Rattle.tb_gen.specs.Generated.{generated_ptable, generated_people, generated_script};

use crate::classes::{classes_file, recodes_file};
use crate::people::people_file;
use crate::ptable::ptable_file;
use crate::script::script_file;
use std::alloc::Global;
use tb_base::Memory;

/// The bytes of the five files that a run of a script reads.
#[derive(Drop)]
pub struct GenFiles {
    /// AREA of 100 categories, AGE of 101, SEX of 2 and TENURE of 5.
    pub classes: Vec<u8>,
    /// AGE10, a recode of AGE by decades.
    pub recodes: Vec<u8>,
    /// A pvalue from -2 to 2 at every row from 1 and every cell key.
    pub ptable: Vec<u8>,
    /// The persons, in ascending order.
    pub people: Vec<u8>,
    /// Ten rounds of tables, amends and a publication, in the lanes `a`, `b` and `custodian`.
    pub script: Vec<u8>,
}

/// The five files for so many persons, 1 to 1,000,000, whose numbers are drawn from `start` on. The
/// same two numbers give the same bytes. It takes the memory of the files, some 24 bytes a person
/// and 2 MiB.
pub fn files_of(alloc: Global, n: u32, start: u32) -> Result<GenFiles, Memory>
    requires { (1 ≤ n) × (n ≤ MOST_GENERATED) }
    ensures classes { IfOk result (λ files. files.classes.items ≡ generated_classes) }
    ensures recodes { IfOk result (λ files. files.recodes.items ≡ generated_recodes) }
    ensures ptable { IfOk result (λ files. files.ptable.items ≡ generated_ptable start) }
    ensures people { IfOk result (λ files. files.people.items ≡ generated_people n start) }
    ensures script { IfOk result (λ files. files.script.items ≡ generated_script n start) }
{
    let classes = classes_file(alloc)?;
    let recodes = recodes_file(alloc)?;
    let ptable = ptable_file(alloc, start)?;
    let people = people_file(alloc, n, start)?;
    let script = script_file(alloc, n, start)?;
    Ok(GenFiles {
        classes,
        recodes,
        ptable,
        people,
        script,
    })
}
