// The parts of an amend.
//
// An amend builds the person's categories anew in a small list, since the categories of a record
// have no setter.

ghost use Rattle.std.specs.Prelude.{◌≡◌, IfOk};
ghost use Rattle.tb_release.specs.Drafts.{HaveVariables};
ghost use Rattle.tb_release.specs.Edits.{amended};

use crate::edits::Sets;
use std::alloc::Global;
use tb_base::{Codes, Memory, Record};

// The categories as a list.
pub(crate) fn list_of(alloc: Global, codes: &Codes) -> Result<Vec<u16>, Memory>
    ensures { IfOk result (λ list. list.items ≡ codes.now) }
{
    let mut list = Vec::with_capacity(alloc, codes.len())?;
    for i in 0..codes.len() {
        list.push(codes.at(i))?;
    }
    Ok(list)
}

// The record with the settings made.
pub(crate) fn amended_record(alloc: Global, old: &Record, sets: &Sets) -> Result<Record, Memory>
    requires { HaveVariables sets.now old.now.codes }
    ensures { IfOk result (λ new. new ≡ amended sets.now old.now) }
{
    let mut list = list_of(alloc, &old.codes)?;
    for i in 0..sets.len() {
        let (variable, category) = sets.at(i);
        list[variable as usize] = category;
    }
    Ok(Record {
        person: old.person,
        key: old.key,
        codes: Codes::of(alloc, &list)?,
    })
}
