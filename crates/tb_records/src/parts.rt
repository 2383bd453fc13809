// Microdata in parts, which threads read.

ghost use Rattle.std.specs.Prelude.{◌≡◌, ◌+◌, flat_map, length, Ok};
ghost use Rattle.std.specs.Prelude.{IfOk, IfSome};
ghost use Rattle.std.specs.List.{AllZip};
ghost use Rattle.tb_records.specs.Lines.{AreLines};
ghost use Rattle.tb_records.specs.People.{people_of};
ghost use Rattle.tb_records.specs.WholeFiles.{MayStand};

use crate::distinct::may_stand;
use crate::fault::PeopleFault;
use crate::format::PeopleFile;
use crate::lines::read_lines;
use rayon::prelude::*;
use std::alloc::Global;
use std::thread::Threads;
use tb_base::Record;
use tb_rows::{Fault, Header, cut_file};
use tb_schema::Schema;

// What each part says, each read in a thread of its own where one can be made.
fn lists_of(
    rt: &(impl Threads + Sync),
    alloc: Global,
    schema: &Schema,
    header: &Header,
    parts: &[&[u8]],
) -> Result<Vec<Vec<Record>>, PeopleFault>
    requires { length header.now.indices ≡ length schema.now.variables + 2 }
    ensures { IfOk result (λ lists. AllZip
        (λ part list. AreLines schema.now header.now part.now list.items)
        parts.now lists.items) }
{
    let read = parts
        .par_iter()
        // Without it so short a list is gone through by one thread.
        .with_min_len(1)
        .map(
            |part: &&[u8]| -> Result<Vec<Record>, PeopleFault>
                requires { length header.now.indices ≡ length schema.now.variables + 2 }
                ensures { IfOk result (λ list.
                    AreLines schema.entry.now header.entry.now part.now.now list.items) }
            { read_lines(alloc, schema, header, part) },
        )
        .collect::<Result<Vec<Vec<Record>>, PeopleFault>>(rt, alloc);
    match read {
        Ok(lists) => lists,
        Err(_) => Err(Fault::Memory),
    }
}

/// The records of a file that is read in at most so many parts, a list for each of them, if the file
/// is cut, has no fault, and memory suffices.
pub fn people_in_parts(
    rt: &(impl Threads + Sync),
    alloc: Global,
    schema: &Schema,
    file: &[u8],
    parts: usize,
) -> Result<Option<Vec<Vec<Record>>>, PeopleFault>
    ensures ok { IfOk result (λ o. IfSome o (λ lists.
        people_of schema.now file.now ≡ Ok (flat_map (λ list. list.items) lists.items))) }
    ensures stand { IfOk result (λ o. IfSome o (λ lists.
        MayStand schema.now.persons (flat_map (λ list. list.items) lists.items))) }
{
    let Some(cut) = cut_file(alloc, &PeopleFile { schema }, file, parts)? else {
        return Ok(None);
    };
    let lists = lists_of(rt, alloc, schema, &cut.header, &cut.parts)?;
    if may_stand(rt, alloc, &lists, schema.persons())? {
        Ok(Some(lists))
    } else {
        Ok(None)
    }
}
