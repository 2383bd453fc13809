// Calls that can run out of memory and that no whole run makes, each with ample memory.

use std::alloc::Global;
use std::test::Fail;
use tb_base::{Codes, Memory, Record, Shape, VarSet};
use tb_gen::files_of;

// More than stand in place.
const NUMBERS: [u16; 9] = [0, 2, 3, 5, 8, 13, 21, 34, 55];

fn record(alloc: Global) -> Result<Record, Memory> {
    Ok(Record {
        person: 5,
        key: 7,
        codes: Codes::of(alloc, &NUMBERS)?,
    })
}

// How long the lists are.
fn records_and_lists(alloc: Global) -> Result<[usize; 4], Memory> {
    let codes = Codes::of(alloc, &NUMBERS)?.copy()?.len();
    let one = record(alloc)?.copy()?.codes.len();
    let shape = Shape::of(alloc, &NUMBERS)?.copy()?.len();
    let set = VarSet::of(alloc, &NUMBERS)?.copy()?.len();
    Ok([codes, one, shape, set])
}

// How many bytes the generated files of one person have.
fn generated_bytes(alloc: Global) -> Result<[usize; 5], Memory> {
    let files = files_of(alloc, 1, 1)?;
    Ok([
        files.classes.len(),
        files.recodes.len(),
        files.ptable.len(),
        files.people.len(),
        files.script.len(),
    ])
}

#[test]
fn ample_memory_is_enough(rt: HostRuntime) -> Result<(), Fail> {
    assert_eq!(rt; records_and_lists(rt.alloc())?, [9, 9, 9, 9]);
    let bytes = [2363, 1635, 1_886_771, 54, 14_746];
    assert_eq!(rt; generated_bytes(rt.alloc())?, bytes);
    Ok(())
}
