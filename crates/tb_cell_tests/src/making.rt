// Persons by their categories.

use std::alloc::Global;
use tb_base::{Codes, Memory, People, Record};

// Adds a record. One that can't be added fails the test: it is told as want of memory.
fn add_record(people: &mut People, record: Record) -> Result<(), Memory> {
    match people.add(record) {
        Ok(_) => Ok(()),
        Err(_) => Err(Memory),
    }
}

// Adds a person of these categories.
pub fn add(
    alloc: Global,
    people: &mut People,
    person: u32,
    key: u16,
    codes: &[u16],
) -> Result<(), Memory> {
    let codes = Codes::of(alloc, codes)?;
    add_record(people, Record { person, key, codes })
}
