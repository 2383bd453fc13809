// What is told of the two files: their first fault.

use std::alloc::Global;
use tb_base::Keys;
use tb_rows::FaultKind;
use tb_schema::MOST_UNSTATED;
use tb_units::{Units, UnitsFault, UnitsFile};

// The file that is refused, and its fault's number, word and record; or why there is none.
pub type Told = (&'static str, u8, &'static str, u32);

pub const ACCEPTED: Told = ("", 0, "accepted", 0);

const MEMORY: Told = ("", 0, "memory", 0);

fn word_of(file: UnitsFile) -> &'static str {
    match file {
        UnitsFile::Dwellings => "dwellings",
        UnitsFile::Links => "links",
    }
}

fn fault_told(fault: UnitsFault) -> Told {
    match fault {
        UnitsFault::Refused { file, kind, at } => {
            (word_of(file), kind.name().number(), kind.name().word(), at)
        }
        UnitsFault::Memory => MEMORY,
    }
}

// The first fault of two files, or why there is none.
pub fn told(alloc: Global, keys: Keys, dwellings: &[u8], links: &[u8]) -> Told {
    match Units::read(alloc, MOST_UNSTATED, keys, dwellings, links) {
        Ok(_) => ACCEPTED,
        Err(fault) => fault_told(fault),
    }
}
