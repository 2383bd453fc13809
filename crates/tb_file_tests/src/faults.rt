// What is told of a file: its first fault.

use std::alloc::Global;
use tb_base::Keys;
use tb_ptable::{PTable, PTableFault};
use tb_records::{PeopleFault, read_people};
use tb_rows::{FaultKind, FaultName};
use tb_schema::{Schema, SchemaFault};
use tb_small::{CLASSES, WIDE_CLASSES};

// A file; the wide ones are read with the key range 4096.
pub enum File {
    Classes,
    Recodes,
    Ptable,
    WidePtable,
    People,
    WidePeople,
}

// What is told of a file: its fault's number, word and record, or why there is none.
pub type Told = (u8, &'static str, u32);

pub const ACCEPTED: Told = (0, "accepted", 0);

const MEMORY: Told = (0, "memory", 0);

// The name of a fault, with the number of its record.
fn fault_told(name: FaultName, at: u32) -> Told {
    (name.number(), name.word(), at)
}

fn schema_fault(fault: SchemaFault) -> Told {
    match fault {
        SchemaFault::Refused { kind, at, .. } => fault_told(kind.name(), at),
        SchemaFault::Memory => MEMORY,
    }
}

fn ptable_fault(fault: PTableFault) -> Told {
    match fault {
        PTableFault::Refused { kind, at } => fault_told(kind.name(), at),
        PTableFault::Memory => MEMORY,
    }
}

pub fn people_fault(fault: PeopleFault) -> Told {
    match fault {
        PeopleFault::Refused { kind, at } => fault_told(kind.name(), at),
        PeopleFault::Memory => MEMORY,
    }
}

fn schema_told(alloc: Global, classes: &[u8], recodes: Option<&[u8]>) -> Told {
    match Schema::read(alloc, classes, recodes) {
        Ok(_) => ACCEPTED,
        Err(fault) => schema_fault(fault),
    }
}

fn ptable_told(alloc: Global, keys: Keys, file: &[u8]) -> Told {
    match PTable::read(alloc, keys, file) {
        Ok(_) => ACCEPTED,
        Err(fault) => ptable_fault(fault),
    }
}

fn people_told(alloc: Global, classes: &[u8], file: &[u8]) -> Told {
    let Ok(schema) = Schema::read(alloc, classes, None) else {
        return MEMORY;
    };
    match read_people(alloc, &schema, file) {
        Ok(_) => ACCEPTED,
        Err(fault) => people_fault(fault),
    }
}

// Its first fault, or why there is none.
pub fn told(alloc: Global, file: &File, bytes: &[u8]) -> Told {
    match file {
        File::Classes => schema_told(alloc, bytes, None),
        File::Recodes => schema_told(alloc, CLASSES, Some(bytes)),
        File::Ptable => ptable_told(alloc, Keys::K256, bytes),
        File::WidePtable => ptable_told(alloc, Keys::K4096, bytes),
        File::People => people_told(alloc, CLASSES, bytes),
        File::WidePeople => people_told(alloc, WIDE_CLASSES, bytes),
    }
}

// The header of such a file.
pub fn header_of(file: &File) -> &'static [u8] {
    match file {
        File::Classes => b"variable,code,label\n",
        File::Recodes => b"recode,variable,code,group\n",
        File::Ptable | File::WidePtable => b"pcv,ckey,pvalue\n",
        File::People | File::WidePeople => b"person,record_key,SEX,AGE,AREA\n",
    }
}
