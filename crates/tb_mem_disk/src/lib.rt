//! A disk in memory, of which some calls fail (`MemDisk`), for tests.
//!
//! It stops where it stands: torn writes are in the trait alone, and tests make torn files
//! themselves. A call that fails changes no byte and counts one fault. So does one that finds no
//! memory for the record of calls: it isn't recorded. After a failed `attach` nothing is told of
//! it.
//!
//! Begin at `mem_disk.rt`. Its past is the bytes at first and the writes since (`held_file.rt`), so
//! each content that it had is a number of writes, and the trait's laws are short (`specs/Laws`).
#![tactic(auto)]

mod call;
mod call_log;
mod held_file;
mod mem_disk;

pub use call::Call;
pub use mem_disk::MemDisk;
