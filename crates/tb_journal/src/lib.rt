//! A journal of batches in a disk's file, each on the disk before it is acknowledged (`Journal`).
//!
//! The file is `TBJOURN1`, a gate, and records: length, payload, the gate of the next. The first
//! gate that isn't 1 ends it. `put` writes what stands behind the gate, with a shut gate as its
//! last byte, and syncs; then it opens the gate, one byte, and syncs: a stop leaves the old gate,
//! or the new record whole. After a fault nothing more is put. Only a file of at most nine bytes is
//! begun anew.
//!
//! Begin at `journal.rt`. A place in a file (`HasGate`) is eight bytes, the records so far, and a
//! rest that isn't empty; every step splits the rest. Only `write_through` (`through.rt`) knows of
//! torn writes. `find` knows no journal and `take` no disk: `proofs/Taking` joins them.
#![tactic(auto)]

mod fitting;
mod journal;
mod opening;
mod reading;
mod recovered;
mod through;

pub use fitting::fits;
pub use journal::{Journal, Put};
pub use opening::{HEADER, JournalOpen};
pub use recovered::Recovered;
