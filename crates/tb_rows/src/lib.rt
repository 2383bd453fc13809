//! Files with a header: one reader for every kind of file (`read_file`), its first fault with the
//! record's number, and one pair of laws.
//!
//! A reader implements `FileFormat`: `columns`, `column`, `bad_header`, `bad_csv`, `start`, `step`
//! (the record of a number, by its fields in the columns), `finish`; its ghost `format` is the
//! definition that these follow. So it proves its own `step` and `finish`, and of its law what
//! these add up to (`proofs/Meaning`). Records are counted in `read_records` alone; a kind's number
//! and word are `FaultKind::name`.
//!
//! Begin at `format.rt`, then `csv_records.rt`: a reader sees the records still to come, so a
//! loop's invariant is one equation. `cutting.rt` cuts before line feeds, so no part has a byte
//! order mark.
#![tactic(auto)]

mod columns;
mod csv_records;
mod cutting;
mod fault;
mod format;
mod header;
mod kind;
pub mod laws;

pub use columns::Fields;
pub use csv_records::CsvRecords;
pub use cutting::{CutFile, cut_file};
pub use fault::Fault;
pub use format::{FileFormat, read_file};
pub use header::Header;
pub use kind::{FaultKind, FaultName};
