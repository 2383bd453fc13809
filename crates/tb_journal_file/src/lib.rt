//! A journal and the disk that its file is on, lent for so long: what batches are written ahead
//! into (`JournalFile`, a `WriteAhead` of `tb_ahead`). The program uses all of it but `open` and
//! `read_next`.
//!
//! No call takes another disk in its place (`Continues`), so once it is let go, who lent the disk
//! knows what the calls left of it. Once a call failed nothing is put.
//!
//! Begin at `journal_file.rt`. What no call changes of a field that holds a `&mut` is its
//! `ghost_name`: the instance says so, and Rattle proves it there by itself.
#![tactic(auto)]

mod journal_file;

pub use journal_file::JournalFile;
