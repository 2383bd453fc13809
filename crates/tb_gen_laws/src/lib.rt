//! Laws of the generated files: each is in its grammar and no longer than it may be, so a run over
//! them never ends by a file. There is no code: each function does nothing, and its contract is a
//! law of the definitions that `tb_gen` cites for what it writes and the readers for what they
//! read.
//!
//! Begin at `people.rt`. The classification and its recodes are computed from their texts
//! (`proofs/Computed`); of the other three files it is an induction over their lines.
#![tactic(auto)]

pub mod classes;
pub mod people;
pub mod ptable;
pub mod script;
