//! What the tests of answers share: a board over the four persons of the small setup, its custodian
//! as a party, and a script that is read. Begin at `boards.rt`.
//!
//! A board or a script that can't be made fails the test: it is told as want of memory.
#![tactic(auto)]

mod boards;

pub use boards::{opening, opening_for, owner, read_script};
