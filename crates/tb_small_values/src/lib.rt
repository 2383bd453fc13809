//! The small setup as values, for the tests: its schema and the setup itself, without dwellings and
//! with them, its persons, release 0, and batches of edits by their lines. Begin at `values.rt`.
//!
//! What is made so fits the schema, so a test calls what has that as its condition. A text that
//! isn't read fails the test: it is told as want of memory.
#![tactic(auto)]

mod values;

pub use values::{edits_of, people, release, schema, setup, setup_with_units};
