//! What came of a test's call, compared with what is wanted: where they differ both are printed on
//! the standard error, so that a test which fails tells more than its row. Begin at
//! `comparison.rt`.
//!
//! No call takes memory, and none that compares prints where they are the same. A write that fails
//! is ignored.
#![tactic(auto)]

mod comparison;

pub use comparison::{is_either_text, is_status, is_text, tell};
