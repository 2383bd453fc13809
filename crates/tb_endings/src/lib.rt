//! How a run of a command ends: one whose task can't begin, by its status and last line, and one
//! whose script was run.
//!
//! An `End` is a fault of the arguments, a file that is too long, unread or refused, a bad line of
//! a script, or want of memory. `specs/Endings` says what its status and its last line are, and
//! which status follows the run of a script; `specs/Refusals` says which end a file's fault is.
#![tactic(auto)]

mod ending;
mod endings;

pub use ending::{end_by, end_run};
pub use endings::{End, Input, write_fault_line};
