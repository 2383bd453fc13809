//! Edit lines: the edit of a record or of the rules that a custodian's line reads as, or the line's
//! first fault (`read_edit`); `begins_edit` says whether a word begins such a line.
//!
//! A refusal depends on the schema and the line alone, and leaves nothing. No release is looked at:
//! whether an edit is possible is told when it is published.
//!
//! Begin at `read.rt`: `parse.rt` takes the words from the line's front, `meaning.rt` looks names
//! and codes up. Contracts use a reading function by cases, and two lemmas lead to the relation of
//! the grammar and back; the laws follow from them.
#![tactic(auto)]

mod fault;
pub mod laws;
mod meaning;
mod parse;
mod read;

pub use fault::{EditTextFault, too_many};
pub use parse::begins_edit;
pub use read::read_edit;
