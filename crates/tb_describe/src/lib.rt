//! What may be asked: the reply to a line whose first word is `describe` (`describe`). It lists the
//! variables and recodes, or the categories under one name, as records that `csv` writes, or tells
//! the line's first fault.
//!
//! It goes by the schema and the line alone: it looks at no release, so equal schemas give equal
//! replies, but where memory was refused. All memory is taken before the first byte.
//!
//! Begin at `description.rt`, `describe`, then `lists.rt`. A writer of `csv` holds some kilobytes
//! in place, so it isn't passed on in a `Result`.
#![tactic(auto)]

mod description;
mod lists;
mod records;

pub use description::{Description, describe, is_description};
