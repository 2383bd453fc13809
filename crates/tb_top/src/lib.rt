//! The top call (`tablebuilder`), a library so that tests call it as `main` does: it tests the
//! words of a command, reads and checks its files in their order, does its task, and returns the
//! status.
//!
//! No file is read before the words are a command's, none after one that is refused, and no line is
//! answered before all are read. A run that ends so writes one last line, without memory (`End`).
//!
//! Begin at `top.rt`, `tablebuilder`: `ask` (`asking.rt`, then `load.rt`), and `answer`, which goes
//! by the lines that are asked for and then by who owns the chain. Its clause is `Keeps`
//! (`specs/Promises`) over what the call saw (`specs/Calls`): what is asked for is a function
//! (`specs/Asking`), what may be printed a relation (`specs/Outputs`). A new way in which lines
//! come is a variant of `AskedLines` and a case of each definition that goes by it.
#![tactic(auto)]

mod asked;
mod asking;
mod follow;
mod generated;
mod host;
mod keep;
mod lanes;
pub mod laws;
mod load;
mod mirror;
mod over;
mod places;
mod summary;
mod summing;
mod sums;
mod told_text;
mod top;

pub use asked::{Asked, AskedLines, Census};
pub use generated::GENERATED_THRESHOLD;
pub use load::{LARGE_BYTES, MOST_BYTES, most_bytes_of};
pub use top::tablebuilder;
