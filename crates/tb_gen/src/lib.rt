//! Generated input: the five files of a number of persons and a start (`files_of`), for runs that
//! need none of their own. It is no data of anyone's: the numbers come from a linear congruential
//! generator.
//!
//! The same two numbers give the same bytes. Each file is written once, into room that was reserved
//! for all of it; where that is refused there are no files.
//!
//! Begin at `files.rt` and `specs/Generated`. A loop's invariant: what is written so far, and then
//! `rest_of` the bound, is the whole file (`proofs/Steps`, three lemmas for every loop);
//! `each_below`, `after` and `rest_of` are `unfoldable`, so no bound ever unfolds. A line's
//! definition takes the state at which its draws begin, and a file says which that is.
#![tactic(auto)]

mod classes;
mod draws;
mod files;
mod heading;
mod limits;
mod line;
mod people;
mod ptable;
mod script;
mod variables;

pub use files::{GenFiles, files_of};
pub use limits::MOST_GENERATED;
pub use variables::Variable;
