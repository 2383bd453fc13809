//! Marks at the places of a table, so that a thing that leads to a place by several ways counts
//! there once (`mark`).
//!
//! A number of a place without Total leads to that place and, where there are totals, to those with
//! Total in place of some of its entries: `raised_numbers`, which alone takes memory, has them for
//! all places. Nothing else is refused.
//!
//! Begin at `marks.rt` and `specs/Raised`.
#![tactic(auto)]

mod marks;
mod raised;

pub use marks::mark;
pub use raised::raised_numbers;
