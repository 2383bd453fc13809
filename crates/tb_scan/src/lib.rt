//! A table's cells from records: `empty_cells`, `put_all` for each piece, and `put_totals` once at
//! the end. The program doesn't use `scan_into`, which merges with cells that are there.
//!
//! Only `empty_cells` takes memory or is refused.
//!
//! Begin at `put.rt`. `Hold plan cells records` grows by a piece (`held` on `put_all`, for any
//! records before), so a walk over pieces has an invariant of one line, and `put_totals` makes
//! `cells_of` of it. Up to 8 cells are tallied (`tallied.rt`): the places and keys of 256 records
//! go into columns, and `tally` goes over them by vectors for each cell. Places are worked out a
//! variable at a time as far as 32 bits go: a larger one is none of 8 cells.
#![tactic(auto)]

mod put;
mod scan;
mod tallied;

pub use put::put_all;
pub use scan::{empty_cells, put_totals, scan_into};
pub use tallied::numbers_of;
