//! Dense arrays of cells in row-major order: how many cells there are, and the places with Total
//! (`add_totals`). Records go to their place without Total alone; the others are made once, at the
//! end.
//!
//! Nothing here takes memory or is refused. Counts are summed modulo 2^32, so no bound is asked:
//! who knows that a sum is small knows it exactly. A size past `MOST_CELLS` is cut off at one more.
//!
//! Begin at `totals.rt`: a sum and its undoing are one recursion with a `Sign`, and `IsSigned`
//! reads old and new the other way round for the undoing, so loops need no cases. `proofs/Reached`
//! has what things with numbers add at the places: records for a scan, lists of categories for a
//! roll-up.
#![tactic(auto)]

mod products;
mod totals;

pub use products::{MOST_CELLS, cells_over, places_from};
pub use totals::{add_totals, take_totals};
