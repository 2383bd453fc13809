//! The cells of a table from those of a cube (`roll_into`): each cell of the cube, or of a packed
//! one each that is kept, is read once and added at its place without Total, by the plan's steps;
//! the cells with Total are then summed from the table's own.
//!
//! It takes no memory and is never refused. It knows no release: that the cube is of a release's
//! records is the caller's to say (`proofs/Own` has what is known of a plan's own cube).
//!
//! Begin at `walk.rt`, which goes down to the last variable that the plan uses and sums the runs
//! behind it. A loop's facts are one record (`proofs/Descent`). In `packed.rt` a step returns the
//! kept cells that are left for the next (`AreBetween`), so nothing is divided.
#![tactic(auto)]

mod packed;
mod runs;
mod steps;
mod walk;

pub use walk::roll_into;
