//! Cubes that follow the releases: that of a release, counted from its records by one thread
//! (`count_all`), and from it that of the next release, by the batch that leads there (`advance`).
//!
//! `advance` takes no memory and is never refused. It passes over edits of the rules, and has no
//! release among its arguments: that the cube is of one which the batch follows is its condition.
//!
//! Begin at `advancing.rt`. Where a change is made among the records is one fact (`Spot` of
//! `proofs/Spots`): the old ones are `first ++ (before ++ rest)`, the new ones
//! `first ++ (after ++ rest)`. Add, drop and amend are three instances of it, and `tb_past` goes
//! back by the same.
#![tactic(auto)]

mod advancing;
mod counting;

pub use advancing::advance;
pub use counting::count_all;
