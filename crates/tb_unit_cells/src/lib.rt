//! The cells of a table that counts dwellings: a dwelling belongs to a place where at least one of
//! its persons is among the place's own records, and counts there once (`units_into`).
//!
//! Nothing is kept of it. Where memory is refused the cells are as before.
//!
//! Begin at `counting.rt`: the number of each record's place is noted at the link of its person
//! (`noting.rt`), and then each dwelling is marked along the chain of its links (`marking.rt`). The
//! definition is `homes_cells` of `tb_model`; `proofs/Homes` makes it of these two.
#![tactic(auto)]

mod counting;
mod link_numbers;
mod marking;
mod noting;

pub use counting::units_into;
