//! Past releases of a chain: a cube led back to the release before (`retreat`), or to any other
//! release by the batches between (`lead_to`); release `n` made anew from release 0 (`release_at`),
//! or its rules alone (`rules_at`).
//!
//! To lead a cube takes no memory and is never refused. `release_at` shares the pages that no batch
//! touched; where it finds no memory there is no release, and the chain stays.
//!
//! Begin at `leading.rt`. The way back through a batch is `Spot` of `tb_delta` read the other way
//! round (`proofs/Backwards`), so the lemma that makes a change serves to undo it, the last one
//! first.
#![tactic(auto)]

mod leading;
mod releases;
mod retreating;

pub use leading::lead_to;
pub use releases::{release_at, rules_at};
pub use retreating::{retreat, there_and_back};
