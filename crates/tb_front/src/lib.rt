//! The front of the one chain: a shared word with the number of its entries (`Front`), and holders
//! who have each seen a beginning of it. The writer adds entries and knows all, the keeper knows
//! what drafts told it, passes and notes what the keeper knew.
//!
//! A front keeps no entries: but for the length all is known in proofs, and a holder has no bytes
//! beside its place. No call waits, and none but `Front::new` takes memory or is refused.
//!
//! Begin at `front.rt` and `pass.rt`. Seats of `atomic_table` have their views in proofs alone
//! (`view.rt`; `proofs/Moves`: one scheme for both splits, one for the three joins). What two
//! holders learn is one word, `IsLater`: the same front, the same base, and a beginning of the
//! list.
#![tactic(auto)]

mod front;
mod keeper;
mod pass;
mod steps;
mod view;
mod writer;

pub use front::{Entry, Front, LONGEST_CHAIN};
pub use keeper::Keeper;
pub use pass::{Note, Pass};
pub use writer::{Draft, Writer};
