//! A follower of a leader's chain: batches come as numbered messages, which may be lost, repeated
//! or come in another order, and what is applied is always the next one (`deliver`).
//!
//! It never passes a gap, and at most `MOST_AHEAD` messages wait. A message that is old, too far
//! ahead, or the second of a number that waits is given up; so is one whose edits are refused.
//! Where memory is refused for the message that was delivered all is as before.
//!
//! Begin at `delivery.rt`: what batches are applied to is any `Chain`, and a `Follower` has one of
//! its own. A delivery is a function of how many growths were granted (`given`), so want of memory
//! needs no second definition. `BatchList`, for contracts alone, makes of one release a chain, so
//! the law needs no premise on release 0.
#![tactic(auto)]

mod batch_list;
mod chain;
mod delivery;
mod follower;
pub mod laws;
mod limits;
mod message;
mod own_chain;
mod window;

pub use chain::Chain;
pub use delivery::deliver;
pub use follower::Follower;
pub use limits::MOST_AHEAD;
pub use message::{Delivered, Message};
pub use window::Window;
