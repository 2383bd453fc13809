//! The leader's lane: lines that make numbered messages (`begin N`, edits, `end`), and the reply to
//! each, whoever gets the messages (`Receiver`): a `Follower`, or who applies them to something
//! else.
//!
//! It asks for no table and takes no step. A message of which an edit, or the memory for one, is
//! refused is given up; an edit's line without a message is refused unread; `begin 0` and
//! `begin 01` are no lines of it. `restart` is one only where the receiver can go back.
//!
//! Begin at `answering.rt`, `answer`: `asks_of`, then `hold` or a delivery, and a `LeaderReply`.
//! One more line is a variant of `LeaderAsks` and `LeaderReply`, of their specs and texts, and a
//! case in `proofs/Continuing`, `Leading` and `Texts`.
#![tactic(auto)]

mod answering;
mod asks;
mod hold;
mod lane;
pub mod laws;
mod receiver;
mod reply;

pub use answering::{answer, reply_to};
pub use asks::{LeaderAsks, asks_of};
pub use lane::LeaderLane;
pub use receiver::Receiver;
pub use reply::LeaderReply;
