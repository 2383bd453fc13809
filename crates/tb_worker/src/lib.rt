//! A worker: it serves the sessions of one listener, one after another, as one that answers lines
//! (`serve_sessions`): accept, `tb_lines::answer_lines`, give back.
//!
//! It knows of no other worker, no port and no board. A session that ends by a fault ends no other;
//! it stops after so many sessions, where none is to come, or where an accept failed.
//!
//! Begin at `worker.rt`. `visits_as` (`proofs/Visiting`) maps any relation of legal replies to
//! another over sessions and visits, so a list of sessions is said of batches and held edits alone.
#![tactic(auto)]

mod next;
mod shift;
mod worker;

pub use shift::Shift;
pub use worker::serve_sessions;
