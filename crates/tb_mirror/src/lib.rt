//! The command `mirror`: a server over a board whose batches are a leader's, which come in numbered
//! messages at the first port; each is published when all before it are (`serve_mirror`).
//!
//! The first port takes `where`, `stats`, `clear`, `cache K` and the leader's lines, and refuses
//! every other, `restart` too. A message that isn't ended goes with its session; what waits stays,
//! also from one session to the next. Nothing tells who leads: the laws ask that no message is
//! forged.
//!
//! Begin at `mirror.rt`: three layers, each a trait's instance. `BoardChain` is the custodian as a
//! `Chain` of `tb_follow` (`apply` is `Board::publish`), `BoardFollower` that and a `Window` as a
//! `Receiver` of `tb_leader`, `Mirror` the leader's lane over it as an `Owner`. Its state is the
//! lane's (`LaneValue`), so the laws of the leader's lane are a mirror's.
#![tactic(auto)]

mod asks;
mod board_chain;
mod board_follower;
pub mod laws;
mod mirror;
mod serving;

pub use asks::{MirrorAsks, asks_of};
pub use board_chain::BoardChain;
pub use board_follower::BoardFollower;
pub use mirror::Mirror;
pub use serving::serve_mirror;
