//! The listener of the system: sessions over TCP on the loopback address (`RealListen`). Its
//! sessions aren't told: what is proved is its port, and that its count of faults rises where a
//! call fails.
//!
//! Replies wait in an outbox of 16 KiB, made at the bind and shared by each session's two ends: it
//! is written out where it is full, before each read, and at the end. An accept whose client has
//! gone is tried again, a thousand times in a row; one for which files or memory are wanting after
//! a second, sixty times; any other error ends the port. A session that is given back before its
//! client has ended is read for two seconds at most, so that its last reply isn't lost by a reset.
//!
//! Several listeners may share one port (`Door`): all have one socket, which takes one file however
//! many they are, and the last of them closes it. Whose client sends nothing, or takes nothing, for
//! the time that a listener was given has a session that ends by a fault, never as at an end of its
//! stream: a last line without its end isn't answered.
//!
//! Begin at `real_listen.rt`, then `door.rt`, `trouble.rt` (errors), `real_stream.rt` (both ends)
//! and `lingering.rt`. Sockets here can't be asked for keep-alive, and would see a proxy alone.
#![tactic(auto)]

mod door;
mod lingering;
mod real_listen;
mod real_stream;
mod trouble;

pub use door::Door;
pub use real_listen::RealListen;
pub use real_stream::{RealSource, RealStreamSink};
