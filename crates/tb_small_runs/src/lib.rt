//! What the tests of whole commands share, over the small setup: its files in memory, a command's
//! words, ports to which no session is to come, and a run with a counter of its own. Begin at
//! `running.rt`.
//!
//! Every call that takes memory says where it has none.
#![tactic(auto)]

mod running;

pub use running::{quiet_ports, run_with_disk, small_files, words_of};
