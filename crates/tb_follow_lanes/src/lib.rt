//! A script that is led: its lane `leader` brings a leader's messages to a follower, and every
//! other lane, one named `custodian` too, asks at the release that the follower has reached
//! (`run_follow`).
//!
//! There is no board and no lock: nothing waits, no cube is kept, an analyst's line changes
//! nothing, and `at N` is a fault of syntax. The run is never out of memory as a whole: a line that
//! finds none is answered `memory`.
//!
//! Begin at `run.rt`, `run_follow`: a second `LineList` for `Script`, whose asker is a `Speaker`,
//! which `tb_lines::answer_list` finds by the `Answerer` (`answering.rt`, `Led`). That hands a line
//! to `tb_leader::answer`, `tb_describe` or `tb_tables::answer_at`.
#![tactic(auto)]

mod answering;
pub mod laws;
mod run;
mod speaker;

pub use run::run_follow;
pub use speaker::Speaker;
