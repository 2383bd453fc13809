//! The command `host`: a server whose custodian writes its batches ahead into a journal, over a
//! board whose chain begins as that of the journal's file (`serve_with_journal`).
//!
//! The journal is opened and played before the first bind. A file that is refused is an error:
//! nothing is bound, and who calls writes why. Once the journal isn't live, since the disk failed
//! or memory ran out behind a write, each `publish` whose batch follows is `unkept`, all else is
//! answered as ever, and the report ends with `fault disk`, never with `fault net`.
//!
//! Begin at `hosting.rt`, `serve_with_journal`: `tb_keep::recover`, `tb_serve::prepare`,
//! `serve_from` with a `JournalOwner`, and the report (`ending.rt`). What stops may leave is in
//! `laws.rt`.
#![tactic(auto)]

mod ending;
mod hosting;
pub mod laws;

pub use hosting::serve_with_journal;
