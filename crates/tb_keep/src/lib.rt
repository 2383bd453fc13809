//! The custodian of a board whose batches are written ahead into a journal, and the whole of a
//! script with one (`run_with_journal`): what the file has is published first, and then each
//! further batch is on the disk before its publication is told.
//!
//! Playing writes nothing, holds one batch at a time, and publishes none that doesn't fit the setup
//! or can't follow: it ends there, with the number of the record. A file of at most nine bytes is
//! begun anew, any other stays as it is. Once the disk has failed `publish` is answered `unkept`,
//! and the edits are held still.
//!
//! Begin at `journal_run.rt`: `recover` opens and plays; then the journal and the lent disk become
//! a `JournalFile`, this and the `BoardPublisher` a `Keeper`, and that a `JournalOwner`, which
//! answers the custodian's lines in `run_owned`.
#![tactic(auto)]

mod journal_owner;
mod journal_run;
pub mod laws;
mod playing;
mod publisher;
mod recovery;
mod running;

pub use journal_owner::JournalOwner;
pub use journal_run::{KeepEnd, run_with_journal};
pub use playing::{Played, play};
pub use publisher::BoardPublisher;
pub use recovery::{JournalFault, Recovery, recover};
pub use running::run_kept;
