//! Releases of the microdata (`Release`): their records, numbers and rules, what edits make of
//! them, and the batches that lead from one to the next (`next`).
//!
//! The old release and the edits stay, whatever becomes of the next one; the first edit that isn't
//! possible refuses all. Records are read by `lend` alone, which charges their number. A batch has
//! two lists, changes of records and edits of the rules: a cube knows no rules. Releases share
//! pages, shards and rules: what an edit touches is copied once a batch.
//!
//! Begin at `following.rt`, `next`, and `specs/Possible`; then `draft.rt`. A definition by what was
//! before and after serves add, drop and amend (`made_so` of `proofs/Made`), and `replaying.rt`
//! makes a batch again without its edits. The value has the pages beside the records: stamps are
//! said of these.
#![tactic(auto)]

mod batches;
mod draft;
mod draft_rules;
mod edits;
mod fault;
mod fits;
mod following;
mod following_rules;
pub mod laws;
mod limits;
mod parts;
mod release;
mod replaying;

pub use batches::{Batch, Batches};
pub use edits::{Change, Edit, Edits, Pushed, Sets};
pub use fault::{EditFault, EditFaultKind};
pub use fits::{edit_fits, edits_fit, record_fits, records_fit, sets_fit};
pub use following::next;
pub use following_rules::follow_rules;
pub use limits::{MOST_CHANGES, MOST_EDITS, MOST_RELEASES};
pub use release::Release;
pub use replaying::replay;
pub use tb_pages::Lent;
