//! Batches that are written ahead of their publication: what they are written into, as it is seen
//! from above (`WriteAhead`), the party that publishes them (`Publisher`), and the answer to a line
//! of that party (`answer_ahead`). It knows no disk, no board and no desk.
//!
//! What can't follow is refused, and not written. Where nothing is put any more, or the disk fails,
//! the reply is `unkept`; where the memory for it is refused, `memory`: both times the edits are
//! held still. Where the disk failed, a file that a stop leaves may have the batch; after a
//! `memory` that came once it was kept, each has it. Nothing more is put then.
//!
//! Begin at `answering.rt`, `answer_ahead`: `try_next`, `put`, and then the party answers the line.
//! Who writes elsewhere, or publishes elsewhere, is one more instance, with the laws of its trait.
#![tactic(auto)]

mod ahead;
mod answering;
mod keeper;
mod publisher;

pub use ahead::{Put, WriteAhead};
pub use answering::answer_ahead;
pub use keeper::Keeper;
pub use publisher::{Publisher, Trial};
