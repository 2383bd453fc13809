//! A disk's one file, as what keeps a journal sees it: what a read gives, and what a stop may leave
//! (`Disk`, a trait; there is no other code).
//!
//! A call fails only where the count of faults rose in it. A write that isn't synced may be torn,
//! each byte by itself. A disk that tells nothing, as the system's, has no content and no images:
//! every clause on them is empty. No stop since a moment is forgotten.
//!
//! Begin at `disk.rt` and `specs/Images`. `WhereTold content P` has `content ≡ Some file` as its
//! premise, `Leads old new step` goes by cases, and `proofs/Telling` (`forward`, `back`,
//! `Leads-same`) leads from one to the other, so no answer splits the option. All stops of several
//! calls are one record (`LeavesOnly`), which `proofs/Going` makes of single calls; one that
//! changes nothing is `IsQuiet`.
#![tactic(auto)]

mod disk;

pub use disk::{Disk, Done, Size};
