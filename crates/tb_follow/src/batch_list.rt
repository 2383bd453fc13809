// The list of a chain's batches, for contracts alone.

ghost use Rattle.std.specs.Prelude.{◌≡◌, ◌++◌, ◌∷◌, [], List};
ghost use Rattle.std.specs.Borrow.{ftrue};
ghost use Rattle.tb_release.specs.Batches.{BatchValue};

use std::marker::Model;
use tb_release::Batch;

/// Batches that contracts see and nobody else: it has no bytes, and its methods do nothing when the
/// program runs.
///
/// So who follows a chain may be seen as its batches, and keeps none of them.
#[derive(Drop)]
pub(crate) struct BatchList {
    pub(crate) ghost batches: { List BatchValue },
}

impl Model for BatchList {
    // It owns nothing. A struct may hold a value for contracts only beside this member.
    ghost also_owns = { λ _. ftrue };
}

impl BatchList {
    /// No batches.
    pub(crate) fn empty() -> BatchList
        ensures { result.batches ≡ [] }
    {
        BatchList {}
    }

    /// These batches and one more.
    pub(crate) fn and(&self, batch: &Batch) -> BatchList
        ensures { result.batches ≡ self.now.batches ++ batch.now ∷ [] }
    {
        let _ = batch;
        BatchList {}
    }
}
