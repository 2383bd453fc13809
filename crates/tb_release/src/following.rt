ghost use Rattle.std.specs.Prelude.{◌≡◌, All, IfOk, IfErr};
ghost use Rattle.tb_base.specs.Records.{AllFit};
ghost use Rattle.tb_release.specs.declared.fault.EditFault.TheVariants as fault;
ghost use Rattle.tb_release.specs.Batches.{Follows, batch_refusal};
ghost use Rattle.tb_release.specs.Chains.{after_batch};
ghost use Rattle.tb_release.specs.Laws.{EditFits};
ghost use Rattle.tb_release.specs.Results.{ChangeFits, IsNext, IsWhy};

use crate::batches::Batch;
use crate::draft::Draft;
use crate::edits::Edits;
use crate::fault::{EditFault, EditFaultKind};
use crate::limits::{MOST_CHANGES, MOST_RELEASES};
use crate::release::Release;
use std::alloc::Global;
use tb_base::Shape;

// The refusal of all edits together.
fn refused(kind: EditFaultKind) -> EditFault
    ensures { result ≡ fault.Refused kind 0 }
{
    EditFault::Refused { kind, edit: 0 }
}

/// The next release after some edits, and the batch that leads to it. The old release stays as it
/// is, and so do the edits.
///
/// They are made in their order, each on what those before it left. The first refusal is returned:
/// `Nothing` where there is no edit; `TooMany` where the old release is the last that may be, or
/// there would be too many edits; and else that of the first edit that isn't possible, with its
/// number. It takes memory for the changes, and for a copy of each page and shard that an edit
/// touches, and of the rules where an edit sets something in them; all else is shared with the old
/// release. After release 0, which has no key book, it takes memory for one of all its records, and
/// the time to make it.
pub fn next(
    alloc: Global,
    shape: &Shape,
    old: &Release,
    edits: &Edits,
) -> Result<(Release, Batch), EditFault>
    requires fit { AllFit shape.now old.now.records }
    requires edits_fit { All (EditFits shape.now) edits.now }
    // It returns the next release where the edits can follow, and else their first refusal.
    ensures next { IfOk result (λ made. IsNext old.now edits.now made.0 made.1) }
    ensures why { IfErr result (λ fault. IsWhy (batch_refusal old.now edits.now) fault) }
    // The batch follows the old release, and leads to the next one by itself.
    ensures follows { IfOk result (λ made. Follows old.now made.1) }
    ensures leads { IfOk result (λ made. made.0 ≡ after_batch old.now made.1) }
    // All their records fit the shape.
    ensures fit { IfOk result (λ made. AllFit shape.now made.0.records) }
    ensures changes_fit { IfOk result (λ made. All (ChangeFits shape.now) made.1.changes) }
{
    let list = edits.all();
    if list.is_empty() {
        return Err(refused(EditFaultKind::Nothing));
    }
    let in_all = old.changes() as usize + list.len();
    if old.number() >= MOST_RELEASES || in_all > MOST_CHANGES as usize {
        return Err(refused(EditFaultKind::TooMany));
    }
    let mut draft = Draft::of(alloc, old)?;
    let batch = draft.make_all(alloc, shape, list)?;
    let release = draft.finish(alloc, list.len())?;
    Ok((release, batch))
}
