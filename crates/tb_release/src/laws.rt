//! Laws of edits, batches and chains. Each function does nothing, and its contract is a law.
ghost use Rattle.tb_release.specs.Laws.{CanFollowUnlessRefused, StaySound, KeysStay, StayFitting};
ghost use Rattle.tb_release.specs.Laws.{BatchesLeadOn, ChainsHold, ChainsGoOn, ChainsSplit};
ghost use Rattle.tb_release.specs.Laws.{BatchesKeepPages, FitIsTold, StampsTell};

/// Edits can follow a release exactly where there is no refusal.
pub fn edits_follow_unless_refused()
    ensures { CanFollowUnlessRefused }
{}

/// Possible edits leave a release in which persons are distinct, each record's key stands in the
/// key book, and there are no more records than there may be.
pub fn possible_edits_leave_a_sound_release()
    ensures { StaySound }
{}

/// The key book only grows, and no person's key changes.
pub fn keys_stay()
    ensures { KeysStay }
{}

/// The test of edits is true exactly where what each adds or sets fits the shape, or is in range.
pub fn fit_is_told()
    ensures { FitIsTold }
{}

/// Edits that fit a shape leave records that fit it.
pub fn fitting_edits_leave_fitting_records()
    ensures { StayFitting }
{}

/// The batch of edits leads to the release that the edits leave.
pub fn changes_lead_where_edits_lead()
    ensures { BatchesLeadOn }
{}

/// The release after a chain is sound, has the keys from before, and counts batches, changes and
/// edits.
pub fn chains_hold()
    ensures { ChainsHold }
{}

/// A chain goes on by a batch that follows the release after it.
pub fn chains_go_on()
    ensures { ChainsGoOn }
{}

/// The first batches of a chain are a chain, and the others are one from the release after them.
pub fn chains_split()
    ensures { ChainsSplit }
{}

/// After a batch each page has the next release's number as its stamp, or is as it was.
pub fn batches_keep_pages()
    ensures { BatchesKeepPages }
{}

/// A page of the release after a chain is that page of the release whose number is its stamp.
pub fn stamps_tell()
    ensures { StampsTell }
{}
