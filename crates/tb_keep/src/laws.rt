//! Laws of batches that are written ahead and recovered. Each function does nothing, and its
//! contract is a law.

ghost use Rattle.std.specs.Prelude.{Bool, ℕ};
ghost use Rattle.tb_keep.specs.Chains.{IsOwnKeptStep, StaysTheirs};
ghost use Rattle.tb_keep.specs.JournalLaws.{IsRecoveredOrRefused};
ghost use Rattle.tb_keep.specs.KeptRuns.{IsKeptReply};
ghost use Rattle.tb_keep.specs.Staying.{LinesStayKept, LinesStayPublished};

use tb_ahead::WriteAhead;
use tb_disk::Disk;

/// The chain of a custodian stays that of the batches for which its file stands.
pub fn the_chain_is_that_of_the_batches()
    ensures { StaysTheirs IsOwnKeptStep }
{}

/// It does so over the lines of a script, in which other lanes ask too.
pub fn the_chain_of_a_script_is_that_of_the_batches()
    ensures { StaysTheirs IsKeptReply }
{}

/// A journal whose batches are recovered has no fault, and one that is refused has one first fault:
/// so how its file ends a run is told one way only.
pub fn a_journal_is_recovered_or_refused()
    ensures { IsRecoveredOrRefused }
{}

/// What a line of a script kept stays kept: each file that a stop since its return may have left
/// stands for a list of batches that begins with those for which the files stood then, and is a
/// beginning of those for which they stand now. Where the script began with a recovered journal, as
/// `recover` leaves it, these are the batches that were published by then. What batches are written
/// ahead into has a disk, and is told by it.
pub fn what_a_line_kept_stays<W: WriteAhead, D: Disk>()
    ensures kept { (disk : W → D) (live : W → Bool) (faults : W → ℕ)
        → LinesStayKept disk D.content D.may_leave D.moment D.left_since W.Continues live faults }
    ensures published { (disk : W → D) (live : W → Bool) (faults : W → ℕ)
        → LinesStayPublished disk D.content D.may_leave D.moment D.left_since W.Continues live
        faults }
{}
