//! Laws of a server that keeps a journal. Each function does nothing, and its contract is a law.

ghost use Rattle.std.specs.Prelude.{Bool, ℕ};
ghost use Rattle.tb_host.specs.Laws.{IsDurable, StaysKept, StaysPublished};

use tb_ahead::WriteAhead;
use tb_disk::Disk;
use tb_session::laws::numbers_never_fall;

/// No table that an analyst's session printed is of a release that isn't on the disk: the batches
/// that an analyst had seen at any line of its sessions are a beginning of those for which each
/// file stands that a stop may leave.
pub fn what_is_seen_is_durable()
    ensures { IsDurable }
{
    // What an analyst has seen it sees in all sessions after.
    numbers_never_fall();
}

/// What a session of the custodian's kept stays kept: each file that a stop since its return may
/// have left stands for a list of batches that begins with those for which the files stood then,
/// and is a beginning of those for which they stand now. What batches are written ahead into has
/// a disk, and is told by it.
pub fn what_is_kept_stays<W: WriteAhead, D: Disk>()
    ensures { (disk : W → D) (live : W → Bool) (faults : W → ℕ)
        → StaysKept disk D.content D.may_leave D.moment D.left_since W.Continues live faults }
{}

/// What was published stays so: where a line of a session of the custodian's returned, each file
/// that a stop since may have left stands for a list of batches that begins with those of the
/// custodian's chain, and is a beginning of those for which they stand now. It begins where a
/// journal was recovered, as `tb_keep::recover` leaves it.
pub fn what_is_published_stays<W: WriteAhead, D: Disk>()
    ensures { (disk : W → D) (live : W → Bool) (faults : W → ℕ)
        → StaysPublished disk D.content D.may_leave D.moment D.left_since W.Continues live faults }
{}
