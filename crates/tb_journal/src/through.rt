// Writes that are on the disk when they return.

ghost use Rattle.std.specs.Prelude.{◌≡◌, ◌≤◌, ◌<◌, ◌^◌, ◌+◌, true, ℕ, List, is_none, length};
ghost use Rattle.tb_io.specs.Faults.{HasRisen};
ghost use Rattle.tb_disk.specs.Images.{Leads, Only, Torn, WhereTold};
ghost use Rattle.tb_disk.specs.Moments.{KeepsPast, LeavesOnly};
ghost use Rattle.tb_disk.specs.declared.disk.Done.TheVariants as done;
ghost use Rattle.tb_journal.specs.Records.{HasLength, behind_of, payload_behind};
ghost use Rattle.tb_journal.specs.Stops.{EndsWithOrWithout};
ghost use Rattle.tb_journal.specs.Through.{IsThrough, IsReady, IsPut};

use tb_disk::{Disk, Done};

/// Writes and syncs. Any stop in it leaves a file in which the write is cut short.
pub(crate) fn write_through<D: Disk>(disk: &mut D, at: u64, bytes: &[u8]) -> Done
    requires attached { D.attached disk.old ≡ true }
    requires within { WhereTold (D.content disk.old) (λ file. at ≤ length file) }
    requires durable { WhereTold (D.content disk.old) (λ file. Only file (D.may_leave disk.old)) }
    ensures attached { D.attached disk.new ≡ true }
    ensures tells { is_none (D.content disk.new) ≡ is_none (D.content disk.old) }
    ensures through { result ≡ done.All → Leads (D.content disk.old) (D.content disk.new)
        (IsThrough (D.may_leave disk.new) at bytes.now) }
    ensures any_moment { WhereTold (D.content disk.old) (λ file.
        LeavesOnly D.moment D.left_since disk.old disk.new (Torn at (length bytes.now) file)) }
    ensures past { KeepsPast D.moment D.left_since disk.old disk.new }
    ensures count { D.faults disk.old ≤ D.faults disk.new }
    ensures failed { result ≡ done.Failed → HasRisen (D.faults disk.old) (D.faults disk.new) }
{
    match disk.write_at(at, bytes) {
        Done::All => disk.sync(),
        Done::Failed => Done::Failed,
    }
}

/// Writes a payload's record at the shut gate of that place: first what stands behind the gate, and
/// once that is on the disk the open gate. Any stop in it leaves a file that stands for the
/// payloads so far, with this one or without.
pub(crate) fn write_record<D: Disk>(disk: &mut D, place: u64, behind: &[u8]) -> Done
    requires attached { D.attached disk.old ≡ true }
    requires payload { HasLength (payload_behind behind.now) }
    requires behind { behind.now ≡ behind_of (payload_behind behind.now) }
    requires ready { WhereTold (D.content disk.old) (IsReady (D.may_leave disk.old) place) }
    ensures attached { D.attached disk.new ≡ true }
    ensures tells { is_none (D.content disk.new) ≡ is_none (D.content disk.old) }
    ensures put { result ≡ done.All → Leads (D.content disk.old) (D.content disk.new)
        (IsPut (D.may_leave disk.new) place (payload_behind behind.now)) }
    ensures any_moment { WhereTold (D.content disk.old) (λ file. LeavesOnly D.moment D.left_since
        disk.old disk.new (EndsWithOrWithout file (payload_behind behind.now))) }
    ensures past { KeepsPast D.moment D.left_since disk.old disk.new }
    ensures count { D.faults disk.old ≤ D.faults disk.new }
    ensures failed { result ≡ done.Failed → HasRisen (D.faults disk.old) (D.faults disk.new) }
{
    match write_through(disk, place.saturating_add(1), behind) {
        Done::All => write_through(disk, place, &[1]),
        Done::Failed => Done::Failed,
    }
}
