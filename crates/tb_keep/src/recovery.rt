// A journal that is opened, and whose batches are published, before anything else is answered.
//
// No file is both recovered and at fault, and one that is refused has one first fault: three cases
// over lists of payloads (`proofs/Refusing`).

ghost use Rattle.std.specs.Prelude.{◌≡◌, ◌≤◌, [], true};
ghost use Rattle.tb_disk.specs.Moments.{KeepsPast};
ghost use Rattle.tb_journal_file.specs.Files.{CanPut};
ghost use Rattle.tb_keep.specs.Recoveries.{IfRecovered, IsRecovery};
ghost use Rattle.tb_model.specs.Schemas.{shape_of};
ghost use Rattle.tb_session.specs.Parties.{IsCustodianOf};

use crate::playing::{Played, play};
use std::sync::Wait;
use std::thread::Threads;
use tb_board::{Custodian, Named};
use tb_disk::Disk;
use tb_journal::{Journal, JournalOpen};
use tb_session::Setting;

/// The first fault of a journal's file: it has more than nine bytes and isn't a journal; or the
/// record of a number, from 1, is none, or its batch doesn't fit the setup or can't follow.
#[derive(Clone, Copy, Debug, PartialEq, Eq)]
pub enum JournalFault {
    NotJournal,
    BadRecord(u32),
    DoesNotFollow(u32),
}

/// What became of a journal that was to be recovered: all of its batches were published, and more
/// can be put; or its file is refused, the disk failed, or memory ran out.
#[derive(Drop)]
pub enum Recovery {
    Recovered(Journal),
    Refused(JournalFault),
    DiskFault,
    Memory,
}

/// Opens the journal in a disk's file, which was attached, and publishes its batches, in order, up
/// to the first that can't be. The custodian is at release 0, and holds no edits. A file of at most
/// nine bytes is written anew, and any other stays as it is. It takes memory as `play` does.
pub fn recover<B: Named, D: Disk, R: Threads + Wait + Sync>(
    setting: &Setting<'_, B, R>,
    custodian: &mut Custodian,
    disk: &mut D,
) -> Recovery
    requires own { IsCustodianOf B.name (shape_of setting.now.setup.now.schema) custodian.old [] }
    requires first { custodian.old.writer.list ≡ [] }
    requires attached { D.attached disk.old ≡ true }
    ensures own { IsCustodianOf B.name (shape_of setting.now.setup.now.schema) custodian.new [] }
    ensures attached { D.attached disk.new ≡ true }
    ensures count { D.faults disk.old ≤ D.faults disk.new }
    ensures past { KeepsPast D.moment D.left_since disk.old disk.new }
    // The journal is live, and on its file.
    ensures live { IfRecovered result (λ journal. journal.live ≡ true) }
    ensures puts { IfRecovered result (λ journal. CanPut (D.attached disk.new) (D.content disk.new)
        (D.may_leave disk.new) journal) }
    ensures recovered { IsRecovery setting.now.setup.now custodian.old.writer.start.base (record {
      content = D.content disk.old;
      content_after = D.content disk.new;
      moment = D.moment disk.old;
      could_leave = D.may_leave disk.old;
      may_leave = D.may_leave disk.new;
      left_since = D.left_since disk.new;
      faults = D.faults disk.old;
      faults_after = D.faults disk.new;
    }) custodian.new result }
{
    let mut journal = match Journal::open(setting.alloc, disk) {
        (JournalOpen::Open, Some(journal)) => journal,
        (JournalOpen::NotJournal, _) => return Recovery::Refused(JournalFault::NotJournal),
        (JournalOpen::DiskFault, _) => return Recovery::DiskFault,
        (JournalOpen::Open, None) | (JournalOpen::Memory, _) => return Recovery::Memory,
    };
    let played = play(
        setting.rt,
        setting.alloc,
        setting.setup,
        setting.board,
        custodian,
        disk,
        &mut journal,
    );
    match played {
        Played::All => Recovery::Recovered(journal),
        Played::BadRecord(r) => Recovery::Refused(JournalFault::BadRecord(r)),
        Played::DoesNotFollow(r) => Recovery::Refused(JournalFault::DoesNotFollow(r)),
        Played::Memory => Recovery::Memory,
        Played::DiskFault => Recovery::DiskFault,
    }
}
