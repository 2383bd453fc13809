// A script with a journal: the journal is opened and played, and then the script's lines are
// answered.
//
// At the end the owner is taken apart into names, the lent disk too: of one that is dropped whole,
// or whose `&mut` goes into `_`, nothing is known of what the borrow left. Which of the other
// fields may be `_` had to be tried: a name for the journal lost what the disk is.
//
// `run_played` says what a run leaves of any batches for which the files stood (`AreKeptFrom`); who
// played them gives those.

ghost use Rattle.std.specs.Prelude.{◌≡◌, ◌≤◌, List, [], None, true};
ghost use Rattle.tb_disk.specs.Moments.{KeepsPast};
ghost use Rattle.tb_io.specs.Faults.{HasRisen};
ghost use Rattle.tb_journal_file.specs.Files.{CanPut, EachStandsFor};
ghost use Rattle.tb_keep.specs.Chains.{batches_of};
ghost use Rattle.tb_keep.specs.JournalRuns.{AreKeptFrom, IsJournalRun, after_playing};
ghost use Rattle.tb_keep.specs.declared.journal_run.KeepEnd.TheVariants as keep_end;
ghost use Rattle.tb_model.specs.Schemas.{shape_of};
ghost use Rattle.tb_release.specs.declared.edits.Edit.{Edit};
ghost use Rattle.tb_script.specs.declared.run.RunEnd.TheVariants as run_end;
ghost use Rattle.tb_session.specs.Parties.{IsCustodianOf};

use crate::journal_owner::JournalOwner;
use crate::publisher::BoardPublisher;
use crate::recovery::{JournalFault, Recovery, recover};
use crate::running::run_kept;
use std::sync::Wait;
use std::sync::ledger::Ledger;
use std::thread::Threads;
use tb_ahead::Keeper;
use tb_base::Steps;
use tb_board::{Custodian, Named};
use tb_disk::Disk;
use tb_io::Sink;
use tb_journal::Journal;
use tb_journal_file::JournalFile;
use tb_script::{RunEnd, Script};
use tb_session::{Custody, Setting};

/// How a script with a journal was run: its lines were answered as far as `RunEnd` says; or the
/// journal's file is refused, or the disk failed, before the first line.
#[derive(Clone, Copy, Debug, PartialEq, Eq)]
pub enum KeepEnd {
    Ran(RunEnd),
    Refused(JournalFault),
    DiskFault,
}

// Answers the lines of a script, with a journal that was played.
fn run_played<B: Named, D: Disk, R: Threads + Wait + Sync, K: Sink, L: Ledger>(
    setting: &Setting<'_, B, R>,
    script: &Script,
    custodian: Custodian,
    disk: &mut D,
    journal: Journal,
    sink: &mut K,
    steps: &mut Steps<L>,
) -> RunEnd
    requires own { IsCustodianOf B.name (shape_of setting.now.setup.now.schema) custodian [] }
    requires live { journal.live ≡ true }
    requires puts { CanPut (D.attached disk.old) (D.content disk.old) (D.may_leave disk.old)
        journal }
    ensures attached { D.attached disk.new ≡ true }
    ensures past { KeepsPast D.moment D.left_since disk.old disk.new }
    ensures count { K.faults sink.old ≤ K.faults sink.new }
    ensures failed { result ≡ run_end.WriteFault
        → HasRisen (K.faults sink.old) (K.faults sink.new) }
    ensures unwritten { result ≡ run_end.Memory → disk.new ≡ disk.old }
    // Whatever batches it has published, for which each file stands that a stop may leave.
    ensures run { (batches : List (List Edit))
        → custodian.writer.list ≡ batches_of custodian.writer.start.base batches
        → EachStandsFor (D.may_leave disk.old) batches None
        → AreKeptFrom (after_playing custodian.writer.start.base batches (D.moment disk.old)
        (D.faults disk.old))
        setting.now.setup.now custodian.writer.start.base script.now.lines result (record {
          content = D.content disk.old;
          content_after = D.content disk.new;
          moment = D.moment disk.old;
          could_leave = D.may_leave disk.old;
          may_leave = D.may_leave disk.new;
          left_since = D.left_since disk.new;
          faults = D.faults disk.old;
          faults_after = D.faults disk.new;
          steps = steps.old;
          steps_after = steps.new;
          taken = K.taken sink.old;
          taken_after = K.taken sink.new;
        }) }
{
    let custody = Custody::new(setting.alloc, custodian);
    let party = BoardPublisher::new(custody);
    let ahead = JournalFile {
        disk: &mut *disk,
        journal,
    };
    let keeper = Keeper {
        party,
        ahead,
        alloc: setting.alloc,
    };
    let (end, owner) = run_kept(setting, script, JournalOwner { keeper }, sink, steps);
    // What the disk is then is known of one that is taken apart.
    let JournalOwner { keeper } = owner;
    let Keeper {
        party: _,
        ahead,
        alloc: _,
    } = keeper;
    let JournalFile {
        disk: _lent,
        journal: _,
    } = ahead;
    end
}

/// Runs a script with the journal in a disk's file, which was attached: opens it, publishes its
/// batches, and then answers each line of the script, one after another, with each further batch
/// written ahead of its publication. The custodian is at release 0, and holds no edits.
///
/// It takes memory as `recover` does, and as `run_kept`, and is out of memory only before the first
/// line.
pub fn run_with_journal<B: Named, D: Disk, R: Threads + Wait + Sync, K: Sink, L: Ledger>(
    setting: &Setting<'_, B, R>,
    script: &Script,
    mut custodian: Custodian,
    disk: &mut D,
    sink: &mut K,
    steps: &mut Steps<L>,
) -> KeepEnd
    requires own { IsCustodianOf B.name (shape_of setting.now.setup.now.schema) custodian [] }
    requires first { custodian.writer.list ≡ [] }
    requires attached { D.attached disk.old ≡ true }
    ensures attached { D.attached disk.new ≡ true }
    ensures past { KeepsPast D.moment D.left_since disk.old disk.new }
    ensures count { K.faults sink.old ≤ K.faults sink.new }
    ensures failed { result ≡ keep_end.Ran run_end.WriteFault
        → HasRisen (K.faults sink.old) (K.faults sink.new) }
    ensures disk_count { D.faults disk.old ≤ D.faults disk.new }
    ensures disk_failed { result ≡ keep_end.DiskFault
        → HasRisen (D.faults disk.old) (D.faults disk.new) }
    ensures run { IsJournalRun setting.now.setup.now custodian.writer.start.base
        script.now.lines result (record {
          content = D.content disk.old;
          content_after = D.content disk.new;
          moment = D.moment disk.old;
          could_leave = D.may_leave disk.old;
          may_leave = D.may_leave disk.new;
          left_since = D.left_since disk.new;
          faults = D.faults disk.old;
          faults_after = D.faults disk.new;
          steps = steps.old;
          steps_after = steps.new;
          taken = K.taken sink.old;
          taken_after = K.taken sink.new;
        }) }
{
    match recover(setting, &mut custodian, disk) {
        Recovery::Recovered(journal) => {
            KeepEnd::Ran(run_played(setting, script, custodian, disk, journal, sink, steps))
        }
        Recovery::Refused(fault) => KeepEnd::Refused(fault),
        Recovery::DiskFault => KeepEnd::DiskFault,
        Recovery::Memory => KeepEnd::Ran(RunEnd::Memory),
    }
}
