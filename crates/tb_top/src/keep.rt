// A script with a journal, answered over a census.

ghost use Rattle.std.specs.Prelude.{◌≡◌, ◌≤◌, false, true};
ghost use Rattle.tb_base.specs.Records.{AllFit};
ghost use Rattle.tb_base.specs.declared.status.Status.TheVariants as status;
ghost use Rattle.tb_disk.specs.Moments.{KeepsPast};
ghost use Rattle.tb_model.specs.Schemas.{shape_of};
ghost use Rattle.tb_serve.specs.Serves.{IsEnded, output};
ghost use Rattle.tb_top.specs.KeepOutputs.{IsKeepAnswered, IsKeepRun, disk_line, disk_seen};
ghost use Rattle.tb_top.specs.KeepOutputs.{journal_fault_at, journal_fault_name, journal_line};
ghost use Rattle.tb_top.specs.KeepOutputs.{kept_seen};
ghost use Rattle.tb_top.specs.Asking.{census_over};
ghost use Rattle.tb_top.specs.Loading.{IsBase, IsFirst, census_value};

use crate::asked::Census;
use crate::over::Over;
use std::alloc::Global;
use std::marker::Brand;
use std::sync::Wait;
use std::sync::ledger::Ledger;
use std::thread::Threads;
use tb_base::{Memory, Status, Steps};
use tb_board::{Board, Named, Opening};
use tb_disk::{Disk, Done};
use tb_endings::{End, end_by, end_run, write_fault_line};
use tb_io::{Sink, Wrote};
use tb_keep::{JournalFault, KeepEnd, run_with_journal};
use tb_release::Release;
use tb_rows::FaultName;
use tb_script::Script;
use tb_session::{FIRST_CAPACITY, Setting};

// The number and the word of a journal's fault.
fn name_of(fault: &JournalFault) -> FaultName
    ensures { result ≡ journal_fault_name fault.now }
{
    match fault {
        JournalFault::NotJournal => FaultName::new(1, "NotJournal"),
        JournalFault::BadRecord(_) => FaultName::new(2, "BadRecord"),
        JournalFault::DoesNotFollow(_) => FaultName::new(3, "DoesNotFollow"),
    }
}

// The number of the record in which it is.
fn record_of(fault: &JournalFault) -> u32
    ensures { result ≡ journal_fault_at fault.now }
{
    match fault {
        JournalFault::NotJournal => 0,
        JournalFault::BadRecord(r) | JournalFault::DoesNotFollow(r) => *r,
    }
}

/// Writes the last line of a run whose journal's file is refused.
pub(crate) fn end_refused<O: Sink>(fault: &JournalFault, out: &mut O) -> Status
    ensures count { O.faults out.old ≤ O.faults out.new }
    ensures ended { IsEnded (journal_line fault.now) status.Journal
        (output (O.taken out.old) (O.taken out.new) (O.faults out.old) (O.faults out.new)) result }
{
    let name = name_of(fault);
    match write_fault_line(out, "journal", name.number(), name.word(), record_of(fault)) {
        Wrote::All => Status::Journal,
        Wrote::Failed => Status::WriteFault,
    }
}

/// Writes the last line of a run whose disk failed.
pub(crate) fn end_by_disk<O: Sink>(out: &mut O) -> Status
    ensures count { O.faults out.old ≤ O.faults out.new }
    ensures ended { IsEnded disk_line status.DiskFault
        (output (O.taken out.old) (O.taken out.new) (O.faults out.old) (O.faults out.new)) result }
{
    match out.write(b"fault disk\n") {
        Wrote::All => Status::DiskFault,
        Wrote::Failed => Status::WriteFault,
    }
}

/// A script, and the name of the journal that is kept with it.
#[derive(Drop)]
pub(crate) struct Kept<'a> {
    pub(crate) journal: &'a str,
    pub(crate) script: &'a Script,
}

// Answers the lines of a script over a board, with the journal in the file of a disk.
fn answer_on_board<B: Named, R: Threads + Wait + Sync, O: Sink, D: Disk, L: Ledger>(
    over: &Over<'_, R>,
    opening: Opening,
    script: &Script,
    out: &mut O,
    disk: &mut D,
    steps: &mut Steps<L>,
) -> Status
    requires name { opening.name ≡ B.name }
    requires shape { opening.start.shape ≡ shape_of over.now.setup.now.schema }
    requires first { IsBase opening.start.base }
    requires attached { D.attached disk.old ≡ true }
    ensures disk_count { D.faults disk.old ≤ D.faults disk.new }
    ensures past { KeepsPast D.moment D.left_since disk.old disk.new }
    ensures answered { IsKeepRun (census_over over.now.setup.now opening.start.base) script.now
        result
        (output (O.taken out.old) (O.taken out.new) (O.faults out.old) (O.faults out.new))
        (record {
          content = D.content disk.old;
          content_after = D.content disk.new;
          moment = D.moment disk.old;
          could_leave = D.may_leave disk.old;
          may_leave = D.may_leave disk.new;
          left_since = D.left_since disk.new;
          faults = D.faults disk.old;
          faults_after = D.faults disk.new;
          steps = steps.old;
          steps_after = steps.new;
          taken = O.taken out.old;
          taken_after = O.taken out.new;
        }) }
{
    let setup = over.setup;
    let (board, custodian) = Board::<B>::new(opening);
    let setting = Setting {
        setup,
        board: &board,
        rt: over.rt,
        alloc: over.alloc,
    };
    match run_with_journal(&setting, script, custodian, disk, out, steps) {
        KeepEnd::Ran(end) => end_run(end, out),
        KeepEnd::Refused(fault) => end_refused(&fault, out),
        KeepEnd::DiskFault => end_by_disk(out),
    }
}

// The same from the opening of a board, with the journal in the file of this name.
fn keep_opened<R: Threads + Wait + Sync, O: Sink, D: Disk, L: Ledger>(
    over: &Over<'_, R>,
    opening: Opening,
    kept: &Kept<'_>,
    out: &mut O,
    disk: &mut D,
    steps: &mut Steps<L>,
) -> Status
    requires shape { opening.start.shape ≡ shape_of over.now.setup.now.schema }
    requires first { IsBase opening.start.base }
    requires attached { D.attached disk.old ≡ false }
    ensures { let seen = output (O.taken out.old) (O.taken out.new)
        (O.faults out.old) (O.faults out.new) in
        IsKeepRun (census_over over.now.setup.now opening.start.base) kept.now.script.now result
        seen
        (kept_seen (disk_seen D.named D.could_leave D.attached D.content
        D.may_leave D.moment D.left_since D.faults disk.old disk.new)
        kept.now.journal.now steps.old steps.new seen) }
{
    match disk.attach(kept.journal) {
        Done::All => {
            answer_on_board::<Brand, R, O, D, L>(over, opening, kept.script, out, disk, steps)
        }
        Done::Failed => end_by_disk(out),
    }
}

// The same from release 0.
fn keep_from<R: Threads + Wait + Sync, O: Sink, D: Disk, L: Ledger>(
    over: &Over<'_, R>,
    base: Release,
    kept: &Kept<'_>,
    out: &mut O,
    disk: &mut D,
    steps: &mut Steps<L>,
) -> Status
    requires base { IsBase base }
    requires fit { AllFit (shape_of over.now.setup.now.schema) base.records }
    requires attached { D.attached disk.old ≡ false }
    ensures { let seen = output (O.taken out.old) (O.taken out.new)
        (O.faults out.old) (O.faults out.new) in
        IsKeepAnswered (census_over over.now.setup.now base) kept.now.script.now
        kept.now.journal.now result seen
        (disk_seen D.named D.could_leave D.attached D.content
        D.may_leave D.moment D.left_since D.faults disk.old disk.new)
        steps.old steps.new }
{
    let setup = over.setup;
    match Opening::new(over.alloc, setup.schema.shape(), base, FIRST_CAPACITY) {
        Ok(opening) => keep_opened(over, opening, kept, out, disk, steps),
        Err(Memory) => end_by(&End::Memory, out),
    }
}

/// Answers the lines of a script over a census, with the journal in the file of this name: attaches
/// it, opens it, publishes its batches, and then writes each further one ahead of its publication.
/// It takes memory for a board, and as `run_with_journal` does.
pub(crate) fn answer_keep<R: Threads + Wait + Sync, O: Sink, D: Disk, L: Ledger>(
    rt: &R,
    alloc: Global,
    census: Census,
    kept: &Kept<'_>,
    out: &mut O,
    disk: &mut D,
    steps: &mut Steps<L>,
) -> Status
    requires first { IsFirst census }
    requires attached { D.attached disk.old ≡ false }
    ensures { let seen = output (O.taken out.old) (O.taken out.new)
        (O.faults out.old) (O.faults out.new) in
        IsKeepAnswered (census_value census) kept.now.script.now kept.now.journal.now result seen
        (disk_seen D.named D.could_leave D.attached D.content
        D.may_leave D.moment D.left_since D.faults disk.old disk.new)
        steps.old steps.new }
{
    let Census { setup, release } = census;
    let over = Over {
        setup: &setup,
        rt,
        alloc,
    };
    keep_from(&over, release, kept, out, disk, steps)
}
