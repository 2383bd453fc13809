// Journals over disks in memory.

ghost use Rattle.std.specs.Prelude.{◌≡◌, ◌≤◌, ◌<◌, [], ◌∷◌, true, IfOk, IfSome, OnOk, All};
ghost use Rattle.tb_mem_disk.specs.HeldDisk.{HeldDisk};
ghost use Rattle.tb_journal.specs.States.{JournalState};
ghost use Rattle.tb_journal.specs.declared.journal.Put.TheVariants as put_kind;
ghost use Rattle.tb_spelling.specs.Payloads.{CanBeSpelled, CanBeWritten};
ghost use Rattle.tb_journal_tests.specs.declared.running.TheConstants.{MOST_BATCHES};
ghost use Rattle.tb_journal_tests.specs.Ready.{IsReady};

use std::alloc::Global;
use tb_base::{Codes, Memory};
use tb_disk::{Disk, Done};
use tb_journal::{Journal, JournalOpen, Put, Recovered};
use tb_mem_disk::MemDisk;
use tb_release::{Edit, Edits};

// More batches than any test has.
const MOST_BATCHES: u32 = 20_000;

// How the reading of a journal ended.
#[derive(Clone, Copy, Debug, PartialEq, Eq)]
pub enum Ended {
    End,
    Bad(u32),
    NotJournal,
    Fault,
}

// A disk whose file has these bytes, attached, of which these calls fail.
fn disk_of(alloc: Global, bytes: &[u8], fails: &[u32]) -> Result<MemDisk, Memory>
    ensures { IfOk result (λ disk. disk.attached ≡ true) }
{
    let mut disk = MemDisk::new(alloc, bytes, fails)?;
    match disk.attach("journal") {
        Done::All => Ok(disk),
        Done::Failed => Err(Memory),
    }
}

// The journal in a disk's file, where it is one.
fn open(alloc: Global, disk: &mut MemDisk) -> Result<Journal, Ended>
    requires { disk.old.attached ≡ true }
    ensures { IfOk result (λ journal. IsReady disk.new journal 0) }
{
    match Journal::open(alloc, disk) {
        (JournalOpen::Open, Some(journal)) => Ok(journal),
        (JournalOpen::NotJournal, _) => Err(Ended::NotJournal),
        _ => Err(Ended::Fault),
    }
}

// The person whom the first of some edits drops, or 0.
fn first_dropped(edits: &Edits) -> u32 {
    if edits.len() == 0 {
        return 0;
    }
    match edits.at(0) {
        Edit::Drop { person } => *person,
        _ => 0,
    }
}

// Reads the batches to their end: for each the person whom its first edit drops, or 0.
fn read_all(
    alloc: Global,
    disk: &mut MemDisk,
    journal: &mut Journal,
    persons: &mut Vec<u32>,
) -> Result<Ended, Memory>
    requires { IsReady disk.old journal.old 0 }
    ensures { IfOk result (λ _. IsReady disk.new journal.new MOST_BATCHES) }
{
    for _i in 0..MOST_BATCHES {
        match journal.read_next(alloc, disk) {
            Recovered::Batch(edits) => persons.push(first_dropped(&edits))?,
            Recovered::End => return Ok(Ended::End),
            Recovered::BadRecord(r) => return Ok(Ended::Bad(r)),
            Recovered::DiskFault => return Ok(Ended::Fault),
            Recovered::Memory => return Err(Memory),
        }
    }
    Err(Memory)
}

// Edits that drop one person.
fn dropping(alloc: Global, person: u32) -> Result<Edits, Memory>
    ensures { IfOk result CanBeSpelled }
{
    let mut edits = Edits::new(alloc);
    match edits.push(Edit::Drop { person }) {
        Ok(()) => Ok(edits),
        Err(_) => Err(Memory),
    }
}

// Puts a batch that drops one person.
fn put_drop(
    alloc: Global,
    disk: &mut MemDisk,
    journal: &mut Journal,
    person: u32,
) -> Result<Put, Memory>
    requires { IsReady disk.old journal.old MOST_BATCHES }
    ensures { IfOk result (λ put. put ≡ put_kind.Kept → IsReady disk.new journal.new MOST_BATCHES) }
{
    if !journal.live() || !journal.at_end() {
        return Ok(Put::DiskFault);
    }
    let edits = dropping(alloc, person)?;
    Ok(journal.put(alloc, disk, &edits))
}

// Holds one more edit, which adds a person.
fn push_add(alloc: Global, edits: &mut Edits, person: u32) -> Result<(), Memory>
    requires { All CanBeWritten edits.old }
    ensures { OnOk result (All CanBeWritten edits.new) }
{
    let codes = Codes::of(alloc, &[0, 1, 2])?;
    match edits.push(Edit::Add {
        person,
        key: 9,
        codes,
    }) {
        Ok(()) => Ok(()),
        Err(_) => Err(Memory),
    }
}

// Edits that add so many persons, from 1 on, each with three codes.
fn adding(alloc: Global, count: u32) -> Result<Edits, Memory>
    ensures { IfOk result (All CanBeWritten) }
{
    let mut edits = Edits::new(alloc);
    for i in 0..count {
        push_add(alloc, &mut edits, i.saturating_add(1))?;
    }
    Ok(edits)
}

// Opens the journal in a disk's file, and reads it to its end.
fn open_at_end(alloc: Global, disk: &mut MemDisk) -> Result<Journal, Memory>
    requires { disk.old.attached ≡ true }
    ensures { IfOk result (λ journal. IsReady disk.new journal MOST_BATCHES) }
{
    let Ok(mut journal) = open(alloc, disk) else {
        return Err(Memory);
    };
    let mut persons = Vec::new(alloc);
    match read_all(alloc, disk, &mut journal, &mut persons)? {
        Ended::End => Ok(journal),
        _ => Err(Memory),
    }
}

// Puts so many batches, which drop the persons from that one on, until one isn't kept: how many
// were.
fn put_all(alloc: Global, disk: &mut MemDisk, first: u32, count: u32) -> Result<u32, Memory>
    requires { disk.old.attached ≡ true }
{
    let Ok(mut journal) = open_at_end(alloc, disk) else {
        return Ok(0);
    };
    for i in 0..count {
        match put_drop(alloc, disk, &mut journal, first.saturating_add(i))? {
            Put::Kept => {}
            _ => return Ok(i),
        }
    }
    Ok(count)
}

// Puts a batch into the journal in a disk's file.
fn put_batch(alloc: Global, disk: &mut MemDisk, edits: &Edits) -> Result<Put, Memory>
    requires attached { disk.old.attached ≡ true }
    requires written { All CanBeWritten edits.now }
{
    let mut journal = open_at_end(alloc, disk)?;
    if edits.len() == 0 || !journal.live() || !journal.at_end() {
        return Ok(Put::DiskFault);
    }
    Ok(journal.put(alloc, disk, edits))
}

// How a batch of so many adds is put into an empty file, and how many bytes that then has.
pub fn put_adds(alloc: Global, count: u32) -> Result<(Put, usize), Memory> {
    let edits = adding(alloc, count)?;
    let mut disk = disk_of(alloc, &[], &[])?;
    let put = put_batch(alloc, &mut disk, &edits)?;
    Ok((put, disk.bytes().len()))
}

// What a run left: the file, how many batches were kept, and which of the calls were syncs.
#[derive(Drop)]
pub struct Left {
    pub file: Vec<u8>,
    pub kept: u32,
    pub syncs: Vec<bool>,
}

// Which of the calls of a disk were syncs.
fn syncs_of(alloc: Global, disk: &MemDisk) -> Result<Vec<bool>, Memory> {
    let mut syncs = Vec::new(alloc);
    for i in 0..disk.calls() {
        syncs.push(disk.is_sync(i))?;
    }
    Ok(syncs)
}

// What a run left on this disk.
fn left_on(alloc: Global, disk: &MemDisk, kept: u32) -> Result<Left, Memory> {
    let file = disk.bytes().to_vec(alloc)?;
    let syncs = syncs_of(alloc, disk)?;
    Ok(Left { file, kept, syncs })
}

// A run over a file with these bytes, of which these calls fail, that puts so many batches, which
// drop the persons from that one on.
pub fn left_by(
    alloc: Global,
    start: &[u8],
    fails: &[u32],
    first: u32,
    count: u32,
) -> Result<Left, Memory> {
    let mut disk = disk_of(alloc, start, fails)?;
    let kept = put_all(alloc, &mut disk, first, count)?;
    left_on(alloc, &disk, kept)
}

// How the reading of a file ends, and the persons whom its batches drop.
pub fn read_file(alloc: Global, bytes: &[u8]) -> Result<(Ended, Vec<u32>), Memory> {
    let mut disk = disk_of(alloc, bytes, &[])?;
    let mut persons = Vec::new(alloc);
    let ended = match open(alloc, &mut disk) {
        Ok(mut journal) => read_all(alloc, &mut disk, &mut journal, &mut persons)?,
        Err(ended) => ended,
    };
    Ok((ended, persons))
}
