// Runs of `keep` over the small setup, with its journal in the file of a disk in memory.

ghost use Rattle.std.specs.Prelude.{◌≡◌, false};
ghost use Rattle.tb_mem_disk.specs.HeldDisk.{HeldDisk};

use std::alloc::Global;
use std::sync::Wait;
use std::thread::Threads;
use tb_base::{Memory, Status};
use tb_comparison::{is_status, is_text};
use tb_io::{SureFiles, SureSink};
use tb_mem_disk::MemDisk;
use tb_small_runs::{run_with_disk, small_files, words_of};

// The small setup, and a script.
fn files_of(alloc: Global, script: &[u8]) -> Result<SureFiles, Memory> {
    let mut files = small_files(alloc)?;
    files.hold("script", script)?;
    Ok(files)
}

// A run with files of its own.
fn over_files<R: Threads + Wait + Sync>(
    rt: &R,
    alloc: Global,
    words: &[String],
    script: &[u8],
    out: &mut SureSink,
    disk: &mut MemDisk,
) -> Result<Status, Memory>
    requires { disk.old.attached ≡ false }
{
    let mut files = files_of(alloc, script)?;
    run_with_disk(rt, alloc, words, &mut files, out, disk)
}

// A run over this disk, which writes into `out`.
fn over_disk<R: Threads + Wait + Sync>(
    rt: &R,
    alloc: Global,
    script: &[u8],
    out: &mut SureSink,
    disk: &mut MemDisk,
) -> Result<Status, Memory>
    requires { disk.old.attached ≡ false }
{
    let words = words_of(alloc, "keep classes recodes ptable people 0 journal script")?;
    over_files(rt, alloc, &words, script, out, disk)
}

// The number of the status of a run over this disk, and what it writes.
fn told_by<R: Threads + Wait + Sync>(
    rt: &R,
    alloc: Global,
    script: &[u8],
    disk: &mut MemDisk,
) -> Result<(u8, Vec<u8>), Memory>
    requires { disk.old.attached ≡ false }
{
    let mut out = SureSink::new(alloc);
    let status = over_disk(rt, alloc, script, &mut out, disk)?;
    Ok((status.number(), out.text()?.to_vec(alloc)?))
}

// The numbers of the calls of a disk that were syncs, from 1.
fn syncs_of(alloc: Global, disk: &MemDisk) -> Result<Vec<u32>, Memory> {
    let mut syncs = Vec::new(alloc);
    let mut number = 0_u32;
    for i in 0..disk.calls() {
        number = number.saturating_add(1);
        if disk.is_sync(i) {
            syncs.push(number)?;
        }
    }
    Ok(syncs)
}

/// What a run left: the number of its status, what it wrote, the bytes of the journal's file, how
/// many calls it made of the disk, and the numbers of those that were syncs, from 1.
#[derive(Drop)]
pub struct Left {
    pub status: u8,
    pub text: Vec<u8>,
    pub file: Vec<u8>,
    pub calls: usize,
    pub syncs: Vec<u32>,
}

/// Runs `keep` with this script over a journal's file that has these bytes. The disk's calls with
/// these numbers, from 1, fail.
pub fn keep<R: Threads + Wait + Sync>(
    rt: &R,
    alloc: Global,
    file: &[u8],
    fails: &[u32],
    script: &[u8],
) -> Result<Left, Memory> {
    let mut disk = MemDisk::new(alloc, file, fails)?;
    let (status, text) = told_by(rt, alloc, script, &mut disk)?;
    Ok(Left {
        status,
        text,
        file: disk.bytes().to_vec(alloc)?,
        calls: disk.calls(),
        syncs: syncs_of(alloc, &disk)?,
    })
}

/// Whether a run ended with this status and wrote this text. Where it didn't, both are printed
/// beside what came.
pub fn is_left(rt: &impl Eprint, left: &Left, status: u8, text: &[u8]) -> bool {
    let same = is_status(rt, left.status, status);
    is_text(rt, left.text.as_slice(), text) && same
}

/// The same of a run with this script over a journal's file that has these bytes, where the disk's
/// calls with these numbers fail.
pub fn ends_so<R: Threads + Wait + Sync + Eprint>(
    rt: &R,
    alloc: Global,
    file: &[u8],
    fails: &[u32],
    script: &[u8],
    status: u8,
    text: &[u8],
) -> Result<bool, Memory> {
    let left = keep(rt, alloc, file, fails, script)?;
    Ok(is_left(rt, &left, status, text))
}
