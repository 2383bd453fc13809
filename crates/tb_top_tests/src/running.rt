// Whole runs over files and a sink in memory, from the small setup of `tb_small`. A row of a table
// is a run with the bytes that it writes; the tables stand behind functions, so that no proof reads
// them.

ghost use Rattle.std.specs.Prelude.{◌≡◌, ◌<◌, ◌≤◌, All, IfOk, false, vec_len};
ghost use Rattle.tb_mem_disk.specs.HeldDisk.{HeldDisk};
ghost use Rattle.tb_serve.specs.Stages.{IsFresh};
ghost use Rattle.tb_command.specs.Commands.{command_of, ports_asked};

use std::alloc::Global;
use std::marker::Brand;
use std::sync::Wait;
use std::sync::ledger::{Blank, Ledger};
use std::thread::Threads;
use tb_base::{Memory, Status, Steps};
use tb_command::Arguments;
use tb_comparison::{is_either_text, is_status, is_text};
use tb_io::{MemFiles, MemListen, MemSink, SureFiles, SureSink};
use tb_mem_disk::MemDisk;
use tb_serve::Port;
use tb_small::{CLASSES, DWELLINGS, LINKS, PEOPLE, PTABLE, RECODES};
use tb_small_runs::{quiet_ports, run_with_disk, words_of};
use tb_top::laws::run_in_memory;

pub const WITHOUT_RECODES: &str = "script classes - ptable people 0 script";

pub const WITH_RECODES: &str = "script classes recodes ptable people 0 script";

pub const WITH_UNITS: &str = "units classes recodes ptable people 0 dwellings links script";

// A run: the arguments, which one blank parts (none where the text is empty), the files that have
// other bytes than the small setup's, the numbers of the readings that fail, how many bytes the
// sink takes, the number of the status, and the bytes taken.
#[derive(Drop)]
pub struct Run<'a> {
    pub arguments: &'a str,
    pub others: &'a [(&'a str, &'a [u8])],
    pub fails: &'a [u32],
    pub bound: usize,
    pub status: u8,
    pub text: &'a [u8],
}

fn files_of(alloc: Global, others: &[(&str, &[u8])], fails: &[u32]) -> Result<MemFiles, Memory> {
    let mut files = MemFiles::new(alloc, fails)?;
    files.hold("classes", CLASSES)?;
    files.hold("recodes", RECODES)?;
    files.hold("ptable", PTABLE)?;
    files.hold("people", PEOPLE)?;
    files.hold("dwellings", DWELLINGS)?;
    files.hold("links", LINKS)?;
    files.hold("script", b"a table SEX\n")?;
    for (name, bytes) in others {
        files.hold(name, bytes)?;
    }
    Ok(files)
}

// A disk with an empty file, which no run but one with a journal attaches.
fn no_file(alloc: Global) -> Result<MemDisk, Memory>
    ensures { IfOk result (λ disk. disk.attached ≡ false) }
{
    MemDisk::new(alloc, &[], &[])
}

// A run over forms in memory, with a counter of its own.
fn count_in_memory<L: Ledger>(
    rt: &(impl Threads + Wait + Sync),
    alloc: Global,
    arguments: &Arguments<'_>,
    files: &mut MemFiles,
    out: &mut MemSink,
    net: &mut Vec<Port<MemListen>>,
    blank: Blank,
) -> Status
    requires ports { ports_asked (command_of arguments.now) ≤ vec_len net.old }
    requires fresh { All IsFresh net.old.items }
    requires name { blank.name ≡ L.name }
    requires parts { blank.parts ≡ L.parts }
    requires some { 0 < L.parts }
{
    let Ok(mut disk) = no_file(alloc) else {
        return Status::Memory;
    };
    let mut steps = Steps::<L>::new(blank);
    run_in_memory(rt, alloc, arguments, files, out, net, &mut disk, &mut steps)
}

/// Runs a command over files and a sink that never fail, and a disk of its own.
pub fn run_over(
    rt: &(impl Threads + Wait + Sync),
    alloc: Global,
    words: &[String],
    files: &mut SureFiles,
    out: &mut SureSink,
) -> Result<Status, Memory> {
    let mut disk = no_file(alloc)?;
    run_with_disk(rt, alloc, words, files, out, &mut disk)
}

// The number of the status of a run that writes into this sink.
fn status_of(
    rt: &(impl Threads + Wait + Sync),
    alloc: Global,
    row: &Run<'_>,
    out: &mut MemSink,
) -> Result<u8, Memory> {
    let words = words_of(alloc, row.arguments)?;
    let mut files = files_of(alloc, row.others, row.fails)?;
    let arguments = Arguments::read(&words);
    let mut net = quiet_ports(alloc, arguments.ports())?;
    let blank = Blank::new(1);
    let status = count_in_memory::<Brand>(rt, alloc, &arguments, &mut files, out, &mut net, blank);
    Ok(status.number())
}

/// Whether the sink took the bytes of the row or these, and the status is its. Where not, what was
/// wanted is printed beside what came.
pub fn is_either(
    rt: &(impl Threads + Wait + Sync + Eprint),
    alloc: Global,
    row: &Run<'_>,
    other: &[u8],
) -> Result<bool, Memory> {
    let mut out = MemSink::new(alloc, row.bound)?;
    let status = status_of(rt, alloc, row, &mut out)?;
    let same = is_status(rt, status, row.status);
    Ok(is_either_text(rt, out.taken(), row.text, other) && same)
}

/// The same of the bytes of the row alone.
pub fn is_so(
    rt: &(impl Threads + Wait + Sync + Eprint),
    alloc: Global,
    row: &Run<'_>,
) -> Result<bool, Memory> {
    let mut out = MemSink::new(alloc, row.bound)?;
    let status = status_of(rt, alloc, row, &mut out)?;
    let same = is_status(rt, status, row.status);
    Ok(is_text(rt, out.taken(), row.text) && same)
}
