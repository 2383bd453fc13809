// Runs over forms in memory, and what they are given.

ghost use Rattle.std.specs.Prelude.{◌≡◌, ◌<◌, ◌≤◌, All, IfOk, false, vec_len};
ghost use Rattle.tb_mem_disk.specs.HeldDisk.{HeldDisk};
ghost use Rattle.tb_serve.specs.Stages.{IsFresh};
ghost use Rattle.tb_command.specs.Commands.{command_of, ports_asked};

use std::alloc::Global;
use std::marker::Brand;
use std::sync::Wait;
use std::sync::ledger::{Blank, Ledger};
use std::thread::Threads;
use tb_base::{Memory, Status, Steps};
use tb_command::Arguments;
use tb_io::{MemListen, SureFiles, SureSink};
use tb_mem_disk::MemDisk;
use tb_serve::Port;
use tb_small::{CLASSES, DWELLINGS, LINKS, PEOPLE, PTABLE, RECODES};
use tb_top::laws::run_surely;

/// The words of a command, which one blank parts: none where the text is empty.
pub fn words_of(alloc: Global, command: &str) -> Result<Vec<String>, Memory> {
    let mut words = Vec::new(alloc);
    if !command.is_empty() {
        for word in command.split(' ') {
            words.push(String::from_str(alloc, word)?)?;
        }
    }
    Ok(words)
}

/// The files `classes`, `recodes`, `ptable` and `people` of the small setup, by these names.
pub fn small_files(alloc: Global) -> Result<SureFiles, Memory> {
    let mut files = SureFiles::new(alloc);
    files.hold("classes", CLASSES)?;
    files.hold("recodes", RECODES)?;
    files.hold("ptable", PTABLE)?;
    files.hold("people", PEOPLE)?;
    files.hold("dwellings", DWELLINGS)?;
    files.hold("links", LINKS)?;
    Ok(files)
}

// A port to which no session is to come.
fn quiet(alloc: Global) -> Result<Port<MemListen>, Memory>
    ensures { IfOk result IsFresh }
{
    Ok(Port::of(MemListen::new(alloc, false, Vec::new(alloc), &[])?))
}

/// So many ports to which no session is to come.
pub fn quiet_ports(alloc: Global, count: u32) -> Result<Vec<Port<MemListen>>, Memory>
    ensures ports { IfOk result (λ net. vec_len net ≡ count) }
    ensures fresh { IfOk result (λ net. All IsFresh net.items) }
{
    let mut net = Vec::new(alloc);
    for _ in 0..count {
        net.push(quiet(alloc)?)?;
    }
    Ok(net)
}

// A run with a counter of its own.
fn count_surely<R: Threads + Wait + Sync, L: Ledger>(
    rt: &R,
    alloc: Global,
    arguments: &Arguments<'_>,
    files: &mut SureFiles,
    out: &mut SureSink,
    net: &mut Vec<Port<MemListen>>,
    disk: &mut MemDisk,
    blank: Blank,
) -> Status
    requires ports { ports_asked (command_of arguments.now) ≤ vec_len net.old }
    requires fresh { All IsFresh net.old.items }
    requires attached { disk.old.attached ≡ false }
    requires name { blank.name ≡ L.name }
    requires parts { blank.parts ≡ L.parts }
    requires some { 0 < L.parts }
{
    let mut steps = Steps::<L>::new(blank);
    run_surely(rt, alloc, arguments, files, out, net, disk, &mut steps)
}

/// Runs a command over these files and this disk, with the quiet ports that it asks for, and returns its
/// status. What it writes is added to `out`.
pub fn run_with_disk<R: Threads + Wait + Sync>(
    rt: &R,
    alloc: Global,
    words: &[String],
    files: &mut SureFiles,
    out: &mut SureSink,
    disk: &mut MemDisk,
) -> Result<Status, Memory>
    requires { disk.old.attached ≡ false }
{
    let arguments = Arguments::read(words);
    let mut net = quiet_ports(alloc, arguments.ports())?;
    let blank = Blank::new(1);
    Ok(count_surely::<R, Brand>(rt, alloc, &arguments, files, out, &mut net, disk, blank))
}
