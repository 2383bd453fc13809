// Runs with a journal that end by another file, or whose first reply can't be written: the journal's
// file is left as it was.

ghost use Rattle.std.specs.Prelude.{◌≡◌, ◌<◌, ◌≤◌, All, false, vec_len};
ghost use Rattle.tb_mem_disk.specs.HeldDisk.{HeldDisk};
ghost use Rattle.tb_serve.specs.Stages.{IsFresh};
ghost use Rattle.tb_command.specs.Commands.{command_of, ports_asked};

use super::command::ends_over;
use std::alloc::Global;
use std::marker::Brand;
use std::sync::Wait;
use std::sync::ledger::{Blank, Ledger};
use std::test::Fail;
use std::thread::Threads;
use tb_base::{Memory, Status, Steps};
use tb_command::Arguments;
use tb_comparison::{is_status, is_text};
use tb_io::{MemListen, MemSink, SureFiles};
use tb_mem_disk::MemDisk;
use tb_serve::Port;
use tb_small_runs::{quiet_ports, small_files, words_of};
use tb_top::tablebuilder;

// The journal of a batch that drops a person.
const ONE_BATCH: &[u8] = b"TBJOURN1\x01\x00\x00\x00\x09\x00\x00\x00\x01\x02\x00\x00\x00\x68\x00";

// Commands with a journal, whose microdata is the perturbation table.
static REFUSED: [&str; 2] = [
    "host classes recodes ptable ptable 0 - - journal 5000 1 1",
    "keep classes recodes ptable ptable 0 journal script",
];

fn refused() -> &'static [&'static str] {
    &REFUSED
}

// Whether a command is refused for its microdata, and leaves the journal's file.
fn leaves_it<R: Threads + Wait + Sync + Eprint>(
    rt: &R,
    alloc: Global,
    command: &str,
) -> Result<bool, Memory> {
    let mut net = quiet_ports(alloc, 2)?;
    let mut disk = MemDisk::new(alloc, ONE_BATCH, &[])?;
    let text = b"fault people 1 BadHeader 0\n";
    let ends = ends_over(
        rt,
        alloc,
        command,
        &mut net,
        &mut disk,
        Status::Microdata,
        text,
    );
    Ok(ends && is_text(rt, disk.bytes(), ONE_BATCH))
}

#[test]
fn another_file_is_refused(rt: HostRuntime) -> Result<(), Fail> {
    for command in refused() {
        assert!(&rt; leaves_it(&rt, rt.alloc(), command)?, "{command}");
    }
    Ok(())
}

// The number of the status of a run, with a counter of its own, into a sink that takes nothing.
fn into_nothing<R: Threads + Wait + Sync, L: Ledger>(
    rt: &R,
    alloc: Global,
    arguments: &Arguments<'_>,
    files: &mut SureFiles,
    net: &mut Vec<Port<MemListen>>,
    disk: &mut MemDisk,
    blank: Blank,
) -> Result<u8, Memory>
    requires ports { ports_asked (command_of arguments.now) ≤ vec_len net.old }
    requires fresh { All IsFresh net.old.items }
    requires attached { disk.old.attached ≡ false }
    requires name { blank.name ≡ L.name }
    requires parts { blank.parts ≡ L.parts }
    requires some { 0 < L.parts }
{
    let mut steps = Steps::<L>::new(blank);
    let mut out = MemSink::new(alloc, 0)?;
    Ok(tablebuilder(rt, alloc, arguments, files, &mut out, net, disk, &mut steps).number())
}

// The same of `keep` over a script that only holds an edit.
fn holds_into_nothing<R: Threads + Wait + Sync>(
    rt: &R,
    alloc: Global,
    files: &mut SureFiles,
    disk: &mut MemDisk,
) -> Result<u8, Memory>
    requires { disk.old.attached ≡ false }
{
    let words = words_of(alloc, "keep classes recodes ptable people 0 journal script")?;
    let arguments = Arguments::read(&words);
    let mut net = quiet_ports(alloc, arguments.ports())?;
    files.hold("script", b"custodian drop 103\n")?;
    into_nothing::<R, Brand>(rt, alloc, &arguments, files, &mut net, disk, Blank::new(1))
}

// Whether its write fails, and the journal's file is left.
fn loses_no_batch<R: Threads + Wait + Sync + Eprint>(
    rt: &R,
    alloc: Global,
) -> Result<bool, Memory> {
    let mut files = small_files(alloc)?;
    let mut disk = MemDisk::new(alloc, ONE_BATCH, &[])?;
    let status = holds_into_nothing(rt, alloc, &mut files, &mut disk)?;
    Ok(is_status(rt, status, 8) && is_text(rt, disk.bytes(), ONE_BATCH))
}

#[test]
fn the_first_reply_cannot_be_written(rt: HostRuntime) -> Result<(), Fail> {
    assert!(&rt; loses_no_batch(&rt, rt.alloc())?);
    Ok(())
}
