// A command over the small setup, with files in memory.

ghost use Rattle.std.specs.Prelude.{◌≡◌, ◌<◌, All, false};
ghost use Rattle.tb_mem_disk.specs.HeldDisk.{HeldDisk};
ghost use Rattle.tb_serve.specs.Stages.{IsFresh};

use super::compared::Compared;
use std::alloc::Global;
use std::marker::Brand;
use std::sync::Wait;
use std::sync::ledger::{Blank, Ledger};
use std::thread::Threads;
use tb_base::{Status, Steps};
use tb_command::Arguments;
use tb_comparison::is_status;
use tb_io::{Listen, SureFiles};
use tb_mem_disk::MemDisk;
use tb_serve::Port;
use tb_small_runs::{small_files, words_of};
use tb_top::tablebuilder;

// A run: its arguments, how it is to end, and the text that it is to write.
#[derive(Drop)]
struct Run<'a> {
    words: &'a [String],
    end: Status,
    text: &'a [u8],
}

// Whether a run over these files, with a counter of its own, ends so and writes just its text.
fn files_end_so<N: Listen + Send, R: Threads + Wait + Sync + Eprint, L: Ledger>(
    rt: &R,
    alloc: Global,
    run: &Run<'_>,
    files: &mut SureFiles,
    net: &mut Vec<Port<N>>,
    disk: &mut MemDisk,
    blank: Blank,
) -> bool
    requires fresh { All IsFresh net.old.items }
    requires attached { disk.old.attached ≡ false }
    requires name { blank.name ≡ L.name }
    requires parts { blank.parts ≡ L.parts }
    requires some { 0 < L.parts }
{
    let mut steps = Steps::<L>::new(blank);
    let mut out = Compared::with(run.text);
    let arguments = Arguments::read(run.words);
    // Words that ask for more are no run of these ports.
    if net.len() < arguments.ports() as usize {
        return false;
    }
    let status = tablebuilder(
        rt, alloc, &arguments, files, &mut out, net, disk, &mut steps,
    );
    let same = is_status(rt, status.number(), run.end.number());
    out.check(rt) && same
}

// Whether a run ends so and writes just its text.
fn run_ends_so<N: Listen + Send, R: Threads + Wait + Sync + Eprint>(
    rt: &R,
    alloc: Global,
    run: &Run<'_>,
    net: &mut Vec<Port<N>>,
    disk: &mut MemDisk,
) -> bool
    requires fresh { All IsFresh net.old.items }
    requires attached { disk.old.attached ≡ false }
{
    match small_files(alloc) {
        Ok(mut files) => {
            let blank = Blank::new(1);
            files_end_so::<N, R, Brand>(rt, alloc, run, &mut files, net, disk, blank)
        }
        Err(_) => false,
    }
}

/// Runs a command over a disk with its journal, and returns whether it ends so and writes just this
/// text. One blank parts the arguments.
pub fn ends_over<N: Listen + Send, R: Threads + Wait + Sync + Eprint>(
    rt: &R,
    alloc: Global,
    command: &str,
    net: &mut Vec<Port<N>>,
    disk: &mut MemDisk,
    end: Status,
    text: &[u8],
) -> bool
    requires fresh { All IsFresh net.old.items }
    requires attached { disk.old.attached ≡ false }
{
    match words_of(alloc, command) {
        Ok(words) => {
            let words = words.as_slice();
            run_ends_so(rt, alloc, &Run { words, end, text }, net, disk)
        }
        Err(_) => false,
    }
}

/// The same over a disk of its own, whose file is empty.
pub fn ends_so<N: Listen + Send, R: Threads + Wait + Sync + Eprint>(
    rt: &R,
    alloc: Global,
    command: &str,
    net: &mut Vec<Port<N>>,
    end: Status,
    text: &[u8],
) -> bool
    requires fresh { All IsFresh net.old.items }
{
    match MemDisk::new(alloc, &[], &[]) {
        Ok(mut disk) => ends_over(rt, alloc, command, net, &mut disk, end, text),
        Err(_) => false,
    }
}
