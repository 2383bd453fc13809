// The top call.
//
// What is asked for is taken apart by the lines, each function owning the census alone: who owns
// the chain is lent to the next, which decides by it.
//
// Each way to end has a lemma that gives all of `Keeps`: `proofs/Finishing`, of a task that is no
// script `Serving`, and of files that are made `Generating`.

ghost use Rattle.std.specs.Prelude.{◌≡◌, ◌≤◌, ◌+◌, ℕ, List, All, false};
ghost use Rattle.std.specs.Prelude.{vec_len};
ghost use Rattle.tb_base.specs.Records.{AllFit};
ghost use Rattle.tb_model.specs.Schemas.{shape_of};
ghost use Rattle.tb_serve.specs.Serves.{output};
ghost use Rattle.tb_serve.specs.Stages.{IsFresh};
ghost use Rattle.tb_command.specs.Commands.{command_of, ports_asked};
ghost use Rattle.tb_top.specs.Asking.{asked_with, ports_taken};
ghost use Rattle.tb_top.specs.KeepOutputs.{disk_seen};
ghost use Rattle.tb_top.specs.Loading.{AskedIsFirst, IsBase, IsFirst, asked_value};
ghost use Rattle.tb_top.specs.Asking.{census_over};
ghost use Rattle.tb_top.specs.Loading.{census_value, reading};
ghost use Rattle.tb_top.specs.Outputs.{ArePortsAnswered, AreScriptReplies, IsAnswered};
ghost use Rattle.tb_top.specs.Outputs.{IsGenAnswered, IsRunAnswered, IsScriptAnswered, IsSummedUp};
ghost use Rattle.tb_top.specs.Services.{IsServiceAnswered};
ghost use Rattle.tb_top.specs.Promises.{Keeps};
ghost use Rattle.tb_top.specs.Seen.{call_over};
ghost use Rattle.tb_top.specs.Summing.{AreSums};

use crate::asked::{Asked, AskedLines, Census};
use crate::asking::ask;
use crate::follow::answer_follow;
use crate::host::{Hosted, answer_host};
use crate::keep::{Kept, answer_keep};
use crate::lanes::answer_lanes;
use crate::mirror::answer_mirror;
use crate::places::places_of;
use crate::summary::write_summary;
use crate::summing::SummingSink;
use crate::sums::Sums;
use std::alloc::Global;
use std::marker::Brand;
use std::sync::Wait;
use std::sync::ledger::Ledger;
use std::thread::Threads;
use tb_base::{Memory, Status, Steps};
use tb_board::{Board, Named, Opening};
use tb_command::{Arguments, Owner, Population, Service};
use tb_disk::Disk;
use tb_endings::{End, end_by, end_run};
use tb_io::{Files, Listen, Sink, Wrote};
use tb_release::Release;
use tb_script::{Script, run_script};
use tb_serve::{Port, serve};
use tb_session::FIRST_CAPACITY;
use tb_text::Setup;

// What a run has: threads, memory, and who owns its chain.
#[derive(Drop)]
struct Running<'r, 'a, R: Threads + Wait + Sync> {
    rt: &'r R,
    alloc: Global,
    owner: &'r Owner<'a>,
}

// Answers the lines of a script over a board.
fn answer_on_board<B: Named, R: Threads + Wait + Sync, O: Sink, L: Ledger>(
    rt: &R,
    alloc: Global,
    setup: &Setup,
    opening: Opening,
    script: &Script,
    out: &mut O,
    steps: &mut Steps<L>,
) -> Status
    requires name { opening.name ≡ B.name }
    requires shape { opening.start.shape ≡ shape_of setup.now.schema }
    requires first { IsBase opening.start.base }
    ensures { IsScriptAnswered
        (AreScriptReplies (census_over setup.now opening.start.base) script.now) result
        (O.faults out.old) (O.faults out.new) (O.taken out.old) (O.taken out.new)
        steps.old steps.new }
{
    let (board, custodian) = Board::<B>::new(opening);
    let end = run_script(setup, &board, rt, alloc, script, custodian, out, steps);
    end_run(end, out)
}

// The same from release 0.
fn script_from<R: Threads + Wait + Sync, O: Sink, L: Ledger>(
    rt: &R,
    alloc: Global,
    setup: &Setup,
    base: Release,
    script: &Script,
    out: &mut O,
    steps: &mut Steps<L>,
) -> Status
    requires base { IsBase base }
    requires fit { AllFit (shape_of setup.now.schema) base.records }
    ensures { IsScriptAnswered (AreScriptReplies (census_over setup.now base) script.now) result
        (O.faults out.old) (O.faults out.new) (O.taken out.old) (O.taken out.new)
        steps.old steps.new }
{
    match Opening::new(alloc, setup.schema.shape(), base, FIRST_CAPACITY) {
        Ok(opening) => {
            answer_on_board::<Brand, R, O, L>(rt, alloc, setup, opening, script, out, steps)
        }
        Err(Memory) => end_by(&End::Memory, out),
    }
}

// The same over a census.
fn answer_script<R: Threads + Wait + Sync, O: Sink, L: Ledger>(
    rt: &R,
    alloc: Global,
    census: Census,
    script: &Script,
    out: &mut O,
    steps: &mut Steps<L>,
) -> Status
    requires { IsFirst census }
    ensures { IsScriptAnswered (AreScriptReplies (census_value census) script.now) result
        (O.faults out.old) (O.faults out.new) (O.taken out.old) (O.taken out.new)
        steps.old steps.new }
{
    let Census { setup, release } = census;
    script_from(rt, alloc, &setup, release, script, out, steps)
}

// Writes what a text of replies comes to, of which these are the sums, or, where it has more bytes
// than are counted, that memory ran out.
fn end_summed<O: Sink>(population: &Population, sums: Option<Sums>, out: &mut O) -> Status
    ensures { (text : List ℕ) → AreSums sums text → IsSummedUp population.now text result
        (O.faults out.old) (O.faults out.new) (O.taken out.old) (O.taken out.new) }
{
    match sums {
        Some(sums) => match write_summary(population, &sums, out) {
            Wrote::All => Status::Done,
            Wrote::Failed => Status::WriteFault,
        },
        None => end_by(&End::Memory, out),
    }
}

// Answers the lines of the script of a generated population into a sink that sums up the replies,
// and writes what they come to.
fn sum_up<R: Threads + Wait + Sync, O: Sink, L: Ledger>(
    rt: &R,
    alloc: Global,
    population: &Population,
    census: Census,
    script: &Script,
    out: &mut O,
    steps: &mut Steps<L>,
) -> Status
    requires { IsFirst census }
    ensures { IsGenAnswered population.now (census_value census) script.now result
        (O.faults out.old) (O.faults out.new) (O.taken out.old) (O.taken out.new)
        steps.old steps.new }
{
    let mut replies = SummingSink::new();
    match answer_script(rt, alloc, census, script, &mut replies, steps) {
        Status::Done => end_summed(population, replies.sums(), out),
        _ => end_by(&End::Memory, out),
    }
}

// Serves sessions over a census.
fn serve_census<R: Threads + Wait + Sync, O: Sink, N: Listen + Send>(
    rt: &R,
    alloc: Global,
    census: Census,
    service: &Service,
    out: &mut O,
    net: &mut Vec<Port<N>>,
) -> Status
    requires first { IsFirst census }
    requires ports { service.now.workers + 1 ≤ vec_len net.old }
    requires fresh { All IsFresh net.old.items }
    ensures { IsServiceAnswered (census_value census) service.now net.old.items net.new.items result
        (O.faults out.old) (O.faults out.new) (O.taken out.old) (O.taken out.new) }
{
    let Census { setup, release } = census;
    let (places, workers, sessions) = (places_of(service), service.workers(), service.sessions());
    serve(
        rt,
        alloc,
        &setup,
        release,
        places,
        workers,
        sessions,
        out,
        net.as_mut_slice(),
    )
}

// Answers the lines of a script, by who owns the chain.
fn answer_run<R: Threads + Wait + Sync, O: Sink, D: Disk, L: Ledger>(
    run: &Running<'_, '_, R>,
    census: Census,
    script: &Script,
    out: &mut O,
    disk: &mut D,
    steps: &mut Steps<L>,
) -> Status
    requires first { IsFirst census }
    requires attached { D.attached disk.old ≡ false }
    ensures { IsRunAnswered run.now.owner.now (census_value census) script.now
        (disk_seen D.named D.could_leave D.attached D.content
        D.may_leave D.moment D.left_since D.faults disk.old disk.new) result
        (output (O.taken out.old) (O.taken out.new) (O.faults out.old) (O.faults out.new))
        steps.old steps.new }
{
    let (rt, alloc) = (run.rt, run.alloc);
    match run.owner {
        Owner::Custodian => answer_script(rt, alloc, census, script, out, steps),
        Owner::Journal(name) => {
            let kept = Kept {
                journal: name.as_str(),
                script,
            };
            answer_keep(rt, alloc, census, &kept, out, disk, steps)
        }
        Owner::Leader => answer_follow(rt, alloc, census, script, out, steps),
    }
}

// Serves sessions, by who owns the chain.
fn answer_ports<R: Threads + Wait + Sync, O: Sink, N: Listen + Send, D: Disk + Send>(
    run: &Running<'_, '_, R>,
    census: Census,
    service: &Service,
    out: &mut O,
    net: &mut Vec<Port<N>>,
    disk: &mut D,
) -> Status
    requires first { IsFirst census }
    requires ports { service.now.workers + 1 ≤ vec_len net.old }
    requires fresh { All IsFresh net.old.items }
    requires attached { D.attached disk.old ≡ false }
    ensures { ArePortsAnswered run.now.owner.now (census_value census) service.now
        net.old.items net.new.items
        (disk_seen D.named D.could_leave D.attached D.content
        D.may_leave D.moment D.left_since D.faults disk.old disk.new) result
        (output (O.taken out.old) (O.taken out.new) (O.faults out.old) (O.faults out.new)) }
{
    let (rt, alloc) = (run.rt, run.alloc);
    match run.owner {
        Owner::Custodian => serve_census(rt, alloc, census, service, out, net),
        Owner::Journal(name) => {
            let hosted = Hosted {
                journal: name.as_str(),
                service,
            };
            answer_host(rt, alloc, census, &hosted, out, net, disk)
        }
        Owner::Leader => answer_mirror(rt, alloc, census, service, out, net),
    }
}

// Does what is asked for, by the lines.
fn answer_lines<R: Threads + Wait + Sync, O: Sink, N: Listen + Send, D: Disk + Send, L: Ledger>(
    run: &Running<'_, '_, R>,
    census: Census,
    lines: &AskedLines,
    out: &mut O,
    net: &mut Vec<Port<N>>,
    disk: &mut D,
    steps: &mut Steps<L>,
) -> Status
    requires first { IsFirst census }
    requires ports { ports_taken lines.now ≤ vec_len net.old }
    requires fresh { All IsFresh net.old.items }
    requires attached { D.attached disk.old ≡ false }
    ensures { IsAnswered (asked_with (census_value census) run.now.owner.now lines.now)
        net.old.items net.new.items
        (disk_seen D.named D.could_leave D.attached D.content
        D.may_leave D.moment D.left_since D.faults disk.old disk.new) result
        (output (O.taken out.old) (O.taken out.new) (O.faults out.old) (O.faults out.new))
        steps.old steps.new }
{
    let (rt, alloc) = (run.rt, run.alloc);
    match lines {
        AskedLines::Script(script) => answer_run(run, census, script, out, disk, steps),
        AskedLines::Lanes(script) => answer_lanes(rt, alloc, census, script, out),
        AskedLines::Ports(service) => answer_ports(run, census, service, out, net, disk),
        AskedLines::Sums { population, script } => {
            sum_up(rt, alloc, population, census, script, out, steps)
        }
    }
}

// Does what is asked for.
fn answer<R: Threads + Wait + Sync, O: Sink, N: Listen + Send, D: Disk + Send, L: Ledger>(
    rt: &R,
    alloc: Global,
    asked: Asked<'_>,
    out: &mut O,
    net: &mut Vec<Port<N>>,
    disk: &mut D,
    steps: &mut Steps<L>,
) -> Status
    requires first { AskedIsFirst asked }
    requires ports { ports_taken asked.lines ≤ vec_len net.old }
    requires fresh { All IsFresh net.old.items }
    requires attached { D.attached disk.old ≡ false }
    ensures { IsAnswered (asked_value asked.entry) net.old.items net.new.items
        (disk_seen D.named D.could_leave D.attached D.content
        D.may_leave D.moment D.left_since D.faults disk.old disk.new) result
        (output (O.taken out.old) (O.taken out.new) (O.faults out.old) (O.faults out.new))
        steps.old steps.new }
{
    let Asked {
        census,
        owner,
        lines,
    } = asked;
    let run = Running {
        rt,
        alloc,
        owner: &owner,
    };
    answer_lines(&run, census, &lines, out, net, disk, steps)
}

/// Runs one command: reads its files, does its task, and says how the run ended, if it returns.
/// Where it ends before its task, the last line that `out` takes tells why.
///
/// With `script CLASSES RECODES PTABLE PEOPLE THRESHOLD SCRIPT` the reply to each line of the
/// script is written into `out`. With `lanes` and the same arguments its lanes are answered at the
/// same time, phase by phase, and `out` takes the text of each phase once all its lanes have ended;
/// what these lend isn't counted. With `keep CLASSES RECODES PTABLE PEOPLE THRESHOLD JOURNAL
/// SCRIPT` the batches of the journal in the disk's file of that name are published first, and then
/// the script is answered as `script` does, but that each batch is on the disk before its
/// publication is told. With `follow` and the arguments of `script` the lane `leader` brings
/// numbered messages to a follower, and every other lane's line is a query over the release that
/// the follower has reached by then. With `units CLASSES RECODES PTABLE PEOPLE THRESHOLD DWELLINGS
/// LINKS SCRIPT` the script is answered as `script` does, and a line that begins with `dwellings`
/// in place of `table` counts the dwellings of the persons that it chooses. With `serve CLASSES
/// RECODES PTABLE PEOPLE THRESHOLD PORT WORKERS SESSIONS` the listeners are bound, the first to
/// PORT for the custodian and one for each worker to the ports after it, and each worker serves
/// sessions in a thread of its own, one after another; in the end `out` takes how many each had.
/// With `host`, which has DWELLINGS, LINKS and JOURNAL before PORT, the batches of the journal are
/// published first, and each further one is on the disk before its publication is told. With
/// `mirror`, which has DWELLINGS and LINKS there, the first port's sessions bring a leader's
/// numbered messages, each of which is published when all before it are. Both may have `-` in the
/// places of DWELLINGS and LINKS, and count dwellings where they don't.
/// With `gen N START` no file is read: the replies are those that `script` would write over the
/// generated files of N persons, and `out` takes how many lines and bytes they have, and the sum of
/// their byte values. Other arguments are refused.
///
/// A printed table is the perturbed table counted from scratch over the release of its number, to
/// which the custodian's lines before it led, or the leader's messages, by the perturbation table
/// and threshold of that release, and a query is refused for the first fault of its text, whatever
/// cubes are kept. A line that finds no memory gets the reply `memory`, and the next line is
/// answered. The counter rises by how many records and changes are lent: for a table the release's
/// records at most once, or, where a cube is kept, the changes that it is behind; where memory ran
/// out before the first line it doesn't. It takes memory for the files, for what they say, for one
/// table at a time, for at most 64 cubes or as many as `cache K` says, for the edits that are held,
/// for at most 64 messages that wait, and for the next release while it is made.
pub fn tablebuilder<F: Files, O: Sink, N: Listen + Send, D: Disk + Send, L: Ledger>(
    rt: &(impl Threads + Wait + Sync),
    alloc: Global,
    arguments: &Arguments<'_>,
    files: &mut F,
    out: &mut O,
    net: &mut Vec<Port<N>>,
    disk: &mut D,
    steps: &mut Steps<L>,
) -> Status
    // As many ports as the arguments ask for, and more, as they are made: the others stay so.
    requires ports { ports_asked (command_of arguments.now) ≤ vec_len net.old }
    requires fresh { All IsFresh net.old.items }
    requires attached { D.attached disk.old ≡ false }
    // What the call keeps, promise by promise, over what it saw.
    ensures { Keeps
        (call_over arguments.now
        (reading F.content F.faults F.readings files.old files.new)
        (output (O.taken out.old) (O.taken out.new) (O.faults out.old) (O.faults out.new))
        net.old.items net.new.items
        (disk_seen D.named D.could_leave D.attached D.content
        D.may_leave D.moment D.left_since D.faults disk.old disk.new) steps.old steps.new)
        result }
{
    match ask(rt, alloc, arguments, files) {
        Ok(asked) => answer(rt, alloc, asked, out, net, disk, steps),
        Err(end) => end_by(&end, out),
    }
}
