// A phase: its lanes in threads.
//
// The custodian is one lane of the list meanwhile: it changes places with its lane's party
// (`IsSwapped`), and proofs go by which lane is whose, from the list before the first exchange to
// that after the last.

ghost use Rattle.std.specs.Prelude.{◌≡◌, ◌<◌, ◌≤◌, ◌+◌, All, IfSome, length};
ghost use Rattle.tb_lanes.specs.Lanes.{HasRun};
ghost use Rattle.tb_lanes.specs.Runs.{IsOwner, IsSwapped, PhaseRan};
ghost use Rattle.tb_model.specs.Schemas.{shape_of};
ghost use Rattle.tb_script.specs.Scripts.{lanes_of};
ghost use Rattle.tb_serve.specs.Each.{Each};
ghost use Rattle.tb_session.specs.Parties.{IsAnalystOf, IsOwnerOf, IsPartyOf};

use crate::lane::{Lane, run_lane};
use crate::telling::{confirm_all, tell_all};
use std::alloc::Global;
use std::sync::Wait;
use std::thread::Threads;
use std::{mem, thread};
use tb_board::{Board, Named};
use tb_build::Gate;
use tb_script::Script;
use tb_session::Party;
use tb_text::Setup;

// Puts the custodian in the place of its lane's party, and that in the custodian's.
fn swap_owner<G>(owner: Option<usize>, own: &mut Party, lanes: &mut [Lane<G>])
    requires { IfSome owner (λ n. n < length lanes.old) }
    ensures { IsSwapped owner own.old own.new lanes.old lanes.new }
{
    if let Some(n) = owner {
        mem::swap(own, &mut lanes[n].party);
    }
}

// How many threads a phase takes: one where no two lanes have a line in it, and one
// for each lane elsewhere.
fn threads_for(script: &Script, phase: u32, lanes: usize) -> usize
    requires phase { 0 < phase }
    requires some { 0 < lanes }
    ensures { 0 < result }
{
    let from = script.lines_up_to(phase - 1);
    for i in from..script.lines_up_to(phase) {
        if script.lane_number(i) != script.lane_number(from) {
            return lanes;
        }
    }
    1
}

// Answers the lines of all lanes in a phase, each lane's in a thread of its own
// where one can be made.
fn run_each<B: Named + Send + Sync, R: Threads + Wait + Sync, G: Gate + Send>(
    setup: &Setup,
    board: &Board<B>,
    rt: &R,
    alloc: Global,
    script: &Script,
    phase: u32,
    lanes: &mut [Lane<G>],
)
    requires phase { 0 < phase }
    requires all { length lanes.old ≡ length (lanes_of script.now.lines) }
    requires own { All (λ lane. IsPartyOf B.name (shape_of setup.now.schema) lane.party)
        lanes.old }
    ensures own { All (λ lane. IsPartyOf B.name (shape_of setup.now.schema) lane.party) lanes.new }
    ensures run { Each (HasRun setup.now script.now phase) lanes.old lanes.new }
{
    if lanes.is_empty() {
        return;
    }
    let threads = threads_for(script, phase, lanes.len());
    let work = |n: usize, lane: &mut Lane<G>|
        requires { (0 < phase) × ((n < length (lanes_of script.now.lines))
            × IsPartyOf B.name (shape_of setup.now.schema) lane.now.party) }
        ensures { IsPartyOf B.name (shape_of setup.entry.now.schema) lane.exit.now.party
            × HasRun setup.entry.now script.entry.now phase n lane.entry.now
            lane.exit.now }
    { run_lane(setup, board, rt, alloc, script, phase, n, lane) };
    thread::for_each_mut(rt, lanes, threads, &work);
}

/// Runs a phase: each analyst learns what the custodian has seen, the lines of all
/// lanes are answered, each lane's into a sink of its own, and the custodian confirms all passes.
pub fn run_phase<B: Named + Send + Sync, R: Threads + Wait + Sync, G: Gate + Send>(
    setup: &Setup,
    board: &Board<B>,
    rt: &R,
    alloc: Global,
    script: &Script,
    phase: u32,
    owner: Option<usize>,
    own: &mut Party,
    lanes: &mut [Lane<G>],
)
    requires phase { 0 < phase }
    requires all { length lanes.old ≡ length (lanes_of script.now.lines) }
    requires owner { IsOwner script.now owner }
    requires own { IsOwnerOf B.name (shape_of setup.now.schema) own.old }
    requires analysts { All (λ lane. IsAnalystOf B.name (shape_of setup.now.schema) lane.party)
        lanes.old }
    ensures own { IsOwnerOf B.name (shape_of setup.now.schema) own.new }
    ensures analysts { All (λ lane. IsAnalystOf B.name (shape_of setup.now.schema) lane.party)
        lanes.new }
    ensures ran { PhaseRan setup.now script.now phase own.old own.new lanes.old lanes.new }
{
    tell_all(board, own, lanes);
    swap_owner(owner, own, lanes);
    run_each(setup, board, rt, alloc, script, phase, lanes);
    swap_owner(owner, own, lanes);
    confirm_all(board, own, lanes);
}
