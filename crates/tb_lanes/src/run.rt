// All phases of a script.

ghost use Rattle.std.specs.Prelude.{◌≡◌, ◌≤◌, [], All, IfOk, length, vec_len};
ghost use Rattle.tb_io.specs.Faults.{HasRisen};
ghost use Rattle.tb_lanes.specs.Phases.{AreLanesRun};
ghost use Rattle.tb_lanes.specs.Runs.{IsOwner};
ghost use Rattle.tb_model.specs.Schemas.{shape_of};
ghost use Rattle.tb_script.specs.Scripts.{lanes_of};
ghost use Rattle.tb_script.specs.declared.run.RunEnd.TheVariants as run_end;
ghost use Rattle.tb_session.specs.Parties.{IsAnalystOf, IsCustodianOf, seen_by, state_at};
ghost use Rattle.tb_session.specs.Parties.{IsOwnerOf, state_of};

use crate::lane::Lane;
use crate::phase::run_phase;
use crate::writing::{all_tell, write_phase};
use std::alloc::Global;
use std::sync::Wait;
use std::thread::Threads;
use tb_base::Memory;
use tb_board::{Board, Custodian, Named};
use tb_build::Gate;
use tb_io::{Sink, SureSink, Wrote};
use tb_release::Edits;
use tb_script::{RunEnd, Script};
use tb_session::{Party, analyst_of};
use tb_text::Setup;

// A lane for each gate, with an analyst who has seen no more than the custodian. Where it is out of
// memory the gates stay.
fn lanes_of<B: Named, G: Gate + Drop>(
    rt: &impl Wait,
    alloc: Global,
    board: &Board<B>,
    custodian: &mut Custodian,
    gates: &mut Vec<G>,
) -> Result<Vec<Lane<G>>, Memory>
    requires front { custodian.old.writer.name ≡ B.name }
    ensures same { custodian.new ≡ custodian.old }
    ensures analysts { IfOk result (λ v.
        All (λ lane. IsAnalystOf B.name custodian.old.writer.start.shape lane.party) v.items) }
    ensures many { IfOk result (λ v. length v.items ≡ vec_len gates.old) }
{
    let mut lanes = Vec::with_capacity(alloc, gates.len())?;
    // They are taken from the end.
    gates.reverse();
    for _ in 0..gates.len() {
        let Some(gate) = gates.pop() else {
            unreachable!()
        };
        let party = analyst_of(board, rt, custodian);
        let sink = SureSink::new(alloc);
        lanes.push(Lane {
            party,
            sink,
            spoke: false,
            gate,
        })?;
    }
    Ok(lanes)
}

// Puts the gates back, each at its lane's number.
fn give_back<G: Drop>(lanes: Vec<Lane<G>>, gates: &mut Vec<G>) {
    for lane in lanes {
        // There is room for as many as there were.
        let _ = gates.push(lane.gate);
    }
}

// The number of the custodian's lane, if there is one.
fn owner_of(script: &Script) -> Option<usize>
    ensures { IsOwner script.now result }
{
    for n in 0..script.lanes() {
        if script.lane_name(n) == "custodian" {
            return Some(n);
        }
    }
    None
}

// Runs all phases, one after another, and writes the text of each once all its lanes have ended.
fn run_phases<B: Named + Send + Sync, R: Threads + Wait + Sync, G: Gate + Send, K: Sink>(
    setup: &Setup,
    board: &Board<B>,
    rt: &R,
    alloc: Global,
    script: &Script,
    own: &mut Party,
    lanes: &mut [Lane<G>],
    sink: &mut K,
) -> RunEnd
    requires all { length lanes.old ≡ length (lanes_of script.now.lines) }
    requires own { IsOwnerOf B.name (shape_of setup.now.schema) own.old }
    requires analysts { All (λ lane. IsAnalystOf B.name (shape_of setup.now.schema) lane.party)
        lanes.old }
    ensures count { K.faults sink.old ≤ K.faults sink.new }
    ensures failed { result ≡ run_end.WriteFault
        → HasRisen (K.faults sink.old) (K.faults sink.new) }
    ensures run { AreLanesRun setup.now (seen_by own.old).start.base script.now result
        (state_of own.old) (K.taken sink.old) (K.taken sink.new) }
{
    let owner = owner_of(script);
    for before in 0..script.phases() {
        let phase = before + 1;
        run_phase(setup, board, rt, alloc, script, phase, owner, own, lanes);
        if !all_tell(lanes) {
            return RunEnd::Memory;
        }
        match write_phase(script, phase, lanes, sink) {
            Wrote::All => {}
            Wrote::Failed => return RunEnd::WriteFault,
        }
    }
    RunEnd::Done
}

/// Writes, phase by phase, the line `phase I`, and for each lane with a line in that phase, in the
/// order of first appearance in the script, the line `lane NAME` and the replies to its lines. The
/// lanes of a phase are answered at the same time, each in a thread of its own where one can be
/// made, past the gate at the place of its number; at the end the gates stand where they stood.
/// What the custodian published before a phase is seen by all of it. A phase's text is written once
/// all its lanes have ended; where one of them was out of memory for its text, the run is, and
/// nothing of that phase is written. It takes memory for the lanes, for their answers, and for the
/// text of one phase at a time.
pub fn run_lanes<B: Named + Send + Sync, K: Sink, G: Gate + Send + Drop>(
    setup: &Setup,
    board: &Board<B>,
    rt: &(impl Threads + Wait + Sync),
    alloc: Global,
    script: &Script,
    mut custodian: Custodian,
    sink: &mut K,
    gates: &mut Vec<G>,
) -> RunEnd
    requires own { IsCustodianOf B.name (shape_of setup.now.schema) custodian [] }
    requires gates { vec_len gates.old ≡ length (lanes_of script.now.lines) }
    ensures count { K.faults sink.old ≤ K.faults sink.new }
    ensures failed { result ≡ run_end.WriteFault
        → HasRisen (K.faults sink.old) (K.faults sink.new) }
    ensures run { AreLanesRun setup.now custodian.writer.start.base script.now result
        (state_at custodian.writer []) (K.taken sink.old) (K.taken sink.new) }
{
    let Ok(mut lanes) = lanes_of(rt, alloc, board, &mut custodian, gates) else {
        return RunEnd::Memory;
    };
    let mut own = Party::Custodian(custodian, Edits::new(alloc));
    let end = run_phases(setup, board, rt, alloc, script, &mut own, &mut lanes, sink);
    give_back(lanes, gates);
    end
}
