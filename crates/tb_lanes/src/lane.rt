// The lines of one lane in a phase.

ghost use Rattle.std.specs.Prelude.{◌≡◌, ◌<◌, ◌≤◌, ◌+◌, true, length};
ghost use Rattle.tb_io.specs.declared.limits.TheConstants.{MOST_LINE_BYTES};
ghost use Rattle.tb_lanes.specs.Lanes.{HasRun, IsLineAnswered};
ghost use Rattle.tb_model.specs.Schemas.{shape_of};
ghost use Rattle.tb_script.specs.Scripts.{lanes_of};
ghost use Rattle.tb_session.specs.Parties.{IsPartyOf};

use std::alloc::Global;
use std::marker::Brand;
use std::sync::Wait;
use std::sync::ledger::{Blank, Ledger};
use std::thread::Threads;
use tb_base::Steps;
use tb_board::{Board, Named};
use tb_build::Gate;
use tb_io::{SureSink, Wrote};
use tb_script::Script;
use tb_session::{Party, answer};
use tb_text::Setup;

/// A lane: who answers its lines, what it wrote in its last phase, whether it had a line there, and
/// its gate.
#[derive(Drop)]
pub struct Lane<G> {
    pub party: Party,
    pub sink: SureSink,
    pub spoke: bool,
    pub gate: G,
}

// Answers a line into the lane's sink, which never fails.
fn answer_line<B: Named, R: Threads + Wait + Sync, G: Gate, L: Ledger>(
    setup: &Setup,
    board: &Board<B>,
    rt: &R,
    alloc: Global,
    line: &[u8],
    lane: &mut Lane<G>,
    steps: &mut Steps<L>,
)
    requires few { length line.now ≤ MOST_LINE_BYTES }
    requires own { IsPartyOf B.name (shape_of setup.now.schema) lane.old.party }
    ensures own { IsPartyOf B.name (shape_of setup.now.schema) lane.new.party }
    ensures answered { IsLineAnswered setup.now line.now lane.old lane.new }
    ensures spoke { lane.new.spoke ≡ true }
{
    lane.spoke = true;
    let gate = &mut lane.gate;
    match answer(
        setup,
        board,
        rt,
        alloc,
        &mut lane.party,
        line,
        &mut lane.sink,
        gate,
        steps,
    ) {
        Wrote::All => {}
        Wrote::Failed => unreachable!(),
    }
}

// Answers the lines of the lane of a number in a phase, and counts their steps.
fn run_counted<L: Ledger, B: Named, R: Threads + Wait + Sync, G: Gate>(
    blank: Blank,
    setup: &Setup,
    board: &Board<B>,
    rt: &R,
    alloc: Global,
    script: &Script,
    phase: u32,
    n: usize,
    lane: &mut Lane<G>,
)
    requires ledger { blank.name ≡ L.name }
    requires parts { blank.parts ≡ L.parts }
    requires some { 0 < L.parts }
    requires phase { 0 < phase }
    requires there { n < length (lanes_of script.now.lines) }
    requires own { IsPartyOf B.name (shape_of setup.now.schema) lane.old.party }
    ensures own { IsPartyOf B.name (shape_of setup.now.schema) lane.new.party }
    ensures run { HasRun setup.now script.now phase n lane.old lane.new }
{
    let mut steps = Steps::<L>::new(blank);
    lane.sink = SureSink::new(alloc);
    lane.spoke = false;
    for i in script.lines_up_to(phase - 1)..script.lines_up_to(phase) {
        if script.lane_number(i) == n {
            answer_line(setup, board, rt, alloc, script.line(i), lane, &mut steps);
        }
    }
}

/// Answers the lines of the lane of a number in a phase, into a sink that is empty at
/// first.
pub fn run_lane<B: Named, R: Threads + Wait + Sync, G: Gate>(
    setup: &Setup,
    board: &Board<B>,
    rt: &R,
    alloc: Global,
    script: &Script,
    phase: u32,
    n: usize,
    lane: &mut Lane<G>,
)
    requires phase { 0 < phase }
    requires there { n < length (lanes_of script.now.lines) }
    requires own { IsPartyOf B.name (shape_of setup.now.schema) lane.old.party }
    ensures own { IsPartyOf B.name (shape_of setup.now.schema) lane.new.party }
    ensures run { HasRun setup.now script.now phase n lane.old lane.new }
{
    run_counted::<Brand, B, R, G>(
        Blank::new(1),
        setup,
        board,
        rt,
        alloc,
        script,
        phase,
        n,
        lane,
    );
}
