// The lanes of a script, answered at the same time over a census.

ghost use Rattle.std.specs.Prelude.{◌≡◌};
ghost use Rattle.tb_base.specs.Records.{AllFit};
ghost use Rattle.tb_model.specs.Schemas.{shape_of};
ghost use Rattle.tb_top.specs.LaneOutputs.{AreLanesAnswered};
ghost use Rattle.tb_top.specs.Asking.{census_over};
ghost use Rattle.tb_top.specs.Loading.{IsBase, IsFirst, census_value};

use crate::asked::Census;
use std::alloc::Global;
use std::marker::Brand;
use std::sync::Wait;
use std::thread::Threads;
use tb_base::{Memory, Status};
use tb_board::{Board, Named, Opening};
use tb_endings::{End, end_by, end_run};
use tb_io::Sink;
use tb_lanes::{open_gates, run_lanes};
use tb_release::Release;
use tb_script::Script;
use tb_session::FIRST_CAPACITY;
use tb_text::Setup;

// Answers the lanes of a script over a board.
fn answer_on_board<B: Named + Send + Sync, R: Threads + Wait + Sync, O: Sink>(
    rt: &R,
    alloc: Global,
    setup: &Setup,
    opening: Opening,
    script: &Script,
    out: &mut O,
) -> Status
    requires name { opening.name ≡ B.name }
    requires shape { opening.start.shape ≡ shape_of setup.now.schema }
    requires first { IsBase opening.start.base }
    ensures { AreLanesAnswered (census_over setup.now opening.start.base) script.now result
        (O.faults out.old) (O.faults out.new) (O.taken out.old) (O.taken out.new) }
{
    let Ok(mut gates) = open_gates(alloc, script) else {
        return end_by(&End::Memory, out);
    };
    let (board, custodian) = Board::<B>::new(opening);
    let end = run_lanes(setup, &board, rt, alloc, script, custodian, out, &mut gates);
    end_run(end, out)
}

// The same from release 0.
fn lanes_from<R: Threads + Wait + Sync, O: Sink>(
    rt: &R,
    alloc: Global,
    setup: &Setup,
    base: Release,
    script: &Script,
    out: &mut O,
) -> Status
    requires base { IsBase base }
    requires fit { AllFit (shape_of setup.now.schema) base.records }
    ensures { AreLanesAnswered (census_over setup.now base) script.now result
        (O.faults out.old) (O.faults out.new) (O.taken out.old) (O.taken out.new) }
{
    match Opening::new(alloc, setup.schema.shape(), base, FIRST_CAPACITY) {
        Ok(opening) => answer_on_board::<Brand, R, O>(rt, alloc, setup, opening, script, out),
        Err(Memory) => end_by(&End::Memory, out),
    }
}

/// Answers the lanes of a script over a census, phase by phase. It takes memory for a board, for
/// the lanes and their answers.
pub fn answer_lanes<R: Threads + Wait + Sync, O: Sink>(
    rt: &R,
    alloc: Global,
    census: Census,
    script: &Script,
    out: &mut O,
) -> Status
    requires { IsFirst census }
    ensures { AreLanesAnswered (census_value census) script.now result
        (O.faults out.old) (O.faults out.new) (O.taken out.old) (O.taken out.new) }
{
    let Census { setup, release } = census;
    lanes_from(rt, alloc, &setup, release, script, out)
}
