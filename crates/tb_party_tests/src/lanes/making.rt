// Scripts that are run over a board of the small setup.

ghost use Rattle.std.specs.Prelude.{◌≡◌, length, vec_len};
ghost use Rattle.tb_model.specs.Schemas.{shape_of};
ghost use Rattle.tb_script.specs.Scripts.{lanes_of};

use std::alloc::Global;
use std::marker::Brand;
use std::sync::Wait;
use std::thread::Threads;
use tb_base::Memory;
use tb_board::{Board, Named, Opening};
use tb_build::Gate;
use tb_io::Sink;
use tb_lanes::{open_gates, run_lanes};
use tb_script::{RunEnd, Script};
use tb_small_boards::{opening, read_script};
use tb_text::Setup;

// Runs a script over a board, each lane past its gate.
pub fn run_past<B: Named + Send + Sync, R: Threads + Wait + Sync, K: Sink, G: Gate + Send + Drop>(
    rt: &R,
    alloc: Global,
    setup: &Setup,
    opening: Opening,
    script: &Script,
    sink: &mut K,
    gates: &mut Vec<G>,
) -> RunEnd
    requires name { opening.name ≡ B.name }
    requires shape { opening.start.shape ≡ shape_of setup.now.schema }
    requires gates { vec_len gates.old ≡ length (lanes_of script.now.lines) }
{
    let (board, custodian) = Board::<B>::new(opening);
    run_lanes(setup, &board, rt, alloc, script, custodian, sink, gates)
}

// Runs a script over a new board, past open gates.
fn run_open<R: Threads + Wait + Sync, K: Sink>(
    rt: &R,
    alloc: Global,
    setup: &Setup,
    script: &Script,
    sink: &mut K,
) -> Result<RunEnd, Memory> {
    let mut gates = open_gates(alloc, script)?;
    let opening = opening(alloc, setup)?;
    Ok(run_past::<Brand, _, _, _>(rt, alloc, setup, opening, script, sink, &mut gates))
}

// The same of a script's bytes.
pub fn run<R: Threads + Wait + Sync, K: Sink>(
    rt: &R,
    alloc: Global,
    setup: &Setup,
    script: &[u8],
    sink: &mut K,
) -> Result<RunEnd, Memory> {
    let script = read_script(alloc, script)?;
    run_open(rt, alloc, setup, &script, sink)
}
