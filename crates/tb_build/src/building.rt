// The cube of a release over some variables.

ghost use Rattle.std.specs.Prelude.{◌≡◌, ◌+◌, ◌≤◌, length, IfOk, OnOk};
ghost use Rattle.tb_base.specs.Records.{AllFit};
ghost use Rattle.tb_cube.specs.Cubes.{cube_over};
ghost use Rattle.tb_delta.specs.Counting.{HasCube};

use crate::cutting::build_in_parts;
use crate::gate::Gate;
use rayon::current_num_threads;
use std::alloc::Global;
use std::sync::ledger::Ledger;
use std::thread::Threads;
use tb_base::{Memory, Shape, Steps, VarSet};
use tb_cube::Cube;
use tb_grid::cells_over;
use tb_release::Release;

// Fewer records than these are counted sooner than threads are started for them.
const FEWEST_TO_CUT: usize = 250_000;

// A part has at least this many records for each cell of its cube: to make a cell and merge it
// takes as long as to put in one record or two.
const RECORDS_A_CELL: usize = 4;

// Into how many parts it is worth to cut records: as many as processors, where each part has enough
// records for its cells.
fn parts_for(rt: &impl Threads, records: usize, cells: usize) -> usize {
    if records < FEWEST_TO_CUT {
        return 1;
    }
    current_num_threads(rt).min(records / RECORDS_A_CELL / cells.max(1))
}

/// The cube of a release over some variables, counted from its records, which are lent once. It
/// reaches the gate before the first of them. Many records over few cells are counted by several
/// threads, each into a cube of its own. It takes memory for the cubes alone.
pub fn build<G: Gate, L: Ledger>(
    rt: &(impl Threads + Sync),
    alloc: Global,
    shape: &Shape,
    release: &Release,
    vars: &VarSet,
    gate: &mut G,
    steps: &mut Steps<L>,
) -> Result<Cube, Memory>
    requires has { HasCube shape.now vars.now }
    requires fit { AllFit shape.now release.now.records }
    ensures price { steps.new ≤ steps.old + length release.now.records }
    ensures cost { OnOk result (steps.new ≡ steps.old + length release.now.records) }
    // Nothing was lent yet when the gate was reached.
    ensures gate { G.HasReached gate.old gate.new steps.old }
    ensures cube { IfOk result (λ cube. cube ≡ cube_over shape.now vars.now release.now.records) }
{
    gate.reach(steps);
    let parts = parts_for(rt, release.len(), cells_over(shape, vars, 0));
    build_in_parts(rt, alloc, shape, release, vars, parts, steps)
}
