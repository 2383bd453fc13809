// The cube of a release, counted from its records.

ghost use Rattle.std.specs.Prelude.{◌≡◌, ◌+◌, ◌≤◌, length, IfOk, OnOk};
ghost use Rattle.tb_base.specs.Records.{AllFit};
ghost use Rattle.tb_cube.specs.Cubes.{cube_over};
ghost use Rattle.tb_delta.specs.Counting.{HasCube};

use std::alloc::Global;
use std::sync::ledger::Ledger;
use tb_base::{Memory, Shape, Steps, VarSet};
use tb_cube::Cube;
use tb_release::Release;

/// The cube of a release over some variables, counted from its records by one thread. They are lent
/// once; it takes memory for the cube alone.
pub fn count_all<L: Ledger>(
    alloc: Global,
    shape: &Shape,
    vars: &VarSet,
    release: &Release,
    steps: &mut Steps<L>,
) -> Result<Cube, Memory>
    requires has { HasCube shape.now vars.now }
    requires fit { AllFit shape.now release.now.records }
    ensures price { steps.new ≤ steps.old + length release.now.records }
    ensures cost { OnOk result (steps.new ≡ steps.old + length release.now.records) }
    ensures cube { IfOk result (λ cube. cube ≡ cube_over shape.now vars.now release.now.records) }
{
    release.soundness();
    let mut cube = Cube::zero(alloc, shape, vars)?;
    let lent = release.lend(steps);
    for i in 0..lent.pieces() {
        let piece = lent.piece(i);
        cube.add_piece(piece, 0, piece.len());
    }
    Ok(cube)
}
