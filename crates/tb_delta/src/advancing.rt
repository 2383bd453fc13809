// A cube from one release to the next.

ghost use Rattle.std.specs.Prelude.{◌≡◌, ◌+◌, All, length};
ghost use Rattle.tb_model.specs.Releases.{ReleaseValue};
ghost use Rattle.tb_cube.specs.Cubes.{cube_over};
ghost use Rattle.tb_release.specs.Chains.{after_batch};
ghost use Rattle.tb_release.specs.Results.{ChangeFits};
ghost use Rattle.tb_delta.specs.Advancing.{with_change, CanAdvance, CanMake};

use std::sync::ledger::Ledger;
use tb_base::Steps;
use tb_cube::Cube;
use tb_release::{Batch, Change};

// Makes a change in a cube.
fn make(cube: &mut Cube, change: &Change)
    requires { CanMake cube.old change.now }
    ensures { cube.new ≡ with_change cube.old change.now }
{
    cube.apply(change.before.as_ref(), change.after.as_ref());
}

/// Leads the cube of a release to that of the next, over the same variables: each change of the
/// batch takes the person's record before it out of its cell, and puts the one after it into its
/// cell. Its edits of the rules change no cube. So the work grows with the batch's changes alone,
/// however many records the release has.
///
/// The counter rises by how many changes there are. It takes no memory.
pub fn advance<L: Ledger>(cube: &mut Cube, batch: &Batch, steps: &mut Steps<L>)
    // The cube is dense and that of some release, and the batch follows it.
    requires release { (release : ReleaseValue) × CanAdvance cube.old batch.now release }
    requires fit { All (ChangeFits cube.old.shape) batch.now.changes }
    // Of whatever release it was, it is that of the release after it.
    ensures cube { (release : ReleaseValue) → CanAdvance cube.old batch.now release
        → cube.new ≡ cube_over cube.old.shape cube.old.vars
        (after_batch release batch.now).records }
    ensures charge { steps.new ≡ steps.old + length batch.now.changes }
{
    // Its clause tells that the variables are the shape's.
    let _ = cube.cells();
    let changes = batch.lend(steps);
    for change in changes {
        make(cube, change);
    }
}
