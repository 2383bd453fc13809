// A cube from one release to the one before.

ghost use Rattle.std.specs.Prelude.{◌≡◌, ◌+◌, All, length};
ghost use Rattle.tb_cube.specs.Cubes.{cube_over};
ghost use Rattle.tb_delta.specs.Advancing.{with_change, CanAdvance, CanMake};
ghost use Rattle.tb_model.specs.Releases.{ReleaseValue};
ghost use Rattle.tb_past.specs.Retreating.{undone, CanRetreat};
ghost use Rattle.tb_release.specs.Results.{ChangeFits};

use std::sync::ledger::Ledger;
use tb_base::Steps;
use tb_cube::Cube;
use tb_delta::advance;
use tb_release::{Batch, Change};

// Undoes a change in a cube.
fn undo(cube: &mut Cube, change: &Change)
    requires { CanMake cube.old (undone change.now) }
    ensures { cube.new ≡ with_change cube.old (undone change.now) }
{
    cube.apply(change.after.as_ref(), change.before.as_ref());
}

/// Leads the cube of a release back to that of the one before, over the same variables: each change
/// of the batch between, the last one first, takes the person's record after it out of its cell,
/// and puts the one before it into its cell. In the batch's own order a record that was added and
/// then amended couldn't be undone: it no longer stands in the cell into which it was added. The
/// batch's edits of the rules change no cube.
///
/// The counter rises by how many changes there are. It takes no memory.
pub fn retreat<L: Ledger>(cube: &mut Cube, batch: &Batch, steps: &mut Steps<L>)
    // The cube is dense and that of the release after some release, which the batch follows.
    requires release { (release : ReleaseValue) × CanRetreat cube.old batch.now release }
    requires fit { All (ChangeFits cube.old.shape) batch.now.changes }
    // Whichever release the batch follows, it is that release's.
    ensures cube { (release : ReleaseValue) → CanRetreat cube.old batch.now release
        → cube.new ≡ cube_over cube.old.shape cube.old.vars release.records }
    ensures charge { steps.new ≡ steps.old + length batch.now.changes }
{
    // Its clause tells that the variables are the shape's.
    let _ = cube.cells();
    let changes = batch.lend(steps);
    let count = changes.len();
    for i in 0..count {
        let at = count - 1 - i;
        undo(cube, &changes[at]);
    }
}

/// Leads the cube of a release on by the batch that follows it, and back by the same batch: every
/// cell is as it was. It is a law of both, and no part of the program calls it.
pub fn there_and_back<L: Ledger>(cube: &mut Cube, batch: &Batch, steps: &mut Steps<L>)
    requires release { (release : ReleaseValue) × CanAdvance cube.old batch.now release }
    requires fit { All (ChangeFits cube.old.shape) batch.now.changes }
    ensures same { cube.new ≡ cube.old }
    ensures charge { steps.new
        ≡ steps.old + (length batch.now.changes + length batch.now.changes) }
{
    advance(cube, batch, steps);
    retreat(cube, batch, steps);
}
