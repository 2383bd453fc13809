// A cube from one release of a chain to another.

ghost use Rattle.std.specs.Prelude.{◌≡◌, ◌+◌, ◌≤◌, length, take};
ghost use Rattle.tb_cube.specs.Cubes.{cube_over};
ghost use Rattle.tb_model.specs.Releases.{ReleaseValue};
ghost use Rattle.tb_past.specs.Leading.{changes_between, IsCubeOf};
ghost use Rattle.tb_release.specs.Chains.{change_count};
ghost use Rattle.tb_release.specs.Revised.{release_at};

use crate::retreating::retreat;
use std::sync::ledger::Ledger;
use tb_base::Steps;
use tb_cube::Cube;
use tb_delta::advance;
use tb_release::Batches;

// Leads the cube of a release on to a later one.
fn advance_to<L: Ledger>(
    cube: &mut Cube,
    batches: &Batches,
    from: usize,
    to: usize,
    steps: &mut Steps<L>,
)
    requires up { from ≤ to }
    requires there { to ≤ length batches.now }
    requires cube { (base : ReleaseValue) × IsCubeOf base batches.now from cube.old }
    ensures cube { (base : ReleaseValue) → IsCubeOf base batches.now from cube.old
        → cube.new ≡ cube_over cube.old.shape cube.old.vars
        (release_at base batches.now to).records }
    ensures charge { steps.new + change_count (take from batches.now)
        ≡ steps.old + change_count (take to batches.now) }
{
    for i in from..to {
        advance(cube, batches.at(i), steps);
    }
}

// Leads the cube of a release back to an earlier one.
fn retreat_to<L: Ledger>(
    cube: &mut Cube,
    batches: &Batches,
    from: usize,
    to: usize,
    steps: &mut Steps<L>,
)
    requires down { to ≤ from }
    requires there { from ≤ length batches.now }
    requires cube { (base : ReleaseValue) × IsCubeOf base batches.now from cube.old }
    ensures cube { (base : ReleaseValue) → IsCubeOf base batches.now from cube.old
        → cube.new ≡ cube_over cube.old.shape cube.old.vars
        (release_at base batches.now to).records }
    ensures charge { steps.new + change_count (take to batches.now)
        ≡ steps.old + change_count (take from batches.now) }
{
    let count = from - to;
    for i in 0..count {
        let at = from - 1 - i;
        retreat(cube, batches.at(at), steps);
    }
}

/// Leads the cube of a release of a chain to that of another, over the same variables: on by each
/// batch between them in its turn, or back by each, the last one first. So the work grows with the
/// batches between alone.
///
/// The counter rises by how many changes there are between them. It takes no memory.
pub fn lead_to<L: Ledger>(
    cube: &mut Cube,
    batches: &Batches,
    from: usize,
    to: usize,
    steps: &mut Steps<L>,
)
    requires from { from ≤ length batches.now }
    requires to { to ≤ length batches.now }
    // The cube is that of the one release of a chain on some release 0, whose records fit its
    // shape.
    requires cube { (base : ReleaseValue) × IsCubeOf base batches.now from cube.old }
    // Whatever release 0 is, it is that of the other release.
    ensures cube { (base : ReleaseValue) → IsCubeOf base batches.now from cube.old
        → cube.new ≡ cube_over cube.old.shape cube.old.vars
        (release_at base batches.now to).records }
    ensures charge { steps.new ≡ steps.old + changes_between batches.now from to }
{
    if from <= to {
        advance_to(cube, batches, from, to, steps);
    } else {
        retreat_to(cube, batches, from, to, steps);
    }
}
