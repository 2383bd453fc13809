// The walk over lent records, from one place up to another.

ghost use Rattle.std.specs.Prelude.{◌≡◌, ◌≤◌, [], IfOk, length};
ghost use Rattle.tb_base.specs.declared.people.TheConstants.{MOST_PERSONS};
ghost use Rattle.tb_base.specs.Records.{AllFit};
ghost use Rattle.tb_cube.specs.Cubes.{cube_over};
ghost use Rattle.tb_delta.specs.Counting.{HasCube};
ghost use Rattle.tb_base.specs.Pieces.{between};
ghost use Rattle.tb_build.specs.Parts.{records_in};

use std::alloc::Global;
use tb_base::{Memory, Shape, VarSet};
use tb_cube::Cube;
use tb_release::Lent;

// Puts the lent records from one place up to another, counted through all pieces, into a cube that
// holds none. It takes no memory.
fn walk(cube: &mut Cube, lent: &Lent<'_>, from: usize, to: usize)
    requires empty { cube.old ≡ cube_over cube.old.shape cube.old.vars [] }
    requires fit { AllFit cube.old.shape (records_in lent.now) }
    requires few { length (records_in lent.now) ≤ MOST_PERSONS }
    ensures { cube.new
        ≡ cube_over cube.old.shape cube.old.vars (between from to (records_in lent.now)) }
{
    let mut before = 0;
    for i in 0..lent.pieces() {
        let piece = lent.piece(i);
        cube.add_piece(
            piece,
            from.saturating_sub(before),
            to.saturating_sub(before),
        );
        before += piece.len();
    }
}

/// The cube of the lent records from one place up to another.
pub fn cube_between(
    alloc: Global,
    shape: &Shape,
    vars: &VarSet,
    lent: &Lent<'_>,
    from: usize,
    to: usize,
) -> Result<Cube, Memory>
    requires has { HasCube shape.now vars.now }
    requires fit { AllFit shape.now (records_in lent.now) }
    requires few { length (records_in lent.now) ≤ MOST_PERSONS }
    ensures { IfOk result (λ cube. cube
        ≡ cube_over shape.now vars.now (between from to (records_in lent.now))) }
{
    let mut cube = Cube::zero(alloc, shape, vars)?;
    walk(&mut cube, lent, from, to);
    Ok(cube)
}
