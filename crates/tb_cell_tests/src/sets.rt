// Sets of variables of the small setup, over each of which there is a cube.

ghost use Rattle.std.specs.Prelude.{◌≡◌, ◌<◌, ℕ, length, slice_index, IfOk};
ghost use Rattle.tb_core.specs.Desks.{HasCube};

use std::alloc::Global;
use tb_base::{Memory, Shape, VarSet};
use tb_grid::{MOST_CELLS, cells_over};

// A set of some of the three variables, where there is a cube over it.
fn with_cube(shape: &Shape, vars: VarSet) -> Result<VarSet, Memory>
    requires { (k : ℕ) → k < length vars → slice_index vars k < 3 }
    ensures { IfOk result (HasCube shape.now) }
{
    if shape.len() < 3 || cells_over(shape, &vars, 0) > MOST_CELLS {
        return Err(Memory);
    }
    Ok(vars)
}

pub fn sex(alloc: Global, shape: &Shape) -> Result<VarSet, Memory>
    ensures { IfOk result (HasCube shape.now) }
{
    with_cube(shape, VarSet::of(alloc, &[0])?)
}

pub fn age_by_sex(alloc: Global, shape: &Shape) -> Result<VarSet, Memory>
    ensures { IfOk result (HasCube shape.now) }
{
    with_cube(shape, VarSet::of(alloc, &[0, 1])?)
}

pub fn all_variables(alloc: Global, shape: &Shape) -> Result<VarSet, Memory>
    ensures { IfOk result (HasCube shape.now) }
{
    with_cube(shape, VarSet::of(alloc, &[0, 1, 2])?)
}
