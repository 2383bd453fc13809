// The steps of a cube's variables in a plan, and the last variable that the plan uses.

ghost use Rattle.std.specs.Prelude.{◌≡◌, ◌+◌, ◌-◌, ◌<◌, ◌≤◌, false, true};
ghost use Rattle.std.specs.Prelude.{drop, length, slice_index, MatchOption};
ghost use Rattle.std.specs.Option.{IfSome};
ghost use Rattle.tb_plan.specs.Plans.{uses};
ghost use Rattle.tb_plan.specs.Steps.{steps_of};
ghost use Rattle.tb_query.specs.declared.limits.TheConstants.{MOST_PLACES};
ghost use Rattle.tb_rollup.specs.Rolling.{AreUnused, IsLast};

use tb_cube::Cube;
use tb_grid::cells_over;
use tb_plan::Plan;

/// The last variable of a cube that a plan uses: its place among the cube's variables, the steps of
/// its categories, and how many cells each category has.
#[derive(Clone, Copy)]
pub struct Last<'a> {
    pub at: usize,
    pub steps: &'a [u32],
    pub run: usize,
}

/// The steps of a variable's categories, if the plan uses it.
#[inline]
pub fn steps_if_used(plan: &Plan, v: u16) -> Option<&[u32]>
    requires { v < length plan.now.shape }
    ensures { MatchOption result (uses plan.now v ≡ false)
        (λ steps. steps.now ≡ steps_of plan.now v) }
{
    if plan.uses(v) {
        Some(plan.steps(v))
    } else {
        None
    }
}

/// The number after a category, where these are its variable's steps.
#[inline]
pub fn next(steps: Option<&[u32]>, c: usize, base: usize) -> usize
    requires category { IfSome steps (λ s. c < length s.now) }
    requires few { base ≤ MOST_PLACES }
    ensures { MatchOption steps.entry (result ≡ base)
        (λ s. result ≡ base + slice_index s.now c) }
{
    match steps {
        Some(steps) => base + steps[c] as usize,
        None => base,
    }
}

// How many of the cube's variables there are up to the last that the plan uses.
fn used_part(cube: &Cube, plan: &Plan) -> usize
    ensures within { result ≤ length cube.now.vars }
    ensures last { 0 < result → uses plan.now (slice_index cube.now.vars (result - 1)) ≡ true }
    ensures rest { AreUnused plan.now (drop result cube.now.vars) }
{
    let mut part = cube.vars().len();
    while part > 0 && !plan.uses(cube.vars().at(part - 1)) {
        part -= 1;
    }
    part
}

/// The last variable of a cube with cells that the plan uses, if it uses one.
pub fn last_used<'a>(cube: &Cube, plan: &'a Plan) -> Option<Last<'a>>
    requires shape { cube.now.shape ≡ plan.now.shape }
    requires some { 0 < length cube.now.cells }
    ensures { MatchOption result (AreUnused plan.now cube.now.vars)
        (λ last. IsLast plan.now cube.now.vars last.at last.steps.now last.run) }
{
    // Its clause tells that the cube is whole.
    let _ = cube.cells();
    let part = used_part(cube, plan);
    if part == 0 {
        return None;
    }
    Some(Last {
        at: part - 1,
        steps: plan.steps(cube.vars().at(part - 1)),
        run: cells_over(cube.shape(), cube.vars(), part),
    })
}
