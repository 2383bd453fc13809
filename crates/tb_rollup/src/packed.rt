// A packed cube rolled up by the cells that are kept: the walk is that of a dense cube, and passes
// over all categories that none of them has. A step returns the kept cells that are left for the
// next.

ghost use Rattle.std.specs.Prelude.{◌≡◌, ℕ, ◌+◌, ◌*◌, ◌==◌, ◌%◌, ◌<◌, ◌≤◌, cond, drop, length};
ghost use Rattle.std.specs.Prelude.{false};
ghost use Rattle.std.specs.List.{sum_by};
ghost use Rattle.tb_base.specs.Parts.{modulus, part, part_at, Part};
ghost use Rattle.tb_cube.specs.Cubes.{cell_count};
ghost use Rattle.tb_cube.specs.Packing.{kept_from};
ghost use Rattle.tb_query.specs.declared.limits.TheConstants.{MOST_PLACES};
ghost use Rattle.tb_rollup.specs.Rolling.{kept_after, kept_before, spread, AreAdded, AreBetween};
ghost use Rattle.tb_rollup.specs.Rolling.{IsLast, StandsBefore};

use crate::steps::{Last, last_used, next, steps_if_used};
use tb_base::Cell;
use tb_cube::{Cube, KeptCell};
use tb_plan::Plan;

// Adds the kept cells before a place to a sum, and returns those from it on.
#[inline]
fn add_before<'a>(kept: &'a [KeptCell], end: usize, sum: &mut Cell) -> &'a [KeptCell]
    ensures left { result.now ≡ kept_after end kept.now }
    ensures sums { (p : Part) → part p sum.new % modulus p
        ≡ (part p sum.old + sum_by (λ k. part p k.cell) (kept_before end kept.now)) % modulus p }
{
    let mut left = kept;
    while let [one, after @ ..] = left {
        if one.place as usize >= end {
            return left;
        }
        sum.add(one.cell);
        left = after;
    }
    left
}

// The kept cells from a place on.
#[inline]
fn skip_before<'a>(kept: &'a [KeptCell], end: usize) -> &'a [KeptCell]
    ensures { result.now ≡ kept_after end kept.now }
{
    let mut left = kept;
    while let [one, after @ ..] = left {
        if one.place as usize >= end {
            return left;
        }
        left = after;
    }
    left
}

// Whether the first kept cell is before a place.
#[inline]
fn begins_before(kept: &[KeptCell], end: usize) -> bool
    ensures { result ≡ false → kept_after end kept.now ≡ kept.now }
{
    match kept {
        [one, ..] => (one.place as usize) < end,
        [] => false,
    }
}

// Adds the kept cells whose categories before the last variable have the place k, where those
// categories lead to `base`, and each category has one cell.
#[inline]
fn add_cells<'a>(
    cube: &Cube,
    plan: &Plan,
    last: &Last,
    kept: &'a [KeptCell],
    cells: &mut [Cell],
    k: usize,
    base: usize,
) -> &'a [KeptCell]
    requires last { IsLast plan.now cube.now.vars last.now.at last.now.steps.now last.now.run }
    requires one { last.now.run ≡ 1 }
    requires stands { StandsBefore cube.now plan.now (length cells.old) last.now.at k base
        kept.now }
    ensures left { AreBetween ((k + 1) * length last.now.steps.now) (length cube.now.cells)
        result.now }
    ensures added { AreAdded plan.now cube.now.vars kept.now cells.old result.now cells.new }
{
    let _ = cube;
    let _ = plan;
    let from = k * last.steps.len();
    let end = from + last.steps.len();
    let mut left = kept;
    while let [one, after @ ..] = left {
        let place = one.place as usize;
        if place >= end {
            return left;
        }
        let to = base + last.steps[place - from] as usize;
        if to < cells.len() {
            cells[to].add(one.cell);
        }
        left = after;
    }
    left
}

// The same where each category has a run of cells.
fn add_runs<'a>(
    cube: &Cube,
    plan: &Plan,
    last: &Last,
    kept: &'a [KeptCell],
    cells: &mut [Cell],
    k: usize,
    base: usize,
) -> &'a [KeptCell]
    requires last { IsLast plan.now cube.now.vars last.now.at last.now.steps.now last.now.run }
    requires stands { StandsBefore cube.now plan.now (length cells.old) last.now.at k base
        kept.now }
    ensures left { AreBetween ((k + 1) * (length last.now.steps.now * last.now.run))
        (length cube.now.cells) result.now }
    ensures added { AreAdded plan.now cube.now.vars kept.now cells.old result.now cells.new }
{
    let _ = cube;
    let _ = plan;
    let from = k * (last.steps.len() * last.run);
    let mut left = kept;
    for c in 0..last.steps.len() {
        let mut sum = Cell::empty();
        left = add_before(left, from + (c + 1) * last.run, &mut sum);
        let to = base + last.steps[c] as usize;
        if to < cells.len() {
            cells[to].add(sum);
        }
    }
    left
}

// Adds the kept cells whose first j categories have the place k, where those categories lead to
// `base`. What leads past all places is left out.
fn walk<'a>(
    cube: &Cube,
    plan: &Plan,
    last: &Last,
    kept: &'a [KeptCell],
    cells: &mut [Cell],
    j: usize,
    k: usize,
    base: usize,
) -> &'a [KeptCell]
    requires last { IsLast plan.now cube.now.vars last.now.at last.now.steps.now last.now.run }
    requires depth { j ≤ last.now.at }
    requires stands { StandsBefore cube.now plan.now (length cells.old) j k base kept.now }
    ensures left { AreBetween ((k + 1) * cell_count plan.now.shape (drop j cube.now.vars))
        (length cube.now.cells) result.now }
    ensures added { AreAdded plan.now cube.now.vars kept.now cells.old result.now cells.new }
{
    if j == last.at {
        return if last.run == 1 {
            add_cells(cube, plan, last, kept, cells, k, base)
        } else {
            add_runs(cube, plan, last, kept, cells, k, base)
        };
    }
    let v = cube.vars().at(j);
    let n = cube.shape().at(v as usize) as usize;
    let run = cube.run(j);
    let steps = steps_if_used(plan, v);
    let mut left = kept;
    for c in 0..n {
        let to = next(steps, c, base);
        let end = (k * n + c + 1) * run;
        if to < cells.len() && begins_before(left, end) {
            left = walk(cube, plan, last, left, cells, j + 1, k * n + c, to);
        } else {
            left = skip_before(left, end);
        }
    }
    left
}

// Adds each kept cell to the first.
fn add_to_first(kept: &[KeptCell], cells: &mut [Cell])
    requires { 0 < length cells.old }
    ensures { (p : Part) (i : ℕ) → i < length cells.old
        → part_at p cells.new i % modulus p
        ≡ (part_at p cells.old i + sum_by (λ k. cond (0 == i) (part p k.cell) 0) kept.now)
        % modulus p }
{
    for one in kept {
        cells[0].add(one.cell);
    }
}

/// Adds each cell of a packed cube, of which these are kept, at the number to which it leads.
pub fn roll_packed(cube: &Cube, plan: &Plan, kept: &[KeptCell], cells: &mut [Cell])
    requires kept { kept.now ≡ kept_from 0 cube.now.cells }
    requires shape { cube.now.shape ≡ plan.now.shape }
    requires full { 0 < length cube.now.cells }
    requires some { 0 < length cells.old }
    requires few { length cells.old ≤ MOST_PLACES }
    ensures { (p : Part) (i : ℕ) → i < length cells.old
        → part_at p cells.new i % modulus p
        ≡ (part_at p cells.old i
        + spread plan.now cube.now.vars (part_at p cube.now.cells) 0 0 i) % modulus p }
{
    // Its clause tells that the cube is whole.
    let _ = cube.cells();
    match last_used(cube, plan) {
        None => add_to_first(kept, cells),
        Some(last) => {
            walk(cube, plan, &last, kept, cells, 0, 0, 0);
        }
    }
}
