// A dense cube walked once, variable by variable, down to the last one that the plan uses. The
// steps of the categories add up to the number of a place, and what is past all places fails a
// filter.
//
// The two last levels are one loop, since calls cost more than cells.

ghost use Rattle.std.specs.Prelude.{◌≡◌, ℕ, ◌+◌, ◌-◌, ◌%◌, ◌<◌, ◌≤◌, List, true, All};
ghost use Rattle.std.specs.Prelude.{drop, length};
ghost use Rattle.std.specs.List.{sum_by};
ghost use Rattle.tb_base.specs.declared.people.TheConstants.{MOST_PERSONS};
ghost use Rattle.tb_base.specs.declared.records.Record.{Record};
ghost use Rattle.tb_base.specs.Cells.{empty_cell};
ghost use Rattle.tb_base.specs.Records.{AllFit};
ghost use Rattle.tb_base.specs.Sets.{includes_all};
ghost use Rattle.tb_cube.specs.Cubes.{Holds};
ghost use Rattle.tb_base.specs.Parts.{modulus, part_at, Part};
ghost use Rattle.tb_model.specs.Cubes.{rolled_up};
ghost use Rattle.tb_model.specs.Places.{cells_of};
ghost use Rattle.tb_model.specs.Queries.{QueryValue};
ghost use Rattle.tb_model.specs.Schemas.{SchemaValue};
ghost use Rattle.tb_plan.specs.Plans.{place_count, plan_of, vars_of};
ghost use Rattle.tb_query.specs.declared.limits.TheConstants.{MOST_PLACES};
ghost use Rattle.tb_rollup.specs.Rolling.{spread, IsLast, Stands};

use crate::packed::roll_packed;
use crate::runs::add_runs;
use crate::steps::{Last, last_used, next, steps_if_used};
use tb_base::{Cell, reduce_keys};
use tb_cube::Cube;
use tb_plan::Plan;

// Adds each cell of the cube whose categories before the last variable have the place k, where
// those categories lead to `base`. What leads past all places is left out.
#[inline]
fn roll_last(cube: &Cube, plan: &Plan, last: &Last, cells: &mut [Cell], k: usize, base: usize)
    requires dense { cube.now.dense ≡ true }
    requires last { IsLast plan.now cube.now.vars last.now.at last.now.steps.now last.now.run }
    requires stands { Stands cube.now plan.now (length cells.old) last.now.at k base }
    ensures { (p : Part) (i : ℕ) → i < length cells.old
        → part_at p cells.new i % modulus p
        ≡ (part_at p cells.old i
        + spread plan.now (drop last.now.at cube.now.vars) (part_at p cube.now.cells) k base i)
        % modulus p }
{
    let _ = plan;
    let from = k * (last.steps.len() * last.run);
    add_runs(cube.as_slice(), from, last.steps, last.run, base, cells);
}

// The same for the first j categories, where variable j is next to the last.
fn roll_rows(
    cube: &Cube,
    plan: &Plan,
    last: &Last,
    cells: &mut [Cell],
    j: usize,
    k: usize,
    base: usize,
)
    requires dense { cube.now.dense ≡ true }
    requires last { IsLast plan.now cube.now.vars last.now.at last.now.steps.now last.now.run }
    requires depth { j + 1 ≡ last.now.at }
    requires stands { Stands cube.now plan.now (length cells.old) j k base }
    ensures { (p : Part) (i : ℕ) → i < length cells.old
        → part_at p cells.new i % modulus p
        ≡ (part_at p cells.old i
        + spread plan.now (drop j cube.now.vars) (part_at p cube.now.cells) k base i)
        % modulus p }
{
    let v = cube.vars().at(j);
    let n = cube.shape().at(v as usize) as usize;
    let steps = steps_if_used(plan, v);
    for c in 0..n {
        let to = next(steps, c, base);
        if to < cells.len() {
            roll_last(cube, plan, last, cells, k * n + c, to);
        }
    }
}

// The same for any variable j before the last.
fn roll_from(
    cube: &Cube,
    plan: &Plan,
    last: &Last,
    cells: &mut [Cell],
    j: usize,
    k: usize,
    base: usize,
)
    requires dense { cube.now.dense ≡ true }
    requires last { IsLast plan.now cube.now.vars last.now.at last.now.steps.now last.now.run }
    requires depth { j < last.now.at }
    requires stands { Stands cube.now plan.now (length cells.old) j k base }
    ensures { (p : Part) (i : ℕ) → i < length cells.old
        → part_at p cells.new i % modulus p
        ≡ (part_at p cells.old i
        + spread plan.now (drop j cube.now.vars) (part_at p cube.now.cells) k base i)
        % modulus p }
{
    if j == last.at - 1 {
        roll_rows(cube, plan, last, cells, j, k, base);
        return;
    }
    let v = cube.vars().at(j);
    let n = cube.shape().at(v as usize) as usize;
    let steps = steps_if_used(plan, v);
    for c in 0..n {
        let to = next(steps, c, base);
        if to < cells.len() {
            roll_from(cube, plan, last, cells, j + 1, k * n + c, to);
        }
    }
}

// Adds each cell of a dense cube at the number to which it leads.
fn roll_dense(cube: &Cube, plan: &Plan, cells: &mut [Cell])
    requires dense { cube.now.dense ≡ true }
    requires shape { cube.now.shape ≡ plan.now.shape }
    requires full { 0 < length cube.now.cells }
    requires some { 0 < length cells.old }
    requires few { length cells.old ≤ MOST_PLACES }
    ensures { (p : Part) (i : ℕ) → i < length cells.old
        → part_at p cells.new i % modulus p
        ≡ (part_at p cells.old i
        + spread plan.now cube.now.vars (part_at p cube.now.cells) 0 0 i) % modulus p }
{
    // Its clause tells that the cube is whole.
    let long = cube.cells();
    let Some(last) = last_used(cube, plan) else {
        add_runs(cube.as_slice(), 0, &[0], long, 0, cells);
        return;
    };
    if last.at == 0 {
        roll_last(cube, plan, &last, cells, 0, 0);
    } else {
        roll_from(cube, plan, &last, cells, 0, 0, 0);
    }
}

// Adds each cell of the cube, in either form, at the number to which it leads.
fn roll(cube: &Cube, plan: &Plan, cells: &mut [Cell])
    requires shape { cube.now.shape ≡ plan.now.shape }
    requires some { 0 < length cells.old }
    requires few { length cells.old ≤ MOST_PLACES }
    ensures { (p : Part) (i : ℕ) → i < length cells.old
        → part_at p cells.new i % modulus p
        ≡ (part_at p cells.old i
        + spread plan.now cube.now.vars (part_at p cube.now.cells) 0 0 i) % modulus p }
{
    if cube.cells() == 0 {
        return;
    }
    match cube.kept_cells() {
        None => roll_dense(cube, plan, cells),
        Some(kept) => roll_packed(cube, plan, kept, cells),
    }
}

/// Makes each cell of a table the merge of the cube's cells that pass the plan's filters and lie in
/// its place. The cells are empty before. It takes no memory.
pub fn roll_into(cube: &Cube, plan: &Plan, cells: &mut [Cell])
    requires shape { cube.now.shape ≡ plan.now.shape }
    requires among { includes_all cube.now.vars (vars_of plan.now) ≡ true }
    requires few { sum_by (λ c. c.count) cube.now.cells ≤ MOST_PERSONS }
    requires long { length cells.old ≡ place_count plan.now }
    requires empty { All (λ c. c ≡ empty_cell) cells.old }
    // Over any schema and query of which this is the plan.
    ensures rolled { (schema : SchemaValue) (query : QueryValue) → plan.now ≡ plan_of schema query
        → cells.new ≡ rolled_up schema query cube.now.shape cube.now.vars cube.now.cells }
    // So from a cube that holds some records come the cells counted from scratch.
    ensures counted { (schema : SchemaValue) (query : QueryValue) (records : List Record)
        → plan.now ≡ plan_of schema query → AllFit cube.now.shape records
        → Holds cube.now records → cells.new ≡ cells_of schema query records }
{
    // Their clauses tell that the cube is whole, and that there is a place.
    let _ = (cube.cells(), plan.cells());
    roll(cube, plan, cells);
    if plan.totals() {
        plan.add_totals(cells);
    }
    reduce_keys(cells);
}
