// The cells over fewer variables: a cube's cells are walked once, variable by variable, and each is
// added to the cell to which its categories lead. A variable that isn't among the fewer leads
// nowhere. Of packed cells those that are kept are added, each by its place.
//
// The cube over fewer variables has to fit too: where a variable has no category the wider cube has
// no cell at all, and the one without it may be too large.

ghost use Rattle.std.specs.Prelude.{◌≡◌, ℕ, ◌+◌, ◌*◌, ◌%◌, ◌<◌, ◌≤◌, List, [], ◌∷◌, All, IfOk};
ghost use Rattle.std.specs.Prelude.{drop, length, min};
ghost use Rattle.tb_base.specs.Cells.{empty_cell};
ghost use Rattle.tb_base.specs.Parts.{modulus, part_at, Part};
ghost use Rattle.tb_grid.specs.declared.products.TheConstants.{MOST_CELLS};
ghost use Rattle.tb_cube.specs.Forms.{cells_of, AreKept};
ghost use Rattle.tb_cube.specs.Narrowing.{forks_of, steps_of as steps_over, stride_in, AreRuns};
ghost use Rattle.tb_cube.specs.Walks.{count_of, kept_spread, led_to, spread, StandsAt};

use crate::axes::Axis;
use crate::packing::{Form, KeptCell};
use std::alloc::Global;
use tb_base::{Cell, Memory, Shape, VarSet, reduce_keys};
use tb_grid::cells_over;

/// A variable's number of categories, how many cells of the cube each of them has beside the
/// categories before, and how many cells over the fewer variables one of them leads on.
#[derive(Clone, Copy)]
pub struct Step {
    pub count: u16,
    pub run: u32,
    pub stride: u32,
}

// The stride of a variable among the axes of the fewer variables, 0 where it isn't there.
fn stride_of(axes: &[Axis], v: u16) -> u32
    ensures { result ≡ stride_in axes.now v }
{
    for axis in axes {
        if axis.variable == v {
            return axis.stride;
        }
    }
    0
}

/// The steps of some variables among the axes of fewer.
pub fn steps_of(
    alloc: Global,
    shape: &Shape,
    vars: &VarSet,
    axes: &[Axis],
) -> Result<Vec<Step>, Memory>
    requires { All (λ v. v < length shape.now) vars.now }
    ensures { IfOk result (λ steps. steps.items ≡ steps_over shape.now axes.now vars.now) }
{
    let mut steps = Vec::new(alloc);
    for j in 0..vars.len() {
        let v = vars.at(j);
        let count = shape.at(v as usize);
        let run = cells_over(shape, vars, j + 1) as u32;
        let stride = stride_of(axes, v);
        steps.push(Step { count, run, stride })?;
    }
    Ok(steps)
}

// Adds the cells whose categories before the last variable have the place k, where those categories
// lead to `base`.
#[inline]
fn add_row(all: &[Cell], step: Step, cells: &mut [Cell], k: usize, base: usize)
    requires { StandsAt (forks_of (step ∷ [])) (length all.now) (length cells.old) k base }
    ensures { (p : Part) (i : ℕ) → i < length cells.old
        → part_at p cells.new i % modulus p
        ≡ (part_at p cells.old i
        + spread (forks_of (step ∷ [])) (part_at p all.now) k base i) % modulus p }
{
    let n = step.count as usize;
    let from = k * n;
    for c in 0..n {
        let to = base + c * step.stride as usize;
        if to < cells.len() {
            let more = all[from + c];
            cells[to].add(more);
        }
    }
}

// The same for the first j categories. What leads past all cells is left out: there is none.
fn add_from(all: &[Cell], steps: &[Step], cells: &mut [Cell], j: usize, k: usize, base: usize)
    requires depth { j < length steps.now }
    requires stands { StandsAt (forks_of (drop j steps.now)) (length all.now) (length cells.old)
        k base }
    ensures { (p : Part) (i : ℕ) → i < length cells.old
        → part_at p cells.new i % modulus p
        ≡ (part_at p cells.old i
        + spread (forks_of (drop j steps.now)) (part_at p all.now) k base i) % modulus p }
{
    let step = steps[j];
    let last = steps.len() - 1;
    if j == last {
        add_row(all, step, cells, k, base);
        return;
    }
    let n = step.count as usize;
    for c in 0..n {
        let to = base + c * step.stride as usize;
        if to < cells.len() {
            add_from(all, steps, cells, j + 1, k * n + c, to);
        }
    }
}

// Adds each cell at the number to which its categories lead.
fn add_cells(all: &[Cell], steps: &[Step], cells: &mut [Cell])
    requires whole { length all.now ≡ count_of (forks_of steps.now) }
    requires small { length all.now ≤ MOST_CELLS }
    requires few { length cells.old ≤ MOST_CELLS }
    ensures { (p : Part) (i : ℕ) → i < length cells.old
        → part_at p cells.new i % modulus p
        ≡ (part_at p cells.old i + spread (forks_of steps.now) (part_at p all.now) 0 0 i)
        % modulus p }
{
    if all.len() == 0 {
        return;
    }
    if cells.len() == 0 {
        return;
    }
    if steps.len() == 0 {
        cells[0].add(all[0]);
        return;
    }
    add_from(all, steps, cells, 0, 0, 0);
}

// The number to which a place leads, as far as it is below a limit.
#[inline]
fn number_at(steps: &[Step], place: u32, limit: usize) -> usize
    requires runs { AreRuns steps.now }
    requires few { limit ≤ MOST_CELLS }
    ensures { min result limit ≡ min (led_to (forks_of steps.now) place) limit }
{
    let mut number = 0;
    let mut rest = place;
    for step in steps {
        number += (rest / step.run) as usize * step.stride as usize;
        rest %= step.run;
        if number >= limit {
            return number;
        }
    }
    number
}

// Adds each kept cell at the number to which its place leads. What leads past all cells is left
// out: there is none.
fn add_kept(kept: &[KeptCell], steps: &[Step], cells: &mut [Cell])
    requires runs { AreRuns steps.now }
    requires few { length cells.old ≤ MOST_CELLS }
    ensures { (p : Part) (i : ℕ) → i < length cells.old
        → part_at p cells.new i % modulus p
        ≡ (part_at p cells.old i + kept_spread (forks_of steps.now) p kept.now i) % modulus p }
{
    for one in kept {
        let number = number_at(steps, one.place, cells.len());
        if number < cells.len() {
            cells[number].add(one.cell);
        }
    }
}

// Adds each cell, in either form, at the number to which its categories lead.
fn add_form(form: &Form, steps: &[Step], cells: &mut [Cell])
    requires kept { AreKept form.now }
    requires whole { length (cells_of form.now) ≡ count_of (forks_of steps.now) }
    requires small { length (cells_of form.now) ≤ MOST_CELLS }
    requires runs { 0 < length (cells_of form.now) → AreRuns steps.now }
    requires few { length cells.old ≤ MOST_CELLS }
    ensures { (p : Part) (i : ℕ) → i < length cells.old
        → part_at p cells.new i % modulus p
        ≡ (part_at p cells.old i
        + spread (forks_of steps.now) (part_at p (cells_of form.now)) 0 0 i) % modulus p }
{
    match form {
        Form::Dense(all) => add_cells(all, steps, cells),
        Form::Packed { long, kept } => {
            if *long > 0 {
                add_kept(kept, steps, cells);
            }
        }
    }
}

// The same into cells that are empty.
fn fill(form: &Form, steps: &[Step], cells: &mut [Cell])
    requires kept { AreKept form.now }
    requires whole { length (cells_of form.now) ≡ count_of (forks_of steps.now) }
    requires small { length (cells_of form.now) ≤ MOST_CELLS }
    requires runs { 0 < length (cells_of form.now) → AreRuns steps.now }
    requires few { length cells.old ≤ MOST_CELLS }
    requires empty { All (λ c. c ≡ empty_cell) cells.old }
    ensures { (p : Part) (i : ℕ) → i < length cells.old
        → part_at p cells.new i
        ≡ spread (forks_of steps.now) (part_at p (cells_of form.now)) 0 0 i % modulus p }
{
    add_form(form, steps, cells);
    reduce_keys(cells);
}

/// So many cells, at each of which the cells that lead there are summed. It takes memory for them.
pub fn narrowed_cells(
    alloc: Global,
    form: &Form,
    steps: &[Step],
    long: usize,
) -> Result<Vec<Cell>, Memory>
    requires kept { AreKept form.now }
    requires whole { length (cells_of form.now) ≡ count_of (forks_of steps.now) }
    requires small { length (cells_of form.now) ≤ MOST_CELLS }
    requires runs { 0 < length (cells_of form.now) → AreRuns steps.now }
    requires few { long ≤ MOST_CELLS }
    ensures many { IfOk result (λ cells. length cells.items ≡ long) }
    ensures sums { IfOk result (λ cells. (p : Part) (i : ℕ) → i < long
        → part_at p cells.items i
        ≡ spread (forks_of steps.now) (part_at p (cells_of form.now)) 0 0 i % modulus p) }
{
    let mut cells = vec![in alloc; Cell::empty(); long]?;
    fill(form, steps, &mut cells);
    Ok(cells)
}
