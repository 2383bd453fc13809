// Records put into the cells of their places without Total. Most tables use one to three variables:
// for these the loops are written out, and the steps of a variable looked up before the loop.

ghost use Rattle.std.specs.Prelude.{◌≡◌, ℕ, List, ◌+◌, ◌++◌, ◌%◌, ◌<◌, cond, length, slice_index};
ghost use Rattle.std.specs.Prelude.{◌==◌, ◌^◌};
ghost use Rattle.tb_base.specs.declared.records.Record.{Record as AnyRecord};
ghost use Rattle.tb_base.specs.Records.{category_at, AllFit, Fits};
ghost use Rattle.tb_base.specs.Parts.{modulus, part_at, weight, Part};
ghost use Rattle.tb_plan.specs.Plans.{vars_of};
ghost use Rattle.tb_plan.specs.Steps.{number_at, step_at, steps_of};
ghost use Rattle.tb_scan.specs.Scanning.{ArePut, Hold};

use crate::tallied::put_by_tallies;
use tb_base::{Cell, MOST_TALLIED, Record};
use tb_plan::Plan;

// Puts a record into the cell of a number; past the cells it does nothing.
#[inline]
fn put_at(cells: &mut [Cell], number: usize, one: &Record)
    ensures { (p : Part) (i : ℕ) → i < length cells.old
        → part_at p cells.new i % modulus p
        ≡ (part_at p cells.old i + cond (number == i) (weight p one.now.key) 0) % modulus p }
{
    if number < cells.len() {
        cells[number].put(one.key);
    }
}

/// The variable at a place among those that a plan uses, and its steps.
pub fn used(plan: &Plan, j: usize) -> (u16, &[u32])
    requires { j < length (vars_of plan.now) }
    ensures variable { result.0 ≡ slice_index (vars_of plan.now) j }
    ensures there { result.0 < length plan.now.shape }
    ensures steps { result.1.now ≡ steps_of plan.now result.0 }
{
    let v = plan.vars().at(j);
    (v, plan.steps(v))
}

/// The step of a record's category of a variable, where these are the variable's steps in the plan.
#[inline]
pub fn step_of(plan: &Plan, v: u16, steps: &[u32], one: &Record) -> usize
    requires there { v < length plan.now.shape }
    requires steps { steps.now ≡ steps_of plan.now v }
    requires fits { Fits plan.now.shape one.now }
    ensures step { result ≡ step_at plan.now v (category_at one.now v) }
    ensures few { result < 2 ^ 32 }
{
    let _ = plan;
    steps[one.codes.at(v as usize) as usize] as usize
}

// The number to which a record leads: that of its place without Total, or one past all places
// where it fails a filter.
#[inline]
fn number_of(plan: &Plan, one: &Record) -> usize
    requires { Fits plan.now.shape one.now }
    ensures { result ≡ number_at plan.now (category_at one.now) }
{
    let mut number = 0;
    for j in 0..plan.vars().len() {
        let (v, steps) = used(plan, j);
        let step = step_of(plan, v, steps, one);
        number += step;
    }
    number
}

// Puts the records of a piece in, whatever the number of variables.
fn put_by_any(plan: &Plan, piece: &[Record], cells: &mut [Cell])
    requires fit { AllFit plan.now.shape piece.now }
    ensures { ArePut plan.now cells.old piece.now cells.new }
{
    for one in piece {
        put_at(cells, number_of(plan, one), one);
    }
}

// The same by one variable.
fn put_by_one(plan: &Plan, piece: &[Record], cells: &mut [Cell])
    requires vars { length (vars_of plan.now) ≡ 1 }
    requires fit { AllFit plan.now.shape piece.now }
    ensures { ArePut plan.now cells.old piece.now cells.new }
{
    let (v, of_v) = used(plan, 0);
    for one in piece {
        let by_v = step_of(plan, v, of_v, one);
        put_at(cells, by_v, one);
    }
}

// The same by two variables.
fn put_by_two(plan: &Plan, piece: &[Record], cells: &mut [Cell])
    requires vars { length (vars_of plan.now) ≡ 2 }
    requires fit { AllFit plan.now.shape piece.now }
    ensures { ArePut plan.now cells.old piece.now cells.new }
{
    let (v, of_v) = used(plan, 0);
    let (w, of_w) = used(plan, 1);
    for one in piece {
        let by_v = step_of(plan, v, of_v, one);
        let by_w = step_of(plan, w, of_w, one);
        put_at(cells, by_v + by_w, one);
    }
}

// The same by three variables.
fn put_by_three(plan: &Plan, piece: &[Record], cells: &mut [Cell])
    requires vars { length (vars_of plan.now) ≡ 3 }
    requires fit { AllFit plan.now.shape piece.now }
    ensures { ArePut plan.now cells.old piece.now cells.new }
{
    let (v, of_v) = used(plan, 0);
    let (w, of_w) = used(plan, 1);
    let (x, of_x) = used(plan, 2);
    for one in piece {
        let by_v = step_of(plan, v, of_v, one);
        let by_w = step_of(plan, w, of_w, one);
        let by_x = step_of(plan, x, of_x, one);
        put_at(cells, by_v + by_w + by_x, one);
    }
}

/// Puts each record of a piece into the cell of its place without Total: where there are totals,
/// the cells of the other places are not right before `put_totals`. It takes no memory.
pub fn put_all(plan: &Plan, piece: &[Record], cells: &mut [Cell])
    requires { AllFit plan.now.shape piece.now }
    ensures put { ArePut plan.now cells.old piece.now cells.new }
    // Cells that held some records hold the piece's records too.
    ensures held { (before : List AnyRecord) → Hold plan.now cells.old before
        → Hold plan.now cells.new (before ++ piece.now) }
{
    let used = plan.vars().len();
    if cells.len() <= MOST_TALLIED {
        put_by_tallies(plan, piece, cells);
    } else if used == 1 {
        put_by_one(plan, piece, cells);
    } else if used == 2 {
        put_by_two(plan, piece, cells);
    } else if used == 3 {
        put_by_three(plan, piece, cells);
    } else {
        put_by_any(plan, piece, cells);
    }
}
