// Records put into the cells of a small table: the numbers of a chunk of records are worked out a
// variable at a time, and then the records of each cell are tallied.

ghost use Rattle.std.specs.Prelude.{◌≡◌, ℕ, ◌+◌, ◌-◌, ◌<◌, ◌≤◌, ◌^◌, length, min, take};
ghost use Rattle.std.specs.Prelude.{slice_index, slice_index_or};
ghost use Rattle.tb_base.specs.declared.records.Record.{Record as AnyRecord};
ghost use Rattle.tb_base.specs.Records.{category_at, AllFit};
ghost use Rattle.tb_base.specs.declared.tallies.TheConstants.{CHUNK, MOST_TALLIED};
ghost use Rattle.tb_plan.specs.Steps.{step_at, steps_of};
ghost use Rattle.tb_scan.specs.Scanning.{numbers_of as numbers_by, ArePut};

use crate::put::{step_of, used};
use tb_base::{CHUNK, Cell, MOST_TALLIED, Record, add_tallies, write_keys};
use tb_plan::Plan;

// Adds the steps of the records' categories of a variable to their numbers, as far as a `u32` goes.
fn add_steps(plan: &Plan, v: u16, steps: &[u32], chunk: &[Record], numbers: &mut [u32; CHUNK])
    requires there { v < length plan.now.shape }
    requires steps { steps.now ≡ steps_of plan.now v }
    requires fit { AllFit plan.now.shape chunk.now }
    requires few { length chunk.now ≤ CHUNK }
    ensures { (one : AnyRecord) (i : ℕ) → i < length chunk.now → slice_index numbers.new i
        ≡ min (slice_index numbers.old i
        + step_at plan.now v (category_at (slice_index_or chunk.now i one) v)) (2 ^ 32 - 1) }
{
    for k in 0..chunk.len() {
        let step = step_of(plan, v, steps, &chunk[k]);
        numbers[k] = numbers[k].saturating_add(step as u32);
    }
}

/// The numbers to which the records of a chunk lead, as far as a `u32` goes: that of a record's
/// place without Total, or one past all places where the record fails a filter. It takes no memory.
pub fn numbers_of(plan: &Plan, chunk: &[Record]) -> [u32; CHUNK]
    requires fit { AllFit plan.now.shape chunk.now }
    requires few { length chunk.now ≤ CHUNK }
    ensures { take (length chunk.now) result ≡ numbers_by plan.now chunk.now }
{
    let mut numbers = [0; CHUNK];
    for j in 0..plan.vars().len() {
        let (v, steps) = used(plan, j);
        add_steps(plan, v, steps, chunk, &mut numbers);
    }
    numbers
}

/// Puts the records of a piece in, where there are few cells.
pub fn put_by_tallies(plan: &Plan, piece: &[Record], cells: &mut [Cell])
    requires few { length cells.old ≤ MOST_TALLIED }
    requires fit { AllFit plan.now.shape piece.now }
    ensures { ArePut plan.now cells.old piece.now cells.new }
{
    let mut keys = [0; CHUNK];
    for chunk in piece.chunks(CHUNK) {
        let numbers = numbers_of(plan, chunk);
        write_keys(chunk, &mut keys);
        add_tallies(cells, &numbers[..chunk.len()], &keys[..chunk.len()]);
    }
}
