// Runs of a cube's cells, added to the cells of a table.

ghost use Rattle.std.specs.Prelude.{◌≡◌, ℕ, ◌+◌, ◌*◌, ◌%◌, ◌<◌, ◌≤◌, ◌^◌, length};
ghost use Rattle.tb_base.specs.Parts.{modulus, part, part_at, Part};
ghost use Rattle.tb_grid.specs.declared.products.TheConstants.{MOST_CELLS};
ghost use Rattle.tb_query.specs.declared.limits.TheConstants.{MOST_PLACES};
ghost use Rattle.tb_rollup.specs.Rolling.{run_sum, runs_at};

use tb_base::Cell;

// The cell of a run of cells' records.
#[inline]
fn sum_of(all: &[Cell], from: usize, run: usize) -> Cell
    requires inside { from + run ≤ length all.now }
    requires small { length all.now ≤ MOST_CELLS }
    ensures { (p : Part) → part p result % modulus p
        ≡ run_sum (part_at p all.now) from run % modulus p }
{
    let mut sum = Cell::empty();
    for r in 0..run {
        sum.add(all[from + r]);
    }
    sum
}

// Adds a cell for each step, one after another from a place on, to the cell at that step beyond
// `base`. A step that leads past all cells is left out.
#[inline]
fn add_cells(all: &[Cell], from: usize, steps: &[u32], base: usize, cells: &mut [Cell])
    requires inside { from + length steps.now ≤ length all.now }
    requires small { length all.now ≤ MOST_CELLS }
    requires few { base ≤ MOST_PLACES }
    ensures { (p : Part) (i : ℕ) → i < length cells.old
        → part_at p cells.new i % modulus p
        ≡ (part_at p cells.old i + runs_at (part_at p all.now) from steps.now 1 base i)
        % modulus p }
{
    for c in 0..steps.len() {
        let to = base + steps[c] as usize;
        if to < cells.len() {
            let more = all[from + c];
            cells[to].add(more);
        }
    }
}

/// The same with a run of so many cells for each step.
#[inline]
pub fn add_runs(
    all: &[Cell],
    from: usize,
    steps: &[u32],
    run: usize,
    base: usize,
    cells: &mut [Cell],
)
    requires inside { from + length steps.now * run ≤ length all.now }
    requires small { length all.now ≤ MOST_CELLS }
    requires few { base ≤ MOST_PLACES }
    ensures { (p : Part) (i : ℕ) → i < length cells.old
        → part_at p cells.new i % modulus p
        ≡ (part_at p cells.old i + runs_at (part_at p all.now) from steps.now run base i)
        % modulus p }
{
    if run == 1 {
        add_cells(all, from, steps, base, cells);
        return;
    }
    for c in 0..steps.len() {
        let to = base + steps[c] as usize;
        if to < cells.len() {
            cells[to].add(sum_of(all, from + c * run, run));
        }
    }
}
