// Cells merged with others.

ghost use Rattle.std.specs.Prelude.{◌≡◌, ℕ, ◌+◌, ◌<◌, ◌^◌, length, slice_index_or};
ghost use Rattle.tb_base.specs.declared.cells.Cell.{Cell as AnyCell};
ghost use Rattle.tb_base.specs.Cells.{merged_all};

use tb_base::Cell;

/// Merges each cell with the other at its place.
pub fn merge_all(cells: &mut [Cell], others: &[Cell])
    requires long { length cells.old ≡ length others.now }
    requires room { (k : ℕ) (d : AnyCell) → k < length cells.old
        → (slice_index_or cells.old k d).count + (slice_index_or others.now k d).count < 2 ^ 32 }
    ensures { cells.new ≡ merged_all cells.old others.now }
{
    for i in 0..cells.len() {
        cells[i].add(others[i]);
    }
}
