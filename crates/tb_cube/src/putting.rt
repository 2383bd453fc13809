// Records put into the cells of their categories, one by one, or by tallies where there are few
// cells.

ghost use Rattle.std.specs.Prelude.{◌≡◌, ◌+◌, ◌<◌, ◌≤◌, ◌^◌, All, length};
ghost use Rattle.tb_base.specs.Cells.{IsReduced};
ghost use Rattle.tb_grid.specs.declared.products.TheConstants.{MOST_CELLS};
ghost use Rattle.tb_cube.specs.Axes.{LeadsBelow, with_all};

use crate::axes::{Axis, number_of};
use crate::tallying::put_by_tallies;
use tb_base::{Cell, MOST_TALLIED, Record};

// Puts the records of a piece in, one by one.
fn put_each(cells: &mut [Cell], axes: &[Axis], piece: &[Record])
    requires few { length cells.old ≤ MOST_CELLS }
    requires lead { All (LeadsBelow (length cells.old) axes.now) piece.now }
    requires room { All (λ c. c.count + length piece.now < 2 ^ 32) cells.old }
    ensures { cells.new ≡ with_all axes.now cells.old piece.now }
{
    for one in piece {
        let number = number_of(axes, one);
        cells[number].put(one.key);
    }
}

/// Puts the records of a piece in.
pub fn put_all(cells: &mut [Cell], axes: &[Axis], piece: &[Record])
    requires few { length cells.old ≤ MOST_CELLS }
    requires lead { All (LeadsBelow (length cells.old) axes.now) piece.now }
    requires room { All (λ c. c.count + length piece.now < 2 ^ 32) cells.old }
    requires reduced { All IsReduced cells.old }
    ensures { cells.new ≡ with_all axes.now cells.old piece.now }
{
    if cells.len() <= MOST_TALLIED {
        put_by_tallies(cells, axes, piece);
    } else {
        put_each(cells, axes, piece);
    }
}
