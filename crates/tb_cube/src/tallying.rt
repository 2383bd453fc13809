// Records put into the cells of a small cube: the numbers and the keys of a chunk of records are
// written into columns, and then the records of each cell are tallied.

ghost use Rattle.std.specs.Prelude.{◌≡◌, ◌+◌, ◌<◌, ◌≤◌, ◌^◌, All, length, map, take};
ghost use Rattle.tb_base.specs.declared.tallies.TheConstants.{CHUNK, MOST_TALLIED};
ghost use Rattle.tb_base.specs.Cells.{IsReduced};
ghost use Rattle.tb_cube.specs.Axes.{numbers_by, with_all, LeadsBelow};

use crate::axes::{Axis, number_of};
use tb_base::{CHUNK, Cell, MOST_TALLIED, Record, add_tallies, know_cells};

// Writes the numbers of the cells of a chunk's records, and their keys.
fn write_columns(
    axes: &[Axis],
    chunk: &[Record],
    numbers: &mut [u32; CHUNK],
    keys: &mut [u16; CHUNK],
)
    requires lead { All (LeadsBelow MOST_TALLIED axes.now) chunk.now }
    requires few { length chunk.now ≤ CHUNK }
    ensures numbers { take (length chunk.now) numbers.new ≡ numbers_by axes.now chunk.now }
    ensures keys { take (length chunk.now) keys.new ≡ map (λ r. r.key) chunk.now }
{
    for k in 0..chunk.len() {
        let one = &chunk[k];
        let number = number_of(axes, one);
        numbers[k] = number as u32;
        keys[k] = one.key;
    }
}

/// Puts the records of a piece in, where there are few cells.
pub fn put_by_tallies(cells: &mut [Cell], axes: &[Axis], piece: &[Record])
    requires few { length cells.old ≤ MOST_TALLIED }
    requires lead { All (LeadsBelow (length cells.old) axes.now) piece.now }
    requires room { All (λ c. c.count + length piece.now < 2 ^ 32) cells.old }
    requires reduced { All IsReduced cells.old }
    ensures { cells.new ≡ with_all axes.now cells.old piece.now }
{
    know_cells(cells);
    let mut numbers = [0; CHUNK];
    let mut keys = [0; CHUNK];
    for chunk in piece.chunks(CHUNK) {
        write_columns(axes, chunk, &mut numbers, &mut keys);
        add_tallies(cells, &numbers[..chunk.len()], &keys[..chunk.len()]);
    }
    know_cells(cells);
}
