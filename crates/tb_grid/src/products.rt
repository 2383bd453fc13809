// How many cells a dense array has.

ghost use Rattle.std.specs.Prelude.{◌≡◌, ℕ, ◌<◌, ◌≤◌, ◌^◌, length, drop, slice_index};
ghost use Rattle.tb_grid.specs.Products.{cells_over as cells_over_vars};
ghost use Rattle.tb_grid.specs.Totals.{AreSome};
ghost use Rattle.tb_model.specs.RowMajor.{product};

use tb_base::{Shape, VarSet};

/// The cells of the largest cube that is built.
pub const MOST_CELLS: usize = 1_048_576;

/// How many cells the cube over the variables from place `from` on has; one more than the most
/// where there are too many.
pub fn cells_over(shape: &Shape, vars: &VarSet, from: usize) -> usize
    requires from { from ≤ length vars.now }
    requires there { (k : ℕ) → k < length vars.now
        → slice_index vars.now k < length shape.now }
    ensures { result ≡ cells_over_vars shape.now (drop from vars.now) }
{
    let mut cells = 1;
    let mut j = vars.len();
    while j > from {
        j -= 1;
        let count = shape.at(vars.at(j) as usize) as usize;
        cells = (count * cells).min(MOST_CELLS + 1);
    }
    cells
}

/// How many places the dimensions from `from` on have, where these are the dimensions' sizes.
pub fn places_from(sizes: &[usize], from: usize) -> usize
    requires from { from ≤ length sizes.now }
    requires some { AreSome sizes.now }
    requires few { product sizes.now < 2 ^ 64 }
    ensures places { result ≡ product (drop from sizes.now) }
    ensures few { result ≤ product sizes.now }
{
    let mut places = 1;
    let mut d = sizes.len();
    while d > from {
        d -= 1;
        places *= sizes[d];
    }
    places
}
