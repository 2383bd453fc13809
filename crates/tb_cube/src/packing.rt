// The two forms of a cube's cells: all of them, or those that aren't empty, each with its place.

ghost use Rattle.std.specs.Prelude.{◌≡◌, ℕ, ◌<◌, ◌≤◌, ◌^◌, true, false, length, All};
ghost use Rattle.std.specs.Prelude.{if◌then◌else◌, slice_index_or, IfOk, MatchOption};
ghost use Rattle.tb_base.specs.Cells.{empty_cell};
ghost use Rattle.tb_cube.specs.Forms.{cells_of, is_dense as are_all_kept, AreKept};
ghost use Rattle.tb_cube.specs.Packing.{all_cells, cell_at, filled, kept_from, put_at, InOrder};
ghost use Rattle.tb_cube.specs.Packing.{is_empty as has_none};

use std::alloc::Global;
use tb_base::{Cell, Memory};

/// A cell that isn't empty, with its place.
#[derive(Clone, Copy)]
pub struct KeptCell {
    pub place: u32,
    pub cell: Cell,
}

/// All the cells, or how many there are with those that aren't empty, in order of place.
#[derive(Drop)]
pub enum Form {
    Dense(Vec<Cell>),
    Packed { long: usize, kept: Vec<KeptCell> },
}

// Whether a cell is that of no record.
#[inline]
fn is_empty(cell: Cell) -> bool
    ensures { result ≡ has_none cell }
{
    cell.count == 0 && cell.key == 0
}

/// How many cells aren't empty.
pub fn filled_in(cells: &[Cell]) -> usize
    ensures count { result ≡ filled cells.now }
    ensures most { result ≤ length cells.now }
{
    cells.iter().filter(|cell| !is_empty(**cell)).count()
}

/// What is kept of cells, of which so many aren't empty. It takes memory for these.
pub fn kept_of(alloc: Global, cells: &[Cell], filled: usize) -> Result<Vec<KeptCell>, Memory>
    requires { length cells.now < 2 ^ 32 }
    ensures { IfOk result (λ kept. kept.items ≡ kept_from 0 cells.now) }
{
    let mut kept = Vec::with_capacity(alloc, filled)?;
    for i in 0..cells.len() {
        let cell = cells[i];
        if !is_empty(cell) {
            kept.push(KeptCell {
                place: i as u32,
                cell,
            })?;
        }
    }
    Ok(kept)
}

// The cell that is kept at a place, by halves.
fn cell_in(kept: &[KeptCell], place: usize) -> Cell
    requires { InOrder kept.now }
    ensures { result ≡ cell_at kept.now place }
{
    let mut low = 0;
    let mut high = kept.len();
    while low < high {
        let middle = low + (high - low) / 2;
        let one = kept[middle];
        if one.place as usize == place {
            return one.cell;
        }
        if (one.place as usize) < place {
            low = middle + 1;
        } else {
            high = middle;
        }
    }
    Cell::empty()
}

// Puts kept cells at their places.
fn put_back(cells: &mut [Cell], kept: &[KeptCell])
    requires { All (λ k. k.place < length cells.old) kept.now }
    ensures { cells.new ≡ put_at kept.now cells.old }
{
    for one in kept {
        cells[one.place as usize] = one.cell;
    }
}

// So many cells, of which these are kept. It takes memory for all of them.
fn all_of(alloc: Global, long: usize, kept: &[KeptCell]) -> Result<Vec<Cell>, Memory>
    requires { kept.now ≡ kept_from 0 (all_cells long kept.now) }
    ensures { IfOk result (λ cells. cells.items ≡ all_cells long kept.now) }
{
    let mut cells = vec![in alloc; Cell::empty(); long]?;
    put_back(&mut cells, kept);
    Ok(cells)
}

impl Form {
    /// How many cells there are.
    pub fn count(&self) -> usize
        ensures { result ≡ length (cells_of self.now) }
    {
        match self {
            Form::Dense(cells) => cells.len(),
            Form::Packed { long, kept: _ } => *long,
        }
    }

    /// Whether all cells are kept.
    pub fn is_dense(&self) -> bool
        ensures { result ≡ are_all_kept self.now }
    {
        match self {
            Form::Dense(_) => true,
            Form::Packed { long: _, kept: _ } => false,
        }
    }

    /// How many cells are kept.
    pub fn kept(&self) -> usize
        requires { AreKept self.now }
        ensures { result ≡ (if are_all_kept self.now then length (cells_of self.now)
            else filled (cells_of self.now)) }
    {
        match self {
            Form::Dense(cells) => cells.len(),
            Form::Packed { long: _, kept } => kept.len(),
        }
    }

    /// The cell at a place.
    #[inline]
    pub fn cell(&self, place: usize) -> Cell
        requires kept { AreKept self.now }
        requires there { place < length (cells_of self.now) }
        ensures { result ≡ slice_index_or (cells_of self.now) place empty_cell }
    {
        match self {
            Form::Dense(cells) => cells[place],
            Form::Packed { long: _, kept } => cell_in(kept, place),
        }
    }

    /// All the cells, where all are kept.
    #[inline]
    pub fn as_slice(&self) -> &[Cell]
        requires { are_all_kept self.now ≡ true }
        ensures { result.now ≡ cells_of self.now }
    {
        match self {
            Form::Dense(cells) => cells,
            Form::Packed { long: _, kept: _ } => &[],
        }
    }

    /// The cells that are kept, where not all are.
    #[inline]
    pub fn kept_cells(&self) -> Option<&[KeptCell]>
        requires { AreKept self.now }
        ensures { MatchOption result (are_all_kept self.now ≡ true)
            (λ kept. (are_all_kept self.now ≡ false)
            × (kept.now ≡ kept_from 0 (cells_of self.now))) }
    {
        match self {
            Form::Dense(_) => None,
            Form::Packed { long: _, kept } => Some(kept),
        }
    }

    /// All the cells. It takes memory for them.
    pub fn copy(&self, alloc: Global) -> Result<Vec<Cell>, Memory>
        requires { AreKept self.now }
        ensures { IfOk result (λ cells. cells.items ≡ cells_of self.now) }
    {
        match self {
            Form::Dense(cells) => Ok(cells.clone()?),
            Form::Packed { long, kept } => all_of(alloc, *long, kept),
        }
    }
}
