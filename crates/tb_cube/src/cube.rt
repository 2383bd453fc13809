ghost use Rattle.std.specs.Prelude.{◌≡◌, List, [], ◌++◌, ◌+◌, ◌<◌, ◌≤◌, All, IfOk, drop, length};
ghost use Rattle.std.specs.Prelude.{slice_index_or, true, false, MatchOption, OnErr, OnOk};
ghost use Rattle.std.specs.List.{sum_by};
ghost use Rattle.std.specs.Option.{ForSome, option_copied, option_to_list};
ghost use Rattle.tb_base.specs.declared.people.TheConstants.{MOST_PERSONS};
ghost use Rattle.tb_base.specs.declared.records.Record.{Record as AnyRecord};
ghost use Rattle.tb_base.specs.Cells.{empty_cell};
ghost use Rattle.tb_base.specs.Records.{category_at, AllFit, Fits};
ghost use Rattle.tb_base.specs.Sets.{includes_all};
ghost use Rattle.tb_grid.specs.declared.products.TheConstants.{MOST_CELLS};
ghost use Rattle.tb_grid.specs.Products.{cells_over as cells_over_vars};
ghost use Rattle.tb_model.specs.Cubes.{cube_of};
ghost use Rattle.tb_cube.specs.Cubes.{cell_count, cube_over, kept_count, merged_at, merged_with};
ghost use Rattle.tb_cube.specs.Cubes.{narrowed_to, packed, place_of, put_in, taken_out, unpacked};
ghost use Rattle.tb_cube.specs.Cubes.{CanPutIn, CanTakeOut, HasRoom, Holds, IsWhole};
ghost use Rattle.tb_cube.specs.Packing.{kept_from};
ghost use Rattle.tb_base.specs.Pieces.{between};

use crate::axes::{Axis, axes_of, number_of};
use crate::columns::put_piece;
use crate::merging::merge_all;
use crate::narrowing::{narrowed_cells, steps_of};
use crate::packing::{Form, KeptCell, filled_in, kept_of};
use crate::putting::put_all;
use std::alloc::Global;
use std::marker::Model;
use tb_base::{Cell, Memory, Piece, Record, Shape, VarSet};
use tb_grid::cells_over;

/// The cells over some variables of a classification: one for each list of their categories, in
/// row-major order, so that the last variable's categories change fastest. A cell counts the
/// records with its categories, and has their key sum.
///
/// A cube is dense, with all its cells in one list, or packed: then the empty cells aren't kept.
/// Calls that change cells, and `as_slice`, want a dense cube.
///
/// Only `zero`, `copy`, `pack` and `narrow` take memory.
#[derive(Drop)]
pub struct Cube {
    alloc: Global,
    shape: Shape,
    vars: VarSet,
    axes: Vec<Axis>,
    form: Form,
}

impl Model for Cube {
    ghost use Rattle.tb_cube.specs.Cubes.{CubeValue};
    ghost use Rattle.tb_cube.specs.Forms.{seen_as, IsKeptCube};

    ghost Value = { CubeValue };

    ghost view = { λ c. seen_as c.shape c.vars c.form };

    ghost invariant = { λ c. IsKeptCube c.shape c.vars c.axes.items c.form };
}

impl Cube {
    /// The cube of no record over these variables: every cell is empty. It takes memory for the
    /// cells.
    pub fn zero(alloc: Global, shape: &Shape, vars: &VarSet) -> Result<Cube, Memory>
        requires there { All (λ v. v < length shape.now) vars.now }
        requires few { cell_count shape.now vars.now ≤ MOST_CELLS }
        ensures { IfOk result (λ cube. cube ≡ cube_over shape.now vars.now []) }
    {
        let axes = axes_of(alloc, shape, vars)?;
        let cells = vec![in alloc; Cell::empty(); cells_over(shape, vars, 0)]?;
        Ok(Cube {
            alloc,
            shape: shape.copy()?,
            vars: vars.copy()?,
            axes,
            form: Form::Dense(cells),
        })
    }

    /// Puts each record of a piece into the cell of its categories.
    pub fn add_all(&mut self, piece: &[Record])
        requires dense { self.old.dense ≡ true }
        requires fit { AllFit self.old.shape piece.now }
        requires room { All (λ c. c.count + length piece.now ≤ MOST_PERSONS) self.old.cells }
        ensures cells { self.new
            ≡ merged_with self.old (cube_of self.old.shape self.old.vars piece.now) }
        // A cube that held some records holds the piece's records too.
        ensures held { (before : List AnyRecord) → Holds self.old before
            → Holds self.new (before ++ piece.now) }
    {
        if let Form::Dense(cells) = &mut self.form {
            put_all(cells, &self.axes, piece);
        }
    }

    /// Puts each record of a piece from one place up to another, as far as it goes, into the cell
    /// of its categories. They are read by column.
    pub fn add_piece(&mut self, piece: &Piece, from: usize, to: usize)
        requires dense { self.old.dense ≡ true }
        requires fit { AllFit self.old.shape (between from to piece.now) }
        requires room { All (λ c. c.count + length (between from to piece.now) ≤ MOST_PERSONS)
            self.old.cells }
        ensures cells { self.new ≡ merged_with self.old
            (cube_of self.old.shape self.old.vars (between from to piece.now)) }
        // A cube that held some records holds these records too.
        ensures held { (before : List AnyRecord) → Holds self.old before
            → Holds self.new (before ++ between from to piece.now) }
    {
        if let Form::Dense(cells) = &mut self.form {
            put_piece(cells, &self.axes, piece, from, to);
        }
    }

    // The place of the cell of a record's categories.
    fn place_for(&self, one: &Record) -> usize
        requires { Fits self.now.shape one.now }
        ensures place { result ≡ place_of self.now.shape self.now.vars (category_at one.now) }
        ensures cube { IsWhole self.now }
        ensures there { result < length self.now.cells }
    {
        let _ = &self.form;
        number_of(&self.axes, one)
    }

    // Takes a record, if there is one, out of the cell of its categories.
    fn take_out(&mut self, gone: Option<&Record>)
        requires dense { self.old.dense ≡ true }
        requires can { ForSome (option_copied gone) (CanTakeOut self.old) }
        ensures { self.new ≡ taken_out (option_copied gone.entry) self.old }
    {
        if let Some(gone) = gone {
            let place = self.place_for(gone);
            if let Form::Dense(cells) = &mut self.form {
                cells[place].take_out(gone.key);
            }
        }
    }

    // Puts a record, if there is one, into the cell of its categories.
    fn put(&mut self, new: Option<&Record>)
        requires dense { self.old.dense ≡ true }
        requires can { ForSome (option_copied new) (CanPutIn self.old) }
        ensures { self.new ≡ put_in (option_copied new.entry) self.old }
    {
        if let Some(new) = new {
            let place = self.place_for(new);
            if let Form::Dense(cells) = &mut self.form {
                cells[place].put(new.key);
            }
        }
    }

    /// Takes the record before a change out, if there is one, and puts the record after it in, if
    /// there is one.
    pub fn apply(&mut self, before: Option<&Record>, after: Option<&Record>)
        requires dense { self.old.dense ≡ true }
        requires before { ForSome (option_copied before) (CanTakeOut self.old) }
        requires after { ForSome (option_copied after)
            (CanPutIn (taken_out (option_copied before) self.old)) }
        ensures cells { self.new ≡ put_in (option_copied after.entry)
            (taken_out (option_copied before.entry) self.old) }
        // A cube that held some records, the one before among them, holds the one after in its
        // place: so it is with a record that is added, dropped or replaced.
        ensures held { (first rest : List AnyRecord)
            → Holds self.old (first ++ (option_to_list (option_copied before.entry) ++ rest))
            → Holds self.new (first ++ (option_to_list (option_copied after.entry) ++ rest)) }
    {
        self.take_out(before);
        self.put(after);
    }

    /// Merges each cell with the other cube's at its place.
    pub fn merge(&mut self, other: &Cube)
        requires dense { self.old.dense ≡ true }
        requires other { other.now.dense ≡ true }
        requires shape { other.now.shape ≡ self.old.shape }
        requires vars { other.now.vars ≡ self.old.vars }
        requires room { HasRoom self.old other.now }
        ensures cells { self.new ≡ merged_with self.old other.now.cells }
        // Cubes that held some records make one that holds both's.
        ensures held { (ours theirs : List AnyRecord) → Holds self.old ours
            → Holds other.now theirs → Holds self.new (ours ++ theirs) }
    {
        if let Form::Dense(cells) = &mut self.form {
            merge_all(cells, other.form.as_slice());
        }
    }

    /// Merges one cell, at a place, with another, so that a cube may be merged in steps.
    #[inline]
    pub fn merge_at(&mut self, place: usize, cell: Cell)
        requires dense { self.old.dense ≡ true }
        requires place { place < length self.old.cells }
        requires room { (slice_index_or self.old.cells place empty_cell).count + cell.count
            ≤ MOST_PERSONS }
        ensures { self.new ≡ merged_at self.old place cell }
    {
        if let Form::Dense(cells) = &mut self.form {
            cells[place].add(cell);
        }
    }

    /// How many cells there are.
    pub fn cells(&self) -> usize
        ensures count { result ≡ length self.now.cells }
        ensures cube { IsWhole self.now }
    {
        let _ = &self.vars;
        self.form.count()
    }

    /// Whether the cube is dense.
    pub fn is_dense(&self) -> bool
        ensures { result ≡ self.now.dense }
    {
        self.form.is_dense()
    }

    /// How many cells are kept: all of a dense cube, else those that aren't empty.
    pub fn kept(&self) -> usize
        ensures { result ≡ kept_count self.now }
    {
        self.form.kept()
    }

    /// The cell at a place.
    #[inline]
    pub fn cell(&self, place: usize) -> Cell
        requires { place < length self.now.cells }
        ensures { result ≡ slice_index_or self.now.cells place empty_cell }
    {
        self.form.cell(place)
    }

    /// All the cells, of a dense cube.
    #[inline]
    pub fn as_slice(&self) -> &[Cell]
        requires { self.now.dense ≡ true }
        ensures cells { result.now ≡ self.now.cells }
        ensures cube { IsWhole self.now }
    {
        let _ = &self.vars;
        self.form.as_slice()
    }

    /// The cells of a packed cube that aren't empty, in order of place.
    pub fn kept_cells(&self) -> Option<&[KeptCell]>
        ensures { MatchOption result (self.now.dense ≡ true)
            (λ kept. (self.now.dense ≡ false) × (kept.now ≡ kept_from 0 self.now.cells)) }
    {
        self.form.kept_cells()
    }

    /// The variables.
    pub fn vars(&self) -> &VarSet
        ensures vars { result.now ≡ self.now.vars }
        ensures cube { IsWhole self.now }
    {
        let _ = &self.form;
        &self.vars
    }

    /// How many cells each category of the variable at a place among the cube's has beside each
    /// list of categories before it.
    #[inline]
    pub fn run(&self, j: usize) -> usize
        requires { j < length self.now.vars }
        ensures { result ≡ cells_over_vars self.now.shape (drop (j + 1) self.now.vars) }
    {
        let _ = &self.form;
        self.axes[j].stride as usize
    }

    /// How many categories each variable of the classification has.
    pub fn shape(&self) -> &Shape
        ensures { result.now ≡ self.now.shape }
    {
        let _ = &self.form;
        &self.shape
    }

    /// A dense cube with the same cells. It takes memory for them.
    pub fn copy(&self) -> Result<Cube, Memory>
        ensures { IfOk result (λ cube. cube ≡ unpacked self.now) }
    {
        let cells = self.form.copy(self.alloc)?;
        Ok(Cube {
            alloc: self.alloc,
            shape: self.shape.copy()?,
            vars: self.vars.copy()?,
            axes: self.axes.clone()?,
            form: Form::Dense(cells),
        })
    }

    /// Packs a dense cube of whose cells at most a quarter aren't empty; any other stays as it is.
    /// It takes memory for the cells that aren't empty, and where there is none the cube stays.
    pub fn pack(&mut self) -> Result<(), Memory>
        ensures ok { OnOk result (self.new ≡ packed self.old) }
        ensures err { OnErr result (self.new ≡ self.old) }
    {
        if let Form::Dense(cells) = &self.form {
            let filled = filled_in(cells);
            if 4 * filled <= cells.len() {
                let long = cells.len();
                let kept = kept_of(self.alloc, cells, filled)?;
                self.form = Form::Packed { long, kept };
            }
        }
        Ok(())
    }
}

/// The cube over some of a cube's variables: each cell is the merge of the cube's cells that agree
/// with it on them. It takes memory for the cells.
pub fn narrow(alloc: Global, cube: &Cube, vars: &VarSet) -> Result<Cube, Memory>
    requires among { includes_all cube.now.vars vars.now ≡ true }
    requires few { sum_by (λ c. c.count) cube.now.cells ≤ MOST_PERSONS }
    // Where a variable has no category the wider cube has no cell, and this one may be too large.
    requires fits { cell_count cube.now.shape vars.now ≤ MOST_CELLS }
    ensures cells { IfOk result (λ fewer. fewer ≡ narrowed_to vars.now cube.now) }
    // So from a cube that holds some records comes the one that is counted from scratch.
    ensures held { IfOk result (λ fewer. (records : List AnyRecord)
        → AllFit cube.now.shape records → Holds cube.now records
        → fewer ≡ cube_over cube.now.shape vars.now records) }
{
    // Its clause tells that the variables ascend.
    let _ = vars.len();
    let axes = axes_of(alloc, &cube.shape, vars)?;
    let steps = steps_of(alloc, &cube.shape, &cube.vars, &axes)?;
    let long = cells_over(&cube.shape, vars, 0);
    let cells = narrowed_cells(alloc, &cube.form, &steps, long)?;
    Ok(Cube {
        alloc,
        shape: cube.shape.copy()?,
        vars: vars.copy()?,
        axes,
        form: Form::Dense(cells),
    })
}
