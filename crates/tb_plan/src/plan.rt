// A query over a schema, worked out once.

ghost use Rattle.std.specs.Prelude.{◌≡◌, ℕ, ◌<◌, ◌≤◌, IfOk, true, length, map, slice_index};
ghost use Rattle.tb_base.specs.declared.var_set.TheConstants.{VARIABLES_IN_PLACE};
ghost use Rattle.tb_grid.specs.declared.products.TheConstants.{MOST_CELLS};
ghost use Rattle.tb_grid.specs.Totals.{AreSome, AreTotals, WereTotals};
ghost use Rattle.tb_model.specs.Places.{places_of};
ghost use Rattle.tb_model.specs.RowMajor.{product};
ghost use Rattle.tb_query.specs.Over.{IsOver};
ghost use Rattle.tb_query.specs.declared.limits.TheConstants.{MOST_PLACES};
ghost use Rattle.tb_plan.specs.Plans.{cube_cells_of, place_count, plan_of, sizes as sizes_of};
ghost use Rattle.tb_plan.specs.Plans.{up_to, uses, vars_of};
ghost use Rattle.tb_plan.specs.Whole.{IsPlan};
ghost use Rattle.tb_plan.specs.Steps.{steps_of};

use crate::axes::Axes;
use crate::steps::{all_steps, sizes, vars};
use std::alloc::Global;
use std::marker::Model;
use tb_base::{Cell, Memory, Shape, VarSet};
use tb_grid::{MOST_CELLS, add_totals, cells_over, places_from, take_totals};
use tb_query::Query;
use tb_schema::Schema;

/// A query over a schema, worked out once.
///
/// It knows the variable under each dimension and filter, which category of a dimension each
/// category of its variable falls in, and which pass each filter. Beside that it has, for each
/// variable that is used, the steps of its categories: the steps of a record's categories add up
/// to the number of its place, or to a number past all places where it fails a filter.
#[derive(Drop)]
pub struct Plan {
    axes: Axes,
    sizes: Vec<usize>,
    vars: VarSet,
    steps: Vec<Vec<u32>>,
    cube_cells: Option<u32>,
}

impl Model for Plan {
    ghost use Rattle.std.specs.Prelude.{map};
    ghost use Rattle.tb_plan.specs.Plans.{PlanValue};
    ghost use Rattle.tb_plan.specs.Views.{items_of, IsWorkedOut};

    ghost Value = { PlanValue };

    ghost view = { λ p. p.axes };

    ghost invariant = { λ p. IsWorkedOut
        p.axes p.sizes.items p.vars (map items_of p.steps.items) p.cube_cells };
}

// How many cells a cube over these variables has; none where they are too many.
fn cube_cells(shape: &Shape, vars: &VarSet) -> Option<u32>
    requires { (k : ℕ) → k < length vars.now → slice_index vars.now k < length shape.now }
    ensures { result ≡ up_to MOST_CELLS (product (map (slice_index shape.now) vars.now)) }
{
    let cells = cells_over(shape, vars, 0);
    if cells > MOST_CELLS {
        None
    } else {
        Some(cells as u32)
    }
}

impl Plan {
    /// The plan of a query that was read over this schema.
    pub fn of(alloc: Global, schema: &Schema, query: &Query) -> Result<Plan, Memory>
        requires { IsOver schema.now query.now }
        ensures plan { IfOk result (λ plan. plan ≡ plan_of schema.now query.now) }
        // Its places are as many as those of the query's table.
        ensures places { IfOk result
            (λ plan. place_count plan ≡ length (places_of schema.now query.now)) }
    {
        let axes = Axes::of(alloc, schema, query)?;
        let sizes = sizes(alloc, &axes)?;
        let vars = vars(alloc, &axes)?;
        let places = places_from(&sizes, 0);
        let steps = all_steps(alloc, &axes, &sizes, places)?;
        let cube_cells = cube_cells(axes.shape(), &vars);
        Ok(Plan {
            axes,
            sizes,
            vars,
            steps,
            cube_cells,
        })
    }

    /// Whether the table has totals.
    pub fn totals(&self) -> bool
        ensures { result ≡ self.now.totals }
    {
        self.axes.totals()
    }

    /// The variables under the dimensions and filters. They stand in place, since a schema has no
    /// more.
    pub fn vars(&self) -> &VarSet
        ensures vars { result.now ≡ vars_of self.now }
        ensures few { length result.now ≤ VARIABLES_IN_PLACE }
        ensures plan { IsPlan self.now }
    {
        let _ = &self.axes;
        &self.vars
    }

    /// How many places the table has.
    pub fn cells(&self) -> usize
        ensures cells { result ≡ place_count self.now }
        ensures few { result ≤ MOST_PLACES }
        ensures plan { IsPlan self.now }
    {
        let _ = &self.axes;
        places_from(&self.sizes, 0)
    }

    /// How many entries each dimension has, Total counted.
    pub fn sizes(&self) -> &[usize]
        ensures sizes { result.now ≡ sizes_of self.now }
        ensures some { AreSome result.now }
    {
        let _ = &self.axes;
        self.sizes.as_slice()
    }

    /// How many cells the cube over `vars` has; none exactly where they are more than `MOST_CELLS`
    /// of `tb_grid`.
    pub fn cube_cells(&self) -> Option<u32>
        ensures { result ≡ cube_cells_of self.now }
    {
        let _ = &self.axes;
        self.cube_cells
    }

    /// Whether a variable is under a dimension or a filter.
    pub fn uses(&self, v: u16) -> bool
        ensures { result ≡ uses self.now v }
    {
        self.axes.uses(v)
    }

    /// The steps of the categories of a variable that is used.
    #[inline]
    pub fn steps(&self, v: u16) -> &[u32]
        requires there { v < length self.now.shape }
        requires used { uses self.now v ≡ true }
        ensures { result.now ≡ steps_of self.now v }
    {
        let _ = &self.axes;
        self.steps[v as usize].as_slice()
    }

    /// Makes the cells of the places with Total from those of the other places, where there are
    /// totals: each becomes the sum of the cells that lie in its place.
    pub fn add_totals(&self, cells: &mut [Cell])
        requires totals { self.now.totals ≡ true }
        requires long { length cells.old ≡ place_count self.now }
        ensures { AreTotals (sizes_of self.now) cells.old cells.new }
    {
        let _ = &self.axes;
        add_totals(cells, &self.sizes);
    }

    /// Undoes `add_totals`, where there are totals.
    pub fn take_totals(&self, cells: &mut [Cell])
        requires totals { self.now.totals ≡ true }
        requires long { length cells.old ≡ place_count self.now }
        ensures { WereTotals (sizes_of self.now) cells.old cells.new }
    {
        let _ = &self.axes;
        take_totals(cells, &self.sizes);
    }
}
