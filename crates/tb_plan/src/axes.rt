// The dimensions and filters of a query, worked out.

ghost use Rattle.std.specs.Prelude.{◌≡◌, ◌<◌, ◌≤◌, IfOk, false, length, slice_index};
ghost use Rattle.std.specs.Prelude.{slice_index_or};
ghost use Rattle.tb_query.specs.Over.{IsOver};
ghost use Rattle.tb_query.specs.declared.limits.TheConstants.{MOST_FILTERS};
ghost use Rattle.tb_plan.specs.Plans.{condition_at, dimension_at, entry_count, plan_of};
ghost use Rattle.tb_plan.specs.Plans.{uses as is_used};
ghost use Rattle.tb_plan.specs.Whole.{IsPlan};

use crate::condition::{Condition, condition_for, has_condition};
use crate::dimension::{Dimension, dimension_for, has_dimension};
use std::alloc::Global;
use std::marker::Model;
use tb_base::{Memory, Shape};
use tb_query::Query;
use tb_schema::Schema;

/// What a plan is seen as.
#[derive(Drop)]
pub struct Axes {
    shape: Shape,
    dimensions: Vec<Dimension>,
    filters: Vec<Condition>,
    totals: bool,
}

impl Model for Axes {
    ghost use Rattle.tb_plan.specs.Plans.{PlanValue};
    ghost use Rattle.tb_plan.specs.Whole.{IsPlan};
    ghost use Rattle.tb_plan.specs.Views.{plan_view};

    ghost Value = { PlanValue };

    ghost view = { λ p. plan_view p.shape p.dimensions.items p.filters.items p.totals };

    ghost invariant = { λ p. IsPlan
        (plan_view p.shape p.dimensions.items p.filters.items p.totals) };
}

impl Axes {
    /// The axes of a query that was read over this schema.
    pub fn of(alloc: Global, schema: &Schema, query: &Query) -> Result<Axes, Memory>
        requires { IsOver schema.now query.now }
        ensures { IfOk result (λ axes. axes ≡ plan_of schema.now query.now) }
    {
        schema.soundness();
        let mut dimensions = Vec::new(alloc);
        for d in 0..query.dims() {
            dimensions.push(dimension_for(alloc, schema, query.dim(d))?)?;
        }
        let mut filters = Vec::new(alloc);
        for f in 0..query.filters() {
            filters.push(condition_for(alloc, schema, query.filter(f))?)?;
        }
        Ok(Axes {
            shape: schema.shape().copy()?,
            dimensions,
            filters,
            totals: query.totals(),
        })
    }

    /// How many categories each variable has.
    pub fn shape(&self) -> &Shape
        ensures { result.now ≡ self.now.shape }
    {
        &self.shape
    }

    /// How many variables there are.
    pub fn variables(&self) -> u16
        ensures count { result ≡ length self.now.shape }
        ensures plan { IsPlan self.now }
    {
        let _ = &self.dimensions;
        self.shape.len() as u16
    }

    /// Whether there are totals.
    pub fn totals(&self) -> bool
        ensures { result ≡ self.now.totals }
    {
        self.totals
    }

    /// How many dimensions there are.
    pub fn dims(&self) -> usize
        ensures count { result ≡ length self.now.dimensions }
        ensures plan { IsPlan self.now }
    {
        self.dimensions.len()
    }

    /// The variable under dimension `d`.
    pub fn variable(&self, d: usize) -> u16
        requires { d < length self.now.dimensions }
        ensures { result ≡ (dimension_at self.now d).variable }
    {
        self.dimensions[d].variable
    }

    /// How many entries dimension `d` has, Total counted.
    pub fn size(&self, d: usize) -> usize
        requires { d < length self.now.dimensions }
        ensures size { result ≡ entry_count self.now.totals (dimension_at self.now d) }
        ensures some { 0 < result }
    {
        let categories = self.dimensions[d].categories as usize;
        if self.totals {
            categories + 1
        } else {
            categories
        }
    }

    /// The category of dimension `d` for a category of its variable.
    pub fn entry(&self, d: usize, value: u16) -> u16
        requires dimension { d < length self.now.dimensions }
        requires category { value < slice_index self.now.shape (dimension_at self.now d).variable }
        ensures entry { result ≡ slice_index (dimension_at self.now d).entries value }
        ensures within { result < (dimension_at self.now d).categories }
    {
        self.dimensions[d].entries[value as usize]
    }

    /// How many filters there are.
    pub fn filters(&self) -> usize
        ensures count { result ≡ length self.now.filters }
        ensures few { result ≤ MOST_FILTERS }
    {
        self.filters.len()
    }

    /// The variable under filter `f`.
    pub fn filter_variable(&self, f: usize) -> u16
        requires { f < length self.now.filters }
        ensures { result ≡ (condition_at self.now f).variable }
    {
        self.filters[f].variable
    }

    /// Whether a category of its variable passes filter `f`.
    pub fn passes(&self, f: usize, value: u16) -> bool
        requires filter { f < length self.now.filters }
        requires category { value < slice_index self.now.shape (condition_at self.now f).variable }
        ensures { result ≡ slice_index_or (condition_at self.now f).passed value false }
    {
        self.filters[f].passed[value as usize]
    }

    /// Whether a variable is under a dimension or a filter.
    pub fn uses(&self, v: u16) -> bool
        ensures { result ≡ is_used self.now v }
    {
        has_dimension(&self.dimensions, v) || has_condition(&self.filters, v)
    }
}
