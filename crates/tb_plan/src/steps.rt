// The steps of a plan: what each category of a variable adds to the number of a place.

ghost use Rattle.std.specs.Prelude.{◌≡◌, ◌*◌, ◌<◌, ◌≤◌, IfOk, length, map, slice_index};
ghost use Rattle.tb_query.specs.declared.limits.TheConstants.{MOST_FILTERS, MOST_PLACES};
ghost use Rattle.tb_plan.specs.Plans.{place_count, sizes as sizes_of, vars_of};
ghost use Rattle.tb_plan.specs.Whole.{IsPlan};
ghost use Rattle.tb_plan.specs.Steps.{dimension_step as step_by_dimensions};
ghost use Rattle.tb_plan.specs.Steps.{filter_step as step_by_filters, steps_of};
ghost use Rattle.tb_plan.specs.Views.{items_of, AreSteps};

use crate::axes::Axes;
use std::alloc::Global;
use tb_base::{Memory, VarSet};
use tb_grid::places_from;

/// The sizes of the dimensions.
pub fn sizes(alloc: Global, axes: &Axes) -> Result<Vec<usize>, Memory>
    ensures sizes { IfOk result (λ sizes. sizes.items ≡ sizes_of axes.now) }
    ensures plan { IsPlan axes.now }
{
    let mut sizes = Vec::new(alloc);
    for d in 0..axes.dims() {
        sizes.push(axes.size(d))?;
    }
    Ok(sizes)
}

/// The variables under the dimensions and filters.
pub fn vars(alloc: Global, axes: &Axes) -> Result<VarSet, Memory>
    ensures { IfOk result (λ vars. vars ≡ vars_of axes.now) }
{
    let mut numbers = Vec::new(alloc);
    for v in 0..axes.variables() {
        if axes.uses(v) {
            numbers.push(v)?;
        }
    }
    VarSet::of(alloc, numbers.as_slice())
}

// What the dimensions add for a category of a variable.
fn dimension_step(axes: &Axes, sizes: &[usize], v: u16, c: u16) -> usize
    requires sizes { sizes.now ≡ sizes_of axes.now }
    requires category { c < slice_index axes.now.shape v }
    ensures step { result ≡ step_by_dimensions axes.now.totals axes.now.dimensions v c }
    ensures few { result ≤ MOST_PLACES }
{
    let mut step = 0;
    for d in 0..axes.dims() {
        if axes.variable(d) == v {
            step += axes.entry(d, c) as usize * places_from(sizes, d + 1);
        }
    }
    step
}

// What the filters add for a category of a variable.
fn filter_step(axes: &Axes, places: usize, v: u16, c: u16) -> usize
    requires places { places ≤ MOST_PLACES }
    requires category { c < slice_index axes.now.shape v }
    ensures step { result ≡ step_by_filters places axes.now.filters v c }
    ensures few { result ≤ MOST_FILTERS * MOST_PLACES }
{
    let mut step = 0;
    for f in 0..axes.filters() {
        if axes.filter_variable(f) == v && !axes.passes(f, c) {
            step += places;
        }
    }
    step
}

// The steps of one variable.
fn steps(
    alloc: Global,
    axes: &Axes,
    sizes: &[usize],
    places: usize,
    v: u16,
) -> Result<Vec<u32>, Memory>
    requires there { v < length axes.now.shape }
    requires sizes { sizes.now ≡ sizes_of axes.now }
    requires places { places ≡ place_count axes.now }
    requires few { places ≤ MOST_PLACES }
    ensures { IfOk result (λ steps. steps.items ≡ steps_of axes.now v) }
{
    let mut steps = Vec::new(alloc);
    for c in 0..axes.shape().at(v as usize) {
        let step = dimension_step(axes, sizes, v, c) + filter_step(axes, places, v, c);
        steps.push(step as u32)?;
    }
    Ok(steps)
}

/// The steps of each variable that is used, at its number; nothing at the others'.
pub fn all_steps(
    alloc: Global,
    axes: &Axes,
    sizes: &[usize],
    places: usize,
) -> Result<Vec<Vec<u32>>, Memory>
    requires sizes { sizes.now ≡ sizes_of axes.now }
    requires places { places ≡ place_count axes.now }
    requires few { places ≤ MOST_PLACES }
    ensures { IfOk result
        (λ all. AreSteps axes.now (length axes.now.shape) (map items_of all.items)) }
{
    let mut all = Vec::new(alloc);
    for v in 0..axes.variables() {
        if axes.uses(v) {
            all.push(steps(alloc, axes, sizes, places, v)?)?;
        } else {
            all.push(Vec::new(alloc))?;
        }
    }
    Ok(all)
}
