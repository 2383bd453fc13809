// The cells of a table that counts dwellings.

ghost use Rattle.std.specs.Prelude.{◌≡◌, ◌+◌, ◌%◌, ◌<◌, ℕ, IfOk, OnErr, OnOk, flat_map, length};
ghost use Rattle.std.specs.Prelude.{replicate, slice_index};
ghost use Rattle.tb_base.specs.Cells.{empty_cell};
ghost use Rattle.tb_base.specs.Parts.{modulus, part_at, Part};
ghost use Rattle.tb_base.specs.Persons.{AreDistinct};
ghost use Rattle.tb_base.specs.Records.{AllFit};
ghost use Rattle.tb_model.specs.Queries.{QueryValue};
ghost use Rattle.tb_model.specs.Schemas.{SchemaValue};
ghost use Rattle.tb_model.specs.Units.{homes_cells};
ghost use Rattle.tb_plan.specs.Plans.{place_count, plan_of};
ghost use Rattle.tb_marks.specs.Raised.{AreRaised};
ghost use Rattle.tb_unit_cells.specs.Marking.{added};
ghost use Rattle.tb_unit_cells.specs.Totals.{total_sizes};

use crate::marking::mark_dwellings;
use crate::noting::note_numbers;
use std::alloc::Global;
use std::sync::ledger::Ledger;
use tb_base::{Cell, Memory, Steps, reduce_keys};
use tb_marks::raised_numbers;
use tb_plan::Plan;
use tb_release::{Lent, Release};
use tb_units::Units;

// A number past all places.
const NOWHERE: u32 = u32::MAX;

// So many times a number.
fn repeated(alloc: Global, number: u32, n: usize) -> Result<Vec<u32>, Memory>
    ensures { IfOk result (λ numbers. numbers.items ≡ replicate n number) }
{
    Ok(vec![in alloc; number; n]?)
}

// The sizes of a plan's dimensions where there are totals, and none where there are none.
fn sizes_with_total(plan: &Plan) -> &[usize]
    ensures { result.now ≡ total_sizes plan.now }
{
    if plan.totals() { plan.sizes() } else { &[] }
}

// For each of these dimensions the number of each place with Total in place of its entry.
fn raised(alloc: Global, plan: &Plan) -> Result<Vec<u32>, Memory>
    ensures { IfOk result
        (λ ups. AreRaised (total_sizes plan.now) (place_count plan.now) ups.items) }
{
    let _ = plan.cells();
    if plan.totals() {
        raised_numbers(alloc, plan.sizes())
    } else {
        Ok(Vec::new(alloc))
    }
}

// Counts the dwellings whose links have these numbers, where nothing was marked yet. A place with
// Total isn't summed: it was marked like any other.
fn count_numbered(
    units: &Units,
    plan: &Plan,
    ups: &[u32],
    numbers: &[u32],
    seen: &mut [u32],
    cells: &mut [Cell],
)
    requires numbers { length numbers.now ≡ length units.now.links }
    requires ups { AreRaised (total_sizes plan.now) (length cells.old) ups.now }
    requires long { length seen.old ≡ length cells.old }
    requires none { (i : ℕ) → i < length seen.old → slice_index seen.old i ≡ 0 }
    ensures { (p : Part) (i : ℕ) → i < length cells.old
        → part_at p cells.new i ≡ (part_at p cells.old i + added (total_sizes plan.now)
        (length cells.old) units.now.links numbers.now p units.now.dwellings i) % modulus p }
{
    let sizes = sizes_with_total(plan);
    mark_dwellings(units, sizes, ups, numbers, seen, cells);
    reduce_keys(cells);
}

// Counts the dwellings of the records that are lent at the places of a table, where nothing was
// noted and nothing counted yet.
fn count_lent(
    units: &Units,
    plan: &Plan,
    lent: &Lent<'_>,
    ups: &[u32],
    seen: &mut [u32],
    numbers: &mut [u32],
    cells: &mut [Cell],
)
    requires fit { AllFit plan.now.shape (flat_map (λ piece. piece) lent.now) }
    requires distinct { AreDistinct (flat_map (λ piece. piece) lent.now) }
    requires ups { AreRaised (total_sizes plan.now) (place_count plan.now) ups.now }
    requires seen { seen.old ≡ replicate (place_count plan.now) 0 }
    requires numbers { numbers.old ≡ replicate (length units.now.links) NOWHERE }
    requires empty { cells.old ≡ replicate (place_count plan.now) empty_cell }
    ensures { (schema : SchemaValue) (query : QueryValue) → plan.now ≡ plan_of schema query
        → cells.new ≡ homes_cells units.now schema query (flat_map (λ piece. piece) lent.now) }
{
    units.soundness();
    let _ = plan.cells();
    let _ = plan.sizes();
    note_numbers(units, plan, lent, numbers);
    count_numbered(units, plan, ups, numbers, seen, cells);
}

/// Counts the dwellings of a release's records at the places of a table: at each place those of
/// which at least one person is among the place's own records, each once. `cells` are those of no
/// record. The counter rises by how many records there are. It takes memory for a number for each
/// link, one for each place, and one for each place and dimension; where that is refused, the cells
/// are as before.
pub fn units_into<L: Ledger>(
    alloc: Global,
    units: &Units,
    plan: &Plan,
    release: &Release,
    cells: &mut [Cell],
    steps: &mut Steps<L>,
) -> Result<(), Memory>
    requires fit { AllFit plan.now.shape release.now.records }
    requires empty { cells.old ≡ replicate (place_count plan.now) empty_cell }
    ensures charge { steps.new ≡ steps.old + length release.now.records }
    // Over any schema and query of which this is the plan.
    ensures counted { (schema : SchemaValue) (query : QueryValue) → plan.now ≡ plan_of schema query
        → OnOk result (cells.new ≡ homes_cells units.now schema query release.now.records) }
    ensures memory { OnErr result (cells.new ≡ cells.old) }
{
    release.soundness();
    let lent = release.lend(steps);
    let ups = raised(alloc, plan)?;
    let mut seen = repeated(alloc, 0, plan.cells())?;
    let mut numbers = repeated(alloc, NOWHERE, units.links())?;
    count_lent(units, plan, &lent, &ups, &mut seen, &mut numbers, cells);
    Ok(())
}
