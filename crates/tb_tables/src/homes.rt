// A table of dwellings over a release that is given.

ghost use Rattle.std.specs.Prelude.{◌≡◌, ◌+◌, ◌≤◌, IfOk, length};
ghost use Rattle.tb_base.specs.Records.{AllFit};
ghost use Rattle.tb_model.specs.Schemas.{shape_of};
ghost use Rattle.tb_query.specs.Over.{IsOver};
ghost use Rattle.tb_tables.specs.Homes.{homes_text};

use crate::query::plan_for;
use std::alloc::Global;
use std::sync::ledger::Ledger;
use tb_base::{Memory, Steps};
use tb_query::Query;
use tb_release::Release;
use tb_scan::empty_cells;
use tb_text::{PreparedTable, Setup};
use tb_unit_cells::units_into;
use tb_units::Units;

/// A query's table of dwellings over a release. The records are lent once. It takes memory for the
/// plan, for what counts each dwelling once at a place, for the cells, and for all that the writing
/// needs.
pub fn homes_table<'a, L: Ledger>(
    alloc: Global,
    setup: &'a Setup,
    units: &Units,
    release: &Release,
    query: &Query,
    steps: &mut Steps<L>,
) -> Result<PreparedTable<'a>, Memory>
    requires over { IsOver setup.now.schema query.now }
    requires fit { AllFit (shape_of setup.now.schema) release.now.records }
    ensures price { steps.new ≤ steps.old + length release.now.records }
    ensures text { IfOk result (λ text. text
        ≡ homes_text setup.now units.now release.now query.now) }
{
    let plan = plan_for(alloc, setup, query)?;
    let rules = release.shared_rules()?;
    let mut cells = empty_cells(alloc, &plan)?;
    units_into(alloc, units, &plan, release, &mut cells, steps)?;
    units.soundness();
    PreparedTable::of(alloc, setup, rules, query, release.number(), cells)
}
