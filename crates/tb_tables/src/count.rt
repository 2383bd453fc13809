// The cells of a plan's table over a release.

ghost use Rattle.std.specs.Prelude.{◌≡◌, ◌+◌, ◌≤◌, IfOk, OnOk, length};
ghost use Rattle.std.specs.Arc.{arc_value};
ghost use Rattle.tb_base.specs.Records.{AllFit};
ghost use Rattle.tb_cube.specs.Cubes.{cube_over, unpacked};
ghost use Rattle.tb_model.specs.Releases.{ReleaseValue};
ghost use Rattle.tb_model.specs.Texts.{table_text as text_of_table};
ghost use Rattle.tb_plan.specs.Plans.{plan_of, vars_of};
ghost use Rattle.tb_query.specs.Over.{IsOver};
ghost use Rattle.tb_tables.specs.Counting.{IsCounted, IsPlansCube};

use std::alloc::Global;
use std::sync::Arc;
use std::sync::ledger::Ledger;
use std::thread::Threads;
use tb_base::{Cell, Memory, Rules, Shape, Steps};
use tb_build::{Gate, build};
use tb_cube::Cube;
use tb_plan::Plan;
use tb_query::Query;
use tb_release::Release;
use tb_rollup::roll_into;
use tb_scan::{empty_cells, put_all, put_totals};
use tb_text::{PreparedTable, Setup};

/// The cells of a table, counted over a release, with the number of the release and the rules by
/// which it is shown. It shares the rules, so it may outlive the release.
#[derive(Drop)]
pub struct Counted {
    number: u32,
    rules: Arc<Rules>,
    cells: Vec<Cell>,
}

impl Counted {
    /// The table of a query, ready to be written, from the cells that were counted for its plan. It
    /// takes all the memory that the writing needs.
    pub fn prepare<'a>(
        self,
        alloc: Global,
        setup: &'a Setup,
        query: &Query,
    ) -> Result<PreparedTable<'a>, Memory>
        requires over { IsOver setup.now.schema query.now }
        requires counted { (release : ReleaseValue)
            × IsCounted (plan_of setup.now.schema query.now) release self }
        // Over whatever release they were counted.
        ensures text { (release : ReleaseValue)
            → IsCounted (plan_of setup.now.schema query.now) release self
            → IfOk result (λ text. text ≡ text_of_table setup.now release query.now) }
    {
        PreparedTable::of(alloc, setup, self.rules, query, self.number, self.cells)
    }
}

/// The cells of a plan's table over the release of this number and with these rules, rolled up from
/// its cube over the plan's variables. It takes memory for the cells.
pub fn roll_up_at(
    alloc: Global,
    cube: &Cube,
    plan: &Plan,
    number: u32,
    rules: Arc<Rules>,
) -> Result<Counted, Memory>
    requires { (release : ReleaseValue)
        × IsPlansCube plan.now release cube.now number (arc_value rules) }
    // Whichever release it is.
    ensures { IfOk result (λ counted. (release : ReleaseValue)
        → IsPlansCube plan.now release cube.now number (arc_value rules)
        → IsCounted plan.now release counted) }
{
    let mut cells = empty_cells(alloc, plan)?;
    roll_into(cube, plan, &mut cells);
    Ok(Counted {
        number,
        rules,
        cells,
    })
}

/// The same where the release is at hand.
pub fn roll_up(
    alloc: Global,
    cube: &Cube,
    plan: &Plan,
    release: &Release,
) -> Result<Counted, Memory>
    requires cube { unpacked cube.now
        ≡ cube_over plan.now.shape (vars_of plan.now) release.now.records }
    requires fit { AllFit plan.now.shape release.now.records }
    ensures counted { IfOk result (IsCounted plan.now release.now) }
{
    release.soundness();
    let rules = release.shared_rules()?;
    let number = release.number();
    roll_up_at(alloc, cube, plan, number, rules)
}

/// The same cells, counted from the records one by one, which are lent once. It takes memory for
/// the cells.
pub fn count_records<L: Ledger>(
    alloc: Global,
    plan: &Plan,
    release: &Release,
    steps: &mut Steps<L>,
) -> Result<Counted, Memory>
    requires fit { AllFit plan.now.shape release.now.records }
    ensures price { steps.new ≤ steps.old + length release.now.records }
    ensures cost { OnOk result (steps.new ≡ steps.old + length release.now.records) }
    ensures counted { IfOk result (IsCounted plan.now release.now) }
{
    release.soundness();
    let rules = release.shared_rules()?;
    let mut cells = empty_cells(alloc, plan)?;
    let lent = release.lend(steps);
    for i in 0..lent.pieces() {
        put_all(plan, lent.piece(i), &mut cells);
    }
    put_totals(plan, &mut cells);
    Ok(Counted {
        number: release.number(),
        rules,
        cells,
    })
}

/// The cells of a plan's table over a release, with no cube kept from before: rolled up from one
/// that is built, past a gate, or counted from the records where a cube would have too many cells.
/// The records are lent once. It takes memory for the cube and the cells.
pub fn count_anew<R: Threads + Sync, G: Gate, L: Ledger>(
    rt: &R,
    alloc: Global,
    shape: &Shape,
    plan: &Plan,
    release: &Release,
    gate: &mut G,
    steps: &mut Steps<L>,
) -> Result<Counted, Memory>
    requires shape { shape.now ≡ plan.now.shape }
    requires fit { AllFit plan.now.shape release.now.records }
    ensures price { steps.new ≤ steps.old + length release.now.records }
    ensures cost { OnOk result (steps.new ≡ steps.old + length release.now.records) }
    ensures counted { IfOk result (IsCounted plan.now release.now) }
{
    if plan.cube_cells().is_some() {
        let cube = build(rt, alloc, shape, release, plan.vars(), gate, steps)?;
        roll_up(alloc, &cube, plan, release)
    } else {
        count_records(alloc, plan, release, steps)
    }
}
