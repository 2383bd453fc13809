// The reply to a query's line over a release that is given.

ghost use Rattle.std.specs.Prelude.{◌≡◌, ◌+◌, ◌≤◌, IfOk, OnOk, length};
ghost use Rattle.tb_base.specs.Records.{AllFit};
ghost use Rattle.tb_io.specs.declared.limits.TheConstants.{MOST_LINE_BYTES};
ghost use Rattle.tb_model.specs.Schemas.{shape_of};
ghost use Rattle.tb_model.specs.Texts.{table_text as text_of_table};
ghost use Rattle.tb_query.specs.Over.{IsOver};
ghost use Rattle.tb_tables.specs.Answers.{Answers};
ghost use Rattle.tb_tables.specs.ReplyTexts.{table_reply_text};

use crate::count::count_anew;
use crate::query::{plan_for, read, shape_in};
use crate::reply::TableReply;
use std::alloc::Global;
use std::sync::ledger::Ledger;
use std::thread::Threads;
use tb_base::{Memory, Steps};
use tb_build::Gate;
use tb_query::Query;
use tb_release::Release;
use tb_text::{PreparedTable, Setup};

/// A query's table over a release, with no cube kept from before. The records are lent once. It
/// takes memory for the plan, a cube, the cells, and all that the writing needs.
pub fn table_anew<'a, R: Threads + Sync, G: Gate, L: Ledger>(
    rt: &R,
    alloc: Global,
    setup: &'a Setup,
    release: &Release,
    query: &Query,
    gate: &mut G,
    steps: &mut Steps<L>,
) -> Result<PreparedTable<'a>, Memory>
    requires over { IsOver setup.now.schema query.now }
    requires fit { AllFit (shape_of setup.now.schema) release.now.records }
    ensures price { steps.new ≤ steps.old + length release.now.records }
    ensures cost { OnOk result (steps.new ≡ steps.old + length release.now.records) }
    ensures text { IfOk result (λ text. text ≡ text_of_table setup.now release.now query.now) }
{
    let plan = plan_for(alloc, setup, query)?;
    let shape = shape_in(setup);
    let counted = count_anew(rt, alloc, shape, &plan, release, gate, steps)?;
    counted.prepare(alloc, setup, query)
}

/// The reply to a query's line over a release: its table, the line's first fault, or that memory
/// was refused. The records are lent at most once. It takes memory for the query and for its table.
pub fn answer_at<'a, R: Threads + Sync, G: Gate, L: Ledger>(
    rt: &R,
    alloc: Global,
    setup: &'a Setup,
    release: &Release,
    line: &[u8],
    gate: &mut G,
    steps: &mut Steps<L>,
) -> TableReply<'a>
    requires few { length line.now ≤ MOST_LINE_BYTES }
    requires fit { AllFit (shape_of setup.now.schema) release.now.records }
    ensures { Answers setup.now release.now (λ query. length release.now.records) line.now
        (table_reply_text result) steps.old steps.new }
{
    match read(alloc, setup, line) {
        Ok(query) => {
            let table = table_anew(rt, alloc, setup, release, &query, gate, steps);
            TableReply::of_table(table)
        }
        Err(fault) => TableReply::of_fault(&fault),
    }
}
