// The reply to a line `at N QUERY`.

ghost use Rattle.std.specs.Prelude.{◌≡◌, ◌+◌, ◌≤◌, IfOk, length};
ghost use Rattle.tb_front.specs.Holders.{IsLater};
ghost use Rattle.tb_io.specs.declared.limits.TheConstants.{MOST_LINE_BYTES};
ghost use Rattle.tb_model.specs.Schemas.{shape_of};
ghost use Rattle.tb_query.specs.Over.{IsOver};
ghost use Rattle.tb_session.specs.Parties.{IsPassOf, SawTurn};
ghost use Rattle.tb_session.specs.PastLines.{past_query as query_in};
ghost use Rattle.tb_session.specs.PastTables.{past_reply};
ghost use Rattle.tb_session.specs.ReplyTexts.{reply_text};
ghost use Rattle.tb_tables.specs.Answers.{AnswersBy};

use crate::count_past::{count_past, look};
use crate::past_line::past_query;
use crate::reply::Reply;
use std::alloc::Global;
use std::sync::Wait;
use std::sync::ledger::Ledger;
use std::thread::Threads;
use tb_base::{Memory, Steps};
use tb_board::{Board, Named, Step};
use tb_build::Gate;
use tb_front::Pass;
use tb_query::Query;
use tb_tables::{TableReply, plan_for, read, shape_in};
use tb_text::Setup;

// A query's table over release n of the chain, or that the chain has no such release, or that it
// was taken back. What was seen last decides, not the release that was taken before it.
fn reply_at<'a, B: Named, R: Threads + Wait + Sync, G: Gate, L: Ledger>(
    rt: &R,
    alloc: Global,
    setup: &'a Setup,
    board: &Board<B>,
    pass: &mut Pass<Step>,
    number: u32,
    query: &Query,
    gate: &mut G,
    steps: &mut Steps<L>,
) -> Result<Reply<'a>, Memory>
    requires over { IsOver setup.now.schema query.now }
    requires own { IsPassOf B.name (shape_of setup.now.schema) pass.old }
    ensures later { IsLater pass.old pass.new }
    ensures seen { SawTurn pass.old pass.new }
    ensures price { steps.new ≤ steps.old
        + (past_reply setup.now pass.new.start.base pass.new.list number query.now).price }
    ensures text { IfOk result (λ reply. reply_text reply
        ≡ (past_reply setup.now pass.new.start.base pass.new.list number query.now).text) }
{
    let plan = plan_for(alloc, setup, query)?;
    let past = look(rt, board, &plan, pass)?;
    let last = past.last();
    if number > last {
        return Ok(Reply::NoSuchRelease(last));
    }
    let oldest = past.oldest(alloc)?;
    if number < oldest {
        return Ok(Reply::Withdrawn(oldest));
    }
    let shape = shape_in(setup);
    let counted = count_past(
        rt, alloc, board, shape, &plan, pass, &past, number, gate, steps,
    )?;
    let table = counted.prepare(alloc, setup, query)?;
    Ok(Reply::Query(TableReply::Table(table)))
}

/// The reply to a line `at N QUERY`: the query's table over the release of that number, that there
/// is no such release, that it was taken back, the query's first fault, or that the memory was
/// refused. A query without a fault is looked for as one at the current release is, also where its
/// release isn't shown. The pass has then seen a chain whose length is the number of the last
/// release that there is, and that one tells the oldest that is shown.
pub(crate) fn answer_past<'a, B: Named, R: Threads + Wait + Sync, G: Gate, L: Ledger>(
    rt: &R,
    alloc: Global,
    setup: &'a Setup,
    board: &Board<B>,
    pass: &mut Pass<Step>,
    number: u32,
    line: &[u8],
    gate: &mut G,
    steps: &mut Steps<L>,
) -> Reply<'a>
    requires few { length line.now ≤ MOST_LINE_BYTES }
    requires own { IsPassOf B.name (shape_of setup.now.schema) pass.old }
    ensures later { IsLater pass.old pass.new }
    ensures seen { SawTurn pass.old pass.new }
    ensures answer { AnswersBy setup.now
        (past_reply setup.now pass.new.start.base pass.new.list number) (query_in line.now)
        (reply_text result) steps.old steps.new }
{
    match read(alloc, setup, past_query(line)) {
        Ok(query) => {
            let reply = reply_at(rt, alloc, setup, board, pass, number, &query, gate, steps);
            Reply::or_memory(reply)
        }
        Err(fault) => Reply::Query(TableReply::of_fault(&fault)),
    }
}
