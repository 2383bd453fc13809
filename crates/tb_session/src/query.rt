// The reply to a query's line.

ghost use Rattle.std.specs.Prelude.{◌≤◌, length};
ghost use Rattle.tb_board.specs.Holders.{release_seen};
ghost use Rattle.tb_front.specs.Holders.{IsLater};
ghost use Rattle.tb_io.specs.declared.limits.TheConstants.{MOST_LINE_BYTES};
ghost use Rattle.tb_model.specs.Schemas.{shape_of};
ghost use Rattle.tb_session.specs.Parties.{IsPassOf, SawTurn};
ghost use Rattle.tb_session.specs.Replies.{AnswersLine, table_price};
ghost use Rattle.tb_tables.specs.Answers.{Answers};
ghost use Rattle.tb_tables.specs.ReplyTexts.{table_reply_text};

use crate::count::table_over_board;
use crate::homes::{answer_homes, homes_asked};
use std::alloc::Global;
use std::sync::Wait;
use std::sync::ledger::Ledger;
use std::thread::Threads;
use tb_base::Steps;
use tb_board::{Board, Named, Step};
use tb_build::Gate;
use tb_front::Pass;
use tb_tables::{TableReply, read};
use tb_text::Setup;

// The table of a query's line over the release that the pass takes, the line's first fault, or
// that the memory was refused.
fn answer_persons<'a, B: Named, R: Threads + Wait + Sync, G: Gate, L: Ledger>(
    rt: &R,
    alloc: Global,
    setup: &'a Setup,
    board: &Board<B>,
    pass: &mut Pass<Step>,
    line: &[u8],
    gate: &mut G,
    steps: &mut Steps<L>,
) -> TableReply<'a>
    requires few { length line.now ≤ MOST_LINE_BYTES }
    requires own { IsPassOf B.name (shape_of setup.now.schema) pass.old }
    ensures later { IsLater pass.old pass.new }
    ensures seen { SawTurn pass.old pass.new }
    ensures answer { Answers setup.now (release_seen pass.new)
        (table_price setup.now (release_seen pass.new)) line.now (table_reply_text result)
        steps.old steps.new }
{
    match read(alloc, setup, line) {
        Ok(query) => {
            let table = table_over_board(rt, alloc, setup, board, pass, &query, gate, steps);
            TableReply::of_table(table)
        }
        Err(fault) => TableReply::of_fault(&fault),
    }
}

/// The table for which a line asks over the release that the pass takes, of dwellings where the
/// line begins with that word and there are any; the line's first fault; or that the memory was
/// refused.
pub(crate) fn answer_query<'a, B: Named, R: Threads + Wait + Sync, G: Gate, L: Ledger>(
    rt: &R,
    alloc: Global,
    setup: &'a Setup,
    board: &Board<B>,
    pass: &mut Pass<Step>,
    line: &[u8],
    gate: &mut G,
    steps: &mut Steps<L>,
) -> TableReply<'a>
    requires few { length line.now ≤ MOST_LINE_BYTES }
    requires own { IsPassOf B.name (shape_of setup.now.schema) pass.old }
    ensures later { IsLater pass.old pass.new }
    ensures seen { SawTurn pass.old pass.new }
    ensures answer { AnswersLine setup.now (release_seen pass.new) line.now
        (table_reply_text result) steps.old steps.new }
{
    match homes_asked(setup, line) {
        Some(units) => answer_homes(rt, alloc, setup, units, board, pass, line, steps),
        None => answer_persons(rt, alloc, setup, board, pass, line, gate, steps),
    }
}
