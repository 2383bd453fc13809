// The reply to a line that asks for a table of dwellings.
//
// The line is read with `table` in the place of its first word. The release is taken without a look
// for a cube, its records are counted anew, and nothing of it is kept.

ghost use Rattle.std.specs.Prelude.{◌≡◌, ◌+◌, ◌≤◌, IfOk, IfSome, bytes_eq, codes, length, true};
ghost use Rattle.std.specs.Option.{option_copied};
ghost use Rattle.tb_board.specs.Holders.{release_seen};
ghost use Rattle.tb_front.specs.Holders.{IsLater};
ghost use Rattle.tb_io.specs.declared.limits.TheConstants.{MOST_LINE_BYTES};
ghost use Rattle.tb_model.specs.Schemas.{shape_of};
ghost use Rattle.tb_query.specs.Over.{IsOver};
ghost use Rattle.tb_session.specs.Dwellings.{as_table as line_as_table, first_of};
ghost use Rattle.tb_session.specs.Dwellings.{homes_asked as dwellings_asked};
ghost use Rattle.tb_session.specs.Parties.{IsPassOf, SawTurn};
ghost use Rattle.tb_tables.specs.Answers.{AnswersBy};
ghost use Rattle.tb_tables.specs.Homes.{homes_reply, homes_text};
ghost use Rattle.tb_tables.specs.ReplyTexts.{table_reply_text};

use crate::past_line::after_word;
use std::alloc::Global;
use std::sync::Wait;
use std::sync::ledger::Ledger;
use tb_base::{Memory, Steps, blank_at, skip_blanks};
use tb_board::{Board, Named, Step};
use tb_front::Pass;
use tb_query::Query;
use tb_tables::{TableReply, homes_table, read};
use tb_text::{PreparedTable, Setup};
use tb_units::Units;

// Whether the first word of a line is `dwellings`.
fn begins_with_dwellings(line: &[u8]) -> bool
    ensures { result ≡ bytes_eq (first_of line.now) (codes "dwellings") }
{
    let rest = skip_blanks(line);
    let (word, _after) = rest.split_at(blank_at(rest));
    word == b"dwellings".as_slice()
}

/// The dwellings of which a line asks for a table, where it does.
pub(crate) fn homes_asked<'a>(setup: &'a Setup, line: &[u8]) -> Option<&'a Units>
    ensures asked { option_copied result ≡ dwellings_asked setup.now line.now }
    ensures begins { IfSome result
        (λ _. bytes_eq (first_of line.now) (codes "dwellings") ≡ true) }
{
    if begins_with_dwellings(line) {
        setup.units.as_ref()
    } else {
        None
    }
}

// A line with `table` in place of its first word, which is `dwellings`. It takes memory for it.
fn as_table(alloc: Global, line: &[u8]) -> Result<Vec<u8>, Memory>
    requires { bytes_eq (first_of line.now) (codes "dwellings") ≡ true }
    ensures text { IfOk result (λ text. text.items ≡ line_as_table line.now) }
    ensures shorter { IfOk result (λ text. length text.items ≤ length line.now) }
{
    let rest = skip_blanks(line);
    let (before, _rest) = line.split_at(line.len() - rest.len());
    let mut text = Vec::from_slice(alloc, before)?;
    text.extend_from_slice(b"table")?;
    text.extend_from_slice(after_word(line))?;
    Ok(text)
}

// A query's table of dwellings over the release that the pass takes.
fn homes_over_board<'a, B: Named, R: Wait, L: Ledger>(
    rt: &R,
    alloc: Global,
    setup: &'a Setup,
    units: &Units,
    board: &Board<B>,
    pass: &mut Pass<Step>,
    query: &Query,
    steps: &mut Steps<L>,
) -> Result<PreparedTable<'a>, Memory>
    requires over { IsOver setup.now.schema query.now }
    requires own { IsPassOf B.name (shape_of setup.now.schema) pass.old }
    ensures later { IsLater pass.old pass.new }
    ensures seen { SawTurn pass.old pass.new }
    ensures price { steps.new ≤ steps.old + length (release_seen pass.new).records }
    ensures text { IfOk result (λ text. text
        ≡ homes_text setup.now units.now (release_seen pass.new) query.now) }
{
    let taken = board.take(rt, pass, None)?;
    homes_table(alloc, setup, units, &taken.release, query, steps)
}

/// The table of dwellings for which a line asks over the release that the pass takes, the line's
/// first fault, or that the memory was refused.
pub(crate) fn answer_homes<'a, B: Named, R: Wait, L: Ledger>(
    rt: &R,
    alloc: Global,
    setup: &'a Setup,
    units: &Units,
    board: &Board<B>,
    pass: &mut Pass<Step>,
    line: &[u8],
    steps: &mut Steps<L>,
) -> TableReply<'a>
    requires few { length line.now ≤ MOST_LINE_BYTES }
    requires dwellings { bytes_eq (first_of line.now) (codes "dwellings") ≡ true }
    requires own { IsPassOf B.name (shape_of setup.now.schema) pass.old }
    ensures later { IsLater pass.old pass.new }
    ensures seen { SawTurn pass.old pass.new }
    ensures answer { AnswersBy setup.now
        (homes_reply setup.now units.now (release_seen pass.new)) (line_as_table line.now)
        (table_reply_text result) steps.old steps.new }
{
    let text = match as_table(alloc, line) {
        Ok(text) => text,
        Err(_) => return TableReply::Memory,
    };
    match read(alloc, setup, &text) {
        Ok(query) => {
            let table = homes_over_board(rt, alloc, setup, units, board, pass, &query, steps);
            TableReply::of_table(table)
        }
        Err(fault) => TableReply::of_fault(&fault),
    }
}
