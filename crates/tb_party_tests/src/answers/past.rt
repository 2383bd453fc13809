// A table at each release: when it is the current one, and again when all are published.

ghost use Rattle.std.specs.Prelude.{◌≡◌};
ghost use Rattle.tb_model.specs.Schemas.{shape_of};
ghost use Rattle.tb_session.specs.Parties.{IsPartyOf};

use super::asking::{ask, ask_all};
use super::making::analyst;
use std::alloc::Global;
use std::marker::Brand;
use std::sync::Wait;
use std::test::Fail;
use std::thread::Threads;
use tb_base::{Memory, print_number};
use tb_board::{Board, Named, Opening};
use tb_build::Open;
use tb_comparison::is_text;
use tb_io::MemSink;
use tb_session::{Party, Setting};
use tb_small_boards::{opening, owner};
use tb_small_values::setup;
use tb_text::Setup;

// How many releases are published.
const RELEASES: u32 = 50;

const QUERY: &[u8] = b"table SEX by AGE with totals";

// The edits that lead to a release: a person comes, again with the same key, is amended and goes;
// and the rules change, and change back.
fn edits_to(number: u32) -> &'static str {
    match number % 5 {
        1 => "add 200 30 SEX=1 AGE=0-15 AREA=E1\npublish",
        2 => "amend 200 SEX=2 AGE=65+\npublish",
        3 => "drop 200\nthreshold 2\npublish",
        4 => "pvalue 1 7 3\npublish",
        _ => "threshold 0\npvalue 1 7 1\npublish",
    }
}

// Publishes one release after another, and asks for a table of each when it is the current one.
fn ask_present<B: Named, R: Threads + Wait + Sync>(
    setting: &Setting<'_, B, R>,
    own: &mut Party,
    party: &mut Party,
    replies: &mut MemSink,
    tables: &mut MemSink,
) -> bool
    requires own { IsPartyOf B.name (shape_of setting.now.setup.now.schema) own.old }
    requires party { IsPartyOf B.name (shape_of setting.now.setup.now.schema) party.old }
    ensures own { IsPartyOf B.name (shape_of setting.now.setup.now.schema) own.new }
    ensures party { IsPartyOf B.name (shape_of setting.now.setup.now.schema) party.new }
{
    if !ask(setting, party, QUERY, tables, &mut Open) {
        return false;
    }
    for number in 1..RELEASES + 1 {
        let edits = edits_to(number);
        let published = ask_all(setting, own, edits, replies, &mut Open);
        let asked = ask(setting, party, QUERY, tables, &mut Open);
        if !published || !asked {
            return false;
        }
    }
    true
}

// The line that asks for the table of a release.
fn line_at(alloc: Global, number: u32) -> Result<Vec<u8>, Memory> {
    let mut digits = [0; 10];
    let len = print_number(number, &mut digits);
    let mut line = Vec::from_slice(alloc, b"at ")?;
    line.extend_from_slice(&digits[..len])?;
    line.extend_from_slice(b" ")?;
    line.extend_from_slice(QUERY)?;
    Ok(line)
}

// Asks for the table of a release that may be an earlier one.
fn ask_at<B: Named, R: Threads + Wait + Sync>(
    setting: &Setting<'_, B, R>,
    party: &mut Party,
    number: u32,
    tables: &mut MemSink,
) -> bool
    requires own { IsPartyOf B.name (shape_of setting.now.setup.now.schema) party.old }
    ensures own { IsPartyOf B.name (shape_of setting.now.setup.now.schema) party.new }
{
    match line_at(setting.alloc, number) {
        Ok(line) => ask(setting, party, &line, tables, &mut Open),
        Err(_) => false,
    }
}

// Asks for the table of each release, the first one first.
fn ask_past<B: Named, R: Threads + Wait + Sync>(
    setting: &Setting<'_, B, R>,
    party: &mut Party,
    tables: &mut MemSink,
) -> bool
    requires own { IsPartyOf B.name (shape_of setting.now.setup.now.schema) party.old }
    ensures own { IsPartyOf B.name (shape_of setting.now.setup.now.schema) party.new }
{
    for number in 0..RELEASES + 1 {
        if !ask_at(setting, party, number, tables) {
            return false;
        }
    }
    true
}

// Whether the tables are the same.
fn are_equal<B: Named, R: Threads + Wait + Sync + Eprint>(
    setting: &Setting<'_, B, R>,
    own: &mut Party,
    party: &mut Party,
) -> Option<bool>
    requires own { IsPartyOf B.name (shape_of setting.now.setup.now.schema) own.old }
    requires party { IsPartyOf B.name (shape_of setting.now.setup.now.schema) party.old }
{
    let mut replies = MemSink::new(setting.alloc, 3000).ok()?;
    let mut present = MemSink::new(setting.alloc, 12_000).ok()?;
    let mut past = MemSink::new(setting.alloc, 12_000).ok()?;
    let first = ask_present(setting, own, party, &mut replies, &mut present);
    let then = ask_past(setting, own, &mut past);
    Some(is_text(setting.rt, past.taken(), present.taken()) && first && then)
}

// The same over a new board.
fn are_equal_over<B: Named, R: Threads + Wait + Sync + Eprint>(
    rt: &R,
    alloc: Global,
    setup: &Setup,
    opening: Opening,
) -> bool
    requires name { opening.name ≡ B.name }
    requires shape { opening.start.shape ≡ shape_of setup.now.schema }
{
    let (board, mut custodian) = Board::<B>::new(opening);
    let mut party = analyst(rt, setup, &board, &mut custodian);
    let mut own = owner::<B>(alloc, setup, custodian);
    let setting = Setting {
        setup,
        board: &board,
        rt,
        alloc,
    };
    are_equal(&setting, &mut own, &mut party) == Some(true)
}

fn past_over<R: Threads + Wait + Sync + Eprint>(
    rt: &R,
    alloc: Global,
    setup: &Setup,
) -> Result<bool, Memory> {
    let opening = opening(alloc, setup)?;
    Ok(are_equal_over::<Brand, R>(rt, alloc, setup, opening))
}

fn past_over_small<R: Threads + Wait + Sync + Eprint>(
    rt: &R,
    alloc: Global,
) -> Result<bool, Memory> {
    let setup = setup(alloc)?;
    past_over(rt, alloc, &setup)
}

#[test]
fn past_equals_present(rt: HostRuntime) -> Result<(), Fail> {
    assert!(rt; past_over_small(&rt, rt.alloc())?);
    Ok(())
}
