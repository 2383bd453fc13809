// Lines that ask for tables of dwellings, with blanks in front and of up to 4,096 bytes, from an
// analyst and from the custodian.

ghost use Rattle.std.specs.Prelude.{◌≡◌};
ghost use Rattle.tb_model.specs.Schemas.{shape_of};
ghost use Rattle.tb_session.specs.Parties.{IsPartyOf};

use super::asking::ask;
use super::making::analyst;
use std::alloc::Global;
use std::marker::Brand;
use std::sync::Wait;
use std::test::Fail;
use std::thread::Threads;
use tb_base::Memory;
use tb_board::{Board, Named, Opening};
use tb_build::Open;
use tb_comparison::is_text;
use tb_io::MemSink;
use tb_session::{Party, Setting};
use tb_small_boards::{opening, owner};
use tb_small_values::setup_with_units;
use tb_text::Setup;

// A line: its beginning, how many blanks follow, and its end; and the reply.
type Row = (&'static [u8], usize, &'static [u8], &'static [u8]);

// Dwelling 1 has two persons of SEX 1, dwelling 2 one of each.
const HOMES: &[u8] = b"release 0\nSEX,count\n1,2\n2,1\n.\n";

// A byte that is no text is counted with `table` in place of the first word: four less.
static ROWS: [Row; 12] = [
    (b"dwellings SEX", 0, b"", HOMES),
    (b"", 3, b"dwellings SEX", HOMES),
    (b"\t", 1, b"dwellings\tSEX\t", HOMES),
    (b"", 4083, b"dwellings SEX", HOMES),
    (b"dwellings", 4084, b"SEX", HOMES),
    (b"", 1, b"dwellings", b"refused 2 Syntax 2\n"),
    (b"", 3, b"dwellings \xC3", b"refused 1 NotText 10\n"),
    (b"dwellings SEX", 4082, b"\xC3", b"refused 1 NotText 4092\n"),
    (b"", 3, b"dwellings;", b"refused 2 Syntax 1\n"),
    (b"", 3, b"dwellings\xC3", b"refused 1 NotText 13\n"),
    (b"at 0", 2, b"dwellings SEX", b"refused 2 Syntax 1\n"),
    (b"", 2, b"table SEX", b"release 0\nSEX,count\n1,1\n2,2\n.\n"),
];

fn rows() -> &'static [Row] {
    &ROWS
}

fn line_of(alloc: Global, row: &Row) -> Result<Vec<u8>, Memory> {
    let mut line = Vec::from_slice(alloc, row.0)?;
    for _ in 0..row.1 {
        line.push(b' ')?;
    }
    line.extend_from_slice(row.2)?;
    Ok(line)
}

// Whether a party is answered so.
fn is_answered<B: Named, R: Threads + Wait + Sync + Eprint>(
    setting: &Setting<'_, B, R>,
    party: &mut Party,
    row: &Row,
) -> Option<bool>
    requires own { IsPartyOf B.name (shape_of setting.now.setup.now.schema) party.old }
    ensures own { IsPartyOf B.name (shape_of setting.now.setup.now.schema) party.new }
{
    let line = line_of(setting.alloc, row).ok()?;
    let mut sink = MemSink::new(setting.alloc, 200).ok()?;
    let all = ask(setting, party, &line, &mut sink, &mut Open);
    Some(is_text(setting.rt, sink.taken(), row.3) && all)
}

// Whether it is so of all rows.
fn are_answered<B: Named, R: Threads + Wait + Sync + Eprint>(
    setting: &Setting<'_, B, R>,
    party: &mut Party,
) -> bool
    requires own { IsPartyOf B.name (shape_of setting.now.setup.now.schema) party.old }
    ensures own { IsPartyOf B.name (shape_of setting.now.setup.now.schema) party.new }
{
    for row in rows() {
        if is_answered(setting, party, row) != Some(true) {
            return false;
        }
    }
    true
}

// Whether both parties of a new board are answered so.
fn are_answered_over<B: Named, R: Threads + Wait + Sync + Eprint>(
    rt: &R,
    alloc: Global,
    setup: &Setup,
    opening: Opening,
) -> bool
    requires name { opening.name ≡ B.name }
    requires shape { opening.start.shape ≡ shape_of setup.now.schema }
{
    let (board, mut custodian) = Board::<B>::new(opening);
    let mut party = analyst(rt, setup, &board, &mut custodian);
    let mut own = owner::<B>(alloc, setup, custodian);
    let setting = Setting {
        setup,
        board: &board,
        rt,
        alloc,
    };
    let first = are_answered(&setting, &mut party);
    let then = are_answered(&setting, &mut own);
    first && then
}

fn homes_over<R: Threads + Wait + Sync + Eprint>(
    rt: &R,
    alloc: Global,
    setup: &Setup,
) -> Result<bool, Memory> {
    let opening = opening(alloc, setup)?;
    Ok(are_answered_over::<Brand, R>(rt, alloc, setup, opening))
}

fn homes_over_small<R: Threads + Wait + Sync + Eprint>(
    rt: &R,
    alloc: Global,
) -> Result<bool, Memory> {
    let setup = setup_with_units(alloc)?;
    homes_over(rt, alloc, &setup)
}

#[test]
fn lines_of_dwellings(rt: HostRuntime) -> Result<(), Fail> {
    assert!(rt; homes_over_small(&rt, rt.alloc())?);
    Ok(())
}
