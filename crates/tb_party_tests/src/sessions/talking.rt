// Sessions of the custodian of a new board over the small setup.

ghost use Rattle.std.specs.Prelude.{◌≡◌, ◌<◌};
ghost use Rattle.tb_model.specs.Schemas.{shape_of};
ghost use Rattle.tb_session.specs.Parties.{IsPartyOf};

use std::alloc::Global;
use std::marker::Brand;
use std::sync::Wait;
use std::sync::ledger::{Blank, Ledger};
use std::thread::Threads;
use tb_base::{Memory, Steps};
use tb_board::{Board, Named, Opening};
use tb_build::Open;
use tb_io::{LineReader, MemSink, Source};
use tb_session::{Party, SessionEnd, session};
use tb_small_boards::{opening_for, owner};
use tb_text::Setup;

// How many cubes a board here keeps.
const MOST_CUBES: u32 = 4;

// A session with a counter and a line reader of its own.
fn talk_with<L: Ledger, B: Named, R: Threads + Wait + Sync, S: Source>(
    blank: Blank,
    rt: &R,
    alloc: Global,
    setup: &Setup,
    board: &Board<B>,
    party: &mut Party,
    source: &mut S,
    sink: &mut MemSink,
) -> Result<SessionEnd, Memory>
    requires ledger { blank.name ≡ L.name }
    requires parts { blank.parts ≡ L.parts }
    requires some { 0 < L.parts }
    requires own { IsPartyOf B.name (shape_of setup.now.schema) party.old }
    ensures own { IsPartyOf B.name (shape_of setup.now.schema) party.new }
{
    let mut steps = Steps::<L>::new(blank);
    let mut lines = LineReader::new(alloc)?;
    let end = session(
        setup, board, rt, alloc, party, &mut lines, source, sink, &mut Open, &mut steps,
    );
    Ok(end)
}

fn talk<B: Named, R: Threads + Wait + Sync, S: Source>(
    rt: &R,
    alloc: Global,
    setup: &Setup,
    board: &Board<B>,
    party: &mut Party,
    source: &mut S,
    sink: &mut MemSink,
) -> Result<SessionEnd, Memory>
    requires own { IsPartyOf B.name (shape_of setup.now.schema) party.old }
    ensures own { IsPartyOf B.name (shape_of setup.now.schema) party.new }
{
    talk_with::<Brand, B, R, S>(Blank::new(1), rt, alloc, setup, board, party, source, sink)
}

fn talk_to_custodian<B: Named, R: Threads + Wait + Sync, S: Source>(
    rt: &R,
    alloc: Global,
    setup: &Setup,
    opening: Opening,
    source: &mut S,
    sink: &mut MemSink,
) -> Result<SessionEnd, Memory>
    requires name { opening.name ≡ B.name }
    requires shape { opening.start.shape ≡ shape_of setup.now.schema }
{
    let (board, custodian) = Board::<B>::new(opening);
    let mut party = owner::<B>(alloc, setup, custodian);
    talk(rt, alloc, setup, &board, &mut party, source, sink)
}

fn talk_twice<B: Named, R: Threads + Wait + Sync, S: Source>(
    rt: &R,
    alloc: Global,
    setup: &Setup,
    opening: Opening,
    source: &mut S,
    sink: &mut MemSink,
    next: &mut S,
    next_sink: &mut MemSink,
) -> Result<SessionEnd, Memory>
    requires name { opening.name ≡ B.name }
    requires shape { opening.start.shape ≡ shape_of setup.now.schema }
{
    let (board, custodian) = Board::<B>::new(opening);
    let mut party = owner::<B>(alloc, setup, custodian);
    talk(rt, alloc, setup, &board, &mut party, source, sink)?;
    talk(rt, alloc, setup, &board, &mut party, next, next_sink)
}

/// A session of the custodian of a new board over the small setup.
pub fn one_session<R: Threads + Wait + Sync, S: Source>(
    rt: &R,
    alloc: Global,
    setup: &Setup,
    source: &mut S,
    sink: &mut MemSink,
) -> Result<SessionEnd, Memory> {
    let opening = opening_for(alloc, &setup.schema, MOST_CUBES)?;
    talk_to_custodian::<Brand, R, S>(rt, alloc, setup, opening, source, sink)
}

/// Two sessions of that custodian, one after the other, and how the second ended.
pub fn two_sessions<R: Threads + Wait + Sync, S: Source>(
    rt: &R,
    alloc: Global,
    setup: &Setup,
    source: &mut S,
    sink: &mut MemSink,
    next: &mut S,
    next_sink: &mut MemSink,
) -> Result<SessionEnd, Memory> {
    let opening = opening_for(alloc, &setup.schema, MOST_CUBES)?;
    talk_twice::<Brand, R, S>(rt, alloc, setup, opening, source, sink, next, next_sink)
}
