// A cube of more variables is kept, so that nothing is built for a table over fewer of them.

ghost use Rattle.std.specs.Prelude.{◌≡◌};
ghost use Rattle.tb_model.specs.Schemas.{shape_of};
ghost use Rattle.tb_session.specs.Parties.{IsPartyOf};

use super::asking::ask_all;
use super::making::analyst;
use std::alloc::Global;
use std::marker::Brand;
use std::sync::Wait;
use std::sync::ledger::Ledger;
use std::test::Fail;
use std::thread::Threads;
use tb_base::{Memory, Steps};
use tb_board::{Board, Named, Opening};
use tb_build::Gate;
use tb_comparison::is_text;
use tb_io::MemSink;
use tb_session::{Party, Setting};
use tb_small_boards::opening;
use tb_small_values::setup;
use tb_text::Setup;

// A gate that counts how often it is reached.
#[derive(Drop)]
struct Counted {
    times: u32,
}

impl Gate for Counted {
    ghost HasReached = { λ _ _ _. Unit {0} };

    fn reach<L: Ledger>(&mut self, _steps: &Steps<L>) {
        self.times = self.times.saturating_add(1);
    }
}

const REPLIES: &[u8] = b"release 0\nAREA,SEX,count\nE1,1,2\nE1,2,0\nE2,1,1\nE2,2,2\n.\n\
    release 0\nSEX,count\n1,1\n2,2\n.\n";

// Whether a caller is answered so, and is at the gate for the first table alone.
fn asks<B: Named, R: Threads + Wait + Sync + Eprint>(
    setting: &Setting<'_, B, R>,
    mut party: Party,
) -> Option<bool>
    requires own { IsPartyOf B.name (shape_of setting.now.setup.now.schema) party }
{
    let mut gate = Counted { times: 0 };
    let mut sink = MemSink::new(setting.alloc, 200).ok()?;
    let lines = "table AREA by SEX\ntable SEX";
    let all = ask_all(setting, &mut party, lines, &mut sink, &mut gate);
    Some(is_text(setting.rt, sink.taken(), REPLIES) && all && gate.times == 1)
}

// The same over a new board.
fn asks_over<B: Named, R: Threads + Wait + Sync + Eprint>(
    rt: &R,
    alloc: Global,
    setup: &Setup,
    opening: Opening,
) -> bool
    requires name { opening.name ≡ B.name }
    requires shape { opening.start.shape ≡ shape_of setup.now.schema }
{
    let (board, mut custodian) = Board::<B>::new(opening);
    let party = analyst(rt, setup, &board, &mut custodian);
    let setting = Setting {
        setup,
        board: &board,
        rt,
        alloc,
    };
    asks(&setting, party) == Some(true)
}

fn is_asked_over<R: Threads + Wait + Sync + Eprint>(
    rt: &R,
    alloc: Global,
    setup: &Setup,
) -> Result<bool, Memory> {
    let opening = opening(alloc, setup)?;
    Ok(asks_over::<Brand, R>(rt, alloc, setup, opening))
}

fn is_asked_over_small<R: Threads + Wait + Sync + Eprint>(
    rt: &R,
    alloc: Global,
) -> Result<bool, Memory> {
    let setup = setup(alloc)?;
    is_asked_over(rt, alloc, &setup)
}

#[test]
fn wider_cube_needs_no_gate(rt: HostRuntime) -> Result<(), Fail> {
    assert!(rt; is_asked_over_small(&rt, rt.alloc())?);
    Ok(())
}
