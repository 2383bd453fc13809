// A sink that fails within the reply to `publish`.

ghost use Rattle.std.specs.Prelude.{◌≡◌};
ghost use Rattle.tb_model.specs.Schemas.{shape_of};
ghost use Rattle.tb_session.specs.Parties.{IsPartyOf};

use super::asking::ask;
use std::alloc::Global;
use std::marker::Brand;
use std::sync::Wait;
use std::test::Fail;
use std::thread::Threads;
use tb_base::Memory;
use tb_board::{Board, Named, Opening};
use tb_build::Open;
use tb_comparison::is_text;
use tb_io::MemSink;
use tb_session::{Party, Setting};
use tb_small_boards::{opening, owner};
use tb_small_values::setup;
use tb_text::Setup;

// Answers a line into a sink of so many bytes, and returns whether it took these and all of the
// reply or not.
fn asks<B: Named, R: Threads + Wait + Sync + Eprint>(
    setting: &Setting<'_, B, R>,
    own: &mut Party,
    line: &[u8],
    bound: usize,
    want: &[u8],
) -> bool
    requires own { IsPartyOf B.name (shape_of setting.now.setup.now.schema) own.old }
    ensures own { IsPartyOf B.name (shape_of setting.now.setup.now.schema) own.new }
{
    let Ok(mut sink) = MemSink::new(setting.alloc, bound) else {
        return false;
    };
    let all = ask(setting, own, line, &mut sink, &mut Open);
    let same = is_text(setting.rt, sink.taken(), want);
    all == (want.len() < bound) && same
}

// Whether the edit is held, the reply to `publish` is cut, and the table is over the next release.
fn is_published<B: Named, R: Threads + Wait + Sync + Eprint>(
    rt: &R,
    alloc: Global,
    setup: &Setup,
    opening: Opening,
) -> bool
    requires name { opening.name ≡ B.name }
    requires shape { opening.start.shape ≡ shape_of setup.now.schema }
{
    let (board, custodian) = Board::<B>::new(opening);
    let mut own = owner::<B>(alloc, setup, custodian);
    let setting = Setting {
        setup,
        board: &board,
        rt,
        alloc,
    };
    let held = b"held 1\n";
    let table = b"release 1\nSEX,count\n1,1\n2,0\n.\n";
    let drops = asks(&setting, &mut own, b"drop 104", 99, held);
    let publishes = asks(&setting, &mut own, b"publish", 5, b"publi");
    let shows = asks(&setting, &mut own, b"table SEX", 99, table);
    drops && publishes && shows
}

fn is_published_over<R: Threads + Wait + Sync + Eprint>(
    rt: &R,
    alloc: Global,
    setup: &Setup,
) -> Result<bool, Memory> {
    let opening = opening(alloc, setup)?;
    Ok(is_published::<Brand, R>(rt, alloc, setup, opening))
}

fn is_published_over_small<R: Threads + Wait + Sync + Eprint>(
    rt: &R,
    alloc: Global,
) -> Result<bool, Memory> {
    let setup = setup(alloc)?;
    is_published_over(rt, alloc, &setup)
}

#[test]
fn published_where_the_reply_is_cut(rt: HostRuntime) -> Result<(), Fail> {
    assert!(&rt; is_published_over_small(&rt, rt.alloc())?);
    Ok(())
}
