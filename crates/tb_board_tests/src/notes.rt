// A note that goes from thread to thread.

ghost use Rattle.std.specs.Prelude.{◌≡◌, IfSome};
ghost use Rattle.tb_board.specs.Custodians.{IsWhole};

use crate::making::opening;
use crate::turns::publish_one;
use std::alloc::Global;
use std::marker::Brand;
use std::process::Abort;
use std::sync::Wait;
use std::test::Fail;
use std::thread::{Threads, join};
use tb_base::Shape;
use tb_board::{Board, Custodian, Named, Opening, Step};
use tb_front::{Note, Pass};
use tb_schema::Schema;
use tb_small_values::schema;

// Publishes release 1, without 104, takes it, and writes a note of that.
fn publish_and_tell<B: Named, R: Wait>(
    rt: &R,
    alloc: Global,
    board: &Board<B>,
    shape: &Shape,
    mut custodian: Custodian,
    mut pass: Pass<Step>,
) -> Option<Note<Step>>
    requires name { custodian.writer.name ≡ B.name }
    requires whole { IsWhole custodian }
    requires shape { custodian.writer.start.shape ≡ shape.now }
    requires pass { pass.name ≡ B.name }
    ensures { IfSome result (λ note. note.name ≡ B.name) }
{
    publish_one(rt, alloc, board, &mut custodian, shape, 104).ok()?;
    board.take(rt, &mut pass, None).ok()?;
    Some(board.note(&mut pass))
}

// Learns of a release by a note, and takes one: its number, and how many records it has.
fn learn_and_take<B: Named, R: Wait>(
    rt: &R,
    board: &Board<B>,
    mut pass: Pass<Step>,
    note: Note<Step>,
) -> Option<(u32, usize)>
    requires pass { pass.name ≡ B.name }
    requires note { note.name ≡ B.name }
{
    board.learn(&mut pass, note);
    let taken = board.take(rt, &mut pass, None).ok()?;
    Some((taken.release.number(), taken.release.len()))
}

// One thread publishes and writes a note, which the other learns, which is started afterwards.
fn tell_by_note<B: Named + Send + Sync, R: Threads + Wait + Abort + Sync>(
    rt: &R,
    alloc: Global,
    opening: Opening,
    shape: &Shape,
) -> Result<(), Fail>
    requires name { opening.name ≡ B.name }
    requires shape { opening.start.shape ≡ shape.now }
{
    let (board, custodian) = Board::<B>::new(opening);
    let one = board.pass(rt);
    let two = board.pass(rt);
    let (note, _) = join(
        rt,
        || -> Option<Note<Step>>
            requires { (custodian.writer.name ≡ B.name)
                × (IsWhole custodian × ((custodian.writer.start.shape ≡ shape.now)
                × (one.name ≡ B.name))) }
            ensures { IfSome result (λ note. note.name ≡ B.name) }
        { publish_and_tell(rt, alloc, &board, shape, custodian, one) },
        || (),
    );
    let note = note.ok_or("published")?;
    let (taken, _) = join(
        rt,
        || -> Option<(u32, usize)>
            requires { (two.name ≡ B.name) × (note.name ≡ B.name) }
        { learn_and_take(rt, &board, two, note) },
        || (),
    );
    assert_eq!(rt; taken, Some((1, 3)));
    Ok(())
}

fn tell_over<R: Threads + Wait + Abort + Sync>(
    rt: &R,
    alloc: Global,
    schema: &Schema,
) -> Result<(), Fail> {
    let opening = opening(alloc, schema)?;
    tell_by_note::<Brand, R>(rt, alloc, opening, schema.shape())
}

#[test]
fn a_note_goes_between_threads(rt: HostRuntime) -> Result<(), Fail> {
    let schema = schema(rt.alloc())?;
    tell_over(&rt, rt.alloc(), &schema)
}
