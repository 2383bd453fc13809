// Takes and offers beside publications.

ghost use Rattle.std.specs.Prelude.{◌≡◌};
ghost use Rattle.tb_board.specs.Custodians.{IsWhole};

use crate::making::opening;
use crate::turns::{ask_beside, publish_one};
use std::alloc::Global;
use std::marker::Brand;
use std::process::Abort;
use std::sync::Wait;
use std::test::Fail;
use std::thread::{Threads, join};
use tb_base::Shape;
use tb_board::{Board, Custodian, Named, Opening};
use tb_release::EditFault;
use tb_schema::Schema;
use tb_small_values::schema;

// All four leave, one after another, and the last release's number is returned.
fn publish_all<B: Named, R: Wait>(
    rt: &R,
    alloc: Global,
    board: &Board<B>,
    shape: &Shape,
    mut custodian: Custodian,
) -> Result<u32, EditFault>
    requires name { custodian.writer.name ≡ B.name }
    requires whole { IsWhole custodian }
    requires shape { custodian.writer.start.shape ≡ shape.now }
{
    let mut number = 0;
    for gone in 0..4 {
        number = publish_one(rt, alloc, board, &mut custodian, shape, 104 - gone)?;
    }
    Ok(number)
}

// One thread publishes four releases, and the other takes fifty times and offers what it makes.
fn ask_beside_publications<B: Named + Send + Sync, R: Threads + Wait + Abort + Sync>(
    rt: &R,
    alloc: Global,
    opening: Opening,
    shape: &Shape,
) -> Result<(), Fail>
    requires name { opening.name ≡ B.name }
    requires shape { opening.start.shape ≡ shape.now }
{
    let (board, mut custodian) = Board::<B>::new(opening);
    let mut pass = board.pass(rt);
    board.confirm(&mut custodian, &mut pass);
    let (number, right) = join(
        rt,
        || -> Option<u32>
            requires { (custodian.writer.name ≡ B.name)
                × (IsWhole custodian × (custodian.writer.start.shape ≡ shape.now)) }
        { publish_all(rt, alloc, &board, shape, custodian).ok() },
        || -> Option<u32>
            requires { (pass.name ≡ B.name) × (pass.start.shape ≡ shape.now) }
        { ask_beside(rt, alloc, &board, shape, pass, 50) },
    );
    assert_eq!(rt; number, Some(4));
    assert_eq!(rt; right, Some(50));
    Ok(())
}

fn ask_over<R: Threads + Wait + Abort + Sync>(
    rt: &R,
    alloc: Global,
    schema: &Schema,
) -> Result<(), Fail> {
    let opening = opening(alloc, schema)?;
    ask_beside_publications::<Brand, R>(rt, alloc, opening, schema.shape())
}

#[test]
fn takes_and_offers_beside_publications(rt: HostRuntime) -> Result<(), Fail> {
    let schema = schema(rt.alloc())?;
    ask_over(&rt, rt.alloc(), &schema)
}
