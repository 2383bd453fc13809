// Five messages in every order, with each lost once and each repeated once.

ghost use Rattle.std.specs.Prelude.{◌≡◌};
ghost use Rattle.tb_model.specs.Schemas.{shape_of};

use super::making::{deliver, follower};
use std::alloc::Global;
use std::test::Fail;
use tb_base::Memory;
use tb_follow::Follower;
use tb_schema::Schema;
use tb_small_values::schema;

// How many ways there are to write five digits to the base 5.
const LISTS: u32 = 3125;

// The number of the message at a place of an order, from 0: a digit, from 1.
fn number_at(order: u32, place: u32) -> u32 {
    let mut rest = order;
    for _ in 0..place {
        rest /= 5;
    }
    rest % 5 + 1
}

fn has_number(order: u32, number: u32) -> bool {
    for place in 0..5 {
        if number_at(order, place) == number {
            return true;
        }
    }
    false
}

// Whether each of the five numbers stands at one of five places.
fn is_order(order: u32) -> bool {
    for number in 1..6 {
        if !has_number(order, number) {
            return false;
        }
    }
    true
}

// A message comes, unless it is the one that is lost; the one that comes again comes twice.
fn come(
    alloc: Global,
    schema: &Schema,
    follower: &mut Follower,
    number: u32,
    lost: u32,
    again: u32,
) -> Result<(), Memory>
    requires { follower.old.chain.shape ≡ shape_of schema.now }
    ensures { follower.new.chain.shape ≡ shape_of schema.now }
{
    if number == lost {
        return Ok(());
    }
    let _ = deliver(alloc, schema, follower, number)?;
    if number == again {
        let _ = deliver(alloc, schema, follower, number)?;
    }
    Ok(())
}

// The five messages come to a follower at release 0.
fn come_all(
    alloc: Global,
    schema: &Schema,
    follower: &mut Follower,
    order: u32,
    lost: u32,
    again: u32,
) -> Result<(), Memory>
    requires { follower.old.chain.shape ≡ shape_of schema.now }
    ensures { follower.new.chain.shape ≡ shape_of schema.now }
{
    follower.restart();
    come(alloc, schema, follower, number_at(order, 0), lost, again)?;
    come(alloc, schema, follower, number_at(order, 1), lost, again)?;
    come(alloc, schema, follower, number_at(order, 2), lost, again)?;
    come(alloc, schema, follower, number_at(order, 3), lost, again)?;
    come(alloc, schema, follower, number_at(order, 4), lost, again)?;
    Ok(())
}

// Whether a follower is at the release of a number, with that number's persons and threshold, and
// so many messages wait.
fn stands_at(follower: &Follower, number: u32, waiting: usize) -> bool {
    let release = follower.release();
    release.number() == number
        && release.len() == number as usize + 4
        && release.rules().threshold() == number
        && follower.waiting() == waiting
}

// Whether a follower stands where it must when a message is lost, or none where that is 0.
fn is_led(follower: &Follower, lost: u32) -> bool {
    match lost {
        1 => stands_at(follower, 0, 4),
        2 => stands_at(follower, 1, 3),
        3 => stands_at(follower, 2, 2),
        4 => stands_at(follower, 3, 1),
        5 => stands_at(follower, 4, 0),
        _ => stands_at(follower, 5, 0),
    }
}

// Whether it does, with one message that is lost, or none, and one that comes again, or none.
fn is_led_through(
    alloc: Global,
    schema: &Schema,
    follower: &mut Follower,
    order: u32,
    lost: u32,
) -> Result<bool, Memory>
    requires { follower.old.chain.shape ≡ shape_of schema.now }
    ensures { follower.new.chain.shape ≡ shape_of schema.now }
{
    for again in 0..6 {
        come_all(alloc, schema, follower, order, lost, again)?;
        if !is_led(follower, lost) {
            return Ok(false);
        }
    }
    Ok(true)
}

// The first order in which it doesn't, and which message was lost.
fn wrong_over(
    alloc: Global,
    schema: &Schema,
    follower: &mut Follower,
) -> Result<Option<(u32, u32)>, Memory>
    requires { follower.old.chain.shape ≡ shape_of schema.now }
{
    for case in 0..6 * LISTS {
        let order = case / 6;
        let lost = case % 6;
        if is_order(order) && !is_led_through(alloc, schema, follower, order, lost)? {
            return Ok(Some((order, lost)));
        }
    }
    Ok(None)
}

fn wrong_order(alloc: Global) -> Result<Option<(u32, u32)>, Memory> {
    let schema = schema(alloc)?;
    let mut follower = follower(alloc, &schema)?;
    wrong_over(alloc, &schema, &mut follower)
}

#[test]
fn every_order_of_five(rt: HostRuntime) -> Result<(), Fail> {
    assert_eq!(rt; wrong_order(rt.alloc())?, None);
    Ok(())
}

fn count_orders() -> u32 {
    let mut count = 0;
    for order in 0..LISTS {
        if is_order(order) && count < LISTS {
            count += 1;
        }
    }
    count
}

#[test]
fn there_are_120_orders(rt: HostRuntime) -> Result<(), Fail> {
    assert_eq!(rt; count_orders(), 120);
    Ok(())
}
