// What is returned, by the numbers of the message and of the release.

ghost use Rattle.std.specs.Prelude.{◌≡◌, ◌≤◌};
ghost use Rattle.tb_model.specs.Schemas.{shape_of};

use super::making::{deliver, follower};
use std::alloc::Global;
use std::test::Fail;
use tb_base::Memory;
use tb_follow::{Delivered, Follower, MOST_AHEAD};
use tb_schema::Schema;
use tb_small_values::schema;

// What is returned, in words.
fn words_of(delivered: Delivered) -> (&'static str, u32) {
    match delivered {
        Delivered::Applied(number) => ("applied", number),
        Delivered::Kept(number) => ("kept", number),
        Delivered::Old(number) => ("old", number),
        Delivered::Far(number) => ("far", number),
        Delivered::Refused { edit, kind: _ } => ("refused", edit),
        Delivered::Memory => ("memory", 0),
    }
}

// The number of a release, that of a message, and what is returned.
static ROWS: [(u32, u32, &'static str, u32); 14] = [
    (0, 0, "old", 0),
    (0, 1, "applied", 1),
    (0, 2, "kept", 0),
    (0, 64, "kept", 0),
    (0, 65, "far", 0),
    (0, 4294967295, "far", 0),
    (1, 1, "old", 1),
    (1, 2, "applied", 2),
    (2, 1, "old", 2),
    (2, 2, "old", 2),
    (2, 3, "applied", 3),
    (2, 4, "kept", 2),
    (2, 66, "kept", 2),
    (2, 67, "far", 2),
];

fn rows() -> &'static [(u32, u32, &'static str, u32)] {
    &ROWS
}

// Leads a follower from release 0 to the release of a number, 0 to 2.
fn lead_to(
    alloc: Global,
    schema: &Schema,
    follower: &mut Follower,
    number: u32,
) -> Result<(), Memory>
    requires { follower.old.chain.shape ≡ shape_of schema.now }
    ensures { follower.new.chain.shape ≡ shape_of schema.now }
{
    follower.restart();
    if number >= 1 {
        let _ = deliver(alloc, schema, follower, 1)?;
    }
    if number >= 2 {
        let _ = deliver(alloc, schema, follower, 2)?;
    }
    Ok(())
}

// The place of the first row that is wrong.
fn wrong_row(
    alloc: Global,
    schema: &Schema,
    follower: &mut Follower,
) -> Result<Option<usize>, Memory>
    requires { follower.old.chain.shape ≡ shape_of schema.now }
{
    for (i, (at, number, word, told)) in rows().iter().enumerate() {
        lead_to(alloc, schema, follower, *at)?;
        let delivered = deliver(alloc, schema, follower, *number)?;
        if words_of(delivered) != (*word, *told) {
            return Ok(Some(i));
        }
    }
    Ok(None)
}

fn wrong_number(alloc: Global) -> Result<Option<usize>, Memory> {
    let schema = schema(alloc)?;
    let mut follower = follower(alloc, &schema)?;
    wrong_row(alloc, &schema, &mut follower)
}

#[test]
fn answers_by_number(rt: HostRuntime) -> Result<(), Fail> {
    assert_eq!(rt; wrong_number(rt.alloc())?, None);
    Ok(())
}

// Delivers the messages of all numbers from 2 to `MOST_AHEAD`, and returns the first of them that
// doesn't wait.
fn first_that_goes(
    alloc: Global,
    schema: &Schema,
    follower: &mut Follower,
) -> Result<Option<u32>, Memory>
    requires { follower.old.chain.shape ≡ shape_of schema.now }
    ensures { follower.new.chain.shape ≡ shape_of schema.now }
{
    for number in 2..MOST_AHEAD + 1 {
        if deliver(alloc, schema, follower, number)? != Delivered::Kept(0) {
            return Ok(Some(number));
        }
    }
    Ok(None)
}

// How many messages wait at most, what the one too far and the one that they wait for return, and
// how many wait then.
fn waiting_to(
    alloc: Global,
    schema: &Schema,
    follower: &mut Follower,
) -> Result<(usize, Delivered, Delivered, usize), Memory>
    requires { follower.old.chain.shape ≡ shape_of schema.now }
{
    let too_far = deliver(alloc, schema, follower, MOST_AHEAD + 1)?;
    let most = follower.waiting();
    let last = deliver(alloc, schema, follower, 1)?;
    Ok((most, too_far, last, follower.waiting()))
}

fn is_right(alloc: Global) -> Result<bool, Memory> {
    let schema = schema(alloc)?;
    let mut follower = follower(alloc, &schema)?;
    if first_that_goes(alloc, &schema, &mut follower)?.is_some() {
        return Ok(false);
    }
    let (most, too_far, last, left) = waiting_to(alloc, &schema, &mut follower)?;
    Ok(most == 63 && too_far == Delivered::Far(0) && last == Delivered::Applied(64) && left == 0)
}

#[test]
fn all_that_wait_are_applied_by_one(rt: HostRuntime) -> Result<(), Fail> {
    assert!(rt; is_right(rt.alloc())?);
    Ok(())
}
