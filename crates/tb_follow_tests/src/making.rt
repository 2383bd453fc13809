// A follower over the small setup, and messages to it.

ghost use Rattle.std.specs.Prelude.{◌≡◌, IfOk};
ghost use Rattle.tb_follow.specs.Messages.{MessageFits};
ghost use Rattle.tb_model.specs.Schemas.{shape_of};

use std::alloc::Global;
use tb_base::Memory;
use tb_follow::{Delivered, Follower, Message};
use tb_schema::Schema;
use tb_small_values::{edits_of, release};

// A follower at release 0.
pub fn follower(alloc: Global, schema: &Schema) -> Result<Follower, Memory>
    ensures { IfOk result (λ follower. follower.chain.shape ≡ shape_of schema.now) }
{
    let release = release(alloc, schema)?;
    Follower::new(alloc, schema.shape(), release)
}

// The edits of a message by its number: each of the first five adds a person, and sets the
// threshold to its number; any other sets it to 7.
fn lines_of(number: u32) -> (&'static str, &'static str) {
    match number {
        1 => ("add 201 9 SEX=1 AGE=65+ AREA=E1", "threshold 1"),
        2 => ("add 202 9 SEX=1 AGE=65+ AREA=E1", "threshold 2"),
        3 => ("add 203 9 SEX=1 AGE=65+ AREA=E1", "threshold 3"),
        4 => ("add 204 9 SEX=1 AGE=65+ AREA=E1", "threshold 4"),
        5 => ("add 205 9 SEX=1 AGE=65+ AREA=E1", "threshold 5"),
        _ => ("threshold 6", "threshold 7"),
    }
}

// The leader's message of a number.
fn message(alloc: Global, schema: &Schema, number: u32) -> Result<Message, Memory>
    ensures { IfOk result (MessageFits (shape_of schema.now)) }
{
    let (first, second) = lines_of(number);
    let edits = edits_of(alloc, schema, &[first.as_bytes(), second.as_bytes()])?;
    Ok(Message { number, edits })
}

// Delivers a message.
fn give(follower: &mut Follower, message: Message) -> Delivered
    requires { MessageFits follower.old.chain.shape message }
    ensures { follower.new.chain.shape ≡ follower.old.chain.shape }
{
    follower.deliver(message)
}

// Delivers the leader's message of a number.
pub fn deliver(
    alloc: Global,
    schema: &Schema,
    follower: &mut Follower,
    number: u32,
) -> Result<Delivered, Memory>
    requires { follower.old.chain.shape ≡ shape_of schema.now }
    ensures { follower.new.chain.shape ≡ shape_of schema.now }
{
    let message = message(alloc, schema, number)?;
    Ok(give(follower, message))
}
