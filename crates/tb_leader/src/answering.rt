// The answer to a line of the leader's.

ghost use Rattle.std.specs.Prelude.{◌≡◌, ℕ};
ghost use Rattle.std.specs.Option.{ForSome};
ghost use Rattle.tb_follow.specs.Messages.{MessageFits};
ghost use Rattle.tb_io.specs.Taken.{IsWritten};
ghost use Rattle.tb_leader.specs.Lanes.{IsLaneOf, lane_of};
ghost use Rattle.tb_leader.specs.LeaderReplies.{IsBegun, IsEditOf, IsEnd, IsLeaderStep, IsReply};
ghost use Rattle.tb_leader.specs.LeaderReplies.{IsRestart};
ghost use Rattle.tb_leader.specs.ReplyTexts.{reply_text};
ghost use Rattle.tb_lines.specs.Moments.{IsReplied, moment};
ghost use Rattle.tb_model.specs.Schemas.{shape_of};

use crate::asks::{LeaderAsks, asks_of};
use crate::hold::hold;
use crate::lane::LeaderLane;
use crate::receiver::Receiver;
use crate::reply::LeaderReply;
use std::alloc::Global;
use tb_follow::Message;
use tb_io::{Sink, Wrote};
use tb_release::Edits;
use tb_schema::Schema;

// Begins the message of a number. One that is open is dropped.
fn begin(alloc: Global, open: &mut Option<Message>, number: u32) -> LeaderReply
    ensures { IsBegun number (reply_text result) open.new }
{
    let edits = Edits::new(alloc);
    *open = Some(Message { number, edits });
    LeaderReply::Begun(number)
}

// Holds the edit of a line in the open message, if there is one.
fn edit(alloc: Global, schema: &Schema, open: &mut Option<Message>, line: &[u8]) -> LeaderReply
    requires { ForSome open.old (MessageFits (shape_of schema.now)) }
    ensures reply { IsEditOf schema.now line.now open.old (reply_text result) open.new }
    ensures fits { ForSome open.new (MessageFits (shape_of schema.now)) }
{
    let Some(message) = open.take() else {
        return LeaderReply::Refused;
    };
    let (held, reply) = hold(alloc, schema, message, line);
    *open = held;
    reply
}

// Delivers the open message, if there is one.
fn end<C, F: Receiver<C>>(setting: &C, lane: &mut LeaderLane<F>) -> LeaderReply
    requires ready { F.IsReady setting.now lane.old.follower }
    requires fits { ForSome lane.old.open (MessageFits (F.value lane.old.follower).chain.shape) }
    ensures ready { F.IsReady setting.now lane.new.follower }
    ensures reply { IsEnd (lane_of (F.value lane.old.follower) lane.old.open) (reply_text result)
        (lane_of (F.value lane.new.follower) lane.new.open) }
{
    let Some(message) = lane.open.take() else {
        return LeaderReply::Refused;
    };
    let delivered = lane.follower.deliver(setting, message);
    LeaderReply::of(delivered)
}

// Leads back to release 0, where that can be. A message that is open is dropped then.
fn restart<C, F: Receiver<C>>(setting: &C, lane: &mut LeaderLane<F>) -> LeaderReply
    requires { F.IsReady setting.now lane.old.follower }
    ensures ready { F.IsReady setting.now lane.new.follower }
    ensures reply { IsRestart F.restarts (lane_of (F.value lane.old.follower) lane.old.open)
        (reply_text result) (lane_of (F.value lane.new.follower) lane.new.open) }
{
    if !lane.follower.restart(setting) {
        return LeaderReply::Refused;
    }
    lane.open = None;
    LeaderReply::Restarted
}

/// The reply to one line of the leader's, and what it does. It takes memory for an edit that is
/// held, and for what a delivery makes.
pub fn reply_to<C, F: Receiver<C>>(
    setting: &C,
    alloc: Global,
    schema: &Schema,
    lane: &mut LeaderLane<F>,
    line: &[u8],
) -> LeaderReply
    requires ready { F.IsReady setting.now lane.old.follower }
    requires fits { IsLaneOf (shape_of schema.now)
        (lane_of (F.value lane.old.follower) lane.old.open) }
    ensures ready { F.IsReady setting.now lane.new.follower }
    ensures fits { IsLaneOf (shape_of schema.now)
        (lane_of (F.value lane.new.follower) lane.new.open) }
    ensures reply { IsReply F.restarts schema.now
        (lane_of (F.value lane.old.follower) lane.old.open) line.now (reply_text result)
        (lane_of (F.value lane.new.follower) lane.new.open) }
{
    match asks_of(line) {
        LeaderAsks::Nothing => LeaderReply::Nothing,
        LeaderAsks::Begin(number) => begin(alloc, &mut lane.open, number),
        LeaderAsks::Edit => edit(alloc, schema, &mut lane.open, line),
        LeaderAsks::End => end(setting, lane),
        LeaderAsks::Restart => restart(setting, lane),
        LeaderAsks::Other => LeaderReply::Refused,
    }
}

/// Writes the reply to one line of the leader's, in one write. It takes no step, and memory for an
/// edit that is held, and for what a delivery makes, all before the first byte. After a failed
/// write the lane is as after the line.
pub fn answer<C, F: Receiver<C>, K: Sink>(
    setting: &C,
    alloc: Global,
    schema: &Schema,
    lane: &mut LeaderLane<F>,
    line: &[u8],
    sink: &mut K,
) -> Wrote
    requires ready { F.IsReady setting.now lane.old.follower }
    requires fits { IsLaneOf (shape_of schema.now)
        (lane_of (F.value lane.old.follower) lane.old.open) }
    ensures ready { F.IsReady setting.now lane.new.follower }
    ensures fits { IsLaneOf (shape_of schema.now)
        (lane_of (F.value lane.new.follower) lane.new.open) }
    ensures replied { (steps : ℕ) → IsReplied (IsLeaderStep F.restarts schema.now) line.now result
        (moment (lane_of (F.value lane.old.follower) lane.old.open) steps (K.taken sink.old)
        (K.faults sink.old))
        (moment (lane_of (F.value lane.new.follower) lane.new.open) steps (K.taken sink.new)
        (K.faults sink.new)) }
{
    let reply = reply_to(setting, alloc, schema, lane, line);
    reply.write(sink)
}
