// The answer to a line of a script that is led.

ghost use Rattle.std.specs.Prelude.{◌≡◌, ◌≤◌, length};
ghost use Rattle.tb_describe.specs.Descriptions.{Describes};
ghost use Rattle.tb_describe.specs.Told.{description_text};
ghost use Rattle.tb_follow_lanes.specs.FollowRuns.{IsFollowStep};
ghost use Rattle.tb_follow_lanes.specs.declared.speaker.Speaker.TheVariants as speakers;
ghost use Rattle.tb_io.specs.declared.limits.TheConstants.{MOST_LINE_BYTES};
ghost use Rattle.tb_leader.specs.Lanes.{IsLaneOf, lane_of};
ghost use Rattle.tb_lines.specs.Moments.{IsReplied, moment};
ghost use Rattle.tb_model.specs.Schemas.{shape_of};

use crate::speaker::Speaker;
use std::alloc::Global;
use std::sync::ledger::Ledger;
use std::thread::Threads;
use tb_base::Steps;
use tb_build::Open;
use tb_describe::{Description, describe, is_description};
use tb_follow::Follower;
use tb_io::{Sink, Wrote};
use tb_leader::{LeaderLane, answer};
use tb_lines::{Answerer, is_passed_over};
use tb_tables::answer_at;
use tb_text::Setup;

/// What the lines of a script that is led are answered over: a setup, by what makes threads, in
/// this memory.
#[derive(Drop)]
pub(crate) struct Setting<'a, R: Threads + Sync> {
    pub(crate) setup: &'a Setup,
    pub(crate) rt: &'a R,
    pub(crate) alloc: Global,
}

// What may be asked. No release is looked at.
fn describe_setup(alloc: Global, setup: &Setup, line: &[u8]) -> Description
    requires { length line.now ≤ MOST_LINE_BYTES }
    ensures { Describes setup.now.schema line.now (description_text result) }
{
    describe(alloc, &setup.schema, line)
}

// Answers an analyst's line, over the release that the follower has reached.
fn answer_analyst<R: Threads + Sync, K: Sink, L: Ledger>(
    setting: &Setting<'_, R>,
    lane: &LeaderLane<Follower>,
    line: &[u8],
    sink: &mut K,
    steps: &mut Steps<L>,
) -> Wrote
    requires few { length line.now ≤ MOST_LINE_BYTES }
    requires fits { IsLaneOf (shape_of setting.now.setup.now.schema)
        (lane_of lane.now.follower lane.now.open) }
    ensures replied { IsReplied (IsFollowStep setting.now.setup.now speakers.Analyst) line.now
        result (moment (lane_of lane.now.follower lane.now.open) steps.old (K.taken sink.old)
        (K.faults sink.old))
        (moment (lane_of lane.now.follower lane.now.open) steps.new (K.taken sink.new)
        (K.faults sink.new)) }
{
    if is_passed_over(line) {
        return Wrote::All;
    }
    if is_description(line) {
        return describe_setup(setting.alloc, setting.setup, line).write(sink);
    }
    let release = lane.follower.release();
    let reply = answer_at(
        setting.rt,
        setting.alloc,
        setting.setup,
        release,
        line,
        &mut Open,
        steps,
    );
    reply.write(sink)
}

// Answers a line of a lane: the leader's, or that of an analyst.
fn answer_speaker<R: Threads + Sync, K: Sink, L: Ledger>(
    setting: &Setting<'_, R>,
    lane: &mut LeaderLane<Follower>,
    speaker: Speaker,
    line: &[u8],
    sink: &mut K,
    steps: &mut Steps<L>,
) -> Wrote
    requires few { length line.now ≤ MOST_LINE_BYTES }
    requires fits { IsLaneOf (shape_of setting.now.setup.now.schema)
        (lane_of lane.old.follower lane.old.open) }
    ensures fits { IsLaneOf (shape_of setting.now.setup.now.schema)
        (lane_of lane.new.follower lane.new.open) }
    ensures replied { IsReplied (IsFollowStep setting.now.setup.now speaker) line.now result
        (moment (lane_of lane.old.follower lane.old.open) steps.old (K.taken sink.old)
        (K.faults sink.old))
        (moment (lane_of lane.new.follower lane.new.open) steps.new (K.taken sink.new)
        (K.faults sink.new)) }
{
    let setup = setting.setup;
    match speaker {
        Speaker::Leader => answer(&(), setting.alloc, &setup.schema, lane, line, sink),
        Speaker::Analyst => answer_analyst(setting, lane, line, sink, steps),
    }
}

/// Who answers the lines of a script that is led: the leader's lane, whose follower every other
/// lane asks.
#[derive(Drop)]
pub(crate) struct Led {
    pub(crate) lane: LeaderLane<Follower>,
}

impl<'a, R: Threads + Sync> Answerer<Setting<'a, R>, Open, Speaker> for Led {
    ghost use Rattle.std.specs.Thread.{IsSync};
    ghost use Rattle.tb_follow_lanes.specs.FollowRuns.{IsFollowStep};
    ghost use Rattle.tb_leader.specs.Lanes.{IsLaneOf, LaneValue, lane_of};
    ghost use Rattle.tb_model.specs.Schemas.{shape_of};

    ghost State = { LaneValue };

    ghost state = { λ led. lane_of led.lane.follower led.lane.open };

    ghost fresh = { λ lane. lane };

    ghost IsReady = { λ c led. IsSync R.row
        × IsLaneOf (shape_of c.setup.now.schema) (lane_of led.lane.follower led.lane.open) };

    ghost MayAsk = { λ c who. Unit {0} };

    ghost Step = { λ c who. IsFollowStep c.setup.now who };

    fn begin(&mut self, _setting: &Setting<'a, R>) {}

    fn answer<K: Sink, L: Ledger>(
        &mut self,
        setting: &Setting<'a, R>,
        who: Speaker,
        line: &[u8],
        sink: &mut K,
        _gate: &mut Open,
        steps: &mut Steps<L>,
    ) -> Wrote {
        answer_speaker(setting, &mut self.lane, who, line, sink, steps)
    }
}
