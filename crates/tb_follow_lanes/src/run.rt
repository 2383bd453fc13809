// The replies to the lines of a script that is led, written one after another.

ghost use Rattle.std.specs.Prelude.{◌≡◌, ◌<◌, ◌≤◌, None, length};
ghost use Rattle.tb_follow_lanes.specs.FollowRuns.{IsFollowReply, speaker_of};
ghost use Rattle.tb_io.specs.Faults.{HasRisen};
ghost use Rattle.tb_io.specs.declared.answers.Wrote.TheVariants as wrote;
ghost use Rattle.tb_leader.specs.Lanes.{LaneValue, lane_of};
ghost use Rattle.tb_lines.specs.Lists.{IsListAnswered};
ghost use Rattle.tb_lines.specs.Outputs.{AtPrice, Lead, charged};
ghost use Rattle.tb_model.specs.Schemas.{shape_of};
ghost use Rattle.tb_script.specs.Scripts.{nth_line};

use crate::answering::{Led, Setting};
use crate::speaker::Speaker;
use std::alloc::Global;
use std::sync::ledger::Ledger;
use std::thread::Threads;
use tb_base::Steps;
use tb_build::Open;
use tb_follow::Follower;
use tb_io::{Sink, Wrote};
use tb_leader::LeaderLane;
use tb_lines::{LineList, answer_list};
use tb_script::Script;
use tb_text::Setup;

// Whether line `i` of a script, from 0, is the leader's or an analyst's.
fn speaker(script: &Script, i: usize) -> Speaker
    requires { i < length script.now.lines }
    ensures { result ≡ speaker_of (nth_line script.now i).lane }
{
    if script.lane(i) == "leader" {
        Speaker::Leader
    } else {
        Speaker::Analyst
    }
}

impl LineList<Speaker> for Script {
    ghost use Rattle.std.specs.Prelude.{◌≡◌};
    ghost use Rattle.tb_follow_lanes.specs.FollowRuns.{speaker_of};
    ghost use Rattle.tb_script.specs.Scripts.{ScriptLine};

    ghost Line = { ScriptLine };

    ghost lines = { λ script. script.lines };

    ghost text = { λ line. line.line };

    ghost Asks = { λ script line who. who ≡ speaker_of line.lane };

    fn len(&self) -> usize {
        Script::len(self)
    }

    fn who(&self, i: usize) -> Speaker {
        speaker(self, i)
    }

    fn line(&self, i: usize) -> &[u8] {
        Script::line(self, i)
    }
}

/// Writes the reply to each line of a script, one after another. The lane `leader` brings a
/// leader's messages to a follower, and gets what `tb_leader` writes; every other lane, also one
/// named `custodian`, asks at the release that the follower has reached by then: it gets a query's
/// table, the line of the query's first fault, or `memory` where the memory for it is refused. A
/// line of blanks alone, or one that begins with `#`, has no reply.
///
/// It takes memory for the edits of a message, for the next release while it is made, and for one
/// table at a time, and is never out of memory as a whole.
pub fn run_follow<R: Threads + Sync, K: Sink, L: Ledger>(
    rt: &R,
    alloc: Global,
    setup: &Setup,
    script: &Script,
    follower: Follower,
    sink: &mut K,
    steps: &mut Steps<L>,
) -> Wrote
    requires shape { follower.chain.shape ≡ shape_of setup.now.schema }
    ensures count { K.faults sink.old ≤ K.faults sink.new }
    ensures failed { result ≡ wrote.Failed → HasRisen (K.faults sink.old) (K.faults sink.new) }
    ensures run { (last : LaneValue) × IsListAnswered
        (Lead (AtPrice (IsFollowReply setup.now))) result script.now.lines
        (charged (lane_of follower None) steps.old) (charged last steps.new)
        (K.taken sink.old) (K.taken sink.new) }
{
    let lane = LeaderLane::new(follower);
    let setting = Setting { setup, rt, alloc };
    let mut led = Led { lane };
    answer_list(&setting, &mut led, script, sink, &mut Open, steps)
}
