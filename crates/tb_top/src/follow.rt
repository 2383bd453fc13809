// A script answered by a follower, over a census.

ghost use Rattle.std.specs.Prelude.{◌≡◌};
ghost use Rattle.tb_base.specs.Records.{AllFit};
ghost use Rattle.tb_model.specs.Schemas.{shape_of};
ghost use Rattle.tb_top.specs.Asking.{census_over};
ghost use Rattle.tb_top.specs.Loading.{IsBase, IsFirst, census_value};
ghost use Rattle.tb_top.specs.Outputs.{AreFollowReplies, IsScriptAnswered};

use crate::asked::Census;
use std::alloc::Global;
use std::sync::ledger::Ledger;
use std::thread::Threads;
use tb_base::{Memory, Status, Steps};
use tb_endings::{End, end_by};
use tb_follow::Follower;
use tb_follow_lanes::run_follow;
use tb_io::{Sink, Wrote};
use tb_release::Release;
use tb_script::Script;
use tb_tables::shape_in;
use tb_text::Setup;

// Answers the lines of a script by a follower that begins at this release 0.
fn follow_from<R: Threads + Sync, O: Sink, L: Ledger>(
    rt: &R,
    alloc: Global,
    setup: &Setup,
    base: Release,
    script: &Script,
    out: &mut O,
    steps: &mut Steps<L>,
) -> Status
    requires base { IsBase base }
    requires fit { AllFit (shape_of setup.now.schema) base.records }
    ensures { IsScriptAnswered (AreFollowReplies (census_over setup.now base) script.now) result
        (O.faults out.old) (O.faults out.new) (O.taken out.old) (O.taken out.new)
        steps.old steps.new }
{
    match Follower::new(alloc, shape_in(setup), base) {
        Ok(follower) => match run_follow(rt, alloc, setup, script, follower, out, steps) {
            Wrote::All => Status::Done,
            Wrote::Failed => Status::WriteFault,
        },
        Err(Memory) => end_by(&End::Memory, out),
    }
}

/// Answers the lines of a script over a census with a follower in place of a board: the lane
/// `leader` brings it messages, and every other lane asks at the release that it has reached. It
/// takes memory for the follower, which where it is refused ends the run before the first line, and
/// then as `run_follow` does.
pub(crate) fn answer_follow<R: Threads + Sync, O: Sink, L: Ledger>(
    rt: &R,
    alloc: Global,
    census: Census,
    script: &Script,
    out: &mut O,
    steps: &mut Steps<L>,
) -> Status
    requires { IsFirst census }
    ensures { IsScriptAnswered (AreFollowReplies (census_value census) script.now) result
        (O.faults out.old) (O.faults out.new) (O.taken out.old) (O.taken out.new)
        steps.old steps.new }
{
    let Census { setup, release } = census;
    follow_from(rt, alloc, &setup, release, script, out, steps)
}
