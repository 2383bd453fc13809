// Scripts that are led, over the small setup, and their replies.

ghost use Rattle.std.specs.Prelude.{◌≡◌, ◌<◌};
ghost use Rattle.tb_model.specs.Schemas.{shape_of};

use super::making::follower;
use std::alloc::Global;
use std::marker::Brand;
use std::sync::ledger::{Blank, Ledger};
use std::test::Fail;
use std::thread::Threads;
use tb_base::{Memory, Steps};
use tb_comparison::is_text;
use tb_follow::Follower;
use tb_follow_lanes::run_follow;
use tb_io::{MemSink, Wrote};
use tb_script::Script;
use tb_small_boards::read_script;
use tb_small_values::setup;
use tb_text::Setup;

// Scripts, and their replies.
static ROWS: [(&'static str, &'static str); 15] = [
    // The message of release 2 comes first, and waits; that of release 1 leads to both.
    (
        "leader begin 2\nleader add 105 30 SEX=2 AGE=0-15 AREA=E2\nleader end\na table SEX\n\
        leader begin 1\nleader drop 104\nleader end\na table SEX\n",
        "begun 2\nheld 1\nkept 0\nrelease 0\nSEX,count\n1,1\n2,2\n.\n\
        begun 1\nheld 1\nat 2\nrelease 2\nSEX,count\n1,1\n2,1\n.\n",
    ),
    // Then both are old, others are as far ahead as may be, and too far, and all begins anew.
    (
        "leader begin 2\nleader add 105 30 SEX=2 AGE=0-15 AREA=E2\nleader end\n\
        leader begin 1\nleader drop 104\nleader end\n\
        leader begin 1\nleader drop 104\nleader end\nleader begin 66\nleader drop 101\n\
        leader end\nleader begin 67\nleader drop 101\nleader end\nleader end\nleader restart\n\
        a table SEX\nleader begin 1\nleader drop 104\nleader end\n",
        "begun 2\nheld 1\nkept 0\nbegun 1\nheld 1\nat 2\n\
        begun 1\nheld 1\nold 2\nbegun 66\nheld 1\nkept 2\nbegun 67\nheld 1\nfar 2\n\
        refused leader\nrestarted\nrelease 0\nSEX,count\n1,1\n2,2\n.\nbegun 1\nheld 1\nat 1\n",
    ),
    // Comments have no reply in any lane, also while a message is open.
    (
        "a # table SEX\nleader # end\nleader begin 1\nleader #\nleader drop 104\nleader # end\n\
        custodian #publish\nleader end\n",
        "begun 1\nheld 1\nat 1\n",
    ),
    ("", ""),
    // A follower has one release alone: there is no table of another.
    (
        "a at 0 table SEX\nleader at 0 table SEX\n",
        "refused 2 Syntax 1\nrefused leader\n",
    ),
    // No message is open.
    (
        "leader end\nleader drop 104\nleader restart\nleader end\n",
        "refused leader\nrefused leader\nrestarted\nrefused leader\n",
    ),
    // A refused edit and those after it: the message is given up.
    (
        "leader begin 1\nleader drop 104\nleader drop 0\nleader drop 103\nleader end\nleader end\n\
        leader begin 1\nleader threshold 1\nleader end\n",
        "begun 1\nheld 1\nrefused edit 2 BadNumber\nrefused leader\nrefused leader\n\
        refused leader\nbegun 1\nheld 1\nat 1\n",
    ),
    // An open message is dropped by another, and by `restart`.
    (
        "leader begin 1\nleader drop 999\nleader begin 1\nleader drop 104\nleader end\n\
        leader begin 2\nleader restart\nleader end\n",
        "begun 1\nheld 1\nbegun 1\nheld 1\nat 1\nbegun 2\nrestarted\nrefused leader\n",
    ),
    // Lines of none of the forms: an open message stays open.
    (
        "leader begin 1\nleader begin\nleader begin 0\nleader begin 01\nleader begin -1\n\
        leader begin 4294967296\nleader begin 1 2\nleader END\nleader end x\nleader restart x\n\
        leader publish\nleader stats\nleader quit\nleader table SEX\nleader drop 104\n\
        leader \t end\t\n",
        "begun 1\nrefused leader\nrefused leader\nrefused leader\nrefused leader\n\
        refused leader\nrefused leader\nrefused leader\nrefused leader\nrefused leader\n\
        refused leader\nrefused leader\nrefused leader\nrefused leader\nheld 1\nat 1\n",
    ),
    // Edits that can't follow, and none.
    (
        "leader begin 1\nleader drop 104\nleader drop 104\nleader end\nleader begin 1\nleader end\n",
        "begun 1\nheld 1\nheld 2\nrefused batch 2 2 NoSuchPerson\n\
        begun 1\nrefused batch 0 5 Nothing\n",
    ),
    // One that waits and can't follow is dropped, and so the next of its number is taken.
    (
        "leader begin 2\nleader drop 999\nleader end\nleader begin 1\nleader drop 104\n\
        leader end\nleader begin 2\nleader drop 103\nleader end\n",
        "begun 2\nheld 1\nkept 0\nbegun 1\nheld 1\nat 1\nbegun 2\nheld 1\nat 2\n",
    ),
    // Of two messages that wait with one number the first stays. Edits of the rules.
    (
        "leader begin 2\nleader threshold 5\nleader end\nleader begin 2\nleader drop 999\n\
        leader end\nleader begin 1\nleader pvalue 1 7 5\nleader threshold 2\nleader end\n",
        "begun 2\nheld 1\nkept 0\nbegun 2\nheld 1\nkept 0\nbegun 1\nheld 1\nheld 2\nat 2\n",
    ),
    // Releases are taken back up to the next one, never given back, and not further.
    (
        "leader begin 1\nleader oldest 2\nleader end\nleader begin 1\nleader drop 104\n\
        leader oldest 1\nleader end\nleader begin 2\nleader oldest 0\nleader end\n\
        leader begin 2\nleader oldest 2\nleader end\na table SEX\n",
        "begun 1\nheld 1\nrefused batch 1 6 BadRelease\nbegun 1\nheld 1\nheld 2\nat 1\n\
        begun 2\nheld 1\nrefused batch 1 6 BadRelease\nbegun 2\nheld 1\nat 2\n\
        release 2\nSEX,count\n1,1\n2,0\n.\n",
    ),
    // Analysts are told what may be asked. It is no line of the leader's, whose open message stays.
    (
        "a describe AGE2\nleader describe\nleader begin 1\nleader describe SEX\n\
        leader drop 104\nleader end\ncustodian describe x\na  describe SEX x\na at 0 describe\n",
        "describe AGE2\ngroup,code\nyoung,0-15\nold,16-64\nold,65+\n.\nrefused leader\n\
        begun 1\nrefused leader\nheld 1\nat 1\nrefused 3 UnknownName 2\nrefused 2 Syntax 3\n\
        refused 2 Syntax 1\n",
    ),
    // Every lane but the leader's is an analyst's, and its lines are queries.
    (
        "custodian publish\ncustodian stats\ncustodian drop 104\na begin 1\nb end\n\
        Leader restart\nLEADER table AREA\ncustodian table SEX\n",
        "refused 2 Syntax 1\nrefused 2 Syntax 1\nrefused 2 Syntax 1\nrefused 2 Syntax 1\n\
        refused 2 Syntax 1\nrefused 2 Syntax 1\nrelease 0\nAREA,count\nE1,2\nE2,1\n.\n\
        release 0\nSEX,count\n1,1\n2,2\n.\n",
    ),
];

fn rows() -> &'static [(&'static str, &'static str)] {
    &ROWS
}

// Runs a script, and returns whether all replies were taken.
fn run_with<L: Ledger, R: Threads + Sync>(
    blank: Blank,
    rt: &R,
    alloc: Global,
    setup: &Setup,
    script: &Script,
    follower: Follower,
    sink: &mut MemSink,
) -> bool
    requires ledger { blank.name ≡ L.name }
    requires parts { blank.parts ≡ L.parts }
    requires some { 0 < L.parts }
    requires shape { follower.chain.shape ≡ shape_of setup.now.schema }
{
    let mut steps = Steps::<L>::new(blank);
    run_follow(rt, alloc, setup, script, follower, sink, &mut steps) == Wrote::All
}

fn run<R: Threads + Sync>(
    rt: &R,
    alloc: Global,
    setup: &Setup,
    script: &Script,
    follower: Follower,
    sink: &mut MemSink,
) -> bool
    requires shape { follower.chain.shape ≡ shape_of setup.now.schema }
{
    run_with::<Brand, R>(Blank::new(1), rt, alloc, setup, script, follower, sink)
}

// Runs a script over a follower at release 0.
fn run_from_base<R: Threads + Sync>(
    rt: &R,
    alloc: Global,
    setup: &Setup,
    script: &Script,
    sink: &mut MemSink,
) -> Result<bool, Memory> {
    let follower = follower(alloc, &setup.schema)?;
    Ok(run(rt, alloc, setup, script, follower, sink))
}

// Whether a sink of so many bytes takes these of a script's replies, and no write fails exactly
// where it could take more.
fn is_taken<R: Threads + Sync + Eprint>(
    rt: &R,
    alloc: Global,
    setup: &Setup,
    script: &Script,
    bound: usize,
    first: &[u8],
) -> Result<bool, Memory> {
    let mut sink = MemSink::new(alloc, bound)?;
    let all = run_from_base(rt, alloc, setup, script, &mut sink)?;
    let same = is_text(rt, sink.taken(), first);
    Ok(all == (first.len() < bound) && same)
}

// Whether a script gets these replies.
fn is_answered<R: Threads + Sync + Eprint>(
    rt: &R,
    alloc: Global,
    setup: &Setup,
    script: &str,
    replies: &str,
) -> Result<bool, Memory> {
    let script = read_script(alloc, script.as_bytes())?;
    is_taken(rt, alloc, setup, &script, 1000, replies.as_bytes())
}

// The place of the first row that is wrong.
fn wrong_row<R: Threads + Sync + Eprint>(
    rt: &R,
    alloc: Global,
    setup: &Setup,
) -> Result<Option<usize>, Memory> {
    for (i, (script, replies)) in rows().iter().enumerate() {
        if !is_answered(rt, alloc, setup, script, replies)? {
            return Ok(Some(i));
        }
    }
    Ok(None)
}

fn wrong_row_over_small<R: Threads + Sync + Eprint>(
    rt: &R,
    alloc: Global,
) -> Result<Option<usize>, Memory> {
    let setup = setup(alloc)?;
    wrong_row(rt, alloc, &setup)
}

#[test]
fn scripts_are_answered(rt: HostRuntime) -> Result<(), Fail> {
    assert_eq!(&rt; wrong_row_over_small(&rt, rt.alloc())?, None);
    Ok(())
}

// A script whose replies are cut: of the leader's, and of an analyst's table.
const CUT: &[u8] = b"leader begin 1\nleader drop 104\nleader end\na table SEX\nleader begin 2\n";

const REPLIES: &[u8] = b"begun 1\nheld 1\nat 1\nrelease 1\nSEX,count\n1,1\n2,0\n.\nbegun 2\n";

// The least number of bytes for which a sink that takes no more doesn't get so many of the replies.
fn wrong_cut<R: Threads + Sync + Eprint>(
    rt: &R,
    alloc: Global,
    setup: &Setup,
    script: &Script,
) -> Result<Option<usize>, Memory> {
    for bound in 0..REPLIES.len() {
        if !is_taken(rt, alloc, setup, script, bound, &REPLIES[..bound])? {
            return Ok(Some(bound));
        }
    }
    Ok(None)
}

fn wrong_cut_over<R: Threads + Sync + Eprint>(
    rt: &R,
    alloc: Global,
    setup: &Setup,
) -> Result<Option<usize>, Memory> {
    let script = read_script(alloc, CUT)?;
    wrong_cut(rt, alloc, setup, &script)
}

fn wrong_cut_over_small<R: Threads + Sync + Eprint>(
    rt: &R,
    alloc: Global,
) -> Result<Option<usize>, Memory> {
    let setup = setup(alloc)?;
    wrong_cut_over(rt, alloc, &setup)
}

#[test]
fn replies_may_be_cut_anywhere(rt: HostRuntime) -> Result<(), Fail> {
    assert_eq!(&rt; wrong_cut_over_small(&rt, rt.alloc())?, None);
    Ok(())
}
