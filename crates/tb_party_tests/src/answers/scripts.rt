// Worked scripts over the small setup.

ghost use Rattle.std.specs.Prelude.{◌≡◌, ◌<◌};
ghost use Rattle.tb_model.specs.Schemas.{shape_of};

use std::alloc::Global;
use std::marker::Brand;
use std::sync::Wait;
use std::sync::ledger::{Blank, Ledger};
use std::test::Fail;
use std::thread::Threads;
use tb_base::{Memory, Steps};
use tb_board::{Board, Named, Opening};
use tb_comparison::is_text;
use tb_io::MemSink;
use tb_script::{RunEnd, Script, run_script};
use tb_small_boards::{opening, read_script};
use tb_small_values::setup;
use tb_text::Setup;

// What a script shows, the script, and its replies.
struct Row {
    name: &'static str,
    script: &'static [u8],
    replies: &'static [u8],
}

static ROWS: [Row; 10] = [
    Row {
        name: "cache_and_price",
        script: b"custodian cache 1\na table SEX\na table AREA\na table AREA\ncustodian drop 104\n\
            custodian publish\na table AREA\na table SEX\ncustodian stats\ncustodian clear\n\
            custodian stats\n",
        replies: b"cache 1\nrelease 0\nSEX,count\n1,1\n2,2\n.\nrelease 0\nAREA,count\nE1,2\n\
            E2,1\n.\nrelease 0\nAREA,count\nE1,2\nE2,1\n.\nheld 1\npublished 1\nrelease 1\n\
            AREA,count\nE1,2\nE2,1\n.\nrelease 1\nSEX,count\n1,1\n2,0\n.\n\
            stats release 1 looks 5 hits 2 entries 1 capacity 1\ncleared\n\
            stats release 1 looks 5 hits 2 entries 0 capacity 1\n",
    },
    Row {
        name: "edit_refusals",
        script: b"a publish\ncustodian add 300 1 SEX=1\ncustodian amend 101 AGE=7\n\
            custodian drop 4294967296\n",
        replies: b"refused 2 Syntax 1\nrefused edit 6 Missing\nrefused edit 4 UnknownCode\n\
            refused edit 2 BadNumber\n",
    },
    // Each reply needs memory for more than one call: to open the board, to take, to build, to hold
    // an edit, to publish and to let more cubes be kept.
    Row {
        name: "ample_memory_is_enough",
        script: b"a table SEX\ncustodian drop 104\ncustodian publish\ncustodian cache 2\n\
            custodian table SEX\n",
        replies: b"release 0\nSEX,count\n1,1\n2,2\n.\nheld 1\npublished 1\ncache 2\nrelease 1\n\
            SEX,count\n1,1\n2,0\n.\n",
    },
    Row {
        name: "past_releases",
        script: b"custodian drop 104\ncustodian publish\na at 0 table SEX\na at 1 table SEX\n\
            a at 2 table SEX\na at x table SEX\na at 0 table FOO\n",
        replies: b"held 1\npublished 1\nrelease 0\nSEX,count\n1,1\n2,2\n.\nrelease 1\nSEX,count\n\
            1,1\n2,0\n.\nrefused 10 NoSuchRelease 1\nrefused 2 Syntax 1\nrefused 3 UnknownName 2\n",
    },
    // A number may have leading zeros; without a query, with a comment or another `at` behind it,
    // or with a bracket at its end, it is no query. A look counts, also where the number is too
    // large, and not where the query has a fault.
    Row {
        name: "past_lines",
        script: b"custodian  at\t007 table SEX\na at 00 table SEX\na at 0\na at 0 #x\n\
            a at 0 at 0 table SEX\na at 0table SEX\na at\ncustodian at 4294967296 table SEX\n\
            custodian stats\n",
        replies: b"refused 10 NoSuchRelease 0\nrelease 0\nSEX,count\n1,1\n2,2\n.\n\
            refused 2 Syntax 1\nrefused 2 Syntax 1\nrefused 2 Syntax 1\nrefused 2 Syntax 1\n\
            refused 2 Syntax 1\nrefused 2 Syntax 1\n\
            stats release 0 looks 2 hits 0 entries 1 capacity 64\n",
    },
    // What a threshold came too late for is taken back; what was printed is another matter.
    Row {
        name: "releases_taken_back",
        script: b"custodian threshold 2\ncustodian publish\na at 0 table SEX\ncustodian oldest 1\n\
            custodian publish\na at 0 table SEX\na at 1 table SEX\ncustodian oldest 0\n\
            custodian publish\ncustodian oldest 9\ncustodian publish\n",
        replies: b"held 1\npublished 1\nrelease 0\nSEX,count\n1,1\n2,2\n.\nheld 1\npublished 2\n\
            refused 11 Withdrawn 1\nrelease 1\nSEX,count\n1,c\n2,2\n.\n\
            held 1\nrefused batch 1 6 BadRelease\nheld 1\nrefused batch 1 6 BadRelease\n",
    },
    // Each edit goes by those before it in its batch. The faults of the query come first, then that
    // there is no such release; whoever asks is refused, and whatever it has seen; the look counts,
    // and no cube is made.
    Row {
        name: "taken_back_among_other_edits",
        script: b"a at 0 table SEX\ncustodian drop 104\ncustodian oldest 1\ncustodian oldest 0\n\
            custodian publish\ncustodian at 0 table SEX\ncustodian oldest 1\n\
            custodian drop 104\ncustodian oldest 1\ncustodian publish\na at 0 table SEX\n\
            b at 0 table SEX\ncustodian at 0 table SEX\na at 0 table FOO\na at 2 table SEX\n\
            a at 1 table SEX\ncustodian stats\n",
        replies: b"release 0\nSEX,count\n1,1\n2,2\n.\nheld 1\nheld 2\nheld 3\n\
            refused batch 3 6 BadRelease\nrelease 0\nSEX,count\n1,1\n2,2\n.\n\
            held 1\nheld 2\nheld 3\npublished 1\nrefused 11 Withdrawn 1\n\
            refused 11 Withdrawn 1\nrefused 11 Withdrawn 1\nrefused 3 UnknownName 2\n\
            refused 10 NoSuchRelease 1\nrelease 1\nSEX,count\n1,1\n2,0\n.\n\
            stats release 1 looks 7 hits 6 entries 1 capacity 64\n",
    },
    // All up to the next release may be, and none beyond it; and the first edit that can't be made
    // tells why.
    Row {
        name: "taken_back_to_the_next_release",
        script: b"custodian oldest 2\ncustodian drop 999\ncustodian publish\n\
            custodian drop 999\ncustodian oldest 2\ncustodian publish\ncustodian oldest 0\n\
            custodian publish\ncustodian oldest 2\ncustodian publish\na at 1 table SEX\n\
            a table SEX\na at 2 table SEX\n",
        replies: b"held 1\nheld 2\nrefused batch 1 6 BadRelease\nheld 1\nheld 2\n\
            refused batch 1 2 NoSuchPerson\nheld 1\npublished 1\nheld 1\npublished 2\n\
            refused 11 Withdrawn 2\nrelease 2\nSEX,count\n1,1\n2,2\n.\n\
            release 2\nSEX,count\n1,1\n2,2\n.\n",
    },
    Row {
        name: "what_can_be_asked",
        script: b"a describe\na describe SEX\na describe NOSUCH\na describe SEX x\n",
        replies: b"describe\nname,kind,categories\nSEX,variable,2\nAGE,variable,3\n\
            AREA,variable,2\nAGE2,recode of AGE,2\n.\ndescribe SEX\ncode,label\n1,Male\n\
            2,Female\n.\nrefused 3 UnknownName 2\nrefused 2 Syntax 3\n",
    },
    // The custodian asks so too; blanks alone part the words. It is no query, so it isn't asked of
    // another release; and no cube is looked for, and what is held stays.
    Row {
        name: "descriptions_among_other_lines",
        script: b"custodian drop 104\ncustodian \tdescribe  AGE2\t\na describe AREA\n\
            custodian describe SEX x y\ncustodian publish\na at 0 describe\n\
            custodian at 1 describe SEX\na Describe\na describes\na describe,SEX\n\
            a describe (SEX)\ncustodian stats\n",
        replies: b"held 1\ndescribe AGE2\ngroup,code\nyoung,0-15\nold,16-64\nold,65+\n.\n\
            describe AREA\ncode,label\nE1,\"North, rural\"\nE2,South\n.\nrefused 2 Syntax 3\n\
            published 1\nrefused 2 Syntax 1\nrefused 2 Syntax 1\nrefused 2 Syntax 1\n\
            refused 2 Syntax 1\nrefused 2 Syntax 1\nrefused 3 UnknownName 2\n\
            stats release 1 looks 0 hits 0 entries 0 capacity 64\n",
    },
];

fn rows() -> &'static [Row] {
    &ROWS
}

// Runs a script, and returns whether all replies were taken.
fn run_with<L: Ledger, B: Named, R: Threads + Wait + Sync>(
    blank: Blank,
    rt: &R,
    alloc: Global,
    setup: &Setup,
    opening: Opening,
    script: &Script,
    sink: &mut MemSink,
) -> bool
    requires ledger { blank.name ≡ L.name }
    requires parts { blank.parts ≡ L.parts }
    requires some { 0 < L.parts }
    requires name { opening.name ≡ B.name }
    requires shape { opening.start.shape ≡ shape_of setup.now.schema }
{
    let mut steps = Steps::<L>::new(blank);
    let (board, custodian) = Board::<B>::new(opening);
    let end = run_script(
        setup, &board, rt, alloc, script, custodian, sink, &mut steps,
    );
    end == RunEnd::Done
}

fn run<B: Named, R: Threads + Wait + Sync>(
    rt: &R,
    alloc: Global,
    setup: &Setup,
    opening: Opening,
    script: &Script,
    sink: &mut MemSink,
) -> bool
    requires name { opening.name ≡ B.name }
    requires shape { opening.start.shape ≡ shape_of setup.now.schema }
{
    run_with::<Brand, B, R>(Blank::new(1), rt, alloc, setup, opening, script, sink)
}

// The replies to a script over a new board.
fn replies_to<R: Threads + Wait + Sync>(
    rt: &R,
    alloc: Global,
    setup: &Setup,
    script: &Script,
    sink: &mut MemSink,
) -> Result<bool, Memory> {
    let opening = opening(alloc, setup)?;
    Ok(run::<Brand, R>(rt, alloc, setup, opening, script, sink))
}

// Whether these are the replies to a script.
fn answers<R: Threads + Wait + Sync + Eprint>(
    rt: &R,
    alloc: Global,
    setup: &Setup,
    script: &Script,
    replies: &[u8],
) -> Result<bool, Memory> {
    let mut sink = MemSink::new(alloc, 700)?;
    let done = replies_to(rt, alloc, setup, script, &mut sink)?;
    Ok(is_text(rt, sink.taken(), replies) && done)
}

fn is_so<R: Threads + Wait + Sync + Eprint>(
    rt: &R,
    alloc: Global,
    setup: &Setup,
    row: &Row,
) -> Result<bool, Memory> {
    let script = read_script(alloc, row.script)?;
    answers(rt, alloc, setup, &script, row.replies)
}

// The place of the first row of which it isn't.
fn wrong_row<R: Threads + Wait + Sync + Eprint>(
    rt: &R,
    alloc: Global,
    setup: &Setup,
) -> Result<Option<usize>, Memory> {
    for (i, row) in rows().iter().enumerate() {
        if !is_so(rt, alloc, setup, row)? {
            return Ok(Some(i));
        }
    }
    Ok(None)
}

fn wrong_row_over_small<R: Threads + Wait + Sync + Eprint>(
    rt: &R,
    alloc: Global,
) -> Result<Option<usize>, Memory> {
    let setup = setup(alloc)?;
    wrong_row(rt, alloc, &setup)
}

#[test]
fn worked_scripts(rt: HostRuntime) -> Result<(), Fail> {
    assert_eq!(&rt; wrong_row_over_small(&rt, rt.alloc())?, None);
    Ok(())
}
