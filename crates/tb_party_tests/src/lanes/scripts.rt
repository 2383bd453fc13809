// Worked scripts, and a sink that fails.

use super::making::run;
use std::alloc::Global;
use std::sync::Wait;
use std::test::Fail;
use std::thread::Threads;
use tb_base::Memory;
use tb_comparison::{is_either_text, is_text};
use tb_io::{MemSink, SureSink};
use tb_script::RunEnd;
use tb_small_values::setup;
use tb_text::Setup;

// What a script shows, the script, and what is written.
struct Row {
    name: &'static str,
    script: &'static [u8],
    text: &'static [u8],
}

static ROWS: [Row; 9] = [
    Row {
        name: "no_line_at_all",
        script: b"",
        text: b"phase 1\n",
    },
    Row {
        name: "phases_without_a_custodian",
        script: b"a table SEX\nb table AREA\n--\nb table SEX\n",
        text: b"phase 1\nlane a\nrelease 0\nSEX,count\n1,1\n2,2\n.\nlane b\nrelease 0\n\
            AREA,count\nE1,2\nE2,1\n.\nphase 2\nlane b\nrelease 0\nSEX,count\n1,1\n2,2\n.\n",
    },
    // The edit is held from one phase to the next, and a lane without a line there learns of the
    // publication too.
    Row {
        name: "held_edits_go_on",
        script: b"custodian drop 104\n--\ncustodian publish\n--\na table SEX\n",
        text: b"phase 1\nlane custodian\nheld 1\nphase 2\nlane custodian\npublished 1\nphase 3\n\
            lane a\nrelease 1\nSEX,count\n1,1\n2,0\n.\n",
    },
    Row {
        name: "empty_phases",
        script: b"--\na table SEX\n--\n",
        text: b"phase 1\nphase 2\nlane a\nrelease 0\nSEX,count\n1,1\n2,2\n.\nphase 3\n",
    },
    Row {
        name: "comments_alone",
        script: b"a # nothing is asked\nb publish\n",
        text: b"phase 1\nlane a\nlane b\nrefused 2 Syntax 1\n",
    },
    Row {
        name: "what_may_be_asked",
        script: b"custodian drop 104\na describe SEX\n--\ncustodian describe SEX\n",
        text: b"phase 1\nlane custodian\nheld 1\nlane a\ndescribe SEX\ncode,label\n1,Male\n2,Female\n.\n\
            phase 2\nlane custodian\ndescribe SEX\ncode,label\n1,Male\n2,Female\n.\n",
    },
    Row {
        name: "order_of_first_appearance",
        script: b"b publish\n--\na publish\nb publish\n",
        text: b"phase 1\nlane b\nrefused 2 Syntax 1\nphase 2\nlane b\nrefused 2 Syntax 1\n\
            lane a\nrefused 2 Syntax 1\n",
    },
    // Beside a publication or after it, a table of an earlier release is the same.
    Row {
        name: "past_beside_a_publication",
        script: b"custodian drop 104\ncustodian publish\na at 0 table SEX\nb at 0 table SEX\n--\n\
            a at 1 table SEX\nb at 0 table SEX\nb at 2 table SEX\ncustodian at 0 table SEX\n",
        text: b"phase 1\nlane custodian\nheld 1\npublished 1\nlane a\nrelease 0\nSEX,count\n1,1\n\
            2,2\n.\nlane b\nrelease 0\nSEX,count\n1,1\n2,2\n.\nphase 2\nlane custodian\n\
            release 0\nSEX,count\n1,1\n2,2\n.\nlane a\nrelease 1\nSEX,count\n1,1\n2,0\n.\n\
            lane b\nrelease 0\nSEX,count\n1,1\n2,2\n.\nrefused 10 NoSuchRelease 1\n",
    },
    // A lane that was answered before, and one that wasn't.
    Row {
        name: "taken_back",
        script: b"a at 0 table SEX\n--\ncustodian oldest 1\ncustodian publish\n--\n\
            a at 0 table SEX\nb at 0 table SEX\nb at 1 table SEX\n",
        text: b"phase 1\nlane a\nrelease 0\nSEX,count\n1,1\n2,2\n.\nphase 2\nlane custodian\n\
            held 1\npublished 1\nphase 3\nlane a\nrefused 11 Withdrawn 1\nlane b\n\
            refused 11 Withdrawn 1\nrelease 1\nSEX,count\n1,1\n2,2\n.\n",
    },
];

fn rows() -> &'static [Row] {
    &ROWS
}

// Whether a script's run writes one of two texts.
pub fn writes<R: Threads + Wait + Sync + Eprint>(
    rt: &R,
    alloc: Global,
    setup: &Setup,
    script: &[u8],
    one: &[u8],
    other: &[u8],
) -> Result<bool, Memory> {
    let mut sink = SureSink::new(alloc);
    let end = run(rt, alloc, setup, script, &mut sink)?;
    let text = sink.text()?;
    Ok(is_either_text(rt, text, one, other) && end == RunEnd::Done)
}

// The first row that isn't so.
fn first_wrong<R: Threads + Wait + Sync + Eprint>(
    rt: &R,
    alloc: Global,
    setup: &Setup,
) -> Result<&'static str, Memory> {
    for row in rows() {
        if !writes(rt, alloc, setup, row.script, row.text, row.text)? {
            return Ok(row.name);
        }
    }
    Ok("none")
}

fn first_wrong_over_small<R: Threads + Wait + Sync + Eprint>(
    rt: &R,
    alloc: Global,
) -> Result<&'static str, Memory> {
    let setup = setup(alloc)?;
    first_wrong(rt, alloc, &setup)
}

#[test]
fn worked_scripts(rt: HostRuntime) -> Result<(), Fail> {
    assert_eq!(&rt; first_wrong_over_small(&rt, rt.alloc())?, "none");
    Ok(())
}

const BESIDE: &[u8] = b"custodian drop 104\ncustodian publish\nana table SEX\n--\nana table SEX\n";

const BEFORE: &[u8] =
    b"phase 1\nlane custodian\nheld 1\npublished 1\nlane ana\nrelease 0\nSEX,count\n\
    1,1\n2,2\n.\nphase 2\nlane ana\nrelease 1\nSEX,count\n1,1\n2,0\n.\n";

const AFTER: &[u8] =
    b"phase 1\nlane custodian\nheld 1\npublished 1\nlane ana\nrelease 1\nSEX,count\n\
    1,1\n2,0\n.\nphase 2\nlane ana\nrelease 1\nSEX,count\n1,1\n2,0\n.\n";

// Who asks beside a publication sees the release before it or after it; who asks in the next phase
// sees the one after it.
fn writes_over_small<R: Threads + Wait + Sync + Eprint>(
    rt: &R,
    alloc: Global,
) -> Result<bool, Memory> {
    let setup = setup(alloc)?;
    writes(rt, alloc, &setup, BESIDE, BEFORE, AFTER)
}

#[test]
fn ample_memory_is_enough(rt: HostRuntime) -> Result<(), Fail> {
    assert!(&rt; writes_over_small(&rt, rt.alloc())?);
    Ok(())
}

// How a script's run ends in a sink of ten bytes, and whether it took these.
fn is_cut<R: Threads + Wait + Sync + Eprint>(
    rt: &R,
    alloc: Global,
    setup: &Setup,
    script: &[u8],
    want: &[u8],
) -> Result<bool, Memory> {
    let mut ten = MemSink::new(alloc, 10)?;
    let end = run(rt, alloc, setup, script, &mut ten)?;
    Ok(is_text(rt, ten.taken(), want) && end == RunEnd::WriteFault)
}

fn is_cut_over_small<R: Threads + Wait + Sync + Eprint>(
    rt: &R,
    alloc: Global,
) -> Result<bool, Memory> {
    let setup = setup(alloc)?;
    is_cut(rt, alloc, &setup, b"a publish\n", b"phase 1\nla")
}

#[test]
fn a_sink_fails(rt: HostRuntime) -> Result<(), Fail> {
    assert!(&rt; is_cut_over_small(&rt, rt.alloc())?);
    Ok(())
}
