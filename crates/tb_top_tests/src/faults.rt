// Readings that fail, and sinks that take no more.

use super::running::{Run, WITH_RECODES, WITH_UNITS, WITHOUT_RECODES, is_so};
use std::alloc::Global;
use std::sync::Wait;
use std::test::Fail;
use std::thread::Threads;
use tb_base::Memory;

// The readings that fail, the files with other bytes, the number of the status, and the text: the
// classification and the recodes are both read before either is checked, and each other file is
// checked before the next is read.
type Readings = (
    &'static [u32],
    &'static [(&'static str, &'static [u8])],
    u8,
    &'static [u8],
);

static READINGS: [Readings; 7] = [
    (&[1], &[], 7, b"fault read classes\n"),
    (&[2], &[], 7, b"fault read recodes\n"),
    (&[3], &[], 7, b"fault read ptable\n"),
    (&[4], &[], 7, b"fault read people\n"),
    (&[5], &[], 7, b"fault read script\n"),
    (
        &[2],
        &[("classes", b""), ("recodes", b"")],
        7,
        b"fault read recodes\n",
    ),
    (
        &[3],
        &[("recodes", b""), ("ptable", b"")],
        3,
        b"fault recodes 1 BadHeader 0\n",
    ),
];

// The same of a run with dwellings: these and the links are read between the microdata and the
// script, both before either is checked.
static UNITS_READINGS: [Readings; 8] = [
    (&[5], &[], 7, b"fault read dwellings\n"),
    (&[6], &[], 7, b"fault read links\n"),
    (&[7], &[], 7, b"fault read script\n"),
    (
        &[6],
        &[("dwellings", b""), ("links", b"")],
        7,
        b"fault read links\n",
    ),
    (
        &[5],
        &[("people", b""), ("dwellings", b"")],
        5,
        b"fault people 1 BadHeader 0\n",
    ),
    (
        &[7],
        &[("dwellings", b""), ("links", b"")],
        13,
        b"fault dwellings 1 BadHeader 0\n",
    ),
    (&[7], &[("links", b"")], 13, b"fault links 1 BadHeader 0\n"),
    (&[8], &[("script", b"!x\n")], 6, b"fault script 1\n"),
];

// The arguments, how many bytes the sink takes, and these bytes.
type Cut = (&'static str, usize, &'static [u8]);

static CUTS: [Cut; 6] = [
    ("", 0, b""),
    ("", 5, b"fault"),
    (WITHOUT_RECODES, 0, b""),
    (WITHOUT_RECODES, 12, b"release 0\nSE"),
    (
        "follow classes - ptable people 0 script",
        12,
        b"release 0\nSE",
    ),
    (WITH_UNITS, 12, b"release 0\nSE"),
];

fn readings() -> &'static [Readings] {
    &READINGS
}

fn units_readings() -> &'static [Readings] {
    &UNITS_READINGS
}

fn cuts() -> &'static [Cut] {
    &CUTS
}

// The place of the first row of which a run with these arguments isn't so.
fn wrong_reading(
    rt: &(impl Threads + Wait + Sync + Eprint),
    alloc: Global,
    arguments: &str,
    rows: &[Readings],
) -> Result<Option<usize>, Memory> {
    for (i, (fails, others, status, text)) in rows.iter().enumerate() {
        let run = Run {
            arguments,
            others,
            fails,
            bound: 200,
            status: *status,
            text,
        };
        if !is_so(rt, alloc, &run)? {
            return Ok(Some(i));
        }
    }
    Ok(None)
}

#[test]
fn readings_that_fail(rt: HostRuntime) -> Result<(), Fail> {
    let alloc = rt.alloc();
    assert_eq!(rt; wrong_reading(&rt, alloc, WITH_RECODES, readings())?, None);
    assert_eq!(rt;
        wrong_reading(&rt, alloc, WITH_UNITS, units_readings())?,
        None
    );
    Ok(())
}

// The worked table of SEX.
const TABLE: &[u8] = b"release 0\nSEX,count\n1,1\n2,2\n.\n";

#[test]
fn sinks_of_each_bound(rt: HostRuntime) -> Result<(), Fail> {
    for bound in 0..=TABLE.len() {
        let run = Run {
            arguments: WITHOUT_RECODES,
            others: &[],
            fails: &[],
            bound,
            status: if bound < TABLE.len() { 8 } else { 0 },
            text: &TABLE[..bound],
        };
        assert!(rt; is_so(&rt, rt.alloc(), &run)?, "{bound}");
    }
    Ok(())
}

#[test]
fn sinks_that_fail(rt: HostRuntime) -> Result<(), Fail> {
    for (arguments, bound, text) in cuts() {
        let run = Run {
            arguments,
            others: &[],
            fails: &[],
            bound: *bound,
            status: 8,
            text,
        };
        assert!(rt; is_so(&rt, rt.alloc(), &run)?, "{arguments}: {bound}");
    }
    Ok(())
}

fn line_feeds(alloc: Global, n: usize) -> Result<Vec<u8>, Memory> {
    let mut bytes = Vec::new(alloc);
    bytes.resize(n, b'\n')?;
    Ok(bytes)
}

// Whether a run over a script of so many empty lines has this status, and writes this text.
fn ends_so(
    rt: &(impl Threads + Wait + Sync + Eprint),
    alloc: Global,
    lines: usize,
    status: u8,
    text: &[u8],
) -> Result<bool, Memory> {
    let script = line_feeds(alloc, lines)?;
    let run = Run {
        arguments: WITHOUT_RECODES,
        others: &[("script", &script)],
        fails: &[],
        bound: 200,
        status,
        text,
    };
    is_so(rt, alloc, &run)
}

#[test]
fn longest_script(rt: HostRuntime) -> Result<(), Fail> {
    assert!(rt; ends_so(&rt, rt.alloc(), 16_777_216, 0, b"")?);
    assert!(rt; ends_so(&rt, rt.alloc(), 16_777_217, 6, b"fault script TooLong\n")?);
    Ok(())
}
