// Sessions over sources and sinks in memory, by how they end and what was taken.

use super::talking::{one_session, two_sessions};
use std::alloc::Global;
use std::sync::Wait;
use std::test::Fail;
use std::thread::Threads;
use tb_base::Memory;
use tb_comparison::is_text;
use tb_io::{MOST_LINE_BYTES, MemSink, MemSource};
use tb_session::SessionEnd;
use tb_small_values::setup;
use tb_text::Setup;

/// A session: the bytes, the most bytes of a read, the reads that fail, and how many bytes the sink
/// takes; then how it ends, and what the sink took.
pub struct Talk {
    pub name: &'static str,
    pub bytes: &'static [u8],
    pub most: usize,
    pub fails: &'static [u32],
    pub bound: usize,
    pub end: SessionEnd,
    pub text: &'static [u8],
}

/// The table SEX at release 0.
pub const TABLE: &[u8] = b"release 0\nSEX,count\n1,1\n2,2\n.\n";

static TALKS: [Talk; 15] = [
    Talk {
        name: "bytes one at a time, and a last line without line feed",
        bytes: b"table SEX\ntable AREA",
        most: 1,
        fails: &[],
        bound: 100,
        end: SessionEnd::Ended,
        text: b"release 0\nSEX,count\n1,1\n2,2\n.\nrelease 0\nAREA,count\nE1,2\nE2,1\n.\n",
    },
    Talk {
        name: "a sink that takes 39 bytes",
        bytes: b"table SEX\ntable AREA",
        most: 1,
        fails: &[],
        bound: 39,
        end: SessionEnd::WriteFault,
        text: b"release 0\nSEX,count\n1,1\n2,2\n.\nrelease 0",
    },
    Talk {
        name: "the third read fails",
        bytes: b"table SEX\ntable AREA\n",
        most: 10,
        fails: &[3],
        bound: 100,
        end: SessionEnd::ReadFault,
        text: TABLE,
    },
    Talk {
        name: "a read after the end, which would be the third and fail",
        bytes: b"table SEX",
        most: 10,
        fails: &[3],
        bound: 100,
        end: SessionEnd::Ended,
        text: TABLE,
    },
    Talk {
        name: "a read fails after a last line without line feed",
        bytes: b"table SEX",
        most: 10,
        fails: &[2],
        bound: 100,
        end: SessionEnd::ReadFault,
        text: b"",
    },
    Talk {
        name: "the first read fails",
        bytes: b"table SEX\n",
        most: 10,
        fails: &[1],
        bound: 100,
        end: SessionEnd::ReadFault,
        text: b"",
    },
    Talk {
        name: "a zero byte",
        bytes: b"table SEX\0\n",
        most: 10,
        fails: &[],
        bound: 100,
        end: SessionEnd::Ended,
        text: b"refused 1 NotText 10\n",
    },
    Talk {
        name: "a last line with a carriage return alone",
        bytes: b"table SEX\r",
        most: 10,
        fails: &[],
        bound: 100,
        end: SessionEnd::Ended,
        text: TABLE,
    },
    Talk {
        name: "quit with blanks round it, and a line after it",
        bytes: b"# none\n\t\n  quit \r\ntable SEX\n",
        most: 10,
        fails: &[],
        bound: 100,
        end: SessionEnd::Ended,
        text: b"",
    },
    Talk {
        name: "quit and another word",
        bytes: b"quit x\ntable SEX\n",
        most: 10,
        fails: &[],
        bound: 100,
        end: SessionEnd::Ended,
        text: b"refused 2 Syntax 1\nrelease 0\nSEX,count\n1,1\n2,2\n.\n",
    },
    Talk {
        name: "what may be asked, with a carriage return, and a byte that is no text",
        bytes: b"describe SEX\r\nat 0 describe\ndescribe SEX\xFF x\n",
        most: 5,
        fails: &[],
        bound: 100,
        end: SessionEnd::Ended,
        text: b"describe SEX\ncode,label\n1,Male\n2,Female\n.\nrefused 2 Syntax 1\n\
            refused 1 NotText 13\n",
    },
    Talk {
        name: "a table after a publication",
        bytes: b"drop 104\npublish\r\ntable SEX\n",
        most: 7,
        fails: &[],
        bound: 100,
        end: SessionEnd::Ended,
        text: b"held 1\npublished 1\nrelease 1\nSEX,count\n1,1\n2,0\n.\n",
    },
    Talk {
        name: "tables on both sides of a publication of a threshold alone",
        bytes: b"table SEX\nthreshold 2\ntable SEX\npublish\ntable SEX\n",
        most: 7,
        fails: &[],
        bound: 130,
        end: SessionEnd::Ended,
        text: b"release 0\nSEX,count\n1,1\n2,2\n.\nheld 1\nrelease 0\nSEX,count\n1,1\n2,2\n.\n\
            published 1\nrelease 1\nSEX,count\n1,c\n2,2\n.\n",
    },
    Talk {
        name: "a publication whose reply is cut",
        bytes: b"drop 104\npublish\ntable SEX\n",
        most: 100,
        fails: &[],
        bound: 9,
        end: SessionEnd::WriteFault,
        text: b"held 1\npu",
    },
    Talk {
        name: "no bytes",
        bytes: b"",
        most: 1,
        fails: &[],
        bound: 0,
        end: SessionEnd::Ended,
        text: b"",
    },
];

fn talks() -> &'static [Talk] {
    &TALKS
}

// Whether a session ends so, and its sink took this.
fn ends_so<R: Threads + Wait + Sync + Eprint>(
    rt: &R,
    alloc: Global,
    setup: &Setup,
    source: &mut MemSource,
    bound: usize,
    end: SessionEnd,
    text: &[u8],
) -> Result<bool, Memory> {
    let mut sink = MemSink::new(alloc, bound)?;
    let ended = one_session(rt, alloc, setup, source, &mut sink)?;
    Ok(is_text(rt, sink.taken(), text) && ended == end)
}

fn is_so<R: Threads + Wait + Sync + Eprint>(
    rt: &R,
    alloc: Global,
    setup: &Setup,
    row: &Talk,
) -> Result<bool, Memory> {
    let most = row.most.max(1);
    let mut source = MemSource::new(alloc, row.bytes, most, row.fails)?;
    ends_so(rt, alloc, setup, &mut source, row.bound, row.end, row.text)
}

// The place of the first row of which it isn't.
fn wrong_talk<R: Threads + Wait + Sync + Eprint>(
    rt: &R,
    alloc: Global,
    setup: &Setup,
    talks: &'static [Talk],
) -> Result<Option<usize>, Memory> {
    for (i, row) in talks.iter().enumerate() {
        if !is_so(rt, alloc, setup, row)? {
            return Ok(Some(i));
        }
    }
    Ok(None)
}

/// The place of the first of these talks over the small setup that goes otherwise.
pub fn wrong_talk_over_small<R: Threads + Wait + Sync + Eprint>(
    rt: &R,
    alloc: Global,
    talks: &'static [Talk],
) -> Result<Option<usize>, Memory> {
    let setup = setup(alloc)?;
    wrong_talk(rt, alloc, &setup, talks)
}

#[test]
fn bytes_one_at_a_time(rt: HostRuntime) -> Result<(), Fail> {
    assert_eq!(&rt; wrong_talk_over_small(&rt, rt.alloc(), talks())?, None);
    Ok(())
}

// A line, `quit`, and bytes after it.
const BEFORE: usize = 15;

const ALL: usize = 10_000;

// At most as many bytes more are taken as a line reader may have read ahead.
const LEFT: usize = ALL - BEFORE - (MOST_LINE_BYTES + 1);

fn more_after_quit(alloc: Global) -> Result<MemSource, Memory> {
    let mut bytes = vec![in alloc; b'#'; ALL]?;
    bytes[..BEFORE].copy_from_slice(b"table SEX\nquit\n");
    MemSource::new(alloc, bytes.as_slice(), ALL, &[])
}

// Whether a session ends by `quit`, and that much is left.
fn leaves_the_rest<R: Threads + Wait + Sync + Eprint>(
    rt: &R,
    alloc: Global,
    setup: &Setup,
    source: &mut MemSource,
) -> Result<bool, Memory> {
    let so = ends_so(rt, alloc, setup, source, 100, SessionEnd::Ended, TABLE)?;
    Ok(so && source.left().len() >= LEFT)
}

fn leaves_the_rest_over_small<R: Threads + Wait + Sync + Eprint>(
    rt: &R,
    alloc: Global,
) -> Result<bool, Memory> {
    let setup = setup(alloc)?;
    let mut source = more_after_quit(alloc)?;
    leaves_the_rest(rt, alloc, &setup, &mut source)
}

#[test]
fn little_is_read_after_quit(rt: HostRuntime) -> Result<(), Fail> {
    assert!(rt; leaves_the_rest_over_small(&rt, rt.alloc())?);
    Ok(())
}

// How the second of two sessions ends, of which the first could write but a part of its reply to
// `publish`.
fn after_a_cut<R: Threads + Wait + Sync>(
    rt: &R,
    alloc: Global,
    setup: &Setup,
    next: &mut MemSource,
    next_sink: &mut MemSink,
) -> Result<SessionEnd, Memory> {
    let mut source = MemSource::new(alloc, b"drop 104\npublish\n", 100, &[])?;
    let mut sink = MemSink::new(alloc, 9)?;
    two_sessions(rt, alloc, setup, &mut source, &mut sink, next, next_sink)
}

// Whether the second prints a table of the release that the first published.
fn batch_stands<R: Threads + Wait + Sync + Eprint>(
    rt: &R,
    alloc: Global,
    setup: &Setup,
) -> Result<bool, Memory> {
    let mut next = MemSource::new(alloc, b"table SEX", 100, &[])?;
    let mut sink = MemSink::new(alloc, 100)?;
    let end = after_a_cut(rt, alloc, setup, &mut next, &mut sink)?;
    let text = b"release 1\nSEX,count\n1,1\n2,0\n.\n";
    Ok(is_text(rt, sink.taken(), text) && end == SessionEnd::Ended)
}

fn batch_stands_over_small<R: Threads + Wait + Sync + Eprint>(
    rt: &R,
    alloc: Global,
) -> Result<bool, Memory> {
    let setup = setup(alloc)?;
    batch_stands(rt, alloc, &setup)
}

#[test]
fn a_batch_stands_whose_reply_is_cut(rt: HostRuntime) -> Result<(), Fail> {
    assert!(rt; batch_stands_over_small(&rt, rt.alloc())?);
    Ok(())
}
