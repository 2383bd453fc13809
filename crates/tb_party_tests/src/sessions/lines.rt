// The longest line, and the most lines.

use super::talking::one_session;
use std::alloc::Global;
use std::sync::Wait;
use std::test::Fail;
use std::thread::Threads;
use tb_base::Memory;
use tb_comparison::is_text;
use tb_io::{MemSink, SureSource};
use tb_session::SessionEnd;
use tb_small_values::setup;
use tb_text::Setup;

// A session over `begin`, then `times` times `piece`, then `end`; how many bytes the sink takes;
// how it ends, and what the sink took.
struct LongStream {
    name: &'static str,
    begin: &'static [u8],
    piece: &'static [u8],
    times: usize,
    end: &'static [u8],
    bound: usize,
    ended: SessionEnd,
    text: &'static [u8],
}

static STREAMS: [LongStream; 10] = [
    LongStream {
        name: "4,096 bytes",
        begin: b"table SEX",
        piece: b" ",
        times: 4087,
        end: b"\n",
        bound: 100,
        ended: SessionEnd::Ended,
        text: b"release 0\nSEX,count\n1,1\n2,2\n.\n",
    },
    LongStream {
        name: "4,097 bytes",
        begin: b"table SEX",
        piece: b" ",
        times: 4088,
        end: b"\n",
        bound: 100,
        ended: SessionEnd::LineTooLong,
        text: b"refused 9 TooLong\n",
    },
    LongStream {
        name: "4,096 bytes and a carriage return",
        begin: b"#\ntable SEX",
        piece: b" ",
        times: 4087,
        end: b"\r\n",
        bound: 100,
        ended: SessionEnd::LineTooLong,
        text: b"refused 9 TooLong\n",
    },
    LongStream {
        name: "a foreign line of 4,096 bytes",
        begin: b"GET /",
        piece: b"x",
        times: 4082,
        end: b" HTTP/1.1\ntable SEX\n",
        bound: 100,
        ended: SessionEnd::Foreign,
        text: b"",
    },
    LongStream {
        name: "4,097 bytes that end as a foreign line",
        begin: b"GET /",
        piece: b"x",
        times: 4083,
        end: b" HTTP/1.1\ntable SEX\n",
        bound: 100,
        ended: SessionEnd::LineTooLong,
        text: b"refused 9 TooLong\n",
    },
    LongStream {
        name: "a foreign line as the last",
        begin: b"",
        piece: b"#\n",
        times: 999_999,
        end: b"GET / HTTP/1.1\ntable SEX\n",
        bound: 100,
        ended: SessionEnd::Foreign,
        text: b"",
    },
    LongStream {
        name: "a refusal that is cut",
        begin: b"table SEX",
        piece: b" ",
        times: 5000,
        end: b"",
        bound: 5,
        ended: SessionEnd::WriteFault,
        text: b"refus",
    },
    LongStream {
        name: "999,999 lines",
        begin: b"",
        piece: b"#\n",
        times: 999_999,
        end: b"",
        bound: 0,
        ended: SessionEnd::Ended,
        text: b"",
    },
    LongStream {
        name: "1,000,000 lines, and then the end",
        begin: b"",
        piece: b"#\n",
        times: 1_000_000,
        end: b"",
        bound: 0,
        ended: SessionEnd::TooManyLines,
        text: b"",
    },
    LongStream {
        name: "quit as the last line",
        begin: b"",
        piece: b"#\n",
        times: 999_999,
        end: b"quit\ntable SEX\n",
        bound: 100,
        ended: SessionEnd::Ended,
        text: b"",
    },
];

fn streams() -> &'static [LongStream] {
    &STREAMS
}

// The bytes of a row.
fn bytes_of(alloc: Global, row: &LongStream) -> Result<Vec<u8>, Memory> {
    let mut bytes = Vec::from_slice(alloc, row.begin)?;
    for _ in 0..row.times {
        bytes.extend_from_slice(row.piece)?;
    }
    bytes.extend_from_slice(row.end)?;
    Ok(bytes)
}

fn source_of(alloc: Global, row: &LongStream) -> Result<SureSource, Memory> {
    let bytes = bytes_of(alloc, row)?;
    SureSource::new(alloc, &bytes)
}

// Whether a session ends as a row says.
fn ends_so<R: Threads + Wait + Sync + Eprint>(
    rt: &R,
    alloc: Global,
    setup: &Setup,
    row: &LongStream,
    source: &mut SureSource,
) -> Result<bool, Memory> {
    let mut sink = MemSink::new(alloc, row.bound)?;
    let ended = one_session(rt, alloc, setup, source, &mut sink)?;
    Ok(is_text(rt, sink.taken(), row.text) && ended == row.ended)
}

fn is_so<R: Threads + Wait + Sync + Eprint>(
    rt: &R,
    alloc: Global,
    setup: &Setup,
    row: &LongStream,
) -> Result<bool, Memory> {
    let mut source = source_of(alloc, row)?;
    ends_so(rt, alloc, setup, row, &mut source)
}

// The place of the first row of which it isn't.
fn wrong_row<R: Threads + Wait + Sync + Eprint>(
    rt: &R,
    alloc: Global,
    setup: &Setup,
) -> Result<Option<usize>, Memory> {
    for (i, row) in streams().iter().enumerate() {
        if !is_so(rt, alloc, setup, row)? {
            return Ok(Some(i));
        }
    }
    Ok(None)
}

fn wrong_row_over_small<R: Threads + Wait + Sync + Eprint>(
    rt: &R,
    alloc: Global,
) -> Result<Option<usize>, Memory> {
    let setup = setup(alloc)?;
    wrong_row(rt, alloc, &setup)
}

#[test]
fn longest_line(rt: HostRuntime) -> Result<(), Fail> {
    assert_eq!(&rt; wrong_row_over_small(&rt, rt.alloc())?, None);
    Ok(())
}
