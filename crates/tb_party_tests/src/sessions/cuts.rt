// A stream cut into reads at every place.

ghost use Rattle.std.specs.Prelude.{◌≡◌, ◌<◌, None, length};

use super::talking::one_session;
use std::alloc::Global;
use std::sync::Wait;
use std::test::Fail;
use std::thread::Threads;
use tb_base::Memory;
use tb_comparison::is_text;
use tb_io::{MemSink, Read, Source};
use tb_session::SessionEnd;
use tb_small_values::setup;
use tb_text::Setup;

const STREAM: &[u8] = b"#\r\ntable SEX\r\nquit";

const TEXT: &[u8] = b"release 0\nSEX,count\n1,1\n2,2\n.\n";

// A source of which no read goes past its next cut. It never fails, and tells nothing.
#[derive(Drop)]
struct Cut {
    next: usize,
    first: usize,
    second: usize,
}

impl Cut {
    // Up to where the next read goes.
    fn stop(&self) -> usize {
        if self.next < self.first {
            return self.first;
        }
        if self.next < self.second {
            return self.second;
        }
        STREAM.len()
    }
}

impl Source for Cut {
    ghost faults = { λ _. 0 };

    ghost left = { λ _. None };

    fn read(&mut self, buf: &mut [u8]) -> Read {
        let stop = self.stop().min(STREAM.len());
        let n = stop.saturating_sub(self.next).min(buf.len());
        if n == 0 {
            return Read::End;
        }
        buf[..n].copy_from_slice(&STREAM[self.next..self.next + n]);
        self.next += n;
        Read::Got(n)
    }
}

// Whether a session over the stream with these cuts is as without.
fn is_so<R: Threads + Wait + Sync + Eprint>(
    rt: &R,
    alloc: Global,
    setup: &Setup,
    first: usize,
    second: usize,
) -> Result<bool, Memory> {
    let mut source = Cut {
        next: 0,
        first,
        second,
    };
    let mut sink = MemSink::new(alloc, 100)?;
    let end = one_session(rt, alloc, setup, &mut source, &mut sink)?;
    Ok(is_text(rt, sink.taken(), TEXT) && end == SessionEnd::Ended)
}

// The first two cuts of which it isn't.
fn wrong_cuts<R: Threads + Wait + Sync + Eprint>(
    rt: &R,
    alloc: Global,
    setup: &Setup,
) -> Result<Option<(usize, usize)>, Memory> {
    for first in 0..STREAM.len() {
        for second in first..STREAM.len() {
            if !is_so(rt, alloc, setup, first, second)? {
                return Ok(Some((first, second)));
            }
        }
    }
    Ok(None)
}

fn wrong_cuts_over_small<R: Threads + Wait + Sync + Eprint>(
    rt: &R,
    alloc: Global,
) -> Result<Option<(usize, usize)>, Memory> {
    let setup = setup(alloc)?;
    wrong_cuts(rt, alloc, &setup)
}

#[test]
fn every_cut_gives_the_same(rt: HostRuntime) -> Result<(), Fail> {
    assert_eq!(&rt; wrong_cuts_over_small(&rt, rt.alloc())?, None);
    Ok(())
}
