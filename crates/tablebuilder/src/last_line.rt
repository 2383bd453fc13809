// The standard output, with the line by which a run that was refused ends.

ghost use Rattle.std.specs.Prelude.{None};

use std::str;
use tb_io::{RealSink, Sink, Wrote};

// No last line that tells of a refusal has so many bytes.
const ROOM: usize = 64;

// How such a line begins, and no other text does.
const BEGINNING: &[u8] = b"fault ";

// How the first line of a report begins, which stands in front of such a line where sessions were
// served at ports in a row, or at one and at a door.
const REPORT: &[u8] = b"worker 0 ";

const DOOR_REPORT: &[u8] = b"port ";

// How a reply begins that tells of a publication.
const PUBLISHED: &[u8] = b"published ";

// As many bytes of a line as are kept.
fn first_of(line: &[u8]) -> [u8; ROOM] {
    let mut first = [0; ROOM];
    for (kept, byte) in first.iter_mut().zip(line) {
        *kept = *byte;
    }
    first
}

/// The standard output, the last line that it took, where that tells of a refusal, and whether it
/// took a report. It waits in a buffer, but that a reply that tells of a publication may be written
/// out at once.
#[derive(Drop)]
pub struct LastLine<'a, P: Print> {
    out: RealSink<'a, P>,
    line: [u8; ROOM],
    reported: bool,
    at_once: bool,
}

impl<'a, P: Print> LastLine<'a, P> {
    /// This output, of which no line is known.
    pub fn new(out: RealSink<'a, P>) -> LastLine<'a, P> {
        LastLine {
            out,
            line: [0; ROOM],
            reported: false,
            at_once: false,
        }
    }

    /// From now on a reply that tells of a publication is written out at once, with all before it.
    pub fn acknowledge_at_once(&mut self) {
        self.at_once = true;
    }

    /// Writes out what waits.
    pub fn flush(&mut self) -> Wrote {
        self.out.flush()
    }

    /// The line, without what ends it. None where no line tells of a refusal.
    pub fn text(&self) -> Option<&str> {
        let end = self.line.iter().position(|byte| *byte == b'\n')?;
        str::from_utf8(self.line.get(..end)?).ok()
    }

    /// Whether a line was taken that begins as a report of sessions does.
    pub fn has_report(&self) -> bool {
        self.reported
    }
}

impl<'a, P: Print> Sink for LastLine<'a, P> {
    ghost faults = { λ sink. sink.out.faults };

    ghost taken = { λ _. None };

    fn write(&mut self, bytes: &[u8]) -> Wrote {
        if bytes.starts_with(BEGINNING) {
            self.line = first_of(bytes);
        }
        if bytes.starts_with(REPORT) || bytes.starts_with(DOOR_REPORT) {
            self.reported = true;
        }
        match self.out.write(bytes) {
            Wrote::All if self.at_once && bytes.starts_with(PUBLISHED) => self.out.flush(),
            wrote => wrote,
        }
    }
}
