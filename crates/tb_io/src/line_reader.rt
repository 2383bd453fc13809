ghost use Rattle.std.specs.Prelude.{◌≡◌, ◌≤◌, ◌↔◌, [], true, false, IfOk, IsTrue, length};
ghost use Rattle.tb_io.specs.Faults.{HasRisen};
ghost use Rattle.tb_io.specs.Lines.{without_return};
ghost use Rattle.tb_io.specs.NextLines.{IsNextOf, Takes};
ghost use Rattle.tb_io.specs.Sources.{IsAtEnd, stream_of};
ghost use Rattle.tb_io.specs.declared.limits.TheConstants.{MOST_LINE_BYTES};
ghost use Rattle.tb_io.specs.declared.line_reader.NextLine.TheVariants as next_line;

use crate::read::Read;
use crate::room::{ROOM, Room};
use crate::source::Source;
use std::alloc::Global;
use std::marker::Model;
use tb_base::Memory;

/// What comes next: a line, which `line` then has; the end; a line that is too long; or a fault of
/// the source.
#[derive(Clone, Copy, Debug, PartialEq, Eq)]
pub enum NextLine {
    Line,
    End,
    TooLong,
    ReadFault,
}

/// Whole lines from a source, however its reads cut the bytes.
///
/// It is seen as the bytes that it has read ahead, the last line, whether it is live, and whether
/// it has ended. It is live until a call returns anything but a line, and it has ended once a read
/// said that nothing is left. The bytes still to come are those read ahead and then what the source
/// has left.
#[derive(Drop)]
pub struct LineReader {
    room: Room,
    live: bool,
    ended: bool,
}

impl Model for LineReader {
    ghost use Rattle.tb_io.specs.Readers.{ReaderValue};

    ghost Value = { ReaderValue };

    ghost view = { λ r. record {
      ahead = r.room.ahead;
      line = r.room.line;
      live = r.live;
      ended = r.ended;
    } };
}

// The line without one carriage return at its end.
fn without_return(line: &[u8]) -> &[u8]
    ensures { result.now ≡ without_return line.now }
{
    let len = line.len();
    if len > 0 && line[len - 1] == b'\r' {
        &line[..len - 1]
    } else {
        line
    }
}

// Reads until a line, the end, a line that is too long, or a fault comes, and notes where a read
// says that nothing is left.
fn next_in<S: Source>(room: &mut Room, ended: &mut bool, source: &mut S) -> NextLine
    requires { ended.old ≡ false }
    ensures count { S.faults source.old ≤ S.faults source.new }
    ensures failed { result ≡ next_line.ReadFault
        → HasRisen (S.faults source.old) (S.faults source.new) }
    ensures next { IsNextOf result (stream_of room.old.ahead (S.left source.old)) room.new.line
        (stream_of room.new.ahead (S.left source.new)) }
    ensures short { result ≡ next_line.Line → length room.new.line ≤ MOST_LINE_BYTES }
    ensures takes { Takes result (S.left source.old) (S.left source.new)
        room.old.ahead room.new.line room.new.ahead ended.new }
    ensures end { ended.new ≡ true → IsAtEnd (stream_of room.new.ahead (S.left source.new)) }
{
    let mut known = 0;
    'pieces: loop {
        if let Some(i) = room.line_feed(known) {
            room.cut(i, 1);
            return NextLine::Line;
        }
        let ahead = room.len();
        if ahead == ROOM {
            return NextLine::TooLong;
        }
        match room.fill(source) {
            Read::Got(_) => known = ahead,
            Read::End => {
                *ended = true;
                if ahead == 0 {
                    return NextLine::End;
                }
                room.cut(ahead, 0);
                return NextLine::Line;
            }
            Read::Failed => return NextLine::ReadFault,
        }
    }
}

impl LineReader {
    /// A live reader with nothing read ahead. It takes memory for all its room, and no later call
    /// takes any.
    pub fn new(alloc: Global) -> Result<LineReader, Memory>
        ensures { IfOk result (λ reader.
            (reader.ahead ≡ []) × (reader.live ≡ true) × (reader.ended ≡ false)) }
    {
        let room = Room::new(alloc)?;
        Ok(LineReader {
            room,
            live: true,
            ended: false,
        })
    }

    /// Reads the next line. It takes at most one byte more from the source than a line may have. A
    /// reader that has ended reads nothing, and returns the end.
    pub fn next_line<S: Source>(&mut self, source: &mut S) -> NextLine
        requires { self.old.live ≡ true }
        ensures count { S.faults source.old ≤ S.faults source.new }
        ensures failed { result ≡ next_line.ReadFault
            → HasRisen (S.faults source.old) (S.faults source.new) }
        ensures next { self.old.ended ≡ false
            → IsNextOf result (stream_of self.old.ahead (S.left source.old))
            self.new.line (stream_of self.new.ahead (S.left source.new)) }
        ensures short { result ≡ next_line.Line → length self.new.line ≤ MOST_LINE_BYTES }
        ensures takes { self.old.ended ≡ false
            → Takes result (S.left source.old) (S.left source.new)
            self.old.ahead self.new.line self.new.ahead self.new.ended }
        ensures end { self.old.ended ≡ false → self.new.ended ≡ true
            → IsAtEnd (stream_of self.new.ahead (S.left source.new)) }
        ensures ended { self.old.ended ≡ true → (result ≡ next_line.End)
            × (source.new ≡ source.old) × (self.new ≡ record self.old { live = false }) }
        ensures live { IsTrue self.new.live ↔ (result ≡ next_line.Line) }
    {
        let next = if self.ended {
            NextLine::End
        } else {
            next_in(&mut self.room, &mut self.ended, source)
        };
        self.live = next == NextLine::Line;
        next
    }

    /// The last line without its line feed, and without one carriage return at its end.
    pub fn line(&self) -> &[u8]
        ensures { result.now ≡ without_return self.now.line }
    {
        without_return(self.room.line())
    }

    /// Whether no call since it was made or last reset returned anything but a line.
    pub fn live(&self) -> bool
        ensures { result ≡ self.now.live }
    {
        self.live
    }

    /// Forgets the bytes that were read ahead and the end, and is live again.
    pub fn reset(&mut self)
        ensures ahead { self.new.ahead ≡ [] }
        ensures live { self.new.live ≡ true }
        ensures ended { self.new.ended ≡ false }
    {
        self.room.clear();
        self.live = true;
        self.ended = false;
    }
}
