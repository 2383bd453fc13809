// The room that a line is read into.

ghost use Rattle.std.specs.Prelude.{◌≡◌, ◌+◌, ◌-◌, ◌<◌, ◌≤◌, [], false, IfOk, length, take, drop};
ghost use Rattle.std.specs.List.{slice_range};
ghost use Rattle.tb_io.specs.Faults.{HasRisen};
ghost use Rattle.tb_io.specs.Lines.{has_line_feed};
ghost use Rattle.tb_io.specs.Rooms.{Fills, IsFirstFeed};
ghost use Rattle.tb_io.specs.Sources.{Reads, given_by};
ghost use Rattle.tb_io.specs.declared.room.TheConstants.{ROOM};
ghost use Rattle.tb_io.specs.declared.read.Read.TheVariants as read;

use crate::limits::MOST_LINE_BYTES;
use crate::read::Read;
use crate::source::Source;
use memchr::memchr;
use std::alloc::Global;
use std::marker::Model;
use tb_base::Memory;

/// How many bytes the room has: a longest line, and its line feed.
pub(crate) const ROOM: usize = MOST_LINE_BYTES + 1;

// The places from one to before another.
#[derive(Clone, Copy)]
struct Span {
    start: usize,
    end: usize,
}

/// Room for one line with its line feed. It holds the bytes that were read ahead, and the line that
/// was cut off them last, until more is read. No byte is moved but where a read needs room.
#[derive(Drop)]
pub(crate) struct Room {
    bytes: Vec<u8>,
    line: Span,
    ahead: Span,
}

impl Model for Room {
    ghost use Rattle.std.specs.Prelude.{◌≡◌, ◌≤◌, length};
    ghost use Rattle.std.specs.List.{slice_range};
    ghost use Rattle.tb_io.specs.Rooms.{RoomValue};
    ghost use Rattle.tb_io.specs.declared.room.TheConstants.{ROOM};

    ghost Value = { RoomValue };

    ghost view = { λ r. record {
      line = slice_range r.bytes.items r.line.start r.line.end;
      ahead = slice_range r.bytes.items r.ahead.start r.ahead.end;
    } };

    ghost invariant = { λ r. (length r.bytes.items ≡ ROOM)
        × (r.line.start ≤ r.line.end) × (r.line.end ≤ ROOM)
        × (r.ahead.start ≤ r.ahead.end) × (r.ahead.end ≤ ROOM) };
}

// Moves the bytes of a span to the front.
fn move_to_front(bytes: &mut [u8], at: Span)
    requires order { at.start ≤ at.end }
    requires within { at.end ≤ length bytes.old }
    ensures { take (at.end - at.start) bytes.new ≡ slice_range bytes.old at.start at.end }
{
    bytes.copy_within(at.start..at.end, 0);
}

// Where the same bytes stand once there is room after them.
fn with_room(bytes: &mut [u8], at: Span) -> Span
    requires order { at.start ≤ at.end }
    requires within { at.end ≤ length bytes.old }
    requires few { at.end - at.start < length bytes.old }
    ensures order { result.start ≤ result.end }
    ensures room { result.end < length bytes.new }
    ensures same { slice_range bytes.new result.start result.end
        ≡ slice_range bytes.old at.start at.end }
{
    if at.start == at.end {
        return Span { start: 0, end: 0 };
    }
    if at.end < bytes.len() {
        return at;
    }
    move_to_front(bytes, at);
    Span {
        start: 0,
        end: at.end - at.start,
    }
}

// Reads into the bytes from a place on.
fn read_at<S: Source>(source: &mut S, bytes: &mut [u8], at: usize) -> Read
    requires { at < length bytes.old }
    ensures count { S.faults source.old ≤ S.faults source.new }
    ensures failed { result ≡ read.Failed → HasRisen (S.faults source.old) (S.faults source.new) }
    ensures reads { Reads result (S.left source.old) (S.left source.new) (drop at bytes.new) }
    ensures before { take at bytes.new ≡ take at bytes.old }
{
    source.read(&mut bytes[at..])
}

// How many bytes a read gave.
fn given_by(read: Read) -> usize
    ensures { result ≡ given_by read }
{
    match read {
        Read::Got(n) => n,
        Read::End => 0,
        Read::Failed => 0,
    }
}

// What a read returned, and where the bytes that were read ahead stand then.
#[derive(Clone, Copy)]
struct Filled {
    read: Read,
    ahead: Span,
}

// Reads once, behind the bytes of a span.
fn fill_behind<S: Source>(source: &mut S, bytes: &mut [u8], at: Span) -> Filled
    requires order { at.start ≤ at.end }
    requires within { at.end ≤ length bytes.old }
    requires few { at.end - at.start < length bytes.old }
    ensures count { S.faults source.old ≤ S.faults source.new }
    ensures failed { result.read ≡ read.Failed
        → HasRisen (S.faults source.old) (S.faults source.new) }
    ensures order { result.ahead.start ≤ result.ahead.end }
    ensures within { result.ahead.end ≤ length bytes.new }
    ensures fills { Fills result.read (S.left source.old) (S.left source.new)
        (slice_range bytes.old at.start at.end)
        (slice_range bytes.new result.ahead.start result.ahead.end) }
{
    let at = with_room(bytes, at);
    let read = read_at(source, bytes, at.end);
    let ahead = Span {
        start: at.start,
        end: at.end + given_by(read),
    };
    Filled { read, ahead }
}

impl Room {
    /// Empty room. It takes all memory that it needs.
    pub(crate) fn new(alloc: Global) -> Result<Room, Memory>
        ensures { IfOk result (λ room. room ≡ record { line = []; ahead = [] }) }
    {
        let bytes = vec![in alloc; 0; ROOM]?;
        Ok(Room {
            bytes,
            line: Span { start: 0, end: 0 },
            ahead: Span { start: 0, end: 0 },
        })
    }

    /// The line that was cut off last, until more is read.
    pub(crate) fn line(&self) -> &[u8]
        ensures { result.now ≡ self.now.line }
    {
        &self.bytes[self.line.start..self.line.end]
    }

    /// How many bytes were read ahead.
    pub(crate) fn len(&self) -> usize
        ensures value { result ≡ length self.now.ahead }
        ensures few { result ≤ ROOM }
    {
        self.ahead.end - self.ahead.start
    }

    /// Forgets the line and the bytes that were read ahead.
    pub(crate) fn clear(&mut self)
        ensures { self.new ≡ record { line = []; ahead = [] } }
    {
        self.line = Span { start: 0, end: 0 };
        self.ahead = Span { start: 0, end: 0 };
    }

    /// The place of the first line feed among the bytes read ahead, of which the first `known` are
    /// none.
    pub(crate) fn line_feed(&self, known: usize) -> Option<usize>
        requires within { known ≤ length self.now.ahead }
        requires known { has_line_feed (take known self.now.ahead) ≡ false }
        ensures feed { IsFirstFeed self.now.ahead result }
        ensures few { length self.now.ahead ≤ ROOM }
    {
        match memchr(b'\n', &self.bytes[self.ahead.start + known..self.ahead.end]) {
            Some(i) => Some(known + i),
            None => None,
        }
    }

    /// Cuts the line of the first `len` bytes off those read ahead, and passes over `skip` more.
    pub(crate) fn cut(&mut self, len: usize, skip: usize)
        requires { len + skip ≤ length self.old.ahead }
        ensures line { self.new.line ≡ take len self.old.ahead }
        ensures ahead { self.new.ahead ≡ drop (len + skip) self.old.ahead }
    {
        let start = self.ahead.start;
        self.line = Span {
            start,
            end: start + len,
        };
        self.ahead.start = start + len + skip;
    }

    /// Reads once, behind the bytes that were read ahead.
    pub(crate) fn fill<S: Source>(&mut self, source: &mut S) -> Read
        requires { length self.old.ahead < ROOM }
        ensures count { S.faults source.old ≤ S.faults source.new }
        ensures failed { result ≡ read.Failed
            → HasRisen (S.faults source.old) (S.faults source.new) }
        ensures fills { Fills result (S.left source.old) (S.left source.new)
            self.old.ahead self.new.ahead }
    {
        let filled = fill_behind(source, self.bytes.as_mut_slice(), self.ahead);
        self.line = Span { start: 0, end: 0 };
        self.ahead = filled.ahead;
        filled.read
    }
}
