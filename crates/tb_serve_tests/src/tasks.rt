// What a server does in a session, over any listener.

ghost use Rattle.tb_io.specs.Listeners.{CanAccept, CanBind};

use std::thread::{Threads, join};
use tb_io::{Accepted, Bound, Listen, Read, Sink, Source, Wrote};

// What became of a session on the server's side.
#[derive(Clone, Copy, PartialEq, Eq)]
pub(crate) enum Served {
    // It read this byte and wrote it back.
    Byte(u8),
    // Nothing was left to read.
    AtEnd,
    // The read failed.
    Broken,
    // A write failed.
    Cut,
    // No write failed.
    Whole,
    // No session came, or the accept failed, or the bind.
    None,
    Refused,
    Unbound,
}

// How many pieces of this length a server writes to a client that goes away. Some wait while those
// before them are written.
const PIECES: u32 = 50_000;

const PIECE: usize = 10_000;

// How many pieces a server reads at most.
const MOST_PIECES: u32 = 1_000;

// What a server replies to a `B`.
pub(crate) const LONG: usize = 20_000;

// What became of a byte that was read, and of the write of it.
fn echoed(read: Read, wrote: Wrote, byte: u8) -> Served {
    match (read, wrote) {
        (Read::Got(_), Wrote::All) => Served::Byte(byte),
        (Read::Got(_), Wrote::Failed) => Served::Cut,
        (Read::End, _) => Served::AtEnd,
        (Read::Failed, _) => Served::Broken,
    }
}

// Reads a byte and writes it back.
fn echo<S: Source, O: Sink>(reader: &mut S, writer: &mut O) -> Served {
    let mut byte = [0; 1];
    match reader.read(&mut byte) {
        Read::Got(_) => match writer.write(&byte) {
            Wrote::All => Served::Byte(byte[0]),
            Wrote::Failed => Served::Cut,
        },
        Read::End => Served::AtEnd,
        Read::Failed => Served::Broken,
    }
}

// Reads a byte and writes it back, each in a thread, one after the other.
fn echo_apart<S: Source + Send, O: Sink + Send, R: Threads + Sync>(
    rt: &R,
    reader: &mut S,
    writer: &mut O,
) -> Served {
    let mut byte = [0; 1];
    let (read, ()) = join(rt, || reader.read(&mut byte), || ());
    let ((), wrote) = join(rt, || (), || writer.write(&byte));
    echoed(read, wrote, byte[0])
}

// Reads a byte, and then writes more than a client takes that has gone away.
fn pour<S: Source, O: Sink>(reader: &mut S, writer: &mut O) -> Served {
    let mut byte = [0; 1];
    if let Read::Failed = reader.read(&mut byte) {
        return Served::Broken;
    }
    let piece = [b'x'; PIECE];
    for _ in 0..PIECES {
        if let Wrote::Failed = writer.write(&piece) {
            return Served::Cut;
        }
    }
    Served::Whole
}

// Replies to a byte: by the byte, or to a `B` by many bytes.
fn reply<O: Sink>(writer: &mut O, byte: u8) -> Wrote {
    if byte == b'B' {
        writer.write(&[b'x'; LONG])
    } else {
        writer.write(&[byte])
    }
}

// Reads to the end, and replies to each byte.
fn reply_to_each<S: Source, O: Sink>(reader: &mut S, writer: &mut O) -> Served {
    let mut bytes = [0; 100];
    for _ in 0..MOST_PIECES {
        match reader.read(&mut bytes) {
            Read::Got(n) => {
                for byte in &bytes[..n] {
                    if let Wrote::Failed = reply(writer, *byte) {
                        return Served::Cut;
                    }
                }
            }
            Read::End => return Served::AtEnd,
            Read::Failed => return Served::Broken,
        }
    }
    Served::Whole
}

// What a server does in a session.
#[derive(Clone, Copy)]
pub(crate) enum Task {
    Echo,
    EchoApart,
    Pour,
    Reply,
}

// Does it with the two ends of a session.
fn serve<S: Source + Send, O: Sink + Send, R: Threads + Sync>(
    rt: &R,
    reader: &mut S,
    writer: &mut O,
    task: Task,
) -> Served {
    match task {
        Task::Echo => echo(reader, writer),
        Task::EchoApart => echo_apart(rt, reader, writer),
        Task::Pour => pour(reader, writer),
        Task::Reply => reply_to_each(reader, writer),
    }
}

// Accepts a session, serves it and gives it back.
pub(crate) fn serve_one<N: Listen, R: Threads + Sync>(
    rt: &R,
    listener: &mut N,
    task: Task,
) -> Served
    requires { CanAccept (N.seen listener.old) }
    ensures { CanAccept (N.seen listener.new) }
{
    match listener.accept() {
        Accepted::Session(mut reader, mut writer) => {
            let served = serve(rt, &mut reader, &mut writer, task);
            listener.give_back(reader, writer);
            served
        }
        Accepted::End => Served::None,
        Accepted::Failed => Served::Refused,
    }
}

// Binds a listener, serves two sessions of it, one after another, and returns whether the first one
// ends so and the second one is served.
pub(crate) fn serves_two<N: Listen, R: Threads + Sync>(
    rt: &R,
    listener: &mut N,
    port: u16,
    task: Task,
    served: Served,
) -> bool
    requires { CanBind (N.seen listener.old) }
{
    match listener.bind(port) {
        Bound::Ready => {
            let first = serve_one(rt, listener, task);
            let second = serve_one(rt, listener, Task::Echo);
            first == served && second == Served::Byte(b'b')
        }
        Bound::Failed => false,
    }
}
