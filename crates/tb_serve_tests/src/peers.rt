// Clients of a listener's sessions over loopback: some that stay, and some that go away.

use super::streams::{connect, is_at_end, reads, sends};
use super::tasks::LONG;
use std::io::Read as _;
use std::net::{Net, Shutdown, TcpListener, TcpStream};
use std::time::Clock;

/// What a client does in its session.
#[derive(Clone, Copy)]
pub enum Peer {
    /// It sends an `a`, and reads one and the end.
    OneByte,
    /// The same of a `b`.
    SendsB,
    /// It sends more bytes than the server reads, and reads one and the end.
    ManyBytes,
    /// It closes at once.
    Leaves,
    /// It sends a byte, and closes when it read an `x`.
    BreaksOff,
    /// It sends many bytes at once, and the first read finds all replies.
    AtOnce,
    /// It waits for each reply.
    InTurn,
    /// It closes its writing half, and reads to the end.
    ToTheEnd,
    /// It closes with a reply that it didn't read: the connection is reset.
    Resets,
}

// Sends these bytes, and reads this one and the end.
fn gets_one(stream: &mut TcpStream, bytes: &[u8], byte: u8) -> bool {
    sends(stream, bytes) && reads(stream, &[byte]) && is_at_end(stream)
}

// Sends bytes at once, and returns whether the first read finds all replies.
fn gets_at_once(stream: &mut TcpStream) -> bool {
    let mut back = [0; 200];
    sends(stream, &[b'a'; 100])
        && matches!(stream.read(&mut back), Ok(100))
        && back[..100] == [b'a'; 100]
}

// Sends a byte once the reply to the one before it came.
fn gets_in_turn(stream: &mut TcpStream) -> bool {
    for byte in b'a'..b'k' {
        if !sends(stream, &[byte]) || !reads(stream, &[byte]) {
            return false;
        }
    }
    true
}

// Whether the replies to this byte and a `B` come next.
fn reads_long_after(stream: &mut TcpStream, byte: u8) -> bool {
    reads(stream, &[byte]) && reads(stream, &[b'x'; LONG])
}

// Sends all bytes and their end, and returns whether the right replies come back before the end,
// long ones between short ones.
fn gets_to_the_end(stream: &mut TcpStream) -> bool {
    sends(stream, b"aBbBc")
        && stream.shutdown(Shutdown::Write).is_ok()
        && reads_long_after(stream, b'a')
        && reads_long_after(stream, b'b')
        && reads(stream, b"c")
        && is_at_end(stream)
}

// Sends a byte more once the first reply is there, which it doesn't read.
fn resets(stream: &mut TcpStream) -> bool {
    sends(stream, b"a") && matches!(stream.peek(&mut [0; 1]), Ok(1)) && sends(stream, b"c")
}

// What a client does with its stream.
fn act(stream: &mut TcpStream, peer: Peer) -> bool {
    match peer {
        Peer::OneByte => gets_one(stream, b"a", b'a'),
        Peer::SendsB => gets_one(stream, b"b", b'b'),
        Peer::ManyBytes => gets_one(stream, &[b'a'; 10_000], b'a'),
        Peer::Leaves => true,
        Peer::BreaksOff => sends(stream, b"a") && reads(stream, b"x"),
        Peer::AtOnce => gets_at_once(stream),
        Peer::InTurn => gets_in_turn(stream),
        Peer::ToTheEnd => gets_to_the_end(stream),
        Peer::Resets => resets(stream),
    }
}

/// A whole session of a client, and whether what came back to it is right.
pub fn visit<R: Net<Listener = TcpListener, Stream = TcpStream> + Clock>(
    rt: &R,
    port: u16,
    peer: Peer,
) -> bool {
    match connect(rt, port) {
        Some(mut stream) => act(&mut stream, peer),
        None => false,
    }
}
