// Clients of whole sessions over loopback: one that stays, and some that hang up or take their
// time.

use super::streams::{connect, free_port, is_at_end, is_free, reads, sends};
use std::net::{Net, Shutdown, TcpListener, TcpStream};
use std::time::Clock;

// How often a client that never reads sends many lines at most: more than any buffers hold.
const MOST_SENDS: u32 = 1_000_000;

// A query, and its reply at release 0.
const QUERY: &[u8; 10] = b"table SEX\n";

const TABLE: &[u8] = b"release 0\nSEX,count\n1,1\n2,2\n.\n";

// A query at fault, its reply, and how many a client sends at once.
const FAULTY: &[u8; 13] = b"table NOSUCH\n";

const REFUSAL: &[u8] = b"refused 3 UnknownName 2\n";

const AT_ONCE: usize = 100;

// A query with a long reply.
const LONG_QUERY: &[u8; 49] = b"table AREA by SEX by AGE with totals with labels\n";

/// What a client does.
#[derive(Clone, Copy)]
pub enum Client {
    /// Sends a query byte by byte, and reads the reply.
    ByteByByte,
    /// Sends many lines at once, and reads all replies.
    ManyAtOnce,
    /// Hangs up in the middle of a line.
    LeavesInLine,
    /// Hangs up in the middle of a reply.
    LeavesInReply,
    /// Sends lines until the server takes no more, never reads, and closes.
    NeverReads,
    /// Sends a query and a half, reads the first one's reply, and waits for the end.
    SilentInLine,
    /// Sends a query, reads its reply, and waits for the end.
    SilentBetweenLines,
    /// Sends lines without an end, and never reads.
    TakesNothing,
    /// Sends a query, closes its writing half, and reads just its reply and the end.
    Stays,
}

static LEAVING: [Client; 5] = [
    Client::ByteByByte,
    Client::ManyAtOnce,
    Client::LeavesInLine,
    Client::LeavesInReply,
    Client::NeverReads,
];

static SILENT: [Client; 3] = [
    Client::SilentInLine,
    Client::SilentBetweenLines,
    Client::TakesNothing,
];

/// The clients that go away.
pub fn leaving() -> &'static [Client] {
    &LEAVING
}

/// The clients that go on without a word, or take none.
pub fn silent() -> &'static [Client] {
    &SILENT
}

/// The first of two free ports in a row. Callers at the same time look at other ones.
pub fn free_ports<R: Net<Listener = TcpListener, Stream = TcpStream>>(rt: &R) -> Option<u16> {
    let any = free_port(rt)?;
    for first in 20_000 + any % 10_000..31_000 {
        if is_free(rt, first) && is_free(rt, first + 1) {
            return Some(first);
        }
    }
    None
}

fn ask_byte_by_byte(stream: &mut TcpStream) -> bool {
    for byte in QUERY {
        if !sends(stream, &[*byte]) {
            return false;
        }
    }
    reads(stream, TABLE)
}

// Sends many queries at fault at once.
fn sends_many(stream: &mut TcpStream) -> bool {
    sends(stream, [*FAULTY; AT_ONCE].as_flattened())
}

fn ask_at_once(stream: &mut TcpStream) -> bool {
    if !sends_many(stream) {
        return false;
    }
    for _ in 0..AT_ONCE {
        if !reads(stream, REFUSAL) {
            return false;
        }
    }
    true
}

fn never_read(stream: &mut TcpStream) -> bool {
    if stream.set_nonblocking(true).is_err() {
        return false;
    }
    for _ in 0..MOST_SENDS {
        if !sends_many(stream) {
            return true;
        }
    }
    false
}

// The reply to the query alone comes, and then the end.
fn wait_silently(stream: &mut TcpStream, lines: &[u8]) -> bool {
    sends(stream, lines) && reads(stream, TABLE) && is_at_end(stream)
}

fn take_nothing(stream: &mut TcpStream) -> bool {
    for _ in 0..MOST_SENDS {
        if !sends(stream, [*LONG_QUERY; AT_ONCE].as_flattened()) {
            return true;
        }
    }
    false
}

fn ask_to_the_end(stream: &mut TcpStream) -> bool {
    sends(stream, QUERY)
        && stream.shutdown(Shutdown::Write).is_ok()
        && reads(stream, TABLE)
        && is_at_end(stream)
}

// What a client does with its stream, and whether it got what it read.
fn act(stream: &mut TcpStream, client: Client) -> bool {
    match client {
        Client::ByteByByte => ask_byte_by_byte(stream),
        Client::ManyAtOnce => ask_at_once(stream),
        Client::LeavesInLine => sends(stream, b"table S"),
        Client::LeavesInReply => sends(stream, QUERY) && reads(stream, b"release"),
        Client::NeverReads => never_read(stream),
        Client::SilentInLine => wait_silently(stream, b"table SEX\ntable A"),
        Client::SilentBetweenLines => wait_silently(stream, QUERY),
        Client::TakesNothing => take_nothing(stream),
        Client::Stays => ask_to_the_end(stream),
    }
}

/// A whole session of a client, who sends each piece at once, and whether it got what it read.
pub fn visit<R: Net<Listener = TcpListener, Stream = TcpStream> + Clock>(
    rt: &R,
    port: u16,
    client: Client,
) -> bool {
    match connect(rt, port) {
        Some(mut stream) => stream.set_nodelay(true).is_ok() && act(&mut stream, client),
        None => false,
    }
}

/// Whether two clients with sessions at the same time get the reply to a query each.
pub fn visit_together<R: Net<Listener = TcpListener, Stream = TcpStream> + Clock>(
    rt: &R,
    port: u16,
) -> bool {
    match (connect(rt, port), connect(rt, port)) {
        (Some(mut first), Some(mut second)) => {
            sends(&mut first, QUERY)
                && reads(&mut first, TABLE)
                && ask_to_the_end(&mut second)
                && ask_to_the_end(&mut first)
        }
        _ => false,
    }
}

/// Sessions of each of these clients, and of one that stays after each, and how many of these twice
/// as many got what they read.
pub fn visits<R: Net<Listener = TcpListener, Stream = TcpStream> + Clock>(
    rt: &R,
    port: u16,
    clients: &[Client],
) -> u32 {
    let mut right: u32 = 0;
    for client in clients {
        if visit(rt, port, *client) {
            right = right.saturating_add(1);
        }
        if visit(rt, port, Client::Stays) {
            right = right.saturating_add(1);
        }
    }
    right
}
