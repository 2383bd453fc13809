// Sessions over loopback, between a listener of the system and clients that stay or go away.

use super::peers::{Peer, visit};
use super::streams::free_port;
use super::tasks::{Served, Task, serves_two};
use std::net::{Net, TcpListener, TcpStream};
use std::thread::{Threads, join};
use std::time::Clock;
use tb_io::{Bound, Listen};
use tb_real_listen::RealListen;

// How many sessions a listener is to have.
const SESSIONS: u32 = 2;

// Serves the two sessions of a port, and returns whether the first one ends so and the second one
// is served.
fn serves<
    R: Net<Listener = TcpListener, Stream = TcpStream>
        + Eprint
        + AllocGlobal
        + Clock
        + Threads
        + Sync,
>(rt: &R, port: u16, task: Task, served: Served) -> bool {
    let mut listener = RealListen::new(rt, rt.alloc(), SESSIONS);
    serves_two(rt, &mut listener, port, task, served)
}

// Whether a client gets what is right, and the next one too.
fn visits<R: Net<Listener = TcpListener, Stream = TcpStream> + Clock>(
    rt: &R,
    port: u16,
    peer: Peer,
) -> bool {
    let first = visit(rt, port, peer);
    let second = visit(rt, port, Peer::SendsB);
    first && second
}

// The same of both sides.
fn both<
    R: Net<Listener = TcpListener, Stream = TcpStream>
        + Eprint
        + AllocGlobal
        + Clock
        + Threads
        + Sync,
>(rt: &R, port: u16, task: Task, peer: Peer, served: Served) -> (bool, bool) {
    join(
        rt,
        || serves(rt, port, task, served),
        || visits(rt, port, peer),
    )
}

// Whether the session of a client ends so on the server's side, what comes back to the client is
// right, and a session after it is served.
fn ends_so<
    R: Net<Listener = TcpListener, Stream = TcpStream>
        + Eprint
        + AllocGlobal
        + Clock
        + Threads
        + Sync,
>(rt: &R, task: Task, peer: Peer, served: Served) -> bool {
    match free_port(rt) {
        Some(port) => both(rt, port, task, peer, served) == (true, true),
        None => false,
    }
}

// Whether each client gets all replies in their time.
fn replies_leave_together<
    R: Net<Listener = TcpListener, Stream = TcpStream>
        + Eprint
        + AllocGlobal
        + Clock
        + Threads
        + Sync,
>(rt: &R) -> bool {
    ends_so(rt, Task::Reply, Peer::AtOnce, Served::AtEnd)
        && ends_so(rt, Task::Reply, Peer::InTurn, Served::AtEnd)
        && ends_so(rt, Task::Reply, Peer::ToTheEnd, Served::AtEnd)
        && ends_so(rt, Task::Reply, Peer::Resets, Served::Broken)
}

// Whether a listener can be bound to a port.
fn binds<R: Net<Listener = TcpListener, Stream = TcpStream> + Eprint + AllocGlobal + Clock>(
    rt: &R,
    port: u16,
) -> bool {
    let mut listener = RealListen::new(rt, rt.alloc(), SESSIONS);
    listener.bind(port) == Bound::Ready
}

// Whether a port is free for one listener, and then not for a second one.
fn binds_once<R: Net<Listener = TcpListener, Stream = TcpStream> + Eprint + AllocGlobal + Clock>(
    rt: &R,
    port: u16,
) -> bool {
    let mut listener = RealListen::new(rt, rt.alloc(), SESSIONS);
    listener.bind(port) == Bound::Ready && !binds(rt, port)
}

// The second session begins once the first was given back.
#[test]
fn sessions_come_one_after_another(rt: HostRuntime) {
    assert!(&rt; ends_so(&rt, Task::Echo, Peer::OneByte, Served::Byte(b'a')));
}

// The first client sends more than the server reads, also after the end, and still reads all that
// was written and the end.
#[test]
fn unread_bytes_keep_nothing_from_a_client(rt: HostRuntime) {
    assert!(&rt; ends_so(&rt, Task::Echo, Peer::ManyBytes, Served::Byte(b'a')));
}

#[test]
fn client_that_closes_at_once_ends_its_session_alone(rt: HostRuntime) {
    assert!(&rt; ends_so(&rt, Task::Echo, Peer::Leaves, Served::AtEnd));
}

#[test]
fn write_to_a_client_that_went_away_fails(rt: HostRuntime) {
    assert!(&rt; ends_so(&rt, Task::Pour, Peer::BreaksOff, Served::Cut));
}

#[test]
fn ends_of_a_session_move_between_threads(rt: HostRuntime) {
    assert!(&rt; ends_so(&rt, Task::EchoApart, Peer::OneByte, Served::Byte(b'a')));
}

// What a session wrote waits, and is written out together before the session waits for its client.
#[test]
fn replies_leave_together_before_the_session_waits(rt: HostRuntime) {
    assert!(&rt; replies_leave_together(&rt));
}

#[test]
fn port_in_use_is_not_bound(rt: HostRuntime) {
    let port = free_port(&rt);
    assert!(&rt; matches!(port, Some(port) if binds_once(&rt, port)));
}
