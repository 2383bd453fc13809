// Whole sessions over loopback. What a client does ends its own session alone: the next one at its
// port is served. So it is where a client sends nothing, or takes nothing, for longer than its
// listener waits. At a door several sessions are served at the same time.

ghost use Rattle.std.specs.Prelude.{◌≡◌, ◌+◌, All, IfOk, vec_len};
ghost use Rattle.tb_serve.specs.Stages.{IsFresh};

use super::clients::{Client, free_ports, leaving, silent, visit, visit_together, visits};
use super::running::serves;
use std::alloc::Global;
use std::io;
use std::net::{Net, TcpListener, TcpStream};
use std::sync::Wait;
use std::thread::{Threads, join};
use std::time::{Clock, Duration};
use tb_base::{Memory, print_number};
use tb_real_listen::{Door, RealListen};
use tb_serve::{Places, Port};

// For how long a listener waits for a client without a word.
const IDLE_MILLIS: u64 = 300;

// The custodian's port and an analyst's, whose sessions end after this time without a word.
fn ports<R: Net<Listener = TcpListener, Stream = TcpStream> + Eprint + Clock>(
    rt: &R,
    alloc: Global,
    sessions: u32,
    idle: Option<Duration>,
) -> Result<Vec<Port<RealListen<'_, R>>>, Memory>
    ensures ports { IfOk result (λ net. vec_len net ≡ 2) }
    ensures fresh { IfOk result (λ net. All IsFresh net.items) }
{
    let mut net = Vec::new(alloc);
    for _ in 0..2_usize {
        net.push(Port::of(RealListen::at(rt, alloc, sessions, None, idle)))?;
    }
    Ok(net)
}

// Whether so many sessions at each of two ports, from this one on, are served.
fn serves_two<
    R: Net<Listener = TcpListener, Stream = TcpStream> + Eprint + Clock + Threads + Wait + Sync,
>(rt: &R, alloc: Global, first: u16, sessions: u32, idle: Option<Duration>, report: &[u8]) -> bool {
    match ports(rt, alloc, sessions, idle) {
        Ok(mut net) => {
            let places = Places::Row(first.min(60_000));
            serves(rt, alloc, places, 1, sessions, &mut net, report)
        }
        Err(_) => false,
    }
}

// Clients, how many sessions they come to, for how long a listener waits, and what is written.
#[derive(Clone, Copy)]
struct Row<'a> {
    clients: &'a [Client],
    sessions: u32,
    idle: Option<Duration>,
    report: &'a [u8],
}

// Whether all sessions at two ports are served, and how many at each got what they read.
fn serves_and_visits<
    R: Net<Listener = TcpListener, Stream = TcpStream>
        + Eprint
        + AllocGlobal
        + Clock
        + Threads
        + Wait
        + Sync,
>(rt: &R, first: u16, second: u16, row: &Row<'_>) -> (bool, (u32, u32)) {
    join(
        rt,
        || serves_two(rt, rt.alloc(), first, row.sessions, row.idle, row.report),
        || {
            (
                visits(rt, first, row.clients),
                visits(rt, second, row.clients),
            )
        },
    )
}

// Whether all clients at two free ports get what they read, and all sessions are served.
fn all_are_served<
    R: Net<Listener = TcpListener, Stream = TcpStream>
        + Eprint
        + AllocGlobal
        + Clock
        + Threads
        + Wait
        + Sync,
>(rt: &R, row: &Row<'_>) -> bool {
    match free_ports(rt) {
        Some(first) => {
            let (served, right) = serves_and_visits(rt, first, first.saturating_add(1), row);
            served && right == (row.sessions, row.sessions)
        }
        None => false,
    }
}

#[test]
fn clients_end_their_own_sessions_alone(rt: HostRuntime) {
    let row = Row {
        clients: leaving(),
        sessions: 10,
        idle: None,
        report: b"worker 0 sessions 10\nworker 1 sessions 10\nrelease 0\n",
    };
    assert!(&rt; all_are_served(&rt, &row));
}

// Each of these clients holds its stream until the server ends it. One has sent half a line by
// then, which has no reply.
#[test]
fn idle_session_is_answered_its_half_line(rt: HostRuntime) {
    let row = Row {
        clients: silent(),
        sessions: 6,
        idle: Some(Duration::from_millis(IDLE_MILLIS)),
        report: b"worker 0 sessions 6\nworker 1 sessions 6\nrelease 0\n",
    };
    assert!(&rt; all_are_served(&rt, &row));
}

// ---- a door

// Adds a port at a door, with one session.
fn add_at<'r, R: Net<Listener = TcpListener, Stream = TcpStream> + Eprint + Clock>(
    rt: &'r R,
    alloc: Global,
    net: &mut Vec<Port<RealListen<'r, R>>>,
    door: &Door,
) -> io::Result<()>
    requires fresh { All IsFresh net.old.items }
    ensures ports { IfOk result (λ _. vec_len net.new ≡ vec_len net.old + 1) }
    ensures fresh { IfOk result (λ _. All IsFresh net.new.items) }
{
    let shared = door.share()?;
    net.push(Port::of(RealListen::at(rt, alloc, 1, Some(shared), None)))?;
    Ok(())
}

// The custodian's port and two at a door, which is to have so many files.
fn ports_at_a_door<R: Net<Listener = TcpListener, Stream = TcpStream> + Eprint + Clock>(
    rt: &R,
    alloc: Global,
    files: u32,
) -> io::Result<Vec<Port<RealListen<'_, R>>>>
    ensures ports { IfOk result (λ net. vec_len net ≡ 3) }
    ensures fresh { IfOk result (λ net. All IsFresh net.items) }
{
    let mut net = Vec::new(alloc);
    net.push(Port::of(RealListen::new(rt, alloc, 1)))?;
    let door = Door::new(alloc, 2, files)?;
    add_at(rt, alloc, &mut net, &door)?;
    add_at(rt, alloc, &mut net, &door)?;
    Ok(net)
}

// Adds the line of a port.
fn add_line(text: &mut Vec<u8>, port: u16, sessions: &[u8]) -> Result<(), Memory> {
    let mut digits = [0; 10];
    let len = print_number(u32::from(port), &mut digits);
    text.extend_from_slice(b"port ")?;
    text.extend_from_slice(&digits[..len])?;
    text.extend_from_slice(sessions)?;
    Ok(())
}

// What is written of one session at a port and two at the door after it.
fn report_of(alloc: Global, first: u16) -> Result<Vec<u8>, Memory> {
    let mut text = Vec::new(alloc);
    add_line(&mut text, first, b" sessions 1\n")?;
    add_line(&mut text, first.saturating_add(1), b" sessions 2\n")?;
    text.extend_from_slice(b"release 0\n")?;
    Ok(text)
}

// Whether the sessions at a port and at the door after it are served.
fn serves_a_door<
    R: Net<Listener = TcpListener, Stream = TcpStream> + Eprint + Clock + Threads + Wait + Sync,
>(rt: &R, alloc: Global, first: u16) -> bool {
    match (ports_at_a_door(rt, alloc, 3), report_of(alloc, first)) {
        (Ok(mut net), Ok(report)) => {
            let places = Places::Door(first.min(60_000));
            serves(rt, alloc, places, 2, 1, &mut net, &report)
        }
        _ => false,
    }
}

// Whether one client of a port and two of a door, at the same time, are served.
fn door_is_shared<
    R: Net<Listener = TcpListener, Stream = TcpStream>
        + Eprint
        + AllocGlobal
        + Clock
        + Threads
        + Wait
        + Sync,
>(rt: &R) -> bool {
    match free_ports(rt) {
        Some(first) => {
            join(
                rt,
                || serves_a_door(rt, rt.alloc(), first),
                || {
                    (
                        visit_together(rt, first.saturating_add(1)),
                        visit(rt, first, Client::Stays),
                    )
                },
            ) == (true, (true, true))
        }
        None => false,
    }
}

#[test]
fn sessions_at_a_door_run_at_the_same_time(rt: HostRuntime) {
    assert!(&rt; door_is_shared(&rt));
}
