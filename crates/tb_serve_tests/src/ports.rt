// Ports with sessions in memory.

ghost use Rattle.std.specs.Prelude.{◌≡◌, ◌≤◌, ◌<◌, ◌+◌, All, IfOk, vec_len};
ghost use Rattle.tb_serve.specs.Stages.{IsFresh};

use std::alloc::Global;
use tb_base::Memory;
use tb_comparison::is_text;
use tb_io::{MemListen, MemSink, MemSource};
use tb_serve::Port;

/// How many ports a run here has: more than it asks for.
pub const PORTS: usize = 4;

// A session of these lines, whose sink takes so many bytes.
fn session(alloc: Global, lines: &[u8], bound: usize) -> Result<(MemSource, MemSink), Memory> {
    let source = MemSource::new(alloc, lines, 100, &[])?;
    match MemSink::new(alloc, bound) {
        Ok(sink) => Ok((source, sink)),
        Err(_) => Err(Memory),
    }
}

// So many sessions of these lines.
fn sessions(alloc: Global, lines: &[u8], count: u32) -> Result<Vec<(MemSource, MemSink)>, Memory> {
    let mut sessions = Vec::new(alloc);
    for _ in 0..count {
        sessions.push(session(alloc, lines, 1_200)?)?;
    }
    Ok(sessions)
}

// A port with so many sessions of these lines to come, of which the accepts with the numbers
// `fails` fail, and each bind where `bind_fails` says so.
fn port(
    alloc: Global,
    lines: &[u8],
    count: u32,
    bind_fails: bool,
    fails: &[u32],
) -> Result<Port<MemListen>, Memory>
    ensures { IfOk result IsFresh }
{
    let sessions = sessions(alloc, lines, count)?;
    Ok(Port::of(MemListen::new(alloc, bind_fails, sessions, fails)?))
}

/// Adds a port with so many sessions of these lines to come, of which the accepts with the numbers
/// `fails` fail, and each bind where `bind_fails` says so.
pub fn add_port(
    alloc: Global,
    net: &mut Vec<Port<MemListen>>,
    lines: &[u8],
    count: u32,
    bind_fails: bool,
    fails: &[u32],
) -> Result<(), Memory>
    requires few { vec_len net.old < 100 }
    requires fresh { All IsFresh net.old.items }
    ensures ports { IfOk result (λ _. vec_len net.new ≡ vec_len net.old + 1) }
    ensures fresh { IfOk result (λ _. All IsFresh net.new.items) }
{
    let port = port(alloc, lines, count, bind_fails, fails)?;
    net.push(port)?;
    Ok(())
}

// A session for each part of a text, whose sink takes so many bytes.
fn sessions_of(
    alloc: Global,
    lines: &str,
    bound: usize,
) -> Result<Vec<(MemSource, MemSink)>, Memory> {
    let mut sessions = Vec::new(alloc);
    for part in lines.split('|') {
        sessions.push(session(alloc, part.as_bytes(), bound)?)?;
    }
    Ok(sessions)
}

// A port with these sessions to come, of which the accept with the number `fails` fails.
fn port_of(alloc: Global, lines: &str, bound: usize, fails: u32) -> Result<Port<MemListen>, Memory>
    ensures { IfOk result IsFresh }
{
    let sessions = sessions_of(alloc, lines, bound)?;
    Ok(Port::of(MemListen::new(alloc, false, sessions, &[fails])?))
}

/// Adds a port with a session to come for each part of a text, parted by `|`, whose sink takes so
/// many bytes; the accept with the number `fails`, from 1, fails.
pub fn add_sessions(
    alloc: Global,
    net: &mut Vec<Port<MemListen>>,
    lines: &str,
    bound: usize,
    fails: u32,
) -> Result<(), Memory>
    requires few { vec_len net.old < 100 }
    requires fresh { All IsFresh net.old.items }
    ensures ports { IfOk result (λ _. vec_len net.new ≡ vec_len net.old + 1) }
    ensures fresh { IfOk result (λ _. All IsFresh net.new.items) }
{
    let port = port_of(alloc, lines, bound, fails)?;
    net.push(port)?;
    Ok(())
}

/// Adds ports with so many sessions of these lines to come, until there are so many ports.
pub fn fill(
    alloc: Global,
    net: &mut Vec<Port<MemListen>>,
    lines: &[u8],
    count: u32,
    most: usize,
) -> Result<(), Memory>
    requires few { vec_len net.old ≤ most }
    requires bound { most < 100 }
    requires fresh { All IsFresh net.old.items }
    ensures ports { IfOk result (λ _. vec_len net.new ≡ most) }
    ensures fresh { IfOk result (λ _. All IsFresh net.new.items) }
{
    for _ in net.len()..most {
        add_port(alloc, net, lines, count, false, &[])?;
    }
    Ok(())
}

// Whether as many sessions came back as there are parts, in order, and each was told its part.
fn are_told(rt: &impl Eprint, listener: &MemListen, replies: &str) -> bool {
    let mut i = 0_usize;
    for part in replies.split('|') {
        if i >= listener.back() || !is_text(rt, listener.writer_at(i).taken(), part.as_bytes()) {
            return false;
        }
        i = i.saturating_add(1);
    }
    i == listener.back()
}

/// Whether as many sessions came back at the port at this place as a text has parts, parted by `|`,
/// in order, and each was told its part.
pub fn is_told(rt: &impl Eprint, net: &[Port<MemListen>], place: usize, replies: &str) -> bool {
    match net.get(place) {
        Some(port) => are_told(rt, &port.listener, replies),
        None => false,
    }
}
