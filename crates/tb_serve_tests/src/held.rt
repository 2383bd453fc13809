// A listener in memory.

ghost use Rattle.std.specs.Prelude.{IfOk};
ghost use Rattle.tb_io.specs.HeldSessions.{listener_of};
ghost use Rattle.tb_io.specs.Listeners.{CanBind};

use super::tasks::{Served, Task, serve_one};
use std::alloc::Global;
use std::thread::Threads;
use tb_base::Memory;
use tb_io::{Bound, Listen, MemListen, MemSink, MemSource};

fn session(alloc: Global, bytes: &[u8]) -> Result<(MemSource, MemSink), Memory> {
    let reader = MemSource::new(alloc, bytes, 1, &[])?;
    match MemSink::new(alloc, 1) {
        Ok(writer) => Ok((reader, writer)),
        Err(_) => Err(Memory),
    }
}

// Sessions of a byte each.
fn sessions(alloc: Global, bytes: &[u8]) -> Result<Vec<(MemSource, MemSink)>, Memory> {
    let mut sessions = Vec::new(alloc);
    for byte in bytes {
        sessions.push(session(alloc, &[*byte])?)?;
    }
    Ok(sessions)
}

// Two sessions of a byte each, of which the second accept fails.
fn two_sessions(alloc: Global, bind_fails: bool) -> Result<MemListen, Memory>
    ensures { IfOk result (λ listener. CanBind (listener_of listener)) }
{
    let sessions = sessions(alloc, b"ab")?;
    MemListen::new(alloc, bind_fails, sessions, &[2])
}

// Binds the listener, and accepts four times.
fn serve_four<R: Threads + Sync>(rt: &R, listener: &mut MemListen) -> [Served; 4]
    requires { CanBind (listener_of listener.old) }
{
    match listener.bind(4_000) {
        Bound::Ready => {
            let first = serve_one(rt, listener, Task::Echo);
            let second = serve_one(rt, listener, Task::Echo);
            let third = serve_one(rt, listener, Task::Echo);
            [first, second, third, serve_one(rt, listener, Task::Echo)]
        }
        Bound::Failed => [Served::Unbound; 4],
    }
}

// Whether so many sessions are to come and so many came back, each of which wrote a byte and left
// none.
fn came_back(listener: &MemListen, to_come: usize, back: usize) -> bool {
    for i in 0..listener.back() {
        if !listener.reader_at(i).left().is_empty() || listener.writer_at(i).taken().len() != 1 {
            return false;
        }
    }
    listener.to_come() == to_come && listener.back() == back
}

// Whether four accepts of two sessions end so, and so many sessions are to come and came back.
fn end_so<R: Threads + Sync>(
    rt: &R,
    alloc: Global,
    bind_fails: bool,
    want: [Served; 4],
    to_come: usize,
    back: usize,
) -> bool {
    match two_sessions(alloc, bind_fails) {
        Ok(mut listener) => {
            serve_four(rt, &mut listener) == want && came_back(&listener, to_come, back)
        }
        Err(_) => false,
    }
}

#[test]
fn sessions_come_in_order_and_come_back(rt: HostRuntime) {
    let want = [
        Served::Byte(b'a'),
        Served::Refused,
        Served::Byte(b'b'),
        Served::None,
    ];
    assert!(&rt; end_so(&rt, rt.alloc(), false, want, 0, 2));
}

#[test]
fn bind_that_is_to_fail_fails(rt: HostRuntime) {
    assert!(&rt; end_so(&rt, rt.alloc(), true, [Served::Unbound; 4], 2, 0));
}
