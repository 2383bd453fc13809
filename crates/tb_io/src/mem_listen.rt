ghost use Rattle.std.specs.Prelude.{◌≡◌, ◌<◌, [], true, false, None, IfOk, IfSome, length};
ghost use Rattle.std.specs.Prelude.{slice_get};
ghost use Rattle.tb_io.specs.HeldSessions.{listener_of, session_of, bind_of, after_bind};
ghost use Rattle.tb_io.specs.HeldSessions.{accept_of, after_accept, after_give_back};
ghost use Rattle.tb_io.specs.Listeners.{CanBind, CanAccept, HasBound, HasAccepted};
ghost use Rattle.tb_io.specs.Listeners.{connection, given_back};

use crate::answers::{Accepted, Bound};
use crate::failures::is_listed;
use crate::listen::Listen;
use crate::mem_sink::MemSink;
use crate::mem_source::MemSource;
use std::alloc::Global;
use std::collections::VecDeque;
use std::marker::Model;
use tb_base::Memory;

/// A listener in memory, whose sessions come in order and of which some accepts fail.
///
/// It keeps the sessions that come back. Only `new` takes memory.
#[derive(Drop)]
pub struct MemListen {
    sessions: VecDeque<(MemSource, MemSink)>,
    back: Vec<(MemSource, MemSink)>,
    bind_fails: bool,
    fails: Vec<u32>,
    calls: u64,
    faults: u64,
    port: Option<u16>,
    is_out: bool,
}

impl Model for MemListen {
    ghost use Rattle.std.specs.Prelude.{◌≤◌, ◌+◌, length, vec_capacity};
    ghost use Rattle.tb_io.specs.HeldSessions.{HeldSessions, out_count};

    ghost Value = { HeldSessions };

    ghost view = { λ l. record {
      to_come = l.sessions.items;
      came_back = l.back.items;
      bind_fails = l.bind_fails;
      fails = l.fails.items;
      calls = l.calls;
      faults = l.faults;
      port = l.port;
      is_out = l.is_out;
    } };

    ghost invariant = { λ l. length l.back.items + length l.sessions.items + out_count l.is_out
        ≤ vec_capacity l.back };
}

impl MemListen {
    /// A listener with these sessions to come, of which the accepts with the numbers `fails`, from
    /// 1, will fail, and each bind where `bind_fails` says so. It takes memory for the room in
    /// which the sessions come back.
    pub fn new(
        alloc: Global,
        bind_fails: bool,
        sessions: Vec<(MemSource, MemSink)>,
        fails: &[u32],
    ) -> Result<MemListen, Memory>
        ensures { IfOk result (λ listener. listener ≡ record {
          to_come = sessions.items;
          came_back = [];
          bind_fails = bind_fails;
          fails = fails.now;
          calls = 0;
          faults = 0;
          port = None;
          is_out = false;
        }) }
    {
        let back = Vec::with_capacity(alloc, sessions.len())?;
        let fails = Vec::from_slice(alloc, fails)?;
        Ok(MemListen {
            sessions: VecDeque::from(sessions),
            back,
            bind_fails,
            fails,
            calls: 0,
            faults: 0,
            port: None,
            is_out: false,
        })
    }

    /// How many sessions are to come.
    pub fn to_come(&self) -> usize
        ensures { result ≡ length self.now.to_come }
    {
        self.sessions.len()
    }

    /// How many sessions came back.
    pub fn back(&self) -> usize
        ensures { result ≡ length self.now.came_back }
    {
        self.back.len()
    }

    /// The reader of the session that came back at place `i`, from 0.
    pub fn reader_at(&self, i: usize) -> &MemSource
        requires { i < length self.now.came_back }
        ensures { IfSome (slice_get self.now.came_back i) (λ s. result.now ≡ s.0) }
    {
        &self.back[i].0
    }

    /// The writer of the session that came back at place `i`, from 0.
    pub fn writer_at(&self, i: usize) -> &MemSink
        requires { i < length self.now.came_back }
        ensures { IfSome (slice_get self.now.came_back i) (λ s. result.now ≡ s.1) }
    {
        &self.back[i].1
    }
}

impl Listen for MemListen {
    type Reader = MemSource;

    type Writer = MemSink;

    ghost seen = { listener_of };

    /// Fails exactly where the listener was made so.
    fn bind(&mut self, port: u16) -> Bound
        requires { CanBind (listener_of self.old) }
        ensures bound { HasBound (listener_of self.old) (listener_of self.new) port result }
        ensures exact { result ≡ bind_of self.old }
        ensures after { self.new ≡ after_bind self.old port result }
    {
        if self.bind_fails {
            self.faults = self.faults.saturating_add(1);
            return Bound::Failed;
        }
        self.port = Some(port);
        Bound::Ready
    }

    /// Fails exactly where the accept is one of those that are to fail; no session is lost by it.
    fn accept(&mut self) -> Accepted<MemSource, MemSink>
        requires { CanAccept (listener_of self.old) }
        ensures accepted { HasAccepted (λ r w. session_of (r, w)) (listener_of self.old)
            (listener_of self.new) result }
        ensures exact { result ≡ accept_of self.old }
        ensures after { self.new ≡ after_accept self.old result }
    {
        self.calls = self.calls.saturating_add(1);
        if is_listed(self.fails.as_slice(), self.calls) {
            self.faults = self.faults.saturating_add(1);
            return Accepted::Failed;
        }
        match self.sessions.pop_front() {
            Some((reader, writer)) => {
                self.is_out = true;
                Accepted::Session(reader, writer)
            }
            None => Accepted::End,
        }
    }

    /// Keeps the session, in room that is there.
    fn give_back(&mut self, reader: MemSource, writer: MemSink)
        requires { self.old.is_out ≡ true }
        ensures back { listener_of self.new
            ≡ given_back (listener_of self.old) (session_of (reader, writer)) }
        ensures after { self.new ≡ after_give_back self.old (reader, writer) }
    {
        self.back.push_reserved((reader, writer));
        self.is_out = false;
    }
}
