ghost use Rattle.std.specs.Prelude.{◌≡◌, None, false, IfOk, OnErr};
ghost use Rattle.tb_io.specs.Listeners.{CanAccept, HasFailed, Gives, connection, telling_none};

use crate::door::{Door, listen};
use crate::real_stream::{Outbox, RealSource, RealStreamSink, ends_of};
use crate::trouble::{Trouble, trouble_of};
use std::alloc::Global;
use std::io::ErrorKind;
use std::marker::Model;
use std::net::{Net, TcpListener, TcpStream};
use std::sync::Arc;
use std::time::{Clock, Duration};
use std::{io, thread};
use tb_io::{Accepted, Bound, Listen};

/// How many times in a row an accept is tried again whose client went away before it.
const MOST_LOST_CLIENTS: u32 = 1_000;

/// How many times in a row one is tried again that failed for want of files or memory, and how long
/// it waits before each.
const MOST_PAUSES: u32 = 60;

const PAUSE_SECONDS: u64 = 1;

// A socket that listens, which others may have too, and the outbox of its sessions here.
#[derive(Drop)]
struct OpenPort {
    socket: Arc<TcpListener>,
    outbox: Outbox,
}

/// A TCP listener on the loopback address, 127.0.0.1, with a port of its own or at a door, whose
/// listeners share one.
///
/// It tells no sessions, and closes those that come back, once what they wrote was written out. A
/// session whose client sends nothing for a time that it is given, or takes nothing, ends as by a
/// fault of its stream. Each error of a bind or an accept counts one fault, up to the count's last
/// value, and is told by one line on the standard error; so is the port, once a listener is bound
/// to it, and once none listens there any more: each ends after an accept that failed, and after so
/// many sessions. Where the standard error can't be written nothing is told, and nothing else
/// changes.
#[derive(Drop)]
pub struct RealListen<'a, R: Net<Listener = TcpListener, Stream = TcpStream> + Eprint + Clock> {
    rt: &'a R,
    alloc: Global,
    door: Option<Door>,
    idle: Option<Duration>,
    open: Option<OpenPort>,
    port: Option<u16>,
    sessions: u32,
    faults: u64,
    is_out: bool,
}

impl<'a, R: Net<Listener = TcpListener, Stream = TcpStream> + Eprint + Clock> Model
    for RealListen<'a, R> {
    ghost use Rattle.tb_io.specs.Listeners.{ListenerValue, listener_code, telling_none};

    ghost Value = { ListenerValue };

    ghost coded = { listener_code };

    ghost view = { λ l. telling_none l.faults l.port l.is_out };
}

impl<'a, R: Net<Listener = TcpListener, Stream = TcpStream> + Eprint + Clock> RealListen<'a, R> {
    /// A listener of this runtime that isn't bound, with no fault so far, which is to have so many
    /// sessions. It takes no memory. A bind takes all that the sessions need, and fails where it is
    /// refused.
    pub fn new(rt: &'a R, alloc: Global, sessions: u32) -> RealListen<'a, R>
        ensures { result ≡ telling_none 0 None false }
    {
        RealListen {
            rt,
            alloc,
            door: None,
            idle: None,
            open: None,
            port: None,
            sessions,
            faults: 0,
            is_out: false,
        }
    }

    /// The same, at a door if one is given, whose sessions end after `idle`, if it is given.
    pub fn at(
        rt: &'a R,
        alloc: Global,
        sessions: u32,
        door: Option<Door>,
        idle: Option<Duration>,
    ) -> RealListen<'a, R>
        ensures { result ≡ telling_none 0 None false }
    {
        RealListen {
            rt,
            alloc,
            door,
            idle,
            open: None,
            port: None,
            sessions,
            faults: 0,
            is_out: false,
        }
    }

    // Counts a failed call.
    fn count_failure(&mut self)
        ensures { HasFailed self.old self.new }
    {
        self.faults = self.faults.saturating_add(1);
    }

    // Listens no more, and tells so where it was the last to listen there.
    fn shut(&mut self)
        ensures { self.new ≡ self.old }
    {
        if let Some(port) = self.port {
            if is_last(self.open.take()) {
                let _ = eprintln!(self.rt; "no longer listening on 127.0.0.1:{port}");
            }
        }
    }

    // The next stream, or the error, counted and told.
    fn accept_once(&mut self) -> io::Result<(RealSource, RealStreamSink)>
        requires { CanAccept self.old }
        ensures ok { IfOk result (λ ends. Gives self.old self.new
            (connection None None ends.0.faults ends.1.faults)) }
        ensures err { OnErr result (HasFailed self.old self.new) }
        ensures untold { self.new.to_come ≡ None }
    {
        let Some(port) = self.port else {
            unreachable!()
        };
        match accept_ends(&self.open, self.idle) {
            Ok(ends) => {
                self.is_out = true;
                Ok(ends)
            }
            Err(e) => {
                let _ = eprintln!(self.rt; "accept on 127.0.0.1:{port} failed: {e}");
                self.count_failure();
                Err(e)
            }
        }
    }
}

// A socket that listens on this port, with an outbox, and whether it listens since this call.
fn open_port<R: Net<Listener = TcpListener, Stream = TcpStream>>(
    rt: &R,
    alloc: Global,
    door: &Option<Door>,
    port: u16,
) -> io::Result<(OpenPort, bool)> {
    let outbox = Outbox::new(alloc)?;
    let (socket, is_new) = match door {
        Some(door) => door.enter(rt, alloc, port)?,
        None => (listen(rt, alloc, port)?, true),
    };
    Ok((OpenPort { socket, outbox }, is_new))
}

// Lets a port go, and says whether nobody listens there then.
fn is_last(open: Option<OpenPort>) -> bool {
    match open {
        Some(OpenPort { socket, outbox: _ }) => Arc::into_inner(socket).is_some(),
        None => false,
    }
}

// The next stream of a port, as its two ends, unless the port was shut. What is written out is to be
// sent at once; where that can't be had it comes later. It waits for its peer for this time at most.
fn accept_ends(
    open: &Option<OpenPort>,
    idle: Option<Duration>,
) -> io::Result<(RealSource, RealStreamSink)>
    ensures { IfOk result (λ ends. (ends.0.faults ≡ 0) × (ends.1.faults ≡ 0)) }
{
    let Some(open) = open else {
        return Err(io::Error::from(ErrorKind::NotConnected));
    };
    let (stream, _) = open.socket.accept()?;
    let _ = stream.set_nodelay(true);
    let _ = stream.set_read_timeout(idle);
    let _ = stream.set_write_timeout(idle);
    ends_of(stream, &open.outbox)
}

// How often an accept may yet be tried again.
#[derive(Clone, Copy)]
struct Tries {
    lost: u32,
    pauses: u32,
}

impl Tries {
    fn new() -> Tries {
        Tries {
            lost: MOST_LOST_CLIENTS,
            pauses: MOST_PAUSES,
        }
    }

    // Whether to try again after this error, once the pause that it calls for is over.
    fn again(&mut self, clock: &impl Clock, e: &io::Error) -> bool {
        match trouble_of(e) {
            Trouble::Gone if self.lost > 0 => {
                self.lost -= 1;
                true
            }
            Trouble::Want if self.pauses > 0 => {
                self.pauses -= 1;
                thread::sleep(clock, Duration::from_secs(PAUSE_SECONDS));
                true
            }
            _ => false,
        }
    }
}

impl<'a, R: Net<Listener = TcpListener, Stream = TcpStream> + Eprint + Clock> Listen
    for RealListen<'a, R> {
    type Reader = RealSource;

    type Writer = RealStreamSink;

    ghost seen = { λ listener. listener };

    fn bind(&mut self, port: u16) -> Bound {
        match open_port(self.rt, self.alloc, &self.door, port) {
            Ok((open, is_new)) => {
                if is_new {
                    let _ = eprintln!(self.rt; "listening on 127.0.0.1:{port}");
                }
                self.open = Some(open);
                self.port = Some(port);
                Bound::Ready
            }
            Err(e) => {
                let _ = eprintln!(self.rt; "cannot listen on 127.0.0.1:{port}: {e}");
                self.count_failure();
                Bound::Failed
            }
        }
    }

    /// Tries again where a client went away before it was accepted, so that it fails by no client,
    /// and, after a pause, where the system had no file or no memory for it. Where it fails it
    /// listens no more.
    fn accept(&mut self) -> Accepted<RealSource, RealStreamSink> {
        let mut tries = Tries::new();
        for _ in 0..=MOST_LOST_CLIENTS + MOST_PAUSES {
            match self.accept_once() {
                Ok((reader, writer)) => return Accepted::Session(reader, writer),
                Err(e) if tries.again(self.rt, &e) => {}
                Err(_) => {
                    self.shut();
                    return Accepted::Failed;
                }
            }
        }
        self.shut();
        Accepted::Failed
    }

    /// What a session that ended by a fault of its stream still had to be written is lost: its peer
    /// is waited for no longer.
    fn give_back(&mut self, reader: RealSource, writer: RealStreamSink) {
        self.sessions = self.sessions.saturating_sub(1);
        if self.sessions == 0 {
            self.shut();
        }
        if reader.has_failed() || writer.has_failed() {
            reader.abandon();
        } else {
            reader.close(self.rt);
        }
        self.is_out = false;
    }
}
