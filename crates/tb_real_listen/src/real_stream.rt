// The two ends of a TCP stream, and the outbox, where bytes wait to be written to it. They tell
// nothing of what they give and take.

ghost use Rattle.std.specs.Prelude.{◌≡◌, None, IfOk};
ghost use Rattle.std.specs.Io.{ReadsAtMost};

use crate::lingering::linger;
use std::alloc::Global;
use std::io;
use std::io::{BufWriter, ErrorKind, Write};
use std::net::TcpStream;
use std::sync::{Arc, Mutex, MutexGuard};
use std::time::Clock;
use tb_io::{Read, Sink, Source, Wrote, count_fault};

/// How many bytes wait before they are written out together.
const BUFFER: usize = 16_384;

// The peer of the session that is out, and nobody between sessions, where bytes are lost and none
// are left to read.
#[derive(Drop)]
struct Peer {
    stream: Option<TcpStream>,
}

impl Peer {
    fn read(&mut self, buf: &mut [u8]) -> io::Result<usize>
        ensures { ReadsAtMost result buf.new }
    {
        match &mut self.stream {
            Some(stream) => io::Read::read(stream, buf),
            None => Ok(0),
        }
    }
}

impl Write for Peer {
    fn write(&mut self, buf: &[u8]) -> io::Result<usize> {
        match &mut self.stream {
            Some(stream) => stream.write(buf),
            None => Ok(buf.len()),
        }
    }

    fn flush(&mut self) -> io::Result<()> {
        Ok(())
    }
}

/// The stream of the session that is out, and bytes that wait to be written to it together. A
/// listener has one outbox for its sessions, one after another, and both ends of a session share
/// it: so a session takes one file of the system.
#[derive(Drop)]
pub(crate) struct Outbox {
    shared: Arc<Mutex<BufWriter<Peer>>>,
}

impl Outbox {
    /// An outbox of nobody. It takes all memory that its sessions need.
    pub(crate) fn new(alloc: Global) -> io::Result<Outbox> {
        let out = BufWriter::with_capacity(alloc, BUFFER, Peer { stream: None })?;
        let shared = Arc::new(alloc, Mutex::new(out))?;
        Ok(Outbox { shared })
    }

    // The same outbox, for another end. It takes no memory.
    fn share(&self) -> io::Result<Outbox> {
        let shared = Arc::try_clone(&self.shared)?;
        Ok(Outbox { shared })
    }

    // It fails only where another thread has the outbox: nobody waits for it.
    fn lock(&self) -> io::Result<MutexGuard<'_, BufWriter<Peer>>> {
        match self.shared.try_lock() {
            Some(out) => Ok(out),
            None => Err(io::Error::from(ErrorKind::WouldBlock)),
        }
    }

    // Takes the bytes, and writes out what waits where there is no room for them.
    fn put(&self, bytes: &[u8]) -> io::Result<()> {
        self.lock()?.write_all(bytes)
    }

    // Writes out what waits, and then reads.
    fn read(&self, buf: &mut [u8]) -> io::Result<usize>
        ensures { ReadsAtMost result buf.new }
    {
        let mut out = self.lock()?;
        out.flush()?;
        out.get_mut().read(buf)
    }

    // Begins the session of this stream.
    fn open(&self, stream: TcpStream) -> io::Result<()> {
        self.lock()?.get_mut().stream = Some(stream);
        Ok(())
    }

    // Ends the session, whose stream is closed: what waits is lost.
    fn abandon(&self) -> io::Result<()> {
        let mut out = self.lock()?;
        out.get_mut().stream = None;
        out.flush()
    }

    // Writes out what waits, and ends the session, whose stream it gives back: what can't be written
    // is lost.
    fn close(&self) -> io::Result<Option<TcpStream>> {
        let mut out = self.lock()?;
        let sent = out.flush();
        let stream = out.get_mut().stream.take();
        out.flush()?;
        sent?;
        Ok(stream)
    }
}

/// The reading end of a TCP stream.
///
/// Before it reads it writes out what its writing end took, so no peer waits for what was written.
/// Each error of the system counts one fault, up to the count's last value, and the read fails; so
/// does one whose peer has reset the connection, or takes no more, or sends nothing for as long as
/// its listener waits, and one beside a write in another thread. A read where the peer has ended it
/// returns End.
#[derive(Drop)]
pub struct RealSource {
    outbox: Outbox,
    faults: u64,
    // Whether the peer has ended it.
    ended: bool,
}

/// The writing end of a TCP stream.
///
/// What it takes waits until there is no room for more, the reading end reads, or the session is
/// given back; what can't be written out by then is lost. Each error of the system counts one
/// fault, up to the count's last value, and the write fails; so does one whose peer has closed the
/// connection, where bytes are written out, and one beside a read in another thread. No write
/// raises a signal, and none takes memory.
#[derive(Drop)]
pub struct RealStreamSink {
    outbox: Outbox,
    faults: u64,
}

/// Both ends of a stream, with no fault so far, over the outbox of their listener.
pub(crate) fn ends_of(
    stream: TcpStream,
    outbox: &Outbox,
) -> io::Result<(RealSource, RealStreamSink)>
    ensures { IfOk result (λ ends. (ends.0.faults ≡ 0) × (ends.1.faults ≡ 0)) }
{
    let reads = outbox.share()?;
    let writes = outbox.share()?;
    outbox.open(stream)?;
    let reader = RealSource {
        outbox: reads,
        faults: 0,
        ended: false,
    };
    let writer = RealStreamSink {
        outbox: writes,
        faults: 0,
    };
    Ok((reader, writer))
}

impl RealSource {
    // Whether a read failed.
    pub(crate) fn has_failed(&self) -> bool {
        self.faults > 0
    }

    /// Closes the stream, both ways. What waits is lost.
    pub(crate) fn abandon(self) {
        let _ = self.outbox.abandon();
    }

    /// Writes out what waits and closes the stream, both ways. All that was written reaches the
    /// peer, also one that goes on sending, which is waited for a while.
    pub(crate) fn close(self, clock: &impl Clock) {
        // Where the peer has closed it already nothing is left to do.
        if let Ok(Some(mut stream)) = self.outbox.close() {
            if !self.ended {
                let _ = linger(clock, &mut stream);
            }
        }
    }
}

impl RealStreamSink {
    // Whether a write failed.
    pub(crate) fn has_failed(&self) -> bool {
        self.faults > 0
    }
}

impl Source for RealSource {
    ghost faults = { λ source. source.faults };

    ghost left = { λ _. None };

    /// Waits for the peer where nothing is there yet.
    fn read(&mut self, buf: &mut [u8]) -> Read {
        match self.outbox.read(buf) {
            Ok(0) => {
                self.ended = true;
                Read::End
            }
            Ok(n) => Read::Got(n),
            Err(_) => {
                self.faults = self.faults.saturating_add(1);
                Read::Failed
            }
        }
    }
}

impl Sink for RealStreamSink {
    ghost faults = { λ sink. sink.faults };

    ghost taken = { λ _. None };

    /// Waits for the peer where there is no room and it is behind.
    fn write(&mut self, bytes: &[u8]) -> Wrote {
        let outcome = self.outbox.put(bytes);
        count_fault(outcome, &mut self.faults)
    }
}
