// The end of a session whose client may still be sending.

use std::io;
use std::net::{Shutdown, TcpStream};
use std::time::{Clock, Duration, Instant};

// For how long a client may go on sending after its session, and for how long it may pause.
const MOST_SECONDS: u64 = 2;

const MOST_PAUSE_MILLIS: u64 = 200;

// How many times it is read from at most.
const MOST_READS: u32 = 10_000_000;

/// Ends a stream to which all was written: tells its client so, and reads what that still sends, for
/// two seconds at most, until it ends too or pauses.
///
/// A stream that is closed while bytes wait in it is reset, and its client may then lose what was
/// written to it last. What is read here is lost.
pub(crate) fn linger(clock: &impl Clock, stream: &mut TcpStream) -> io::Result<()> {
    stream.shutdown(Shutdown::Write)?;
    stream.set_read_timeout(Some(Duration::from_millis(MOST_PAUSE_MILLIS)))?;
    let most = Duration::from_secs(MOST_SECONDS);
    let start = Instant::now(clock)?;
    let mut lost = [0; 4096];
    for _ in 0..MOST_READS {
        if io::Read::read(stream, &mut lost)? == 0 || start.elapsed(clock)? > most {
            break;
        }
    }
    Ok(())
}
