// Streams of clients over loopback, and ports that are free.

use std::io::{Read as _, Write as _};
use std::net::{Ipv4Addr, Net, TcpListener, TcpStream};
use std::thread;
use std::time::{Clock, Duration};

// How often a client tries to connect, 10 ms after one another.
const TRIES: u32 = 1_000;

// A listener at a port, or at any free one where it is 0.
fn listen<R: Net<Listener = TcpListener, Stream = TcpStream>>(
    rt: &R,
    port: u16,
) -> Option<TcpListener> {
    TcpListener::bind(rt, (Ipv4Addr::LOCALHOST, port)).ok()
}

fn port_of(listener: &TcpListener) -> Option<u16> {
    match listener.local_addr() {
        Ok(addr) => Some(addr.port()),
        Err(_) => None,
    }
}

/// Whether nobody listens at a port.
pub fn is_free<R: Net<Listener = TcpListener, Stream = TcpStream>>(rt: &R, port: u16) -> bool {
    listen(rt, port).is_some()
}

/// A port that is free now.
pub fn free_port<R: Net<Listener = TcpListener, Stream = TcpStream>>(rt: &R) -> Option<u16> {
    match listen(rt, 0) {
        Some(listener) => port_of(&listener),
        None => None,
    }
}

/// Connects as soon as there is a listener.
pub fn connect<R: Net<Listener = TcpListener, Stream = TcpStream> + Clock>(
    rt: &R,
    port: u16,
) -> Option<TcpStream> {
    for _ in 0..TRIES {
        if let Ok(stream) = TcpStream::connect(rt, (Ipv4Addr::LOCALHOST, port)) {
            return Some(stream);
        }
        thread::sleep(rt, Duration::from_millis(10));
    }
    None
}

/// Sends bytes, and returns whether that is done.
pub fn sends(stream: &mut TcpStream, bytes: &[u8]) -> bool {
    stream.write_all(bytes).is_ok()
}

/// Whether just these bytes come next.
pub fn reads(stream: &mut TcpStream, bytes: &[u8]) -> bool {
    let mut back = [0; 1];
    for byte in bytes {
        if stream.read_exact(&mut back).is_err() || back[0] != *byte {
            return false;
        }
    }
    true
}

/// Whether the end comes next.
pub fn is_at_end(stream: &mut TcpStream) -> bool {
    matches!(stream.read(&mut [0; 1]), Ok(0))
}
