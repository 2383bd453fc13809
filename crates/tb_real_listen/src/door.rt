// One port of the system for several listeners.

use std::alloc::Global;
use std::io;
use std::io::ErrorKind;
use std::net::{Ipv4Addr, Net, TcpListener, TcpStream};
use std::sync::{Arc, Mutex};

// The socket of a door while some of its listeners have yet to enter, and how many files this
// process still needs once it is open.
#[derive(Drop)]
struct Entrance {
    socket: Option<Arc<TcpListener>>,
    to_enter: u32,
    files: u32,
}

// Takes so many files, and gives them back. It fails where the system hasn't so many more for this
// process: a listener needs one from the start, as it waits in its accept.
fn try_files(alloc: Global, socket: &TcpListener, count: u32) -> io::Result<()> {
    let mut held = Vec::new(alloc);
    for _ in 0..count {
        held.push(socket.try_clone()?)?;
    }
    Ok(())
}

/// One port of the system at which several listeners accept, each in a thread of its own. The first
/// that is bound opens it, unless the system hasn't the files that are needed then; it is closed
/// once none of them listens any more.
#[derive(Drop)]
pub struct Door {
    shared: Arc<Mutex<Entrance>>,
}

impl Door {
    /// A door of so many listeners, all of which are to be bound. Once it is open this process is
    /// still to need so many files: one for each listener, here and elsewhere. It takes memory.
    pub fn new(alloc: Global, listeners: u32, files: u32) -> io::Result<Door> {
        let entrance = Entrance {
            socket: None,
            to_enter: listeners,
            files,
        };
        let shared = Arc::new(alloc, Mutex::new(entrance))?;
        Ok(Door { shared })
    }

    /// The same door, for another listener. It takes no memory.
    pub fn share(&self) -> io::Result<Door> {
        let shared = Arc::try_clone(&self.shared)?;
        Ok(Door { shared })
    }

    // The socket that all of its listeners have, and whether this call opened it. It fails where
    // another thread is in it: nobody waits.
    pub(crate) fn enter<R: Net<Listener = TcpListener, Stream = TcpStream>>(
        &self,
        rt: &R,
        alloc: Global,
        port: u16,
    ) -> io::Result<(Arc<TcpListener>, bool)> {
        let Some(mut entrance) = self.shared.try_lock() else {
            return Err(io::Error::from(ErrorKind::WouldBlock));
        };
        let known = entrance.socket.take();
        let is_new = known.is_none();
        let socket = match known {
            Some(socket) => socket,
            None => {
                let socket = listen(rt, alloc, port)?;
                try_files(alloc, &socket, entrance.files)?;
                socket
            }
        };
        let own = Arc::try_clone(&socket)?;
        entrance.to_enter = entrance.to_enter.saturating_sub(1);
        // The last that enters leaves the socket to those who have it.
        if entrance.to_enter > 0 {
            entrance.socket = Some(socket);
        }
        Ok((own, is_new))
    }
}

/// A socket that listens on this port.
pub(crate) fn listen<R: Net<Listener = TcpListener, Stream = TcpStream>>(
    rt: &R,
    alloc: Global,
    port: u16,
) -> io::Result<Arc<TcpListener>> {
    let socket = TcpListener::bind(rt, (Ipv4Addr::LOCALHOST, port))?;
    Ok(Arc::new(alloc, socket)?)
}
