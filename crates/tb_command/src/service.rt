// The service of sessions that a command asks for.

ghost use Rattle.std.specs.Prelude.{◌≡◌, ◌+◌};
ghost use Rattle.tb_command.specs.ServicePorts as ports;
ghost use Rattle.tb_command.specs.ServicePorts.{HasPorts, service_named};

use crate::numbers::read_within;
use std::marker::Model;

/// The most workers that serve analysts, each at a port of its own.
pub const MOST_WORKERS: u32 = 16;

/// The most that serve them at a door.
pub const MOST_DOOR_WORKERS: u32 = 1_024;

/// The greatest first port, after which there is a port for each worker.
pub const MOST_PORT: u16 = 65_519;

/// The greatest first port before a door. One more is left for another door.
pub const MOST_DOOR_PORT: u16 = 65_533;

/// The most sessions of a worker.
pub const MOST_SESSIONS: u32 = 1_000_000;

/// Where analysts are served: at ports in a row, one for each worker, after the first port; or at
/// one, the door, which is the port after it.
#[derive(Clone, Copy, Debug, PartialEq, Eq)]
pub enum Layout {
    Row,
    Door,
}

impl Layout {
    /// The greatest first port.
    pub fn most_port(self) -> u16
        ensures { result ≡ ports.most_port self }
    {
        match self {
            Layout::Row => MOST_PORT,
            Layout::Door => MOST_DOOR_PORT,
        }
    }

    /// The most workers.
    pub fn most_workers(self) -> u32
        ensures { result ≡ ports.most_workers self }
    {
        match self {
            Layout::Row => MOST_WORKERS,
            Layout::Door => MOST_DOOR_WORKERS,
        }
    }
}

/// Where sessions are served: the custodian's or the leader's at `port`, analysts' by so many
/// workers, and so many there and by each.
#[derive(Drop)]
pub struct Service {
    layout: Layout,
    port: u16,
    workers: u32,
    sessions: u32,
}

impl Model for Service {
    ghost use Rattle.tb_command.specs.ServicePorts.{HasPorts, Service as ServiceValue};
    ghost use Rattle.tb_command.specs.ServicePorts.{service_with};

    ghost Value = { ServiceValue };

    ghost view = { λ s. service_with s.layout s.port s.workers s.sessions };

    ghost invariant = { λ s. HasPorts (service_with s.layout s.port s.workers s.sessions) };
}

impl Service {
    /// The same service.
    pub fn copy(&self) -> Service
        ensures { result ≡ self.now }
    {
        Service {
            layout: self.layout,
            port: self.port,
            workers: self.workers,
            sessions: self.sessions,
        }
    }

    /// Where analysts are served.
    pub fn layout(&self) -> Layout
        ensures { result ≡ self.now.layout }
    {
        self.layout
    }

    /// The first port. Those after it, for the workers, are ports too.
    pub fn port(&self) -> u16
        ensures port { result ≡ self.now.port }
        ensures ports { HasPorts self.now }
    {
        let _ = self.workers;
        self.port
    }

    /// How many workers serve analysts.
    pub fn workers(&self) -> u32
        ensures { result ≡ self.now.workers }
    {
        self.workers
    }

    /// How many ports it takes: the first, and one for each worker.
    pub fn ports(&self) -> u32
        ensures { result ≡ self.now.workers + 1 }
    {
        let _ = self.layout;
        self.workers + 1
    }

    /// How many sessions the first port and each worker has.
    pub fn sessions(&self) -> u32
        ensures { result ≡ self.now.sessions }
    {
        self.sessions
    }
}

/// The service that the arguments `PORT WORKERS SESSIONS` name.
pub fn read_service(layout: Layout, port: &str, workers: &str, sessions: &str) -> Option<Service>
    ensures { result ≡ service_named layout port.now workers.now sessions.now }
{
    let port = read_within(1, u32::from(layout.most_port()), port)? as u16;
    let workers = read_within(1, layout.most_workers(), workers)?;
    let sessions = read_within(1, MOST_SESSIONS, sessions)?;
    Some(Service {
        layout,
        port,
        workers,
        sessions,
    })
}
