// The ports of a run.

ghost use Rattle.std.specs.Prelude.{◌≡◌, ◌+◌, All, IfOk, vec_len};
ghost use Rattle.tb_command.specs.Commands.{command_of, ports_asked};
ghost use Rattle.tb_serve.specs.Stages.{IsFresh};

use std::alloc::Global;
use std::net::{Net, TcpListener, TcpStream};
use std::time::{Clock, Duration};
use tb_base::Memory;
use tb_command::{Arguments, Layout, Service};
use tb_real_listen::{Door, RealListen};
use tb_serve::Port;

/// After how many seconds a session ends whose client sends nothing, or takes nothing, where there
/// is a door.
pub const IDLE_SECONDS: u64 = 900;

// The service that is asked for, if one is.
fn service_of<'s>(arguments: &'s Arguments<'_>) -> Option<&'s Service> {
    match arguments.command() {
        Some(command) => command.service(),
        None => None,
    }
}

// How the listeners of a run are made: each is to have so many sessions, and where there is a door
// all but the first have it, and each lets a session end that is idle for this time.
#[derive(Drop)]
struct Listening {
    sessions: u32,
    door: Option<Door>,
    idle: Option<Duration>,
}

// The door of a service, which needs a file for each of its listeners and one for the first port.
fn door_of(alloc: Global, service: &Service) -> Result<Option<Door>, Memory> {
    match service.layout() {
        Layout::Row => Ok(None),
        Layout::Door => match Door::new(alloc, service.workers(), service.ports()) {
            Ok(door) => Ok(Some(door)),
            Err(_) => Err(Memory),
        },
    }
}

// How the listeners of a service are made.
fn listening_of(alloc: Global, service: Option<&Service>) -> Result<Listening, Memory> {
    let Some(service) = service else {
        return Ok(Listening {
            sessions: 0,
            door: None,
            idle: None,
        });
    };
    let door = door_of(alloc, service)?;
    let idle = match service.layout() {
        Layout::Row => None,
        Layout::Door => Some(Duration::from_secs(IDLE_SECONDS)),
    };
    Ok(Listening {
        sessions: service.sessions(),
        door,
        idle,
    })
}

// The door for one more listener, but for the first, which has a port of its own.
fn door_for(listening: &Listening, first: bool) -> Result<Option<Door>, Memory> {
    match &listening.door {
        Some(door) if !first => match door.share() {
            Ok(door) => Ok(Some(door)),
            Err(_) => Err(Memory),
        },
        _ => Ok(None),
    }
}

/// Ports of the system, as they are made: as many as the arguments ask for. It takes memory for
/// their list and for a door.
pub fn real_ports<'r, R: Net<Listener = TcpListener, Stream = TcpStream> + Eprint + Clock>(
    rt: &'r R,
    alloc: Global,
    arguments: &Arguments<'_>,
) -> Result<Vec<Port<RealListen<'r, R>>>, Memory>
    ensures ports { IfOk result (λ net. vec_len net ≡ ports_asked (command_of arguments.now)) }
    ensures fresh { IfOk result (λ net. All IsFresh net.items) }
{
    let listening = listening_of(alloc, service_of(arguments))?;
    let (sessions, idle) = (listening.sessions, listening.idle);
    let count = arguments.ports();
    let mut net = Vec::new(alloc);
    for i in 0..count {
        let door = door_for(&listening, i == 0)?;
        net.push(Port::of(RealListen::at(rt, alloc, sessions, door, idle)))?;
    }
    Ok(net)
}
