// The commands `host` and `mirror` with three workers at one door, of which the accept of one fails.

ghost use Rattle.std.specs.Prelude.{All, IfOk};
ghost use Rattle.tb_serve.specs.Stages.{IsFresh};

use super::command::ends_so;
use super::ports::{add_sessions, is_told};
use std::alloc::Global;
use std::sync::Wait;
use std::test::Fail;
use std::thread::Threads;
use tb_base::{Memory, Status};
use tb_io::MemListen;
use tb_serve::Port;

const HOST: &str = "host classes recodes ptable people 0 - - journal 5000 3 1";

const MIRROR: &str = "mirror classes recodes ptable people 0 - - 5000 3 1";

// What is written: one of the three workers had no session.
const TEXT: &[u8] = b"port 5000 sessions 1\nport 5001 sessions 2\nrelease 0\nfault net\n";

const TABLE: &str = "table SEX\n";

const TOLD: &str = "release 0\nSEX,count\n1,1\n2,2\n.\n";

// As many bytes as a session here has of replies, and more.
const ALL: usize = 400;

// A port with a session of no line, and three with one for a table, of which the second's accept fails.
fn ports(alloc: Global) -> Result<Vec<Port<MemListen>>, Memory>
    ensures { IfOk result (λ net. All IsFresh net.items) }
{
    let mut net = Vec::new(alloc);
    add_sessions(alloc, &mut net, "", ALL, 0)?;
    add_sessions(alloc, &mut net, TABLE, ALL, 0)?;
    add_sessions(alloc, &mut net, TABLE, ALL, 1)?;
    add_sessions(alloc, &mut net, TABLE, ALL, 0)?;
    Ok(net)
}

// Whether no session came back at the port at this place.
fn is_silent(net: &[Port<MemListen>], place: usize) -> bool {
    match net.get(place) {
        Some(port) => port.listener.back() == 0,
        None => false,
    }
}

// Whether the other two workers answer, and the run ends by that fault.
fn others_go_on(
    rt: &(impl Threads + Wait + Sync + Eprint),
    alloc: Global,
    command: &str,
) -> Result<bool, Memory> {
    let mut net = ports(alloc)?;
    Ok(
        ends_so(rt, alloc, command, &mut net, Status::NetFault, TEXT)
            && is_told(rt, &net, 1, TOLD)
            && is_silent(&net, 2)
            && is_told(rt, &net, 3, TOLD),
    )
}

#[test]
fn others_at_a_host_go_on(rt: HostRuntime) -> Result<(), Fail> {
    assert!(&rt; others_go_on(&rt, rt.alloc(), HOST)?);
    Ok(())
}

#[test]
fn others_at_a_mirror_go_on(rt: HostRuntime) -> Result<(), Fail> {
    assert!(&rt; others_go_on(&rt, rt.alloc(), MIRROR)?);
    Ok(())
}
