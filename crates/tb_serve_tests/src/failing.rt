// The command `serve` over listeners of which a bind or an accept fails.

ghost use Rattle.std.specs.Prelude.{All, IfOk};
ghost use Rattle.tb_serve.specs.Stages.{IsFresh};

use super::command::ends_so;
use super::ports::{PORTS, add_port, fill};
use std::alloc::Global;
use std::sync::Wait;
use std::thread::Threads;
use tb_base::{Memory, Status};
use tb_io::MemListen;
use tb_serve::Port;

// One worker, and one session at each port.
const SERVE: &str = "serve classes recodes ptable people 0 5000 1 1";

// The custodian's port, to which so many sessions are to come, and an analyst's, to which one is,
// and of whose calls some fail; and after them, to which none is to come, those that no run here asks for.
fn ports(
    alloc: Global,
    own: u32,
    bind_fails: bool,
    fails: &[u32],
) -> Result<Vec<Port<MemListen>>, Memory>
    ensures { IfOk result (λ net. All IsFresh net.items) }
{
    let mut net = Vec::new(alloc);
    add_port(alloc, &mut net, b"table SEX\n", own, false, &[])?;
    add_port(alloc, &mut net, b"table SEX\n", 1, bind_fails, fails)?;
    fill(alloc, &mut net, b"", 0, PORTS)?;
    Ok(net)
}

// How many sessions are still to come, and how many came back.
fn sessions_at(net: &[Port<MemListen>]) -> (usize, usize) {
    let mut to_come: usize = 0;
    let mut back: usize = 0;
    for port in net {
        to_come = to_come.saturating_add(port.listener.to_come());
        back = back.saturating_add(port.listener.back());
    }
    (to_come, back)
}

// Whether nothing comes of the sessions, and this is written.
fn ends_by_net_fault(
    rt: &(impl Threads + Wait + Sync + Eprint),
    alloc: Global,
    net: &mut Vec<Port<MemListen>>,
    text: &[u8],
) -> bool
    requires fresh { All IsFresh net.old.items }
{
    let sessions = sessions_at(net);
    ends_so(rt, alloc, SERVE, net, Status::NetFault, text) && sessions_at(net) == sessions
}

// The same of ports of which some calls fail.
fn is_net_fault(
    rt: &(impl Threads + Wait + Sync + Eprint),
    alloc: Global,
    own: u32,
    bind_fails: bool,
    fails: &[u32],
    text: &[u8],
) -> bool {
    match ports(alloc, own, bind_fails, fails) {
        Ok(mut net) => ends_by_net_fault(rt, alloc, &mut net, text),
        Err(_) => false,
    }
}

#[test]
fn analysts_bind_fails(rt: HostRuntime) {
    assert!(&rt; is_net_fault(&rt, rt.alloc(), 1, true, &[], b"fault net\n"));
}

#[test]
fn analysts_first_accept_fails(rt: HostRuntime) {
    let text = b"worker 0 sessions 0\nworker 1 sessions 0\nrelease 0\nfault net\n";
    assert!(&rt; is_net_fault(&rt, rt.alloc(), 0, false, &[1], text));
}
