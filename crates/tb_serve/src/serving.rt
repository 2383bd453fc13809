// The command `serve`, over the ports of its workers.

ghost use Rattle.std.specs.Prelude.{◌≡◌, ◌≤◌, ◌<◌, ◌+◌, ◌^◌, All, IfOk, List, [], drop, length};
ghost use Rattle.std.specs.Prelude.{take};
ghost use Rattle.tb_base.specs.Records.{AllFit};
ghost use Rattle.tb_model.specs.Schemas.{shape_of};
ghost use Rattle.tb_release.specs.Batches.{BatchValue};
ghost use Rattle.tb_serve.specs.Each.{Each};
ghost use Rattle.tb_serve.specs.Places.{AreWithin};
ghost use Rattle.tb_serve.specs.Ports.{PortValue};
ghost use Rattle.tb_serve.specs.Serves.{HasServed, IsReported, Serves, output};
ghost use Rattle.tb_serve.specs.Stages.{IsFresh, IsLeft, IsReady};

use crate::closing::clear_all;
use crate::over_board::serve_from;
use crate::places::Places;
use crate::port::Port;
use crate::preparing::prepare;
use crate::readiness::Readiness;
use crate::report::{end_with_report, write_end};
use std::alloc::Global;
use std::marker::Brand;
use std::sync::Wait;
use std::thread::Threads;
use tb_base::{Memory, Status};
use tb_board::{Board, Named, Opening};
use tb_io::{Listen, Sink};
use tb_release::Release;
use tb_session::{Custody, FIRST_CAPACITY, Owner, Setting};
use tb_text::Setup;

// What the board is made of.
fn open(alloc: Global, setup: &Setup, base: Release) -> Result<Opening, Memory>
    requires first { base.number ≡ 0 }
    requires fit { AllFit (shape_of setup.now.schema) base.records }
    ensures { IfOk result (λ opening. opening.start
        ≡ record { shape = shape_of setup.now.schema; base = base }) }
{
    Opening::new(alloc, setup.schema.shape(), base, FIRST_CAPACITY)
}

// Serves the sessions of ports that are ready, over the board of an opening: the custodian's at the
// first, and analysts' at the others.
fn serve_opened<B: Named + Send + Sync, O: Sink, N: Listen + Send, R: Threads + Wait + Sync>(
    rt: &R,
    alloc: Global,
    setup: &Setup,
    opening: Opening,
    places: Places,
    sessions: u32,
    out: &mut O,
    ports: &mut [Port<N>],
) -> Status
    requires name { opening.name ≡ B.name }
    requires shape { opening.start.shape ≡ shape_of setup.now.schema }
    requires within { AreWithin places (length ports.old) }
    requires some { 0 < length ports.old }
    requires few { length ports.old < 2 ^ 32 }
    requires can { All IsReady ports.old }
    ensures served { (chain : List BatchValue)
        × Each (HasServed setup.now opening.start.base sessions [] chain) ports.old ports.new
        × IsReported places ports.new chain (output (O.taken out.old) (O.taken out.new)
        (O.faults out.old) (O.faults out.new)) result }
    ensures left { Each (λ _. IsLeft) ports.old ports.new }
{
    let (board, custodian) = Board::<B>::new(opening);
    let setting = Setting {
        setup,
        board: &board,
        rt,
        alloc,
    };
    let owner = Custody::new(alloc, custodian);
    let owner = serve_from(&setting, &setting, sessions, owner, ports);
    let release = Owner::<Setting<'_, B, R>, B>::release(&owner, &setting);
    end_with_report(out, places, ports, release)
}

// The whole command, over just the ports that are served.
fn serve_ports<O: Sink, N: Listen + Send, R: Threads + Wait + Sync>(
    rt: &R,
    alloc: Global,
    setup: &Setup,
    base: Release,
    places: Places,
    sessions: u32,
    out: &mut O,
    ports: &mut [Port<N>],
) -> Status
    requires first { base.number ≡ 0 }
    requires fit { AllFit (shape_of setup.now.schema) base.records }
    requires some { 0 < length ports.old }
    requires within { AreWithin places (length ports.old) }
    requires few { length ports.old < 2 ^ 32 }
    requires fresh { All IsFresh ports.old }
    ensures { Serves setup.now base places sessions ports.old ports.new (output (O.taken out.old)
        (O.taken out.new) (O.faults out.old) (O.faults out.new)) result }
{
    match prepare(alloc, places, ports) {
        Readiness::Ready => {}
        Readiness::NoMemory => return write_end(out, b"fault memory\n", Status::Memory),
        Readiness::NotBound => return write_end(out, b"fault net\n", Status::NetFault),
    }
    let Ok(opening) = open(alloc, setup, base) else {
        clear_all(ports);
        return write_end(out, b"fault memory\n", Status::Memory);
    };
    serve_opened::<Brand, O, N, R>(rt, alloc, setup, opening, places, sessions, out, ports)
}

/// Serves sessions over this release 0: the custodian's at the first listener and analysts' at the
/// `workers` listeners after it, all over one board. Those past these stay as they are.
///
/// Each gets its reader of lines, and is then bound to its number by `places`; a bind that fails
/// ends the call. Then a worker for each, in a thread of its own where one can be made, serves up
/// to `sessions` sessions, one after another, until none is to come or its accept failed; a session
/// that ends by a fault ends no other. An analyst's worker has one pass for all its sessions, and
/// the custodian holds no edits when a session begins.
///
/// `out` takes, in writes that need no memory, the lines of the ports (`write_ports`), `release R`
/// with the number of the custodian's release, and `fault net` last where an accept failed; only
/// `fault net` where a bind failed, and only `fault memory` where memory was refused. Memory for
/// the command is taken before the first accept, and then only for the replies. At the return no
/// port has a party or a reader of lines.
pub fn serve<O: Sink, N: Listen + Send, R: Threads + Wait + Sync>(
    rt: &R,
    alloc: Global,
    setup: &Setup,
    base: Release,
    places: Places,
    workers: u32,
    sessions: u32,
    out: &mut O,
    net: &mut [Port<N>],
) -> Status
    requires first { base.number ≡ 0 }
    requires fit { AllFit (shape_of setup.now.schema) base.records }
    requires there { workers < length net.old }
    requires few { workers < 65536 }
    requires within { AreWithin places (workers + 1) }
    requires fresh { All IsFresh net.old }
    ensures served { Serves setup.now base places sessions (take (workers + 1) net.old)
        (take (workers + 1) net.new) (output (O.taken out.old) (O.taken out.new)
        (O.faults out.old) (O.faults out.new)) result }
    ensures rest { drop (workers + 1) net.new ≡ drop (workers + 1) net.old }
{
    let count = workers as usize + 1;
    let (ports, _) = net.split_at_mut(count);
    serve_ports(rt, alloc, setup, base, places, sessions, out, ports)
}
