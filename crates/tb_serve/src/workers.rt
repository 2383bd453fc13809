// The workers of all ports, in threads.
//
// Of two closures that are lent to `join_mut` the borrow checker covers those over type parameters
// without associated types, written into variables first. A `Port<N>` has some: so what each side
// does is handed to `call_beside` as an `Fn` closure over lent values (`specs/Beside`), and each is
// called in a function of its own. The caller splits the slice, and so knows its last value.
//
// The owner's setting is a type parameter: a bound on a trait with a struct that borrows,
// `W: Owner<Setting<'a, ..>>`, asks for lifetimes that no caller can show.

ghost use Rattle.std.specs.Prelude.{◌≡◌, ◌<◌, ℕ, true, All, length, slice_index_or};
ghost use Rattle.std.specs.Thread.{IsSync};
ghost use Rattle.tb_io.specs.Listeners.{CanAccept};
ghost use Rattle.tb_lines.specs.Outputs.{Lead};
ghost use Rattle.tb_serve.specs.Beside.{AcceptsAll, AcceptsBoth, ChangesAll, ChangesBoth};
ghost use Rattle.tb_serve.specs.Each.{Each};
ghost use Rattle.tb_serve.specs.Ports.{PortValue};
ghost use Rattle.tb_serve.specs.Stages.{IsReady};
ghost use Rattle.tb_serve.specs.Workers.{CanWork, HasWorkedAs, HasWorkedAt};

use crate::port::Port;
use std::marker::Brand;
use std::sync::Wait;
use std::sync::ledger::{Blank, Ledger};
use std::thread;
use std::thread::Threads;
use tb_base::Steps;
use tb_board::Named;
use tb_build::Open;
use tb_io::Listen;
use tb_lines::Answerer;
use tb_session::{Owner, Seat, Setting};
use tb_worker::serve_sessions;

// Serves the sessions of a port as this party, and counts its steps.
fn work_counted<L: Ledger, C, A: Answerer<C, Open, ()>, N: Listen>(
    blank: Blank,
    setting: &C,
    sessions: u32,
    party: &mut A,
    port: &mut Port<N>,
)
    requires ledger { blank.name ≡ L.name }
    requires parts { blank.parts ≡ L.parts }
    requires some { 0 < L.parts }
    requires ready { A.IsReady setting.now party.old }
    requires may { A.MayAsk setting.now tt }
    requires can { CanAccept port.old.listener }
    requires lines { port.old.has_lines ≡ true }
    ensures ready { A.IsReady setting.now party.new }
    ensures worked { HasWorkedAs (Lead (A.Step setting.now tt)) A.fresh sessions
        (A.state party.old) (A.state party.new) port.old port.new }
{
    let mut steps = Steps::<L>::new(blank);
    let Some(mut lines) = port.lines.take() else {
        unreachable!()
    };
    let shift = serve_sessions(
        setting,
        sessions,
        &mut port.listener,
        party,
        &mut lines,
        &mut Open,
        &mut steps,
    );
    port.served = shift.served;
    port.failed = shift.failed;
    port.lines = Some(lines);
}

// Serves the sessions of a port as this party, with a counter of its own.
fn work_as<C, A: Answerer<C, Open, ()>, N: Listen>(
    setting: &C,
    sessions: u32,
    party: &mut A,
    port: &mut Port<N>,
)
    requires ready { A.IsReady setting.now party.old }
    requires may { A.MayAsk setting.now tt }
    requires can { CanAccept port.old.listener }
    requires lines { port.old.has_lines ≡ true }
    ensures ready { A.IsReady setting.now party.new }
    ensures worked { HasWorkedAs (Lead (A.Step setting.now tt)) A.fresh sessions
        (A.state party.old) (A.state party.new) port.old port.new }
{
    work_counted::<Brand, C, A, N>(Blank::new(1), setting, sessions, party, port);
}

// Serves the sessions of a port as the party that it has.
fn work_at<B: Named, N: Listen, R: Threads + Wait + Sync>(
    setting: &Setting<'_, B, R>,
    sessions: u32,
    port: &mut Port<N>,
)
    requires { CanWork B.name setting.now.setup.now port.old }
    ensures { HasWorkedAt B.name setting.now.setup.now sessions port.old port.new }
{
    let Some(mut party) = port.leave() else {
        unreachable!()
    };
    work_as(setting, sessions, &mut party, port);
    port.seat(party);
}

// Serves the sessions of ports that have their parties, each in a thread of its own where one can
// be made.
fn work_at_all<B: Named + Send + Sync, N: Listen + Send, R: Threads + Wait + Sync>(
    setting: &Setting<'_, B, R>,
    sessions: u32,
    ports: &mut [Port<N>],
)
    requires { All (CanWork B.name setting.now.setup.now) ports.old }
    ensures { Each (λ _. HasWorkedAt B.name setting.now.setup.now sessions) ports.old ports.new }
{
    let worker = |_: usize, port: &mut Port<N>|
        requires { CanWork B.name setting.now.setup.now port.now }
        ensures { HasWorkedAt B.name setting.entry.now.setup.now sessions port.entry.now
            port.exit.now }
    { work_at(setting, sessions, port) };
    let threads = ports.len().max(1);
    thread::for_each_mut(setting.rt, ports, threads, &worker);
}

// Calls it with these two.
fn call_with_both<A, P, F: Fn(&mut A, &mut P)>(f: &F, a: &mut A, p: &mut P)
    requires { AcceptsBoth F.Fn f.now a.old p.old }
    ensures { ChangesBoth F.Fn f.now a.old a.new p.old p.new }
{
    f(a, p);
}

// Calls it with this slice.
fn call_with_all<P, F: Fn(&mut [P])>(f: &F, ps: &mut [P])
    requires { AcceptsAll F.Fn f.now ps.old }
    ensures { ChangesAll F.Fn f.now ps.old ps.new }
{
    f(ps);
}

// Calls one with the first two and the other with the slice, at the same time where a thread can be
// made.
fn call_beside<A: Send, P: Send, F: Fn(&mut A, &mut P) + Sync, G: Fn(&mut [P]) + Sync, R: Threads>(
    rt: &R,
    own: &F,
    a: &mut A,
    first: &mut P,
    rest: &G,
    others: &mut [P],
)
    requires own { AcceptsBoth F.Fn own.now a.old first.old }
    requires rest { AcceptsAll G.Fn rest.now others.old }
    ensures own { ChangesBoth F.Fn own.now a.old a.new first.old first.new }
    ensures rest { ChangesAll G.Fn rest.now others.old others.new }
{
    let mut left = ||
        requires { AcceptsBoth F.Fn own.now a.now first.now }
        ensures { ChangesBoth F.Fn own.entry.now a.entry.now a.exit.now first.entry.now
            first.exit.now }
    { call_with_both(own, a, first) };
    let mut right = ||
        requires { AcceptsAll G.Fn rest.now others.now }
        ensures { ChangesAll G.Fn rest.entry.now others.entry.now others.exit.now }
    { call_with_all(rest, others) };
    thread::join_mut(rt, &mut left, &mut right);
}

// Serves the sessions of all ports, of the first as the owner and of the others as the parties that
// they have, each in a thread of its own where one can be made.
pub(crate) fn work_all<
    C: Sync,
    B: Named + Send + Sync,
    W: Owner<C, B> + Send,
    N: Listen + Send,
    R: Threads + Wait + Sync,
>(
    setting: &Setting<'_, B, R>,
    own_setting: &C,
    sessions: u32,
    seat: &mut Seat<W, B>,
    ports: &mut [Port<N>],
)
    requires ready { W.IsReady own_setting.now seat.old.owner }
    requires some { 0 < length ports.old }
    requires first { (d : PortValue) → IsReady (slice_index_or ports.old 0 d) }
    requires others { (i : ℕ) (d : PortValue) → 0 < i → i < length ports.old
        → CanWork B.name setting.now.setup.now (slice_index_or ports.old i d) }
    ensures ready { W.IsReady own_setting.now seat.new.owner }
    ensures first { (d : PortValue) → HasWorkedAs (Lead (W.Step own_setting.now)) W.fresh
        sessions (W.state seat.old.owner) (W.state seat.new.owner) (slice_index_or ports.old 0 d)
        (slice_index_or ports.new 0 d) }
    ensures others { (i : ℕ) (d : PortValue) → 0 < i → i < length ports.old
        → HasWorkedAt B.name setting.now.setup.now sessions (slice_index_or ports.old i d)
        (slice_index_or ports.new i d) }
{
    let Some((first, others)) = ports.split_first_mut() else {
        unreachable!()
    };
    let own = |seat: &mut Seat<W, B>, port: &mut Port<N>|
        requires { W.IsReady own_setting.now seat.now.owner × IsReady port.now }
        ensures { W.IsReady own_setting.entry.now seat.exit.now.owner
            × HasWorkedAs (Lead (W.Step own_setting.entry.now)) W.fresh sessions
            (W.state seat.entry.now.owner) (W.state seat.exit.now.owner) port.entry.now
            port.exit.now }
    { work_as(own_setting, sessions, seat, port) };
    let rest = |ports: &mut [Port<N>]|
        requires { IsSync R.row × All (CanWork B.name setting.now.setup.now) ports.now }
        ensures { Each (λ _. HasWorkedAt B.name setting.entry.now.setup.now sessions)
            ports.entry.now ports.exit.now }
    { work_at_all(setting, sessions, ports) };
    call_beside(setting.rt, &own, seat, first, &rest, others);
}
