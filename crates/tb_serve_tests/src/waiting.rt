// Sessions of the commands `serve`, `host` and `mirror` whose clients wait for each other.

ghost use Rattle.std.specs.Prelude.{◌≡◌, ◌<◌, ◌+◌, All, IfOk, vec_len};
ghost use Rattle.tb_serve.specs.Stages.{IsFresh};

use super::command::ends_so;
use super::ports::PORTS;
use super::talks::{Client, Replies, Talk};
use std::alloc::Global;
use std::sync::Wait;
use std::sync::atomic::{AtomicU32, Ordering};
use std::thread::Threads;
use tb_base::{Memory, Status};
use tb_serve::Port;

// A run of two sessions.
#[derive(Clone, Copy)]
enum Run {
    // One worker, and one session at each port: the custodian's and an analyst's.
    Late,
    // Two workers, and one session at each port: two analysts'.
    Crossed,
    // Three workers, and one session by each: the custodian's, and two analysts' at the door.
    OneDoor,
    // One worker, and one session at each port: a leader's and an analyst's.
    Led,
    LateLed,
    HomesLed,
    TakenBack,
}

// The client at the port of a number.
fn client_at(run: Run, number: u32) -> Client {
    match (run, number) {
        (Run::Late, 0) => Client::Custodian,
        (Run::Late, 1) => Client::Late,
        (Run::Crossed, 1) => Client::One,
        (Run::Crossed, 2) => Client::Other,
        (Run::OneDoor, 0) => Client::Publisher,
        (Run::OneDoor, 1) => Client::Silent,
        (Run::OneDoor, 2) => Client::Asking,
        (Run::Led, 0) => Client::Leader,
        (Run::Led, 1) => Client::Behind,
        (Run::LateLed, 0) => Client::LateLeader,
        (Run::LateLed, 1) => Client::LateBehind,
        (Run::HomesLed, 0) => Client::HomesLeader,
        (Run::HomesLed, 1) => Client::HomesBehind,
        (Run::TakenBack, 0) => Client::TakingLeader,
        (Run::TakenBack, 1) => Client::TakenBehind,
        _ => Client::None,
    }
}

// Adds the port of a client.
fn add<'a>(
    net: &mut Vec<Port<Talk<'a>>>,
    client: Client,
    replies: &'a Replies,
) -> Result<(), Memory>
    requires few { vec_len net.old < 100 }
    requires fresh { All IsFresh net.old.items }
    ensures ports { IfOk result (λ _. vec_len net.new ≡ vec_len net.old + 1) }
    ensures fresh { IfOk result (λ _. All IsFresh net.new.items) }
{
    net.push(Port::of(Talk::of(client, replies)))?;
    Ok(())
}

// The ports of a run.
fn ports<'a>(alloc: Global, run: Run, replies: &'a Replies) -> Result<Vec<Port<Talk<'a>>>, Memory>
    ensures { IfOk result (λ net. All IsFresh net.items) }
{
    let mut net = Vec::new(alloc);
    for number in 0..PORTS as u32 {
        add(&mut net, client_at(run, number), replies)?;
    }
    Ok(net)
}

// Whether a command serves the sessions of a run, and writes just this text.
fn serves<R: Threads + Wait + Sync + Eprint>(
    rt: &R,
    alloc: Global,
    run: Run,
    replies: &Replies,
    command: &str,
    text: &[u8],
) -> bool {
    match ports(alloc, run, replies) {
        Ok(mut net) => ends_so(rt, alloc, command, &mut net, Status::Done, text),
        Err(_) => false,
    }
}

// How many clients a run has.
fn clients_of(run: Run) -> u32 {
    match run {
        Run::OneDoor => 3,
        _ => 2,
    }
}

// Whether all clients of a run get the right replies, and the command writes just this text.
fn all_get_theirs<R: Threads + Wait + Sync + Eprint>(
    rt: &R,
    alloc: Global,
    run: Run,
    command: &str,
    text: &[u8],
) -> bool {
    let replies = Replies {
        first: AtomicU32::new(0),
        second: AtomicU32::new(0),
        right: AtomicU32::new(0),
    };
    serves(rt, alloc, run, &replies, command, text)
        && replies.right.load(Ordering::SeqCst) == clients_of(run)
}

// What is written of a run in which the custodian publishes between the analyst's tables.
const LATE: &[u8] = b"worker 0 sessions 1\nworker 1 sessions 1\nrelease 1\n";

// What is written of one in which two analysts wait for each other.
const CROSSED: &[u8] =
    b"worker 0 sessions 0\nworker 1 sessions 1\nworker 2 sessions 1\nrelease 0\n";

// The same of servers with a door.
const LATE_DOOR: &[u8] = b"port 5000 sessions 1\nport 5001 sessions 1\nrelease 1\n";

const CROSSED_DOOR: &[u8] = b"port 5000 sessions 0\nport 5001 sessions 2\nrelease 0\n";

// What is written of one in which one of two analysts at the door is silent.
const ONE_DOOR: &[u8] = b"port 5000 sessions 1\nport 5001 sessions 2\nrelease 1\n";

// What is written of one in which a leader brings two batches.
const LED: &[u8] = b"port 5000 sessions 1\nport 5001 sessions 1\nrelease 2\n";

#[test]
fn sessions_share_cubes(rt: HostRuntime) {
    let command = "serve classes recodes ptable people 0 5000 1 1";
    assert!(&rt; all_get_theirs(&rt, rt.alloc(), Run::Late, command, LATE));
}

#[test]
fn sessions_run_at_the_same_time(rt: HostRuntime) {
    let command = "serve classes recodes ptable people 0 5000 2 1";
    assert!(&rt; all_get_theirs(&rt, rt.alloc(), Run::Crossed, command, CROSSED));
}

#[test]
fn sessions_share_cubes_beside_a_journal(rt: HostRuntime) {
    let command = "host classes recodes ptable people 0 - - journal 5000 1 1";
    assert!(&rt; all_get_theirs(&rt, rt.alloc(), Run::Late, command, LATE_DOOR));
}

#[test]
fn sessions_run_at_the_same_time_beside_a_journal(rt: HostRuntime) {
    let command = "host classes recodes ptable people 0 - - journal 5000 2 1";
    assert!(&rt; all_get_theirs(&rt, rt.alloc(), Run::Crossed, command, CROSSED_DOOR));
}

#[test]
fn mirror_of_a_leader(rt: HostRuntime) {
    let command = "mirror classes recodes ptable people 0 - - 5000 1 1";
    assert!(&rt; all_get_theirs(&rt, rt.alloc(), Run::Led, command, LED));
}

#[test]
fn sessions_share_cubes_of_a_mirror(rt: HostRuntime) {
    let command = "mirror classes recodes ptable people 0 - - 5000 1 1";
    assert!(&rt; all_get_theirs(&rt, rt.alloc(), Run::LateLed, command, LATE_DOOR));
}

#[test]
fn dwellings_of_a_mirror(rt: HostRuntime) {
    let command = "mirror classes recodes ptable people 0 dwellings links 5000 1 1";
    assert!(&rt; all_get_theirs(&rt, rt.alloc(), Run::HomesLed, command, LATE_DOOR));
}

#[test]
fn release_taken_back_at_a_mirror(rt: HostRuntime) {
    let command = "mirror classes recodes ptable people 0 - - 5000 1 1";
    assert!(&rt; all_get_theirs(&rt, rt.alloc(), Run::TakenBack, command, LATE_DOOR));
}

#[test]
fn one_door(rt: HostRuntime) {
    let command = "host classes recodes ptable people 0 - - journal 5000 3 1";
    assert!(&rt; all_get_theirs(&rt, rt.alloc(), Run::OneDoor, command, ONE_DOOR));
}
