// Many sessions at once over the small setup, beside a custodian's that publishes.

ghost use Rattle.std.specs.Prelude.{◌≡◌, ◌<◌, ◌+◌, All, IfOk, vec_len};
ghost use Rattle.tb_serve.specs.Stages.{IsFresh};

use super::compared::Compared;
use super::ports::{add_port, fill};
use super::running::serves;
use std::alloc::Global;
use std::sync::Wait;
use std::thread::Threads;
use tb_base::{Memory, print_number};
use tb_io::{MemListen, Sink};
use tb_serve::{Places, Port};

// How many sessions each analyst's port has.
const SESSIONS: u32 = 100;

// The number of the last release.
const LAST: u32 = 50;

// Adds a publication of one man more, whose number has these last digits.
fn add_edit(bytes: &mut Vec<u8>, digits: &[u8]) -> Result<(), Memory> {
    bytes.extend_from_slice(b"add 3")?;
    bytes.extend_from_slice(digits)?;
    bytes.extend_from_slice(b" 0 SEX=1 AGE=0-15 AREA=E1\npublish\n")?;
    Ok(())
}

// As many publications.
fn edits(alloc: Global) -> Result<Vec<u8>, Memory> {
    let mut bytes = Vec::new(alloc);
    for tens in b'0'..b'5' {
        for ones in b'0'..=b'9' {
            add_edit(&mut bytes, &[tens, ones])?;
        }
    }
    Ok(bytes)
}

// Adds the custodian's port, with one session.
fn add_custodian(alloc: Global, net: &mut Vec<Port<MemListen>>) -> Result<(), Memory>
    requires few { vec_len net.old < 100 }
    requires fresh { All IsFresh net.old.items }
    ensures ports { IfOk result (λ _. vec_len net.new ≡ vec_len net.old + 1) }
    ensures fresh { IfOk result (λ _. All IsFresh net.new.items) }
{
    let edits = edits(alloc)?;
    add_port(alloc, net, &edits, 1, false, &[])
}

// The custodian's port and eight analysts'.
fn ports(alloc: Global) -> Result<Vec<Port<MemListen>>, Memory>
    ensures ports { IfOk result (λ net. vec_len net ≡ 9) }
    ensures fresh { IfOk result (λ net. All IsFresh net.items) }
{
    let mut net = Vec::new(alloc);
    add_custodian(alloc, &mut net)?;
    fill(alloc, &mut net, b"table SEX\ntable SEX\n", SESSIONS, 9)?;
    Ok(net)
}

// How many men a release's table shows: one of three, and all where there are more.
fn men_in(release: u32) -> u32 {
    if release == 0 {
        1
    } else {
        release.saturating_add(3)
    }
}

fn write_decimal(text: &mut Compared<'_>, number: u32) {
    let mut digits = [0; 10];
    let len = print_number(number, &mut digits);
    text.write(&digits[..len]);
}

// Writes a release's table.
fn write_table(text: &mut Compared<'_>, release: u32) {
    text.write(b"release ");
    write_decimal(text, release);
    text.write(b"\nSEX,count\n1,");
    write_decimal(text, men_in(release));
    text.write(b"\n2,2\n.\n");
}

// Whether a session with two tables has those of these releases.
fn are_tables(taken: &[u8], first: u32, last: u32) -> bool {
    let mut text = Compared::with(taken);
    write_table(&mut text, first);
    write_table(&mut text, last);
    text.is_whole()
}

// The second number of a session with two tables, where no number falls, from a least one on.
fn last_number(taken: &[u8], least: u32) -> Option<u32> {
    for first in least..=LAST {
        for last in first..=LAST {
            if are_tables(taken, first, last) {
                return Some(last);
            }
        }
    }
    None
}

// Whether all sessions of an analyst's port came back with tables whose numbers never fall.
fn never_falls(listener: &MemListen) -> bool {
    let mut least = 0;
    for i in 0..listener.back() {
        match last_number(listener.writer_at(i).taken(), least) {
            Some(last) => least = last,
            None => return false,
        }
    }
    listener.back() == SESSIONS as usize
}

// Whether that is so of the port at this place.
fn is_right(net: &[Port<MemListen>], place: usize) -> bool {
    match net.get(place) {
        Some(port) => never_falls(&port.listener),
        None => false,
    }
}

// At how many of the analysts' ports that is so.
fn right_ports(net: &[Port<MemListen>]) -> u32 {
    let mut right: u32 = 0;
    for place in 1..9 {
        if is_right(net, place) {
            right = right.saturating_add(1);
        }
    }
    right
}

const REPORT: &[u8] =
    b"worker 0 sessions 1\nworker 1 sessions 100\nworker 2 sessions 100\nworker 3 sessions 100\n\
    worker 4 sessions 100\nworker 5 sessions 100\nworker 6 sessions 100\nworker 7 sessions 100\n\
    worker 8 sessions 100\nrelease 50\n";

// What is written where all analysts' listeners are at one door.
const DOOR_REPORT: &[u8] = b"port 5000 sessions 1\nport 5001 sessions 800\nrelease 50\n";

// Whether all sessions are served, and at each of the analysts' ports no number falls.
fn many_tables<R: Threads + Wait + Sync + Eprint>(rt: &R, alloc: Global) -> bool {
    match ports(alloc) {
        Ok(mut net) => {
            let served = serves(rt, alloc, Places::Row(5000), 8, SESSIONS, &mut net, REPORT);
            served && right_ports(&net) == 8
        }
        Err(_) => false,
    }
}

// The same at one door.
fn many_at_a_door<R: Threads + Wait + Sync + Eprint>(rt: &R, alloc: Global) -> bool {
    match ports(alloc) {
        Ok(mut net) => {
            let at = Places::Door(5000);
            let served = serves(rt, alloc, at, 8, SESSIONS, &mut net, DOOR_REPORT);
            served && right_ports(&net) == 8
        }
        Err(_) => false,
    }
}

#[test]
fn many_sessions(rt: HostRuntime) {
    assert!(&rt; many_tables(&rt, rt.alloc()));
}

#[test]
fn many_sessions_at_a_door(rt: HostRuntime) {
    assert!(&rt; many_at_a_door(&rt, rt.alloc()));
}
