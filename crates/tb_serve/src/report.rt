// What is written once all workers ended, or where none began. It takes no memory.

ghost use Rattle.std.specs.Prelude.{◌≡◌, ◌<◌, ◌+◌, ◌^◌, ◌++◌, length};
ghost use Rattle.std.specs.List.{concat};
ghost use Rattle.tb_io.specs.Taken.{IsWritten};
ghost use Rattle.tb_serve.specs.Places.{AreWithin};
ghost use Rattle.tb_serve.specs.Ports.{PortValue};
ghost use Rattle.tb_serve.specs.Reports.{closing, door_lines, last_lines, lines_at, port_line};
ghost use Rattle.tb_serve.specs.Reports.{release_line, report, served_at};
ghost use Rattle.tb_serve.specs.Reports.{some_failed, worker_line, worker_lines};
ghost use Rattle.tb_serve.specs.Serves.{IsEnded, final_status, output};

use crate::places::Places;
use crate::port::Port;
use itoa::Buffer;
use tb_base::{Status, print_number};
use tb_io::{Listen, Sink, Wrote, write_all};

// Writes the line of a worker.
fn write_worker<O: Sink>(out: &mut O, i: u32, served: u32) -> Wrote
    ensures written { IsWritten result (O.faults out.old) (O.faults out.new) (O.taken out.old)
        (O.taken out.new) (worker_line i served) }
{
    let mut first = [0; 10];
    let mut second = [0; 10];
    let number_len = print_number(i, &mut first);
    let served_len = print_number(served, &mut second);
    let number = &first[..number_len];
    let sessions = &second[..served_len];
    write_all(out, &[b"worker ", number, b" sessions ", sessions, b"\n"])
}

// Writes the lines of all workers.
fn write_workers<O: Sink, N: Listen>(out: &mut O, ports: &[Port<N>]) -> Wrote
    requires { length ports.now < 2 ^ 32 }
    ensures written { IsWritten result (O.faults out.old) (O.faults out.new) (O.taken out.old)
        (O.taken out.new) (concat (worker_lines 0 ports.now)) }
{
    for (i, port) in ports.iter().enumerate() {
        let served = port.served();
        match write_worker(out, i as u32, served) {
            Wrote::All => {}
            Wrote::Failed => return Wrote::Failed,
        }
    }
    Wrote::All
}

// How many sessions were served at some ports together.
fn served_together<N: Listen>(ports: &[Port<N>]) -> u64
    requires { length ports.now < 2 ^ 32 }
    ensures { result ≡ served_at ports.now }
{
    let mut together = 0;
    for port in ports.iter() {
        let served = port.served();
        together += u64::from(served);
    }
    together
}

// Writes the line of a port of the system.
fn write_port<O: Sink>(out: &mut O, number: u16, served: u64) -> Wrote
    ensures written { IsWritten result (O.faults out.old) (O.faults out.new) (O.taken out.old)
        (O.taken out.new) (port_line number served) }
{
    let mut first = Buffer::new();
    let mut second = Buffer::new();
    let number = first.format(number).as_bytes();
    let sessions = second.format(served).as_bytes();
    write_all(out, &[b"port ", number, b" sessions ", sessions, b"\n"])
}

// Writes the lines of both ports of a server with a door.
fn write_both<O: Sink>(out: &mut O, first: u16, own: u32, others: u64) -> Wrote
    requires { first < 65535 }
    ensures written { IsWritten result (O.faults out.old) (O.faults out.new) (O.taken out.old)
        (O.taken out.new) (port_line first own ++ port_line (first + 1) others) }
{
    match write_port(out, first, u64::from(own)) {
        Wrote::All => write_port(out, first + 1, others),
        Wrote::Failed => Wrote::Failed,
    }
}

// Writes the lines of a server with a door: of its first port, and of the door.
fn write_door<O: Sink, N: Listen>(out: &mut O, first: u16, ports: &[Port<N>]) -> Wrote
    requires first { first < 65535 }
    requires some { 0 < length ports.now }
    requires few { length ports.now < 2 ^ 32 }
    ensures written { IsWritten result (O.faults out.old) (O.faults out.new) (O.taken out.old)
        (O.taken out.new) (door_lines first ports.now) }
{
    let Some((own, others)) = ports.split_first() else {
        unreachable!()
    };
    let served = own.served();
    let together = served_together(others);
    write_both(out, first, served, together)
}

/// Writes the lines of all ports: in a row `worker I sessions N` for each, and with a door
/// `port P sessions N` for the first and for the door. It takes no memory.
pub fn write_ports<O: Sink, N: Listen>(out: &mut O, places: Places, ports: &[Port<N>]) -> Wrote
    requires within { AreWithin places (length ports.now) }
    requires some { 0 < length ports.now }
    requires few { length ports.now < 2 ^ 32 }
    ensures written { IsWritten result (O.faults out.old) (O.faults out.new) (O.taken out.old)
        (O.taken out.new) (lines_at places ports.now) }
{
    match places {
        Places::Row(_) => write_workers(out, ports),
        Places::Door(first) => write_door(out, first, ports),
    }
}

/// Writes the line `release R`. It takes no memory.
pub fn write_release<O: Sink>(out: &mut O, release: u32) -> Wrote
    ensures written { IsWritten result (O.faults out.old) (O.faults out.new) (O.taken out.old)
        (O.taken out.new) (release_line release) }
{
    let mut digits = [0; 10];
    let len = print_number(release, &mut digits);
    write_all(out, &[b"release ", &digits[..len], b"\n"])
}

// Writes the last line, where an accept failed.
fn write_last<O: Sink>(out: &mut O, failed: bool) -> Wrote
    ensures written { IsWritten result (O.faults out.old) (O.faults out.new) (O.taken out.old)
        (O.taken out.new) (concat (last_lines failed)) }
{
    if failed {
        out.write(b"fault net\n")
    } else {
        Wrote::All
    }
}

// Writes the lines after those of the ports.
fn write_closing<O: Sink>(out: &mut O, release: u32, failed: bool) -> Wrote
    ensures written { IsWritten result (O.faults out.old) (O.faults out.new) (O.taken out.old)
        (O.taken out.new) (closing release failed) }
{
    match write_release(out, release) {
        Wrote::All => write_last(out, failed),
        Wrote::Failed => Wrote::Failed,
    }
}

// Whether the accept of some port failed.
fn has_failed<N: Listen>(ports: &[Port<N>]) -> bool
    ensures { result ≡ some_failed ports.now }
{
    ports.iter().any(|port| port.has_failed())
}

// Writes the whole report.
fn write_report<O: Sink, N: Listen>(
    out: &mut O,
    places: Places,
    ports: &[Port<N>],
    release: u32,
    failed: bool,
) -> Wrote
    requires within { AreWithin places (length ports.now) }
    requires some { 0 < length ports.now }
    requires few { length ports.now < 2 ^ 32 }
    requires failed { failed ≡ some_failed ports.now }
    ensures written { IsWritten result (O.faults out.old) (O.faults out.new) (O.taken out.old)
        (O.taken out.new) (report places ports.now release) }
{
    match write_ports(out, places, ports) {
        Wrote::All => write_closing(out, release, failed),
        Wrote::Failed => Wrote::Failed,
    }
}

/// Ends a call that served its ports: writes their lines, `release R`, and `fault net` last where an
/// accept failed. It takes no memory.
pub fn end_with_report<O: Sink, N: Listen>(
    out: &mut O,
    places: Places,
    ports: &[Port<N>],
    release: u32,
) -> Status
    requires within { AreWithin places (length ports.now) }
    requires some { 0 < length ports.now }
    requires few { length ports.now < 2 ^ 32 }
    ensures ended { IsEnded (report places ports.now release) (final_status ports.now)
        (output (O.taken out.old) (O.taken out.new) (O.faults out.old) (O.faults out.new))
        result }
{
    let failed = has_failed(ports);
    match write_report(out, places, ports, release, failed) {
        Wrote::All => {
            if failed {
                Status::NetFault
            } else {
                Status::Done
            }
        }
        Wrote::Failed => Status::WriteFault,
    }
}

/// Ends a call that served no port: writes its one line.
pub fn write_end<O: Sink>(out: &mut O, line: &[u8], status: Status) -> Status
    ensures ended { IsEnded line.now status (output (O.taken out.old) (O.taken out.new)
        (O.faults out.old) (O.faults out.new)) result }
{
    match out.write(line) {
        Wrote::All => status,
        Wrote::Failed => Status::WriteFault,
    }
}
