// What is written once all workers of a server with a journal ended. It takes no memory.

ghost use Rattle.std.specs.Prelude.{◌<◌, ◌^◌, length};
ghost use Rattle.tb_host.specs.Endings.{IsHostReported, disk_closing, disk_line, disk_report};
ghost use Rattle.tb_io.specs.Taken.{IsWritten};
ghost use Rattle.tb_serve.specs.Places.{AreWithin};
ghost use Rattle.tb_serve.specs.Serves.{output};

use tb_base::Status;
use tb_io::{Listen, Sink, Wrote};
use tb_serve::{Places, Port, end_with_report, write_ports, write_release};

// Writes that the disk failed.
fn write_disk_fault<O: Sink>(out: &mut O) -> Wrote
    ensures written { IsWritten result (O.faults out.old) (O.faults out.new) (O.taken out.old)
        (O.taken out.new) disk_line }
{
    out.write(b"fault disk\n")
}

// Writes the lines after those of the ports, where the journal isn't live.
fn write_disk_closing<O: Sink>(out: &mut O, release: u32) -> Wrote
    ensures written { IsWritten result (O.faults out.old) (O.faults out.new) (O.taken out.old)
        (O.taken out.new) (disk_closing release) }
{
    match write_release(out, release) {
        Wrote::All => write_disk_fault(out),
        Wrote::Failed => Wrote::Failed,
    }
}

// Writes the whole report then.
fn write_disk_report<O: Sink, N: Listen>(
    out: &mut O,
    places: Places,
    ports: &[Port<N>],
    release: u32,
) -> Wrote
    requires within { AreWithin places (length ports.now) }
    requires some { 0 < length ports.now }
    requires few { length ports.now < 2 ^ 32 }
    ensures written { IsWritten result (O.faults out.old) (O.faults out.new) (O.taken out.old)
        (O.taken out.new) (disk_report places ports.now release) }
{
    match write_ports(out, places, ports) {
        Wrote::All => write_disk_closing(out, release),
        Wrote::Failed => Wrote::Failed,
    }
}

/// Ends a call that served its ports: writes the report, with `fault disk` last, and without
/// `fault net`, where the journal isn't live.
pub(crate) fn end_hosting<O: Sink, N: Listen>(
    out: &mut O,
    places: Places,
    ports: &[Port<N>],
    release: u32,
    live: bool,
) -> Status
    requires within { AreWithin places (length ports.now) }
    requires some { 0 < length ports.now }
    requires few { length ports.now < 2 ^ 32 }
    ensures ended { IsHostReported live places ports.now release (output (O.taken out.old)
        (O.taken out.new) (O.faults out.old) (O.faults out.new)) result }
{
    if live {
        return end_with_report(out, places, ports, release);
    }
    match write_disk_report(out, places, ports, release) {
        Wrote::All => Status::DiskFault,
        Wrote::Failed => Status::WriteFault,
    }
}
