// The status of a run that ends before its task begins, or with the run of a script.

ghost use Rattle.std.specs.Prelude.{◌≤◌};
ghost use Rattle.tb_endings.specs.Endings.{IsEnded, IsRunEnded};

use crate::endings::End;
use tb_base::Status;
use tb_io::{Sink, Wrote};
use tb_script::RunEnd;

/// Writes the last line of a run that ends before its task begins, and returns how the run ended.
pub fn end_by<O: Sink>(end: &End, out: &mut O) -> Status
    ensures count { O.faults out.old ≤ O.faults out.new }
    ensures ended { IsEnded end.now result
        (O.faults out.old) (O.faults out.new) (O.taken out.old) (O.taken out.new) }
{
    match end.write_last_line(out) {
        Wrote::All => end.status(),
        Wrote::Failed => Status::WriteFault,
    }
}

/// Returns how a run ended of which the run of its script ended so. It writes nothing, but for the
/// last line where memory ran out.
pub fn end_run<O: Sink>(end: RunEnd, out: &mut O) -> Status
    ensures count { O.faults out.old ≤ O.faults out.new }
    ensures ended { IsRunEnded end result
        (O.faults out.old) (O.faults out.new) (O.taken out.old) (O.taken out.new) }
{
    match end {
        RunEnd::Done => Status::Done,
        RunEnd::WriteFault => Status::WriteFault,
        RunEnd::Memory => end_by(&End::Memory, out),
    }
}
