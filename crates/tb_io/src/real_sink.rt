ghost use Rattle.std.specs.Prelude.{◌≡◌, ◌≤◌, None, IfOk};
ghost use Rattle.tb_io.specs.Faults.{HasRisen};
ghost use Rattle.tb_io.specs.declared.answers.Wrote.TheVariants as wrote;

use crate::answers::{Wrote, count_fault};
use crate::sink::Sink;
use std::alloc::Global;
use std::io;
use std::io::{BufWriter, Printer, Write};
use tb_base::Memory;

/// How many bytes wait before they are written out together.
const BUFFER: usize = 65_536;

/// The standard output, behind one buffer.
///
/// It tells nothing of what it took. Each error of the system counts one fault, up to the count's
/// last value, and the write fails. What the buffer holds reaches the system by a later write or by
/// `flush`.
#[derive(Drop)]
pub struct RealSink<'a, P: Print> {
    out: BufWriter<Printer<'a, P>>,
    faults: u64,
}

impl<'a, P: Print> RealSink<'a, P> {
    /// The standard output of this runtime, with no fault so far. It takes memory for the buffer,
    /// and no write takes any.
    pub fn new(rt: &'a P, alloc: Global) -> Result<RealSink<'a, P>, Memory>
        ensures { IfOk result (λ sink. sink.faults ≡ 0) }
    {
        match BufWriter::with_capacity(alloc, BUFFER, io::writer(rt)) {
            Ok(out) => Ok(RealSink { out, faults: 0 }),
            Err(_) => Err(Memory),
        }
    }

    /// Writes out what the buffer holds.
    pub fn flush(&mut self) -> Wrote
        ensures count { self.old.faults ≤ self.new.faults }
        ensures failed { result ≡ wrote.Failed → HasRisen self.old.faults self.new.faults }
    {
        let outcome = self.out.flush();
        count_fault(outcome, &mut self.faults)
    }
}

impl<'a, P: Print> Sink for RealSink<'a, P> {
    ghost faults = { λ sink. sink.faults };

    ghost taken = { λ _. None };

    /// Puts the piece into the buffer, and writes that out where it is full.
    fn write(&mut self, bytes: &[u8]) -> Wrote {
        let outcome = self.out.write_all(bytes);
        count_fault(outcome, &mut self.faults)
    }
}
