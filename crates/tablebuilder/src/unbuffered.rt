// The standard output without a buffer, for a run that has no memory for one.

ghost use Rattle.std.specs.Prelude.{None};

use std::io;
use std::io::{Printer, Write};
use tb_io::{Sink, Wrote, count_fault};

/// The standard output, to which each piece goes at once. It takes no memory.
#[derive(Drop)]
pub struct Unbuffered<'a, P: Print> {
    out: Printer<'a, P>,
    faults: u64,
}

impl<'a, P: Print> Unbuffered<'a, P> {
    /// The standard output of this runtime, with no fault so far.
    pub fn new(rt: &'a P) -> Unbuffered<'a, P> {
        Unbuffered {
            out: io::writer(rt),
            faults: 0,
        }
    }
}

impl<'a, P: Print> Sink for Unbuffered<'a, P> {
    ghost faults = { λ sink. sink.faults };

    ghost taken = { λ _. None };

    fn write(&mut self, bytes: &[u8]) -> Wrote {
        let outcome = self.out.write_all(bytes);
        count_fault(outcome, &mut self.faults)
    }
}
