// A sink that counts its writes.

ghost use Rattle.std.specs.Prelude.{Some};

use std::alloc::Global;
use tb_base::Memory;
use tb_io::{MemSink, Sink, Wrote};

/// A sink in memory with a bound that counts its writes, and keeps the length of the longest.
#[derive(Drop)]
pub struct CountingSink {
    sink: MemSink,
    writes: u32,
    longest: usize,
}

impl CountingSink {
    pub fn new(alloc: Global, bound: usize) -> Result<CountingSink, Memory> {
        Ok(CountingSink {
            sink: MemSink::new(alloc, bound)?,
            writes: 0,
            longest: 0,
        })
    }

    pub fn taken(&self) -> &[u8] {
        self.sink.taken()
    }

    pub fn writes(&self) -> u32 {
        self.writes
    }

    pub fn longest(&self) -> usize {
        self.longest
    }
}

impl Sink for CountingSink {
    ghost faults = { λ s. s.sink.faults };

    ghost taken = { λ s. Some s.sink.taken };

    fn write(&mut self, bytes: &[u8]) -> Wrote {
        self.writes = self.writes.saturating_add(1);
        self.longest = self.longest.max(bytes.len());
        self.sink.write(bytes)
    }
}
