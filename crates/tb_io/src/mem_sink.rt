ghost use Rattle.std.specs.Prelude.{◌≡◌, ◌≤◌, ◌<◌, ◌++◌, ◌-◌, ◌↔◌, [], ℕ, Some, IfOk, length, take};
ghost use Rattle.tb_io.specs.Faults.{HasRisen, one_more};
ghost use Rattle.tb_io.specs.Taken.{Took};
ghost use Rattle.tb_io.specs.BoundedSink.{BoundedSink, room};
ghost use Rattle.tb_io.specs.declared.answers.Wrote.TheVariants as wrote;

use crate::answers::Wrote;
use crate::sink::Sink;
use std::alloc::Global;
use std::marker::Model;
use tb_base::Memory;

/// A sink in memory that takes no more bytes than its bound.
///
/// No write takes memory. The write that would pass the bound takes bytes up to it and fails, and
/// every later write, also of an empty piece, fails and takes nothing.
#[derive(Drop)]
pub struct MemSink {
    taken: Vec<u8>,
    bound: usize,
    faults: u64,
}

impl Model for MemSink {
    ghost use Rattle.std.specs.Prelude.{◌≤◌, length, vec_capacity};
    ghost use Rattle.tb_io.specs.BoundedSink.{BoundedSink};

    ghost Value = { BoundedSink };

    ghost view = { λ s. record { taken = s.taken.items; bound = s.bound; faults = s.faults } };

    ghost invariant = { λ s. (length s.taken.items ≤ s.bound) × (s.bound ≤ vec_capacity s.taken) };
}

impl MemSink {
    /// An empty sink that takes `bound` bytes. It takes the memory for all of them.
    pub fn new(alloc: Global, bound: usize) -> Result<MemSink, Memory>
        ensures { IfOk result (λ sink. sink ≡ record { taken = []; bound = bound; faults = 0 }) }
    {
        Ok(MemSink {
            taken: Vec::with_capacity(alloc, bound)?,
            bound,
            faults: 0,
        })
    }

    /// All bytes taken so far.
    pub fn taken(&self) -> &[u8]
        ensures { result.now ≡ self.now.taken }
    {
        self.taken.as_slice()
    }
}

impl Sink for MemSink {
    ghost faults = { λ sink. sink.faults };

    ghost taken = { λ sink. Some sink.taken };

    /// Takes the piece where no write failed before and there is room for all of it; else it takes
    /// the bytes for which there is room, and fails.
    fn write(&mut self, bytes: &[u8]) -> Wrote
        ensures count { self.old.faults ≤ self.new.faults }
        ensures failed { result ≡ wrote.Failed → HasRisen self.old.faults self.new.faults }
        ensures all { result ≡ wrote.All
            ↔ (self.old.faults ≡ 0 × length bytes.now ≤ room self.old) }
        ensures taken { self.new.taken ≡ self.old.taken ++ take (room self.old) bytes.now }
        ensures bound { self.new.bound ≡ self.old.bound }
        ensures rises { result ≡ wrote.Failed → self.new.faults ≡ one_more self.old.faults }
        ensures stays { result ≡ wrote.All → self.new.faults ≡ self.old.faults }
    {
        if self.faults == 0 {
            let room = self.bound - self.taken.len();
            let fits = bytes.len().min(room);
            match self.taken.extend_from_slice(&bytes[..fits]) {
                Ok(()) => {}
                Err(_) => unreachable!(),
            }
            if fits == bytes.len() {
                return Wrote::All;
            }
        }
        self.faults = self.faults.saturating_add(1);
        Wrote::Failed
    }
}
