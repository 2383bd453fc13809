ghost use Rattle.std.specs.Prelude.{◌≡◌, ◌++◌, [], Some, None, IfOk, OnErr, IsErr, IsNone};
ghost use Rattle.tb_io.specs.Taken.{Took};
ghost use Rattle.tb_io.specs.declared.answers.Wrote.TheVariants as wrote;

use crate::answers::Wrote;
use crate::sink::Sink;
use std::alloc::Global;
use std::marker::Model;
use tb_base::Memory;

/// A sink in memory that never fails.
///
/// It grows with what it takes. Once it is out of memory it keeps no bytes any more and tells none,
/// for ever after; each write returns All all the same.
#[derive(Drop)]
pub struct SureSink {
    text: Option<Vec<u8>>,
}

impl Model for SureSink {
    ghost use Rattle.std.specs.Prelude.{ℕ, List, Option, option_map};

    ghost Value = { Option (List ℕ) };

    ghost view = { λ s. option_map (λ v. v.items) s.text };
}

impl SureSink {
    /// An empty sink. It takes no memory.
    pub fn new(alloc: Global) -> SureSink
        ensures { result ≡ Some [] }
    {
        SureSink {
            text: Some(Vec::new(alloc)),
        }
    }

    /// All bytes taken so far, or Memory exactly where the sink was out of memory at some write.
    pub fn text(&self) -> Result<&[u8], Memory>
        ensures told { IfOk result (λ text. self.now ≡ Some text.now) }
        ensures lost { OnErr result (self.now ≡ None) }
    {
        match &self.text {
            Some(text) => Ok(text.as_slice()),
            None => Err(Memory),
        }
    }
}

impl Sink for SureSink {
    ghost faults = { λ _. 0 };

    ghost taken = { λ sink. sink };

    /// Takes the piece, whatever comes. It takes memory to grow.
    fn write(&mut self, bytes: &[u8]) -> Wrote
        ensures sure { result ≡ wrote.All }
        ensures took { Took self.old self.new bytes.now }
    {
        self.text = match self.text.take() {
            Some(mut text) => match text.extend_from_slice(bytes) {
                Ok(()) => Some(text),
                Err(_) => None,
            },
            None => None,
        };
        Wrote::All
    }
}
