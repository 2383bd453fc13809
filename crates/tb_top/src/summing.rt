// A sink that sums up what it takes.

ghost use Rattle.std.specs.Prelude.{◌≡◌, ◌++◌, ℕ, List, [], Some};
ghost use Rattle.tb_io.specs.declared.answers.Wrote.TheVariants as wrote;
ghost use Rattle.tb_top.specs.Summing.{AreSums};

use crate::sums::Sums;
use crate::told_text::ToldText;
use std::marker::Model;
use tb_io::{Sink, Wrote};

/// A sink that keeps of its text how many line feeds and bytes it has, and the sum of their values.
/// It never fails, and takes no memory.
#[derive(Drop)]
pub(crate) struct SummingSink {
    sums: Option<Sums>,
    taken: ToldText,
}

impl Model for SummingSink {
    ghost use Rattle.std.specs.Prelude.{ℕ, List};
    ghost use Rattle.tb_top.specs.Summing.{AreSums};

    ghost Value = { List ℕ };

    ghost view = { λ s. s.taken.text };

    ghost invariant = { λ s. AreSums s.sums s.taken.text };
}

impl SummingSink {
    /// A sink that took nothing so far.
    pub(crate) fn new() -> SummingSink
        ensures { result ≡ [] }
    {
        SummingSink {
            sums: Some(Sums::NONE),
            taken: ToldText::empty(),
        }
    }

    /// What the bytes taken so far come to, unless there are more than are counted.
    pub(crate) fn sums(&self) -> Option<Sums>
        ensures { AreSums result self.now }
    {
        self.sums
    }
}

// The sums of a text and a piece more.
fn with_piece(sums: Option<Sums>, piece: &[u8]) -> Option<Sums>
    ensures { (text : List ℕ) → AreSums sums text → AreSums result (text ++ piece.now) }
{
    sums?.and(&Sums::of(piece))
}

impl Sink for SummingSink {
    ghost faults = { λ _. 0 };

    ghost taken = { λ sink. Some sink };

    /// Takes the piece, whatever comes. It takes no memory.
    fn write(&mut self, bytes: &[u8]) -> Wrote
        ensures sure { result ≡ wrote.All }
        ensures took { self.new ≡ self.old ++ bytes.now }
    {
        self.sums = with_piece(self.sums, bytes);
        self.taken = self.taken.and(bytes);
        Wrote::All
    }
}
