// A text and the pieces of which it is to be made, compared without memory.

ghost use Rattle.std.specs.Prelude.{None};

use tb_comparison::tell;
use tb_io::{Sink, Wrote};

/// A sink that compares what it takes with a text: what is left of the text, and whether all pieces
/// so far were what stood there.
#[derive(Drop)]
pub struct Compared<'a> {
    left: &'a [u8],
    same: bool,
}

impl<'a> Compared<'a> {
    /// A sink that compares with this text.
    pub fn with(text: &'a [u8]) -> Compared<'a> {
        Compared {
            left: text,
            same: true,
        }
    }

    /// Whether what it took is just the text.
    pub fn is_whole(&self) -> bool {
        self.same && self.left.is_empty()
    }

    /// The same, and where it isn't, what is left of the text is printed: from the first piece on
    /// that was another.
    pub fn check(&self, rt: &impl Eprint) -> bool {
        let is = self.is_whole();
        if !is {
            tell(rt, "wanted, from some byte on,", self.left);
        }
        is
    }
}

impl<'a> Sink for Compared<'a> {
    ghost faults = { λ _. 0 };

    ghost taken = { λ _. None };

    fn write(&mut self, bytes: &[u8]) -> Wrote {
        match self.left.strip_prefix(bytes) {
            Some(left) if self.same => self.left = left,
            _ => self.same = false,
        }
        Wrote::All
    }
}
