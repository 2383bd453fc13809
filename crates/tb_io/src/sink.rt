ghost use Rattle.std.specs.Prelude.{◌≡◌, ◌≤◌, ℕ, List, Option};
ghost use Rattle.tb_io.specs.Faults.{HasRisen};
ghost use Rattle.tb_io.specs.Taken.{Took, TookPart};
ghost use Rattle.tb_io.specs.declared.answers.Wrote.TheVariants as wrote;

use crate::answers::Wrote;

/// What takes bytes, in pieces, one after another.
///
/// A write takes all of its piece, or fails and takes a first part of it. It fails only where the
/// count of faults rose in that call; taking nothing of a piece that isn't empty is a fault.
/// `faults` is that count, and `taken` the sink's meaning, where it tells it: all bytes taken so
/// far.
pub trait Sink {
    ghost faults: { Self → ℕ };

    ghost taken: { Self → Option (List ℕ) };

    /// Takes all of the piece, or a first part of it and fails.
    fn write(&mut self, bytes: &[u8]) -> Wrote
        ensures count { faults self.old ≤ faults self.new }
        ensures failed { result ≡ wrote.Failed → HasRisen (faults self.old) (faults self.new) }
        ensures all { result ≡ wrote.All → Took (taken self.old) (taken self.new) bytes.now }
        ensures part { result ≡ wrote.Failed
            → TookPart (taken self.old) (taken self.new) bytes.now };
}
