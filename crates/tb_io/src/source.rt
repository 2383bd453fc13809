ghost use Rattle.std.specs.Prelude.{◌≡◌, ◌<◌, ◌≤◌, ℕ, List, Option, length};
ghost use Rattle.tb_io.specs.Faults.{HasRisen};
ghost use Rattle.tb_io.specs.Sources.{Reads};
ghost use Rattle.tb_io.specs.declared.read.Read.TheVariants as read;

use crate::read::Read;

/// What gives bytes, in pieces of any size, one after another.
///
/// A read fails only where the count of faults rose in that call, and then gives nothing. `faults`
/// is that count, and `left` the source's meaning, where it tells it: the bytes left.
pub trait Source {
    ghost faults: { Self → ℕ };

    ghost left: { Self → Option (List ℕ) };

    /// Puts the next bytes in front of the buffer, at least one; or says that nothing is left.
    fn read(&mut self, buf: &mut [u8]) -> Read
        requires { 0 < length buf.old }
        ensures count { faults self.old ≤ faults self.new }
        ensures failed { result ≡ read.Failed → HasRisen (faults self.old) (faults self.new) }
        ensures reads { Reads result (left self.old) (left self.new) buf.new };
}
