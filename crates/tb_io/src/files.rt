ghost use Rattle.std.specs.Prelude.{◌≡◌, ◌≤◌, ℕ, List, None, Option, option_map};
ghost use Rattle.tb_io.specs.Faults.{HasRisen, one_more};
ghost use Rattle.tb_io.specs.FileAnswers.{IsWithin, TellsOf};
ghost use Rattle.tb_io.specs.declared.answers.FileRead.TheVariants as file_read;

use crate::answers::FileRead;
use std::alloc::Global;

/// Files that are read by name.
///
/// No reading changes what a name holds. A reading fails only where the count of faults rose in
/// that call; a name that isn't there is a fault. `faults` is that count, and `content` the files'
/// meaning, where they tell it: for each name its bytes, or None where the name isn't there.
/// `readings` is how many readings there were, up to a count's last value, where they tell it.
pub trait Files {
    ghost faults: { Self → ℕ };

    ghost content: { Self → Option (List ℕ → Option (List ℕ)) };

    ghost readings: { Self → Option ℕ } = { λ _. None };

    /// Reads the whole file of that name: its bytes where they are at most `max`, and TooLong where
    /// they are more, unless it fails or is out of memory. It takes memory for the bytes.
    fn read(&mut self, alloc: Global, name: &str, max: u64) -> FileRead
        ensures count { faults self.old ≤ faults self.new }
        ensures failed { result ≡ file_read.Failed → HasRisen (faults self.old) (faults self.new) }
        ensures within { IsWithin max result }
        ensures bytes { TellsOf (content self.old) name.now max result }
        ensures same { content self.new ≡ content self.old }
        ensures reading { readings self.new ≡ option_map one_more (readings self.old) };
}
