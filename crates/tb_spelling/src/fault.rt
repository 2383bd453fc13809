// Why bytes give no edits.

ghost use Rattle.std.specs.Prelude.{◌≡◌};

use std::alloc::AllocFailed;
use tb_base::Memory;

/// Why bytes give no edits: they are the payload of none, or the call is out of memory.
#[derive(Clone, Copy, Debug, PartialEq, Eq)]
pub enum PayloadFault {
    Bad,
    Memory,
}

impl From<Memory> for PayloadFault {
    ghost use Rattle.tb_spelling.specs.declared.fault.PayloadFault.TheVariants as faults;

    ghost from_gives = { λ _ e. e ≡ faults.Memory };

    fn from(_e: Memory) -> PayloadFault {
        PayloadFault::Memory
    }
}

impl<T: Drop> From<AllocFailed<T>> for PayloadFault {
    ghost use Rattle.tb_spelling.specs.declared.fault.PayloadFault.TheVariants as faults;

    ghost from_gives = { λ _ e. e ≡ faults.Memory };

    fn from(_e: AllocFailed<T>) -> PayloadFault {
        PayloadFault::Memory
    }
}
