// Why an edit line is refused.

ghost use Rattle.std.specs.Prelude.{◌≡◌};
ghost use Rattle.tb_revise.specs.FaultNames.{fault_name, too_many};

use std::alloc::{AllocError, AllocFailed};
use tb_base::Memory;
use tb_rows::FaultName;
use thiserror::Error;

/// The first fault of an edit line, in the order of the faults' numbers, each over the whole line;
/// or the run is out of memory, which may come at any line.
#[derive(Clone, Copy, Debug, PartialEq, Eq, Error)]
pub enum EditTextFault {
    #[error("the line must be `add PERSON KEY VAR=CODE ..`, `amend PERSON VAR=CODE ..` with one \
        setting or more, `drop PERSON`, `pvalue PCV CKEY P`, `threshold T` or `oldest N`")]
    Syntax,
    #[error("the person must be a number from 1 to 4294967295, a key one from 0 to 255, or to \
        4095 if the classification says so, a pcv one from 1 to 750, a pvalue one from -1000 to \
        1000 that with the pcv isn't negative, a threshold one from 0 to 1000000, and a release \
        one from 0 to 4294967295")]
    BadNumber,
    #[error("what stands before the first = of a setting must be the name of a variable")]
    UnknownName,
    #[error("what stands after the first = of a setting must be a code of its variable")]
    UnknownCode,
    #[error("a variable must not be set twice")]
    Repeated,
    #[error("an add must set every variable")]
    Missing,
    #[error("out of memory")]
    Memory,
}

impl EditTextFault {
    /// The number and the word with which it is printed; none where the run is out of memory.
    pub fn name(&self) -> Option<FaultName>
        ensures { result ≡ fault_name self.now }
    {
        let name = match self {
            EditTextFault::Syntax => FaultName::new(1, "Syntax"),
            EditTextFault::BadNumber => FaultName::new(2, "BadNumber"),
            EditTextFault::UnknownName => FaultName::new(3, "UnknownName"),
            EditTextFault::UnknownCode => FaultName::new(4, "UnknownCode"),
            EditTextFault::Repeated => FaultName::new(5, "Repeated"),
            EditTextFault::Missing => FaultName::new(6, "Missing"),
            EditTextFault::Memory => return None,
        };
        Some(name)
    }
}

/// The number and the word with which an edit is refused by which more would be held than may be.
/// It follows the faults of an edit line.
pub fn too_many() -> FaultName
    ensures { result ≡ too_many }
{
    FaultName::new(7, "TooMany")
}

impl From<Memory> for EditTextFault {
    ghost use Rattle.tb_revise.specs.declared.fault.EditTextFault.TheVariants as faults;

    ghost from_gives = { λ _ e. e ≡ faults.Memory };

    fn from(_e: Memory) -> EditTextFault {
        EditTextFault::Memory
    }
}

impl From<AllocError> for EditTextFault {
    ghost use Rattle.tb_revise.specs.declared.fault.EditTextFault.TheVariants as faults;

    ghost from_gives = { λ _ e. e ≡ faults.Memory };

    fn from(_e: AllocError) -> EditTextFault {
        EditTextFault::Memory
    }
}

impl<T: Drop> From<AllocFailed<T>> for EditTextFault {
    ghost use Rattle.tb_revise.specs.declared.fault.EditTextFault.TheVariants as faults;

    ghost from_gives = { λ _ e. e ≡ faults.Memory };

    fn from(_e: AllocFailed<T>) -> EditTextFault {
        EditTextFault::Memory
    }
}
