// Why a query line is refused.

ghost use Rattle.std.specs.Prelude.{◌≡◌};
ghost use Rattle.tb_query.specs.FaultNames.{fault_name, fault_position};

use std::alloc::AllocFailed;
use tb_base::Memory;
use tb_rows::FaultName;
use thiserror::Error;

/// The first fault of a query line, in the order of the faults' numbers, with the number of the
/// byte or token at fault, counted from 1; or the run is out of memory, which may come at any line.
#[derive(Clone, Copy, Debug, PartialEq, Eq, Error)]
pub enum QueryFault {
    #[error("byte {0} must be a tab or a printable ASCII character")]
    NotText(u32),
    #[error("the line must be a query: token {0} is missing or may not stand there")]
    Syntax(u32),
    #[error("token {0} must be the name of a variable or a recode")]
    UnknownName(u32),
    #[error("token {0} must be a code or a group under its filter's name")]
    UnknownCode(u32),
    #[error("token {0} must not be the name of an earlier dimension")]
    RepeatedDimension(u32),
    #[error("there must be at most 8 dimensions")]
    TooManyDimensions,
    #[error("there must be at most 16 filters")]
    TooManyFilters,
    #[error("the table must have at most 1,000,000 places")]
    TooLarge,
    #[error("out of memory")]
    Memory,
}

impl QueryFault {
    /// The number and the word with which it is printed; none where the run is out of memory.
    pub fn name(&self) -> Option<FaultName>
        ensures { result ≡ fault_name self.now }
    {
        let name = match self {
            QueryFault::NotText(_) => FaultName::new(1, "NotText"),
            QueryFault::Syntax(_) => FaultName::new(2, "Syntax"),
            QueryFault::UnknownName(_) => FaultName::new(3, "UnknownName"),
            QueryFault::UnknownCode(_) => FaultName::new(4, "UnknownCode"),
            QueryFault::RepeatedDimension(_) => FaultName::new(5, "RepeatedDimension"),
            QueryFault::TooManyDimensions => FaultName::new(6, "TooManyDimensions"),
            QueryFault::TooManyFilters => FaultName::new(7, "TooManyFilters"),
            QueryFault::TooLarge => FaultName::new(8, "TooLarge"),
            QueryFault::Memory => return None,
        };
        Some(name)
    }

    /// The number of the byte or token at fault, from 1, if it names one.
    pub fn position(&self) -> Option<u32>
        ensures { result ≡ fault_position self.now }
    {
        match self {
            QueryFault::NotText(i)
            | QueryFault::Syntax(i)
            | QueryFault::UnknownName(i)
            | QueryFault::UnknownCode(i)
            | QueryFault::RepeatedDimension(i) => Some(*i),
            _ => None,
        }
    }
}

impl From<Memory> for QueryFault {
    ghost use Rattle.tb_query.specs.declared.fault.QueryFault.TheVariants as faults;

    ghost from_gives = { λ _ e. e ≡ faults.Memory };

    fn from(_e: Memory) -> QueryFault {
        QueryFault::Memory
    }
}

impl<T: Drop> From<AllocFailed<T>> for QueryFault {
    ghost use Rattle.tb_query.specs.declared.fault.QueryFault.TheVariants as faults;

    ghost from_gives = { λ _ e. e ≡ faults.Memory };

    fn from(_e: AllocFailed<T>) -> QueryFault {
        QueryFault::Memory
    }
}
