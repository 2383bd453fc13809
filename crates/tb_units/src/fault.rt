// What is wrong with the files of dwellings.

ghost use Rattle.std.specs.Prelude.{◌≡◌};
ghost use Rattle.tb_units.specs.Faults.{in_file as value_in_file};
ghost use Rattle.tb_units.specs.FaultNames.{fault_name};

use tb_rows::{Fault, FaultKind, FaultName};
use thiserror::Error;

/// Which of the two files a fault is in.
#[derive(Clone, Copy, Debug, PartialEq, Eq, Error)]
pub enum UnitsFile {
    #[error("dwellings")]
    Dwellings,
    #[error("links")]
    Links,
}

/// What is wrong with a record, in the order of the kinds' numbers.
#[derive(Clone, Copy, Debug, PartialEq, Eq, Error)]
pub enum UnitsKind {
    #[error("each column of the file must stand in its header exactly once")]
    BadHeader,
    #[error("dwelling must be a number from 1 to 4294967295")]
    BadDwelling,
    #[error("dwelling_key must be a number from 0 to 255, or to 4095 if the classification says \
        so")]
    BadKey,
    #[error("an earlier record has the same dwelling")]
    DwellingTwice,
    #[error("the dwelling is not among the dwellings")]
    UnknownDwelling,
    #[error("an earlier record has the same person")]
    PersonTwice,
    #[error("person must be a number from 1 to 4294967295")]
    BadPerson,
    #[error("the record must have as many fields as the header")]
    BadCsv,
    #[error("there must be at most 1000000 records, or as many as the classification says")]
    TooMany,
}

impl FaultKind for UnitsKind {
    ghost name_of = { fault_name };

    fn name(&self) -> FaultName {
        match self {
            UnitsKind::BadHeader => FaultName::new(1, "BadHeader"),
            UnitsKind::BadDwelling => FaultName::new(2, "BadDwelling"),
            UnitsKind::BadKey => FaultName::new(3, "BadKey"),
            UnitsKind::DwellingTwice => FaultName::new(4, "DwellingTwice"),
            UnitsKind::UnknownDwelling => FaultName::new(5, "UnknownDwelling"),
            UnitsKind::PersonTwice => FaultName::new(6, "PersonTwice"),
            UnitsKind::BadPerson => FaultName::new(7, "BadPerson"),
            UnitsKind::BadCsv => FaultName::new(8, "BadCsv"),
            UnitsKind::TooMany => FaultName::new(9, "TooMany"),
        }
    }
}

/// Why the dwellings were refused: the first fault of their files, with the number of its record,
/// counted from 1, or 0 for the header.
#[derive(Clone, Copy, Debug, PartialEq, Eq, Error)]
pub enum UnitsFault {
    #[error("{file}, record {at}: {kind}")]
    Refused {
        file: UnitsFile,
        kind: UnitsKind,
        at: u32,
    },
    #[error("out of memory")]
    Memory,
}

/// A fault of record `at`.
pub(crate) fn fault_at(kind: UnitsKind, at: u32) -> Fault<UnitsKind>
    ensures { result ≡ Fault.Refused kind at }
{
    Fault::Refused { kind, at }
}

/// What was read of one of the two files.
pub(crate) fn in_file<T: Drop>(
    file: UnitsFile,
    read: Result<T, Fault<UnitsKind>>,
) -> Result<T, UnitsFault>
    ensures { result ≡ value_in_file file read }
{
    match read {
        Ok(value) => Ok(value),
        Err(Fault::Refused { kind, at }) => Err(UnitsFault::Refused { file, kind, at }),
        Err(Fault::Memory) => Err(UnitsFault::Memory),
    }
}
