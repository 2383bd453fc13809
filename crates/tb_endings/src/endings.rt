// How a run ends before the first line of its script, and the last line that it then writes.
//
// A `FaultName` is seen as its number and the bytes of its word, so two ends are compared by texts,
// and not by references.

ghost use Rattle.std.specs.Prelude.{◌≡◌};
ghost use Rattle.tb_endings.specs.Endings.{fault_line, input_name, input_status, last_line};
ghost use Rattle.tb_endings.specs.Endings.{refusal_line, status_of};
ghost use Rattle.tb_endings.specs.Refusals.{file_end, input_of as input_of_file};
ghost use Rattle.tb_endings.specs.Refusals.{units_input as input_of_units_file};
ghost use Rattle.tb_endings.specs.declared.endings.End.TheVariants as end;
ghost use Rattle.tb_io.specs.Taken.{IsWritten};

use std::alloc::{AllocError, AllocFailed};
use tb_base::{Memory, Status, print_number};
use tb_io::{Sink, Wrote, write_all};
use tb_rows::{Fault, FaultKind, FaultName};
use tb_schema::{ClassFile, SchemaFault};
use tb_units::{UnitsFault, UnitsFile};

/// The files of a run, in the order in which they are read.
#[derive(Clone, Copy, Debug, PartialEq, Eq)]
pub enum Input {
    Classes,
    Recodes,
    Ptable,
    People,
    Dwellings,
    Links,
    Script,
}

/// Why a run ends before the first line of its script: the arguments, a file that is too long, that
/// couldn't be read or that is refused for its first fault, a line of the script that is none, or
/// that memory ran out.
#[derive(Debug, Drop)]
pub enum End {
    Usage,
    TooLong(Input),
    Unread(Input),
    Refused {
        file: Input,
        name: FaultName,
        at: u32,
    },
    BadLine(u32),
    Memory,
}

impl From<Memory> for End {
    ghost from_gives = { λ _ e. e ≡ end.Memory };

    fn from(_e: Memory) -> End {
        End::Memory
    }
}

impl From<AllocError> for End {
    ghost from_gives = { λ _ e. e ≡ end.Memory };

    fn from(_e: AllocError) -> End {
        End::Memory
    }
}

impl<T: Drop> From<AllocFailed<T>> for End {
    ghost from_gives = { λ _ e. e ≡ end.Memory };

    fn from(_e: AllocFailed<T>) -> End {
        End::Memory
    }
}

impl From<SchemaFault> for End {
    ghost use Rattle.std.specs.Prelude.{◌≡◌};
    ghost use Rattle.tb_endings.specs.Refusals.{schema_end};

    ghost from_gives = { λ fault e. e ≡ schema_end fault };

    fn from(fault: SchemaFault) -> End {
        match fault {
            SchemaFault::Refused { file, kind, at } => End::Refused {
                file: input_of(file),
                name: kind.name(),
                at,
            },
            SchemaFault::Memory => End::Memory,
        }
    }
}

fn input_of(file: ClassFile) -> Input
    ensures { result ≡ input_of_file file }
{
    match file {
        ClassFile::Classes => Input::Classes,
        ClassFile::Recodes => Input::Recodes,
    }
}

impl From<UnitsFault> for End {
    ghost use Rattle.std.specs.Prelude.{◌≡◌};
    ghost use Rattle.tb_endings.specs.Refusals.{units_end};

    ghost from_gives = { λ fault e. e ≡ units_end fault };

    fn from(fault: UnitsFault) -> End {
        match fault {
            UnitsFault::Refused { file, kind, at } => End::Refused {
                file: units_input(file),
                name: kind.name(),
                at,
            },
            UnitsFault::Memory => End::Memory,
        }
    }
}

// The file in which dwellings or links are refused.
fn units_input(file: UnitsFile) -> Input
    ensures { result ≡ input_of_units_file file }
{
    match file {
        UnitsFile::Dwellings => Input::Dwellings,
        UnitsFile::Links => Input::Links,
    }
}

impl End {
    /// The end for a file that its reader refuses.
    pub fn of<K: FaultKind + Drop>(file: Input, fault: Fault<K>) -> End
        ensures { result ≡ file_end file K.name_of fault }
    {
        match fault {
            Fault::Refused { kind, at } => End::Refused {
                file,
                name: kind.name(),
                at,
            },
            Fault::Memory => End::Memory,
        }
    }

    /// The status with which the run ends.
    pub fn status(&self) -> Status
        ensures { result ≡ status_of self.now }
    {
        match self {
            End::Usage => Status::Usage,
            End::TooLong(file) => file.status(),
            End::Unread(_) => Status::ReadFault,
            End::Refused {
                file,
                name: _,
                at: _,
            } => file.status(),
            End::BadLine(_) => Status::Script,
            End::Memory => Status::Memory,
        }
    }

    /// Writes the last line of the run. It takes no memory.
    pub fn write_last_line<O: Sink>(&self, out: &mut O) -> Wrote
        ensures written { IsWritten result (O.faults out.old) (O.faults out.new)
            (O.taken out.old) (O.taken out.new) (last_line self.now) }
    {
        match self {
            End::Usage => out.write(b"fault usage\n"),
            End::TooLong(file) => {
                write_all(out, &[b"fault ", file.name().as_bytes(), b" TooLong\n"])
            }
            End::Unread(file) => {
                write_all(out, &[b"fault read ", file.name().as_bytes(), b"\n"])
            }
            End::Refused { file, name, at } => write_refusal(out, *file, name, *at),
            End::BadLine(line) => {
                let mut digits = [0; 10];
                let len = print_number(*line, &mut digits);
                write_all(out, &[b"fault script ", &digits[..len], b"\n"])
            }
            End::Memory => out.write(b"fault memory\n"),
        }
    }
}

impl Input {
    /// The file's name in a last line.
    pub fn name(&self) -> &'static str
        ensures { result.now ≡ input_name self.now }
    {
        match self {
            Input::Classes => "classes",
            Input::Recodes => "recodes",
            Input::Ptable => "ptable",
            Input::People => "people",
            Input::Dwellings => "dwellings",
            Input::Links => "links",
            Input::Script => "script",
        }
    }

    /// The status for the file where it is too long or refused.
    fn status(&self) -> Status
        ensures { result ≡ input_status self.now }
    {
        match self {
            Input::Classes | Input::Recodes => Status::Schema,
            Input::Ptable => Status::Perturbation,
            Input::People => Status::Microdata,
            Input::Dwellings | Input::Links => Status::Units,
            Input::Script => Status::Script,
        }
    }
}

// Writes the line for a file that is refused.
fn write_refusal<O: Sink>(out: &mut O, file: Input, name: &FaultName, at: u32) -> Wrote
    ensures written { IsWritten result (O.faults out.old) (O.faults out.new)
        (O.taken out.old) (O.taken out.new) (refusal_line file name.now at) }
{
    write_fault_line(out, file.name(), name.number(), name.word(), at)
}

/// Writes the line for a file under this name that is refused: the number and the word of its first
/// fault, and the number of the record.
pub fn write_fault_line<O: Sink>(out: &mut O, file: &str, number: u8, word: &str, at: u32) -> Wrote
    ensures written { IsWritten result (O.faults out.old) (O.faults out.new)
        (O.taken out.old) (O.taken out.new)
        (fault_line file.now (record { number = number; word = word.now }) at) }
{
    let mut first = [0; 10];
    let mut second = [0; 10];
    let number_len = print_number(u32::from(number), &mut first);
    let at_len = print_number(at, &mut second);
    write_all(
        out,
        &[
            b"fault ",
            file.as_bytes(),
            b" ",
            &first[..number_len],
            b" ",
            word.as_bytes(),
            b" ",
            &second[..at_len],
            b"\n",
        ],
    )
}
