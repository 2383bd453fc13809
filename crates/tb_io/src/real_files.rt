ghost use Rattle.std.specs.Prelude.{◌≡◌, ◌≢◌, ◌≤◌, None, IfOk};
ghost use Rattle.tb_io.specs.Faults.{HasRisen};
ghost use Rattle.tb_io.specs.FileAnswers.{IsWithin};
ghost use Rattle.tb_io.specs.declared.answers.FileRead.TheVariants as file_read;

use crate::answers::FileRead;
use crate::files::Files;
use std::alloc::Global;
use std::fs::{Metadata, OpenFile};
use std::io::{ErrorKind, Read};
use std::rt::Files as FileSystem;
use std::{fs, io};

/// The files of the system.
///
/// They tell nothing of what a name holds. Each error of the system counts one fault, up to the
/// count's last value, and the reading fails. Out of memory is no fault: the reading returns
/// Memory.
#[derive(Drop)]
pub struct RealFiles<'a, R: FileSystem> {
    rt: &'a R,
    faults: u64,
}

impl<'a, R: FileSystem> RealFiles<'a, R> {
    /// The files of this runtime, with no fault so far.
    pub fn new(rt: &'a R) -> RealFiles<'a, R>
        ensures { result.faults ≡ 0 }
    {
        RealFiles { rt, faults: 0 }
    }
}

impl<'a, R: FileSystem> Files for RealFiles<'a, R> {
    ghost faults = { λ files. files.faults };

    ghost content = { λ _. None };

    /// Reads the file once, into room that is reserved once by the size that the system tells, and
    /// never more than one byte beyond `max`.
    fn read(&mut self, alloc: Global, name: &str, max: u64) -> FileRead {
        match read_file(self.rt, alloc, name, max) {
            Ok(read) => read,
            Err(e) if e.kind() == ErrorKind::OutOfMemory => FileRead::Memory,
            Err(_) => {
                self.faults = self.faults.saturating_add(1);
                FileRead::Failed
            }
        }
    }
}

// The bytes of the file, or TooLong. A size above `max` is believed; else only the bytes that come
// decide, since a pipe tells no size and a file may grow.
fn read_file<R: FileSystem>(rt: &R, alloc: Global, name: &str, max: u64) -> io::Result<FileRead>
    ensures within { IfOk result (IsWithin max) }
    ensures sure { IfOk result (λ read. read ≢ file_read.Failed) }
{
    let file = fs::open(rt, name)?;
    let size = size_of(&file.metadata()?);
    if size > max {
        return Ok(FileRead::TooLong);
    }
    let mut bytes = Vec::with_capacity(alloc, room_for(size))?;
    file.take(max.saturating_add(1)).read_to_end(&mut bytes)?;
    if bytes.len() as u64 > max {
        return Ok(FileRead::TooLong);
    }
    Ok(FileRead::Bytes(bytes))
}

// How many bytes the system tells of: none at what is no file proper, as a directory or a pipe.
fn size_of(metadata: &Metadata) -> u64 {
    if metadata.is_file() {
        metadata.len()
    } else {
        0
    }
}

// One byte more than the size, so that the end is found without growing.
fn room_for(size: u64) -> usize {
    usize::try_from(size)
        .unwrap_or(usize::MAX)
        .saturating_add(1)
}
