// Bytes by names, which both forms of files in memory keep.

ghost use Rattle.std.specs.Prelude.{◌≡◌, [], IfSome, IfNone, None, Some, OnOk, OnErr, IfOk};
ghost use Rattle.std.specs.Option.{option_copied};
ghost use Rattle.tb_io.specs.HeldFiles.{bytes_of, HasHeld};
ghost use Rattle.tb_io.specs.FileAnswers.{IsCopy};

use crate::answers::FileRead;
use std::alloc::{AllocError, Global};
use std::collections::HashMap;
use std::marker::Model;
use tb_base::Memory;

/// Names with their bytes.
#[derive(Drop)]
pub(crate) struct FileMap {
    files: HashMap<String, Vec<u8>>,
    alloc: Global,
}

impl Model for FileMap {
    ghost use Rattle.tb_io.specs.HeldFiles.{HeldFiles, held_of};

    ghost Value = { HeldFiles };

    ghost view = { λ h. held_of h.files.entries };
}

impl FileMap {
    /// No files.
    pub(crate) fn new(alloc: Global) -> FileMap
        ensures { result ≡ [] }
    {
        FileMap {
            files: HashMap::new(alloc),
            alloc,
        }
    }

    /// Gives the name these bytes. Out of memory, it changes nothing.
    pub(crate) fn hold(&mut self, name: &str, bytes: &[u8]) -> Result<(), Memory>
        ensures ok { OnOk result (HasHeld self.old self.new name.now bytes.now) }
        ensures err { OnErr result (self.new ≡ self.old) }
    {
        let name = String::from_str(self.alloc, name)?;
        let bytes = Vec::from_slice(self.alloc, bytes)?;
        self.files.insert(name, bytes)?;
        Ok(())
    }

    /// The bytes of the name, None exactly where it isn't there.
    pub(crate) fn bytes(&self, name: &str) -> Option<&[u8]>
        ensures { option_copied result ≡ bytes_of self.now name.now }
    {
        match self.files.get(name) {
            Some(bytes) => Some(bytes.as_slice()),
            None => None,
        }
    }
}

/// A copy of the bytes, or TooLong where they are more than `max`: then nothing is copied.
pub(crate) fn copy_of(alloc: Global, bytes: &[u8], max: u64) -> FileRead
    ensures { IsCopy bytes.now max result }
{
    if bytes.len() as u64 > max {
        return FileRead::TooLong;
    }
    match Vec::from_slice(alloc, bytes) {
        Ok(copy) => FileRead::Bytes(copy),
        Err(_) => FileRead::Memory,
    }
}
