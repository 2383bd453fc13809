ghost use Rattle.std.specs.Prelude.{◌≡◌, ◌≢◌, ◌≤◌, [], Some, OnOk, OnErr};
ghost use Rattle.tb_io.specs.FileAnswers.{IsWithin, Tells, IsCopy};
ghost use Rattle.tb_io.specs.HeldFiles.{bytes_or_none, HasHeld};
ghost use Rattle.tb_io.specs.declared.answers.FileRead.TheVariants as file_read;

use crate::answers::FileRead;
use crate::file_map::{FileMap, copy_of};
use crate::files::Files;
use std::alloc::Global;
use std::marker::Model;
use tb_base::Memory;

/// Files in memory that never fail.
///
/// Every name is there, and one for which nothing is held is empty.
#[derive(Drop)]
pub struct SureFiles {
    held: FileMap,
}

impl Model for SureFiles {
    ghost use Rattle.tb_io.specs.HeldFiles.{HeldFiles};

    ghost Value = { HeldFiles };

    ghost view = { λ s. s.held };
}

impl SureFiles {
    /// Every name empty. It takes no memory.
    pub fn new(alloc: Global) -> SureFiles
        ensures { result ≡ [] }
    {
        SureFiles {
            held: FileMap::new(alloc),
        }
    }

    /// Gives the name these bytes, in place of those that it had. It takes memory for both. Out of
    /// memory, it changes nothing.
    pub fn hold(&mut self, name: &str, bytes: &[u8]) -> Result<(), Memory>
        ensures ok { OnOk result (HasHeld self.old self.new name.now bytes.now) }
        ensures err { OnErr result (self.new ≡ self.old) }
    {
        self.held.hold(name, bytes)
    }

    /// The bytes of the name, none where nothing is held for it.
    pub fn bytes(&self, name: &str) -> &[u8]
        ensures { result.now ≡ bytes_or_none self.now name.now }
    {
        match self.held.bytes(name) {
            Some(bytes) => bytes,
            None => &[],
        }
    }
}

impl Files for SureFiles {
    ghost faults = { λ _. 0 };

    ghost content = { λ files. Some (λ name. Some (bytes_or_none files name)) };

    /// Never fails. It copies nothing where it returns TooLong.
    fn read(&mut self, alloc: Global, name: &str, max: u64) -> FileRead
        ensures sure { result ≢ file_read.Failed }
        ensures within { IsWithin max result }
        ensures exact { IsCopy (bytes_or_none self.old name.now) max result }
        ensures same { self.new ≡ self.old }
    {
        copy_of(alloc, self.bytes(name), max)
    }
}
