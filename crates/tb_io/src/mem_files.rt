ghost use Rattle.std.specs.Prelude.{◌≡◌, ◌≤◌, [], ℕ, Some, None, IfOk, OnOk, OnErr};
ghost use Rattle.std.specs.Option.{option_copied};
ghost use Rattle.tb_io.specs.Faults.{HasRisen, one_more};
ghost use Rattle.tb_io.specs.FileAnswers.{IsWithin, Tells, TellsOf};
ghost use Rattle.tb_io.specs.HeldFiles.{FailingFiles, bytes_of, HasHeld};
ghost use Rattle.tb_io.specs.HeldFiles.{IsReading, fails_next, after_read};
ghost use Rattle.tb_io.specs.declared.answers.FileRead.TheVariants as file_read;

use crate::answers::FileRead;
use crate::failures::is_listed;
use crate::file_map::{FileMap, copy_of};
use crate::files::Files;
use std::alloc::Global;
use std::marker::Model;
use tb_base::Memory;

/// Files in memory, of which some readings fail.
///
/// No reading changes what a name holds. A reading fails exactly where its number, from 1, is on
/// the list that `new` was given, or the name isn't there; each failure counts one fault.
#[derive(Drop)]
pub struct MemFiles {
    held: FileMap,
    fails: Vec<u32>,
    calls: u64,
    faults: u64,
}

impl Model for MemFiles {
    ghost use Rattle.tb_io.specs.HeldFiles.{FailingFiles};

    ghost Value = { FailingFiles };

    ghost view = { λ m.
        record { held = m.held; fails = m.fails.items; calls = m.calls; faults = m.faults } };
}

impl MemFiles {
    /// No files, of which the readings with these numbers, from 1, will fail.
    pub fn new(alloc: Global, fails: &[u32]) -> Result<MemFiles, Memory>
        ensures { IfOk result (λ files.
            files ≡ record { held = []; fails = fails.now; calls = 0; faults = 0 }) }
    {
        Ok(MemFiles {
            held: FileMap::new(alloc),
            fails: Vec::from_slice(alloc, fails)?,
            calls: 0,
            faults: 0,
        })
    }

    /// Gives the name these bytes, in place of those that it had. It takes memory for both. Out of
    /// memory, it changes nothing.
    pub fn hold(&mut self, name: &str, bytes: &[u8]) -> Result<(), Memory>
        ensures ok { OnOk result (HasHeld self.old.held self.new.held name.now bytes.now) }
        ensures rest { self.new ≡ record self.old { held = self.new.held } }
        ensures err { OnErr result (self.new ≡ self.old) }
    {
        self.held.hold(name, bytes)
    }

    /// The bytes of the name, None exactly where it isn't there.
    pub fn bytes(&self, name: &str) -> Option<&[u8]>
        ensures { option_copied result ≡ bytes_of self.now.held name.now }
    {
        self.held.bytes(name)
    }
}

impl Files for MemFiles {
    ghost faults = { λ files. files.faults };

    ghost content = { λ files. Some (bytes_of files.held) };

    ghost readings = { λ files. Some files.calls };

    /// Fails exactly where the reading is one of those that are to fail, or the name isn't there.
    /// It copies nothing where it returns TooLong.
    fn read(&mut self, alloc: Global, name: &str, max: u64) -> FileRead
        ensures count { self.old.faults ≤ self.new.faults }
        ensures failed { result ≡ file_read.Failed → HasRisen self.old.faults self.new.faults }
        ensures within { IsWithin max result }
        ensures bytes { Tells (bytes_of self.old.held name.now) max result }
        ensures same { self.new.held ≡ self.old.held }
        ensures reading { self.new.calls ≡ one_more self.old.calls }
        ensures exact { IsReading (fails_next self.old) (bytes_of self.old.held name.now) max
            result }
        ensures after { self.new ≡ after_read self.old result }
    {
        self.calls = self.calls.saturating_add(1);
        if !is_listed(self.fails.as_slice(), self.calls) {
            if let Some(bytes) = self.held.bytes(name) {
                return copy_of(alloc, bytes, max);
            }
        }
        self.faults = self.faults.saturating_add(1);
        FileRead::Failed
    }
}
