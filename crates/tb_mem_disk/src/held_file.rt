// The bytes of a file, and how they came to be.

ghost use Rattle.std.specs.Prelude.{◌≡◌, ◌≤◌, ◌++◌, ◌∷◌, [], IfOk, OnOk, OnErr, length};
ghost use Rattle.tb_disk.specs.Images.{IsWritten};
ghost use Rattle.tb_mem_disk.specs.Writes.{HeldFile, bytes_of};

use std::alloc::Global;
use std::marker::Model;
use tb_base::Memory;

// Some bytes, and the place where they were written.
#[derive(Drop)]
struct Write {
    at: usize,
    bytes: Vec<u8>,
}

/// The bytes of a file, those that it had at first, and each write since.
#[derive(Drop)]
pub(crate) struct FileBytes {
    alloc: Global,
    first: Vec<u8>,
    writes: Vec<Write>,
    bytes: Vec<u8>,
}

impl Model for FileBytes {
    ghost use Rattle.std.specs.Prelude.{◌≡◌, map};
    ghost use Rattle.tb_disk.specs.Images.{IsWritten};
    ghost use Rattle.tb_mem_disk.specs.Writes.{HeldFile, after_writes};

    ghost Value = { HeldFile };

    ghost view = { λ f.
        record { first = f.first.items; writes = map (λ w. (w.at, w.bytes.items)) f.writes.items } };

    ghost invariant = { λ f. f.bytes.items
        ≡ after_writes f.first.items (map (λ w. (w.at, w.bytes.items)) f.writes.items) };
}

impl FileBytes {
    /// A file that has these bytes at first.
    pub(crate) fn new(alloc: Global, bytes: &[u8]) -> Result<FileBytes, Memory>
        ensures { IfOk result (λ file. file ≡ record { first = bytes.now; writes = [] }) }
    {
        Ok(FileBytes {
            alloc,
            first: Vec::from_slice(alloc, bytes)?,
            writes: Vec::new(alloc),
            bytes: Vec::from_slice(alloc, bytes)?,
        })
    }

    /// The bytes as they are.
    pub(crate) fn bytes(&self) -> &[u8]
        ensures { result.now ≡ bytes_of self.now }
    {
        self.bytes.as_slice()
    }

    /// Writes over the bytes, and past their end. It takes memory for what is written. Out of
    /// memory, it changes nothing.
    pub(crate) fn write(&mut self, at: usize, bytes: &[u8]) -> Result<(), Memory>
        requires { at ≤ length (bytes_of self.old) }
        ensures ok { OnOk result (self.new
            ≡ record self.old { writes = self.old.writes ++ (at, bytes.now) ∷ [] }) }
        ensures written { OnOk result
            (IsWritten at bytes.now (bytes_of self.old) (bytes_of self.new)) }
        ensures err { OnErr result (self.new ≡ self.old) }
    {
        let copy = Vec::from_slice(self.alloc, bytes)?;
        self.writes.reserve(1)?;
        overwrite(&mut self.bytes, at, bytes)?;
        match self.writes.push(Write { at, bytes: copy }) {
            Ok(()) => Ok(()),
            Err(_) => unreachable!(),
        }
    }
}

// The bytes with others over them. Out of memory, it changes nothing.
fn overwrite(bytes: &mut Vec<u8>, at: usize, new: &[u8]) -> Result<(), Memory>
    requires { at ≤ length bytes.old.items }
    ensures ok { OnOk result (IsWritten at new.now bytes.old.items bytes.new.items) }
    ensures err { OnErr result (bytes.new.items ≡ bytes.old.items) }
{
    let within = new.len().min(bytes.len() - at);
    bytes.extend_from_slice(&new[within..])?;
    bytes[at..at + within].copy_from_slice(&new[..within]);
    Ok(())
}
