ghost use Rattle.std.specs.Prelude.{◌≡◌, ◌≤◌, ◌<◌, ◌+◌, [], true, false, ℕ, List, Some, IfOk};
ghost use Rattle.std.specs.Prelude.{length, drop, take, get_or, refl};
ghost use Rattle.tb_io.specs.Faults.{HasRisen};
ghost use Rattle.tb_disk.specs.Images.{Fewer, Follows, IsWritten, Leads, Only, SizeTells, Torn};
ghost use Rattle.tb_disk.specs.Images.{WhereTold};
ghost use Rattle.tb_disk.specs.Moments.{Elapses};
ghost use Rattle.tb_disk.specs.declared.disk.Done.TheVariants as done;
ghost use Rattle.tb_disk.specs.declared.disk.Size.TheVariants as size;
ghost use Rattle.tb_mem_disk.specs.Calls.{CallLog, is_sync};
ghost use Rattle.tb_mem_disk.specs.HeldDisk.{HeldDisk, IsAttached, IsRead, IsSized, IsSynced};
ghost use Rattle.tb_mem_disk.specs.HeldDisk.{IsWrite};
ghost use Rattle.tb_mem_disk.specs.Writes.{HadSince, HeldFile, bytes_of};
ghost use Rattle.tb_mem_disk.specs.declared.call.Call.TheVariants as kind;
ghost use Rattle.tb_mem_disk.specs.Laws.{had-now, only-now, reads-so};

use crate::call::Call;
use crate::call_log::Calls;
use crate::held_file::FileBytes;
use std::alloc::Global;
use std::marker::Model;
use tb_base::Memory;
use tb_disk::{Disk, Done, Size};

/// A disk in memory, whose file has any name. Each call is done at once, so a stop leaves what is
/// there.
///
/// A call fails exactly where its number, from 1, is on the list that `new` was given, or it is out
/// of memory; it then changes no byte and counts one fault. Each call takes memory for the record
/// of calls, and a write for what is written.
#[derive(Drop)]
pub struct MemDisk {
    attached: bool,
    file: FileBytes,
    log: Calls,
}

impl Model for MemDisk {
    ghost use Rattle.tb_mem_disk.specs.HeldDisk.{HeldDisk};

    ghost Value = { HeldDisk };

    ghost view = { λ d. record { attached = d.attached; file = d.file; log = d.log } };
}

impl MemDisk {
    /// A disk whose file has these bytes, and of which the calls with these numbers, from 1, will
    /// fail.
    pub fn new(alloc: Global, bytes: &[u8], fails: &[u32]) -> Result<MemDisk, Memory>
        ensures { IfOk result (λ disk. disk ≡ record {
          attached = false;
          file = record { first = bytes.now; writes = [] };
          log = record { calls = []; fails = fails.now; made = 0; faults = 0 };
        }) }
    {
        Ok(MemDisk {
            attached: false,
            file: FileBytes::new(alloc, bytes)?,
            log: Calls::new(alloc, fails)?,
        })
    }

    /// The bytes of the file.
    pub fn bytes(&self) -> &[u8]
        ensures { result.now ≡ bytes_of self.now.file }
    {
        self.file.bytes()
    }

    /// How many calls were recorded: all that were made, but for those that were out of memory.
    pub fn calls(&self) -> usize
        ensures { result ≡ length self.now.log.calls }
    {
        self.log.len()
    }

    /// Whether call `i`, from 0, was a sync.
    pub fn is_sync(&self, i: usize) -> bool
        requires { i < length self.now.log.calls }
        ensures { result ≡ is_sync (get_or self.now.log.calls i kind.Attach) }
    {
        self.log.is_sync(i)
    }
}

impl Disk for MemDisk {
    ghost faults = { λ d. d.log.faults };

    ghost attached = { λ d. d.attached };

    ghost named = { λ d. Some (λ name. bytes_of d.file) };

    ghost could_leave = { λ d name image. image ≡ bytes_of d.file };

    ghost content = { λ d. Some (bytes_of d.file) };

    ghost may_leave = { λ d image. image ≡ bytes_of d.file };

    ghost moment = { λ d. length d.file.writes };

    ghost left_since = { λ d t image. HadSince d.file t image };

    ghost as_it_reads = { λ d file told. reads-so (bytes_of d.file) file told };

    ghost told_beside = { λ d image left. refl };

    ghost counts_now = { λ d t image le now. had-now d.file t image le now };

    ghost only_now = { λ d image left. only-now d.file image left };

    fn attach(&mut self, _name: &str) -> Done
        requires { self.old.attached ≡ false }
        ensures exact { IsAttached result self.old self.new }
        ensures attached { result ≡ done.All → self.new.attached ≡ true }
        ensures found { result ≡ done.All →
            Some (bytes_of self.new.file) ≡ Some (bytes_of self.old.file) }
        ensures left { (image : List ℕ) → image ≡ bytes_of self.new.file
            → image ≡ bytes_of self.old.file }
        ensures later { length self.old.file.writes ≤ length self.new.file.writes }
        ensures any_moment { (image : List ℕ) →
            HadSince self.new.file (length self.old.file.writes) image
            → image ≡ bytes_of self.old.file }
        ensures count { self.old.log.faults ≤ self.new.log.faults }
        ensures failed { result ≡ done.Failed →
            HasRisen self.old.log.faults self.new.log.faults }
    {
        let made = self.log.make(Call::Attach);
        if let Done::All = made {
            self.attached = true;
        }
        made
    }

    fn size(&mut self) -> Size
        requires { self.old.attached ≡ true }
        ensures exact { IsSized result self.old self.new }
        ensures attached { self.new.attached ≡ true }
        ensures told { WhereTold (Some (bytes_of self.old.file)) (λ file. SizeTells file result) }
        ensures same { Some (bytes_of self.new.file) ≡ Some (bytes_of self.old.file) }
        ensures stop { Fewer (λ image. image ≡ bytes_of self.old.file)
            (λ image. image ≡ bytes_of self.new.file) }
        ensures time { Elapses (length self.old.file.writes) (length self.new.file.writes)
            (HadSince self.old.file) (HadSince self.new.file)
            (λ image. image ≡ bytes_of self.new.file) }
        ensures count { self.old.log.faults ≤ self.new.log.faults }
        ensures failed { result ≡ size.Failed →
            HasRisen self.old.log.faults self.new.log.faults }
    {
        match self.log.make(Call::Size) {
            Done::All => Size::Is(self.file.bytes().len() as u64),
            Done::Failed => Size::Failed,
        }
    }

    fn read_at(&mut self, at: u64, buf: &mut [u8]) -> Done
        requires attached { self.old.attached ≡ true }
        requires within { WhereTold (Some (bytes_of self.old.file))
            (λ file. at + length buf.old ≤ length file) }
        ensures exact { IsRead result at buf.old buf.new self.old self.new }
        ensures attached { self.new.attached ≡ true }
        ensures bytes { result ≡ done.All → WhereTold (Some (bytes_of self.old.file))
            (λ file. buf.new ≡ take (length buf.old) (drop at file)) }
        ensures same { Some (bytes_of self.new.file) ≡ Some (bytes_of self.old.file) }
        ensures stop { Fewer (λ image. image ≡ bytes_of self.old.file)
            (λ image. image ≡ bytes_of self.new.file) }
        ensures time { Elapses (length self.old.file.writes) (length self.new.file.writes)
            (HadSince self.old.file) (HadSince self.new.file)
            (λ image. image ≡ bytes_of self.new.file) }
        ensures count { self.old.log.faults ≤ self.new.log.faults }
        ensures failed { result ≡ done.Failed →
            HasRisen self.old.log.faults self.new.log.faults }
    {
        let made = self.log.make(Call::Read);
        if let Done::All = made {
            let from = at as usize;
            buf.copy_from_slice(&self.file.bytes()[from..from + buf.len()]);
        }
        made
    }

    fn write_at(&mut self, at: u64, bytes: &[u8]) -> Done
        requires attached { self.old.attached ≡ true }
        requires within { WhereTold (Some (bytes_of self.old.file)) (λ file. at ≤ length file) }
        ensures exact { IsWrite result at bytes.now self.old self.new }
        ensures attached { self.new.attached ≡ true }
        ensures written { result ≡ done.All → Leads (Some (bytes_of self.old.file))
            (Some (bytes_of self.new.file)) (IsWritten at bytes.now) }
        ensures outside { result ≡ done.Failed → Leads (Some (bytes_of self.old.file))
            (Some (bytes_of self.new.file)) (Torn at (length bytes.now)) }
        ensures stop { Follows (Torn at (length bytes.now)) (λ image. image ≡ bytes_of self.old.file)
            (λ image. image ≡ bytes_of self.new.file) }
        ensures time { Elapses (length self.old.file.writes) (length self.new.file.writes)
            (HadSince self.old.file) (HadSince self.new.file)
            (λ image. image ≡ bytes_of self.new.file) }
        ensures count { self.old.log.faults ≤ self.new.log.faults }
        ensures failed { result ≡ done.Failed →
            HasRisen self.old.log.faults self.new.log.faults }
    {
        match self.log.make(Call::Write) {
            Done::All => match self.file.write(at as usize, bytes) {
                Ok(()) => Done::All,
                Err(_) => self.log.refuse(),
            },
            Done::Failed => Done::Failed,
        }
    }

    fn sync(&mut self) -> Done
        requires { self.old.attached ≡ true }
        ensures exact { IsSynced result self.old self.new }
        ensures attached { self.new.attached ≡ true }
        ensures durable { result ≡ done.All → WhereTold (Some (bytes_of self.old.file))
            (λ file. Only file (λ image. image ≡ bytes_of self.new.file)) }
        ensures same { Some (bytes_of self.new.file) ≡ Some (bytes_of self.old.file) }
        ensures stop { Fewer (λ image. image ≡ bytes_of self.old.file)
            (λ image. image ≡ bytes_of self.new.file) }
        ensures time { Elapses (length self.old.file.writes) (length self.new.file.writes)
            (HadSince self.old.file) (HadSince self.new.file)
            (λ image. image ≡ bytes_of self.new.file) }
        ensures count { self.old.log.faults ≤ self.new.log.faults }
        ensures failed { result ≡ done.Failed →
            HasRisen self.old.log.faults self.new.log.faults }
    {
        self.log.make(Call::Sync)
    }
}
