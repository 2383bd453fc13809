ghost use Rattle.std.specs.Prelude.{◌≡◌, ◌≤◌, ◌<◌, ◌^◌, ◌+◌, ◌-◌, true, false, List, ℕ};
ghost use Rattle.std.specs.Prelude.{is_none, length, IfOk, IfSome, IsSome, ◌↔◌};
ghost use Rattle.tb_io.specs.Faults.{HasRisen};
ghost use Rattle.tb_disk.specs.Images.{Leads, Only, WhereTold};
ghost use Rattle.tb_disk.specs.Moments.{KeepsPast, LeavesOnly};
ghost use Rattle.tb_disk.specs.Quiet.{IsQuiet};
ghost use Rattle.tb_spelling.specs.Payloads.{CanBeSpelled};
ghost use Rattle.tb_spelling.specs.Spelling.{spelled};
ghost use Rattle.tb_journal.specs.Records.{HasLength, behind_of, payload_behind};
ghost use Rattle.tb_journal.specs.States.{AfterNext, JournalState, opened, place_after};
ghost use Rattle.tb_journal.specs.Stops.{EndsWithOrWithout, IsKept, IsKeptOn, IsOn};
ghost use Rattle.tb_journal.specs.Opening.{IsForeign, IsOpened, IsOurs, StandsAsOne};
ghost use Rattle.tb_journal.specs.Reading.{IsSizeFound, Tells};
ghost use Rattle.tb_journal.specs.Taking.{IsTaken};
ghost use Rattle.tb_journal.specs.declared.journal.Put.TheVariants as put;
ghost use Rattle.tb_journal.specs.declared.opening.JournalOpen.TheVariants as opening;
ghost use Rattle.tb_journal.specs.declared.recovered.Recovered.TheVariants as recovered;

use crate::opening::{JournalOpen, begin};
use crate::reading::{Found, find};
use crate::recovered::Recovered;
use crate::through::write_record;
use std::alloc::Global;
use std::marker::Model;
use tb_base::Memory;
use tb_disk::{Disk, Done};
use tb_release::Edits;
use tb_spelling::{payload_len, spell_behind};

/// How a put ended: `Kept` says that the batch is on the disk, `DiskFault` that the disk failed and
/// the journal is no longer live, `Memory` that nothing was written.
#[derive(Clone, Copy, Debug, PartialEq, Eq)]
pub enum Put {
    Kept,
    DiskFault,
    Memory,
}

/// A journal of batches in the file of a disk: each is on the disk before it is acknowledged.
///
/// It knows the place of its next gate, and no more of the file. Once a call failed, or found a
/// record that is none, it isn't live: nothing more is put.
#[derive(Debug, Drop)]
pub struct Journal {
    place: u64,
    read: u32,
    live: bool,
    at_end: bool,
}

impl Model for Journal {
    ghost use Rattle.tb_journal.specs.States.{JournalState};

    ghost Value = { JournalState };

    ghost view = { λ j.
        record { place = j.place; read = j.read; live = j.live; at_end = j.at_end } };
}

impl Journal {
    /// Opens the journal in a disk's file, which was attached. It syncs first, and writes a file of
    /// at most nine bytes anew; one that isn't a journal stays as it is. A stop at any moment of
    /// the call leaves a file that stands for the same batches as one that a stop before it could
    /// have left. It takes no memory.
    pub fn open<D: Disk>(_alloc: Global, disk: &mut D) -> (JournalOpen, Option<Journal>)
        requires attached { D.attached disk.old ≡ true }
        ensures attached { D.attached disk.new ≡ true }
        ensures only { (result.0 ≡ opening.Open) ↔ IsSome result.1 }
        ensures fresh { IfSome result.1 (λ journal. journal ≡ opened) }
        ensures opened { result.0 ≡ opening.Open →
            Leads (D.content disk.old) (D.content disk.new) IsOpened }
        ensures on { result.0 ≡ opening.Open → WhereTold (D.content disk.new)
            (λ file. IsOn file (D.may_leave disk.new) opened) }
        ensures ours { result.0 ≡ opening.Open → WhereTold (D.content disk.old) IsOurs }
        ensures foreign { result.0 ≡ opening.NotJournal → WhereTold (D.content disk.old) IsForeign }
        ensures untouched { result.0 ≡ opening.NotJournal →
            D.content disk.new ≡ D.content disk.old }
        ensures durable { result.0 ≡ opening.NotJournal →
            WhereTold (D.content disk.old) (λ file. Only file (D.may_leave disk.new)) }
        ensures any_moment { WhereTold (D.content disk.old) (λ _. LeavesOnly D.moment D.left_since
            disk.old disk.new (StandsAsOne (D.may_leave disk.old))) }
        ensures past { KeepsPast D.moment D.left_since disk.old disk.new }
        ensures count { D.faults disk.old ≤ D.faults disk.new }
        ensures failed { result.0 ≡ opening.DiskFault →
            HasRisen (D.faults disk.old) (D.faults disk.new) }
        ensures memory { result.0 ≡ opening.Memory → ⊥ }
    {
        match begin(disk) {
            JournalOpen::Open => {
                let journal = Journal {
                    place: 8,
                    read: 0,
                    live: true,
                    at_end: false,
                };
                (JournalOpen::Open, Some(journal))
            }
            other => (other, None),
        }
    }

    /// Whether more can be put.
    pub fn live(&self) -> bool
        ensures { result ≡ self.now.live }
    {
        self.live
    }

    /// Whether all batches were read.
    pub fn at_end(&self) -> bool
        ensures { result ≡ self.now.at_end }
    {
        self.at_end
    }

    /// Nothing can be put from now on.
    pub fn close(&mut self)
        ensures { self.new ≡ record self.old { live = false } }
    {
        self.live = false;
    }

    /// The next batch: a batch comes exactly where the record at the next gate is that of its
    /// edits, the end exactly where that gate isn't open, and `BadRecord` exactly where it is and
    /// its record doesn't lie in the file, or has a payload of more than 4,000,000 bytes, or one
    /// that is that of no edits. It writes nothing. It takes memory for the payload and its edits.
    pub fn read_next<D: Disk>(&mut self, alloc: Global, disk: &mut D) -> Recovered
        requires attached { D.attached disk.old ≡ true }
        requires few { self.old.read < 2 ^ 32 - 1 }
        requires on { WhereTold (D.content disk.old)
            (λ file. IsOn file (D.may_leave disk.old) self.old) }

        ensures attached { D.attached disk.new ≡ true }
        ensures told { WhereTold (D.content disk.old)
            (λ file. Tells file self.old self.new result) }
        ensures on { WhereTold (D.content disk.new)
            (λ file. IsOn file (D.may_leave disk.new) self.new) }
        ensures state { AfterNext self.old result self.new }
        ensures quiet { IsQuiet D.content D.may_leave D.moment D.left_since disk.old disk.new }
        ensures count { D.faults disk.old ≤ D.faults disk.new }
        ensures failed { result ≡ recovered.DiskFault →
            HasRisen (D.faults disk.old) (D.faults disk.new) }
    {
        let found = find(alloc, disk, self.place);
        self.take(found)
    }

    // What comes of what stands at the next gate.
    fn take(&mut self, found: Found) -> Recovered
        requires few { self.old.read < 2 ^ 32 - 1 }
        requires size { IsSizeFound found }
        ensures state { AfterNext self.old result self.new }
        ensures taken { IsTaken found result }
    {
        match found {
            Found::Batch(edits, size) => {
                self.place = place_after(self.place, size);
                self.read += 1;
                Recovered::Batch(edits)
            }
            Found::End => {
                self.at_end = true;
                Recovered::End
            }
            Found::Bad => {
                self.live = false;
                Recovered::BadRecord(self.read + 1)
            }
            Found::DiskFault => {
                self.live = false;
                Recovered::DiskFault
            }
            Found::Memory => Recovered::Memory,
        }
    }

    /// Puts a batch's edits on the disk, by two writes of which each is synced. A stop at any
    /// moment of the call leaves the batches from before it, with this one or without, and then a
    /// gate that isn't open. It takes memory once, for the edits' bytes.
    pub fn put<D: Disk>(&mut self, alloc: Global, disk: &mut D, edits: &Edits) -> Put
        requires attached { D.attached disk.old ≡ true }
        requires live { self.old.live ≡ true }
        requires at_end { self.old.at_end ≡ true }
        requires spelled { CanBeSpelled edits.now }
        requires on { WhereTold (D.content disk.old)
            (λ file. IsOn file (D.may_leave disk.old) self.old) }

        ensures attached { D.attached disk.new ≡ true }
        ensures tells { is_none (D.content disk.new) ≡ is_none (D.content disk.old) }
        ensures kept { result ≡ put.Kept →
            Leads (D.content disk.old) (D.content disk.new) (IsKept (spelled edits.now)) }
        ensures on { result ≡ put.Kept → WhereTold (D.content disk.new)
            (λ file. IsOn file (D.may_leave disk.new) self.new) }
        ensures any_moment { WhereTold (D.content disk.old) (λ file.
            LeavesOnly D.moment D.left_since disk.old disk.new
            (EndsWithOrWithout file (spelled edits.now))) }
        ensures past { KeepsPast D.moment D.left_since disk.old disk.new }
        ensures state { result ≡ put.Kept → self.new ≡ record self.old {
          place = place_after self.old.place (length (spelled edits.now));
        } }
        ensures fault { result ≡ put.DiskFault → self.new ≡ record self.old { live = false } }
        ensures memory { result ≡ put.Memory → self.new ≡ self.old }
        ensures untouched { result ≡ put.Memory → disk.new ≡ disk.old }
        ensures count { D.faults disk.old ≤ D.faults disk.new }
        ensures failed { result ≡ put.DiskFault →
            HasRisen (D.faults disk.old) (D.faults disk.new) }
    {
        match record_bytes(alloc, edits) {
            Ok(behind) => self.put_record(disk, behind.as_slice()),
            Err(_) => Put::Memory,
        }
    }

    // The same, given what is to stand behind the gate.
    fn put_record<D: Disk>(&mut self, disk: &mut D, behind: &[u8]) -> Put
        requires attached { D.attached disk.old ≡ true }
        requires at_end { self.old.at_end ≡ true }
        requires few { HasLength (payload_behind behind.now) }
        requires behind { behind.now ≡ behind_of (payload_behind behind.now) }
        requires on { WhereTold (D.content disk.old)
            (λ file. IsOn file (D.may_leave disk.old) self.old) }

        ensures attached { D.attached disk.new ≡ true }
        ensures tells { is_none (D.content disk.new) ≡ is_none (D.content disk.old) }
        ensures kept { result ≡ put.Kept → Leads (D.content disk.old) (D.content disk.new)
            (IsKeptOn (D.may_leave disk.new) self.new (payload_behind behind.now)) }
        ensures any_moment { WhereTold (D.content disk.old) (λ file.
            LeavesOnly D.moment D.left_since disk.old disk.new
            (EndsWithOrWithout file (payload_behind behind.now))) }
        ensures past { KeepsPast D.moment D.left_since disk.old disk.new }
        ensures state { result ≡ put.Kept → self.new ≡ record self.old {
          place = place_after self.old.place (length (payload_behind behind.now));
        } }
        ensures fault { result ≡ put.DiskFault → self.new ≡ record self.old { live = false } }
        ensures sure { result ≡ put.Memory → ⊥ }
        ensures count { D.faults disk.old ≤ D.faults disk.new }
        ensures failed { result ≡ put.DiskFault →
            HasRisen (D.faults disk.old) (D.faults disk.new) }
    {
        match write_record(disk, self.place, behind) {
            Done::All => {
                self.place = self.place.saturating_add(behind.len() as u64);
                Put::Kept
            }
            Done::Failed => {
                self.live = false;
                Put::DiskFault
            }
        }
    }
}

// The place behind the record of a payload of so many bytes. A file of 64 bits has it.
// A file has fewer than 2^64 bytes: a place that would pass that is cut off, and none is.
fn place_after(place: u64, size: usize) -> u64
    ensures { result ≡ place_after place size }
{
    place.saturating_add((size as u64).saturating_add(5))
}

// What stands behind the gate of the edits' record.
fn record_bytes(alloc: Global, edits: &Edits) -> Result<Vec<u8>, Memory>
    requires { CanBeSpelled edits.now }
    ensures behind { IfOk result (λ bytes. bytes.items ≡ behind_of (spelled edits.now)) }
    ensures short { IfOk result (λ _. HasLength (spelled edits.now)) }
{
    let size = payload_len(edits);
    let mut out = Vec::with_capacity(alloc, size + 5)?;
    out.extend_from_slice(&(size as u32).to_be_bytes())?;
    spell_behind(&mut out, edits)?;
    out.push(0)?;
    Ok(out)
}
