ghost use Rattle.std.specs.Prelude.{◌≡◌, ◌≤◌, ◌<◌, ◌^◌, ◌-◌, ◌↔◌, true, List, ℕ, []};
ghost use Rattle.std.specs.Prelude.{IfSome, IsSome, length};
ghost use Rattle.tb_disk.specs.Images.{Leads, Only, WhereTold};
ghost use Rattle.tb_disk.specs.Moments.{KeepsPast, LeavesOnly};
ghost use Rattle.tb_disk.specs.Quiet.{IsQuiet};
ghost use Rattle.tb_io.specs.Faults.{HasRisen};
ghost use Rattle.tb_journal.specs.Opening.{IsForeign, IsOpened, IsOurs, StandsAsOne};
ghost use Rattle.tb_journal.specs.Reading.{Tells};
ghost use Rattle.tb_journal.specs.States.{AfterNext, opened};
ghost use Rattle.tb_journal.specs.Stops.{IsOn};
ghost use Rattle.tb_journal.specs.declared.opening.JournalOpen.TheVariants as opening;
ghost use Rattle.tb_journal.specs.declared.recovered.Recovered.TheVariants as recovered;
ghost use Rattle.tb_journal_file.specs.Files.{CanPut};
ghost use Rattle.tb_journal_file.specs.Recovery.{AreRead, ReadOn};
ghost use Rattle.tb_release.specs.declared.edits.Edit.{Edit};

use std::alloc::Global;
use tb_ahead::{Put, WriteAhead};
use tb_disk::Disk;
use tb_journal::{Journal, JournalOpen, Recovered};
use tb_release::Edits;

/// A journal and the disk that its file is on, into which batches are written ahead.
///
/// The disk is lent. No call takes another in its place, so once the file is let go, whoever lent
/// the disk knows what the calls left of it.
#[derive(Drop)]
pub struct JournalFile<'d, D> {
    pub disk: &'d mut D,
    pub journal: Journal,
}

impl<'d, D: Disk> JournalFile<'d, D> {
    /// Opens the journal in a disk's file, as `Journal::open` does, so that it and the disk can be
    /// made one. No batch was read yet.
    pub fn open(alloc: Global, disk: &mut D) -> (JournalOpen, Option<Journal>)
        requires attached { D.attached disk.old ≡ true }
        ensures attached { D.attached disk.new ≡ true }
        ensures only { (result.0 ≡ opening.Open) ↔ IsSome result.1 }
        ensures fresh { IfSome result.1 (λ journal. journal ≡ opened) }
        ensures opened { result.0 ≡ opening.Open →
            Leads (D.content disk.old) (D.content disk.new) IsOpened }
        ensures on { result.0 ≡ opening.Open → WhereTold (D.content disk.new)
            (λ file. IsOn file (D.may_leave disk.new) opened) }
        ensures read { result.0 ≡ opening.Open →
            WhereTold (D.content disk.new) (AreRead [] opened) }
        ensures ours { result.0 ≡ opening.Open → WhereTold (D.content disk.old) IsOurs }
        ensures foreign { result.0 ≡ opening.NotJournal → WhereTold (D.content disk.old) IsForeign }
        ensures untouched { result.0 ≡ opening.NotJournal →
            D.content disk.new ≡ D.content disk.old }
        ensures durable { result.0 ≡ opening.NotJournal →
            WhereTold (D.content disk.old) (λ file. Only file (D.may_leave disk.new)) }
        ensures any_moment { WhereTold (D.content disk.old) (λ _. LeavesOnly D.moment D.left_since
            disk.old disk.new (StandsAsOne (D.may_leave disk.old))) }
        ensures past { KeepsPast D.moment D.left_since disk.old disk.new }
        ensures count { D.faults disk.old ≤ D.faults disk.new }
        ensures failed { result.0 ≡ opening.DiskFault →
            HasRisen (D.faults disk.old) (D.faults disk.new) }
        ensures memory { result.0 ≡ opening.Memory → ⊥ }
    {
        Journal::open(alloc, disk)
    }

    /// The next batch, as `Journal::read_next` gives it. At the end each file that a stop may leave
    /// stands for the batches that were read, and more can be put while the journal is live. It
    /// takes memory for the payload and its edits.
    pub fn read_next(&mut self, alloc: Global) -> Recovered
        requires attached { D.attached self.old.disk.now ≡ true }
        requires few { self.old.journal.read < 2 ^ 32 - 1 }
        requires on { WhereTold (D.content self.old.disk.now)
            (λ file. IsOn file (D.may_leave self.old.disk.now) self.old.journal) }

        ensures same_disk { self.new.disk.ghost_name ≡ self.old.disk.ghost_name }
        ensures attached { D.attached self.new.disk.now ≡ true }
        ensures told { WhereTold (D.content self.old.disk.now)
            (λ file. Tells file self.old.journal self.new.journal result) }
        ensures on { WhereTold (D.content self.new.disk.now)
            (λ file. IsOn file (D.may_leave self.new.disk.now) self.new.journal) }
        ensures state { AfterNext self.old.journal result self.new.journal }
        ensures quiet { IsQuiet D.content D.may_leave D.moment D.left_since
            self.old.disk.now self.new.disk.now }
        ensures read { (batches : List (List Edit))
            → WhereTold (D.content self.old.disk.now) (AreRead batches self.old.journal)
            → ReadOn batches (D.content self.new.disk.now) (D.may_leave self.new.disk.now)
            self.new.journal result }
        ensures ready { result ≡ recovered.End → CanPut (D.attached self.new.disk.now)
            (D.content self.new.disk.now) (D.may_leave self.new.disk.now) self.new.journal }
        ensures count { D.faults self.old.disk.now ≤ D.faults self.new.disk.now }
        ensures failed { result ≡ recovered.DiskFault →
            HasRisen (D.faults self.old.disk.now) (D.faults self.new.disk.now) }
    {
        self.journal.read_next(alloc, &mut *self.disk)
    }
}

impl<'d, D: Disk> WriteAhead for JournalFile<'d, D> {
    ghost use Rattle.std.proofs.Common.{◌∙◌, inr, refl};
    ghost use Rattle.tb_disk.proofs.Past.{past-none, past-then};
    ghost use Rattle.tb_journal_file.specs.Files.{AreLeft, CanPut};

    ghost Continues = { λ old new. (new.disk.ghost_name ≡ old.disk.ghost_name)
        × KeepsPast D.moment D.left_since old.disk.now new.disk.now };

    ghost faults = { λ f. D.faults f.disk.now };

    ghost live = { λ f. f.journal.live };

    ghost IsReady = { λ f. CanPut (D.attached f.disk.now) (D.content f.disk.now)
        (D.may_leave f.disk.now) f.journal };

    ghost StandsFor = { λ f. AreLeft (D.content f.disk.now) (D.may_leave f.disk.now)
        (D.moment f.disk.now) (D.left_since f.disk.now) };

    fn is_live(&self) -> bool {
        self.journal.live()
    }

    fn put(&mut self, alloc: Global, edits: &Edits) -> Put {
        match self.journal.put(alloc, &mut *self.disk, edits) {
            tb_journal::Put::Kept => Put::Kept,
            tb_journal::Put::DiskFault => Put::DiskFault,
            tb_journal::Put::Memory => Put::Memory,
        }
    }

    fn close(&mut self) {
        self.journal.close();
    }

    ghost continues_itself = { λ f. (
      refl,
      past-none D.may_leave D.moment D.left_since D.counts_now f.disk.now (D.only_now f.disk.now),
    ) };

    ghost continues_on = { λ old mid new first second. (
      second.0 ∙ first.0,
      past-then D.moment D.left_since old.disk.now mid.disk.now new.disk.now first.1 second.1,
    ) };

    ghost further = { λ f since batches last is. record {
      now = λ image left. inr (is.now image left);
      ever = is.ever;
    } };
}
