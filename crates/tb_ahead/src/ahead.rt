// What batches are written ahead into.

ghost use Rattle.std.specs.Prelude.{◌≡◌, ◌≤◌, ◌++◌, ◌∷◌, ℕ, Bool, true, false, List, []};
ghost use Rattle.std.specs.Prelude.{Option, None, Some};
ghost use Rattle.tb_ahead.specs.Puts.{IsAdded, MayBeAdded, Since, StaysAsItWas};
ghost use Rattle.tb_ahead.specs.declared.ahead.Put.TheVariants as put;
ghost use Rattle.tb_io.specs.Faults.{HasRisen};
ghost use Rattle.tb_release.specs.declared.edits.Edit.{Edit};
ghost use Rattle.tb_spelling.specs.Payloads.{CanBeSpelled};

use std::alloc::Global;
use tb_release::Edits;

/// How a put ended: the batch is kept; the disk failed, and nothing is put any more; or there was
/// no memory for it, and nothing was written.
#[derive(Clone, Copy, Debug, PartialEq, Eq)]
pub enum Put {
    Kept,
    DiskFault,
    Memory,
}

/// What batches are written ahead into: it puts one after another while it is live.
///
/// `StandsFor` is its meaning: each file that a stop now may leave stands for these batches, each
/// as the list of its edits; or, where one further batch is given, for these, or for these and that
/// one. What a stop since some moment may have left stands for a beginning of them that is never
/// shorter than what `Since` gives. Of a disk that tells nothing it is true of any. `faults` counts
/// the disk's faults.
/// `IsReady` is the condition under which it puts, which every call keeps. `Continues` says of an
/// earlier and a later one what all calls keep, as that both write into the same: so whoever lent
/// that knows once the borrow is over that it is what the last call left, and what came before it.
pub trait WriteAhead {
    ghost Continues: { Self → Self → Type 0 };

    ghost faults: { Self → ℕ };

    ghost live: { Self → Bool };

    ghost IsReady: { Self → Type 0 };

    ghost StandsFor: { Self → Since → List (List Edit) → Option (List Edit) → Type 0 };

    /// Whether it is live.
    fn is_live(&self) -> bool
        ensures { result ≡ live self.now };

    /// Writes a batch. Once it is kept, each file that a stop may leave has it; where the disk
    /// fails, it may be there or not. Memory is refused only before the first write.
    fn put(&mut self, alloc: Global, edits: &Edits) -> Put
        requires live { live self.old ≡ true }
        requires ready { IsReady self.old }
        requires writable { CanBeSpelled edits.now }
        ensures ready { IsReady self.new }
        ensures continues { Continues self.old self.new }
        ensures count { faults self.old ≤ faults self.new }
        ensures kept { result ≡ put.Kept → (live self.new ≡ true)
            × IsAdded edits.now (StandsFor self.old) (StandsFor self.new) }
        ensures fault { result ≡ put.DiskFault → (live self.new ≡ false)
            × HasRisen (faults self.old) (faults self.new)
            × MayBeAdded edits.now (StandsFor self.old) (StandsFor self.new) }
        ensures memory { result ≡ put.Memory → (live self.new ≡ true)
            × StaysAsItWas (StandsFor self.old) (StandsFor self.new) };

    /// Ends live: nothing is put any more.
    fn close(&mut self)
        requires ready { IsReady self.old }
        ensures ready { IsReady self.new }
        ensures continues { Continues self.old self.new }
        ensures live { live self.new ≡ false }
        ensures count { faults self.new ≡ faults self.old }
        ensures stays { StaysAsItWas (StandsFor self.old) (StandsFor self.new) };

    /// What no call changed continues itself.
    ghost continues_itself: { (ahead : Self) → Continues ahead ahead };

    /// What continues a later one continues an earlier one.
    ghost continues_on: { (old mid new : Self) → Continues old mid → Continues mid new
        → Continues old new };

    /// Where each such file stands for some batches, the last may be called a further one.
    ghost further: { (ahead : Self) (since : Since) (batches : List (List Edit))
        (last : List Edit) → StandsFor ahead since (batches ++ last ∷ []) None
        → StandsFor ahead since batches (Some last) };
}
