ghost use Rattle.std.specs.Prelude.{◌≡◌, ◌≤◌, ◌+◌, ℕ, List, Bool, true, false, Option, Some};
ghost use Rattle.std.specs.Prelude.{length, take, drop, is_none, option_map};
ghost use Rattle.tb_io.specs.Faults.{HasRisen};
ghost use Rattle.tb_disk.specs.Images.{Fewer, Follows, Leads, Only, SizeTells, Torn};
ghost use Rattle.tb_disk.specs.Images.{WhereTold, IsWritten};
ghost use Rattle.tb_disk.specs.Moments.{Elapses};
ghost use Rattle.tb_disk.specs.declared.disk.Done.TheVariants as done;
ghost use Rattle.tb_disk.specs.declared.disk.Size.TheVariants as size;

/// How a call of a disk ended. `Failed` is a fault of the outside.
#[derive(Clone, Copy, Debug, PartialEq, Eq)]
pub enum Done {
    All,
    Failed,
}

/// How many bytes a disk's file has. `Failed` is a fault of the outside.
#[derive(Clone, Copy, Debug, PartialEq, Eq)]
pub enum Size {
    Is(u64),
    Failed,
}

/// A disk with one file, which is attached by its name before every other call.
///
/// A call fails only where the count of faults rose in it. Until a sync, a stop may leave any bytes
/// where a write wrote, and past the old end; the bytes outside stay. After a sync that didn't fail
/// a stop leaves what a read gives.
pub trait Disk {
    /// How many faults there were.
    ghost faults: { Self → ℕ };

    /// Whether the file was attached.
    ghost attached: { Self → Bool };

    /// The bytes that each name has before it is attached, where they are told.
    ghost named: { Self → Option (List ℕ → List ℕ) };

    /// What a stop could leave under each name before it is attached: no bytes where there is none.
    ghost could_leave: { Self → List ℕ → List ℕ → Type 0 };

    /// What a read gives, where it is told.
    ghost content: { Self → Option (List ℕ) };

    /// What a stop now may leave.
    ghost may_leave: { Self → List ℕ → Type 0 };

    /// The moment, as a number that doesn't fall.
    ghost moment: { Self → ℕ };

    /// What a stop at some moment from that one on may have left, in a call or between two.
    ghost left_since: { Self → ℕ → List ℕ → Type 0 };

    /// Attaches the file of that name. A name that isn't there becomes an empty file.
    fn attach(&mut self, name: &str) -> Done
        requires { attached self.old ≡ false }
        ensures attached { result ≡ done.All → attached self.new ≡ true }
        ensures found { result ≡ done.All →
            content self.new ≡ option_map (λ bytes_of. bytes_of name.now) (named self.old) }
        // Whether it fails or not.
        ensures left { (image : List ℕ) → may_leave self.new image
            → could_leave self.old name.now image }
        ensures later { moment self.old ≤ moment self.new }
        ensures any_moment { (image : List ℕ) → left_since self.new (moment self.old) image
            → could_leave self.old name.now image }
        ensures count { faults self.old ≤ faults self.new }
        ensures failed { result ≡ done.Failed → HasRisen (faults self.old) (faults self.new) };

    /// How many bytes the file has.
    fn size(&mut self) -> Size
        requires { attached self.old ≡ true }
        ensures attached { attached self.new ≡ true }
        ensures told { WhereTold (content self.old) (λ file. SizeTells file result) }
        ensures same { content self.new ≡ content self.old }
        ensures stop { Fewer (may_leave self.old) (may_leave self.new) }
        ensures time { Elapses (moment self.old) (moment self.new)
            (left_since self.old) (left_since self.new) (may_leave self.new) }
        ensures count { faults self.old ≤ faults self.new }
        ensures failed { result ≡ size.Failed → HasRisen (faults self.old) (faults self.new) };

    /// Fills the buffer with the bytes from place `at` on, all of which lie in the file.
    fn read_at(&mut self, at: u64, buf: &mut [u8]) -> Done
        requires attached { attached self.old ≡ true }
        requires within { WhereTold (content self.old) (λ file. at + length buf.old ≤ length file) }
        ensures attached { attached self.new ≡ true }
        ensures bytes { result ≡ done.All → WhereTold (content self.old)
            (λ file. buf.new ≡ take (length buf.old) (drop at file)) }
        ensures same { content self.new ≡ content self.old }
        ensures stop { Fewer (may_leave self.old) (may_leave self.new) }
        ensures time { Elapses (moment self.old) (moment self.new)
            (left_since self.old) (left_since self.new) (may_leave self.new) }
        ensures count { faults self.old ≤ faults self.new }
        ensures failed { result ≡ done.Failed → HasRisen (faults self.old) (faults self.new) };

    /// Writes over what is there, and past the end.
    fn write_at(&mut self, at: u64, bytes: &[u8]) -> Done
        requires attached { attached self.old ≡ true }
        requires within { WhereTold (content self.old) (λ file. at ≤ length file) }
        ensures attached { attached self.new ≡ true }
        ensures written { result ≡ done.All →
            Leads (content self.old) (content self.new) (IsWritten at bytes.now) }
        ensures outside { result ≡ done.Failed →
            Leads (content self.old) (content self.new) (Torn at (length bytes.now)) }
        ensures stop { Follows (Torn at (length bytes.now)) (may_leave self.old) (may_leave self.new) }
        ensures time { Elapses (moment self.old) (moment self.new)
            (left_since self.old) (left_since self.new) (may_leave self.new) }
        ensures count { faults self.old ≤ faults self.new }
        ensures failed { result ≡ done.Failed → HasRisen (faults self.old) (faults self.new) };

    /// Puts all that was written on the disk.
    fn sync(&mut self) -> Done
        requires { attached self.old ≡ true }
        ensures attached { attached self.new ≡ true }
        ensures durable { result ≡ done.All →
            WhereTold (content self.old) (λ file. Only file (may_leave self.new)) }
        ensures same { content self.new ≡ content self.old }
        ensures stop { Fewer (may_leave self.old) (may_leave self.new) }
        ensures time { Elapses (moment self.old) (moment self.new)
            (left_since self.old) (left_since self.new) (may_leave self.new) }
        ensures count { faults self.old ≤ faults self.new }
        ensures failed { result ≡ done.Failed → HasRisen (faults self.old) (faults self.new) };

    /// What a read gives, a stop now may leave.
    ghost as_it_reads: { (disk : Self) (file : List ℕ) →
        content disk ≡ Some file → may_leave disk file };

    /// What a stop now may leave is told only where it is told what a read gives.
    ghost told_beside: { (disk : Self) (image : List ℕ) →
        may_leave disk image → is_none (content disk) ≡ false };

    /// This moment is one of those since an earlier one.
    ghost counts_now: { (disk : Self) (t : ℕ) (image : List ℕ) →
        t ≤ moment disk → may_leave disk image → left_since disk t image };

    /// Since this moment there is no other.
    ghost only_now: { (disk : Self) (image : List ℕ) →
        left_since disk (moment disk) image → may_leave disk image };
}
