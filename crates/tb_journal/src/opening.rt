// What stands at the head of a journal's file when it is opened.

ghost use Rattle.std.specs.Prelude.{◌≡◌, ◌≢◌, ◌≤◌, true, length};
ghost use Rattle.tb_io.specs.Faults.{HasRisen};
ghost use Rattle.tb_disk.specs.Images.{Only, WhereTold};
ghost use Rattle.tb_journal.specs.Opening.{Begins, IsFew, IsLong, header};
ghost use Rattle.tb_journal.specs.declared.opening.JournalOpen.TheVariants as opening;

use crate::through::write_through;
use tb_disk::{Disk, Done, Size};

/// How the opening of a journal ended: `NotJournal` says that the file is of another kind.
#[derive(Clone, Copy, Debug, PartialEq, Eq)]
pub enum JournalOpen {
    Open,
    NotJournal,
    DiskFault,
    // It can't come, since `open` takes no memory; it stays for callers that match on it.
    Memory,
}

/// A journal's first bytes.
pub const HEADER: [u8; 8] = [84, 66, 74, 79, 85, 82, 78, 49];

// The file of a journal without a batch: its first bytes, and a gate that isn't open.
const EMPTY: [u8; 9] = [84, 66, 74, 79, 85, 82, 78, 49, 0];

// That the gate behind the records isn't 1 is promised of each stop in `put`, not here: nine torn
// bytes may end in 1. Such a file is begun anew by the next `open`.
/// Syncs, and then writes a file of at most nine bytes anew, or looks at the first bytes of a
/// longer one.
pub(crate) fn begin<D: Disk>(disk: &mut D) -> JournalOpen
    requires attached { D.attached disk.old ≡ true }
    ensures attached { D.attached disk.new ≡ true }
    ensures begins { Begins D.content D.may_leave D.moment D.left_since disk.old disk.new result }
    ensures count { D.faults disk.old ≤ D.faults disk.new }
    ensures failed { result ≡ opening.DiskFault →
        HasRisen (D.faults disk.old) (D.faults disk.new) }
    ensures memory { result ≡ opening.Memory → ⊥ }
{
    match disk.sync() {
        Done::All => look(disk),
        Done::Failed => JournalOpen::DiskFault,
    }
}

// The same over a file that is on the disk.
fn look<D: Disk>(disk: &mut D) -> JournalOpen
    requires attached { D.attached disk.old ≡ true }
    requires durable { WhereTold (D.content disk.old) (λ file. Only file (D.may_leave disk.old)) }
    ensures attached { D.attached disk.new ≡ true }
    ensures begins { Begins D.content D.may_leave D.moment D.left_since disk.old disk.new result }
    ensures count { D.faults disk.old ≤ D.faults disk.new }
    ensures failed { result ≡ opening.DiskFault →
        HasRisen (D.faults disk.old) (D.faults disk.new) }
    ensures memory { result ≡ opening.Memory → ⊥ }
{
    match disk.size() {
        Size::Is(n) => start(disk, n),
        Size::Failed => JournalOpen::DiskFault,
    }
}

// The same over a file of that size.
fn start<D: Disk>(disk: &mut D, size: u64) -> JournalOpen
    requires attached { D.attached disk.old ≡ true }
    requires size { WhereTold (D.content disk.old) (λ file. size ≡ length file) }
    requires durable { WhereTold (D.content disk.old) (λ file. Only file (D.may_leave disk.old)) }
    ensures attached { D.attached disk.new ≡ true }
    ensures begins { Begins D.content D.may_leave D.moment D.left_since disk.old disk.new result }
    ensures count { D.faults disk.old ≤ D.faults disk.new }
    ensures failed { result ≡ opening.DiskFault →
        HasRisen (D.faults disk.old) (D.faults disk.new) }
    ensures memory { result ≡ opening.Memory → ⊥ }
{
    if size <= 9 {
        start_anew(disk)
    } else {
        read_header(disk)
    }
}

fn start_anew<D: Disk>(disk: &mut D) -> JournalOpen
    requires attached { D.attached disk.old ≡ true }
    requires few { WhereTold (D.content disk.old) IsFew }
    requires durable { WhereTold (D.content disk.old) (λ file. Only file (D.may_leave disk.old)) }
    ensures attached { D.attached disk.new ≡ true }
    ensures begins { Begins D.content D.may_leave D.moment D.left_since disk.old disk.new result }
    ensures count { D.faults disk.old ≤ D.faults disk.new }
    ensures failed { result ≡ opening.DiskFault →
        HasRisen (D.faults disk.old) (D.faults disk.new) }
    ensures memory { result ≡ opening.Memory → ⊥ }
{
    match write_through(disk, 0, &EMPTY) {
        Done::All => JournalOpen::Open,
        Done::Failed => JournalOpen::DiskFault,
    }
}

fn read_header<D: Disk>(disk: &mut D) -> JournalOpen
    requires attached { D.attached disk.old ≡ true }
    requires long { WhereTold (D.content disk.old) IsLong }
    requires durable { WhereTold (D.content disk.old) (λ file. Only file (D.may_leave disk.old)) }
    ensures attached { D.attached disk.new ≡ true }
    ensures begins { Begins D.content D.may_leave D.moment D.left_since disk.old disk.new result }
    ensures count { D.faults disk.old ≤ D.faults disk.new }
    ensures failed { result ≡ opening.DiskFault →
        HasRisen (D.faults disk.old) (D.faults disk.new) }
    ensures memory { result ≡ opening.Memory → ⊥ }
{
    let mut head = [0; 8];
    match disk.read_at(0, &mut head) {
        Done::All => judge(&head),
        Done::Failed => JournalOpen::DiskFault,
    }
}

// Whether these are a journal's first bytes.
fn judge(head: &[u8]) -> JournalOpen
    ensures ours { result ≡ opening.Open → head.now ≡ header }
    ensures foreign { result ≡ opening.NotJournal → head.now ≢ header }
    ensures sure { result ≡ opening.DiskFault → ⊥ }
    ensures memory { result ≡ opening.Memory → ⊥ }
{
    if head == HEADER.as_slice() {
        JournalOpen::Open
    } else {
        JournalOpen::NotJournal
    }
}
