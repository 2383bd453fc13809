// What is found at a journal's next gate.

ghost use Rattle.std.specs.Prelude.{◌≡◌, ◌≤◌, ◌<◌, ◌+◌, true, ℕ, List, length, drop, get_or};
ghost use Rattle.std.specs.Int.{w32, from_be_bytes, to_be_bytes};
ghost use Rattle.tb_io.specs.Faults.{HasRisen};
ghost use Rattle.tb_disk.specs.Images.{WhereTold};
ghost use Rattle.tb_disk.specs.Quiet.{IsQuiet};
ghost use Rattle.tb_spelling.specs.Spelling.{spelled};
ghost use Rattle.tb_journal.specs.Reading.{AreBytes, IsByte, IsNumber, TellsFound, TellsNext};
ghost use Rattle.tb_journal.specs.Reading.{IsSizeFound};
ghost use Rattle.tb_journal.specs.declared.reading.Found.TheVariants as found;
ghost use Rattle.tb_journal.specs.declared.reading.Next.TheVariants as next;
ghost use Rattle.tb_journal.specs.declared.reading.Number.TheVariants as number;

use std::alloc::Global;
use tb_disk::{Disk, Done, Size};
use tb_release::Edits;
use tb_spelling::{MOST_PAYLOAD_BYTES, PayloadFault, read_payload};

/// What stands at a gate: a batch, with the number of its payload's bytes, or that the gate isn't
/// open, or an open gate without a record of edits.
#[derive(Drop)]
pub(crate) enum Found {
    Batch(Edits, usize),
    End,
    Bad,
    DiskFault,
    Memory,
}

// The same before the payload's bytes are read.
#[derive(Drop)]
enum Next {
    Payload(Vec<u8>),
    End,
    Bad,
    DiskFault,
    Memory,
}

// A number that was read, or a fault of the disk.
#[derive(Clone, Copy, Debug, PartialEq, Eq)]
enum Number {
    Is(u32),
    Failed,
}

// The number that four bytes are, the greatest first.
fn number_of(bytes: [u8; 4]) -> u32
    ensures number { result ≡ from_be_bytes w32 bytes }
    ensures bytes { to_be_bytes w32 result ≡ bytes }
{
    u32::from_be_bytes(bytes)
}

// The byte at that place.
fn read_byte<D: Disk>(disk: &mut D, at: u64) -> Number
    requires attached { D.attached disk.old ≡ true }
    requires within { WhereTold (D.content disk.old) (λ file. at < length file) }
    ensures attached { D.attached disk.new ≡ true }
    ensures told { WhereTold (D.content disk.old) (λ file. IsByte (drop at file) result) }
    ensures quiet { IsQuiet D.content D.may_leave D.moment D.left_since disk.old disk.new }
    ensures count { D.faults disk.old ≤ D.faults disk.new }
    ensures failed { result ≡ number.Failed → HasRisen (D.faults disk.old) (D.faults disk.new) }
{
    let mut byte = [0; 1];
    match disk.read_at(at, &mut byte) {
        Done::All => Number::Is(u32::from(byte[0])),
        Done::Failed => Number::Failed,
    }
}

// The four bytes from that place on, as a number.
fn read_number<D: Disk>(disk: &mut D, at: u64) -> Number
    requires attached { D.attached disk.old ≡ true }
    requires within { WhereTold (D.content disk.old) (λ file. at + 4 ≤ length file) }
    ensures attached { D.attached disk.new ≡ true }
    ensures told { WhereTold (D.content disk.old) (λ file. IsNumber (drop at file) result) }
    ensures quiet { IsQuiet D.content D.may_leave D.moment D.left_since disk.old disk.new }
    ensures count { D.faults disk.old ≤ D.faults disk.new }
    ensures failed { result ≡ number.Failed → HasRisen (D.faults disk.old) (D.faults disk.new) }
{
    let mut bytes = [0; 4];
    match disk.read_at(at, &mut bytes) {
        Done::All => Number::Is(number_of(bytes)),
        Done::Failed => Number::Failed,
    }
}

// So many bytes from that place on.
fn read_bytes<D: Disk>(alloc: Global, disk: &mut D, at: u64, size: u32) -> Next
    requires attached { D.attached disk.old ≡ true }
    requires within { WhereTold (D.content disk.old) (λ file. at + size ≤ length file) }
    ensures attached { D.attached disk.new ≡ true }
    ensures told { WhereTold (D.content disk.old) (λ file. AreBytes (drop at file) size result) }
    ensures quiet { IsQuiet D.content D.may_leave D.moment D.left_since disk.old disk.new }
    ensures count { D.faults disk.old ≤ D.faults disk.new }
    ensures failed { result ≡ next.DiskFault → HasRisen (D.faults disk.old) (D.faults disk.new) }
{
    let mut bytes = match vec![in alloc; 0u8; size as usize] {
        Ok(bytes) => bytes,
        Err(_) => return Next::Memory,
    };
    match disk.read_at(at, bytes.as_mut_slice()) {
        Done::All => Next::Payload(bytes),
        Done::Failed => Next::DiskFault,
    }
}

// The record at that place, whose gate is open, in a file of that size.
fn read_record<D: Disk>(alloc: Global, disk: &mut D, place: u64, size: u64) -> Next
    requires attached { D.attached disk.old ≡ true }
    requires within { place < size }
    requires size { WhereTold (D.content disk.old) (λ file. size ≡ length file) }
    requires gate { WhereTold (D.content disk.old) (λ file. get_or (drop place file) 0 0 ≡ 1) }
    ensures attached { D.attached disk.new ≡ true }
    ensures told { WhereTold (D.content disk.old) (λ file. TellsNext (drop place file) result) }
    ensures quiet { IsQuiet D.content D.may_leave D.moment D.left_since disk.old disk.new }
    ensures count { D.faults disk.old ≤ D.faults disk.new }
    ensures failed { result ≡ next.DiskFault → HasRisen (D.faults disk.old) (D.faults disk.new) }
{
    let rest = size - place;
    if rest < 6 {
        return Next::Bad;
    }
    match read_number(disk, place + 1) {
        Number::Is(len) => {
            if len > MOST_PAYLOAD_BYTES {
                Next::Bad
            } else if u64::from(len) > rest - 6 {
                Next::Bad
            } else {
                read_bytes(alloc, disk, place + 5, len)
            }
        }
        Number::Failed => Next::DiskFault,
    }
}

// What stands at that gate, as bytes.
fn next_payload<D: Disk>(alloc: Global, disk: &mut D, place: u64) -> Next
    requires attached { D.attached disk.old ≡ true }
    requires gate { WhereTold (D.content disk.old) (λ file. place < length file) }
    ensures attached { D.attached disk.new ≡ true }
    ensures told { WhereTold (D.content disk.old) (λ file. TellsNext (drop place file) result) }
    ensures quiet { IsQuiet D.content D.may_leave D.moment D.left_since disk.old disk.new }
    ensures count { D.faults disk.old ≤ D.faults disk.new }
    ensures failed { result ≡ next.DiskFault → HasRisen (D.faults disk.old) (D.faults disk.new) }
{
    match read_byte(disk, place) {
        Number::Is(1) => open_gate(alloc, disk, place),
        Number::Is(_) => Next::End,
        Number::Failed => Next::DiskFault,
    }
}

// The record behind an open gate.
fn open_gate<D: Disk>(alloc: Global, disk: &mut D, place: u64) -> Next
    requires attached { D.attached disk.old ≡ true }
    requires gate { WhereTold (D.content disk.old) (λ file. get_or (drop place file) 0 0 ≡ 1) }
    ensures attached { D.attached disk.new ≡ true }
    ensures told { WhereTold (D.content disk.old) (λ file. TellsNext (drop place file) result) }
    ensures quiet { IsQuiet D.content D.may_leave D.moment D.left_since disk.old disk.new }
    ensures count { D.faults disk.old ≤ D.faults disk.new }
    ensures failed { result ≡ next.DiskFault → HasRisen (D.faults disk.old) (D.faults disk.new) }
{
    match disk.size() {
        Size::Is(size) => {
            if place < size {
                read_record(alloc, disk, place, size)
            } else {
                Next::Bad
            }
        }
        Size::Failed => Next::DiskFault,
    }
}

// The edits of what stands at a gate.
fn edits_of(alloc: Global, payload: Next) -> Found
    ensures told { (bytes : List ℕ) → TellsNext bytes payload → TellsFound bytes result }
    ensures size { IsSizeFound result }
    ensures fault { result ≡ found.DiskFault → payload ≡ next.DiskFault }
{
    match payload {
        Next::Payload(bytes) => match read_payload(alloc, bytes.as_slice()) {
            Ok(edits) => Found::Batch(edits, bytes.len()),
            Err(PayloadFault::Bad) => Found::Bad,
            Err(PayloadFault::Memory) => Found::Memory,
        },
        Next::End => Found::End,
        Next::Bad => Found::Bad,
        Next::DiskFault => Found::DiskFault,
        Next::Memory => Found::Memory,
    }
}

/// What stands at that gate. It takes memory for the payload's bytes and for its edits.
pub(crate) fn find<D: Disk>(alloc: Global, disk: &mut D, place: u64) -> Found
    requires attached { D.attached disk.old ≡ true }
    requires gate { WhereTold (D.content disk.old) (λ file. place < length file) }
    ensures attached { D.attached disk.new ≡ true }
    ensures told { WhereTold (D.content disk.old) (λ file. TellsFound (drop place file) result) }
    ensures size { IsSizeFound result }
    ensures quiet { IsQuiet D.content D.may_leave D.moment D.left_since disk.old disk.new }
    ensures count { D.faults disk.old ≤ D.faults disk.new }
    ensures failed { result ≡ found.DiskFault → HasRisen (D.faults disk.old) (D.faults disk.new) }
{
    edits_of(alloc, next_payload(alloc, disk, place))
}
