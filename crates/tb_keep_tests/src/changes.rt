// Journals that are cut, and journals of which a byte is another.

use super::running::{Left, ends_so, keep};
use super::worked::{BEFORE, ONE_BATCH, SEX};
use std::alloc::Global;
use std::sync::Wait;
use std::test::Fail;
use std::thread::Threads;
use tb_base::Memory;
use tb_comparison::is_text;

// The journal of three batches, whose records begin at 8, 22 and 51.
const THREE_BATCHES: &[u8] = b"TBJOURN1\
    \x01\x00\x00\x00\x09\x00\x00\x00\x01\x02\x00\x00\x00\x68\
    \x01\x00\x00\x00\x18\x00\x00\x00\x02\x01\x00\x00\x00\xc8\x00\x09\x00\x03\
    \x00\x00\x00\x02\x00\x00\x05\x00\x00\x00\x01\
    \x01\x00\x00\x00\x0f\x00\x00\x00\x01\x03\x00\x00\x00\xc8\x00\x01\
    \x00\x00\x00\x01\x00";

// The script whose batches these are.
const THREE: &[u8] = b"custodian drop 104\ncustodian publish\n\
    custodian add 200 9 SEX=1 AGE=65+ AREA=E1\ncustodian threshold 1\ncustodian publish\n\
    custodian amend 200 SEX=2\ncustodian publish\n";

// Up to how many bytes of that journal, the number of the status, and what a run writes. A file of
// a header and a gate, or less, is written anew; of a longer one each record whose gate is open
// must be whole, and the gate behind it there.
static CUTS: [(usize, u8, &[u8]); 5] = [
    (9, 0, BEFORE),
    (22, 11, b"fault journal 2 BadRecord 1\n"),
    (51, 11, b"fault journal 2 BadRecord 2\n"),
    (71, 11, b"fault journal 2 BadRecord 3\n"),
    (72, 0, b"release 3\nSEX,count\n1,1\n2,1\n.\n"),
];

fn cuts() -> &'static [(usize, u8, &'static [u8])] {
    &CUTS
}

// What is wanted of a run over so many bytes. No run has the status 1.
fn wanted(len: usize) -> (u8, &'static [u8]) {
    match cuts().iter().find(|cut| len <= cut.0) {
        Some((_, status, text)) => (*status, *text),
        None => (1, b""),
    }
}

// Whether a run with the script leaves the journal.
fn leaves_three<R: Threads + Wait + Sync + Eprint>(rt: &R, alloc: Global) -> Result<bool, Memory> {
    let left = keep(rt, alloc, b"", &[], THREE)?;
    Ok(is_text(rt, left.file.as_slice(), THREE_BATCHES))
}

#[test]
fn journals_cut_after_each_byte(rt: HostRuntime) -> Result<(), Fail> {
    let alloc = rt.alloc();
    assert!(&rt; leaves_three(&rt, alloc)?);
    for len in 0..=THREE_BATCHES.len() {
        let (status, text) = wanted(len);
        let file = &THREE_BATCHES[..len];
        let are = ends_so(&rt, alloc, file, &[], SEX, status, text)?;
        assert!(&rt; are, "{len} bytes");
    }
    Ok(())
}

const NOT_JOURNAL: &[u8] = b"fault journal 1 NotJournal 0\n";

const BAD_RECORD: &[u8] = b"fault journal 2 BadRecord 1\n";

const NOT_FOLLOWING: &[u8] = b"fault journal 3 DoesNotFollow 1\n";

// Up to which place of the journal of one batch, and how the text of a run begins where a byte
// there is another: one of two ways. By another kind of the edit there is a third.
static CHANGES: [(usize, &[u8], &[u8]); 6] = [
    (7, NOT_JOURNAL, NOT_JOURNAL),
    // The gate is closed.
    (8, BEFORE, BEFORE),
    // The length of the payload, and the number of edits.
    (16, BAD_RECORD, BAD_RECORD),
    // The kind of the edit: a threshold is as long as a drop, and so is an oldest release.
    (17, BAD_RECORD, b"release 1\nSEX,count\n1,c\n2,c\n.\n"),
    // The person: another, or none.
    (21, NOT_FOLLOWING, b"release 1\n"),
    // The gate behind the record: closed, or open.
    (
        22,
        b"release 1\nSEX,count\n1,1\n2,0\n.\n",
        b"fault journal 2 BadRecord 2\n",
    ),
];

fn changes() -> &'static [(usize, &'static [u8], &'static [u8])] {
    &CHANGES
}

// How a text may begin where the byte at this place is this one: by the kind of an oldest release
// more releases would be taken back than there are.
fn beginnings(place: usize, byte: u8) -> (&'static [u8], &'static [u8]) {
    if place == 17 && byte == 6 {
        return (NOT_FOLLOWING, NOT_FOLLOWING);
    }
    match changes().iter().find(|change| place <= change.0) {
        Some((_, one, other)) => (*one, *other),
        None => (b"-", b"-"),
    }
}

// Whether a run ended so, with a fault's status exactly where it tells a fault.
fn told_so(left: &Left, one: &[u8], other: &[u8]) -> bool {
    let text = left.text.as_slice();
    let status = if text.starts_with(b"fault journal ") {
        11
    } else {
        0
    };
    left.status == status && (text.starts_with(one) || text.starts_with(other))
}

// The journal of one batch with another byte at this place.
fn changed(alloc: Global, place: usize, byte: u8) -> Result<Vec<u8>, Memory> {
    let mut file = Vec::new(alloc);
    for (i, was) in ONE_BATCH.iter().enumerate() {
        file.push(if i == place { byte } else { *was })?;
    }
    Ok(file)
}

// Whether a run over that journal ends so.
fn ends_by<R: Threads + Wait + Sync>(
    rt: &R,
    alloc: Global,
    place: usize,
    byte: u8,
) -> Result<bool, Memory> {
    let file = changed(alloc, place, byte)?;
    let left = keep(rt, alloc, file.as_slice(), &[], SEX)?;
    let (one, other) = beginnings(place, byte);
    Ok(told_so(&left, one, other))
}

// The first byte for which it doesn't, in place of the one that is there. None if it always does.
fn first_wrong<R: Threads + Wait + Sync>(
    rt: &R,
    alloc: Global,
    place: usize,
    was: u8,
) -> Result<Option<u8>, Memory> {
    for byte in 0..=255 {
        if byte != was && !ends_by(rt, alloc, place, byte)? {
            return Ok(Some(byte));
        }
    }
    Ok(None)
}

#[test]
fn journals_with_another_byte(rt: HostRuntime) -> Result<(), Fail> {
    for (place, was) in ONE_BATCH.iter().enumerate() {
        assert_eq!(&rt;
            first_wrong(&rt, rt.alloc(), place, *was)?,
            None,
            "at {place}"
        );
    }
    Ok(())
}
