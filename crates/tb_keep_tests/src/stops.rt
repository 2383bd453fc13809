// A stop after each call of the disk in a run with one publication, and in each of its writes.

use super::failures::stands;
use super::running::{Left, keep};
use super::worked::{AFTER, DROP_104, ONE_BATCH};
use std::alloc::Global;
use std::sync::Wait;
use std::test::Fail;
use std::thread::Threads;
use tb_base::Memory;

// How many calls the run makes.
const CALLS: u32 = 10;

// A run in which every call after that one fails, as if the program stopped there.
fn stopped_after<R: Threads + Wait + Sync>(
    rt: &R,
    alloc: Global,
    last: u32,
) -> Result<Left, Memory> {
    let mut fails = Vec::new(alloc);
    for call in last..CALLS {
        fails.push(call.saturating_add(1))?;
    }
    keep(rt, alloc, b"", &fails, DROP_104)
}

// Whether a run told that the batch is published.
fn acknowledges(left: &Left) -> bool {
    left.text.as_slice().starts_with(b"held 1\npublished 1\n")
}

// Whether the same script, run again over a file, publishes the batch, or finds it there, and
// leaves the journal of that batch.
fn goes_on<R: Threads + Wait + Sync>(rt: &R, alloc: Global, file: &[u8]) -> Result<bool, Memory> {
    let left = keep(rt, alloc, file, &[], DROP_104)?;
    let text = left.text.as_slice();
    let told = text.starts_with(b"held 1\npublished 1\n")
        || text.starts_with(b"held 1\nrefused batch 1 2 NoSuchPerson\n");
    Ok(left.status == 0 && told && text.ends_with(AFTER) && left.file.as_slice() == ONE_BATCH)
}

// Whether a stop after that call leaves no batch, or the one that is asked for.
fn stop_stands<R: Threads + Wait + Sync + Eprint>(
    rt: &R,
    alloc: Global,
    last: u32,
) -> Result<bool, Memory> {
    let left = stopped_after(rt, alloc, last)?;
    let file = left.file.as_slice();
    Ok(stands(rt, alloc, file, acknowledges(&left))? && goes_on(rt, alloc, file)?)
}

// A byte of the file before a write. Past its end it is that of an open gate.
fn byte_before(old: &[u8], i: usize) -> u8 {
    old.get(i).copied().unwrap_or(1)
}

// So many bytes of the new file, but that some are the old ones: of those that differ, those where
// the mask has no bit.
fn torn(alloc: Global, old: &[u8], new: &[u8], mask: u32) -> Result<Vec<u8>, Memory> {
    let mut image = Vec::new(alloc);
    let mut bits = mask;
    for (i, byte) in new.iter().enumerate() {
        let was = byte_before(old, i);
        if was == *byte || bits % 2 == 1 {
            image.push(*byte)?;
        } else {
            image.push(was)?;
        }
        if was != *byte {
            bits /= 2;
        }
    }
    Ok(image)
}

// How many masks there are for the bytes that differ.
fn masks(old: &[u8], new: &[u8]) -> u32 {
    let mut masks = 1_u32;
    for (i, byte) in new.iter().enumerate() {
        if byte_before(old, i) != *byte {
            masks = masks.saturating_mul(2);
        }
    }
    masks
}

// Whether what is torn so leaves no batch, or the one that is asked for.
fn image_stands<R: Threads + Wait + Sync + Eprint>(
    rt: &R,
    alloc: Global,
    old: &[u8],
    new: &[u8],
    mask: u32,
    acknowledged: bool,
) -> Result<bool, Memory> {
    let image = torn(alloc, old, new, mask)?;
    stands(rt, alloc, image.as_slice(), acknowledged)
}

// The same of all that may be torn of a write that led from the old file to the new one: each of
// its bytes is the old one or the new one, and of those past the old end there are any number.
fn torn_stands<R: Threads + Wait + Sync + Eprint>(
    rt: &R,
    alloc: Global,
    old: &[u8],
    new: &[u8],
    acknowledged: bool,
) -> Result<bool, Memory> {
    for len in old.len()..=new.len() {
        let part = &new[..len];
        for mask in 0..masks(old, part) {
            if !image_stands(rt, alloc, old, part, mask, acknowledged)? {
                return Ok(false);
            }
        }
    }
    Ok(true)
}

// The same of a stop in that call, after a run that stopped before it.
fn next_stands<R: Threads + Wait + Sync + Eprint>(
    rt: &R,
    alloc: Global,
    before: &Left,
    next: u32,
) -> Result<bool, Memory> {
    let after = stopped_after(rt, alloc, next)?;
    let (old, new) = (before.file.as_slice(), after.file.as_slice());
    torn_stands(rt, alloc, old, new, acknowledges(before))
}

// The same of a stop in the call after that one.
fn stop_within_stands<R: Threads + Wait + Sync + Eprint>(
    rt: &R,
    alloc: Global,
    last: u32,
) -> Result<bool, Memory> {
    let before = stopped_after(rt, alloc, last)?;
    next_stands(rt, alloc, &before, last.saturating_add(1))
}

fn count_calls<R: Threads + Wait + Sync>(rt: &R, alloc: Global) -> Result<usize, Memory> {
    let left = keep(rt, alloc, b"", &[], DROP_104)?;
    Ok(left.calls)
}

#[test]
fn stops_after_each_call(rt: HostRuntime) -> Result<(), Fail> {
    let alloc = rt.alloc();
    assert_eq!(&rt; count_calls(&rt, alloc)?, CALLS as usize);
    for last in 0..=CALLS {
        assert!(&rt; stop_stands(&rt, alloc, last)?, "after call {last}");
    }
    Ok(())
}

#[test]
fn stops_within_each_call(rt: HostRuntime) -> Result<(), Fail> {
    for last in 0..CALLS {
        assert!(&rt;
            stop_within_stands(&rt, rt.alloc(), last)?,
            "after call {last}"
        );
    }
    Ok(())
}
