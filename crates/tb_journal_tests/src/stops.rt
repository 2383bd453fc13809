// Stops after each call of the disk and in each write, and each call failing in turn.

ghost use Rattle.std.specs.Prelude.{◌≤◌, length};

use super::running::{Ended, Left, left_by, read_file};
use std::alloc::Global;
use std::test::Fail;
use tb_base::Memory;

// More calls than three batches take.
const MOST_CALLS: u32 = 60;

// How many batches are put, which drop the persons from 1 on.
const BATCHES: u32 = 3;

// The numbers of all calls after that one.
fn calls_after(alloc: Global, last: u32) -> Result<Vec<u32>, Memory> {
    let mut fails = Vec::new(alloc);
    for n in last..MOST_CALLS {
        fails.push(n + 1)?;
    }
    Ok(fails)
}

// What is left where every call after that one fails, as if the program stopped there.
fn stopped_after(alloc: Global, last: u32) -> Result<Left, Memory> {
    left_by(alloc, &[], calls_after(alloc, last)?.as_slice(), 1, BATCHES)
}

// Whether these are the first of the persons.
fn are_first(persons: &[u32]) -> bool {
    for (i, person) in persons.iter().enumerate() {
        if (*person as usize) != i.saturating_add(1) {
            return false;
        }
    }
    true
}

// Whether a file stands for the batches that were kept, or for one more.
fn has_kept(alloc: Global, file: &[u8], kept: u32) -> Result<bool, Memory> {
    let (ended, persons) = read_file(alloc, file)?;
    Ok(
        ended == Ended::End
            && are_first(persons.as_slice())
            && kept as usize <= persons.len()
            && persons.len() <= (kept as usize).saturating_add(1),
    )
}

// The first place where two files differ.
fn first_change(old: &[u8], new: &[u8]) -> usize
    ensures { result ≤ length new.now }
{
    for i in 0..new.len() {
        if old.get(i).copied() != Some(new[i]) {
            return i;
        }
    }
    new.len()
}

// The new file, but that some bytes are the old ones: those where the mask has no bit. Past the old
// end an old byte is that of an open gate.
fn torn(alloc: Global, old: &[u8], new: &[u8], mask: u32) -> Result<Vec<u8>, Memory> {
    let first = first_change(old, new);
    let mut image = new[..first].to_vec(alloc)?;
    let mut bits = mask;
    for (i, byte) in new.iter().enumerate() {
        if i >= first {
            let was = old.get(i).copied().unwrap_or(1);
            image.push(if bits % 2 == 1 { *byte } else { was })?;
            bits /= 2;
        }
    }
    Ok(image)
}

// Whether whatever is torn of a write leaves the batches that were kept, or one more.
fn torn_has_kept(alloc: Global, old: &[u8], new: &[u8], kept: u32) -> Result<bool, Memory> {
    for mask in 0..16_384 {
        let image = torn(alloc, old, new, mask)?;
        if !has_kept(alloc, image.as_slice(), kept)? {
            return Ok(false);
        }
    }
    Ok(true)
}

// The first call after which a stop, or a stop in the next write, leaves other batches. 0 if none.
fn bad_stop(alloc: Global, calls: u32) -> Result<u32, Memory> {
    let mut before = stopped_after(alloc, 1)?;
    for last in 1..calls {
        let after = stopped_after(alloc, last.saturating_add(1))?;
        if !has_kept(alloc, after.file.as_slice(), after.kept)? {
            return Ok(last);
        }
        if before.file.as_slice() != after.file.as_slice()
            && !torn_has_kept(
                alloc,
                before.file.as_slice(),
                after.file.as_slice(),
                before.kept,
            )?
        {
            return Ok(last);
        }
        before = after;
    }
    Ok(0)
}

// The first call whose failing leaves other batches, or isn't told. 0 if none.
fn bad_failure(alloc: Global, calls: u32) -> Result<u32, Memory> {
    for call in 1..calls {
        let left = left_by(alloc, &[], &[call.saturating_add(1)], 1, BATCHES)?;
        if left.kept == BATCHES || !has_kept(alloc, left.file.as_slice(), left.kept)? {
            return Ok(call);
        }
    }
    Ok(0)
}

// The number of the fourth sync, from 1, or 0.
fn fourth_sync(syncs: &[bool]) -> u32 {
    let mut count = 0u32;
    for (i, is_sync) in syncs.iter().enumerate() {
        if *is_sync {
            count = count.saturating_add(1);
            if count == 4 {
                return u32::try_from(i).unwrap_or(0).saturating_add(1);
            }
        }
    }
    0
}

// Whether the batch whose second sync fails isn't kept, and its file stands for none or for it.
fn is_unkept(alloc: Global) -> Result<bool, Memory> {
    let whole = left_by(alloc, &[], &[], 1, 1)?;
    let left = left_by(alloc, &[], &[fourth_sync(whole.syncs.as_slice())], 1, 1)?;
    Ok(whole.kept == 1 && left.kept == 0 && has_kept(alloc, left.file.as_slice(), 0)?)
}

// How many calls the batches take.
fn calls_taken(alloc: Global) -> Result<u32, Memory> {
    let left = left_by(alloc, &[], &[], 1, BATCHES)?;
    Ok(u32::try_from(left.syncs.len()).unwrap_or(0))
}

#[test]
fn failing_sync(rt: HostRuntime) -> Result<(), Fail> {
    assert!(rt; is_unkept(rt.alloc())?);
    Ok(())
}

#[test]
fn each_stop_leaves_whole_batches(rt: HostRuntime) -> Result<(), Fail> {
    let alloc = rt.alloc();
    assert_eq!(rt; calls_taken(alloc)?, 18);
    assert_eq!(rt; bad_stop(alloc, 18)?, 0);
    Ok(())
}

#[test]
fn each_call_fails_in_turn(rt: HostRuntime) -> Result<(), Fail> {
    assert_eq!(rt; bad_failure(rt.alloc(), 18)?, 0);
    Ok(())
}
