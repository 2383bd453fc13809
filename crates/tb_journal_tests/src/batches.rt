// Batches that are put, and the calls of the disk that it takes.

use super::running::{Ended, left_by, put_adds, read_file};
use std::alloc::Global;
use std::test::Fail;
use tb_base::Memory;
use tb_journal::Put;

// How the reading of a file ends that is made by two runs, one of two batches and one of a third.
fn read_two_runs(alloc: Global) -> Result<(Ended, Vec<u32>), Memory> {
    let first = left_by(alloc, &[], &[], 101, 2)?;
    read_file(
        alloc,
        left_by(alloc, first.file.as_slice(), &[], 103, 1)?
            .file
            .as_slice(),
    )
}

// How many batches come of a file of so many.
fn count_read(alloc: Global, count: u32) -> Result<usize, Memory> {
    let left = left_by(alloc, &[], &[], 1, count)?;
    let (_, persons) = read_file(alloc, left.file.as_slice())?;
    Ok(persons.len())
}

// Whether one batch takes four calls more than none, of which the second and the last are syncs.
fn takes_four_calls(alloc: Global) -> Result<bool, Memory> {
    let none = left_by(alloc, &[], &[], 104, 0)?;
    let one = left_by(alloc, &[], &[], 104, 1)?;
    let mut wanted = none.syncs;
    wanted.extend_from_slice(&[false, true, false, true])?;
    Ok(one.syncs.as_slice() == wanted.as_slice())
}

#[test]
fn journal_of_one_batch(rt: HostRuntime) -> Result<(), Fail> {
    let left = left_by(rt.alloc(), &[], &[], 104, 1)?;
    let wanted = b"TBJOURN1\x01\x00\x00\x00\x09\x00\x00\x00\x01\x02\x00\x00\x00\x68\x00";
    assert_eq!(rt; left.file.as_slice(), wanted.as_slice());
    Ok(())
}

#[test]
fn batches_are_read_again(rt: HostRuntime) -> Result<(), Fail> {
    let (ended, persons) = read_two_runs(rt.alloc())?;
    assert_eq!(rt; ended, Ended::End);
    assert_eq!(rt; persons.as_slice(), [101, 102, 103].as_slice());
    Ok(())
}

#[test]
fn a_batch_takes_two_writes_and_two_syncs(rt: HostRuntime) -> Result<(), Fail> {
    assert!(rt; takes_four_calls(rt.alloc())?);
    Ok(())
}

// An add takes 15 bytes, beside 8 of the journal, 9 for the record's head and 1 behind it.
#[test]
fn a_batch_of_ten_thousand_adds(rt: HostRuntime) -> Result<(), Fail> {
    assert_eq!(rt; put_adds(rt.alloc(), 10_000)?, (Put::Kept, 150_018));
    Ok(())
}

// How many of so many batches are kept.
fn count_kept(alloc: Global, count: u32) -> Result<u32, Memory> {
    let left = left_by(alloc, &[], &[], 1, count)?;
    Ok(left.kept)
}

#[test]
fn ten_thousand_puts(rt: HostRuntime) -> Result<(), Fail> {
    assert_eq!(rt; count_kept(rt.alloc(), 10_000)?, 10_000);
    Ok(())
}

#[test]
fn ten_thousand_batches(rt: HostRuntime) -> Result<(), Fail> {
    assert_eq!(rt; count_read(rt.alloc(), 10_000)?, 10_000);
    Ok(())
}
