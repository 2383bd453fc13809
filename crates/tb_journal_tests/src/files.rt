// Short files, and files that aren't journals.

use super::running::{Ended, read_file};
use std::alloc::Global;
use std::test::Fail;
use tb_base::Memory;

// A journal's first bytes, and others behind them.
fn journal_of(alloc: Global, behind: &[u8]) -> Result<Vec<u8>, Memory> {
    let mut file = b"TBJOURN1".to_vec(alloc)?;
    file.extend_from_slice(behind)?;
    Ok(file)
}

// How a journal ends, as a number, whose bytes behind the first are these, each 0, 1 or 2, at most
// four: it is written anew where there is at most a gate, and a record that is open isn't whole.
fn wanted(behind: &[u8]) -> u8 {
    match behind {
        [1, _, ..] => 1,
        _ => 0,
    }
}

// The digits of a number to the base 3, so many of them.
fn digits(alloc: Global, count: usize, number: u32) -> Result<Vec<u8>, Memory> {
    let mut digits = Vec::new(alloc);
    let mut rest = number;
    for _i in 0..count {
        digits.push((rest % 3) as u8)?;
        rest /= 3;
    }
    Ok(digits)
}

// The first number of which a file with its digits ends otherwise, or 81.
fn first_wrong(alloc: Global, count: usize) -> Result<u32, Memory> {
    for number in 0..81 {
        let behind = digits(alloc, count, number)?;
        if end_behind(alloc, behind.as_slice())? != wanted(behind.as_slice()) {
            return Ok(number);
        }
    }
    Ok(81)
}

#[test]
fn short_files(rt: HostRuntime) -> Result<(), Fail> {
    for count in 0..5 {
        assert_eq!(rt; first_wrong(rt.alloc(), count)?, 81, "with {count} bytes");
    }
    Ok(())
}

// Files and how they end, as numbers: 0 at their end, 1 at record 1, 2 if they are no journals.
static FILES: [(&[u8], u8); 6] = [
    (b"", 0),
    (b"TBJOU", 0),
    (b"012345678", 0),
    (b"0123456789", 2),
    (b"TBJOURN2\x00\x00", 2),
    (b"TBJOURN1\x00\x00", 0),
];

// What stands behind the first bytes of journals, and how they end: 3 after one batch.
static RECORDS: [(&[u8], u8); 6] = [
    (
        b"\x01\x00\x00\x00\x09\x00\x00\x00\x01\x02\x00\x00\x00\x68\x00",
        3,
    ),
    (
        b"\x01\x00\x00\x00\x09\x00\x00\x00\x01\x02\x00\x00\x00\x68",
        1,
    ),
    (
        b"\x01\x00\x00\x00\x0a\x00\x00\x00\x01\x02\x00\x00\x00\x68\x00",
        1,
    ),
    (
        b"\x01\xff\xff\xff\xff\x00\x00\x00\x01\x02\x00\x00\x00\x68\x00",
        1,
    ),
    (b"\x01\x00\x00\x00\x00\x00", 1),
    (
        b"\x02\x00\x00\x00\x09\x00\x00\x00\x01\x02\x00\x00\x00\x68\x00",
        0,
    ),
];

fn files() -> &'static [(&'static [u8], u8)] {
    &FILES
}

fn records() -> &'static [(&'static [u8], u8)] {
    &RECORDS
}

// How a file ends, as a number.
fn end_of(alloc: Global, file: &[u8]) -> Result<u8, Memory> {
    let (ended, persons) = read_file(alloc, file)?;
    Ok(match (ended, persons.len()) {
        (Ended::End, 0) => 0,
        (Ended::Bad(1), 0) => 1,
        (Ended::NotJournal, 0) => 2,
        (Ended::End, 1) => 3,
        _ => 4,
    })
}

// The same of a journal with these bytes behind its first.
fn end_behind(alloc: Global, behind: &[u8]) -> Result<u8, Memory> {
    end_of(alloc, journal_of(alloc, behind)?.as_slice())
}

#[test]
fn foreign_files(rt: HostRuntime) -> Result<(), Fail> {
    for (i, (file, wanted)) in files().iter().enumerate() {
        assert_eq!(rt; end_of(rt.alloc(), file)?, *wanted, "at {i}");
    }
    Ok(())
}

#[test]
fn lengths_past_the_file(rt: HostRuntime) -> Result<(), Fail> {
    for (i, (behind, wanted)) in records().iter().enumerate() {
        assert_eq!(rt; end_behind(rt.alloc(), behind)?, *wanted, "at {i}");
    }
    Ok(())
}
