// Payloads that are those of edits, and payloads that aren't.

use super::running::{Ended, read_file};
use std::alloc::Global;
use std::test::Fail;
use tb_base::Memory;

// How the reading of one record with this payload ends, and how many batches came.
fn read_payload(alloc: Global, payload: &[u8]) -> Result<(Ended, usize), Memory> {
    let mut file = b"TBJOURN1\x01".to_vec(alloc)?;
    let size = u32::try_from(payload.len()).unwrap_or(0);
    file.extend_from_slice(&size.to_be_bytes())?;
    file.extend_from_slice(payload)?;
    file.push(0)?;
    let (ended, persons) = read_file(alloc, file.as_slice())?;
    Ok((ended, persons.len()))
}

// The payload without its last byte.
fn is_cut_refused(alloc: Global, payload: &[u8]) -> Result<bool, Memory> {
    let [cut @ .., _] = payload else {
        return Ok(false);
    };
    Ok(read_payload(alloc, cut)? == (Ended::Bad(1), 0))
}

// The payload with a byte behind it.
fn is_more_refused(alloc: Global, payload: &[u8]) -> Result<bool, Memory> {
    let mut more = payload.to_vec(alloc)?;
    more.push(0)?;
    Ok(read_payload(alloc, more.as_slice())? == (Ended::Bad(1), 0))
}

// A payload of so many drops.
fn drops(alloc: Global, count: u32) -> Result<Vec<u8>, Memory> {
    let mut payload = count.to_be_bytes().to_vec(alloc)?;
    for person in 0..count {
        payload.push(2)?;
        payload.extend_from_slice(&person.to_be_bytes())?;
    }
    Ok(payload)
}

// Puts an add with so many codes behind a payload.
fn put_add(payload: &mut Vec<u8>, codes: u16) -> Result<(), Memory> {
    payload.extend_from_slice(&[1, 0, 0, 0, 7, 0, 9])?;
    payload.extend_from_slice(&codes.to_be_bytes())?;
    for code in 0..codes {
        payload.extend_from_slice(&code.to_be_bytes())?;
    }
    Ok(())
}

// A payload of 4,000,000 bytes: 4, and 30 adds of 131,079, one of 67,621 and a drop of 5.
fn longest(alloc: Global) -> Result<Vec<u8>, Memory> {
    let mut payload = 32u32.to_be_bytes().to_vec(alloc)?;
    for _i in 0..30 {
        put_add(&mut payload, 65_535)?;
    }
    put_add(&mut payload, 33_806)?;
    payload.extend_from_slice(&[2, 0, 0, 0, 1])?;
    Ok(payload)
}

// A payload of each kind of edit.
static KINDS: [&[u8]; 6] = [
    b"\x00\x00\x00\x01\x01\x00\x00\x00\xc8\x00\x09\x00\x03\x00\x00\x00\x01\x00\x02",
    b"\x00\x00\x00\x01\x02\x00\x00\x00\x68",
    b"\x00\x00\x00\x01\x03\x00\x00\x00\x68\x00\x02\x00\x00\x00\x01\x00\x02\x00\x01",
    b"\x00\x00\x00\x01\x04\x00\x03\x00\x40\xff\xfe",
    b"\x00\x00\x00\x01\x05\x00\x00\x00\x03",
    b"\x00\x00\x00\x01\x06\xff\xff\xff\xff",
];

// A code too many, an amend with no setting and one with a variable twice, a kind that is none, no
// edit, and one edit more than is told.
static NONE: [&[u8]; 6] = [
    b"\x00\x00\x00\x01\x01\x00\x00\x00\xc8\x00\x09\x00\x02\x00\x00\x00\x01\x00\x02",
    b"\x00\x00\x00\x01\x03\x00\x00\x00\x68\x00\x00",
    b"\x00\x00\x00\x01\x03\x00\x00\x00\x68\x00\x02\x00\x01\x00\x01\x00\x01\x00\x00",
    b"\x00\x00\x00\x01\x07\x00\x00\x00\x68",
    b"\x00\x00\x00\x00",
    b"\x00\x00\x00\x01\x02\x00\x00\x00\x68\x02\x00\x00\x00\x67",
];

fn kinds() -> &'static [&'static [u8]] {
    &KINDS
}

fn none() -> &'static [&'static [u8]] {
    &NONE
}

// Whether a payload is that of one batch, and cut or with a byte more that of none.
fn is_exact(alloc: Global, payload: &[u8]) -> Result<bool, Memory> {
    Ok(
        read_payload(alloc, payload)? == (Ended::End, 1)
            && is_cut_refused(alloc, payload)?
            && is_more_refused(alloc, payload)?,
    )
}

// Whether the longest payload is that of one batch, and a longer one of none.
fn is_longest(alloc: Global) -> Result<bool, Memory> {
    let payload = longest(alloc)?;
    Ok(
        payload.len() == 4_000_000
            && read_payload(alloc, payload.as_slice())? == (Ended::End, 1)
            && is_more_refused(alloc, payload.as_slice())?,
    )
}

// Whether so many drops are a payload.
fn are_payload(alloc: Global, count: u32) -> Result<bool, Memory> {
    Ok(read_payload(alloc, drops(alloc, count)?.as_slice())? == (Ended::End, 1))
}

#[test]
fn each_kind_of_edit(rt: HostRuntime) -> Result<(), Fail> {
    for (i, payload) in kinds().iter().enumerate() {
        assert!(rt; is_exact(rt.alloc(), payload)?, "at {i}");
    }
    Ok(())
}

#[test]
fn payloads_of_no_edits(rt: HostRuntime) -> Result<(), Fail> {
    for (i, payload) in none().iter().enumerate() {
        assert_eq!(rt;
            read_payload(rt.alloc(), payload)?,
            (Ended::Bad(1), 0),
            "at {i}"
        );
    }
    Ok(())
}

#[test]
fn most_edits(rt: HostRuntime) -> Result<(), Fail> {
    assert!(rt; are_payload(rt.alloc(), 10_000)?);
    assert!(rt; !are_payload(rt.alloc(), 10_001)?);
    Ok(())
}

#[test]
fn longest_payload(rt: HostRuntime) -> Result<(), Fail> {
    assert!(rt; is_longest(rt.alloc())?);
    Ok(())
}
