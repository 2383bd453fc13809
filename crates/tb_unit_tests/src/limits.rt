// Files at the limit of how many records there may be.

use crate::faults::{ACCEPTED, Told, told};
use crate::making::{DWELLINGS, LINKS, add_pair};
use std::alloc::Global;
use std::test::Fail;
use tb_base::{Keys, Memory};

// How many records with the numbers from 1 on there are, the number of one more, and what is told.
type Many = (u32, u32, Told);

static DWELLING_LIMITS: [Many; 3] = [
    (999_999, 1_000_000, ACCEPTED),
    (1_000_000, 1_000_001, ("dwellings", 9, "TooMany", 1_000_001)),
    (1_000_000, 1, ("dwellings", 4, "DwellingTwice", 1_000_001)),
];

static LINK_LIMITS: [Many; 3] = [
    (999_999, 1_000_000, ACCEPTED),
    (1_000_000, 1_000_001, ("links", 9, "TooMany", 1_000_001)),
    (1_000_000, 1, ("links", 6, "PersonTwice", 1_000_001)),
];

fn dwelling_limits() -> &'static [Many] {
    &DWELLING_LIMITS
}

fn link_limits() -> &'static [Many] {
    &LINK_LIMITS
}

// A file of so many records, each with 1 as its second number.
fn many(alloc: Global, header: &[u8], row: &Many) -> Result<Vec<u8>, Memory> {
    let mut text = Vec::from_slice(alloc, header)?;
    for number in 1..=row.0 {
        add_pair(&mut text, number, 1)?;
    }
    add_pair(&mut text, row.1, 1)?;
    Ok(text)
}

fn dwellings_told(alloc: Global, row: &Many) -> Result<Told, Memory> {
    let text = many(alloc, DWELLINGS, row)?;
    Ok(told(alloc, Keys::K256, text.as_slice(), LINKS))
}

fn links_told(alloc: Global, row: &Many) -> Result<Told, Memory> {
    let text = many(alloc, LINKS, row)?;
    let dwellings = b"dwelling,dwelling_key\n1,1\n";
    Ok(told(alloc, Keys::K256, dwellings, text.as_slice()))
}

// The place of the first row whose dwellings are told otherwise.
fn wrong_dwellings(alloc: Global) -> Result<Option<usize>, Memory> {
    for (i, row) in dwelling_limits().iter().enumerate() {
        if dwellings_told(alloc, row)? != row.2 {
            return Ok(Some(i));
        }
    }
    Ok(None)
}

// The same of links.
fn wrong_links(alloc: Global) -> Result<Option<usize>, Memory> {
    for (i, row) in link_limits().iter().enumerate() {
        if links_told(alloc, row)? != row.2 {
            return Ok(Some(i));
        }
    }
    Ok(None)
}

#[test]
fn most_dwellings(rt: HostRuntime) -> Result<(), Fail> {
    assert_eq!(rt; wrong_dwellings(rt.alloc())?, None);
    Ok(())
}

#[test]
fn most_links(rt: HostRuntime) -> Result<(), Fail> {
    assert_eq!(rt; wrong_links(rt.alloc())?, None);
    Ok(())
}
