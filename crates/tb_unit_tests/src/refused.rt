// Files of dwellings and of links that are refused, each with its first fault.

use crate::faults::told;
use crate::making::{DWELLINGS, LINKS, file_of};
use std::alloc::Global;
use std::test::Fail;
use tb_base::{Keys, Memory};

// Whole files of dwellings and of links, and of their first fault the file, the number, the word
// and the record.
type Whole = (
    &'static [u8],
    &'static [u8],
    &'static str,
    u8,
    &'static str,
    u32,
);

// A header: none, a column that is missing or there twice, another spelling, that of the other
// file. That of the links is tested after the last record of the dwellings.
static HEADERS: [Whole; 9] = [
    (b"", b"person,dwelling\n", "dwellings", 1, "BadHeader", 0),
    (b"", b"", "dwellings", 1, "BadHeader", 0),
    (b"dwelling\n1\n", b"", "dwellings", 1, "BadHeader", 0),
    (
        b"dwelling,dwelling_key,dwelling\n",
        b"",
        "dwellings",
        1,
        "BadHeader",
        0,
    ),
    (
        b"Dwelling,dwelling_key\n",
        b"",
        "dwellings",
        1,
        "BadHeader",
        0,
    ),
    (b"dwelling,dwelling_key\n", b"", "links", 1, "BadHeader", 0),
    (
        b"dwelling,dwelling_key\n",
        b"dwelling,dwelling_key\n",
        "links",
        1,
        "BadHeader",
        0,
    ),
    (
        b"dwelling,dwelling_key\n",
        b"person,dwelling,person\n",
        "links",
        1,
        "BadHeader",
        0,
    ),
    (
        b"dwelling,dwelling_key\n1,50\n2\n",
        b"",
        "dwellings",
        8,
        "BadCsv",
        2,
    ),
];

fn headers() -> &'static [Whole] {
    &HEADERS
}

fn header_is_refused(alloc: Global, row: &Whole) -> bool {
    let (dwellings, links, file, number, word, at) = row;
    told(alloc, Keys::K256, dwellings, links) == (*file, *number, *word, *at)
}

// The place of the first row that isn't refused so.
fn wrong_header(alloc: Global) -> Option<usize> {
    for (i, row) in headers().iter().enumerate() {
        if !header_is_refused(alloc, row) {
            return Some(i);
        }
    }
    None
}

#[test]
fn bad_headers(rt: HostRuntime) {
    assert_eq!(rt; wrong_header(rt.alloc()), None);
}

// The records under the header of a file, and the number, the word and the record of the first
// fault.
type Row = (&'static [u8], u8, &'static str, u32);

static DWELLING_ROWS: [Row; 20] = [
    (b"1,50\n2\n", 8, "BadCsv", 2),
    (b"0,50\n", 2, "BadDwelling", 1),
    (b"1,50\n4294967295,50\n4294967296,50\n", 2, "BadDwelling", 3),
    (b",50\n", 2, "BadDwelling", 1),
    (b" 1,50\n", 2, "BadDwelling", 1),
    (b"00000000001,50\n", 2, "BadDwelling", 1),
    (b"1,0\n2,255\n3,256\n", 3, "BadKey", 3),
    (b"1,\n", 3, "BadKey", 1),
    (b"1,-1\n", 3, "BadKey", 1),
    (b"1,50\n2,60\n01,70\n", 4, "DwellingTwice", 3),
    // Two faults in a record: the first in the order of the table.
    (b"0,50,\n", 8, "BadCsv", 1),
    (b"1,256,\n", 8, "BadCsv", 1),
    (b"1,50\n1\n", 8, "BadCsv", 2),
    (b"0,256\n", 2, "BadDwelling", 1),
    (b"1,50\n1,256\n", 3, "BadKey", 2),
    // Two in a file: that of the first record.
    (b"1,50\n1,50\n0,50\n", 4, "DwellingTwice", 2),
    (b"1,256\n0,50\n2\n", 3, "BadKey", 1),
    (b"0,50\n1,256\n", 2, "BadDwelling", 1),
    (b"1\n0,50\n", 8, "BadCsv", 1),
    // Empty lines have no number.
    (b"1,50\n\n\n2,256\n", 3, "BadKey", 2),
];

// Over the dwellings 1 and 2.
static LINK_ROWS: [Row; 19] = [
    (b"101,1\n102\n", 8, "BadCsv", 2),
    (b"0,1\n", 7, "BadPerson", 1),
    (b"4294967295,1\n4294967296,1\n", 7, "BadPerson", 2),
    (b"x,1\n", 7, "BadPerson", 1),
    (b"101,0\n", 2, "BadDwelling", 1),
    (b"101,1\n102,\n", 2, "BadDwelling", 2),
    (b"101,4294967296\n", 2, "BadDwelling", 1),
    (b"101,1\n102,1\n103,2\n104,3\n", 5, "UnknownDwelling", 4),
    (b"101,50\n", 5, "UnknownDwelling", 1),
    (b"101,1\n102,2\n0101,2\n", 6, "PersonTwice", 3),
    (b"101,1\n101,1\n", 6, "PersonTwice", 2),
    // Two faults in a record: the first in the order of the table.
    (b"0,1,\n", 8, "BadCsv", 1),
    (b"0,0\n", 7, "BadPerson", 1),
    (b"0,3\n", 7, "BadPerson", 1),
    (b"101,1\n101,0\n", 2, "BadDwelling", 2),
    (b"101,1\n101,3\n", 5, "UnknownDwelling", 2),
    // Two in a file: that of the first record.
    (b"101,1\n101,2\n102,3\n", 6, "PersonTwice", 2),
    (b"101,3\n0,1\n102\n", 5, "UnknownDwelling", 1),
    (b"101,0\n0,1\n", 2, "BadDwelling", 1),
];

// With the key range 4096.
static WIDE_ROWS: [Row; 2] = [
    (b"1,256\n2,4095\n3,4096\n", 3, "BadKey", 3),
    (b"1,04095\n2,0000004096\n", 3, "BadKey", 2),
];

fn dwelling_rows() -> &'static [Row] {
    &DWELLING_ROWS
}

fn link_rows() -> &'static [Row] {
    &LINK_ROWS
}

fn wide_rows() -> &'static [Row] {
    &WIDE_ROWS
}

// Whether dwellings are refused so, also beside links with a fault.
fn are_refused_dwellings(alloc: Global, keys: Keys, row: &Row) -> Result<bool, Memory> {
    let (records, number, word, at) = row;
    let bytes = file_of(alloc, DWELLINGS, records)?;
    let want = ("dwellings", *number, *word, *at);
    Ok(
        told(alloc, keys, bytes.as_slice(), LINKS) == want
            && told(alloc, keys, bytes.as_slice(), b"person,dwelling\n0,1\n") == want,
    )
}

// Whether links over the dwellings 1 and 2 are refused so.
fn are_refused_links(alloc: Global, row: &Row) -> Result<bool, Memory> {
    let (records, number, word, at) = row;
    let bytes = file_of(alloc, LINKS, records)?;
    let dwellings = b"dwelling,dwelling_key\n1,50\n2,60\n";
    Ok(told(alloc, Keys::K256, dwellings, bytes.as_slice()) == ("links", *number, *word, *at))
}

// The place of the first row whose dwellings aren't.
fn wrong_dwellings(alloc: Global, keys: Keys, rows: &[Row]) -> Result<Option<usize>, Memory> {
    for (i, row) in rows.iter().enumerate() {
        if !are_refused_dwellings(alloc, keys, row)? {
            return Ok(Some(i));
        }
    }
    Ok(None)
}

// The same of links.
fn wrong_links(alloc: Global, rows: &[Row]) -> Result<Option<usize>, Memory> {
    for (i, row) in rows.iter().enumerate() {
        if !are_refused_links(alloc, row)? {
            return Ok(Some(i));
        }
    }
    Ok(None)
}

#[test]
fn first_faults(rt: HostRuntime) -> Result<(), Fail> {
    assert_eq!(rt;
        wrong_dwellings(rt.alloc(), Keys::K256, dwelling_rows())?,
        None
    );
    assert_eq!(rt;
        wrong_dwellings(rt.alloc(), Keys::K4096, wide_rows())?,
        None
    );
    assert_eq!(rt; wrong_links(rt.alloc(), link_rows())?, None);
    Ok(())
}
