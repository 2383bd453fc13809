// Files of dwellings and of links that are accepted, each with what they say.

use std::alloc::Global;
use tb_base::Keys;
use tb_schema::MOST_UNSTATED;
use tb_units::Units;

// Both files; of each dwelling its key, and one more than the place of its last link; of each link
// its person, and one more than the place of the link before it to the same dwelling.
type Row = (
    &'static [u8],
    &'static [u8],
    &'static [u16],
    &'static [u32],
    &'static [u32],
    &'static [u32],
);

// With the key range 256.
static ROWS: [Row; 4] = [
    // No record.
    (
        b"\xEF\xBB\xBFdwelling,dwelling_key",
        b"dwelling,person\r\n",
        &[],
        &[],
        &[],
        &[],
    ),
    (
        b"dwelling,dwelling_key\n1,50\n2,60\n",
        b"person,dwelling\n101,1\n102,1\n103,2\n104,2\n",
        &[50, 60],
        &[2, 4],
        &[101, 102, 103, 104],
        &[0, 1, 0, 3],
    ),
    // Columns in other orders beside others, each line end, quotes, leading zeros.
    (
        b"note,dwelling_key,x,dwelling\r\na,255,,7\r\n\"b, c\",00,\"\",\"0000000003\"",
        b"dwelling,dwelling_key,person\n3,x,101\n\n07,,0000000005\r\n3,,9\n",
        &[255, 0],
        &[2, 3],
        &[101, 5, 9],
        &[0, 0, 1],
    ),
    // A dwelling without links, and the greatest numbers.
    (
        b"dwelling,dwelling_key\n4294967295,1\n8,1\n9,1\n",
        b"person,dwelling\n4294967295,9\n1,4294967295\n",
        &[1, 1, 1],
        &[2, 0, 1],
        &[4294967295, 1],
        &[0, 0],
    ),
];

// With the key range 4096.
static WIDE_ROWS: [Row; 1] = [(
    b"dwelling,dwelling_key\n1,4095\n2,256\n",
    b"person,dwelling\n3,2\n",
    &[4095, 256],
    &[0, 1],
    &[3],
    &[0],
)];

fn rows() -> &'static [Row] {
    &ROWS
}

fn wide_rows() -> &'static [Row] {
    &WIDE_ROWS
}

fn are_dwellings(units: &Units, keys: &[u16], lasts: &[u32]) -> bool {
    if units.dwellings() != keys.len() || units.dwellings() != lasts.len() {
        return false;
    }
    for d in 0..units.dwellings() {
        if units.key(d) != keys[d] || units.last_link(d) != lasts[d] {
            return false;
        }
    }
    true
}

// Whether a person's link is there, wherever it is looked for first.
fn is_link(units: &Units, person: u32, k: usize) -> bool {
    for guess in 0..6 {
        if units.link_of(person, guess) != Some(k) {
            return false;
        }
    }
    true
}

// No link is of person 999.
fn are_links(units: &Units, persons: &[u32], befores: &[u32]) -> bool {
    if units.links() != persons.len() || units.links() != befores.len() {
        return false;
    }
    for k in 0..units.links() {
        if !is_link(units, persons[k], k) || units.link_before(k) != befores[k] {
            return false;
        }
    }
    units.link_of(999, 0).is_none()
}

fn is_read(units: &Units, row: &Row) -> bool {
    let (_, _, keys, lasts, persons, befores) = row;
    are_dwellings(units, keys, lasts) && are_links(units, persons, befores)
}

fn reads_as(alloc: Global, keys: Keys, row: &Row) -> bool {
    match Units::read(alloc, MOST_UNSTATED, keys, row.0, row.1) {
        Ok(units) => is_read(&units, row),
        Err(_) => false,
    }
}

// The place of the first row that isn't read so.
fn wrong_row(alloc: Global, keys: Keys, rows: &[Row]) -> Option<usize> {
    for (i, row) in rows.iter().enumerate() {
        if !reads_as(alloc, keys, row) {
            return Some(i);
        }
    }
    None
}

#[test]
fn files_are_read(rt: HostRuntime) {
    assert_eq!(rt; wrong_row(rt.alloc(), Keys::K256, rows()), None);
    assert_eq!(rt; wrong_row(rt.alloc(), Keys::K4096, wide_rows()), None);
}
