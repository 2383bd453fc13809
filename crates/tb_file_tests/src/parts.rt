// Microdata that is read in parts.

ghost use Rattle.std.specs.Prelude.{◌≤◌, flat_map, length};
ghost use Rattle.tb_base.specs.Persons.{AreDistinct};

use crate::accepted::{Person, are_people};
use crate::faults::{ACCEPTED, Told, people_fault};
use std::alloc::Global;
use std::test::Fail;
use std::thread::Threads;
use tb_base::{Memory, Record, Rules, print_number};
use tb_records::{PeopleFault, read_people_in, read_people_in_parts};
use tb_release::Release;
use tb_schema::Schema;
use tb_small::CLASSES;

// Into so many parts each file is cut at most.
const MOST: usize = 9;

const HEADER: &[u8] = b"person,record_key,SEX,AGE,AREA\n";

// So many persons make a file that is long enough for threads.
const MANY: u32 = 10_000;

// Two persons.
static TWO: [Person; 2] = [(7, 2, [0, 0, 0]), (5, 3, [1, 2, 1])];

// What stands under the header, as two persons: with and without a line's end at the file's end,
// with carriage returns, alone and before line feeds, with empty lines wherever the file may be
// cut, with quotes, with one in the last byte, and with one that is never closed.
static ACCEPTED_TWO: [&'static [u8]; 8] = [
    b"7,2,1,0-15,E1\n5,3,2,65+,E2",
    b"7,2,1,0-15,E1\n5,3,2,65+,E2\n",
    b"7,2,1,0-15,E1\r\n5,3,2,65+,E2\r\n",
    b"7,2,1,0-15,E1\r5,3,2,65+,E2\r",
    b"\n\n\n\n7,2,1,0-15,E1\n\n\n\n\n\r\n\n\r\r\n5,3,2,65+,E2\n\n\n\n",
    b"7,2,\"1\",0-15,E1\n5,3,2,65+,E2\n",
    b"7,2,1,0-15,E1\n5,3,2,65+,\"E2\"",
    b"7,2,1,0-15,E1\n5,3,2,65+,\"E2",
];

// Whole files of the same two persons: a mark in front, a header after empty lines, one that a
// carriage return ends, one with quotes, one with a line feed inside quotes, and another column
// with line feeds inside quotes.
static WHOLE_TWO: [&'static [u8]; 6] = [
    b"\xEF\xBB\xBFperson,record_key,SEX,AGE,AREA\n7,2,1,0-15,E1\n5,3,2,65+,E2\n",
    b"\n\r\n\nperson,record_key,SEX,AGE,AREA\n7,2,1,0-15,E1\n5,3,2,65+,E2\n",
    b"person,record_key,SEX,AGE,AREA\r7,2,1,0-15,E1\n5,3,2,65+,E2\n",
    b"\"person\",record_key,SEX,AGE,AREA\n7,2,1,0-15,E1\n5,3,2,65+,E2\n",
    b"\"a\nb\",person,record_key,SEX,AGE,AREA\nc,7,2,1,0-15,E1\n,5,3,2,65+,E2\n",
    b"NOTE,AREA,AGE,SEX,record_key,person\n\"a\nb\",E1,0-15,1,2,7\n\"\n\",E2,65+,2,3,5\n",
];

// Whole files of nobody: the header alone, with and without a line's end, and empty lines after it.
static WHOLE_NONE: [&'static [u8]; 3] = [
    b"person,record_key,SEX,AGE,AREA",
    b"person,record_key,SEX,AGE,AREA\r\n",
    b"person,record_key,SEX,AGE,AREA\n\n\n\n",
];

// What stands under the header, and its first fault: where two parts have one, a person twice in
// two parts, before a fault and after one, a mark at the begin of a line, a line of another length,
// a quote that takes the rest of the file with it, and one in the last byte.
type Row = (&'static [u8], u8, &'static str, u32);

static REFUSED: [Row; 10] = [
    (
        b"1,2,1,0-15,E1\n0,2,1,0-15,E1\n3,2,1,0-15,E1\n4,256,1,0-15,E1\n",
        2,
        "BadPerson",
        2,
    ),
    (
        b"1,2,1,0-15,E1\n2,256,1,0-15,E1\n0,2,1,0-15,E1\n",
        3,
        "BadKey",
        2,
    ),
    (
        b"1,2,1,0-15,E1\n2,2,1,0-15,E1\n3,2,1,0-15,E1\n1,2,1,0-15,E1\n",
        5,
        "PersonTwice",
        4,
    ),
    (
        b"1,2,1,0-15,E1\n2,2,1,0-15,E1\n1,2,1,0-15,E1\n4,2,9,0-15,E1\n",
        5,
        "PersonTwice",
        3,
    ),
    (
        b"1,2,1,0-15,E1\n2,2,1,0-15,E9\n1,2,1,0-15,E1\n",
        4,
        "UnknownCode",
        2,
    ),
    (
        b"1,2,1,0-15,E1\n\xEF\xBB\xBF2,2,1,0-15,E1\n",
        2,
        "BadPerson",
        2,
    ),
    (b"1,2,1,0-15,E1\n\n\n2,2,1,0-15\n", 6, "BadCsv", 2),
    (b"1,2,1,0-15,E1\n2,2,1,0-15,E1,\n", 6, "BadCsv", 2),
    (
        b"1,2,1,0-15,\"E1\n2,2,1,0-15,E1\n3,2,1,0-15,E1\n",
        4,
        "UnknownCode",
        1,
    ),
    (b"1,2,1,0-15,E1\n2,2,1,0-15,E1\"", 4, "UnknownCode", 2),
];

// Whole files without a header that has each column: none, empty lines alone, one that is cut off,
// and one that stands in two lines.
static NO_HEADER: [&'static [u8]; 4] = [
    b"",
    b"\n\n\n",
    b"person,record_key,SEX,AGE",
    b"person,record_key,SEX\n,AGE,AREA\n1,2,1,0-15,E1\n",
];

fn accepted_two() -> &'static [&'static [u8]] {
    &ACCEPTED_TWO
}

fn whole_two() -> &'static [&'static [u8]] {
    &WHOLE_TWO
}

fn whole_none() -> &'static [&'static [u8]] {
    &WHOLE_NONE
}

fn refused() -> &'static [Row] {
    &REFUSED
}

fn no_header() -> &'static [&'static [u8]] {
    &NO_HEADER
}

fn two() -> &'static [Person] {
    &TWO
}

// The records of all lists.
fn joined(alloc: Global, lists: Vec<Vec<Record>>) -> Result<Vec<Record>, PeopleFault> {
    let mut all = Vec::new(alloc);
    for mut list in lists {
        if all.append(&mut list).is_err() {
            return Err(PeopleFault::Memory);
        }
    }
    Ok(all)
}

fn read_in(
    rt: &(impl Threads + Sync),
    alloc: Global,
    file: &[u8],
    parts: usize,
) -> Result<Vec<Record>, PeopleFault> {
    match Schema::read(alloc, CLASSES, None) {
        Ok(schema) => joined(alloc, read_people_in(rt, alloc, &schema, file, parts)?),
        Err(_) => Err(PeopleFault::Memory),
    }
}

fn told_in(rt: &(impl Threads + Sync), alloc: Global, file: &[u8], parts: usize) -> Told {
    match read_in(rt, alloc, file, parts) {
        Ok(_) => ACCEPTED,
        Err(fault) => people_fault(fault),
    }
}

// Whether a file is these persons, in each number of parts.
fn is_in_parts(rt: &(impl Threads + Sync), alloc: Global, file: &[u8], want: &[Person]) -> bool {
    for parts in 1..=MOST {
        match read_in(rt, alloc, file, parts) {
            Ok(people) => {
                if !are_people(&people, want) {
                    return false;
                }
            }
            Err(_) => return false,
        }
    }
    true
}

// Whether a file's first fault is this one, in each number of parts.
fn is_told_in_parts(rt: &(impl Threads + Sync), alloc: Global, file: &[u8], want: Told) -> bool {
    for parts in 1..=MOST {
        if told_in(rt, alloc, file, parts) != want {
            return false;
        }
    }
    true
}

fn under_header(alloc: Global, records: &[u8]) -> Result<Vec<u8>, Memory> {
    let mut bytes = Vec::from_slice(alloc, HEADER)?;
    bytes.extend_from_slice(records)?;
    Ok(bytes)
}

#[test]
fn parts_of_accepted_files(rt: HostRuntime) -> Result<(), Fail> {
    for (i, records) in accepted_two().iter().enumerate() {
        let file = under_header(rt.alloc(), records)?;
        assert!(rt;
            is_in_parts(&rt, rt.alloc(), file.as_slice(), two()),
            "under {i}"
        );
    }
    for (i, file) in whole_two().iter().enumerate() {
        assert!(rt; is_in_parts(&rt, rt.alloc(), file, two()), "whole {i}");
    }
    for (i, file) in whole_none().iter().enumerate() {
        assert!(rt; is_in_parts(&rt, rt.alloc(), file, &[]), "none {i}");
    }
    Ok(())
}

#[test]
fn parts_of_refused_files(rt: HostRuntime) -> Result<(), Fail> {
    for (i, (records, number, word, at)) in refused().iter().enumerate() {
        let file = under_header(rt.alloc(), records)?;
        assert!(rt;
            is_told_in_parts(&rt, rt.alloc(), file.as_slice(), (*number, *word, *at)),
            "refused {i}"
        );
    }
    for (i, file) in no_header().iter().enumerate() {
        assert!(rt;
            is_told_in_parts(&rt, rt.alloc(), file, (1, "BadHeader", 0)),
            "header {i}"
        );
    }
    Ok(())
}

fn add_line(file: &mut Vec<u8>, person: u32) -> Result<(), Memory> {
    let mut digits = [0; 10];
    let len = print_number(person, &mut digits);
    file.extend_from_slice(&digits[..len])?;
    file.extend_from_slice(b",7,1,0-15,E1\n")?;
    Ok(())
}

// A long file: a person, those from 2 on below `MANY`, and one more.
fn long_file(alloc: Global, first: u32, last: u32) -> Result<Vec<u8>, Memory> {
    let mut file = Vec::from_slice(alloc, HEADER)?;
    add_line(&mut file, first)?;
    for person in 2..MANY {
        add_line(&mut file, person)?;
    }
    add_line(&mut file, last)?;
    Ok(file)
}

fn read_long(
    rt: &(impl Threads + Sync),
    alloc: Global,
    file: &[u8],
) -> Result<Vec<Record>, PeopleFault> {
    match Schema::read(alloc, CLASSES, None) {
        Ok(schema) => joined(alloc, read_people_in_parts(rt, alloc, &schema, file)?),
        Err(_) => Err(PeopleFault::Memory),
    }
}

// Whether all persons of a long file come, in order.
fn are_all(people: &[Record], first: u32, last: u32) -> bool {
    people.len() == MANY as usize
        && people.iter().enumerate().all(|(i, one)| {
            let want = match i {
                0 => first,
                _ if i + 1 == MANY as usize => last,
                _ => i as u32 + 1,
            };
            one.person == want
        })
}

// Whether a long file is read, with its first and its last person.
fn is_read(rt: &(impl Threads + Sync), alloc: Global, first: u32, last: u32) -> bool {
    let Ok(file) = long_file(alloc, first, last) else {
        return false;
    };
    match read_long(rt, alloc, file.as_slice()) {
        Ok(people) => are_all(&people, first, last),
        Err(_) => false,
    }
}

// Whether a long file's last person is refused as one who stands there twice.
fn is_twice(rt: &(impl Threads + Sync), alloc: Global, first: u32, last: u32) -> bool {
    let Ok(file) = long_file(alloc, first, last) else {
        return false;
    };
    match read_long(rt, alloc, file.as_slice()) {
        Ok(_) => false,
        Err(fault) => people_fault(fault) == (5, "PersonTwice", MANY),
    }
}

#[test]
fn parts_of_long_files(rt: HostRuntime) {
    assert!(rt; is_read(&rt, rt.alloc(), 1, MANY), "ascending");
    assert!(rt; is_read(&rt, rt.alloc(), MANY, 1), "in another order");
    assert!(rt;
        is_twice(&rt, rt.alloc(), 1, 2),
        "twice, ascending up to then"
    );
    assert!(rt;
        is_twice(&rt, rt.alloc(), MANY, MANY),
        "twice, in another order"
    );
}

// How many records and pages release 0 has of these records.
fn first_in(
    rt: &(impl Threads + Sync),
    alloc: Global,
    schema: &Schema,
    lists: Vec<Vec<Record>>,
) -> Result<(usize, usize), PeopleFault>
    requires distinct { AreDistinct (flat_map (λ list. list.items) lists.items) }
    requires few { length (flat_map (λ list. list.items) lists.items) ≤ schema.now.persons }
{
    let most = schema.persons();
    let release = Release::first_in_parts(rt, alloc, most, lists, Rules::new(alloc, 0))?;
    Ok((release.len(), release.pages()))
}

// The same of a file over its schema.
fn first_over(
    rt: &(impl Threads + Sync),
    alloc: Global,
    schema: &Schema,
    file: &[u8],
    parts: usize,
) -> Result<(usize, usize), PeopleFault> {
    let lists = read_people_in(rt, alloc, schema, file, parts)?;
    first_in(rt, alloc, schema, lists)
}

// How many records and pages release 0 has of a file that is read in at most so many parts.
fn first_of(
    rt: &(impl Threads + Sync),
    alloc: Global,
    file: &[u8],
    parts: usize,
) -> Result<(usize, usize), PeopleFault> {
    let Ok(schema) = Schema::read(alloc, CLASSES, None) else {
        return Err(PeopleFault::Memory);
    };
    first_over(rt, alloc, &schema, file, parts)
}

// A page has 1,024 records, wherever the parts end.
#[test]
fn pages_of_parts(rt: HostRuntime) -> Result<(), Fail> {
    let file = long_file(rt.alloc(), 1, MANY)?;
    for parts in 1..=MOST {
        let first = first_of(&rt, rt.alloc(), file.as_slice(), parts);
        assert!(rt; matches!(first, Ok((10_000, 10))), "in {parts}");
    }
    Ok(())
}
