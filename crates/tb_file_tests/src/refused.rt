// Files that are refused, each with its first fault.

use crate::faults::{File, header_of, told};
use std::alloc::Global;
use std::test::Fail;
use tb_base::Memory;

// Whole files whose header is bad: none, a column that is missing or there twice, other spellings,
// a second mark.
static HEADERS: [(File, &'static [u8]); 12] = [
    (File::Classes, b""),
    (File::Classes, b"\n\r\n"),
    (File::Classes, b"variable,code\nA,1\n"),
    (File::Classes, b"variable,code,label,code\n"),
    (File::Classes, b"variable,code, label\n"),
    (
        File::Classes,
        b"\xEF\xBB\xBF\xEF\xBB\xBFvariable,code,label\n",
    ),
    (File::Recodes, b""),
    (File::Recodes, b"recode,variable,code\n"),
    (File::Ptable, b"pcv,ckey\n3,64\n"),
    (File::Ptable, b"pcv,Ckey,pvalue\n"),
    (File::People, b"person,record_key,SEX,AGE\n1,2,1,0-15\n"),
    (File::People, b"person,record_key,SEX,AGE,AREA,AGE\n"),
];

fn headers() -> &'static [(File, &'static [u8])] {
    &HEADERS
}

#[test]
fn bad_headers(rt: HostRuntime) -> Result<(), Fail> {
    for (i, (file, bytes)) in headers().iter().enumerate() {
        assert!(rt;
            told(rt.alloc(), file, bytes) == (1, "BadHeader", 0),
            "header {i}"
        );
    }
    Ok(())
}

// A file, the records under its header, and the number, the word and the record of its first fault.
type Row = (File, &'static [u8], u8, &'static str, u32);

static CLASS_ROWS: [Row; 12] = [
    (File::Classes, b"A,1\n", 10, "BadCsv", 1),
    (File::Classes, b"1A,1,a\n", 2, "BadName", 1),
    (File::Classes, b"A,1,a\n\n\nby,2,b\n", 2, "BadName", 2),
    (File::Classes, b"A,Total,a\n", 3, "BadCode", 1),
    (File::Classes, b"A,1,\"a\nb\"\n", 11, "BadLabel", 1),
    (
        File::Classes,
        b"A,1,a\nB,1,b\nA,1,c\n",
        4,
        "RepeatedCode",
        3,
    ),
    // Two faults in a record: the first in the order of the table. Two in a file: that of the first
    // record.
    (File::Classes, b"by,Total,a,\n", 10, "BadCsv", 1),
    (File::Classes, b"by,Total,a\n", 2, "BadName", 1),
    (File::Classes, b"A,,\xFF\n", 3, "BadCode", 1),
    (File::Classes, b"A,1,a\nA,1,\xFF\n", 11, "BadLabel", 2),
    (File::Classes, b"A,1,a\nA,1,b\nby,1\n", 4, "RepeatedCode", 2),
    (File::Classes, b"A,1,\xFF\nA,1\n", 11, "BadLabel", 1),
];

// The record that states the key range: not the first, twice, another code, another label.
static KEY_ROWS: [Row; 11] = [
    (File::Classes, b"A,1,a\n*,keys,4096\n", 13, "BadKeys", 2),
    (File::Classes, b"*,keys,256\n*,keys,256\n", 13, "BadKeys", 2),
    (File::Classes, b"*,key,4096\n", 13, "BadKeys", 1),
    (File::Classes, b"*,Total,\xFF\n", 13, "BadKeys", 1),
    (File::Classes, b"*,keys,512\n", 13, "BadKeys", 1),
    (File::Classes, b"*,keys,\n", 13, "BadKeys", 1),
    (File::Classes, b"*,keys,0256\n", 13, "BadKeys", 1),
    (File::Classes, b"*,keys, 256\n", 13, "BadKeys", 1),
    (File::Classes, b"*,keys\n", 10, "BadCsv", 1),
    (File::Classes, b"**,keys,256\n", 2, "BadName", 1),
    (
        File::Classes,
        b"*,keys,4096\nA,keys,a\nA,keys,b\n",
        4,
        "RepeatedCode",
        3,
    ),
];

// The record that states the limit of persons: no number, none from 1 to the most, twice, behind a
// category, without a label; another code; and accepted ones before a later fault.
static PERSON_ROWS: [Row; 15] = [
    (File::Classes, b"*,persons,0\n", 14, "BadPersons", 1),
    (File::Classes, b"*,persons,100000001\n", 14, "BadPersons", 1),
    (File::Classes, b"*,persons,x\n", 14, "BadPersons", 1),
    (File::Classes, b"*,persons,\n", 14, "BadPersons", 1),
    (File::Classes, b"*,persons, 4\n", 14, "BadPersons", 1),
    (
        File::Classes,
        b"*,persons,4\n*,persons,4\n",
        14,
        "BadPersons",
        2,
    ),
    (
        File::Classes,
        b"*,keys,256\n*,persons,0\n",
        14,
        "BadPersons",
        2,
    ),
    (File::Classes, b"A,1,a\n*,persons,4\n", 14, "BadPersons", 2),
    (
        File::Classes,
        b"*,persons,4\n*,keys,256\n",
        13,
        "BadKeys",
        2,
    ),
    (File::Classes, b"*,Persons,4\n", 13, "BadKeys", 1),
    (File::Classes, b"*,persons\n", 10, "BadCsv", 1),
    (File::Classes, b"**,persons,4\n", 2, "BadName", 1),
    (File::Classes, b"*,persons,1\nby,1,b\n", 2, "BadName", 2),
    (
        File::Classes,
        b"*,persons,100000000\nby,1,b\n",
        2,
        "BadName",
        2,
    ),
    (
        File::Classes,
        b"*,keys,4096\n*,persons,0000000100\nby,1,b\n",
        2,
        "BadName",
        3,
    ),
];

static RECODE_ROWS: [Row; 14] = [
    (
        File::Recodes,
        b"A,AGE,0-15,a\nA,AGE,65+,b,c\n",
        10,
        "BadCsv",
        2,
    ),
    (
        File::Recodes,
        b"A,AGE,0-15,a\nA,SEX,1,a\n",
        9,
        "NameTwice",
        2,
    ),
    (
        File::Recodes,
        b"A,AGE,16-64,a\nA,AGE,65+,a\n",
        8,
        "CodeMissing",
        1,
    ),
    // Two faults in a record: the first in the order of the table.
    (File::Recodes, b"in,age,1,Total,x\n", 10, "BadCsv", 1),
    (File::Recodes, b"in,age,1,Total\n", 2, "BadName", 1),
    (File::Recodes, b"SEX,age,1,Total\n", 5, "UnknownVariable", 1),
    (File::Recodes, b"SEX,AGE,1,Total\n", 9, "NameTwice", 1),
    (File::Recodes, b"A,AGE,1,Total\n", 6, "UnknownCode", 1),
    (
        File::Recodes,
        b"A,AGE,0-15,a\nA,AGE,0-15,Total\n",
        7,
        "CodeTwice",
        2,
    ),
    (File::Recodes, b"A,AGE,0-15,Total\nA,AGE\n", 3, "BadCode", 1),
    // A code that is missing is told at the end, of the first such recode.
    (
        File::Recodes,
        b"A,AGE,0-15,a\nA,AGE,16-64,\n",
        3,
        "BadCode",
        2,
    ),
    (
        File::Recodes,
        b"S,SEX,1,a\nA,AGE,0-15,a\nS,SEX,2,b\n",
        8,
        "CodeMissing",
        2,
    ),
    (
        File::Recodes,
        b"S,SEX,1,a\nT,SEX,1,a\nT,SEX,2,a\n",
        8,
        "CodeMissing",
        1,
    ),
    (
        File::Recodes,
        b"A,AGE,0-15,a\nSEX,AGE,0-15,a\nin,,,\n",
        9,
        "NameTwice",
        2,
    ),
];

static PTABLE_ROWS: [Row; 25] = [
    (File::Ptable, b"1,7,1\n2,7\n3,10,-4\n", 7, "BadCsv", 2),
    (File::Ptable, b"x,256\n", 7, "BadCsv", 1),
    (File::Ptable, b",7,1\n", 2, "BadNumber", 1),
    (File::Ptable, b"1,7,+5\n", 2, "BadNumber", 1),
    (File::Ptable, b"1,7,--1\n", 2, "BadNumber", 1),
    (File::Ptable, b"-0,7,1\n", 2, "BadNumber", 1),
    (File::Ptable, b"1, 7,1\n", 2, "BadNumber", 1),
    (File::Ptable, b"4294967296,7,1\n", 2, "BadNumber", 1),
    (File::Ptable, b"1,7,-00000000001\n", 2, "BadNumber", 1),
    (File::Ptable, b"751,256,1x\n", 2, "BadNumber", 1),
    (File::Ptable, b"751,0,0\n", 3, "OutOfRange", 1),
    (File::Ptable, b"1,255,0\n1,256,0\n", 3, "OutOfRange", 2),
    (
        File::WidePtable,
        b"1,4095,0\n1,4096,0\n",
        3,
        "OutOfRange",
        2,
    ),
    (
        File::WidePtable,
        b"1,256,0\n2,0,0\n01,0256,0\n",
        5,
        "PairTwice",
        3,
    ),
    (File::Ptable, b"1,7,1001\n", 3, "OutOfRange", 1),
    (File::Ptable, b"750,7,-1001\n", 3, "OutOfRange", 1),
    (File::Ptable, b"0,256,1\n", 3, "OutOfRange", 1),
    (File::Ptable, b"3,10,-4\n", 4, "Negative", 1),
    (File::Ptable, b"0,0,-1\n", 4, "Negative", 1),
    (File::Ptable, b"3,10,1\n3,10,-4\n", 4, "Negative", 2),
    (
        File::Ptable,
        b"1,7,1\n3,10,-4\n1,7,1\nx,7,1\n",
        4,
        "Negative",
        2,
    ),
    (File::Ptable, b"0,0,1\n", 6, "ZeroRow", 1),
    (File::Ptable, b"0,0,0\n0,0,1\n", 6, "ZeroRow", 2),
    (File::Ptable, b"1,7,1\n2,7,1\n01,007,2\n", 5, "PairTwice", 3),
    (File::Ptable, b"1,7,0\n1,7,0\n1,7\n", 5, "PairTwice", 2),
];

static PEOPLE_ROWS: [Row; 17] = [
    (File::People, b"1,2,1,0-15\n", 6, "BadCsv", 1),
    (File::People, b"0000000000,2,1,0-15,E1\n", 2, "BadPerson", 1),
    (File::People, b"4294967296,2,1,0-15,E1\n", 2, "BadPerson", 1),
    (File::People, b" 1,2,1,0-15,E1\n", 2, "BadPerson", 1),
    (File::People, b"1,256,1,0-15,E1\n", 3, "BadKey", 1),
    (
        File::WidePeople,
        b"1,4095,1,0-15,E1\n2,4096,1,0-15,E1\n",
        3,
        "BadKey",
        2,
    ),
    (File::People, b"1,,1,0-15,E1\n", 3, "BadKey", 1),
    (File::People, b"1,2,1,E1,E1\n", 4, "UnknownCode", 1),
    (File::People, b"1,2,1,0-15,e1\n", 4, "UnknownCode", 1),
    (File::People, b"1,2,1,0-15,\xFF\n", 4, "UnknownCode", 1),
    (
        File::People,
        b"1,2,1,0-15,E1\n3,2,1,65+,E1\n01,9,2,65+,E2\n",
        5,
        "PersonTwice",
        3,
    ),
    // Two faults in a record: the first in the order of the table. Two in a file: that of the first
    // record.
    (File::People, b"0,2,1,0-15\n", 6, "BadCsv", 1),
    (File::People, b"0,256,1,0-15,E1\n", 2, "BadPerson", 1),
    (File::People, b"1,256,3,0-15,E1\n", 3, "BadKey", 1),
    (
        File::People,
        b"1,2,1,0-15,E1\n1,2,3,0-15,E1\n",
        4,
        "UnknownCode",
        2,
    ),
    (
        File::People,
        b"1,2,1,0-15,E1\n2,256,1,0-15,E1\n0,2\n",
        3,
        "BadKey",
        2,
    ),
    // Empty lines have no number.
    (
        File::People,
        b"1,2,1,0-15,E1\n\n\n2,2,1,0-15,E3\n",
        4,
        "UnknownCode",
        2,
    ),
];

fn class_rows() -> &'static [Row] {
    &CLASS_ROWS
}

fn key_rows() -> &'static [Row] {
    &KEY_ROWS
}

fn person_rows() -> &'static [Row] {
    &PERSON_ROWS
}

fn recode_rows() -> &'static [Row] {
    &RECODE_ROWS
}

fn ptable_rows() -> &'static [Row] {
    &PTABLE_ROWS
}

fn people_rows() -> &'static [Row] {
    &PEOPLE_ROWS
}

fn under_header(alloc: Global, file: &File, records: &[u8]) -> Result<Vec<u8>, Memory> {
    let mut bytes = Vec::from_slice(alloc, header_of(file))?;
    bytes.extend_from_slice(records)?;
    Ok(bytes)
}

fn is_refused(alloc: Global, row: &Row) -> Result<bool, Memory> {
    let (file, records, number, word, at) = row;
    let bytes = under_header(alloc, file, records)?;
    Ok(told(alloc, file, bytes.as_slice()) == (*number, *word, *at))
}

// How many rows come before the first that isn't refused so.
fn refused_rows(alloc: Global, rows: &[Row]) -> Result<usize, Memory> {
    for (i, row) in rows.iter().enumerate() {
        if !is_refused(alloc, row)? {
            return Ok(i);
        }
    }
    Ok(rows.len())
}

#[test]
fn first_faults(rt: HostRuntime) -> Result<(), Fail> {
    let tables = [
        class_rows(),
        key_rows(),
        person_rows(),
        recode_rows(),
        ptable_rows(),
        people_rows(),
    ];
    for rows in tables {
        let refused = refused_rows(rt.alloc(), rows)?;
        assert!(rt; refused == rows.len(), "{} at {refused}", rows.len());
    }
    Ok(())
}
