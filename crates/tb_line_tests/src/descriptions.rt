// Lines whose first word is `describe`, and their replies.

use super::making::schema_of;
use std::alloc::Global;
use std::test::Fail;
use tb_base::Memory;
use tb_describe::{describe, is_description};
use tb_io::{MOST_LINE_BYTES, MemSink, Wrote};
use tb_schema::Schema;

// T, with labels that `csv` writes in quotes and one that is empty, and its recode U, whose groups
// come in another order than the codes.
const CLASSES: &[u8] = b"variable,code,label\nT,a,\"say \"\"hi\"\"\"\nT,b,\nT,c,\"x, y\"\n";

const RECODES: &[u8] = b"recode,variable,code,group\nU,T,c,z\nU,T,a,y\nU,T,b,z\n";

// Lines and the replies to them.
static ROWS: [(&'static [u8], &'static [u8]); 12] = [
    (
        b"describe",
        b"describe\nname,kind,categories\nT,variable,3\nU,recode of T,2\n.\n",
    ),
    (
        b"describe T",
        b"describe T\ncode,label\na,\"say \"\"hi\"\"\"\nb,\nc,\"x, y\"\n.\n",
    ),
    (b"describe U", b"describe U\ngroup,code\ny,a\nz,b\nz,c\n.\n"),
    // Blanks only part the words.
    (
        b" \t describe\t U  ",
        b"describe U\ngroup,code\ny,a\nz,b\nz,c\n.\n",
    ),
    // Codes, groups, other spellings and a query's marks are no names.
    (b"describe a", b"refused 3 UnknownName 2\n"),
    (b"describe z", b"refused 3 UnknownName 2\n"),
    (b"describe t", b"refused 3 UnknownName 2\n"),
    (b"describe T,U", b"refused 3 UnknownName 2\n"),
    (b"describe describe", b"refused 3 UnknownName 2\n"),
    // More words are refused before a name, and a byte that is no text before both.
    (b"describe T U", b"refused 2 Syntax 3\n"),
    (b"describe no no no", b"refused 2 Syntax 3\n"),
    (b"describe no \x7F no", b"refused 1 NotText 13\n"),
];

fn rows() -> &'static [(&'static [u8], &'static [u8])] {
    &ROWS
}

// Whether a line is one that describes, and gets this text.
fn is_told(alloc: Global, schema: &Schema, line: &[u8], text: &[u8]) -> Result<bool, Memory> {
    if line.len() > MOST_LINE_BYTES || !is_description(line) {
        return Ok(false);
    }
    let mut sink = MemSink::new(alloc, 100)?;
    let wrote = describe(alloc, schema, line).write(&mut sink);
    Ok(wrote == Wrote::All && sink.taken() == text)
}

// The place of the first row that is wrong.
fn wrong_row(alloc: Global, schema: &Schema) -> Result<Option<usize>, Memory> {
    for (i, (line, text)) in rows().iter().enumerate() {
        if !is_told(alloc, schema, line, text)? {
            return Ok(Some(i));
        }
    }
    Ok(None)
}

fn wrong_row_of_two(alloc: Global) -> Result<Option<usize>, Memory> {
    let schema = schema_of(alloc, CLASSES, Some(RECODES))?;
    wrong_row(alloc, &schema)
}

#[test]
fn descriptions(rt: HostRuntime) -> Result<(), Fail> {
    assert_eq!(rt; wrong_row_of_two(rt.alloc())?, None);
    Ok(())
}

#[test]
fn lines_that_describe_nothing(rt: HostRuntime) -> Result<(), Fail> {
    assert!(rt; !is_description(b""));
    assert!(rt; !is_description(b"describes"));
    assert!(rt; !is_description(b"Describe T"));
    assert!(rt; !is_description(b"at 0 describe"));
    assert!(rt; !is_description(b"describe,T"));
    Ok(())
}
