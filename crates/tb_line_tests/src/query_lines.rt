// Lines that read as a query, and lines that are refused.

use crate::making::schema_of;
use std::alloc::Global;
use std::test::Fail;
use tb_base::Memory;
use tb_query::{MOST_QUERY_BYTES, QueryFault, print_query, read_query};
use tb_schema::Schema;
use tb_small::RECODES;

// SEX, AGE and AREA, and WORD, whose codes are words of a query.
const CLASSES: &[u8] = b"variable,code,label\nSEX,1,\nSEX,2,\nAGE,0-15,\nAGE,16-64,\nAGE,65+,\n\
    AREA,E1,\nAREA,E2,\nWORD,by,\nWORD,table,\nWORD,labels,\n";

fn setup(alloc: Global) -> Result<Schema, Memory> {
    schema_of(alloc, CLASSES, Some(RECODES))
}

// Whether a line reads as a query that prints as this text.
pub fn prints_as(alloc: Global, schema: &Schema, line: &[u8], text: &[u8]) -> Result<bool, Memory> {
    if line.len() > MOST_QUERY_BYTES {
        return Ok(false);
    }
    let Ok(query) = read_query(alloc, schema, line) else {
        return Ok(false);
    };
    Ok(print_query(alloc, schema, &query)?.as_slice() == text)
}

// Whether a fault has this word, and this position or 0.
fn is_fault(fault: QueryFault, word: &str, position: u32) -> bool {
    match fault.name() {
        Some(name) => name.word() == word && fault.position().unwrap_or(0) == position,
        None => false,
    }
}

// Whether a line is refused so.
pub fn is_refused(alloc: Global, schema: &Schema, line: &[u8], word: &str, position: u32) -> bool {
    if line.len() > MOST_QUERY_BYTES {
        return false;
    }
    match read_query(alloc, schema, line) {
        Ok(_) => false,
        Err(fault) => is_fault(fault, word, position),
    }
}

// Lines and the texts that their queries print as.
static ACCEPTED: [(&'static str, &'static str); 8] = [
    (
        "table  AREA by SEX where AGE not in(65+,0-15)",
        "table AREA by SEX where AGE not in (65+, 0-15)",
    ),
    (
        "table SEX by AGE by AREA with labels",
        "table SEX by AGE by AREA with labels",
    ),
    (
        "table SEX with totals with labels",
        "table SEX with totals with labels",
    ),
    (
        "\ttable\tSEX  where\tAGE in(65+ ,\t0-15 )\twith  totals ",
        "table SEX where AGE in (65+, 0-15) with totals",
    ),
    (
        "table SEX where AGE in(65+)and AREA not in(E1)with labels",
        "table SEX where AGE in (65+) and AREA not in (E1) with labels",
    ),
    // A name is filtered twice, and a code is repeated.
    (
        "table SEX where AGE in (65+,65+) and AGE in (0-15)",
        "table SEX where AGE in (65+, 65+) and AGE in (0-15)",
    ),
    // A variable stands beside a recode of it, and a code may be any word.
    (
        "table AGE by AGE2 where AGE2 not in (old, young)",
        "table AGE by AGE2 where AGE2 not in (old, young)",
    ),
    (
        "table WORD where WORD in (by, table, labels)",
        "table WORD where WORD in (by, table, labels)",
    ),
];

fn accepted() -> &'static [(&'static str, &'static str)] {
    &ACCEPTED
}

// The place of the first line whose query doesn't print so.
fn wrong_query(alloc: Global, schema: &Schema) -> Result<Option<usize>, Memory> {
    for (i, (line, text)) in accepted().iter().enumerate() {
        if !prints_as(alloc, schema, line.as_bytes(), text.as_bytes())? {
            return Ok(Some(i));
        }
    }
    Ok(None)
}

fn wrong_query_of_small(alloc: Global) -> Result<Option<usize>, Memory> {
    let schema = setup(alloc)?;
    wrong_query(alloc, &schema)
}

#[test]
fn queries(rt: HostRuntime) -> Result<(), Fail> {
    assert_eq!(rt; wrong_query_of_small(rt.alloc())?, None);
    Ok(())
}

// Lines, and the word and the position of their first fault.
type Refused = (&'static [u8], &'static str, u32);

static REFUSED: [Refused; 37] = [
    (b"table AGE by AGE", "RepeatedDimension", 4),
    (b"table AGE by FOO where SEX in (9)", "UnknownName", 4),
    (b"table AGE where SEX in (9)", "UnknownCode", 7),
    (b"table AGE;", "Syntax", 3),
    (b"table \xC3", "NotText", 7),
    // At each stage a token that may not follow.
    (b"SEX", "Syntax", 1),
    (b"table by", "Syntax", 2),
    (b"table SEX AGE", "Syntax", 3),
    (b"table SEX where in", "Syntax", 4),
    (b"table SEX where AGE (65+)", "Syntax", 5),
    (b"table SEX where AGE not (65+)", "Syntax", 6),
    (b"table SEX where AGE in ()", "Syntax", 7),
    (b"table SEX where AGE in (65+ 0-15)", "Syntax", 8),
    (b"table SEX where AGE in (65+) by AREA", "Syntax", 9),
    (b"table SEX with SEX", "Syntax", 4),
    (b"table SEX with labels with totals", "Syntax", 5),
    (b"table SEX with totals with totals", "Syntax", 6),
    // At each stage that is no end, the end.
    (b" \t ", "Syntax", 1),
    (b"table", "Syntax", 2),
    (b"table AGE by", "Syntax", 4),
    (b"table SEX where AGE", "Syntax", 5),
    (b"table SEX where AGE in", "Syntax", 6),
    (b"table SEX where AGE in(", "Syntax", 7),
    (b"table SEX where AGE in(65+", "Syntax", 8),
    (b"table SEX where AGE in(65+,", "Syntax", 9),
    (b"table SEX where AGE in(65+)and", "Syntax", 10),
    // Words that are spelled otherwise, and other bytes.
    (b"Table SEX", "Syntax", 1),
    (b"table sex", "UnknownName", 2),
    (b"table SEX\r", "NotText", 10),
    (b"table SEX ~", "Syntax", 3),
    (b"table SEX where AGE2 in (65+)", "UnknownCode", 7),
    // Two faults in one line, each of them first.
    (b"by \xFF", "NotText", 4),
    (b"table FOO by", "Syntax", 4),
    (
        b"table SEX where SEX in (9) and FOO in (1)",
        "UnknownName",
        10,
    ),
    (b"table SEX by SEX where SEX in (9)", "UnknownCode", 9),
    (b"table SEX by SEX by FOO", "UnknownName", 6),
    (
        b"table SEX where SEX in (9) with labels with totals",
        "Syntax",
        11,
    ),
];

fn refused() -> &'static [Refused] {
    &REFUSED
}

// The place of the first line that isn't refused so.
fn wrong_refusal(alloc: Global, schema: &Schema) -> Option<usize> {
    for (i, (line, word, position)) in refused().iter().enumerate() {
        if !is_refused(alloc, schema, line, word, *position) {
            return Some(i);
        }
    }
    None
}

fn wrong_refusal_of_small(alloc: Global) -> Result<Option<usize>, Memory> {
    let schema = setup(alloc)?;
    Ok(wrong_refusal(alloc, &schema))
}

#[test]
fn query_refusals(rt: HostRuntime) -> Result<(), Fail> {
    assert_eq!(rt; wrong_refusal_of_small(rt.alloc())?, None);
    Ok(())
}

#[test]
fn text_of_query_fault(rt: HostRuntime) -> Result<(), Fail> {
    let text = format!(in rt.alloc(); "{}; {}", QueryFault::NotText(7), QueryFault::Memory)?;
    assert_eq!(rt;
        text.as_str(),
        "byte 7 must be a tab or a printable ASCII character; out of memory"
    );
    Ok(())
}
