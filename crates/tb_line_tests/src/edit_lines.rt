// Lines that read as an edit.

use crate::making::{schema, wide_schema};
use std::alloc::Global;
use std::test::Fail;
use tb_base::{Codes, Memory};
use tb_release::{Edit, Sets};
use tb_revise::read_edit;
use tb_schema::Schema;

// Lines and their persons: the edges, and blanks round words.
static DROPS: [(&'static str, u32); 3] = [
    ("drop 4294967295", 4294967295),
    ("drop 0000000009", 9),
    (" \t drop\t\t101 \t", 101),
];

fn drops() -> &'static [(&'static str, u32)] {
    &DROPS
}

fn is_drop(edit: &Edit, who: u32) -> bool {
    match edit {
        Edit::Drop { person } => *person == who,
        _ => false,
    }
}

// Whether a line is read so.
fn reads_as_drop(alloc: Global, schema: &Schema, line: &str, who: u32) -> bool {
    match read_edit(alloc, schema, line.as_bytes()) {
        Ok(edit) => is_drop(&edit, who),
        Err(_) => false,
    }
}

// The place of the first line that isn't.
fn wrong_drop(alloc: Global, schema: &Schema) -> Option<usize> {
    for (i, (line, who)) in drops().iter().enumerate() {
        if !reads_as_drop(alloc, schema, line, *who) {
            return Some(i);
        }
    }
    None
}

fn wrong_drop_of_small(alloc: Global) -> Result<Option<usize>, Memory> {
    let schema = schema(alloc)?;
    Ok(wrong_drop(alloc, &schema))
}

#[test]
fn drops_are_read(rt: HostRuntime) -> Result<(), Fail> {
    assert_eq!(rt; wrong_drop_of_small(rt.alloc())?, None);
    Ok(())
}

// A line, its person and key, and the categories of SEX, AGE and AREA.
type Added = (&'static str, u32, u16, u16, u16, u16);

static ADDS: [Added; 3] = [
    ("  add\t200   9\tSEX=1\tAGE=65+\tAREA=E1  ", 200, 9, 0, 2, 0),
    (
        "add 4294967295 255 AGE=0-15 AREA=E2 SEX=1",
        4294967295,
        255,
        0,
        0,
        1,
    ),
    (
        "add 0000000001 0000000255 AGE=65+ SEX=2 AREA=E1",
        1,
        255,
        1,
        2,
        0,
    ),
];

fn adds() -> &'static [Added] {
    &ADDS
}

// With the key range 4096.
static WIDE_ADDS: [Added; 2] = [
    ("add 300 4095 SEX=1 AGE=65+ AREA=E1", 300, 4095, 0, 2, 0),
    ("add 300 00256 SEX=2 AGE=65+ AREA=E2", 300, 256, 1, 2, 1),
];

fn wide_adds() -> &'static [Added] {
    &WIDE_ADDS
}

fn are_codes(codes: &Codes, sex: u16, age: u16, area: u16) -> bool {
    if codes.len() != 3 {
        return false;
    }
    codes.at(0) == sex && codes.at(1) == age && codes.at(2) == area
}

fn is_add(edit: &Edit, row: &Added) -> bool {
    let (_, who, with, sex, age, area) = row;
    match edit {
        Edit::Add { person, key, codes } => {
            *person == *who && *key == *with && are_codes(codes, *sex, *age, *area)
        }
        _ => false,
    }
}

// Whether a row's line is read so.
fn reads_as_add(alloc: Global, schema: &Schema, row: &Added) -> bool {
    match read_edit(alloc, schema, row.0.as_bytes()) {
        Ok(edit) => is_add(&edit, row),
        Err(_) => false,
    }
}

// The place of the first row whose line isn't.
fn wrong_add(alloc: Global, schema: &Schema, rows: &[Added]) -> Option<usize> {
    for (i, row) in rows.iter().enumerate() {
        if !reads_as_add(alloc, schema, row) {
            return Some(i);
        }
    }
    None
}

fn wrong_add_of_small(alloc: Global) -> Result<Option<usize>, Memory> {
    let schema = schema(alloc)?;
    Ok(wrong_add(alloc, &schema, adds()))
}

fn wrong_add_of_wide(alloc: Global) -> Result<Option<usize>, Memory> {
    let schema = wide_schema(alloc)?;
    Ok(wrong_add(alloc, &schema, wide_adds()))
}

#[test]
fn adds_are_read(rt: HostRuntime) -> Result<(), Fail> {
    assert_eq!(rt; wrong_add_of_small(rt.alloc())?, None);
    assert_eq!(rt; wrong_add_of_wide(rt.alloc())?, None);
    Ok(())
}

// Whether the settings are these, in this order.
fn are_sets(sets: &Sets, want: &[(u16, u16)]) -> bool {
    if sets.len() != want.len() {
        return false;
    }
    for i in 0..sets.len() {
        if sets.at(i) != want[i] {
            return false;
        }
    }
    true
}

fn is_amend(edit: &Edit, who: u32, settings: &[(u16, u16)]) -> bool {
    match edit {
        Edit::Amend { person, sets } => *person == who && are_sets(sets, settings),
        _ => false,
    }
}

// Whether a line is read so.
fn reads_as_amend(
    alloc: Global,
    schema: &Schema,
    line: &[u8],
    who: u32,
    settings: &[(u16, u16)],
) -> bool {
    match read_edit(alloc, schema, line) {
        Ok(edit) => is_amend(&edit, who, settings),
        Err(_) => false,
    }
}

// Whether settings stay in their order, with blanks round them and without.
fn amends_are_right(alloc: Global, schema: &Schema) -> bool {
    let blanks = b"amend  200\tAGE=65+\t SEX=2\t";
    let three = b"amend 101 AREA=E2 SEX=2 AGE=16-64";
    reads_as_amend(alloc, schema, blanks, 200, &[(1, 2), (0, 1)])
        && reads_as_amend(alloc, schema, three, 101, &[(2, 1), (0, 1), (1, 1)])
}

fn amends_of_small_are_right(alloc: Global) -> Result<bool, Memory> {
    let schema = schema(alloc)?;
    Ok(amends_are_right(alloc, &schema))
}

#[test]
fn amends_are_read(rt: HostRuntime) -> Result<(), Fail> {
    assert!(rt; amends_of_small_are_right(rt.alloc())?);
    Ok(())
}

// A line, and the row, the cell key and the pvalue that it sets there.
type SetPvalue = (&'static str, u16, u16, i16);

static PVALUES: [SetPvalue; 6] = [
    ("pvalue 3 64 5", 3, 64, 5),
    (" \tpvalue\t0000000750   0000000255\t1000 ", 750, 255, 1_000),
    ("pvalue 750 0 -750", 750, 0, -750),
    ("pvalue 1 0 -1", 1, 0, -1),
    ("pvalue 1 000 -0", 1, 0, 0),
    ("pvalue 03 64 -0000000003", 3, 64, -3),
];

fn pvalues() -> &'static [SetPvalue] {
    &PVALUES
}

// With the key range 4096.
static WIDE_PVALUES: [SetPvalue; 2] = [
    ("pvalue 3 4095 5", 3, 4095, 5),
    ("pvalue 750 00256 -750", 750, 256, -750),
];

fn wide_pvalues() -> &'static [SetPvalue] {
    &WIDE_PVALUES
}

fn is_pvalue(edit: &Edit, set: &SetPvalue) -> bool {
    match edit {
        Edit::Pvalue { row, key, pvalue } => (*row, *key, *pvalue) == (set.1, set.2, set.3),
        _ => false,
    }
}

// Whether a line is read so.
fn reads_as_pvalue(alloc: Global, schema: &Schema, set: &SetPvalue) -> bool {
    match read_edit(alloc, schema, set.0.as_bytes()) {
        Ok(edit) => is_pvalue(&edit, set),
        Err(_) => false,
    }
}

// The place of the first line that isn't.
fn wrong_pvalue(alloc: Global, schema: &Schema, rows: &[SetPvalue]) -> Option<usize> {
    for (i, set) in rows.iter().enumerate() {
        if !reads_as_pvalue(alloc, schema, set) {
            return Some(i);
        }
    }
    None
}

fn wrong_pvalue_of_small(alloc: Global) -> Result<Option<usize>, Memory> {
    let schema = schema(alloc)?;
    Ok(wrong_pvalue(alloc, &schema, pvalues()))
}

fn wrong_pvalue_of_wide(alloc: Global) -> Result<Option<usize>, Memory> {
    let schema = wide_schema(alloc)?;
    Ok(wrong_pvalue(alloc, &schema, wide_pvalues()))
}

#[test]
fn pvalues_are_read(rt: HostRuntime) -> Result<(), Fail> {
    assert_eq!(rt; wrong_pvalue_of_small(rt.alloc())?, None);
    assert_eq!(rt; wrong_pvalue_of_wide(rt.alloc())?, None);
    Ok(())
}

// Lines and their thresholds.
static THRESHOLDS: [(&'static str, u32); 3] = [
    ("threshold 3", 3),
    ("\tthreshold  0000000000 ", 0),
    ("threshold 1000000", 1_000_000),
];

fn thresholds() -> &'static [(&'static str, u32)] {
    &THRESHOLDS
}

fn is_threshold(edit: &Edit, want: u32) -> bool {
    match edit {
        Edit::Threshold { value } => *value == want,
        _ => false,
    }
}

// Whether a line is read so.
fn reads_as_threshold(alloc: Global, schema: &Schema, line: &str, want: u32) -> bool {
    match read_edit(alloc, schema, line.as_bytes()) {
        Ok(edit) => is_threshold(&edit, want),
        Err(_) => false,
    }
}

// The place of the first line that isn't.
fn wrong_threshold(alloc: Global, schema: &Schema) -> Option<usize> {
    for (i, (line, want)) in thresholds().iter().enumerate() {
        if !reads_as_threshold(alloc, schema, line, *want) {
            return Some(i);
        }
    }
    None
}

fn wrong_threshold_of_small(alloc: Global) -> Result<Option<usize>, Memory> {
    let schema = schema(alloc)?;
    Ok(wrong_threshold(alloc, &schema))
}

#[test]
fn thresholds_are_read(rt: HostRuntime) -> Result<(), Fail> {
    assert_eq!(rt; wrong_threshold_of_small(rt.alloc())?, None);
    Ok(())
}

// Lines and their releases: whether there is one is told when it is published.
static OLDEST: [(&'static str, u32); 3] = [
    ("oldest 0", 0),
    ("\toldest  0000000012 ", 12),
    ("oldest 4294967295", 4294967295),
];

fn oldest() -> &'static [(&'static str, u32)] {
    &OLDEST
}

fn is_oldest(edit: &Edit, want: u32) -> bool {
    match edit {
        Edit::Oldest { release } => *release == want,
        _ => false,
    }
}

// Whether a line is read so.
fn reads_as_oldest(alloc: Global, schema: &Schema, line: &str, want: u32) -> bool {
    match read_edit(alloc, schema, line.as_bytes()) {
        Ok(edit) => is_oldest(&edit, want),
        Err(_) => false,
    }
}

// The place of the first line that isn't.
fn wrong_oldest(alloc: Global, schema: &Schema) -> Option<usize> {
    for (i, (line, want)) in oldest().iter().enumerate() {
        if !reads_as_oldest(alloc, schema, line, *want) {
            return Some(i);
        }
    }
    None
}

fn wrong_oldest_of_small(alloc: Global) -> Result<Option<usize>, Memory> {
    let schema = schema(alloc)?;
    Ok(wrong_oldest(alloc, &schema))
}

#[test]
fn oldest_releases_are_read(rt: HostRuntime) -> Result<(), Fail> {
    assert_eq!(rt; wrong_oldest_of_small(rt.alloc())?, None);
    Ok(())
}
