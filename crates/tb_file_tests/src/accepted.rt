// Files that are accepted, each with what it says.

ghost use Rattle.std.specs.Prelude.{◌<◌, length};

use std::alloc::Global;
use tb_base::{Keys, LAST_ROW, Record};
use tb_ptable::PTable;
use tb_records::read_people;
use tb_schema::{NameOf, Schema};
use tb_small::{CLASSES, PEOPLE, PTABLE, RECODES, WIDE_CLASSES};

// A variable: its name, and the code and the label of each category.
type Variable = (&'static str, &'static [(&'static str, &'static str)]);

static SMALL: [Variable; 3] = [
    ("SEX", &[("1", "Male"), ("2", "Female")]),
    (
        "AGE",
        &[
            ("0-15", "Under 16"),
            ("16-64", "Working age"),
            ("65+", "65 and over"),
        ],
    ),
    ("AREA", &[("E1", "North, rural"), ("E2", "South")]),
];

fn small() -> &'static [Variable] {
    &SMALL
}

// One mark, each line end, quotes, other columns in another order; records that are not adjacent;
// the same code in two variables; a label that is empty, `Total`, or not ASCII.
const OTHER_CLASSES: &[u8] =
    b"\xEF\xBB\xBFcode,note,label,variable\r\n\"1\",x,\"a \"\"b\"\"\",SEX\r\n\
    table,,,AREA\r-,y,\"1, 2\",SEX\n\n\n1,z,Total,AREA\r\nA.b_c-d+e,,\xC3\xA9,AREA";

static OTHER: [Variable; 2] = [
    ("SEX", &[("1", "a \"b\""), ("-", "1, 2")]),
    ("AREA", &[("table", ""), ("1", "Total"), ("A.b_c-d+e", "é")]),
];

fn other() -> &'static [Variable] {
    &OTHER
}

fn is_variable(schema: &Schema, v: u16, want: &Variable) -> bool
    requires { v < length schema.now.variables }
{
    let (name, categories) = want;
    let of = NameOf::Variable(v);
    if schema.name(of) != *name || schema.categories(of) as usize != categories.len() {
        return false;
    }
    for c in 0..schema.categories(of) {
        let (code, label) = categories[c as usize];
        if schema.code_at(of, c) != code || schema.label_at(v, c) != label {
            return false;
        }
    }
    true
}

fn are_variables(schema: &Schema, want: &[Variable]) -> bool {
    if schema.variables() as usize != want.len() {
        return false;
    }
    for v in 0..schema.variables() {
        if !is_variable(schema, v, &want[v as usize]) {
            return false;
        }
    }
    true
}

fn reads_as(alloc: Global, classes: &[u8], want: &[Variable]) -> bool {
    match Schema::read(alloc, classes, None) {
        Ok(schema) => are_variables(&schema, want),
        Err(_) => false,
    }
}

// Whether a classification is read with this key range, and with the variables of the small setup.
fn ranges_as(alloc: Global, classes: &[u8], keys: Keys) -> bool {
    match Schema::read(alloc, classes, None) {
        Ok(schema) => schema.keys() == keys && are_variables(&schema, small()),
        Err(_) => false,
    }
}

// A key range that is stated is no category, and is no variable of the recodes and the microdata.
const STATED: &[u8] = b"label,note,code,variable\n256,x,\"keys\",\"*\"\n\
    Male,,1,SEX\nFemale,,2,SEX\nUnder 16,,0-15,AGE\nWorking age,,16-64,AGE\n\
    65 and over,,65+,AGE\n\"North, rural\",,E1,AREA\nSouth,,E2,AREA\n";

#[test]
fn key_ranges(rt: HostRuntime) {
    assert!(rt; ranges_as(rt.alloc(), CLASSES, Keys::K256), "none");
    assert!(rt; ranges_as(rt.alloc(), STATED, Keys::K256), "256");
    assert!(rt; ranges_as(rt.alloc(), WIDE_CLASSES, Keys::K4096), "4096");
    assert!(rt;
        reads_as(rt.alloc(), b"variable,code,label\n*,keys,4096\n", &[]),
        "no variable"
    );
}

#[test]
fn classifications(rt: HostRuntime) {
    assert!(rt; reads_as(rt.alloc(), CLASSES, small()), "small");
    assert!(rt; reads_as(rt.alloc(), OTHER_CLASSES, other()), "other");
    assert!(rt;
        reads_as(rt.alloc(), b"\xEF\xBB\xBFlabel,variable,code", &[]),
        "header"
    );
}

// A recode: its name, its variable, how many groups it has, and the group of each category.
type Recode = (&'static str, u16, u16, &'static [&'static str]);

static AGE2: [Recode; 1] = [("AGE2", 1, 2, &["young", "old", "old"])];

fn age2() -> &'static [Recode] {
    &AGE2
}

// One mark, each line end, quotes, other columns, records that are not adjacent, and a group with
// the code of another variable.
const OTHER_RECODES: &[u8] = b"\xEF\xBB\xBFgroup,code,variable,note,recode\r\nE1,2,SEX,,S\r\n\
    \"old\",65+,AGE,\"x, y\",A\nyoung,0-15,AGE,,A\r1,1,SEX,,S\r\nold,16-64,AGE,,\"A\"";

static TWO: [Recode; 2] = [
    ("S", 0, 2, &["1", "E1"]),
    ("A", 1, 2, &["young", "old", "old"]),
];

fn two() -> &'static [Recode] {
    &TWO
}

fn is_recode(schema: &Schema, r: u16, want: &Recode) -> bool
    requires { r < length schema.now.recodes }
{
    let (name, variable, groups, codes) = want;
    let of = NameOf::Recode(r);
    let base = schema.base_of(r);
    if schema.name(of) != *name || base != *variable || schema.categories(of) != *groups {
        return false;
    }
    let categories = schema.categories(NameOf::Variable(base));
    if categories as usize != codes.len() {
        return false;
    }
    for c in 0..categories {
        if schema.code_at(of, schema.group_of(r, c)) != codes[c as usize] {
            return false;
        }
    }
    true
}

fn are_recodes(schema: &Schema, want: &[Recode]) -> bool {
    if schema.recodes() as usize != want.len() {
        return false;
    }
    for r in 0..schema.recodes() {
        if !is_recode(schema, r, &want[r as usize]) {
            return false;
        }
    }
    true
}

fn groups_as(alloc: Global, recodes: &[u8], want: &[Recode]) -> bool {
    match Schema::read(alloc, CLASSES, Some(recodes)) {
        Ok(schema) => are_recodes(&schema, want),
        Err(_) => false,
    }
}

#[test]
fn recodes(rt: HostRuntime) {
    assert!(rt; groups_as(rt.alloc(), RECODES, age2()), "small");
    assert!(rt; groups_as(rt.alloc(), OTHER_RECODES, two()), "other");
    assert!(rt;
        groups_as(rt.alloc(), b"group,recode,code,note,variable\n", &[]),
        "header"
    );
}

// A perturbation file, a row and a cell key, and their pvalue.
type Pvalue = (&'static [u8], u16, u16, i16);

// With the key range 256.
static PVALUES: [Pvalue; 8] = [
    (PTABLE, 3, 64, -2),
    (PTABLE, 1, 8, 0),
    (b"note,pvalue,ckey,pcv\nx,-2,64,3\n", 3, 64, -2),
    (
        b"pcv,ckey,pvalue\n0000000003,064,-0000000002\n0,0,-0\n",
        3,
        64,
        -2,
    ),
    (b"pcv,ckey,pvalue\n", 1, 7, 0),
    (b"pcv,ckey,pvalue\n3,10,-3\n", 3, 10, -3),
    (b"pcv,ckey,pvalue\n750,255,1000\n", 750, 255, 1000),
    (b"pcv,ckey,pvalue\n750,255,-750\n", 750, 255, -750),
];

// With the key range 4096: the first and the last keys, and one beside each.
static WIDE_PVALUES: [Pvalue; 6] = [
    (b"pcv,ckey,pvalue\n750,4095,1000\n", 750, 4095, 1000),
    (b"pcv,ckey,pvalue\n750,4095,1000\n", 749, 4095, 0),
    (b"pcv,ckey,pvalue\n750,4095,1000\n", 750, 4094, 0),
    (b"pcv,ckey,pvalue\n1,0256,-1\n1,0,7\n", 1, 256, -1),
    (b"pcv,ckey,pvalue\n1,0256,-1\n1,0,7\n", 1, 0, 7),
    (PTABLE, 4, 71, 2),
];

fn pvalues() -> &'static [Pvalue] {
    &PVALUES
}

fn wide_pvalues() -> &'static [Pvalue] {
    &WIDE_PVALUES
}

fn is_pvalue(alloc: Global, keys: Keys, one: &Pvalue) -> bool {
    let (file, row, key, pvalue) = one;
    if u32::from(*row) > LAST_ROW || *key >= keys.size() {
        return false;
    }
    match PTable::read(alloc, keys, file) {
        Ok(table) => table.pvalue(*row, *key) == *pvalue,
        Err(_) => false,
    }
}

#[test]
fn perturbation_tables(rt: HostRuntime) {
    for one in pvalues() {
        assert!(rt;
            is_pvalue(rt.alloc(), Keys::K256, one),
            "{}, {}",
            one.1,
            one.2
        );
    }
    for one in wide_pvalues() {
        assert!(rt;
            is_pvalue(rt.alloc(), Keys::K4096, one),
            "{}, {}",
            one.1,
            one.2
        );
    }
}

// A person, a key, and the categories of SEX, AGE and AREA.
pub type Person = (u32, u16, [u16; 3]);

static FOUR: [Person; 4] = [
    (101, 200, [0, 0, 0]),
    (102, 100, [0, 1, 0]),
    (103, 20, [0, 2, 1]),
    (104, 7, [1, 1, 1]),
];

fn four() -> &'static [Person] {
    &FOUR
}

// The greatest person and key, leading zeros up to ten digits, and no ascending order.
const EDGES: &[u8] =
    b"SEX,person,AREA,record_key,AGE,NOTE\r\n\"1\",4294967295,E1,255,0-15,\"a,b\"\n\
    1,0000000009,\"E2\",0000000255,65+,\"\"\"\"\r2,10,E1,0,16-64,";

static THREE: [Person; 3] = [
    (4294967295, 255, [0, 0, 0]),
    (9, 255, [0, 2, 1]),
    (10, 0, [1, 1, 0]),
];

fn three() -> &'static [Person] {
    &THREE
}

fn is_record(one: &Record, want: &Person) -> bool {
    let (person, key, [sex, age, area]) = want;
    if one.codes.len() != 3 || one.person != *person || one.key != *key {
        return false;
    }
    one.codes.at(0) == *sex && one.codes.at(1) == *age && one.codes.at(2) == *area
}

pub fn are_people(people: &[Record], want: &[Person]) -> bool {
    people.len() == want.len()
        && people
            .iter()
            .zip(want)
            .all(|(one, person)| is_record(one, person))
}

// The greatest keys of the key range 4096.
const WIDE_EDGES: &[u8] =
    b"SEX,person,AREA,record_key,AGE\n1,1,E1,4095,0-15\n1,2,E2,04095,65+\n2,3,E1,256,16-64\n";

static WIDE_THREE: [Person; 3] = [
    (1, 4095, [0, 0, 0]),
    (2, 4095, [0, 2, 1]),
    (3, 256, [1, 1, 0]),
];

fn wide_three() -> &'static [Person] {
    &WIDE_THREE
}

fn has_people(alloc: Global, classes: &[u8], file: &[u8], want: &[Person]) -> bool {
    let Ok(schema) = Schema::read(alloc, classes, None) else {
        return false;
    };
    match read_people(alloc, &schema, file) {
        Ok(people) => are_people(people.all(), want),
        Err(_) => false,
    }
}

#[test]
fn microdata(rt: HostRuntime) {
    assert!(rt; has_people(rt.alloc(), CLASSES, PEOPLE, four()), "small");
    assert!(rt; has_people(rt.alloc(), CLASSES, EDGES, three()), "edges");
    assert!(rt;
        has_people(rt.alloc(), WIDE_CLASSES, WIDE_EDGES, wide_three()),
        "wide edges"
    );
    assert!(rt;
        has_people(rt.alloc(), CLASSES, b"AREA,AGE,SEX,record_key,person", &[]),
        "header"
    );
}
