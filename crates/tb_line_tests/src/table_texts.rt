// Worked tables by their bytes, with ample memory.

ghost use Rattle.std.specs.Prelude.{◌≤◌, All};
ghost use Rattle.tb_base.specs.declared.people.TheConstants.{MOST_PERSONS};
ghost use Rattle.tb_schema.specs.Names.{IsName};

use crate::counting::CountingSink;
use crate::making::{few_cells, ptable, query_of, schema_of};
use std::alloc::Global;
use std::test::Fail;
use tb_base::{Cell, Memory, Rules, may_be_set};
use tb_io::{MemSink, Wrote};
use tb_query::Query;
use tb_small::{CLASSES, RECODES, WIDE_CLASSES};
use tb_text::{Setup, table_text, write_table};

struct Row {
    name: &'static str,
    classes: &'static [u8],
    threshold: u32,
    pvalues: &'static [(u16, u16, i16)],
    query: &'static [u8],
    number: u32,
    cells: &'static [(u32, u16)],
    text: &'static [u8],
}

// Labels with quotes, none, more bytes than are copied at once, and a comma.
const OTHER: &[u8] = b"variable,code,label\nSEX,1,Male\nSEX,2,\nAGE,0-15,\nAGE,16-64,\nAGE,65+,\n\
    AREA,E1,\"a \"\"b\"\" c\"\nAREA,E2,\nAREA,E3,K\xc3\xb6ln and its surroundings\n\
    AREA,E4,\"x,y\"\n";

static ROWS: [Row; 8] = [
    Row {
        name: "labels_with_commas",
        classes: CLASSES,
        threshold: 0,
        pvalues: &[],
        query: b"table AREA by SEX with totals with labels",
        number: 0,
        cells: &[
            (2, 300),
            (0, 0),
            (2, 300),
            (1, 20),
            (1, 7),
            (2, 27),
            (3, 320),
            (1, 7),
            (4, 327),
        ],
        text: b"release 0\nAREA,SEX,count\n\"North, rural\",Male,2\n\"North, rural\",Female,0\n\
            \"North, rural\",Total,2\nSouth,Male,1\nSouth,Female,2\nSouth,Total,1\n\
            Total,Male,1\nTotal,Female,2\nTotal,Total,6\n.\n",
    },
    Row {
        name: "key_range_of_the_classification",
        classes: WIDE_CLASSES,
        threshold: 0,
        pvalues: &[],
        query: b"table SEX",
        number: 0,
        cells: &[(3, 320), (1, 7)],
        text: b"release 0\nSEX,count\n1,3\n2,2\n.\n",
    },
    Row {
        name: "a_group_has_no_label",
        classes: CLASSES,
        threshold: 0,
        pvalues: &[],
        query: b"table AGE2 by AREA with labels",
        number: 1,
        cells: &[(1, 200), (0, 0), (1, 100), (2, 27)],
        text: b"release 1\nAGE2,AREA,count\nyoung,\"North, rural\",1\nyoung,South,0\n\
            old,\"North, rural\",1\nold,South,1\n.\n",
    },
    Row {
        name: "three_dimensions",
        classes: CLASSES,
        threshold: 0,
        pvalues: &[],
        query: b"table SEX by AREA by AGE2",
        number: 4294967295,
        cells: &[
            (1, 200),
            (1, 100),
            (0, 0),
            (1, 20),
            (0, 0),
            (0, 0),
            (0, 0),
            (1, 7),
        ],
        text: b"release 4294967295\nSEX,AREA,AGE2,count\n1,E1,young,1\n1,E1,old,1\n1,E2,young,0\n\
            1,E2,old,1\n2,E1,young,0\n2,E1,old,0\n2,E2,young,0\n2,E2,old,2\n.\n",
    },
    Row {
        name: "a_pvalue_that_was_set_comes_before_the_file",
        classes: CLASSES,
        threshold: 3,
        pvalues: &[(3, 64, 5), (3, 65, -3)],
        query: b"table SEX with totals",
        number: 1,
        cells: &[(3, 320), (1, 7), (4, 327)],
        text: b"release 1\nSEX,count\n1,8\n2,c\nTotal,6\n.\n",
    },
    Row {
        name: "a_pvalue_that_was_set_in_the_wide_key_range",
        classes: WIDE_CLASSES,
        threshold: 0,
        pvalues: &[(3, 320, -3), (3, 64, 5)],
        query: b"table SEX",
        number: 1,
        cells: &[(3, 320), (1, 7)],
        text: b"release 1\nSEX,count\n1,0\n2,2\n.\n",
    },
    Row {
        name: "labels_of_any_bytes",
        classes: OTHER,
        threshold: 8,
        pvalues: &[],
        query: b"table AREA by SEX with labels",
        number: 12,
        cells: &[
            (12, 0),
            (345, 0),
            (6789, 0),
            (10000, 0),
            (123456, 0),
            (1000000, 0),
            (99, 0),
            (7, 0),
        ],
        text: b"release 12\nAREA,SEX,count\n\"a \"\"b\"\" c\",Male,12\n\"a \"\"b\"\" c\",,345\n\
            ,Male,6789\n,,10000\nK\xc3\xb6ln and its surroundings,Male,123456\n\
            K\xc3\xb6ln and its surroundings,,1000000\n\"x,y\",Male,99\n\"x,y\",,c\n.\n",
    },
    Row {
        name: "an_empty_label_comes_first",
        classes: OTHER,
        threshold: 1,
        pvalues: &[],
        query: b"table SEX with totals with labels",
        number: 0,
        cells: &[(9, 0), (10, 0), (0, 0)],
        text: b"release 0\nSEX,count\nMale,9\n,10\nTotal,c\n.\n",
    },
];

fn rows() -> &'static [Row] {
    &ROWS
}

fn setup_of(alloc: Global, row: &Row) -> Result<Setup, Memory> {
    let schema = schema_of(alloc, row.classes, Some(RECODES))?;
    let ptable = ptable(alloc, schema.keys())?;
    Ok(Setup {
        schema,
        ptable,
        units: None,
    })
}

// The rules of a row. A pvalue that may not be set fails the test: it is told as want of memory.
fn rules_of(alloc: Global, row: &Row) -> Result<Rules, Memory> {
    let mut rules = Rules::new(alloc, row.threshold);
    for set in row.pvalues {
        let (at, key, pvalue) = *set;
        if !may_be_set(at, key, pvalue) {
            return Err(Memory);
        }
        rules.set(at, key, pvalue)?;
    }
    Ok(rules)
}

// Whether a row's query prints the row's text.
fn prints(
    alloc: Global,
    setup: &Setup,
    rules: &Rules,
    row: &Row,
    cells: &[Cell],
) -> Result<bool, Memory>
    requires { All (λ cell. cell.count ≤ MOST_PERSONS) cells.now }
{
    let query = query_of(alloc, &setup.schema, row.query)?;
    let text = table_text(alloc, setup, rules, &query, row.number, cells)?;
    Ok(text.as_slice() == row.text)
}

// Whether a row's text is written in one write, by a sink that has room for it.
fn writes(
    alloc: Global,
    setup: &Setup,
    rules: &Rules,
    row: &Row,
    cells: &[Cell],
) -> Result<bool, Memory>
    requires { All (λ cell. cell.count ≤ MOST_PERSONS) cells.now }
{
    let query = query_of(alloc, &setup.schema, row.query)?;
    let mut sink = CountingSink::new(alloc, row.text.len())?;
    let wrote = write_table(alloc, setup, rules, &query, row.number, cells, &mut sink)?;
    Ok(wrote == Wrote::All && sink.taken() == row.text && sink.writes() == 1)
}

// Whether a sink of so many bytes takes the first ones of a row's text, and then fails.
fn is_cut(
    alloc: Global,
    setup: &Setup,
    rules: &Rules,
    query: &Query,
    row: &Row,
    cells: &[Cell],
    bound: usize,
) -> Result<bool, Memory>
    requires names { All (IsName setup.now.schema) query.now.dimensions }
    requires few { All (λ cell. cell.count ≤ MOST_PERSONS) cells.now }
{
    let mut sink = MemSink::new(alloc, bound)?;
    let wrote = write_table(alloc, setup, rules, query, row.number, cells, &mut sink)?;
    let fits = row.text.len().min(bound);
    let all = wrote == Wrote::All;
    Ok(all == (fits == row.text.len()) && sink.taken() == &row.text[..fits])
}

// Whether that is so for each number of bytes below 200.
fn is_cut_anywhere(
    alloc: Global,
    setup: &Setup,
    rules: &Rules,
    row: &Row,
    cells: &[Cell],
) -> Result<bool, Memory>
    requires { All (λ cell. cell.count ≤ MOST_PERSONS) cells.now }
{
    let query = query_of(alloc, &setup.schema, row.query)?;
    for bound in 0..200 {
        if !is_cut(alloc, setup, rules, &query, row, cells, bound)? {
            return Ok(false);
        }
    }
    Ok(true)
}

// Whether both are so over these cells.
fn is_right(
    alloc: Global,
    setup: &Setup,
    rules: &Rules,
    row: &Row,
    cells: &[Cell],
) -> Result<bool, Memory>
    requires { All (λ cell. cell.count ≤ MOST_PERSONS) cells.now }
{
    Ok(
        prints(alloc, setup, rules, row, cells)?
            && is_cut_anywhere(alloc, setup, rules, row, cells)?,
    )
}

fn is_so_by(alloc: Global, setup: &Setup, rules: &Rules, row: &Row) -> Result<bool, Memory> {
    let cells = few_cells(alloc, row.cells)?;
    is_right(alloc, setup, rules, row, &cells)
}

fn is_so_over(alloc: Global, setup: &Setup, row: &Row) -> Result<bool, Memory> {
    let rules = rules_of(alloc, row)?;
    is_so_by(alloc, setup, &rules, row)
}

fn is_so(alloc: Global, row: &Row) -> Result<bool, Memory> {
    let setup = setup_of(alloc, row)?;
    is_so_over(alloc, &setup, row)
}

#[test]
fn worked_tables(rt: HostRuntime) -> Result<(), Fail> {
    for row in rows() {
        assert!(&rt; is_so(rt.alloc(), row)?, "{}", row.name);
    }
    Ok(())
}

fn is_written_by(alloc: Global, setup: &Setup, rules: &Rules, row: &Row) -> Result<bool, Memory> {
    let cells = few_cells(alloc, row.cells)?;
    writes(alloc, setup, rules, row, &cells)
}

fn is_written_over(alloc: Global, setup: &Setup, row: &Row) -> Result<bool, Memory> {
    let rules = rules_of(alloc, row)?;
    is_written_by(alloc, setup, &rules, row)
}

fn is_written(alloc: Global, row: &Row) -> Result<bool, Memory> {
    let setup = setup_of(alloc, row)?;
    is_written_over(alloc, &setup, row)
}

#[test]
fn ample_memory_is_enough(rt: HostRuntime) -> Result<(), Fail> {
    for row in rows() {
        assert!(&rt; is_written(rt.alloc(), row)?, "{}", row.name);
    }
    Ok(())
}
