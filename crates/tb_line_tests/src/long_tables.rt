// Tables whose text is longer than what is written at once.

ghost use Rattle.std.specs.Prelude.{◌≤◌, All, IfOk};
ghost use Rattle.tb_base.specs.declared.people.TheConstants.{MOST_PERSONS};
ghost use Rattle.tb_schema.specs.Names.{IsName};

use crate::counting::CountingSink;
use crate::making::{few_cells, ptable, query_of, schema_of};
use std::alloc::Global;
use std::test::Fail;
use tb_base::{Cell, Memory, Rules};
use tb_io::Wrote;
use tb_query::Query;
use tb_schema::Schema;
use tb_text::{Setup, table_text, write_table};

const DIGITS: &[u8] = b"0123456789";

// Adds the lines of a variable of a hundred categories.
fn add_hundred(classes: &mut Vec<u8>, name: &[u8]) -> Result<(), Memory> {
    for ten in DIGITS {
        for one in DIGITS {
            classes.extend_from_slice(name)?;
            classes.push(*ten)?;
            classes.push(*one)?;
            classes.extend_from_slice(b",\n")?;
        }
    }
    Ok(())
}

// Two variables of a hundred categories each.
fn large_classes(alloc: Global) -> Result<Vec<u8>, Memory> {
    let mut classes = Vec::from_slice(alloc, b"variable,code,label\n")?;
    add_hundred(&mut classes, b"A,")?;
    add_hundred(&mut classes, b"B,")?;
    Ok(classes)
}

fn large_schema(alloc: Global) -> Result<Schema, Memory> {
    let classes = large_classes(alloc)?;
    schema_of(alloc, &classes, None)
}

fn large_setup(alloc: Global) -> Result<Setup, Memory> {
    let schema = large_schema(alloc)?;
    let ptable = ptable(alloc, schema.keys())?;
    Ok(Setup {
        schema,
        ptable,
        units: None,
    })
}

// The cells of 10,000 places.
fn many_cells(alloc: Global) -> Result<Vec<Cell>, Memory>
    ensures { IfOk result (λ cells. All (λ cell. cell.count ≤ MOST_PERSONS) cells.items) }
{
    let mut counts = Vec::new(alloc);
    for count in 0..10_000 {
        counts.push((count, 0))?;
    }
    few_cells(alloc, &counts)
}

// Whether a text that is longer than the buffer is written in several writes of at most 64 KiB.
fn is_in_pieces(
    alloc: Global,
    setup: &Setup,
    rules: &Rules,
    query: &Query,
    cells: &[Cell],
    text: &[u8],
) -> Result<bool, Memory>
    requires names { All (IsName setup.now.schema) query.now.dimensions }
    requires few { All (λ cell. cell.count ≤ MOST_PERSONS) cells.now }
{
    let mut sink = CountingSink::new(alloc, text.len())?;
    let wrote = write_table(alloc, setup, rules, query, 0, cells, &mut sink)?;
    let several = sink.writes() > 1 && sink.longest() <= 65_536;
    Ok(wrote == Wrote::All && sink.taken() == text && several)
}

// Whether the table's text is longer than 64 KiB, and written so.
fn is_long_by(
    alloc: Global,
    setup: &Setup,
    rules: &Rules,
    query: &Query,
    cells: &[Cell],
) -> Result<bool, Memory>
    requires names { All (IsName setup.now.schema) query.now.dimensions }
    requires few { All (λ cell. cell.count ≤ MOST_PERSONS) cells.now }
{
    let text = table_text(alloc, setup, rules, query, 0, cells)?;
    Ok(text.len() > 65_536 && is_in_pieces(alloc, setup, rules, query, cells, &text)?)
}

// And so by rules that show each count as the file says.
fn is_long(alloc: Global, setup: &Setup, query: &Query, cells: &[Cell]) -> Result<bool, Memory>
    requires names { All (IsName setup.now.schema) query.now.dimensions }
    requires few { All (λ cell. cell.count ≤ MOST_PERSONS) cells.now }
{
    let rules = Rules::new(alloc, 0);
    is_long_by(alloc, setup, &rules, query, cells)
}

// Whether that is so of cells of 10,000 places.
fn is_long_of_many(alloc: Global, setup: &Setup, query: &Query) -> Result<bool, Memory>
    requires names { All (IsName setup.now.schema) query.now.dimensions }
{
    let cells = many_cells(alloc)?;
    is_long(alloc, setup, query, &cells)
}

// And so of the table of two variables of a hundred categories.
fn is_long_of_two(alloc: Global, setup: &Setup) -> Result<bool, Memory> {
    let query = query_of(alloc, &setup.schema, b"table A by B")?;
    is_long_of_many(alloc, setup, &query)
}

fn is_long_of_large(alloc: Global) -> Result<bool, Memory> {
    let setup = large_setup(alloc)?;
    is_long_of_two(alloc, &setup)
}

#[test]
fn long_table(rt: HostRuntime) -> Result<(), Fail> {
    assert!(&rt; is_long_of_large(rt.alloc())?);
    Ok(())
}
