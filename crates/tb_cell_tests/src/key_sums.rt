// Cells whose key sum passes 4,095: 4,000 + 100 + 20 = 4,120, and 4,120 - 4,096 = 24. Keys at the
// edge of what fits.

ghost use Rattle.std.specs.Prelude.{◌<◌, IfOk};
ghost use Rattle.tb_base.specs.declared.keys.TheConstants.{MOST_KEYS};
ghost use Rattle.tb_base.specs.Records.{AllFit};
ghost use Rattle.tb_model.specs.Schemas.{shape_of};

use super::cubes::{are_right, first};
use super::making::add;
use std::alloc::Global;
use std::test::Fail;
use std::thread::Threads;
use tb_base::{Cell, Codes, Memory, People};
use tb_release::{Release, record_fits};
use tb_schema::Schema;
use tb_small_values::schema;

// The cell of three records of these keys.
const THREE: Cell = Cell { count: 3, key: 24 };

// The cell of some keys, put in one after another.
fn cell_of(keys: &[u16]) -> Cell {
    let mut cell = Cell::empty();
    for key in keys {
        cell.put(*key);
    }
    cell
}

// A cell without a record of this key.
fn without(cell: Cell, key: u16) -> Cell
    requires some { 0 < cell.count }
    requires key { key < MOST_KEYS }
{
    let mut left = cell;
    left.take_out(key);
    left
}

#[test]
fn sums_that_pass_the_largest_key(rt: HostRuntime) {
    assert_eq!(rt; cell_of(&[4_000, 100, 20]), THREE);
    assert_eq!(rt; cell_of(&[4_000]).merge(cell_of(&[100, 20])), THREE);
    assert_eq!(rt; without(THREE, 4_000), Cell { count: 2, key: 120 });
    assert_eq!(rt;
        without(THREE, 100),
        Cell {
            count: 2,
            key: 4_020
        }
    );
}

// The four persons of the small microdata, of whom the first has another key.
fn people_with_keys(alloc: Global) -> Result<People, Memory> {
    let mut people = People::with_room(alloc, 4);
    add(alloc, &mut people, 101, 4_000, &[0, 0, 0])?;
    add(alloc, &mut people, 102, 100, &[0, 1, 0])?;
    add(alloc, &mut people, 103, 20, &[0, 2, 1])?;
    add(alloc, &mut people, 104, 7, &[1, 1, 1])?;
    Ok(people)
}

fn release_with_keys(alloc: Global, schema: &Schema) -> Result<Release, Memory>
    ensures { IfOk result (λ release. AllFit (shape_of schema.now) release.records) }
{
    first(alloc, schema, people_with_keys(alloc)?)
}

// Whether the cells of SEX are those of three persons and of one.
fn cubes_are_right<R: Threads + Sync>(
    rt: &R,
    alloc: Global,
    schema: &Schema,
) -> Result<bool, Memory> {
    let release = release_with_keys(alloc, schema)?;
    are_right(
        rt,
        alloc,
        schema,
        &release,
        &[THREE, Cell { count: 1, key: 7 }],
    )
}

fn cubes_are_right_over_small<R: Threads + Sync>(rt: &R, alloc: Global) -> Result<bool, Memory> {
    let schema = schema(alloc)?;
    cubes_are_right(rt, alloc, &schema)
}

#[test]
fn sums_of_cubes_that_pass_the_largest_key(rt: HostRuntime) -> Result<(), Fail> {
    assert!(rt; cubes_are_right_over_small(&rt, rt.alloc())?);
    Ok(())
}

// Whether a record with this key, and the first category of each variable, fits the small shape.
fn fits(alloc: Global, schema: &Schema, key: u16) -> Result<bool, Memory> {
    let codes = Codes::of(alloc, &[0, 0, 0])?;
    Ok(record_fits(schema.shape(), key, &codes))
}

// Of the largest key, and of one more.
fn fit_over_small(alloc: Global) -> Result<(bool, bool), Memory> {
    let schema = schema(alloc)?;
    Ok((fits(alloc, &schema, 4_095)?, fits(alloc, &schema, 4_096)?))
}

#[test]
fn keys_below_the_largest_key_range_fit(rt: HostRuntime) -> Result<(), Fail> {
    assert_eq!(rt; fit_over_small(rt.alloc())?, (true, false));
    Ok(())
}
