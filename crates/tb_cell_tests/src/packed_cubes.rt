// Cubes that are packed, or stay as they are: of all variables a quarter of the twelve cells is
// three, and of AGE by SEX one cell of the six is less than a quarter.

ghost use Rattle.std.specs.Prelude.{◌≡◌, ◌<◌, true, IfOk};
ghost use Rattle.tb_base.specs.Records.{AllFit};
ghost use Rattle.tb_core.specs.Desks.{HasCube};
ghost use Rattle.tb_model.specs.Schemas.{shape_of};

use super::cubes::first;
use super::making::add;
use super::sets::{age_by_sex, all_variables};
use std::alloc::Global;
use std::marker::Brand;
use std::sync::ledger::{Blank, Ledger};
use std::test::Fail;
use std::thread::Threads;
use tb_base::{Cell, Memory, People, Steps, VarSet};
use tb_build::{Open, build};
use tb_cube::Cube;
use tb_release::Release;
use tb_schema::Schema;
use tb_small_values::{release, schema};

// A person in each of the first so many cells.
fn people_of(alloc: Global, many: u16) -> Result<People, Memory> {
    let mut people = People::with_room(alloc, many as usize);
    for cell in 0..many {
        let codes = [cell / 6, cell / 2 % 3, cell % 2];
        add(alloc, &mut people, cell as u32, 7, &codes)?;
    }
    Ok(people)
}

// Whether this is the cell at a place.
fn is_at(cells: &[Cell], place: usize, cell: Cell) -> bool {
    match cells.get(place) {
        Some(one) => *one == cell,
        None => false,
    }
}

// Whether a cube has the cells of a dense one.
fn are_same(cube: &Cube, dense: &Cube) -> bool
    requires { dense.now.dense ≡ true }
{
    let cells = dense.as_slice();
    for place in 0..cube.cells() {
        if !is_at(cells, place, cube.cell(place)) {
            return false;
        }
    }
    cells.len() == cube.cells()
}

// The same, and of its dense copy.
fn has_cells(cube: &Cube, dense: &Cube) -> Result<bool, Memory>
    requires { dense.now.dense ≡ true }
{
    let copy = cube.copy()?;
    Ok(are_same(cube, dense) && copy.as_slice() == dense.as_slice())
}

// Whether a cube that was packed keeps so many cells, in the form that is wanted, and its cells are
// as before.
fn keeps(cube: &mut Cube, is_dense: bool, kept: usize) -> Result<bool, Memory> {
    let before = cube.copy()?;
    cube.pack()?;
    let same = has_cells(cube, &before)?;
    Ok(same && cube.is_dense() == is_dense && cube.kept() == kept)
}

// The same of the cube of a release over these variables.
fn keeps_of<L: Ledger, R: Threads + Sync>(
    blank: Blank,
    rt: &R,
    alloc: Global,
    schema: &Schema,
    release: &Release,
    vars: &VarSet,
    is_dense: bool,
    kept: usize,
) -> Result<bool, Memory>
    requires ledger { blank.name ≡ L.name }
    requires parts { blank.parts ≡ L.parts }
    requires some { 0 < L.parts }
    requires fit { AllFit (shape_of schema.now) release.now.records }
    requires cube { HasCube (shape_of schema.now) vars.now }
{
    let shape = schema.shape();
    let mut steps = Steps::<L>::new(blank);
    let mut cube = build(rt, alloc, shape, release, vars, &mut Open, &mut steps)?;
    keeps(&mut cube, is_dense, kept)
}

// The same with a counter of its own.
fn keeps_over<R: Threads + Sync>(
    rt: &R,
    alloc: Global,
    schema: &Schema,
    release: &Release,
    vars: &VarSet,
    is_dense: bool,
    kept: usize,
) -> Result<bool, Memory>
    requires fit { AllFit (shape_of schema.now) release.now.records }
    requires cube { HasCube (shape_of schema.now) vars.now }
{
    keeps_of::<Brand, R>(
        Blank::new(1),
        rt,
        alloc,
        schema,
        release,
        vars,
        is_dense,
        kept,
    )
}

// Release 0 where so many cells have a person.
fn release_of(alloc: Global, schema: &Schema, many: u16) -> Result<Release, Memory>
    ensures { IfOk result (λ release. AllFit (shape_of schema.now) release.records) }
{
    first(alloc, schema, people_of(alloc, many)?)
}

// The same of its cube over all variables.
fn keeps_of_cells<R: Threads + Sync>(
    rt: &R,
    alloc: Global,
    schema: &Schema,
    many: u16,
    is_dense: bool,
    kept: usize,
) -> Result<bool, Memory> {
    let release = release_of(alloc, schema, many)?;
    let vars = all_variables(alloc, schema.shape())?;
    keeps_over(rt, alloc, schema, &release, &vars, is_dense, kept)
}

// Whether the cube of AGE by SEX stays as it is where the four persons are in four cells, and keeps
// no cell where there is nobody.
fn four_are_dense<R: Threads + Sync>(
    rt: &R,
    alloc: Global,
    schema: &Schema,
) -> Result<bool, Memory> {
    let release = release(alloc, schema)?;
    let vars = age_by_sex(alloc, schema.shape())?;
    keeps_over(rt, alloc, schema, &release, &vars, true, 6)
}

fn nobody_is_packed<R: Threads + Sync>(
    rt: &R,
    alloc: Global,
    schema: &Schema,
) -> Result<bool, Memory> {
    let release = release_of(alloc, schema, 0)?;
    let vars = age_by_sex(alloc, schema.shape())?;
    keeps_over(rt, alloc, schema, &release, &vars, false, 0)
}

// The same over the small schema.
fn age_by_sex_is_right<R: Threads + Sync>(rt: &R, alloc: Global) -> Result<bool, Memory> {
    let schema = schema(alloc)?;
    Ok(four_are_dense(rt, alloc, &schema)? && nobody_is_packed(rt, alloc, &schema)?)
}

fn keeps_with<R: Threads + Sync>(
    rt: &R,
    alloc: Global,
    many: u16,
    is_dense: bool,
    kept: usize,
) -> Result<bool, Memory> {
    let schema = schema(alloc)?;
    keeps_of_cells(rt, alloc, &schema, many, is_dense, kept)
}

#[test]
fn a_quarter_of_the_cells_decides(rt: HostRuntime) -> Result<(), Fail> {
    assert!(rt; keeps_with(&rt, rt.alloc(), 0, false, 0)?);
    assert!(rt; keeps_with(&rt, rt.alloc(), 2, false, 2)?);
    assert!(rt; keeps_with(&rt, rt.alloc(), 3, false, 3)?);
    assert!(rt; keeps_with(&rt, rt.alloc(), 4, true, 12)?);
    Ok(())
}

#[test]
fn four_of_six_cells_are_too_many(rt: HostRuntime) -> Result<(), Fail> {
    assert!(rt; age_by_sex_is_right(&rt, rt.alloc())?);
    Ok(())
}
