// The cube of a release over one variable, past a gate, in parts, and from cubes over more
// variables, with ample memory.

ghost use Rattle.std.specs.Prelude.{◌≡◌, ◌<◌, IfOk};
ghost use Rattle.tb_base.specs.Records.{AllFit};
ghost use Rattle.tb_core.specs.Desks.{HasCube};
ghost use Rattle.tb_cube.specs.Cubes.{Holds};
ghost use Rattle.tb_model.specs.Schemas.{shape_of};

use super::making::add;
use super::sets::{age_by_sex, all_variables, sex};
use std::alloc::Global;
use std::marker::Brand;
use std::sync::ledger::{Blank, Ledger};
use std::test::Fail;
use std::thread::Threads;
use tb_base::{Cell, MOST_PERSONS, Memory, People, Rules, Steps, VarSet};
use tb_build::{Gate, Open, build, build_in_parts};
use tb_cube::{Cube, narrow};
use tb_release::{Release, records_fit};
use tb_schema::Schema;
use tb_small_values::{release, schema};

// A gate that counts how often it is reached.
#[derive(Drop)]
struct Counted {
    times: u32,
}

impl Gate for Counted {
    ghost HasReached = { λ _ _ _. Unit {0} };

    fn reach<L: Ledger>(&mut self, _steps: &Steps<L>) {
        self.times = self.times.saturating_add(1);
    }
}

// The cells of SEX: 200 + 100 + 20 = 320.
fn worked() -> [Cell; 2] {
    [Cell { count: 3, key: 320 }, Cell { count: 1, key: 7 }]
}

// As many persons as are counted in parts where there are several processors.
const MANY: u32 = 250_000;

// By turns they are of the second category of SEX with key 1, and of the first with key 0; so
// 125,000 are of each, and 125,000 - 30 * 4,096 = 2,120.
fn many_worked() -> [Cell; 2] {
    let each = MANY / 2;
    [
        Cell {
            count: each,
            key: 0,
        },
        Cell {
            count: each,
            key: 2_120,
        },
    ]
}

// 2,500 of 5,000 are of each.
fn thousands_worked() -> [Cell; 2] {
    [
        Cell {
            count: 2_500,
            key: 0,
        },
        Cell {
            count: 2_500,
            key: 2_500,
        },
    ]
}

// The persons from 1 to this number.
pub(crate) fn people_up_to(alloc: Global, last: u32) -> Result<People, Memory> {
    let mut people = People::with_room(alloc, last as usize);
    for person in 1..=last {
        let second = (person % 2) as u16;
        add(alloc, &mut people, person, second, &[second, 0, 0])?;
    }
    Ok(people)
}

// Release 0 of persons who fit the schema.
pub(crate) fn first(alloc: Global, schema: &Schema, people: People) -> Result<Release, Memory>
    ensures { IfOk result (λ release. AllFit (shape_of schema.now) release.records) }
{
    if !records_fit(schema.shape(), people.all()) {
        return Err(Memory);
    }
    if people.len() > MOST_PERSONS {
        return Err(Memory);
    }
    let release = Release::first(alloc, MOST_PERSONS, people, Rules::new(alloc, 0))?;
    Ok(release)
}

// Whether the cells of SEX are those that are wanted, and the gate was reached once.
fn is_right<L: Ledger, R: Threads + Sync>(
    blank: Blank,
    rt: &R,
    alloc: Global,
    schema: &Schema,
    release: &Release,
    want: &[Cell],
) -> Result<bool, Memory>
    requires ledger { blank.name ≡ L.name }
    requires parts { blank.parts ≡ L.parts }
    requires some { 0 < L.parts }
    requires fit { AllFit (shape_of schema.now) release.now.records }
{
    let vars = sex(alloc, schema.shape())?;
    let mut gate = Counted { times: 0 };
    let mut steps = Steps::<L>::new(blank);
    let shape = schema.shape();
    let cube = build(rt, alloc, shape, release, &vars, &mut gate, &mut steps)?;
    Ok(gate.times == 1 && cube.as_slice() == want)
}

// Whether the cells of SEX are those that are wanted, in each number of parts up to seven.
fn is_right_in_parts<L: Ledger, R: Threads + Sync>(
    blank: Blank,
    rt: &R,
    alloc: Global,
    schema: &Schema,
    release: &Release,
    want: &[Cell],
) -> Result<bool, Memory>
    requires ledger { blank.name ≡ L.name }
    requires parts { blank.parts ≡ L.parts }
    requires some { 0 < L.parts }
    requires fit { AllFit (shape_of schema.now) release.now.records }
{
    let vars = sex(alloc, schema.shape())?;
    let mut steps = Steps::<L>::new(blank);
    let shape = schema.shape();
    for parts in 0..8 {
        let cube = build_in_parts(rt, alloc, shape, release, &vars, parts, &mut steps)?;
        if cube.as_slice() != want {
            return Ok(false);
        }
    }
    Ok(true)
}

// Whether those of a release's cube, narrowed to SEX, are the cells that are wanted.
fn is_narrowed(alloc: Global, cube: &Cube, release: &Release, want: &[Cell]) -> Result<bool, Memory>
    requires fit { AllFit cube.now.shape release.now.records }
    requires holds { Holds cube.now release.now.records }
{
    release.soundness();
    let vars = sex(alloc, cube.shape())?;
    if !cube.vars().includes(&vars) {
        return Err(Memory);
    }
    let fewer = narrow(alloc, cube, &vars)?;
    Ok(fewer.as_slice() == want)
}

// The same of the cube over these variables.
fn is_right_narrowed<L: Ledger, R: Threads + Sync>(
    blank: Blank,
    rt: &R,
    alloc: Global,
    schema: &Schema,
    release: &Release,
    vars: &VarSet,
    want: &[Cell],
) -> Result<bool, Memory>
    requires ledger { blank.name ≡ L.name }
    requires parts { blank.parts ≡ L.parts }
    requires some { 0 < L.parts }
    requires fit { AllFit (shape_of schema.now) release.now.records }
    requires cube { HasCube (shape_of schema.now) vars.now }
{
    let shape = schema.shape();
    let mut steps = Steps::<L>::new(blank);
    let cube = build(rt, alloc, shape, release, vars, &mut Open, &mut steps)?;
    is_narrowed(alloc, &cube, release, want)
}

// The same with a counter of its own.
fn narrows_rightly<R: Threads + Sync>(
    rt: &R,
    alloc: Global,
    schema: &Schema,
    release: &Release,
    vars: &VarSet,
    want: &[Cell],
) -> Result<bool, Memory>
    requires fit { AllFit (shape_of schema.now) release.now.records }
    requires cube { HasCube (shape_of schema.now) vars.now }
{
    is_right_narrowed::<Brand, R>(Blank::new(1), rt, alloc, schema, release, vars, want)
}

// The same of AGE by SEX, and of all variables.
fn are_right_narrowed<R: Threads + Sync>(
    rt: &R,
    alloc: Global,
    schema: &Schema,
    release: &Release,
    want: &[Cell],
) -> Result<bool, Memory>
    requires { AllFit (shape_of schema.now) release.now.records }
{
    let two = age_by_sex(alloc, schema.shape())?;
    let all = all_variables(alloc, schema.shape())?;
    Ok(
        narrows_rightly(rt, alloc, schema, release, &two, want)?
            && narrows_rightly(rt, alloc, schema, release, &all, want)?,
    )
}

// Whether the cells of SEX are those that are wanted, in whatever way their cube is made.
pub(crate) fn are_right<R: Threads + Sync>(
    rt: &R,
    alloc: Global,
    schema: &Schema,
    release: &Release,
    want: &[Cell],
) -> Result<bool, Memory>
    requires { AllFit (shape_of schema.now) release.now.records }
{
    Ok(
        is_right::<Brand, R>(Blank::new(1), rt, alloc, schema, release, want)?
            && is_right_in_parts::<Brand, R>(Blank::new(1), rt, alloc, schema, release, want)?
            && are_right_narrowed(rt, alloc, schema, release, want)?,
    )
}

// Release 0 of so many persons.
fn many(alloc: Global, schema: &Schema, persons: u32) -> Result<Release, Memory>
    ensures { IfOk result (λ release. AllFit (shape_of schema.now) release.records) }
{
    first(alloc, schema, people_up_to(alloc, persons)?)
}

// Whether that is so of the four persons, and of many.
fn four_are_right<R: Threads + Sync>(
    rt: &R,
    alloc: Global,
    schema: &Schema,
) -> Result<bool, Memory> {
    let release = release(alloc, schema)?;
    are_right(rt, alloc, schema, &release, &worked())
}

fn many_are_right<R: Threads + Sync>(
    rt: &R,
    alloc: Global,
    schema: &Schema,
) -> Result<bool, Memory> {
    let release = many(alloc, schema, MANY)?;
    is_right::<Brand, R>(Blank::new(1), rt, alloc, schema, &release, &many_worked())
}

// Whether that is so of 5,000 persons, in each number of parts.
fn thousands_are_right<R: Threads + Sync>(
    rt: &R,
    alloc: Global,
    schema: &Schema,
) -> Result<bool, Memory> {
    let release = many(alloc, schema, 5_000)?;
    is_right_in_parts::<Brand, R>(
        Blank::new(1),
        rt,
        alloc,
        schema,
        &release,
        &thousands_worked(),
    )
}

// The same over the small schema.
fn is_right_of_four<R: Threads + Sync>(rt: &R, alloc: Global) -> Result<bool, Memory> {
    let schema = schema(alloc)?;
    four_are_right(rt, alloc, &schema)
}

fn is_right_of_many<R: Threads + Sync>(rt: &R, alloc: Global) -> Result<bool, Memory> {
    let schema = schema(alloc)?;
    Ok(many_are_right(rt, alloc, &schema)? && thousands_are_right(rt, alloc, &schema)?)
}

#[test]
fn ample_memory_is_enough(rt: HostRuntime) -> Result<(), Fail> {
    assert!(rt; is_right_of_four(&rt, rt.alloc())?);
    Ok(())
}

#[test]
fn many_persons_are_counted(rt: HostRuntime) -> Result<(), Fail> {
    assert!(rt; is_right_of_many(&rt, rt.alloc())?);
    Ok(())
}
