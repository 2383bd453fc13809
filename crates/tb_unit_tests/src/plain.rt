// The cells of dwellings of many persons, who live by a rule, beside a plain count of them.

ghost use Rattle.std.specs.Prelude.{IfOk};
ghost use Rattle.tb_base.specs.Records.{AllFit};
ghost use Rattle.tb_model.specs.Schemas.{shape_of};

use crate::making::{DWELLINGS, LINKS, add_pair, cells_of, plan_of, units_in};
use std::alloc::Global;
use std::test::Fail;
use tb_base::{Cell, Codes, MOST_PERSONS, Memory, People, Record, Rules};
use tb_plan::Plan;
use tb_release::{Release, records_fit};
use tb_schema::Schema;
use tb_small_values::schema;

// How many persons there are, up to which person they have links, in how many dwellings they live,
// and whether the links go from the last person to the first.
struct Size {
    persons: u32,
    linked: u32,
    homes: u32,
    backwards: bool,
}

// The dwelling of a person, or 0 for none: each seventh has none.
fn home_of(person: u32, homes: u32) -> u32 {
    if person % 7 == 0 {
        0
    } else {
        (person % homes.max(1)).saturating_add(1)
    }
}

fn key_of(dwelling: u32) -> u16 {
    (dwelling % 4_093) as u16
}

// The categories of SEX, AGE and AREA of a person.
fn codes_of(person: u32) -> [u16; 3] {
    [
        (person / 7 % 2) as u16,
        (person / 11 % 3) as u16,
        (person / 301 % 2) as u16,
    ]
}

// The dwellings in which they live, and ten more.
fn dwellings_file(alloc: Global, size: &Size) -> Result<Vec<u8>, Memory> {
    let mut text = Vec::from_slice(alloc, DWELLINGS)?;
    for dwelling in 1..=size.homes.saturating_add(10) {
        add_pair(&mut text, dwelling, u32::from(key_of(dwelling)))?;
    }
    Ok(text)
}

fn add_link(text: &mut Vec<u8>, person: u32, home: u32) -> Result<(), Memory> {
    if home == 0 {
        return Ok(());
    }
    add_pair(text, person, home)
}

fn links_file(alloc: Global, size: &Size) -> Result<Vec<u8>, Memory> {
    let mut text = Vec::from_slice(alloc, LINKS)?;
    for i in 1..=size.linked {
        let person = if size.backwards {
            (size.linked - i).saturating_add(1)
        } else {
            i
        };
        add_link(&mut text, person, home_of(person, size.homes))?;
    }
    Ok(text)
}

// Adds a record. One that can't be added fails the test: it is told as want of memory.
fn add_record(people: &mut People, record: Record) -> Result<(), Memory> {
    match people.add(record) {
        Ok(_) => Ok(()),
        Err(_) => Err(Memory),
    }
}

fn add_person(alloc: Global, people: &mut People, person: u32) -> Result<(), Memory> {
    let codes = Codes::of(alloc, &codes_of(person))?;
    add_record(
        people,
        Record {
            person,
            key: 0,
            codes,
        },
    )
}

fn people_up_to(alloc: Global, last: u32) -> Result<People, Memory> {
    let mut people = People::with_room(alloc, last as usize);
    for person in 1..=last {
        add_person(alloc, &mut people, person)?;
    }
    Ok(people)
}

// Release 0 of persons who fit the schema.
fn first(alloc: Global, schema: &Schema, people: People) -> Result<Release, Memory>
    ensures { IfOk result (λ release. AllFit (shape_of schema.now) release.records) }
{
    if !records_fit(schema.shape(), people.all()) {
        return Err(Memory);
    }
    if people.len() > MOST_PERSONS {
        return Err(Memory);
    }
    let release = Release::first(alloc, MOST_PERSONS, people, Rules::new(alloc, 0))?;
    Ok(release)
}

// Whether a category falls in an entry of a dimension: the last of them is Total.
fn falls(entry: usize, categories: usize, code: u16) -> bool {
    entry == categories || entry == code as usize
}

// Whether a person falls in place i of AREA by AGE by SEX. There are 3 * 4 * 3 = 36 places, and
// the last dimension goes fastest.
fn lies(person: u32, i: usize) -> bool {
    let [sex, age, area] = codes_of(person);
    falls(i / 12, 2, area) && falls(i / 3 % 4, 3, age) && falls(i % 3, 2, sex)
}

fn see(seen: &mut [bool], home: usize) {
    if home < seen.len() {
        seen[home] = true;
    }
}

// Sees the dwelling of each person in a place.
fn see_homes(seen: &mut [bool], size: &Size, i: usize) {
    for person in 1..=size.persons.min(size.linked) {
        if lies(person, i) {
            see(seen, home_of(person, size.homes) as usize);
        }
    }
}

// The cell of those of the dwellings that were seen.
fn count_seen(seen: &[bool], homes: u32) -> Cell {
    let mut cell = Cell::empty();
    for d in 1..=homes {
        if seen.get(d as usize) == Some(&true) {
            cell.put(key_of(d));
        }
    }
    cell
}

fn plain_cell(alloc: Global, size: &Size, i: usize) -> Result<Cell, Memory> {
    let mut seen = vec![in alloc; false; size.homes as usize + 1]?;
    see_homes(&mut seen, size, i);
    Ok(count_seen(&seen, size.homes))
}

// The first place whose cell isn't the plain one. There are as many places as are wanted.
fn wrong_place(alloc: Global, size: &Size, cells: &[Cell]) -> Result<Option<usize>, Memory> {
    for (i, cell) in cells.iter().enumerate() {
        if plain_cell(alloc, size, i)? != *cell {
            return Ok(Some(i));
        }
    }
    if cells.len() == 36 {
        Ok(None)
    } else {
        Ok(Some(cells.len()))
    }
}

fn wrong_of(
    alloc: Global,
    plan: &Plan,
    release: &Release,
    size: &Size,
    dwellings: &[u8],
    links: &[u8],
) -> Result<Option<usize>, Memory>
    requires { AllFit plan.now.shape release.now.records }
{
    let units = units_in(alloc, dwellings, links)?;
    let cells = cells_of(alloc, &units, plan, release)?;
    wrong_place(alloc, size, cells.as_slice())
}

fn wrong_in_files(
    alloc: Global,
    plan: &Plan,
    release: &Release,
    size: &Size,
) -> Result<Option<usize>, Memory>
    requires { AllFit plan.now.shape release.now.records }
{
    let dwellings = dwellings_file(alloc, size)?;
    let links = links_file(alloc, size)?;
    wrong_of(
        alloc,
        plan,
        release,
        size,
        dwellings.as_slice(),
        links.as_slice(),
    )
}

fn wrong_of_release(
    alloc: Global,
    schema: &Schema,
    release: &Release,
    size: &Size,
) -> Result<Option<usize>, Memory>
    requires { AllFit (shape_of schema.now) release.now.records }
{
    let plan = plan_of(alloc, schema, b"table AREA by AGE by SEX with totals")?;
    wrong_in_files(alloc, &plan, release, size)
}

fn wrong_over(alloc: Global, schema: &Schema, size: &Size) -> Result<Option<usize>, Memory> {
    let release = first(alloc, schema, people_up_to(alloc, size.persons)?)?;
    wrong_of_release(alloc, schema, &release, size)
}

fn wrong_of_small(alloc: Global, size: &Size) -> Result<Option<usize>, Memory> {
    let schema = schema(alloc)?;
    wrong_over(alloc, &schema, size)
}

// Some links are of no person.
static HUNDREDS: Size = Size {
    persons: 1_000,
    linked: 1_200,
    homes: 300,
    backwards: true,
};

// Some persons have no link, and their records lie in many pages.
static THOUSANDS: Size = Size {
    persons: 15_000,
    linked: 14_000,
    homes: 5_000,
    backwards: false,
};

fn hundreds() -> &'static Size {
    &HUNDREDS
}

fn thousands() -> &'static Size {
    &THOUSANDS
}

#[test]
fn hundreds_of_dwellings(rt: HostRuntime) -> Result<(), Fail> {
    assert_eq!(rt; wrong_of_small(rt.alloc(), hundreds())?, None);
    Ok(())
}

#[test]
fn thousands_of_dwellings(rt: HostRuntime) -> Result<(), Fail> {
    assert_eq!(rt; wrong_of_small(rt.alloc(), thousands())?, None);
    Ok(())
}
