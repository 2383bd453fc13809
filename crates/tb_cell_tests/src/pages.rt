// Pages of releases: how many records each has, and its stamp.

ghost use Rattle.std.specs.Prelude.{IfOk};
ghost use Rattle.tb_base.specs.Records.{AllFit};
ghost use Rattle.tb_model.specs.Schemas.{shape_of};

use crate::cubes::{first, people_up_to};
use std::alloc::Global;
use std::test::Fail;
use tb_base::{Codes, Memory};
use tb_release::{Edit, EditFault, Edits, Release, Sets, edits_fit, next};
use tb_schema::Schema;
use tb_small_values::schema;

// What is done with each person from one number to another.
#[derive(Clone, Copy)]
enum Deed {
    Add(u32, u32),
    Drop(u32, u32),
    Amend(u32, u32),
}

// The last of the first release's persons, who are numbered from 1; what each batch does; and of
// each page at the end how many records it has, and its stamp.
type Case = (u32, &'static [&'static [Deed]], &'static [(usize, u32)]);

static CASES: [Case; 13] = [
    (3_000, &[], &[(1_024, 0), (1_024, 0), (952, 0)]),
    (
        3_000,
        &[&[
            Deed::Drop(1, 1),
            Deed::Amend(2_500, 2_500),
            Deed::Add(3_001, 3_001),
        ]],
        &[(1_023, 1), (1_024, 0), (953, 1)],
    ),
    // Without records there is no page, and the first add makes one.
    (0, &[], &[]),
    (0, &[&[Deed::Add(1, 1)]], &[(1, 1)]),
    // A page that became empty stays, and no later batch touches it.
    (
        3_000,
        &[&[Deed::Drop(1_025, 2_048)], &[Deed::Amend(1, 1)]],
        &[(1_024, 2), (0, 1), (952, 0)],
    ),
    // The last page alone gets more, also where all are empty.
    (
        1_500,
        &[&[Deed::Drop(1, 1_500)], &[Deed::Add(2_000, 2_000)]],
        &[(0, 1), (1, 2)],
    ),
    // A full last page isn't touched.
    (
        2_048,
        &[&[Deed::Add(2_049, 2_049)]],
        &[(1_024, 0), (1_024, 0), (1, 1)],
    ),
    (
        2_000,
        &[&[Deed::Add(2_001, 2_050)]],
        &[(1_024, 0), (1_024, 1), (2, 1)],
    ),
    // A person goes and comes back, with the same key.
    (
        3_000,
        &[&[Deed::Drop(1, 1), Deed::Add(1, 1)]],
        &[(1_023, 1), (1_024, 0), (953, 1)],
    ),
    // A person is amended twice.
    (
        3_000,
        &[&[Deed::Amend(1_025, 1_025), Deed::Amend(1_025, 1_025)]],
        &[(1_024, 0), (1_024, 1), (952, 0)],
    ),
    // As many edits as a batch may have, all on one page.
    (
        3_000,
        &[&[
            Deed::Amend(1, 1_000),
            Deed::Amend(1, 1_000),
            Deed::Amend(1, 1_000),
            Deed::Amend(1, 1_000),
            Deed::Amend(1, 1_000),
            Deed::Amend(1, 1_000),
            Deed::Amend(1, 1_000),
            Deed::Amend(1, 1_000),
            Deed::Amend(1, 1_000),
            Deed::Amend(1, 1_000),
        ]],
        &[(1_024, 1), (1_024, 0), (952, 0)],
    ),
    (
        3_000,
        &[&[Deed::Drop(2_049, 3_000)], &[Deed::Drop(1, 2_048)]],
        &[(0, 2), (0, 2), (0, 1)],
    ),
    (
        3_000,
        &[
            &[Deed::Amend(1, 1)],
            &[Deed::Drop(1_500, 1_500)],
            &[Deed::Add(4_000, 4_000), Deed::Amend(2, 2)],
        ],
        &[(1_024, 3), (1_023, 2), (953, 3)],
    ),
];

fn cases() -> &'static [Case] {
    &CASES
}

fn edit_of(alloc: Global, deed: &Deed, person: u32) -> Result<Edit, Memory> {
    match deed {
        Deed::Add(_, _) => Ok(Edit::Add {
            person,
            key: (person % 2) as u16,
            codes: Codes::of(alloc, &[1, 0, 0])?,
        }),
        Deed::Drop(_, _) => Ok(Edit::Drop { person }),
        Deed::Amend(_, _) => Ok(Edit::Amend {
            person,
            sets: Sets::of(alloc, &[(1, 2)])?,
        }),
    }
}

fn span(deed: &Deed) -> (u32, u32) {
    match deed {
        Deed::Add(from, to) => (*from, *to),
        Deed::Drop(from, to) => (*from, *to),
        Deed::Amend(from, to) => (*from, *to),
    }
}

fn edits_of(alloc: Global, deeds: &[Deed]) -> Result<Edits, Memory> {
    let mut edits = Edits::new(alloc);
    for deed in deeds {
        let (from, to) = span(deed);
        for person in from..=to {
            if edits.push(edit_of(alloc, deed, person)?).is_err() {
                return Err(Memory);
            }
        }
    }
    Ok(edits)
}

// The next release after some deeds.
fn lead(alloc: Global, schema: &Schema, old: &Release, deeds: &[Deed]) -> Result<Release, EditFault>
    requires { AllFit (shape_of schema.now) old.now.records }
    ensures { IfOk result (λ made. AllFit (shape_of schema.now) made.records) }
{
    let edits = edits_of(alloc, deeds)?;
    if !edits_fit(schema.shape(), &edits) {
        return Err(EditFault::Memory);
    }
    let (made, _) = next(alloc, schema.shape(), old, &edits)?;
    Ok(made)
}

// The release after all batches.
fn led(alloc: Global, schema: &Schema, case: &Case) -> Result<Release, EditFault> {
    let mut release = first(alloc, schema, people_up_to(alloc, case.0)?)?;
    for deeds in case.1 {
        release = lead(alloc, schema, &release, deeds)?;
    }
    Ok(release)
}

// Whether these are the pages of a release, with so many records each and these stamps.
fn are_pages(release: &Release, want: &[(usize, u32)]) -> bool {
    if release.pages() != want.len() {
        return false;
    }
    for i in 0..release.pages() {
        if release.page(i) != want[i].0 || release.stamp(i) != want[i].1 {
            return false;
        }
    }
    true
}

fn is_right(alloc: Global, schema: &Schema, case: &Case) -> bool {
    match led(alloc, schema, case) {
        Ok(release) => are_pages(&release, case.2),
        Err(_) => false,
    }
}

// The place of the first case whose pages aren't these.
fn wrong_case(alloc: Global, schema: &Schema) -> Option<usize> {
    for (i, case) in cases().iter().enumerate() {
        if !is_right(alloc, schema, case) {
            return Some(i);
        }
    }
    None
}

fn wrong_case_of_small(alloc: Global) -> Result<Option<usize>, Memory> {
    let schema = schema(alloc)?;
    Ok(wrong_case(alloc, &schema))
}

#[test]
fn pages_after_batches(rt: HostRuntime) -> Result<(), Fail> {
    assert_eq!(rt; wrong_case_of_small(rt.alloc())?, None);
    Ok(())
}

// Whether each of four releases, each made while those before it stand, has its own pages: the
// last, the last two, the last three, all.
fn last_is_apart(alloc: Global, schema: &Schema, two: &Release) -> Result<bool, EditFault>
    requires { AllFit (shape_of schema.now) two.now.records }
{
    let three = lead(alloc, schema, two, &[Deed::Drop(2, 3), Deed::Add(1, 1)])?;
    Ok(are_pages(&three, &[(1_021, 3), (1_024, 0), (953, 3)]))
}

fn two_are_apart(alloc: Global, schema: &Schema, one: &Release) -> Result<bool, EditFault>
    requires { AllFit (shape_of schema.now) one.now.records }
{
    let two = lead(alloc, schema, one, &[Deed::Amend(2_500, 2_500)])?;
    let others = last_is_apart(alloc, schema, &two)?;
    Ok(others && are_pages(&two, &[(1_023, 1), (1_024, 0), (952, 2)]))
}

fn three_are_apart(alloc: Global, schema: &Schema, zero: &Release) -> Result<bool, EditFault>
    requires { AllFit (shape_of schema.now) zero.now.records }
{
    let one = lead(alloc, schema, zero, &[Deed::Drop(1, 1)])?;
    let others = two_are_apart(alloc, schema, &one)?;
    Ok(others && are_pages(&one, &[(1_023, 1), (1_024, 0), (952, 0)]))
}

fn are_apart(alloc: Global, schema: &Schema) -> Result<bool, EditFault> {
    let zero = first(alloc, schema, people_up_to(alloc, 3_000)?)?;
    let others = three_are_apart(alloc, schema, &zero)?;
    Ok(others && are_pages(&zero, &[(1_024, 0), (1_024, 0), (952, 0)]))
}

fn are_apart_over_small(alloc: Global) -> Result<bool, EditFault> {
    let schema = schema(alloc)?;
    are_apart(alloc, &schema)
}

#[test]
fn older_releases_stay(rt: HostRuntime) -> Result<(), Fail> {
    let right = matches!(are_apart_over_small(rt.alloc()), Ok(true));
    assert!(rt; right);
    Ok(())
}
