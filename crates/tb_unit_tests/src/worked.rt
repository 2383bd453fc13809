// The cells of tables of dwellings over the small setup, worked by hand.

ghost use Rattle.std.specs.Prelude.{IfOk};
ghost use Rattle.tb_base.specs.Records.{AllFit};
ghost use Rattle.tb_model.specs.Schemas.{shape_of};

use crate::making::{DWELLINGS, LINKS, cells_of, file_of, plan_of, units_in};
use std::alloc::Global;
use std::test::Fail;
use tb_base::{Cell, Memory};
use tb_plan::Plan;
use tb_release::{EditFault, Release, next};
use tb_schema::Schema;
use tb_small_values::{edits_of, release, schema};

// The records of dwellings and of links, a query's line, and of each place how many dwellings it
// has and the sum of their keys.
type Case = (
    &'static [u8],
    &'static [u8],
    &'static [u8],
    &'static [(u32, u16)],
);

// 50 + 60 = 110. Of the persons 101 to 104 the first three are of SEX 1, and the first two are in
// E1. The AGE of the four is 0-15, 16-64, 65+ and 16-64.
static CASES: [Case; 16] = [
    // Dwelling 1 has a person of SEX 1, dwelling 2 one of each.
    (
        b"1,50\n2,60\n",
        b"101,1\n102,1\n103,2\n104,2\n",
        b"table SEX with totals",
        &[(2, 110), (1, 60), (2, 110)],
    ),
    (
        b"1,50\n2,60\n",
        b"101,1\n102,1\n103,2\n104,2\n",
        b"table SEX",
        &[(2, 110), (1, 60)],
    ),
    // Records in other orders.
    (
        b"2,60\n1,50\n",
        b"104,2\n102,1\n103,2\n101,1\n",
        b"table SEX with totals",
        &[(2, 110), (1, 60), (2, 110)],
    ),
    // SEX and AREA: 1 in E1 has dwelling 1, 1 in E2 and 2 in E2 have dwelling 2, 2 in E1 none.
    (
        b"1,50\n2,60\n",
        b"101,1\n102,1\n103,2\n104,2\n",
        b"table SEX by AREA with totals",
        &[
            (1, 50),
            (1, 60),
            (2, 110),
            (0, 0),
            (1, 60),
            (1, 60),
            (1, 50),
            (1, 60),
            (2, 110),
        ],
    ),
    (
        b"1,50\n2,60\n",
        b"101,1\n102,1\n103,2\n104,2\n",
        b"table SEX by AREA",
        &[(1, 50), (1, 60), (0, 0), (1, 60)],
    ),
    // AGE: 0-15 has dwelling 1, 16-64 both, 65+ dwelling 2.
    (
        b"1,50\n2,60\n",
        b"101,1\n102,1\n103,2\n104,2\n",
        b"table AGE with totals",
        &[(1, 50), (2, 110), (1, 60), (2, 110)],
    ),
    // The group young has 0-15 alone.
    (
        b"1,50\n2,60\n",
        b"101,1\n102,1\n103,2\n104,2\n",
        b"table AGE2 with totals",
        &[(1, 50), (2, 110), (2, 110)],
    ),
    // The persons who pass are 102 and 104.
    (
        b"1,50\n2,60\n",
        b"101,1\n102,1\n103,2\n104,2\n",
        b"table SEX where AGE in (16-64) with totals",
        &[(1, 50), (1, 60), (2, 110)],
    ),
    // And here 103 alone.
    (
        b"1,50\n2,60\n",
        b"101,1\n102,1\n103,2\n104,2\n",
        b"table SEX where AGE in (65+) with totals",
        &[(1, 60), (0, 0), (1, 60)],
    ),
    // One dwelling whose persons are in every category.
    (
        b"7,9\n",
        b"101,7\n102,7\n103,7\n104,7\n",
        b"table AGE with totals",
        &[(1, 9), (1, 9), (1, 9), (1, 9)],
    ),
    (
        b"7,9\n",
        b"101,7\n102,7\n103,7\n104,7\n",
        b"table SEX by AREA with totals",
        &[
            (1, 9),
            (1, 9),
            (1, 9),
            (0, 0),
            (1, 9),
            (1, 9),
            (1, 9),
            (1, 9),
            (1, 9),
        ],
    ),
    // Persons without a link, a dwelling without persons, one whose person isn't there.
    (
        b"1,50\n2,60\n3,70\n",
        b"103,2\n999,3\n",
        b"table SEX with totals",
        &[(1, 60), (0, 0), (1, 60)],
    ),
    (
        b"1,50\n2,60\n",
        b"",
        b"table SEX with totals",
        &[(0, 0), (0, 0), (0, 0)],
    ),
    (
        b"",
        b"",
        b"table SEX with totals",
        &[(0, 0), (0, 0), (0, 0)],
    ),
    // Each person in a dwelling of their own.
    (
        b"1,1\n2,2\n3,4\n4,8\n",
        b"101,1\n102,2\n103,3\n104,4\n",
        b"table AREA by SEX with totals",
        &[
            (2, 3),
            (0, 0),
            (2, 3),
            (1, 4),
            (1, 8),
            (2, 12),
            (3, 7),
            (1, 8),
            (4, 15),
        ],
    ),
    // 4,095 + 4,095 = 8,190, which is 4,096 + 4,094.
    (
        b"1,4095\n2,4095\n",
        b"101,1\n102,1\n103,2\n104,2\n",
        b"table SEX with totals",
        &[(2, 4094), (1, 4095), (2, 4094)],
    ),
];

fn cases() -> &'static [Case] {
    &CASES
}

fn are_cells(cells: &[Cell], want: &[(u32, u16)]) -> bool {
    if cells.len() != want.len() {
        return false;
    }
    for i in 0..cells.len() {
        if (cells[i].count, cells[i].key) != want[i] {
            return false;
        }
    }
    true
}

// Whether two files lead to the cells that are wanted.
fn lead_to(
    alloc: Global,
    plan: &Plan,
    release: &Release,
    dwellings: &[u8],
    links: &[u8],
    want: &[(u32, u16)],
) -> Result<bool, Memory>
    requires { AllFit plan.now.shape release.now.records }
{
    let units = units_in(alloc, dwellings, links)?;
    let cells = cells_of(alloc, &units, plan, release)?;
    Ok(are_cells(cells.as_slice(), want))
}

// The same with the files' headers before them.
fn records_lead_to(
    alloc: Global,
    plan: &Plan,
    release: &Release,
    case: &Case,
) -> Result<bool, Memory>
    requires { AllFit plan.now.shape release.now.records }
{
    let dwellings = file_of(alloc, DWELLINGS, case.0)?;
    let links = file_of(alloc, LINKS, case.1)?;
    lead_to(
        alloc,
        plan,
        release,
        dwellings.as_slice(),
        links.as_slice(),
        case.3,
    )
}

// Whether that is so of a case over a release.
fn is_right(alloc: Global, schema: &Schema, release: &Release, case: &Case) -> Result<bool, Memory>
    requires { AllFit (shape_of schema.now) release.now.records }
{
    let plan = plan_of(alloc, schema, case.2)?;
    records_lead_to(alloc, &plan, release, case)
}

// The place of the first case of which it isn't.
fn wrong_case(alloc: Global, schema: &Schema, release: &Release) -> Result<Option<usize>, Memory>
    requires { AllFit (shape_of schema.now) release.now.records }
{
    for (i, case) in cases().iter().enumerate() {
        if !is_right(alloc, schema, release, case)? {
            return Ok(Some(i));
        }
    }
    Ok(None)
}

fn wrong_case_over(alloc: Global, schema: &Schema) -> Result<Option<usize>, Memory> {
    let release = release(alloc, schema)?;
    wrong_case(alloc, schema, &release)
}

fn wrong_case_of_small(alloc: Global) -> Result<Option<usize>, Memory> {
    let schema = schema(alloc)?;
    wrong_case_over(alloc, &schema)
}

#[test]
fn worked_cells(rt: HostRuntime) -> Result<(), Fail> {
    assert_eq!(rt; wrong_case_of_small(rt.alloc())?, None);
    Ok(())
}

// Two edits, and a case over the release that they make of the four persons.
type Revised = ([&'static [u8]; 2], Case);

static REVISED: [Revised; 6] = [
    // Dwelling 1 is empty, dwelling 2 has a person of each.
    (
        [b"drop 101", b"drop 102"],
        (
            b"1,50\n2,60\n",
            b"101,1\n102,1\n103,2\n104,2\n",
            b"table SEX with totals",
            &[(1, 60), (1, 60), (1, 60)],
        ),
    ),
    // One person of dwelling 1 is left in E1.
    (
        [b"amend 101 AREA=E2", b"amend 104 SEX=1"],
        (
            b"1,50\n2,60\n",
            b"101,1\n102,1\n103,2\n104,2\n",
            b"table AREA with totals",
            &[(1, 50), (2, 110), (2, 110)],
        ),
    ),
    // And the last goes too.
    (
        [b"amend 101 AREA=E2", b"amend 102 AREA=E2"],
        (
            b"1,50\n2,60\n",
            b"101,1\n102,1\n103,2\n104,2\n",
            b"table AREA with totals",
            &[(0, 0), (2, 110), (2, 110)],
        ),
    ),
    // One of each dwelling in each area.
    (
        [b"amend 102 AREA=E2", b"amend 103 AREA=E1"],
        (
            b"1,50\n2,60\n",
            b"101,1\n102,1\n103,2\n104,2\n",
            b"table AREA with totals",
            &[(2, 110), (2, 110), (2, 110)],
        ),
    ),
    // A link waits for its person.
    (
        [b"drop 104", b"add 200 9 SEX=2 AGE=65+ AREA=E1"],
        (
            b"1,50\n2,60\n",
            b"101,1\n102,1\n103,2\n104,2\n200,1\n",
            b"table SEX with totals",
            &[(2, 110), (1, 50), (2, 110)],
        ),
    ),
    // It holds for a person who goes and comes again in another category.
    (
        [b"drop 103", b"add 103 20 SEX=2 AGE=65+ AREA=E1"],
        (
            b"1,50\n2,60\n",
            b"101,1\n102,1\n103,2\n104,2\n",
            b"table SEX with totals",
            &[(1, 50), (1, 60), (2, 110)],
        ),
    ),
];

fn revised() -> &'static [Revised] {
    &REVISED
}

// The next release after some lines.
fn lead(
    alloc: Global,
    schema: &Schema,
    old: &Release,
    lines: &[&[u8]],
) -> Result<Release, EditFault>
    requires { AllFit (shape_of schema.now) old.now.records }
    ensures { IfOk result (λ made. AllFit (shape_of schema.now) made.records) }
{
    let edits = edits_of(alloc, schema, lines)?;
    let (made, _) = next(alloc, schema.shape(), old, &edits)?;
    Ok(made)
}

// Whether a case is right over the release after its edits.
fn is_right_after(
    alloc: Global,
    schema: &Schema,
    old: &Release,
    row: &Revised,
) -> Result<bool, EditFault>
    requires { AllFit (shape_of schema.now) old.now.records }
{
    let made = lead(alloc, schema, old, &row.0)?;
    Ok(is_right(alloc, schema, &made, &row.1)?)
}

// The place of the first row of which it isn't.
fn wrong_row(alloc: Global, schema: &Schema, old: &Release) -> Result<Option<usize>, EditFault>
    requires { AllFit (shape_of schema.now) old.now.records }
{
    for (i, row) in revised().iter().enumerate() {
        if !is_right_after(alloc, schema, old, row)? {
            return Ok(Some(i));
        }
    }
    Ok(None)
}

fn wrong_row_over(alloc: Global, schema: &Schema) -> Result<Option<usize>, EditFault> {
    let old = release(alloc, schema)?;
    wrong_row(alloc, schema, &old)
}

fn wrong_row_of_small(alloc: Global) -> Result<Option<usize>, EditFault> {
    let schema = schema(alloc)?;
    wrong_row_over(alloc, &schema)
}

#[test]
fn worked_cells_of_next_releases(rt: HostRuntime) -> Result<(), Fail> {
    assert_eq!(rt; wrong_row_of_small(rt.alloc()).ok(), Some(None));
    Ok(())
}
