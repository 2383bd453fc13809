// Batches of edits over the small setup: how many persons they leave, or why they are refused.

ghost use Rattle.std.specs.Prelude.{IfOk};
ghost use Rattle.tb_base.specs.Records.{AllFit};
ghost use Rattle.tb_model.specs.Schemas.{shape_of};

use std::alloc::Global;
use std::test::Fail;
use tb_base::Memory;
use tb_release::{EditFault, EditFaultKind, Release, next};
use tb_rows::FaultKind;
use tb_schema::Schema;
use tb_small_values::{edits_of, release, schema};

// The number and the word of what came of the last batch, and the number of the edit that is
// refused or how many persons are left.
pub(crate) type Told = (u8, &'static str, u32);

// The lines of a batch and of one over the release that it made, if there is one, and what comes of
// the last.
type Case = (
    &'static [&'static [u8]],
    &'static [&'static [u8]],
    u8,
    &'static str,
    u32,
);

static CASES: [Case; 14] = [
    // A person comes, is amended and goes, and doesn't return with another key.
    (
        &[
            b"add 200 9 SEX=1 AGE=65+ AREA=E1",
            b"amend 200 AGE=0-15",
            b"drop 200",
        ],
        &[],
        0,
        "left",
        4,
    ),
    (
        &[
            b"add 200 9 SEX=1 AGE=65+ AREA=E1",
            b"amend 200 AGE=0-15",
            b"drop 200",
        ],
        &[b"add 200 10 SEX=1 AGE=65+ AREA=E1"],
        3,
        "KeyChanged",
        1,
    ),
    (
        &[b"drop 101", b"drop 102"],
        &[b"add 101 200 SEX=2 AGE=65+ AREA=E1"],
        0,
        "left",
        3,
    ),
    (
        &[b"drop 101", b"drop 102", b"drop 999"],
        &[],
        2,
        "NoSuchPerson",
        3,
    ),
    (&[], &[], 5, "Nothing", 0),
    (
        &[b"amend 102 SEX=2", b"add 102 8 SEX=1 AGE=65+ AREA=E1"],
        &[],
        1,
        "PersonThere",
        2,
    ),
    // Two in one batch, in both orders.
    (
        &[b"drop 104", b"add 104 8 SEX=1 AGE=65+ AREA=E1", b"drop 999"],
        &[],
        3,
        "KeyChanged",
        2,
    ),
    (
        &[b"drop 104", b"drop 999", b"add 104 8 SEX=1 AGE=65+ AREA=E1"],
        &[],
        2,
        "NoSuchPerson",
        2,
    ),
    // Releases are taken back up to the one that the batch makes, and none is shown again.
    (&[b"oldest 0", b"oldest 1"], &[b"oldest 2"], 0, "left", 4),
    (&[b"oldest 2"], &[], 6, "BadRelease", 1),
    (&[b"threshold 3"], &[b"oldest 3"], 6, "BadRelease", 1),
    (
        &[b"oldest 1", b"threshold 3", b"oldest 0"],
        &[],
        6,
        "BadRelease",
        3,
    ),
    (
        &[b"oldest 1"],
        &[b"drop 104", b"oldest 0"],
        6,
        "BadRelease",
        2,
    ),
    (&[b"drop 999", b"oldest 2"], &[], 2, "NoSuchPerson", 1),
];

fn cases() -> &'static [Case] {
    &CASES
}

// The next release after some lines.
pub(crate) fn lead(
    alloc: Global,
    schema: &Schema,
    old: &Release,
    lines: &[&[u8]],
) -> Result<Release, EditFault>
    requires { AllFit (shape_of schema.now) old.now.records }
    ensures { IfOk result (λ made. AllFit (shape_of schema.now) made.records) }
{
    let edits = edits_of(alloc, schema, lines)?;
    let (made, _) = next(alloc, schema.shape(), old, &edits)?;
    Ok(made)
}

// The release after one batch or two.
fn led(
    alloc: Global,
    schema: &Schema,
    first: &[&[u8]],
    second: &[&[u8]],
) -> Result<Release, EditFault> {
    let made = lead(alloc, schema, &release(alloc, schema)?, first)?;
    if second.is_empty() {
        return Ok(made);
    }
    lead(alloc, schema, &made, second)
}

pub(crate) fn fault_told(fault: EditFault) -> Told {
    match fault {
        EditFault::Refused { kind, edit } => (kind.name().number(), kind.name().word(), edit),
        EditFault::Memory => (0, "memory", 0),
    }
}

fn told(alloc: Global, schema: &Schema, case: &Case) -> Told {
    match led(alloc, schema, case.0, case.1) {
        Ok(release) => (0, "left", release.len() as u32),
        Err(fault) => fault_told(fault),
    }
}

// Whether that is what the case says.
fn is_right(alloc: Global, schema: &Schema, case: &Case) -> bool {
    let (_, _, number, word, count) = case;
    told(alloc, schema, case) == (*number, *word, *count)
}

// The place of the first case of which it isn't.
fn wrong_case(alloc: Global, schema: &Schema) -> Option<usize> {
    for (i, case) in cases().iter().enumerate() {
        if !is_right(alloc, schema, case) {
            return Some(i);
        }
    }
    None
}

fn wrong_case_of_small(alloc: Global) -> Result<Option<usize>, Memory> {
    let schema = schema(alloc)?;
    Ok(wrong_case(alloc, &schema))
}

#[test]
fn batches_of_lines(rt: HostRuntime) -> Result<(), Fail> {
    assert_eq!(rt; wrong_case_of_small(rt.alloc())?, None);
    Ok(())
}

#[test]
fn text_of_fault(rt: HostRuntime) -> Result<(), Fail> {
    let fault = EditFault::Refused {
        kind: EditFaultKind::KeyChanged,
        edit: 10_000,
    };
    let text = format!(in rt.alloc(); "{fault}; {}", EditFault::Memory)?;
    assert_eq!(rt;
        text.as_str(),
        "edit 10000: the person must have the same record key as before; out of memory"
    );
    Ok(())
}
