// A chain that may have four records at most: what comes of batches one after the other, of which
// some are refused.

ghost use Rattle.std.specs.Prelude.{IfOk};
ghost use Rattle.tb_base.specs.Records.{AllFit};
ghost use Rattle.tb_model.specs.Schemas.{shape_of};

use crate::batches::{Told, fault_told, lead};
use std::alloc::Global;
use std::test::Fail;
use tb_base::{Memory, People, Rules};
use tb_release::Release;
use tb_schema::Schema;
use tb_small_values::{people, schema};

const MOST: usize = 4;

// The lines of a batch, and what comes of it.
type Turn = (&'static [&'static [u8]], Told);

static TURNS: [Turn; 12] = [
    // Four are there, so none may come.
    (&[b"add 105 30 SEX=1 AGE=65+ AREA=E1"], (4, "TooMany", 1)),
    // After a drop one may, and not two.
    (
        &[
            b"drop 104",
            b"add 105 30 SEX=1 AGE=65+ AREA=E1",
            b"add 106 31 SEX=1 AGE=65+ AREA=E1",
        ],
        (4, "TooMany", 3),
    ),
    (
        &[b"drop 104", b"add 105 30 SEX=1 AGE=65+ AREA=E1"],
        (0, "left", 4),
    ),
    // The next batch has the same limit, also for a person who comes back.
    (&[b"add 104 7 SEX=2 AGE=16-64 AREA=E2"], (4, "TooMany", 1)),
    (
        &[b"add 104 7 SEX=2 AGE=16-64 AREA=E2", b"drop 105"],
        (4, "TooMany", 1),
    ),
    (&[b"amend 105 AGE=0-15", b"threshold 3"], (0, "left", 4)),
    // The room that a batch leaves serves those after it.
    (&[b"drop 105", b"drop 101"], (0, "left", 2)),
    (&[b"add 104 7 SEX=2 AGE=16-64 AREA=E2"], (0, "left", 3)),
    (
        &[
            b"add 105 30 SEX=1 AGE=65+ AREA=E1",
            b"add 106 31 SEX=1 AGE=65+ AREA=E1",
        ],
        (4, "TooMany", 2),
    ),
    (&[b"add 106 31 SEX=1 AGE=65+ AREA=E1"], (0, "left", 4)),
    // What is wrong with the person is told before that there are too many.
    (
        &[b"add 106 31 SEX=1 AGE=65+ AREA=E1"],
        (1, "PersonThere", 1),
    ),
    (&[b"add 105 32 SEX=1 AGE=65+ AREA=E1"], (3, "KeyChanged", 1)),
];

fn turns() -> &'static [Turn] {
    &TURNS
}

// Release 0 of these persons.
fn first_of(alloc: Global, schema: &Schema, people: People) -> Result<Release, Memory>
    requires { AllFit (shape_of schema.now) people }
    ensures { IfOk result (λ release. AllFit (shape_of schema.now) release.records) }
{
    let _ = schema;
    if people.len() > MOST {
        return Err(Memory);
    }
    Release::first(alloc, MOST, people, Rules::new(alloc, 0))
}

fn first(alloc: Global, schema: &Schema) -> Result<Release, Memory>
    ensures { IfOk result (λ release. AllFit (shape_of schema.now) release.records) }
{
    first_of(alloc, schema, people(alloc, schema)?)
}

// Leads a release on by a batch, and tells what comes of it. Where it is refused the release stays.
fn lead_on(alloc: Global, schema: &Schema, release: &mut Release, lines: &[&[u8]]) -> Told
    requires { AllFit (shape_of schema.now) release.old.records }
    ensures { AllFit (shape_of schema.now) release.new.records }
{
    match lead(alloc, schema, &*release, lines) {
        Ok(made) => {
            *release = made;
            (0, "left", release.len() as u32)
        }
        Err(fault) => fault_told(fault),
    }
}

// The place of the first turn of which something else comes.
fn wrong_turn(alloc: Global, schema: &Schema, release: &mut Release) -> Option<usize>
    requires { AllFit (shape_of schema.now) release.old.records }
{
    for (i, turn) in turns().iter().enumerate() {
        if lead_on(alloc, schema, release, turn.0) != turn.1 {
            return Some(i);
        }
    }
    None
}

fn wrong_turn_over(alloc: Global, schema: &Schema) -> Result<Option<usize>, Memory> {
    let mut release = first(alloc, schema)?;
    Ok(wrong_turn(alloc, schema, &mut release))
}

fn wrong_turn_of_small(alloc: Global) -> Result<Option<usize>, Memory> {
    let schema = schema(alloc)?;
    wrong_turn_over(alloc, &schema)
}

#[test]
fn limit_along_a_chain(rt: HostRuntime) -> Result<(), Fail> {
    assert_eq!(rt; wrong_turn_of_small(rt.alloc())?, None);
    Ok(())
}
