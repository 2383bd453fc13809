// The small setup as values.

ghost use Rattle.std.specs.Prelude.{◌≡◌, ◌≤◌, All, IfOk, length};
ghost use Rattle.tb_base.specs.Records.{AllFit};
ghost use Rattle.tb_model.specs.Schemas.{shape_of};
ghost use Rattle.tb_release.specs.Laws.{EditFits};

use std::alloc::Global;
use tb_base::{Keys, Memory, People, Rules};
use tb_ptable::PTable;
use tb_records::read_people;
use tb_release::{Edit, Edits, Release};
use tb_revise::read_edit;
use tb_schema::Schema;
use tb_small::{CLASSES, DWELLINGS, LINKS, PEOPLE, PTABLE, RECODES};
use tb_text::Setup;
use tb_units::Units;

/// SEX, AGE and AREA, with the recode AGE2.
pub fn schema(alloc: Global) -> Result<Schema, Memory> {
    match Schema::read(alloc, CLASSES, Some(RECODES)) {
        Ok(schema) => Ok(schema),
        Err(_) => Err(Memory),
    }
}

fn ptable(alloc: Global, keys: Keys) -> Result<PTable, Memory>
    ensures { IfOk result (λ table. table.keys ≡ keys) }
{
    match PTable::read(alloc, keys, PTABLE) {
        Ok(ptable) => Ok(ptable),
        Err(_) => Err(Memory),
    }
}

/// The schema with the perturbation table.
pub fn setup(alloc: Global) -> Result<Setup, Memory> {
    let schema = schema(alloc)?;
    let ptable = ptable(alloc, schema.keys())?;
    Ok(Setup {
        schema,
        ptable,
        units: None,
    })
}

// The two dwellings and their links.
fn units(alloc: Global, schema: &Schema) -> Result<Units, Memory> {
    match Units::read(alloc, schema.persons(), schema.keys(), DWELLINGS, LINKS) {
        Ok(units) => Ok(units),
        Err(_) => Err(Memory),
    }
}

/// The setup with the two dwellings.
pub fn setup_with_units(alloc: Global) -> Result<Setup, Memory> {
    let schema = schema(alloc)?;
    let ptable = ptable(alloc, schema.keys())?;
    let units = units(alloc, &schema)?;
    Ok(Setup {
        schema,
        ptable,
        units: Some(units),
    })
}

/// The four persons.
pub fn people(alloc: Global, schema: &Schema) -> Result<People, Memory>
    ensures fit { IfOk result (AllFit (shape_of schema.now)) }
    ensures few { IfOk result (λ people. length people ≤ schema.now.persons) }
{
    match read_people(alloc, schema, PEOPLE) {
        Ok(people) => Ok(people),
        Err(_) => Err(Memory),
    }
}

// Release 0 of some persons, with the threshold 0.
fn first(alloc: Global, schema: &Schema, people: People) -> Result<Release, Memory>
    requires fit { AllFit (shape_of schema.now) people }
    requires few { length people ≤ schema.now.persons }
    ensures number { IfOk result (λ release. release.number ≡ 0) }
    ensures fit { IfOk result (λ release. AllFit (shape_of schema.now) release.records) }
{
    Release::first(alloc, schema.persons(), people, Rules::new(alloc, 0))
}

/// Release 0 of the four, with the threshold 0.
pub fn release(alloc: Global, schema: &Schema) -> Result<Release, Memory>
    ensures number { IfOk result (λ release. release.number ≡ 0) }
    ensures fit { IfOk result (λ release. AllFit (shape_of schema.now) release.records) }
{
    first(alloc, schema, people(alloc, schema)?)
}

// The edit of a line. One that is none fails the test.
fn edit_of(alloc: Global, schema: &Schema, line: &[u8]) -> Result<Edit, Memory>
    ensures { IfOk result (EditFits (shape_of schema.now)) }
{
    match read_edit(alloc, schema, line) {
        Ok(edit) => Ok(edit),
        Err(_) => Err(Memory),
    }
}

// Holds one more edit.
fn hold(edits: &mut Edits, schema: &Schema, edit: Edit) -> Result<(), Memory>
    requires fit { All (EditFits (shape_of schema.now)) edits.old }
    requires one { EditFits (shape_of schema.now) edit }
    ensures { IfOk result (λ _. All (EditFits (shape_of schema.now)) edits.new) }
{
    let _ = schema;
    match edits.push(edit) {
        Ok(()) => Ok(()),
        Err(_) => Err(Memory),
    }
}

/// The edits of some lines, in their order.
pub fn edits_of(alloc: Global, schema: &Schema, lines: &[&[u8]]) -> Result<Edits, Memory>
    ensures { IfOk result (All (EditFits (shape_of schema.now))) }
{
    let mut edits = Edits::new(alloc);
    for line in lines {
        let edit = edit_of(alloc, schema, line)?;
        hold(&mut edits, schema, edit)?;
    }
    Ok(edits)
}
