// The files of units, units, plans and the cells that are counted for them.

ghost use Rattle.std.specs.Prelude.{◌≡◌, ◌<◌, IfOk};
ghost use Rattle.tb_base.specs.Records.{AllFit};
ghost use Rattle.tb_model.specs.Schemas.{shape_of};
ghost use Rattle.tb_query.specs.Over.{IsOver};

use std::alloc::Global;
use std::marker::Brand;
use std::sync::ledger::{Blank, Ledger};
use tb_base::{Cell, Keys, Memory, Steps, print_number};
use tb_plan::Plan;
use tb_query::{MOST_QUERY_BYTES, Query, read_query};
use tb_release::Release;
use tb_scan::empty_cells;
use tb_schema::{MOST_UNSTATED, Schema};
use tb_unit_cells::units_into;
use tb_units::Units;

// The headers of both files.
pub const DWELLINGS: &[u8] = b"dwelling,dwelling_key\n";

pub const LINKS: &[u8] = b"person,dwelling\n";

// A file of some records under its header.
pub fn file_of(alloc: Global, header: &[u8], records: &[u8]) -> Result<Vec<u8>, Memory> {
    let mut bytes = Vec::from_slice(alloc, header)?;
    bytes.extend_from_slice(records)?;
    Ok(bytes)
}

fn add_number(text: &mut Vec<u8>, number: u32, after: &[u8]) -> Result<(), Memory> {
    let mut digits = [b'0'; 10];
    let len = print_number(number, &mut digits);
    text.extend_from_slice(&digits[..len])?;
    text.extend_from_slice(after)?;
    Ok(())
}

// Adds a record of two numbers.
pub fn add_pair(text: &mut Vec<u8>, first: u32, second: u32) -> Result<(), Memory> {
    add_number(text, first, b",")?;
    add_number(text, second, b"\n")
}

// The units of two files under the key range 4096. Files that are refused fail the test: that is
// told as want of memory.
pub fn units_in(alloc: Global, dwellings: &[u8], links: &[u8]) -> Result<Units, Memory> {
    match Units::read(alloc, MOST_UNSTATED, Keys::K4096, dwellings, links) {
        Ok(units) => Ok(units),
        Err(_) => Err(Memory),
    }
}

// The query of a line. One that isn't read fails the test.
fn query_of(alloc: Global, schema: &Schema, line: &[u8]) -> Result<Query, Memory>
    ensures { IfOk result (IsOver schema.now) }
{
    if line.len() > MOST_QUERY_BYTES {
        return Err(Memory);
    }
    match read_query(alloc, schema, line) {
        Ok(query) => Ok(query),
        Err(_) => Err(Memory),
    }
}

// The plan of a line.
pub fn plan_of(alloc: Global, schema: &Schema, line: &[u8]) -> Result<Plan, Memory>
    ensures { IfOk result (λ plan. plan.shape ≡ shape_of schema.now) }
{
    let query = query_of(alloc, schema, line)?;
    Plan::of(alloc, schema, &query)
}

fn counted<L: Ledger>(
    blank: Blank,
    alloc: Global,
    units: &Units,
    plan: &Plan,
    release: &Release,
) -> Result<Vec<Cell>, Memory>
    requires ledger { blank.name ≡ L.name }
    requires parts { blank.parts ≡ L.parts }
    requires some { 0 < L.parts }
    requires fit { AllFit plan.now.shape release.now.records }
{
    let mut steps = Steps::<L>::new(blank);
    let mut cells = empty_cells(alloc, plan)?;
    units_into(alloc, units, plan, release, &mut cells, &mut steps)?;
    Ok(cells)
}

// The cells of a plan's table of dwellings, with a counter of their own.
pub fn cells_of(
    alloc: Global,
    units: &Units,
    plan: &Plan,
    release: &Release,
) -> Result<Vec<Cell>, Memory>
    requires { AllFit plan.now.shape release.now.records }
{
    counted::<Brand>(Blank::new(1), alloc, units, plan, release)
}
