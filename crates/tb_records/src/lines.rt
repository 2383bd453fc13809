// What a part of a file says, record by record.

ghost use Rattle.std.specs.Prelude.{◌≡◌, ◌+◌, ◌++◌, ◌∷◌, [], Ok, IfOk, OnOk, length};
ghost use Rattle.csv.specs.Records.{fields_of};
ghost use Rattle.tb_records.specs.Lines.{AreLines};
ghost use Rattle.tb_records.specs.People.{people_file};
ghost use Rattle.tb_rows.specs.Formats.{line_under};

use crate::fault::{PeopleFault, PeopleKind};
use crate::format::room_for;
use crate::record::{fault_at, read_record};
use csv::ByteRecord;
use std::alloc::Global;
use tb_base::{Memory, Record};
use tb_rows::{CsvRecords, Header};
use tb_schema::Schema;

// The number of a record in its file isn't known in a part, so this stands in its place: of a fault
// in a part it only counts that there is one.
const UNKNOWN: u32 = 0;

// What one record of a part says; `categories` is scratch room, whose list is lost.
fn read_line(
    schema: &Schema,
    header: &Header,
    whole: &ByteRecord,
    categories: &mut Vec<u16>,
) -> Result<Record, PeopleFault>
    requires { length header.now.indices ≡ length schema.now.variables + 2 }
    ensures { IfOk result (λ one. line_under (people_file schema.now) header.now.width
        header.now.indices (fields_of whole.now) ≡ Ok one) }
{
    match header.fields(whole) {
        Some(fields) => read_record(schema, &fields, UNKNOWN, categories),
        None => Err(fault_at(PeopleKind::BadCsv, UNKNOWN)),
    }
}

// No records, with room for so many.
fn list_for(alloc: Global, room: usize) -> Result<Vec<Record>, Memory>
    ensures { IfOk result (λ lines. lines.items ≡ []) }
{
    let lines = Vec::with_capacity(alloc, room)?;
    Ok(lines)
}

// Puts a record last.
fn push_to(lines: &mut Vec<Record>, one: Record) -> Result<(), Memory>
    ensures { OnOk result (lines.new.items ≡ lines.old.items ++ one ∷ []) }
{
    lines.push(one)?;
    Ok(())
}

/// The records that a part of a file says under its header, if each says one and they are no more
/// than the classification's limit. It takes memory for one record at a time and for all that it
/// returns.
pub fn read_lines(
    alloc: Global,
    schema: &Schema,
    header: &Header,
    part: &[u8],
) -> Result<Vec<Record>, PeopleFault>
    requires { length header.now.indices ≡ length schema.now.variables + 2 }
    ensures { IfOk result (λ lines. AreLines schema.now header.now part.now lines.items) }
{
    let mut to_come = CsvRecords::new(alloc, part);
    let mut buffer = ByteRecord::new(alloc);
    let mut lines = list_for(alloc, room_for(schema, part.len()))?;
    let mut categories = Vec::new(alloc);
    'lines: while to_come.read(&mut buffer)? {
        if lines.len() >= schema.persons() {
            return Err(fault_at(PeopleKind::TooMany, UNKNOWN));
        }
        let one = read_line(schema, header, &buffer, &mut categories)?;
        push_to(&mut lines, one)?;
    }
    Ok(lines)
}
