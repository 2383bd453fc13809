// Schemas of the tests, and what their tables are of.

ghost use Rattle.std.specs.Prelude.{◌≡◌, ◌≤◌, All, IfOk};
ghost use Rattle.tb_base.specs.declared.people.TheConstants.{MOST_PERSONS};
ghost use Rattle.tb_schema.specs.Names.{IsName};

use std::alloc::Global;
use tb_base::{Cell, Keys, MOST_PERSONS, Memory};
use tb_ptable::PTable;
use tb_query::{MOST_QUERY_BYTES, Query, read_query};
use tb_schema::Schema;
use tb_small::{CLASSES, PTABLE, RECODES, WIDE_CLASSES};

// The schema of a classification. One that isn't read fails the test: it is told as want of memory.
pub fn schema_of(alloc: Global, classes: &[u8], recodes: Option<&[u8]>) -> Result<Schema, Memory> {
    match Schema::read(alloc, classes, recodes) {
        Ok(schema) => Ok(schema),
        Err(_) => Err(Memory),
    }
}

// SEX, AGE and AREA, with the recode AGE2.
pub fn schema(alloc: Global) -> Result<Schema, Memory> {
    schema_of(alloc, CLASSES, Some(RECODES))
}

// The same with the key range 4096, without the recode.
pub fn wide_schema(alloc: Global) -> Result<Schema, Memory> {
    schema_of(alloc, WIDE_CLASSES, None)
}

// The cells of these counts and key sums, if each has few enough persons.
pub fn few_cells(alloc: Global, counts: &[(u32, u16)]) -> Result<Vec<Cell>, Memory>
    ensures { IfOk result (λ cells. All (λ cell. cell.count ≤ MOST_PERSONS) cells.items) }
{
    let mut cells = Vec::new(alloc);
    for pair in counts {
        let (count, key) = *pair;
        if count as usize > MOST_PERSONS {
            return Err(Memory);
        }
        cells.push(Cell { count, key })?;
    }
    Ok(cells)
}

// The small setup's perturbation table under a key range.
pub fn ptable(alloc: Global, keys: Keys) -> Result<PTable, Memory>
    ensures { IfOk result (λ table. table.keys ≡ keys) }
{
    match PTable::read(alloc, keys, PTABLE) {
        Ok(ptable) => Ok(ptable),
        Err(_) => Err(Memory),
    }
}

// The query of a line. One that isn't read fails the test: it is told as want of memory.
pub fn query_of(alloc: Global, schema: &Schema, line: &[u8]) -> Result<Query, Memory>
    ensures { IfOk result (λ query. All (IsName schema.now) query.dimensions) }
{
    if line.len() > MOST_QUERY_BYTES {
        return Err(Memory);
    }
    match read_query(alloc, schema, line) {
        Ok(query) => Ok(query),
        Err(_) => Err(Memory),
    }
}
