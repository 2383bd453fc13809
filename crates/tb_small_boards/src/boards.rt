// Boards over the small setup, and who asks there.

ghost use Rattle.std.specs.Prelude.{◌≡◌, ◌<◌, ◌≤◌, IfOk};
ghost use Rattle.tb_board.specs.Custodians.{IsWhole};
ghost use Rattle.tb_cache.specs.declared.TheConstants.{MOST_ENTRIES};
ghost use Rattle.tb_model.specs.Schemas.{shape_of};
ghost use Rattle.tb_session.specs.Parties.{IsPartyOf};

use std::alloc::Global;
use tb_base::Memory;
use tb_board::{Custodian, Named, Opening};
use tb_release::Edits;
use tb_schema::Schema;
use tb_script::{MOST_SCRIPT_BYTES, Script};
use tb_session::{FIRST_CAPACITY, Party};
use tb_small_values::release;
use tb_text::Setup;

/// A board of the four persons, for at most so many cubes.
pub fn opening_for(alloc: Global, schema: &Schema, capacity: u32) -> Result<Opening, Memory>
    requires some { 0 < capacity }
    requires few { capacity ≤ MOST_ENTRIES }
    ensures { IfOk result (λ opening. opening.start.shape ≡ shape_of schema.now) }
{
    let release = release(alloc, schema)?;
    Opening::new(alloc, schema.shape(), release, capacity)
}

/// The same for as many cubes as a board keeps at first.
pub fn opening(alloc: Global, setup: &Setup) -> Result<Opening, Memory>
    ensures { IfOk result (λ opening. opening.start.shape ≡ shape_of setup.now.schema) }
{
    opening_for(alloc, &setup.schema, FIRST_CAPACITY)
}

/// The custodian as a party, who holds no edits.
pub fn owner<B: Named>(alloc: Global, setup: &Setup, custodian: Custodian) -> Party
    requires front { custodian.writer.name ≡ B.name }
    requires shape { custodian.writer.start.shape ≡ shape_of setup.now.schema }
    requires whole { IsWhole custodian }
    ensures party { IsPartyOf B.name (shape_of setup.now.schema) result }
{
    let _ = setup;
    Party::Custodian(custodian, Edits::new(alloc))
}

/// The script of these bytes.
pub fn read_script(alloc: Global, bytes: &[u8]) -> Result<Script, Memory> {
    if bytes.len() as u64 > MOST_SCRIPT_BYTES {
        return Err(Memory);
    }
    match Script::read(alloc, bytes) {
        Ok(script) => Ok(script),
        Err(_) => Err(Memory),
    }
}
