// Reading an edit line over a schema.

ghost use Rattle.std.specs.Prelude.{◌≡◌, IfErr, IfOk, MatchResult};
ghost use Rattle.tb_model.specs.Schemas.{shape_of};
ghost use Rattle.tb_release.specs.Laws.{EditFits};
ghost use Rattle.tb_release.specs.declared.edits.Edit.{Edit as EditValue};
ghost use Rattle.tb_revise.specs.Faults.{IsRefused, Reads};

use crate::fault::EditTextFault;
use crate::meaning::edit_meant;
use crate::parse::parse;
use std::alloc::Global;
use tb_base::is_text;
use tb_release::Edit;
use tb_schema::Schema;

// The edit of a line, or the line's first fault.
fn read(alloc: Global, schema: &Schema, line: &[u8]) -> Result<Edit, EditTextFault>
    ensures read { IfOk result (Reads schema.now line.now) }
    ensures refused { IfErr result (IsRefused schema.now line.now) }
{
    if !is_text(line) {
        return Err(EditTextFault::Syntax);
    }
    let edit = parse(alloc, line)?;
    edit_meant(alloc, schema, &edit)
}

/// The edit of a custodian's line, or the line's first fault:
///
/// - `add PERSON KEY VAR=CODE ..` sets every variable once, in any order,
/// - `amend PERSON VAR=CODE ..` sets one or more, each once,
/// - `drop PERSON` has no further word,
/// - `pvalue PCV CKEY P` sets the pvalue at a row and a cell key,
/// - `threshold T` sets the threshold.
///
/// Words are separated by spaces and tabs, which may also stand before and after them. PERSON is a
/// number from 1 to `u32::MAX`, KEY and CKEY one below the schema's key range, PCV one from 1 to
/// `LAST_ROW`, P one from `LEAST_PVALUE` to `MOST_PVALUE` that with PCV isn't negative, T one up to
/// `MOST_THRESHOLD`, VAR the name of a variable and CODE one of its codes, compared as bytes.
/// Whether the edit is possible on a release isn't asked here. It takes memory for the line's
/// settings and for the edit.
pub fn read_edit(alloc: Global, schema: &Schema, line: &[u8]) -> Result<Edit, EditTextFault>
    // The line reads as the edit that is returned.
    ensures read { IfOk result (Reads schema.now line.now) }
    // Where it reads as an edit, that is returned, or the run is out of memory.
    ensures only { (edit : EditValue) → Reads schema.now line.now edit
        → MatchResult result (λ e. e ≡ edit) (λ f. f ≡ EditTextFault.Memory) }
    // Its variables and categories are those of the schema, and an add has one of each; what it
    // sets of the rules is in range.
    ensures fits { IfOk result (EditFits (shape_of schema.now)) }
    // A refusal is the line's first fault. Memory can run out at any line.
    ensures refused { IfErr result (IsRefused schema.now line.now) }
{
    read(alloc, schema, line)
}
