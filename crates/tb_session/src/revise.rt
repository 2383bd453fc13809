// The custodian's lines that change what comes after them.

ghost use Rattle.std.specs.Prelude.{◌≡◌, ◌≤◌, All, length};
ghost use Rattle.tb_io.specs.declared.limits.TheConstants.{MOST_LINE_BYTES};
ghost use Rattle.tb_model.specs.Schemas.{shape_of};
ghost use Rattle.tb_release.specs.Laws.{EditFits};
ghost use Rattle.tb_session.specs.Replies.{IsEditReply};
ghost use Rattle.tb_session.specs.ReplyTexts.{reply_text};
ghost use Rattle.tb_session.specs.Parties.{IsCustodianOf, PublishLeads};
ghost use Rattle.tb_session.specs.Prepared.{IsPreparedOf};

use crate::reply::Reply;
use std::alloc::Global;
use std::sync::Wait;
use tb_base::Memory;
use tb_board::{Board, Custodian, Named, Publication};
use tb_release::{EditFault, Edits, Pushed};
use tb_revise::{read_edit, too_many};
use tb_text::Setup;

/// Holds the edit of a line as the last, unless it is refused: by the line's first fault, or since
/// no more can be held. Where the memory is refused, the edits that are held stay as they are.
pub(crate) fn hold<'a>(alloc: Global, setup: &Setup, held: &mut Edits, line: &[u8]) -> Reply<'a>
    requires few { length line.now ≤ MOST_LINE_BYTES }
    requires fit { All (EditFits (shape_of setup.now.schema)) held.old }
    ensures reply { IsEditReply setup.now line.now held.old (reply_text result)
        held.new }
    ensures fit { All (EditFits (shape_of setup.now.schema)) held.new }
{
    let edit = match read_edit(alloc, &setup.schema, line) {
        Ok(edit) => edit,
        Err(fault) => {
            return match fault.name() {
                Some(name) => Reply::EditRefused(name),
                None => Reply::Memory,
            };
        }
    };
    match held.push(edit) {
        Ok(()) => Reply::Held(held.len() as u32),
        Err(Pushed::Full(_)) => Reply::EditRefused(too_many()),
        Err(Pushed::Memory(_)) => Reply::Memory,
    }
}

/// Publishes what was prepared of the held edits, of which none is held any more then; where the
/// memory is refused, all stays as it is.
pub(crate) fn publish_prepared<'a, B: Named>(
    rt: &impl Wait,
    board: &Board<B>,
    custodian: &mut Custodian,
    held: &mut Edits,
    publication: Publication,
) -> Reply<'a>
    requires own { IsCustodianOf B.name custodian.old.writer.start.shape custodian.old held.old }
    requires prepared { IsPreparedOf custodian.old held.old publication }
    ensures own { IsCustodianOf B.name custodian.old.writer.start.shape custodian.new held.new }
    ensures leads { PublishLeads custodian.old held.old (reply_text result) custodian.new
        held.new }
{
    match board.publish_prepared(rt, custodian, publication) {
        Ok(number) => {
            held.clear();
            Reply::Published(number)
        }
        Err(Memory) => Reply::Memory,
    }
}

/// Publishes the held edits. Where they are published, or refused, none is held any more; where the
/// memory is refused, all stays as it is.
pub(crate) fn publish<'a, B: Named>(
    rt: &impl Wait,
    alloc: Global,
    board: &Board<B>,
    custodian: &mut Custodian,
    held: &mut Edits,
) -> Reply<'a>
    requires own { IsCustodianOf B.name custodian.old.writer.start.shape custodian.old held.old }
    ensures own { IsCustodianOf B.name custodian.old.writer.start.shape custodian.new held.new }
    ensures leads { PublishLeads custodian.old held.old (reply_text result) custodian.new
        held.new }
{
    match custodian.prepare(alloc, held) {
        Ok(publication) => publish_prepared(rt, board, custodian, held, publication),
        Err(EditFault::Refused { kind, edit }) => {
            held.clear();
            Reply::BatchRefused(edit, kind.name())
        }
        Err(EditFault::Memory) => Reply::Memory,
    }
}
