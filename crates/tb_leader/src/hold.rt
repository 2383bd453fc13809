// The edits of a message.

ghost use Rattle.std.specs.Prelude.{◌≡◌};
ghost use Rattle.std.specs.Option.{ForSome};
ghost use Rattle.tb_follow.specs.Messages.{MessageFits};
ghost use Rattle.tb_leader.specs.LeaderReplies.{IsEditReply};
ghost use Rattle.tb_leader.specs.ReplyTexts.{reply_text};
ghost use Rattle.tb_model.specs.Schemas.{shape_of};

use crate::reply::LeaderReply;
use std::alloc::Global;
use tb_follow::Message;
use tb_release::Pushed;
use tb_revise::{read_edit, too_many};
use tb_schema::Schema;

/// Holds the edit of a line as the last of a message. Where the edit is refused, and where the
/// memory is, the message is given up.
pub(crate) fn hold(
    alloc: Global,
    schema: &Schema,
    mut message: Message,
    line: &[u8],
) -> (Option<Message>, LeaderReply)
    requires { MessageFits (shape_of schema.now) message }
    ensures reply { IsEditReply schema.now line.now message (reply_text result.1) result.0 }
    ensures fits { ForSome result.0 (MessageFits (shape_of schema.now)) }
{
    let edit = match read_edit(alloc, schema, line) {
        Ok(edit) => edit,
        Err(fault) => {
            return match fault.name() {
                Some(name) => (None, LeaderReply::EditRefused(name)),
                None => (None, LeaderReply::Memory),
            };
        }
    };
    match message.edits.push(edit) {
        Ok(()) => {
            let count = message.edits.len() as u32;
            (Some(message), LeaderReply::Held(count))
        }
        Err(Pushed::Full(_)) => (None, LeaderReply::EditRefused(too_many())),
        Err(Pushed::Memory(_)) => (None, LeaderReply::Memory),
    }
}
