// The custodian's line that asks to publish what was prepared.

ghost use Rattle.std.specs.Prelude.{◌≡◌, ℕ, List};
ghost use Rattle.tb_model.specs.Setups.{SetupValue};
ghost use Rattle.tb_session.specs.Asks.{asks_of as asks_for};
ghost use Rattle.tb_session.specs.Parties.{IsAnswered, IsOwnerOf, seen_by};
ghost use Rattle.tb_session.specs.Prepared.{IsPreparedBy};
ghost use Rattle.tb_session.specs.declared.asks.Asks.TheVariants as asks;
ghost use Rattle.tb_session.specs.declared.party.Role.TheVariants as roles;

use crate::party::Party;
use crate::revise::publish_prepared;
use std::sync::Wait;
use tb_board::{Board, Named, Publication};
use tb_io::{Sink, Wrote};

/// Writes the reply to the custodian's line that asks to publish, as `answer` does, where what that
/// adds was prepared of the held edits: so the next release isn't made again. It takes memory for
/// the desk's room for one batch more, before the first byte; where that is refused, the reply is
/// `memory`, and what was prepared is gone. It waits for the board's lock.
pub fn answer_prepared<B: Named, K: Sink>(
    board: &Board<B>,
    rt: &impl Wait,
    party: &mut Party,
    publication: Publication,
    sink: &mut K,
) -> Wrote
    requires own { IsOwnerOf B.name (seen_by party.old).start.shape party.old }
    requires prepared { IsPreparedBy party.old publication }
    ensures own { IsOwnerOf B.name (seen_by party.old).start.shape party.new }
    // Whatever the line, and over any setup. It reads no record.
    ensures answered { (setup : SetupValue) (line : List ℕ) (steps : ℕ)
        → asks_for roles.Custodian line ≡ asks.Publish
        → IsAnswered setup party.old line party.new result (K.faults sink.old)
        (K.faults sink.new) (K.taken sink.old) (K.taken sink.new) steps steps }
{
    match party {
        Party::Analyst(_) => unreachable!(),
        Party::Custodian(custodian, held) => {
            let reply = publish_prepared(rt, board, custodian, held, publication);
            reply.write(sink)
        }
    }
}
