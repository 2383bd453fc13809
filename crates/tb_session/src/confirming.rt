// Analysts who learn what the custodian has seen, and whose pass it confirms.

ghost use Rattle.std.specs.Prelude.{◌≡◌};
ghost use Rattle.tb_session.specs.Parties.{IsAnalystOf, IsBehind, Learns, seen_by};

use crate::party::Party;
use std::sync::Wait;
use tb_board::{Board, Custodian, Named};

/// An analyst's pass learns what the custodian's has seen.
pub fn tell<B: Named>(board: &Board<B>, custodian: &mut Custodian, party: &mut Party)
    requires front { custodian.old.pass.name ≡ B.name }
    requires analyst { IsAnalystOf B.name custodian.old.writer.start.shape party.old }
    ensures same { custodian.new ≡ custodian.old }
    ensures learns { Learns custodian.old.pass party.old party.new }
{
    match party {
        Party::Analyst(pass) => {
            let note = board.note(custodian.pass());
            board.learn(pass, note);
        }
        Party::Custodian(_, _) => {}
    }
}

/// The custodian confirms an analyst's pass, which tells that it has seen a beginning of what the
/// custodian wrote. It changes nothing.
pub fn confirm<B: Named>(board: &Board<B>, custodian: &mut Custodian, party: &mut Party)
    requires front { custodian.old.writer.name ≡ B.name }
    requires own { (seen_by party.old).name ≡ B.name }
    ensures same { custodian.new ≡ custodian.old }
    ensures also { party.new ≡ party.old }
    ensures behind { IsBehind custodian.old.writer party.old }
{
    match party {
        Party::Analyst(pass) => board.confirm(custodian, pass),
        Party::Custodian(_, _) => {}
    }
}

/// An analyst of a board who has seen no more than its custodian, as the custodian confirms.
pub fn analyst_of<B: Named>(board: &Board<B>, rt: &impl Wait, custodian: &mut Custodian) -> Party
    requires front { custodian.old.writer.name ≡ B.name }
    ensures same { custodian.new ≡ custodian.old }
    ensures analyst { IsAnalystOf B.name custodian.old.writer.start.shape result }
    ensures behind { IsBehind custodian.old.writer result }
{
    let mut pass = board.pass(rt);
    board.confirm(custodian, &mut pass);
    Party::Analyst(pass)
}
