// An analyst of a board over the small setup.

ghost use Rattle.std.specs.Prelude.{◌≡◌};
ghost use Rattle.tb_model.specs.Schemas.{shape_of};
ghost use Rattle.tb_session.specs.Parties.{IsPartyOf};

use std::sync::Wait;
use tb_board::{Board, Custodian, Named};
use tb_session::Party;
use tb_text::Setup;

// An analyst of the custodian's board.
pub fn analyst<B: Named>(
    rt: &impl Wait,
    setup: &Setup,
    board: &Board<B>,
    custodian: &mut Custodian,
) -> Party
    requires front { custodian.old.writer.name ≡ B.name }
    requires shape { custodian.old.writer.start.shape ≡ shape_of setup.now.schema }
    ensures same { custodian.new ≡ custodian.old }
    ensures party { IsPartyOf B.name (shape_of setup.now.schema) result }
{
    let _ = setup;
    let mut pass = board.pass(rt);
    board.confirm(custodian, &mut pass);
    Party::Analyst(pass)
}
