ghost use Rattle.std.specs.Prelude.{◌≡◌};
ghost use Rattle.tb_session.specs.PartySessions.{with_none_held};

use tb_board::{Custodian, Step};
use tb_front::Pass;
use tb_release::Edits;

/// What a line may ask for goes by who asks.
#[derive(Clone, Copy, Debug, PartialEq, Eq)]
pub enum Role {
    Analyst,
    Custodian,
}

/// Who asks: an analyst, by a pass; or the custodian of the board, with the edits that are held.
#[derive(Drop)]
pub enum Party {
    Analyst(Pass<Step>),
    Custodian(Custodian, Edits),
}

impl Party {
    /// Lets go of the edits that are held.
    pub fn drop_held(&mut self)
        ensures { self.new ≡ with_none_held self.old }
    {
        match self {
            Party::Analyst(_) => {}
            Party::Custodian(_, held) => held.clear(),
        }
    }
}
