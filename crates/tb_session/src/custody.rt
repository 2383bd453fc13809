// The custodian of a board, who answers its own lines.

ghost use Rattle.std.specs.Prelude.{◌≡◌, [], length};
ghost use Rattle.tb_board.specs.Custodians.{IsWhole};
ghost use Rattle.tb_session.specs.declared.party.Party.TheVariants as party;

use crate::confirming::{analyst_of, confirm, tell};
use crate::owner::Owner;
use crate::party::Party;
use crate::sessions::Setting;
use std::alloc::Global;
use std::sync::Wait;
use std::sync::ledger::Ledger;
use std::thread::Threads;
use tb_base::Steps;
use tb_board::{Board, Custodian, Named};
use tb_build::Open;
use tb_io::{Sink, Wrote};
use tb_lines::Answerer;
use tb_release::Edits;

/// An analyst of a board who has seen what its custodian has: its pass learns that, and is
/// confirmed.
pub fn informed_analyst<B: Named>(
    board: &Board<B>,
    rt: &impl Wait,
    custodian: &mut Custodian,
) -> Party
    requires front { custodian.old.writer.name ≡ B.name }
    requires whole { IsWhole custodian.old }
    ensures same { custodian.new ≡ custodian.old }
    ensures party { result ≡ party.Analyst custodian.old.writer }
{
    let mut party = analyst_of(board, rt, custodian);
    tell(board, custodian, &mut party);
    confirm(board, custodian, &mut party);
    party
}

// The number of a custodian's release.
fn release_of(custodian: &Custodian) -> u32
    requires { IsWhole custodian.now }
    ensures { result ≡ length custodian.now.writer.list }
{
    custodian.soundness();
    custodian.number()
}

/// The custodian of a board with the edits that are held.
#[derive(Drop)]
pub struct Custody {
    pub party: Party,
}

impl Custody {
    /// The custodian, who holds no edits.
    pub fn new(alloc: Global, custodian: Custodian) -> Custody
        ensures { result.party ≡ party.Custodian custodian [] }
    {
        Custody {
            party: Party::Custodian(custodian, Edits::new(alloc)),
        }
    }
}

impl<'a, B: Named, R: Threads + Wait + Sync> Owner<Setting<'a, B, R>, B> for Custody {
    ghost use Rattle.std.specs.Thread.{IsSync};
    ghost use Rattle.tb_model.specs.Schemas.{shape_of};
    ghost use Rattle.tb_session.specs.OwnerLaws.{has_written};
    ghost use Rattle.tb_session.specs.Parties.{IsOwnerOf, seen_by};
    ghost use Rattle.tb_session.specs.PartySessions.{IsPartyStep, with_none_held};
    ghost use Rattle.tb_session.specs.declared.party.Party.{Party as PartyValue};

    ghost State = { PartyValue };

    ghost state = { λ custody. custody.party };

    ghost fresh = { with_none_held };

    ghost IsReady = { λ c custody. IsSync R.row
        × IsOwnerOf B.name (shape_of c.setup.now.schema) custody.party };

    ghost Step = { λ c. IsPartyStep c.setup.now };

    ghost shape = { λ c. shape_of c.setup.now.schema };

    ghost base = { λ one. (seen_by one).start.base };

    ghost chain = { λ one. (seen_by one).list };

    ghost writer = { λ custody. seen_by custody.party };

    fn begin(&mut self, _setting: &Setting<'a, B, R>) {
        self.party.drop_held();
    }

    fn answer<K: Sink, L: Ledger>(
        &mut self,
        setting: &Setting<'a, B, R>,
        line: &[u8],
        sink: &mut K,
        gate: &mut Open,
        steps: &mut Steps<L>,
    ) -> Wrote {
        self.party.answer(setting, (), line, sink, gate, steps)
    }

    fn analyst(&mut self, setting: &Setting<'a, B, R>) -> Party {
        match &mut self.party {
            Party::Custodian(custodian, _) => {
                informed_analyst(setting.board, setting.rt, custodian)
            }
            Party::Analyst(_) => unreachable!(),
        }
    }

    fn tell(&mut self, setting: &Setting<'a, B, R>, party: &mut Party) {
        match &mut self.party {
            Party::Custodian(custodian, _) => tell(setting.board, custodian, party),
            Party::Analyst(_) => unreachable!(),
        }
    }

    fn confirm(&mut self, setting: &Setting<'a, B, R>, party: &mut Party) {
        match &mut self.party {
            Party::Custodian(custodian, _) => confirm(setting.board, custodian, party),
            Party::Analyst(_) => unreachable!(),
        }
    }

    fn release(&self, _setting: &Setting<'a, B, R>) -> u32 {
        match &self.party {
            Party::Custodian(custodian, _) => release_of(custodian),
            Party::Analyst(_) => unreachable!(),
        }
    }

    ghost written = { λ c custody ready.
        has_written B.name (shape_of c.setup.now.schema) custody.party ready.1 };
}
