// The custodian of a board who writes its batches ahead, as the owner of its lines.

ghost use Rattle.std.specs.Prelude.{◌≡◌};

use crate::publisher::BoardPublisher;
use std::sync::Wait;
use std::sync::ledger::Ledger;
use std::thread::Threads;
use tb_ahead::{Keeper, WriteAhead};
use tb_base::Steps;
use tb_board::Named;
use tb_build::Open;
use tb_io::{Sink, Wrote};
use tb_lines::Answerer;
use tb_session::{Owner, Party, Setting};

/// The custodian of a board, beside what it writes its batches ahead into.
pub struct JournalOwner<W> {
    pub keeper: Keeper<BoardPublisher, W>,
}

impl<'a, B: Named, R: Threads + Wait + Sync, W: WriteAhead> Owner<Setting<'a, B, R>, B>
    for JournalOwner<W> {
    ghost use Rattle.std.specs.Prelude.{IfSome};
    ghost use Rattle.std.specs.Thread.{IsSync};
    ghost use Rattle.tb_ahead.specs.Keepers.{KeeperValue, KeepsTo, at_start};
    ghost use Rattle.tb_keep.specs.JournalOwners.{keeper_of};
    ghost use Rattle.tb_keep.specs.Publishers.{CanWriteAhead, IsOwnStep, asks_to_publish};
    ghost use Rattle.tb_model.specs.Schemas.{shape_of};
    ghost use Rattle.tb_session.specs.OwnerLaws.{has_written};
    ghost use Rattle.tb_session.specs.Parties.{seen_by};
    ghost use Rattle.tb_session.specs.Prepared.{IsPreparedBy};

    ghost State = { KeeperValue W };

    ghost state = { λ o. keeper_of o.keeper.party.custody.party o.keeper.ahead };

    ghost fresh = { at_start };

    ghost IsReady = { λ c o. IsSync R.row
        × CanWriteAhead B.name (shape_of c.setup.now.schema) o.keeper.party.custody.party
        × IfSome o.keeper.party.prepared (IsPreparedBy o.keeper.party.custody.party)
        × W.IsReady o.keeper.ahead };

    ghost Step = { λ c. KeepsTo W.Continues W.live W.faults W.StandsFor (IsOwnStep c.setup.now)
        asks_to_publish };

    ghost shape = { λ c. shape_of c.setup.now.schema };

    ghost base = { λ one. one.base };

    ghost chain = { λ one. one.state.chain };

    ghost writer = { λ o. seen_by o.keeper.party.custody.party };

    fn begin(&mut self, setting: &Setting<'a, B, R>) {
        Answerer::<Setting<'a, B, R>, Open, ()>::begin(&mut self.keeper, setting);
    }

    fn answer<K: Sink, L: Ledger>(
        &mut self,
        setting: &Setting<'a, B, R>,
        line: &[u8],
        sink: &mut K,
        gate: &mut Open,
        steps: &mut Steps<L>,
    ) -> Wrote {
        self.keeper.answer(setting, (), line, sink, gate, steps)
    }

    fn analyst(&mut self, setting: &Setting<'a, B, R>) -> Party {
        self.keeper.party.custody.analyst(setting)
    }

    fn tell(&mut self, setting: &Setting<'a, B, R>, party: &mut Party) {
        self.keeper.party.custody.tell(setting, party);
    }

    fn confirm(&mut self, setting: &Setting<'a, B, R>, party: &mut Party) {
        self.keeper.party.custody.confirm(setting, party);
    }

    fn release(&self, setting: &Setting<'a, B, R>) -> u32 {
        self.keeper.party.custody.release(setting)
    }

    ghost written = { λ c o ready. has_written B.name (shape_of c.setup.now.schema)
        o.keeper.party.custody.party ready.1.owner };
}
