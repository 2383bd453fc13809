// A mirror, as the owner of its board's custodian.

ghost use Rattle.std.specs.Prelude.{◌≡◌, [], None};
ghost use Rattle.tb_session.specs.declared.party.Party.TheVariants as party;

use crate::asks::{MirrorAsks, asks_of};
use crate::board_chain::BoardChain;
use crate::board_follower::BoardFollower;
use std::alloc::Global;
use std::sync::Wait;
use std::sync::ledger::Ledger;
use std::thread::Threads;
use tb_base::Steps;
use tb_board::{Custodian, Named};
use tb_build::Open;
use tb_follow::Window;
use tb_io::{Sink, Wrote};
use tb_leader::{LeaderLane, answer};
use tb_session::{Custody, Owner, Party, Setting};

/// The custodian of a board whose batches are a leader's: the lane of the leader's messages, which
/// are published on the board. A session begins without an open message; what waits stays.
#[derive(Drop)]
pub struct Mirror {
    pub lane: LeaderLane<BoardFollower>,
}

impl Mirror {
    /// A mirror over the board of this custodian, with no messages.
    pub fn new(alloc: Global, custodian: Custodian) -> Mirror
        ensures custodian { result.lane.follower.chain.custody.party
            ≡ party.Custodian custodian [] }
        ensures window { result.lane.follower.window ≡ [] }
        ensures open { result.lane.open ≡ None }
    {
        let custody = Custody::new(alloc, custodian);
        let follower = BoardFollower {
            chain: BoardChain { custody },
            window: Window::new(alloc),
        };
        Mirror {
            lane: LeaderLane::new(follower),
        }
    }
}

impl<'a, B: Named, R: Threads + Wait + Sync> Owner<Setting<'a, B, R>, B> for Mirror {
    ghost use Rattle.std.specs.Thread.{IsSync};
    ghost use Rattle.tb_leader.specs.Lanes.{IsLaneOf, LaneValue, without_message};
    ghost use Rattle.tb_mirror.specs.BoardChains.{IsBoardFollower, standing};
    ghost use Rattle.tb_mirror.specs.MirrorReplies.{IsMirrorStep};
    ghost use Rattle.tb_model.specs.Schemas.{shape_of};
    ghost use Rattle.tb_session.specs.OwnerLaws.{has_written};
    ghost use Rattle.tb_session.specs.Parties.{seen_by};

    ghost State = { LaneValue };

    ghost state = { λ o. standing o.lane.follower.chain.custody.party o.lane.follower.window
        o.lane.open };

    ghost fresh = { without_message };

    ghost IsReady = { λ c o. IsSync R.row
        × IsBoardFollower B.name (shape_of c.setup.now.schema) o.lane.follower.chain.custody.party
        o.lane.follower.window
        × IsLaneOf (shape_of c.setup.now.schema)
        (standing o.lane.follower.chain.custody.party o.lane.follower.window o.lane.open) };

    ghost Step = { λ c. IsMirrorStep c.setup.now };

    ghost shape = { λ c. shape_of c.setup.now.schema };

    ghost base = { λ lane. lane.follower.chain.base };

    ghost chain = { λ lane. lane.follower.chain.batches };

    ghost writer = { λ o. seen_by o.lane.follower.chain.custody.party };

    fn begin(&mut self, _setting: &Setting<'a, B, R>) {
        self.lane.open = None;
    }

    fn answer<K: Sink, L: Ledger>(
        &mut self,
        setting: &Setting<'a, B, R>,
        line: &[u8],
        sink: &mut K,
        gate: &mut Open,
        steps: &mut Steps<L>,
    ) -> Wrote {
        match asks_of(line) {
            MirrorAsks::Where => self.lane.follower.chain.answer_where(setting, sink),
            MirrorAsks::Custodian => {
                let chain = &mut self.lane.follower.chain;
                chain.answer_custodian(setting, line, sink, gate, steps)
            }
            MirrorAsks::Leader => {
                let setup = setting.setup;
                answer(
                    setting,
                    setting.alloc,
                    &setup.schema,
                    &mut self.lane,
                    line,
                    sink,
                )
            }
        }
    }

    fn analyst(&mut self, setting: &Setting<'a, B, R>) -> Party {
        self.lane.follower.chain.custody.analyst(setting)
    }

    fn tell(&mut self, setting: &Setting<'a, B, R>, party: &mut Party) {
        self.lane.follower.chain.custody.tell(setting, party);
    }

    fn confirm(&mut self, setting: &Setting<'a, B, R>, party: &mut Party) {
        self.lane.follower.chain.custody.confirm(setting, party);
    }

    fn release(&self, setting: &Setting<'a, B, R>) -> u32 {
        self.lane.follower.chain.custody.release(setting)
    }

    ghost written = { λ c o ready. has_written B.name (shape_of c.setup.now.schema)
        o.lane.follower.chain.custody.party ready.1.owner };
}
