// Who follows a leader's chain on a board.

ghost use Rattle.std.specs.Prelude.{◌≡◌, []};

use crate::board_chain::BoardChain;
use std::alloc::Global;
use std::sync::Wait;
use std::thread::Threads;
use tb_board::{Custodian, Named};
use tb_follow::{Delivered, Message, Window, deliver};
use tb_leader::Receiver;
use tb_session::Setting;

/// Who follows a leader's chain on a board: the chain of the board's custodian, and the messages
/// that wait for it.
#[derive(Drop)]
pub struct BoardFollower {
    pub chain: BoardChain,
    pub window: Window,
}

impl<'a, B: Named, R: Threads + Wait + Sync> Receiver<Setting<'a, B, R>> for BoardFollower {
    ghost use Rattle.std.specs.Prelude.{false};
    ghost use Rattle.std.specs.Thread.{IsSync};
    ghost use Rattle.tb_follow.specs.Followers.{follower};
    ghost use Rattle.tb_mirror.specs.BoardChains.{IsBoardFollower, chain_seen};
    ghost use Rattle.tb_model.specs.Schemas.{shape_of};
    ghost use Rattle.tb_session.specs.Parties.{seen_by};

    ghost value = { λ o. follower (chain_seen (seen_by o.chain.custody.party)) o.window };

    ghost restarts = { false };

    ghost IsReady = { λ c o. IsSync R.row
        × IsBoardFollower B.name (shape_of c.setup.now.schema) o.chain.custody.party o.window };

    fn deliver(&mut self, setting: &Setting<'a, B, R>, message: Message) -> Delivered {
        deliver(setting, &mut self.chain, &mut self.window, message)
    }

    fn restart(&mut self, _setting: &Setting<'a, B, R>) -> bool {
        false
    }
}
