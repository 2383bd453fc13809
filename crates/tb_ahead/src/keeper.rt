// A party and its journal, which answer lines.

ghost use Rattle.std.specs.Prelude.{◌≡◌};

use crate::ahead::WriteAhead;
use crate::answering::answer_ahead;
use crate::publisher::Publisher;
use std::alloc::Global;
use std::sync::ledger::Ledger;
use tb_base::Steps;
use tb_io::{Sink, Wrote};
use tb_lines::Answerer;

/// A party, what it writes its batches ahead into, and the memory for both.
pub struct Keeper<P, W> {
    pub party: P,
    pub ahead: W,
    pub alloc: Global,
}

impl<C, G, P: Publisher<C, G>, W: WriteAhead> Answerer<C, G, ()> for Keeper<P, W> {
    ghost use Rattle.tb_ahead.specs.Keepers.{KeeperValue, KeepsTo, at_start, keeper};

    ghost State = { KeeperValue W };

    ghost state = { λ k. keeper (P.base k.party) (P.state k.party) k.ahead };

    ghost fresh = { at_start };

    ghost IsReady = { λ c k. P.IsReady c k.party × W.IsReady k.ahead };

    ghost MayAsk = { λ c who. Unit {0} };

    ghost Step = { λ c who old line reply new.
        KeepsTo W.Continues W.live W.faults W.StandsFor (P.Step c) P.publishes old line reply new };

    fn begin(&mut self, setting: &C) {
        self.party.begin(setting);
    }

    fn answer<K: Sink, L: Ledger>(
        &mut self,
        setting: &C,
        _who: (),
        line: &[u8],
        sink: &mut K,
        gate: &mut G,
        steps: &mut Steps<L>,
    ) -> Wrote {
        let alloc = self.alloc;
        answer_ahead(
            setting,
            alloc,
            &mut self.party,
            &mut self.ahead,
            line,
            sink,
            gate,
            steps,
        )
    }
}
