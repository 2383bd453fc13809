// An owner, as one that answers lines.

ghost use Rattle.std.specs.Prelude.{◌≡◌};

use crate::owner::Owner;
use std::marker::PhantomData;
use std::sync::ledger::Ledger;
use tb_base::Steps;
use tb_board::Named;
use tb_build::Open;
use tb_io::{Sink, Wrote};
use tb_lines::Answerer;

/// The owner of the board of a name, as one that answers lines.
#[derive(Drop)]
pub struct Seat<O, B> {
    pub owner: O,
    board: PhantomData<B>,
}

impl<O, B> Seat<O, B> {
    /// This owner.
    pub fn new(owner: O) -> Seat<O, B>
        ensures { result.owner ≡ owner }
    {
        Seat {
            owner,
            board: PhantomData,
        }
    }
}

impl<C, B: Named, O: Owner<C, B>> Answerer<C, Open, ()> for Seat<O, B> {
    ghost State = { O.State };

    ghost state = { λ seat. O.state seat.owner };

    ghost fresh = { O.fresh };

    ghost IsReady = { λ c seat. O.IsReady c seat.owner };

    ghost MayAsk = { λ c who. Unit {0} };

    ghost Step = { λ c who. O.Step c };

    fn begin(&mut self, setting: &C) {
        self.owner.begin(setting);
    }

    fn answer<K: Sink, L: Ledger>(
        &mut self,
        setting: &C,
        _who: (),
        line: &[u8],
        sink: &mut K,
        gate: &mut Open,
        steps: &mut Steps<L>,
    ) -> Wrote {
        self.owner.answer(setting, line, sink, gate, steps)
    }
}
