ghost use Rattle.std.specs.Prelude.{◌≡◌, ◌≤◌, ℕ, List, length};
ghost use Rattle.tb_io.specs.declared.limits.TheConstants.{MOST_LINE_BYTES};
ghost use Rattle.tb_lines.specs.Moments.{IsReplied, moment};
ghost use Rattle.tb_lines.specs.Outputs.{ReplyValue};

use std::sync::ledger::Ledger;
use tb_base::Steps;
use tb_io::{Sink, Wrote};

/// What answers lines, in a setting `C`, past a gate `G`. Who asks a line is told by a `W`, which
/// is `()` where that makes no difference.
///
/// `State` is what its replies depend on, and `Step` says which reply to a line leads from a state
/// to which. `fresh` is the state at which the lines of a source or of a list begin. `IsReady` is
/// the condition under which it answers, which every answer keeps, and `MayAsk` says who may ask.
pub trait Answerer<C, G, W> {
    ghost State: { Type 0 };

    ghost state: { Self → State };

    ghost fresh: { State → State };

    ghost IsReady: { C → Self → Type 0 };

    ghost MayAsk: { C → W → Type 0 };

    ghost Step: { C → W → State → List ℕ → ReplyValue → State → Type 0 };

    /// Makes ready for the lines of another source or list.
    fn begin(&mut self, setting: &C)
        requires { IsReady setting.now self.old }
        ensures ready { IsReady setting.now self.new }
        ensures state { state self.new ≡ fresh (state self.old) };

    /// Writes the reply to a line, or a part of it and fails, at no more than its price. After a
    /// failed write it is as after the line.
    fn answer<K: Sink, L: Ledger>(
        &mut self,
        setting: &C,
        who: W,
        line: &[u8],
        sink: &mut K,
        gate: &mut G,
        steps: &mut Steps<L>,
    ) -> Wrote
        requires few { length line.now ≤ MOST_LINE_BYTES }
        requires ready { IsReady setting.now self.old }
        requires may { MayAsk setting.now who }
        ensures ready { IsReady setting.now self.new }
        ensures replied { IsReplied (Step setting.now who) line.now result
            (moment (state self.old) steps.old (K.taken sink.old) (K.faults sink.old))
            (moment (state self.new) steps.new (K.taken sink.new) (K.faults sink.new)) };
}
