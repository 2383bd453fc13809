// The lines of a list, answered one after another.

ghost use Rattle.std.specs.Prelude.{◌≡◌, ◌<◌, ◌≤◌, ℕ, List, Some, length, slice_get};
ghost use Rattle.tb_io.specs.Faults.{HasRisen};
ghost use Rattle.tb_io.specs.declared.answers.Wrote.TheVariants as wrote;
ghost use Rattle.tb_io.specs.declared.limits.TheConstants.{MOST_LINE_BYTES};
ghost use Rattle.tb_lines.specs.Lists.{IsListAnswered, StepBy};
ghost use Rattle.tb_lines.specs.Outputs.{AtPrice, Lead, charged};

use crate::answerer::Answerer;
use std::sync::ledger::Ledger;
use tb_base::Steps;
use tb_io::{Sink, Wrote};

/// A list of lines, each with who asks it, by their places, from 0.
///
/// `lines` are what its lines are, `text` is the text of one, and `Asks` says who asks it.
pub trait LineList<W> {
    ghost Line: { Type 0 };

    ghost lines: { Self → List Line };

    ghost text: { Line → List ℕ };

    ghost Asks: { Self → Line → W → Type 0 };

    /// How many lines there are.
    fn len(&self) -> usize
        ensures { result ≡ length (lines self.now) };

    /// Who asks the line at a place.
    fn who(&self, i: usize) -> W
        requires { i < length (lines self.now) }
        ensures { (line : Line) × (slice_get (lines self.now) i ≡ Some line)
            × Asks self.now line result };

    /// The text of the line at a place.
    fn line(&self, i: usize) -> &[u8]
        requires { i < length (lines self.now) }
        ensures text { (line : Line) × (slice_get (lines self.now) i ≡ Some line)
            × (result.now ≡ text line) }
        ensures few { length result.now ≤ MOST_LINE_BYTES };
}

/// Answers the lines of a list, one after another, until a write fails. It takes no memory but for
/// the replies.
pub fn answer_list<C, G, W, T: LineList<W>, A: Answerer<C, G, W>, K: Sink, L: Ledger>(
    setting: &C,
    party: &mut A,
    lines: &T,
    sink: &mut K,
    gate: &mut G,
    steps: &mut Steps<L>,
) -> Wrote
    requires ready { A.IsReady setting.now party.old }
    requires may { (line : T.Line) (who : W) → T.Asks lines.now line who
        → A.MayAsk setting.now who }
    ensures ready { A.IsReady setting.now party.new }
    ensures count { K.faults sink.old ≤ K.faults sink.new }
    ensures failed { result ≡ wrote.Failed → HasRisen (K.faults sink.old) (K.faults sink.new) }
    ensures answered { IsListAnswered
        (Lead (AtPrice (StepBy (T.Asks lines.now) T.text (A.Step setting.now)))) result
        (T.lines lines.now)
        (charged (A.fresh (A.state party.old)) steps.old) (charged (A.state party.new) steps.new)
        (K.taken sink.old) (K.taken sink.new) }
{
    party.begin(setting);
    for i in 0..lines.len() {
        let who = lines.who(i);
        let line = lines.line(i);
        match party.answer(setting, who, line, sink, gate, steps) {
            Wrote::All => {}
            Wrote::Failed => return Wrote::Failed,
        }
    }
    Wrote::All
}
