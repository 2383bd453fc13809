// A party whose batches are written ahead.

ghost use Rattle.std.specs.Prelude.{◌≡◌, ◌≤◌, ◌+◌, ℕ, Bool, true, List, All, length};
ghost use Rattle.tb_ahead.specs.Publishing.{IsPublishReply, StateValue, let_go};
ghost use Rattle.tb_ahead.specs.Trials.{IsTried};
ghost use Rattle.tb_io.specs.declared.limits.TheConstants.{MOST_LINE_BYTES};
ghost use Rattle.tb_lines.specs.Moments.{IsReplied, moment};
ghost use Rattle.tb_lines.specs.Outputs.{ReplyValue};
ghost use Rattle.tb_model.specs.Releases.{ReleaseValue};
ghost use Rattle.tb_release.specs.Chains.{release_after};
ghost use Rattle.tb_spelling.specs.Payloads.{CanBeWritten};

use std::sync::ledger::Ledger;
use tb_base::Steps;
use tb_io::{Sink, Wrote};
use tb_release::Edits;

/// Whether edits can follow a release, so far as memory suffices to tell.
#[derive(Clone, Copy, Debug, PartialEq, Eq)]
pub enum Trial {
    Follows,
    Refused,
    Memory,
}

/// A party whose lines are answered, in a setting `C`, past a gate `G`, and whose batch may be
/// tried before it asks to publish it.
///
/// `base` is release 0 of its chain, which stays, and `state` where it stands. `Step` says which
/// reply to a line leads from where to where, over a release 0, and `publishes` which lines ask to
/// publish. `IsReady` is the condition under which it answers, which every answer keeps.
pub trait Publisher<C, G> {
    ghost base: { Self → ReleaseValue };

    ghost state: { Self → StateValue };

    ghost publishes: { List ℕ → Bool };

    ghost IsReady: { C → Self → Type 0 };

    ghost Step: { C → ReleaseValue → StateValue → List ℕ → ReplyValue → StateValue → Type 0 };

    /// Makes ready for the lines of another source: no edits are held.
    fn begin(&mut self, setting: &C)
        requires { IsReady setting.now self.old }
        ensures ready { IsReady setting.now self.new }
        ensures base { base self.new ≡ base self.old }
        ensures state { state self.new ≡ let_go (state self.old) };

    /// Whether a line asks to publish.
    fn asks_to_publish(&self, line: &[u8]) -> bool
        ensures { result ≡ publishes line.now };

    /// Whether the held edits can follow the current release. It takes memory for the next one, and
    /// changes nothing.
    fn try_next(&mut self, setting: &C) -> Trial
        requires { IsReady setting.now self.old }
        ensures ready { IsReady setting.now self.new }
        ensures base { base self.new ≡ base self.old }
        ensures state { state self.new ≡ state self.old }
        ensures tried { IsTried (release_after (base self.old) (state self.old).chain)
            (state self.old).held result };

    /// The edits that are held, each of which can be written.
    fn held(&self, setting: &C) -> &Edits
        requires { IsReady setting.now self.now }
        ensures held { result.now ≡ (state self.now).held }
        ensures writable { All CanBeWritten result.now };

    /// Writes the reply to a line, or a part of it and fails, at no more than its price. After a
    /// failed write it is as after the line.
    fn answer_line<K: Sink, L: Ledger>(
        &mut self,
        setting: &C,
        line: &[u8],
        sink: &mut K,
        gate: &mut G,
        steps: &mut Steps<L>,
    ) -> Wrote
        requires few { length line.now ≤ MOST_LINE_BYTES }
        requires ready { IsReady setting.now self.old }
        ensures ready { IsReady setting.now self.new }
        ensures base { base self.new ≡ base self.old }
        ensures replied { IsReplied (Step setting.now (base self.old)) line.now result
            (moment (state self.old) steps.old (K.taken sink.old) (K.faults sink.old))
            (moment (state self.new) steps.new (K.taken sink.new) (K.faults sink.new)) };

    /// The reply to a line that asks to publish goes by the held edits and the current release.
    ghost publishing: { (setting : C) (base : ReleaseValue) (old : StateValue) (line : List ℕ)
        (reply : ReplyValue) (new : StateValue) → publishes line ≡ true
        → Step setting base old line reply new
        → (reply.price ≡ 0)
        × IsPublishReply (release_after base old.chain) old reply.text new };
}
