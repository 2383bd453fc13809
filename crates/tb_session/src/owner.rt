ghost use Rattle.std.specs.Prelude.{◌≡◌, ◌≤◌, ℕ, List, length};
ghost use Rattle.tb_board.specs.Holders.{HolderValue};
ghost use Rattle.tb_io.specs.declared.limits.TheConstants.{MOST_LINE_BYTES};
ghost use Rattle.tb_lines.specs.Moments.{IsReplied, moment};
ghost use Rattle.tb_lines.specs.Outputs.{ReplyValue};
ghost use Rattle.tb_model.specs.Releases.{ReleaseValue};
ghost use Rattle.tb_release.specs.Batches.{BatchValue};
ghost use Rattle.tb_session.specs.Owners.{HasWritten};
ghost use Rattle.tb_session.specs.Parties.{IsAnalystOf, IsBehind, Learns, seen_by};
ghost use Rattle.tb_session.specs.declared.party.Party.TheVariants as party;

use crate::party::Party;
use std::sync::ledger::Ledger;
use tb_base::Steps;
use tb_board::Named;
use tb_build::Open;
use tb_io::{Sink, Wrote};

/// Who answers the custodian's lines, in a setting `C`, and holds the custodian of the board of
/// this name.
///
/// `State` is what its replies depend on, and `Step` says which reply to a line leads from a state
/// to which; `fresh` is the state at which the lines of a source or of a list begin. `writer` is
/// what the custodian's writer wrote: a chain of batches on a release 0, which the state tells
/// (`chain`, `base`), over the shape of the setting. `IsReady` is the condition under which it does
/// all this, which every call keeps.
pub trait Owner<C, B: Named> {
    ghost State: { Type 0 };

    ghost state: { Self → State };

    ghost fresh: { State → State };

    ghost IsReady: { C → Self → Type 0 };

    ghost Step: { C → State → List ℕ → ReplyValue → State → Type 0 };

    ghost shape: { C → List ℕ };

    ghost base: { State → ReleaseValue };

    ghost chain: { State → List BatchValue };

    ghost writer: { Self → HolderValue };

    /// Makes ready for the lines of another source or list.
    fn begin(&mut self, setting: &C)
        requires { IsReady setting.now self.old }
        ensures ready { IsReady setting.now self.new }
        ensures state { state self.new ≡ fresh (state self.old) };

    /// Writes the reply to a line, or a part of it and fails, at no more than its price. After a
    /// failed write it is as after the line.
    fn answer<K: Sink, L: Ledger>(
        &mut self,
        setting: &C,
        line: &[u8],
        sink: &mut K,
        gate: &mut Open,
        steps: &mut Steps<L>,
    ) -> Wrote
        requires few { length line.now ≤ MOST_LINE_BYTES }
        requires ready { IsReady setting.now self.old }
        ensures ready { IsReady setting.now self.new }
        ensures replied { IsReplied (Step setting.now) line.now result
            (moment (state self.old) steps.old (K.taken sink.old) (K.faults sink.old))
            (moment (state self.new) steps.new (K.taken sink.new) (K.faults sink.new)) };

    /// An analyst who has seen what the custodian has.
    fn analyst(&mut self, setting: &C) -> Party
        requires { IsReady setting.now self.old }
        ensures ready { IsReady setting.now self.new }
        ensures same { (writer self.new ≡ writer self.old) × (state self.new ≡ state self.old) }
        ensures party { result ≡ party.Analyst (writer self.old) };

    /// An analyst's pass learns what the custodian has seen.
    fn tell(&mut self, setting: &C, party: &mut Party)
        requires ready { IsReady setting.now self.old }
        requires analyst { IsAnalystOf B.name (shape setting.now) party.old }
        ensures ready { IsReady setting.now self.new }
        ensures same { (writer self.new ≡ writer self.old) × (state self.new ≡ state self.old) }
        ensures learns { Learns (writer self.old) party.old party.new };

    /// The custodian confirms an analyst's pass, which tells that it has seen a beginning of what
    /// the custodian wrote. It changes nothing.
    fn confirm(&mut self, setting: &C, party: &mut Party)
        requires ready { IsReady setting.now self.old }
        requires own { (seen_by party.old).name ≡ B.name }
        ensures ready { IsReady setting.now self.new }
        ensures same { (writer self.new ≡ writer self.old) × (state self.new ≡ state self.old) }
        ensures also { party.new ≡ party.old }
        ensures behind { IsBehind (writer self.old) party.old };

    /// The number of the custodian's release, which is how many batches were published.
    fn release(&self, setting: &C) -> u32
        requires { IsReady setting.now self.now }
        ensures { result ≡ length (writer self.now).list };

    /// Its state tells what the custodian's writer wrote.
    ghost written: { (setting : C) (own : Self) → IsReady setting own → HasWritten B.name
        (shape setting) (base (state own)) (chain (state own)) (writer own) };
}
