// The answer to a line of a party that writes its batches ahead.
//
// A choice that a wrong body is to change stands in a small function without an answer, and an arm
// that it is to change last: so the edit is refused by what isn't proved, not by a name.

ghost use Rattle.std.specs.Prelude.{◌≡◌, ◌<◌, ◌≤◌, true, length};
ghost use Rattle.tb_ahead.specs.Keepers.{KeepsTo, LeadsBy, keeper};
ghost use Rattle.tb_ahead.specs.Stages.{IsClosedUnlessNone, IsKeptBy};
ghost use Rattle.tb_io.specs.declared.limits.TheConstants.{MOST_LINE_BYTES};
ghost use Rattle.tb_lines.specs.Moments.{IsReplied, moment};
ghost use Rattle.tb_release.specs.Batches.{CanFollow};
ghost use Rattle.tb_release.specs.Chains.{release_after};

use crate::ahead::{Put, WriteAhead};
use crate::publisher::{Publisher, Trial};
use std::alloc::Global;
use std::sync::ledger::Ledger;
use tb_base::Steps;
use tb_io::{Sink, Wrote};

// Puts the held edits, if anything is put still.
fn put_held<C, G, P: Publisher<C, G>, W: WriteAhead>(
    setting: &C,
    alloc: Global,
    party: &P,
    ahead: &mut W,
) -> Put
    requires ready { P.IsReady setting.now party.now }
    requires puts { W.IsReady ahead.old }
    requires some { 0 < length (P.state party.now).held }
    ensures puts { W.IsReady ahead.new }
    ensures continues { W.Continues ahead.old ahead.new }
    ensures kept { IsKeptBy (P.state party.now).held (W.StandsFor ahead.old)
        (W.StandsFor ahead.new) (W.live ahead.old) (W.live ahead.new) (W.faults ahead.old)
        (W.faults ahead.new) result }
{
    if !ahead.is_live() {
        return Put::DiskFault;
    }
    ahead.put(alloc, party.held(setting))
}

// Ends live where edits are held still.
fn close_unless_none<C, G, P: Publisher<C, G>, W: WriteAhead>(setting: &C, party: &P, ahead: &mut W)
    requires ready { P.IsReady setting.now party.now }
    requires puts { W.IsReady ahead.old }
    ensures puts { W.IsReady ahead.new }
    ensures continues { W.Continues ahead.old ahead.new }
    ensures count { W.faults ahead.new ≡ W.faults ahead.old }
    ensures closes { IsClosedUnlessNone (P.state party.now).held (W.StandsFor ahead.old)
        (W.StandsFor ahead.new) (W.live ahead.old) (W.live ahead.new) }
{
    if party.held(setting).len() > 0 {
        ahead.close();
    }
}

// Puts the held edits, which can follow, and then has them published. Where they were put and
// nothing was published, nothing is put any more.
fn write_ahead<C, G, P: Publisher<C, G>, W: WriteAhead, K: Sink, L: Ledger>(
    setting: &C,
    alloc: Global,
    party: &mut P,
    ahead: &mut W,
    line: &[u8],
    sink: &mut K,
    gate: &mut G,
    steps: &mut Steps<L>,
) -> Wrote
    requires few { length line.now ≤ MOST_LINE_BYTES }
    requires ready { P.IsReady setting.now party.old }
    requires puts { W.IsReady ahead.old }
    requires asks { P.publishes line.now ≡ true }
    requires follows { CanFollow (release_after (P.base party.old) (P.state party.old).chain)
        (P.state party.old).held }
    ensures ready { P.IsReady setting.now party.new }
    ensures puts { W.IsReady ahead.new }
    ensures replied { IsReplied
        (LeadsBy W.Continues W.live W.faults W.StandsFor (P.Step setting.now) true) line.now result
        (moment (keeper (P.base party.old) (P.state party.old) ahead.old) steps.old
        (K.taken sink.old) (K.faults sink.old))
        (moment (keeper (P.base party.new) (P.state party.new) ahead.new) steps.new
        (K.taken sink.new) (K.faults sink.new)) }
{
    match put_held(setting, alloc, party, ahead) {
        Put::Kept => {
            let done = party.answer_line(setting, line, sink, gate, steps);
            close_unless_none(setting, party, ahead);
            done
        }
        Put::DiskFault => sink.write(b"unkept\n"),
        Put::Memory => sink.write(b"memory\n"),
    }
}

// Tries the held edits, which are refused as ever, or put and then published.
fn publish_ahead<C, G, P: Publisher<C, G>, W: WriteAhead, K: Sink, L: Ledger>(
    setting: &C,
    alloc: Global,
    party: &mut P,
    ahead: &mut W,
    line: &[u8],
    sink: &mut K,
    gate: &mut G,
    steps: &mut Steps<L>,
) -> Wrote
    requires few { length line.now ≤ MOST_LINE_BYTES }
    requires ready { P.IsReady setting.now party.old }
    requires puts { W.IsReady ahead.old }
    requires asks { P.publishes line.now ≡ true }
    ensures ready { P.IsReady setting.now party.new }
    ensures puts { W.IsReady ahead.new }
    ensures replied { IsReplied
        (LeadsBy W.Continues W.live W.faults W.StandsFor (P.Step setting.now) true) line.now result
        (moment (keeper (P.base party.old) (P.state party.old) ahead.old) steps.old
        (K.taken sink.old) (K.faults sink.old))
        (moment (keeper (P.base party.new) (P.state party.new) ahead.new) steps.new
        (K.taken sink.new) (K.faults sink.new)) }
{
    match party.try_next(setting) {
        Trial::Refused => party.answer_line(setting, line, sink, gate, steps),
        Trial::Memory => sink.write(b"memory\n"),
        Trial::Follows => write_ahead(setting, alloc, party, ahead, line, sink, gate, steps),
    }
}

/// Writes the reply to a line of a party that writes its batches ahead. A line that doesn't ask to
/// publish is answered as the party does. One that does has the held edits tried first: where they
/// are refused, or memory for the next release is, that is the reply; else they are put, and once
/// they are kept, they are published. Where nothing is put any more, or the disk fails, the reply
/// is `unkept`: nothing is published, and the edits are held still. Where memory is refused after
/// they were kept, nothing is put any more.
pub fn answer_ahead<C, G, P: Publisher<C, G>, W: WriteAhead, K: Sink, L: Ledger>(
    setting: &C,
    alloc: Global,
    party: &mut P,
    ahead: &mut W,
    line: &[u8],
    sink: &mut K,
    gate: &mut G,
    steps: &mut Steps<L>,
) -> Wrote
    requires few { length line.now ≤ MOST_LINE_BYTES }
    requires ready { P.IsReady setting.now party.old }
    requires puts { W.IsReady ahead.old }
    ensures ready { P.IsReady setting.now party.new }
    ensures puts { W.IsReady ahead.new }
    // Wherever the party stood, the file stands for what the reply leads to.
    ensures replied { IsReplied
        (KeepsTo W.Continues W.live W.faults W.StandsFor (P.Step setting.now) P.publishes) line.now
        result
        (moment (keeper (P.base party.old) (P.state party.old) ahead.old) steps.old
        (K.taken sink.old) (K.faults sink.old))
        (moment (keeper (P.base party.new) (P.state party.new) ahead.new) steps.new
        (K.taken sink.new) (K.faults sink.new)) }
{
    if party.asks_to_publish(line) {
        return publish_ahead(setting, alloc, party, ahead, line, sink, gate, steps);
    }
    party.answer_line(setting, line, sink, gate, steps)
}
