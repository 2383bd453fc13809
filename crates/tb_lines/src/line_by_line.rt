// The lines of a source, answered one after another.

ghost use Rattle.std.specs.Prelude.{◌≡◌, ◌≤◌};
ghost use Rattle.tb_io.specs.Faults.{HasRisen};
ghost use Rattle.tb_lines.specs.Outputs.{AtPrice, Lead, charged};
ghost use Rattle.tb_lines.specs.Sessions.{IsRefused, IsSession};
ghost use Rattle.tb_lines.specs.declared.session_end.SessionEnd.TheVariants as session_end;

use crate::answerer::Answerer;
use crate::foreign::is_foreign;
use crate::quit::is_quit;
use crate::session_end::{MOST_LINES, SessionEnd};
use std::sync::ledger::Ledger;
use tb_base::Steps;
use tb_io::{LineReader, NextLine, Sink, Source, Wrote};

// Refuses a line that is too long.
fn refuse<K: Sink>(sink: &mut K) -> SessionEnd
    ensures count { K.faults sink.old ≤ K.faults sink.new }
    ensures failed { result ≡ session_end.WriteFault
        → HasRisen (K.faults sink.old) (K.faults sink.new) }
    ensures refused { IsRefused result (K.taken sink.old) (K.taken sink.new) }
{
    match sink.write(b"refused 9 TooLong\n") {
        Wrote::All => SessionEnd::LineTooLong,
        Wrote::Failed => SessionEnd::WriteFault,
    }
}

/// Answers a source's lines, one after another, until one of the ends comes. It takes no memory but
/// for the replies.
pub fn answer_lines<C, G, A: Answerer<C, G, ()>, S: Source, K: Sink, L: Ledger>(
    setting: &C,
    party: &mut A,
    lines: &mut LineReader,
    source: &mut S,
    sink: &mut K,
    gate: &mut G,
    steps: &mut Steps<L>,
) -> SessionEnd
    requires ready { A.IsReady setting.now party.old }
    requires may { A.MayAsk setting.now tt }
    ensures ready { A.IsReady setting.now party.new }
    ensures reads { S.faults source.old ≤ S.faults source.new }
    ensures writes { K.faults sink.old ≤ K.faults sink.new }
    ensures read_fault { result ≡ session_end.ReadFault
        → HasRisen (S.faults source.old) (S.faults source.new) }
    ensures write_fault { result ≡ session_end.WriteFault
        → HasRisen (K.faults sink.old) (K.faults sink.new) }
    ensures session { IsSession (Lead (AtPrice (A.Step setting.now tt))) result
        (S.left source.old) (S.left source.new)
        (charged (A.fresh (A.state party.old)) steps.old) (charged (A.state party.new) steps.new)
        (K.taken sink.old) (K.taken sink.new) }
{
    lines.reset();
    party.begin(setting);
    'lines: for i in 0..MOST_LINES {
        match lines.next_line(source) {
            NextLine::Line => {}
            NextLine::End => return SessionEnd::Ended,
            NextLine::TooLong => return refuse(sink),
            NextLine::ReadFault => return SessionEnd::ReadFault,
        }
        let line = lines.line();
        if is_foreign(line) {
            return SessionEnd::Foreign;
        }
        if is_quit(line) {
            return SessionEnd::Ended;
        }
        match party.answer(setting, (), line, sink, gate, steps) {
            Wrote::All => {}
            Wrote::Failed => return SessionEnd::WriteFault,
        }
    }
    SessionEnd::TooManyLines
}
