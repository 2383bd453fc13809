// A worker: it serves the sessions of one listener, one after another.

ghost use Rattle.tb_io.specs.Listeners.{CanAccept};
ghost use Rattle.tb_lines.specs.Outputs.{Lead};
ghost use Rattle.tb_worker.specs.Work.{HasStepped, HasWorked};

use crate::next::Next;
use crate::shift::Shift;
use std::sync::ledger::Ledger;
use tb_base::Steps;
use tb_io::{Accepted, LineReader, Listen};
use tb_lines::{Answerer, answer_lines};

// Serves the next session, if there is one, and gives it back.
fn serve_next<C, G, A: Answerer<C, G, ()>, N: Listen, L: Ledger>(
    setting: &C,
    listener: &mut N,
    party: &mut A,
    lines: &mut LineReader,
    gate: &mut G,
    steps: &mut Steps<L>,
) -> Next
    requires ready { A.IsReady setting.now party.old }
    requires may { A.MayAsk setting.now tt }
    requires can { CanAccept (N.seen listener.old) }
    ensures ready { A.IsReady setting.now party.new }
    ensures step { HasStepped (Lead (A.Step setting.now tt)) A.fresh (N.seen listener.old)
        (N.seen listener.new) (A.state party.old) (A.state party.new) result }
{
    match listener.accept() {
        Accepted::Session(mut reader, mut writer) => {
            answer_lines(setting, party, lines, &mut reader, &mut writer, gate, steps);
            listener.give_back(reader, writer);
            Next::Served
        }
        Accepted::End => Next::NoneCame,
        Accepted::Failed => Next::Failed,
    }
}

/// Serves the sessions of a listener, one after another, until so many were served, none is to
/// come, or an accept failed, and tells how many it served and whether an accept failed.
///
/// Each session is accepted, answered as one of this party, and given back; one that ends by a
/// fault ends no other. The party goes on from one session to the next, and begins each afresh. It
/// takes memory for the replies alone, and counts their steps.
pub fn serve_sessions<C, G, A: Answerer<C, G, ()>, N: Listen, L: Ledger>(
    setting: &C,
    sessions: u32,
    listener: &mut N,
    party: &mut A,
    lines: &mut LineReader,
    gate: &mut G,
    steps: &mut Steps<L>,
) -> Shift
    requires ready { A.IsReady setting.now party.old }
    requires may { A.MayAsk setting.now tt }
    requires can { CanAccept (N.seen listener.old) }
    ensures ready { A.IsReady setting.now party.new }
    ensures worked { HasWorked (Lead (A.Step setting.now tt)) A.fresh sessions (N.seen listener.old)
        (N.seen listener.new) (A.state party.old) (A.state party.new) result.served
        result.failed }
{
    for served in 0..sessions {
        match serve_next(setting, listener, party, lines, gate, steps) {
            Next::Served => {}
            Next::NoneCame => {
                return Shift {
                    served,
                    failed: false,
                };
            }
            Next::Failed => {
                return Shift {
                    served,
                    failed: true,
                };
            }
        }
    }
    Shift {
        served: sessions,
        failed: false,
    }
}
