// Lines of a party, one after another.

ghost use Rattle.std.specs.Prelude.{◌≡◌, ◌<◌};
ghost use Rattle.tb_model.specs.Schemas.{shape_of};
ghost use Rattle.tb_session.specs.Parties.{IsPartyOf};

use std::marker::Brand;
use std::sync::Wait;
use std::sync::ledger::{Blank, Ledger};
use std::thread::Threads;
use tb_base::Steps;
use tb_board::Named;
use tb_build::Gate;
use tb_io::{MOST_LINE_BYTES, MemSink, Wrote};
use tb_session::{Party, Setting, answer};

// Answers a line, and returns whether all of the reply was taken.
fn ask_with<L: Ledger, B: Named, R: Threads + Wait + Sync, G: Gate>(
    blank: Blank,
    setting: &Setting<'_, B, R>,
    party: &mut Party,
    line: &[u8],
    sink: &mut MemSink,
    gate: &mut G,
) -> bool
    requires ledger { blank.name ≡ L.name }
    requires parts { blank.parts ≡ L.parts }
    requires some { 0 < L.parts }
    requires own { IsPartyOf B.name (shape_of setting.now.setup.now.schema) party.old }
    ensures own { IsPartyOf B.name (shape_of setting.now.setup.now.schema) party.new }
{
    let mut steps = Steps::<L>::new(blank);
    if line.len() > MOST_LINE_BYTES {
        return false;
    }
    match answer(
        setting.setup,
        setting.board,
        setting.rt,
        setting.alloc,
        party,
        line,
        sink,
        gate,
        &mut steps,
    ) {
        Wrote::All => true,
        Wrote::Failed => false,
    }
}

pub fn ask<B: Named, R: Threads + Wait + Sync, G: Gate>(
    setting: &Setting<'_, B, R>,
    party: &mut Party,
    line: &[u8],
    sink: &mut MemSink,
    gate: &mut G,
) -> bool
    requires own { IsPartyOf B.name (shape_of setting.now.setup.now.schema) party.old }
    ensures own { IsPartyOf B.name (shape_of setting.now.setup.now.schema) party.new }
{
    ask_with::<Brand, B, R, G>(Blank::new(1), setting, party, line, sink, gate)
}

// Answers the lines of a text, which pass the gate, and returns whether all replies were taken.
pub fn ask_all<B: Named, R: Threads + Wait + Sync, G: Gate>(
    setting: &Setting<'_, B, R>,
    party: &mut Party,
    lines: &str,
    sink: &mut MemSink,
    gate: &mut G,
) -> bool
    requires own { IsPartyOf B.name (shape_of setting.now.setup.now.schema) party.old }
    ensures own { IsPartyOf B.name (shape_of setting.now.setup.now.schema) party.new }
{
    for line in lines.split('\n') {
        if !ask(setting, party, line.as_bytes(), sink, gate) {
            return false;
        }
    }
    true
}
