// The text of a phase.
//
// Texts by lane number are one function of numbers (`Tell`), which `choose` of `proofs/Going` makes
// of what there is for each lane.

ghost use Rattle.std.specs.Prelude.{◌≡◌, ◌<◌, ◌≤◌, ◌+◌, ◌++◌, ℕ, List, length, slice_index_or};
ghost use Rattle.std.specs.Prelude.{Some, IsTrue};
ghost use Rattle.tb_io.specs.Taken.{IsWritten};
ghost use Rattle.tb_lanes.specs.Phases.{lane_at, lane_line, lane_text, lines_at, phase_line};
ghost use Rattle.tb_lanes.specs.Lanes.{has_some};
ghost use Rattle.tb_lanes.specs.Phases.{lanes_text, phase_text};
ghost use Rattle.tb_lanes.specs.Runs.{KnowLines, Tell};
ghost use Rattle.tb_script.specs.Scripts.{lanes_of};

use crate::lane::Lane;
use tb_base::print_number;
use tb_io::{Sink, SureSink, Wrote, write_all};
use tb_script::Script;

// Whether every lane's sink tells what it took.
pub(crate) fn all_tell<G>(lanes: &[Lane<G>]) -> bool
    ensures { IsTrue result → (texts : ℕ → List ℕ) × Tell texts lanes.now }
{
    for lane in lanes {
        if lane.sink.text().is_err() {
            return false;
        }
    }
    true
}

// What a sink tells that tells something.
fn text_in(sink: &SureSink) -> &[u8]
    requires { (text : List ℕ) × (sink.now ≡ Some text) }
    ensures { (text : List ℕ) → sink.now ≡ Some text → result.now ≡ text }
{
    match sink.text() {
        Ok(text) => text,
        Err(_) => unreachable!(),
    }
}

// Writes the line of a phase.
#[tactic(auto, unfolding(crate::specs::Phases::phase_line))]
fn write_head<K: Sink>(phase: u32, sink: &mut K) -> Wrote
    ensures { IsWritten result (K.faults sink.old) (K.faults sink.new) (K.taken sink.old)
        (K.taken sink.new) (phase_line phase) }
{
    let mut digits = [0u8; 10];
    let count = print_number(phase, &mut digits);
    write_all(sink, &[b"phase ", &digits[..count], b"\n"])
}

// Writes the line of a lane, and its text.
#[tactic(auto, unfolding(crate::specs::Phases::lane_line))]
fn write_lane<K: Sink>(name: &[u8], text: &[u8], sink: &mut K) -> Wrote
    ensures { IsWritten result (K.faults sink.old) (K.faults sink.new) (K.taken sink.old)
        (K.taken sink.new) (lane_line name.now ++ text.now) }
{
    write_all(sink, &[b"lane ", name, b"\n", text])
}

// Writes what a lane says in a phase.
fn write_one<K: Sink, G>(
    script: &Script,
    phase: u32,
    n: usize,
    lane: &Lane<G>,
    sink: &mut K,
) -> Wrote
    requires there { n < length (lanes_of script.now.lines) }
    requires knows { lane.now.spoke ≡ has_some (lines_at script.now phase n) }
    requires tells { (text : List ℕ) × (lane.now.sink ≡ Some text) }
    ensures { (text : List ℕ) → lane.now.sink ≡ Some text
        → IsWritten result (K.faults sink.old) (K.faults sink.new) (K.taken sink.old)
        (K.taken sink.new)
        (lane_text (lane_at script.now n) (lines_at script.now phase n) text) }
{
    if !lane.spoke {
        return Wrote::All;
    }
    let text = text_in(&lane.sink);
    write_lane(script.lane_name(n).as_bytes(), text, sink)
}

// Writes what all lanes say in a phase, in their order.
fn write_lanes<K: Sink, G>(script: &Script, phase: u32, lanes: &[Lane<G>], sink: &mut K) -> Wrote
    requires all { length lanes.now ≡ length (lanes_of script.now.lines) }
    requires know { KnowLines script.now phase lanes.now }
    requires tell { (texts : ℕ → List ℕ) × Tell texts lanes.now }
    ensures { (texts : ℕ → List ℕ) → Tell texts lanes.now
        → IsWritten result (K.faults sink.old) (K.faults sink.new) (K.taken sink.old)
        (K.taken sink.new)
        (lanes_text script.now phase texts (length (lanes_of script.now.lines))) }
{
    for n in 0..lanes.len() {
        match write_one(script, phase, n, &lanes[n], sink) {
            Wrote::All => {}
            Wrote::Failed => return Wrote::Failed,
        }
    }
    Wrote::All
}

/// Writes the text of a phase.
pub fn write_phase<K: Sink, G>(
    script: &Script,
    phase: u32,
    lanes: &[Lane<G>],
    sink: &mut K,
) -> Wrote
    requires all { length lanes.now ≡ length (lanes_of script.now.lines) }
    requires know { KnowLines script.now phase lanes.now }
    requires tell { (texts : ℕ → List ℕ) × Tell texts lanes.now }
    ensures { (texts : ℕ → List ℕ) → Tell texts lanes.now
        → IsWritten result (K.faults sink.old) (K.faults sink.new) (K.taken sink.old)
        (K.taken sink.new) (phase_text script.now phase texts) }
{
    match write_head(phase, sink) {
        Wrote::All => write_lanes(script, phase, lanes, sink),
        Wrote::Failed => Wrote::Failed,
    }
}
