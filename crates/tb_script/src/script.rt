// A script, read whole.

ghost use Rattle.std.specs.Prelude.{◌≡◌, ◌≢◌, ◌<◌, ◌≤◌, ℕ, Ok, Err, true, false};
ghost use Rattle.std.specs.Prelude.{[], length, slice_index_or, IfOk, IfErr, OnOk};
ghost use Rattle.tb_script.specs.Parts.{AreKept, parts_value};
ghost use Rattle.tb_script.specs.Scripts.{is_bad, lanes_of, nth_line, role_of_lane};
ghost use Rattle.tb_script.specs.Scripts.{script_of, with_line};
ghost use Rattle.tb_script.specs.declared.fault.ScriptFault.TheVariants as fault;
ghost use Rattle.tb_io.specs.declared.limits.TheConstants.{MOST_LINE_BYTES};

use crate::asker::Asker;
use crate::fault::ScriptFault;
use crate::limits::MOST_SCRIPT_BYTES;
use crate::line::{is_phase_end, split_line};
use crate::parts::Parts;
use bstr::ByteSlice;
use std::alloc::Global;
use std::marker::Model;
use tb_io::MOST_LINE_BYTES;
use tb_lines::{LineList, is_passed_over};
use tb_session::Role;

/// The lanes' lines of a script in order, each with its phase and its lane. It is made by
/// `Script::read` alone.
#[derive(Drop)]
pub struct Script {
    parts: Parts,
}

impl Model for Script {
    ghost use Rattle.tb_script.specs.Parts.{AreKept, parts_value};
    ghost use Rattle.tb_script.specs.Scripts.{ScriptValue};

    ghost Value = { ScriptValue };

    ghost view = { λ s. parts_value s.parts };

    ghost invariant = { λ s. AreKept s.parts };
}

// Adds the line of a number, which comes after these.
fn take(alloc: Global, parts: &mut Parts, bytes: &[u8], number: u32) -> Result<(), ScriptFault>
    requires kept { AreKept parts.old }
    requires few { parts.old.phases < u32.MAX }
    ensures kept { OnOk result (AreKept parts.new) }
    ensures good { OnOk result
        (is_bad (lanes_of (parts_value parts.old).lines) bytes.now ≡ false) }
    ensures value { OnOk result
        (parts_value parts.new ≡ with_line (parts_value parts.old) bytes.now) }
    ensures refused { IfErr result (λ e. e ≢ fault.Memory → (e ≡ fault.Line number)
        × (is_bad (lanes_of (parts_value parts.old).lines) bytes.now ≡ true)) }
{
    if bytes.len() > MOST_LINE_BYTES {
        return Err(ScriptFault::Line(number));
    }
    if is_phase_end(bytes) {
        parts.end_phase();
        return Ok(());
    }
    if is_passed_over(bytes) {
        return Ok(());
    }
    let Some(one) = split_line(bytes) else {
        return Err(ScriptFault::Line(number));
    };
    if parts.add(alloc, one)? {
        Ok(())
    } else {
        Err(ScriptFault::Line(number))
    }
}

impl Script {
    /// Reads a script whole, or returns the number of its first bad line, counted from 1 over all
    /// lines. It takes memory for the lanes' names, the lines' places, and as many bytes as the
    /// file has.
    pub fn read(alloc: Global, file: &[u8]) -> Result<Script, ScriptFault>
        requires { length file.now ≤ MOST_SCRIPT_BYTES }
        // What is read is what the file says.
        ensures read { IfOk result (λ script. script_of file.now ≡ Ok script) }
        // A refusal is the first bad line. Memory can run out at any script.
        ensures refused { (n : ℕ) → result ≡ Err (fault.Line n) → script_of file.now ≡ Err n }
    {
        let mut parts = Parts::with_room(alloc, file.len())?;
        let mut number: u32 = 0;
        for bytes in file.lines() {
            number += 1;
            take(alloc, &mut parts, bytes, number)?;
        }
        Ok(Script { parts })
    }

    /// How many phases there are: one more than lines that end one.
    pub fn phases(&self) -> u32
        ensures { result ≡ self.now.phases }
    {
        self.parts.phases
    }

    /// How many different lanes there are.
    pub fn lanes(&self) -> usize
        ensures { result ≡ length (lanes_of self.now.lines) }
    {
        self.parts.lanes.len()
    }

    /// How many lanes' lines there are, over all phases.
    pub fn len(&self) -> usize
        ensures { result ≡ length self.now.lines }
    {
        self.parts.places.len()
    }

    /// The number of the phase of line `i`, from 1; `i` is from 0.
    pub fn phase(&self, i: usize) -> u32
        requires { i < length self.now.lines }
        ensures { result ≡ (nth_line self.now i).phase }
    {
        self.parts.places[i].phase
    }

    /// The name of the lane of line `i`, from 0.
    pub fn lane(&self, i: usize) -> &str
        requires { i < length self.now.lines }
        ensures { result.now ≡ (nth_line self.now i).lane }
    {
        match self
            .parts
            .lanes
            .get_index(self.parts.places[i].lane as usize)
        {
            Some(name) => name.as_str(),
            None => unreachable!(),
        }
    }

    /// Whether line `i`, from 0, is an analyst's or the custodian's.
    pub fn role(&self, i: usize) -> Role
        requires { i < length self.now.lines }
        ensures { result ≡ role_of_lane (nth_line self.now i).lane }
    {
        if self.lane(i) == "custodian" {
            Role::Custodian
        } else {
            Role::Analyst
        }
    }

    /// The number of the lane of line `i`, from 0, in the order of first appearance.
    pub fn lane_number(&self, i: usize) -> usize
        requires { i < length self.now.lines }
        ensures few { result < length (lanes_of self.now.lines) }
        ensures name { slice_index_or (lanes_of self.now.lines) result []
            ≡ (nth_line self.now i).lane }
    {
        self.parts.places[i].lane as usize
    }

    /// The name of lane `n`, from 0, in the order of first appearance.
    pub fn lane_name(&self, n: usize) -> &str
        requires { n < length (lanes_of self.now.lines) }
        ensures { result.now ≡ slice_index_or (lanes_of self.now.lines) n [] }
    {
        match self.parts.lanes.get_index(n) {
            Some(name) => name.as_str(),
            None => unreachable!(),
        }
    }

    /// How many lines stand in the phases up to one of this number, from 1. They are the first
    /// lines, since phase comes after phase.
    pub fn lines_up_to(&self, phase: u32) -> usize
        ensures within { (i : ℕ) → i < result → (nth_line self.now i).phase ≤ phase }
        ensures rest { (i : ℕ) → result ≤ i → i < length self.now.lines
            → phase < (nth_line self.now i).phase }
        ensures few { result ≤ length self.now.lines }
    {
        let _ = &self.parts.lanes;
        self.parts
            .places
            .partition_point(|place| place.phase <= phase)
    }

    /// The bytes of line `i`, from 0: what follows the blanks after its lane's name.
    pub fn line(&self, i: usize) -> &[u8]
        requires { i < length self.now.lines }
        ensures bytes { result.now ≡ (nth_line self.now i).line }
        ensures few { length result.now ≤ MOST_LINE_BYTES }
    {
        let place = &self.parts.places[i];
        &self.parts.texts[place.start..place.start + place.len as usize]
    }
}

impl LineList<Asker> for Script {
    ghost use Rattle.tb_script.specs.Runs.{Asks};
    ghost use Rattle.tb_script.specs.Scripts.{ScriptLine};

    ghost Line = { ScriptLine };

    ghost lines = { λ script. script.lines };

    ghost text = { λ line. line.line };

    ghost Asks = { λ script line who. Asks script line who };

    fn len(&self) -> usize {
        Script::len(self)
    }

    fn who(&self, i: usize) -> Asker {
        Asker {
            lane: self.lane_number(i),
            role: self.role(i),
        }
    }

    fn line(&self, i: usize) -> &[u8] {
        Script::line(self, i)
    }
}
