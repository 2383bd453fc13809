// The lines of a perturbation table, as an array of their pvalues.

ghost use Rattle.std.specs.Prelude.{◌≡◌, ◌<◌, ◌≤◌, [], List, Ok, Err, true, false};
ghost use Rattle.std.specs.Prelude.{IfOk, OnOk, length, pos, unwrap_or};
ghost use Rattle.tb_model.specs.declared.names.PerturbationLine.{PerturbationLine};
ghost use Rattle.tb_ptable.specs.Lines.{and_line, pvalue_in};
ghost use Rattle.tb_ptable.specs.Slots.{AreSlots, IsPvalueAt, slot_index};
ghost use Rattle.tb_ptable.specs.declared.fault.PTableKind.TheVariants.{PairTwice};

use crate::line_list::LineList;
use std::alloc::Global;
use std::marker::Model;
use tb_base::{Keys, LAST_ROW, MOST_KEYS, Memory};
use tb_model::PerturbationLine;

// How many rows there are, from 0 on.
const ROWS: usize = LAST_ROW as usize + 1;

// How many slots there are at most.
const MOST_SLOTS: usize = ROWS * MOST_KEYS as usize;

// What stands in a slot whose row and cell key no line lists. No pvalue is so small.
const NO_PVALUE: i16 = i16::MIN;

/// The lines of a perturbation table, seen as their list in the order in which they were added. No
/// two are for one row and cell key, and none leaves a count negative.
///
/// What is kept is an array with a slot for each row and cell key, two bytes each: one cell key
/// after another, as far as a line was added. So a look-up is one access, and where a slot stands
/// doesn't depend on the key range.
#[derive(Drop)]
pub struct Slots {
    slots: Vec<i16>,
    list: LineList,
}

impl Model for Slots {
    ghost use Rattle.std.specs.Prelude.{List};
    ghost use Rattle.tb_model.specs.declared.names.PerturbationLine.{PerturbationLine};
    ghost use Rattle.tb_ptable.specs.Slots.{AreSlots};

    ghost Value = { List PerturbationLine };

    ghost view = { λ s. s.list.lines };

    ghost invariant = { λ s. AreSlots s.list.lines s.slots.items };
}

// Where the slot of a row and a cell key stands in the array.
#[inline]
fn slot_of(row: u16, key: u16) -> usize
    ensures { result ≡ slot_index row key }
{
    ROWS * key as usize + row as usize
}

// Adds slots without a pvalue, so that there is one at `at`.
fn reach(slots: &mut Vec<i16>, at: usize) -> Result<(), Memory>
    requires { at < MOST_SLOTS }
    ensures there { OnOk result (at < length slots.new.items) }
    ensures kept { (lines : List PerturbationLine) →
        AreSlots lines slots.old.items → AreSlots lines slots.new.items }
{
    if at >= slots.len() {
        slots.resize(at + 1, NO_PVALUE)?;
    }
    Ok(())
}

impl Slots {
    /// No lines, with room for those of a key range.
    pub fn with_room(alloc: Global, keys: Keys) -> Result<Slots, Memory>
        ensures { IfOk result (λ s. s ≡ []) }
    {
        Ok(Slots {
            slots: Vec::with_capacity(alloc, ROWS * keys.size() as usize)?,
            list: LineList::empty(),
        })
    }

    /// Adds one more line where there is none for its row and cell key, and returns whether it did.
    pub fn add(&mut self, line: PerturbationLine) -> Result<bool, Memory>
        requires row { line.pcv ≤ LAST_ROW }
        requires key { line.ckey < MOST_KEYS }
        requires safe { IsPvalueAt line.pcv line.pvalue }
        ensures added { IfOk result (λ new. new ≡ true → and_line self.old line ≡ Ok self.new) }
        ensures taken { IfOk result (λ new. new ≡ false →
            and_line self.old line ≡ Err PairTwice) }
        ensures few { length self.new ≤ MOST_SLOTS }
    {
        let at = slot_of(line.pcv, line.ckey);
        reach(&mut self.slots, at)?;
        let slot = &mut self.slots[at];
        if *slot != NO_PVALUE {
            return Ok(false);
        }
        *slot = line.pvalue;
        self.list = self.list.and(&line);
        Ok(true)
    }

    /// The pvalue that a line lists for a row and a cell key.
    #[inline]
    pub fn pvalue(&self, row: u16, key: u16) -> Option<i16>
        requires { row ≤ LAST_ROW }
        ensures listed { result ≡ pvalue_in self.now row key }
        // No pvalue leaves its count negative.
        ensures safe { IsPvalueAt row (unwrap_or result (pos 0)) }
    {
        let slot = self.slots.get(slot_of(row, key)).copied();
        slot.filter(|pvalue| *pvalue != NO_PVALUE)
    }
}
