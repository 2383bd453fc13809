// Links, looked up by their persons with one access.

ghost use Rattle.std.specs.Prelude.{◌≡◌, ◌<◌, ◌≤◌, ℕ, false, length, slice_index_or};
ghost use Rattle.std.specs.Prelude.{IfNone, IfOk, IfSome};
ghost use Rattle.tb_base.specs.declared.people.TheConstants.{MOST_PERSONS};
ghost use Rattle.tb_units.specs.Pairs.{has_first, pair_at, IsAt};
ghost use Rattle.tb_units.specs.Slots.{AreSlots};

use crate::chains::zeros;
use crate::pairs::Pairs;
use std::alloc::Global;
use std::marker::Model;
use tb_base::Memory;

/// How many slots there may be for each link: then a link takes 40 bytes, with its pair and its
/// part of a chain.
const MOST_SLOTS: usize = 7;

/// Links in their order, and a slot for each person up to the greatest: one more than the place of
/// the person's link, and 0 where there is none.
#[derive(Drop)]
pub struct Slots {
    links: Vec<(u32, u32)>,
    slots: Vec<u32>,
}

impl Model for Slots {
    ghost use Rattle.std.specs.Prelude.{List, length};
    ghost use Rattle.tb_model.specs.Units.{PairValue};
    ghost use Rattle.tb_units.specs.Slots.{AreSlots};

    ghost Value = { List PairValue };

    ghost view = { λ s. s.links.items };

    ghost invariant = { λ s. AreSlots s.links.items (length s.links.items) s.slots.items };
}

// The greatest person of some links, and 0 where there are none.
fn greatest_person(links: &Pairs) -> u32
    ensures { (k : ℕ) → k < length links.now → (pair_at links.now k).0 ≤ result }
{
    let mut greatest = 0;
    for k in 0..links.len() {
        greatest = greatest.max(links.at(k).0);
    }
    greatest
}

// So many slots, with which each person of the links has one: that of its link.
fn slots_of(alloc: Global, links: &Pairs, count: usize) -> Result<Vec<u32>, Memory>
    requires few { length links.now ≤ MOST_PERSONS }
    requires reach { (k : ℕ) → k < length links.now → (pair_at links.now k).0 < count }
    ensures { IfOk result (λ slots. AreSlots links.now (length links.now) slots.items) }
{
    let mut slots = zeros(alloc, count)?;
    for k in 0..links.len() {
        let (person, _) = links.at(k);
        slots[person as usize] = k as u32 + 1;
    }
    Ok(slots)
}

// The slot of a person; past the last slot it is 0.
#[inline]
fn slot_in(slots: &[u32], person: u32) -> u32
    ensures { result ≡ slice_index_or slots.now person 0 }
{
    slots.get(person as usize).copied().unwrap_or(0)
}

impl Slots {
    /// These links with slots for their persons; none where that would be too many slots, or there
    /// is no memory for them.
    pub fn of(alloc: Global, links: &Pairs) -> Option<Slots>
        requires { length links.now ≤ MOST_PERSONS }
        ensures { IfSome result (λ slots. slots ≡ links.now) }
    {
        let count = greatest_person(links) as usize + 1;
        if count > MOST_SLOTS * links.len() {
            return None;
        }
        let slots = slots_of(alloc, links, count).ok()?;
        let links = links.to_list(alloc).ok()?;
        Some(Slots { links, slots })
    }

    /// How many links there are.
    pub fn len(&self) -> usize
        ensures { result ≡ length self.now }
    {
        self.links.len()
    }

    /// The place of a person's link.
    #[inline]
    #[tactic(auto, using(crate::proofs::SlotLemmas::found, crate::proofs::SlotLemmas::missing))]
    pub fn find(&self, person: u32) -> Option<usize>
        ensures some { IfSome result (λ k. IsAt self.now person k) }
        ensures none { IfNone result (has_first self.now person ≡ false) }
    {
        let slot = slot_in(&self.slots, person);
        if slot == 0 {
            return None;
        }
        Some(slot as usize - 1)
    }
}
