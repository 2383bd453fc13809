// Pairs of numbers in their order, looked up by their first numbers.

ghost use Rattle.std.specs.Prelude.{◌≡◌, ◌<◌, ◌++◌, ◌∷◌, [], true, false, length};
ghost use Rattle.std.specs.Prelude.{IfOk, IfSome, IfNone, OnOk, OnErr};
ghost use Rattle.tb_units.specs.Pairs.{has_first, pair_at, IsAt};

use indexmap::IndexMap;
use std::alloc::Global;
use std::marker::Model;
use tb_base::Memory;

/// Pairs of numbers in the order in which they were added, no two with the same first number.
#[derive(Drop)]
pub struct Pairs {
    map: IndexMap<u32, u32>,
}

impl Model for Pairs {
    ghost use Rattle.std.specs.Prelude.{List};
    ghost use Rattle.tb_model.specs.Units.{PairValue};

    ghost Value = { List PairValue };

    ghost view = { λ p. p.map.entries };
}

impl Pairs {
    /// No pairs, and room for so many where memory suffices; else it takes none.
    pub fn with_room(alloc: Global, room: usize) -> Pairs
        ensures { result ≡ [] }
    {
        match IndexMap::with_capacity(alloc, room) {
            Ok(map) => Pairs { map },
            Err(_) => Pairs {
                map: IndexMap::new(alloc),
            },
        }
    }

    /// How many pairs there are.
    pub fn len(&self) -> usize
        ensures { result ≡ length self.now }
    {
        self.map.len()
    }

    /// Whether a number stands first in one of the pairs.
    pub fn has(&self, first: u32) -> bool
        ensures { result ≡ has_first self.now first }
    {
        self.map.contains_key(&first)
    }

    /// The place of the pair in which a number stands first.
    pub fn find(&self, first: u32) -> Option<usize>
        ensures some { IfSome result (λ i. IsAt self.now first i) }
        ensures none { IfNone result (has_first self.now first ≡ false) }
    {
        self.map.get_index_of(&first)
    }

    /// The same, where the pair is looked for first at a place where it may be.
    #[inline]
    pub fn find_near(&self, first: u32, guess: usize) -> Option<usize>
        ensures some { IfSome result (λ i. IsAt self.now first i) }
        ensures none { IfNone result (has_first self.now first ≡ false) }
    {
        if guess < self.len() && self.at(guess).0 == first {
            return Some(guess);
        }
        self.find(first)
    }

    /// The pair at a place.
    #[inline]
    pub fn at(&self, i: usize) -> (u32, u32)
        requires { i < length self.now }
        ensures { result ≡ pair_at self.now i }
    {
        match self.map.get_index(i) {
            Some((first, second)) => (*first, *second),
            None => (0, 0),
        }
    }

    /// Adds a pair at the end, whose first number is new.
    pub fn add(&mut self, first: u32, second: u32) -> Result<(), Memory>
        requires { has_first self.old first ≡ false }
        ensures { OnOk result (self.new ≡ self.old ++ (first, second) ∷ []) }
    {
        self.map.insert(first, second)?;
        Ok(())
    }

    /// Gives back the memory that isn't needed while no more pairs are added.
    pub fn shrink(&mut self)
        ensures { self.new ≡ self.old }
    {
        self.map.shrink_to_fit();
    }

    /// The pairs as a list, in which none can be looked up.
    pub fn to_list(&self, alloc: Global) -> Result<Vec<(u32, u32)>, Memory>
        ensures { IfOk result (λ list. list.items ≡ self.now) }
    {
        let mut list = Vec::with_capacity(alloc, self.len())?;
        for i in 0..self.len() {
            list.push(self.at(i))?;
        }
        Ok(list)
    }
}
