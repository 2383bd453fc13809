ghost use Rattle.std.specs.Prelude.{◌≡◌, ◌<◌, ◌≤◌, length, slice_index, IfOk};
ghost use Rattle.std.specs.List.Sorted.{IsStrictlyIncreasing};
ghost use Rattle.tb_base.specs.Sets.{includes_all};

use crate::memory::Memory;
use smallvec::SmallVec;
use std::alloc::Global;
use std::hash::{Hash, Hasher};
use std::marker::Model;

/// How many variables are kept in place, without an allocation of their own: as many as a schema
/// may have.
pub const VARIABLES_IN_PLACE: usize = 64;

/// A set of variables, seen as their numbers in ascending order. Two sets are equal, and hash
/// alike, where their lists are equal. Up to `VARIABLES_IN_PLACE` variables take no memory of
/// their own.
#[derive(Debug, Drop)]
pub struct VarSet {
    numbers: SmallVec<u16, VARIABLES_IN_PLACE>,
}

impl Model for VarSet {
    ghost use Rattle.std.specs.Prelude.{ℕ, List};
    ghost use Rattle.std.specs.List.Sorted.{IsStrictlyIncreasing};

    ghost Value = { List ℕ };

    ghost view = { λ s. s.numbers.items };

    ghost invariant = { λ s. IsStrictlyIncreasing s.numbers.items };
}

impl PartialEq for VarSet {
    ghost use Rattle.std.specs.Prelude.{nat_eq, bytes_eq};
    ghost use Rattle.std.specs.Cmp.{nat_eq_equiv, partial_equiv_from_equiv};
    ghost use Rattle.std.specs.Cmp.Lexicographic.{lists_per};

    ghost eq = { bytes_eq };

    ghost laws = { lists_per (partial_equiv_from_equiv nat_eq_equiv) };

    fn eq(&self, other: &Self) -> bool {
        self.numbers.as_slice() == other.numbers.as_slice()
    }
}

impl Eq for VarSet {
    ghost use Rattle.std.specs.Cmp.{nat_eq_equiv};
    ghost use Rattle.std.specs.Cmp.Lexicographic.{lists_equiv};

    ghost laws = { lists_equiv nat_eq_equiv };
}

impl Hash for VarSet {
    ghost use Rattle.std.specs.Hash as fed;
    ghost use Rattle.std.specs.Hash.{items_Alike};
    ghost use Rattle.std.proofs.Common.{rules};
    ghost use Rattle.std.specs.Cmp.Rules.{hashing};

    ghost hash_input = { fed.slice fed.u16 };

    ghost respects_eq = { Prim.search (hashing, rules) };

    fn hash<H: Hasher>(&self, state: &mut H) {
        self.numbers.as_slice().hash(state);
    }
}

impl VarSet {
    /// The set of these numbers, which ascend.
    pub fn of(alloc: Global, sorted: &[u16]) -> Result<VarSet, Memory>
        requires { IsStrictlyIncreasing sorted.now }
        ensures { IfOk result (λ set. set ≡ sorted.now) }
    {
        Ok(VarSet {
            numbers: SmallVec::from_slice(alloc, sorted)?,
        })
    }

    /// How many variables there are.
    pub fn len(&self) -> usize
        ensures length { result ≡ length self.now }
        ensures ascending { IsStrictlyIncreasing self.now }
    {
        self.numbers.len()
    }

    /// The variable at place `i`, from 0, in ascending order.
    pub fn at(&self, i: usize) -> u16
        requires { i < length self.now }
        ensures { result ≡ slice_index self.now i }
    {
        self.numbers.as_slice()[i]
    }

    /// An equal set. It takes memory for more than `VARIABLES_IN_PLACE` variables.
    pub fn copy(&self) -> Result<VarSet, Memory>
        ensures { IfOk result (λ set. set ≡ self.now) }
    {
        VarSet::of(*self.numbers.allocator(), self.numbers.as_slice())
    }

    /// An equal set, of at most `VARIABLES_IN_PLACE` variables. It takes no memory.
    pub fn copy_in_place(&self) -> VarSet
        requires { length self.now ≤ VARIABLES_IN_PLACE }
        ensures { result ≡ self.now }
    {
        match SmallVec::from_slice(*self.numbers.allocator(), self.numbers.as_slice()) {
            Ok(numbers) => VarSet { numbers },
            Err(_) => unreachable!(),
        }
    }

    /// Whether each variable of `other` is in this set.
    pub fn includes(&self, other: &VarSet) -> bool
        ensures { result ≡ includes_all self.now other.now }
    {
        let numbers = self.numbers.as_slice();
        other.numbers.as_slice().iter().all(|n| numbers.contains(n))
    }
}
