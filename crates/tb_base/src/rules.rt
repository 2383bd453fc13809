// The pvalues are a std map, in order of row and cell key. Its calls speak of entries by that
// order, so the methods need one lemma, that the order's test is that of equal numbers; `len` tells
// that the keys ascend, and a method that calls it and does nothing more has that as its clause.

ghost use Rattle.std.specs.Prelude.{◌≡◌, ◌≤◌, true, IfOk, IfSome, OnOk, OnErr};
ghost use Rattle.std.specs.List.Sorted.{IsStrictlySortedBy};
ghost use Rattle.std.specs.Map.{keys_of};
ghost use Rattle.tb_base.specs.declared.limits.TheConstants.{MOST_THRESHOLD};
ghost use Rattle.tb_base.specs.Rules.{MayBeSet, can_be_set, first_rules, place_order};
ghost use Rattle.tb_base.specs.Rules.{pvalue_set, with_oldest, with_pvalue, with_threshold};

use crate::keys::MOST_KEYS;
use crate::limits::{LAST_ROW, LEAST_PVALUE, MOST_PVALUE};
use crate::memory::Memory;
use std::alloc::Global;
use std::collections::BTreeMap;
use std::marker::Model;

/// The rules by which a release is shown: the threshold, below which no perturbed count is shown,
/// the number of the oldest release that is shown, and the pvalues that were set, each at a row and
/// a cell key, in ascending order of these.
///
/// They are seen as these three. A row is 1 to `LAST_ROW`, a cell key is below `MOST_KEYS`, and a
/// pvalue is `LEAST_PVALUE` to `MOST_PVALUE` and leaves no count negative.
#[derive(Drop)]
pub struct Rules {
    threshold: u32,
    oldest: u32,
    pvalues: BTreeMap<(u16, u16), i16>,
}

impl Model for Rules {
    ghost use Rattle.std.specs.Prelude.{◌≡◌, true};
    ghost use Rattle.tb_base.specs.Rules.{AreSet, RulesValue, rules_code};

    ghost Value = { RulesValue };

    ghost coded = { rules_code };

    ghost view = { λ r.
        record { threshold = r.threshold; oldest = r.oldest; pvalues = r.pvalues.entries } };

    ghost invariant = { λ r. AreSet r.pvalues.entries };
}

impl Rules {
    // Any threshold: the command line and edits keep it within `MOST_THRESHOLD`.
    /// Rules with this threshold: no release was taken back, and no pvalue set. It takes no memory.
    pub fn new(alloc: Global, threshold: u32) -> Rules
        ensures { result ≡ first_rules threshold }
    {
        Rules {
            threshold,
            oldest: 0,
            pvalues: BTreeMap::new(alloc),
        }
    }

    /// The threshold. It takes no memory.
    pub fn threshold(&self) -> u32
        ensures { result ≡ self.now.threshold }
    {
        self.threshold
    }

    /// The number of the oldest release that is shown: those before it were taken back. It takes no
    /// memory.
    pub fn oldest(&self) -> u32
        ensures { result ≡ self.now.oldest }
    {
        self.oldest
    }

    /// The pvalue that was set at a row and a cell key, if one was. It takes no memory.
    pub fn find(&self, row: u16, key: u16) -> Option<i16>
        ensures found { result ≡ pvalue_set self.now.pvalues row key }
        ensures in_range { IfSome result (MayBeSet row key) }
    {
        self.pvalues.get(&(row, key)).copied()
    }

    /// That the pvalues ascend by row and then by cell key, so that no two are set at one place. It
    /// does nothing.
    pub fn soundness(&self)
        ensures { IsStrictlySortedBy place_order (keys_of self.now.pvalues) }
    {
        self.pvalues.len();
    }

    /// Sets the pvalue at a row and a cell key; the other pvalues stay. It takes memory where none
    /// was set there. Where the call is out of memory, nothing has changed.
    pub fn set(&mut self, row: u16, key: u16, pvalue: i16) -> Result<(), Memory>
        requires { MayBeSet row key pvalue }
        ensures ok { OnOk result (self.new ≡ with_pvalue self.old row key pvalue) }
        ensures err { OnErr result (self.new ≡ self.old) }
    {
        self.pvalues.insert((row, key), pvalue)?;
        Ok(())
    }

    /// Sets the threshold. It takes no memory.
    pub fn set_threshold(&mut self, value: u32)
        requires { value ≤ MOST_THRESHOLD }
        ensures { self.new ≡ with_threshold self.old value }
    {
        self.threshold = value;
    }

    /// Takes back the releases before this one. It takes no memory.
    pub fn set_oldest(&mut self, oldest: u32)
        ensures { self.new ≡ with_oldest self.old oldest }
    {
        self.oldest = oldest;
    }

    /// Equal rules. It takes memory for each pvalue.
    pub fn copy(&self) -> Result<Rules, Memory>
        ensures { IfOk result (λ rules. rules ≡ self.now) }
    {
        Ok(Rules {
            threshold: self.threshold,
            oldest: self.oldest,
            pvalues: self.pvalues.clone()?,
        })
    }
}

/// Whether a pvalue may be set at a row and a cell key: all three are in range, and it leaves no
/// count negative.
pub fn may_be_set(row: u16, key: u16, pvalue: i16) -> bool
    ensures test { result ≡ can_be_set row key pvalue }
    ensures told { result ≡ true → MayBeSet row key pvalue }
{
    is_in_range(row, key, pvalue)
}

// The test of that.
fn is_in_range(row: u16, key: u16, pvalue: i16) -> bool
    ensures { result ≡ can_be_set row key pvalue }
{
    let pvalue = i64::from(pvalue);
    row >= 1
        && u32::from(row) <= LAST_ROW
        && key < MOST_KEYS
        && pvalue >= LEAST_PVALUE
        && pvalue <= MOST_PVALUE
        && i64::from(row) + pvalue >= 0
}
