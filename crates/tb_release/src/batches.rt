ghost use Rattle.std.specs.Prelude.{◌≡◌, ◌+◌, ◌<◌, ◌≤◌, ◌∷◌, ◌++◌, [], Some, OnOk, OnErr, length};
ghost use Rattle.std.specs.Prelude.{slice_get};
ghost use Rattle.std.specs.Arc.{arc_value};
ghost use Rattle.tb_release.specs.Batches.{batch_length};
ghost use Rattle.tb_release.specs.Entries.{IsEntry, with_entry};
ghost use Rattle.tb_release.specs.declared.edits.BatchEntry.TheVariants as entries;
ghost use Rattle.tb_release.specs.RuleEdits.{IsRuleEdit};
ghost use Rattle.tb_release.specs.declared.limits.TheConstants.{MOST_EDITS};

use crate::edits::{BatchEntry, Change, Edit};
use std::alloc::Global;
use std::marker::Model;
use std::sync::Arc;
use std::sync::ledger::Ledger;
use tb_base::{Memory, Steps, charge};

/// What leads from a release to the next: the changes of the edits of records, and the edits of the
/// rules, each in order, at most `MOST_EDITS` together. What an edit of the rules sets is in range:
/// rules take it.
#[derive(Drop)]
pub struct Batch {
    changes: Vec<Change>,
    rule_edits: Vec<Edit>,
}

impl Model for Batch {
    ghost use Rattle.std.specs.Prelude.{length, ◌+◌, ◌≤◌};
    ghost use Rattle.std.specs.List.{AllByRecursion};
    ghost use Rattle.tb_release.specs.Batches.{BatchValue, batch_code};
    ghost use Rattle.tb_release.specs.RuleEdits.{IsRuleEdit};
    ghost use Rattle.tb_release.specs.declared.limits.TheConstants.{MOST_EDITS};

    ghost Value = { BatchValue };

    ghost coded = { batch_code };

    ghost view = { λ b. record { changes = b.changes.items; rule_edits = b.rule_edits.items } };

    ghost invariant = { λ b. (length b.changes.items + length b.rule_edits.items ≤ MOST_EDITS)
        × AllByRecursion IsRuleEdit b.rule_edits.items };
}

impl Batch {
    // The batch of no edits.
    pub(crate) fn new(alloc: Global) -> Batch
        ensures { result ≡ record { changes = []; rule_edits = [] } }
    {
        Batch {
            changes: Vec::new(alloc),
            rule_edits: Vec::new(alloc),
        }
    }

    // Adds an entry as the last of its list.
    pub(crate) fn add(&mut self, entry: BatchEntry) -> Result<(), Memory>
        requires few { batch_length self.old < MOST_EDITS }
        requires in_range { IsEntry entry }
        ensures { OnOk result (self.new ≡ with_entry self.old entry) }
    {
        match entry {
            BatchEntry::Record(change) => self.add_change(change),
            BatchEntry::Rule(edit) => self.add_rule_edit(edit),
        }
    }

    fn add_change(&mut self, change: Change) -> Result<(), Memory>
        requires { batch_length self.old < MOST_EDITS }
        ensures { OnOk result (self.new ≡ with_entry self.old (entries.Record change)) }
    {
        self.changes.push(change)?;
        Ok(())
    }

    #[tactic(auto, using(crate::proofs::EntryLemmas::all_pushed))]
    fn add_rule_edit(&mut self, edit: Edit) -> Result<(), Memory>
        requires few { batch_length self.old < MOST_EDITS }
        requires in_range { IsRuleEdit edit }
        ensures { OnOk result (self.new ≡ with_entry self.old (entries.Rule edit)) }
    {
        self.rule_edits.push(edit)?;
        Ok(())
    }

    /// How many edits of the rules there are.
    pub fn rule_edits(&self) -> usize
        ensures { result ≡ length self.now.rule_edits }
    {
        self.rule_edits.len()
    }

    /// The edit of the rules at place `i`, from 0. What it sets is in range.
    #[tactic(auto, using(crate::proofs::EntryLemmas::all_at))]
    pub fn rule_edit(&self, i: usize) -> &Edit
        requires { i < length self.now.rule_edits }
        ensures edit { slice_get self.now.rule_edits i ≡ Some result.now }
        ensures in_range { IsRuleEdit result.now }
    {
        &self.rule_edits[i]
    }

    /// How many changes of records there are.
    pub fn len(&self) -> usize
        ensures { result ≡ length self.now.changes }
    {
        self.changes.len()
    }

    /// The changes of records. The counter rises by how many there are.
    pub fn lend<L: Ledger>(&self, steps: &mut Steps<L>) -> &[Change]
        ensures changes { result.now ≡ self.now.changes }
        ensures charge { steps.new ≡ steps.old + length self.now.changes }
    {
        charge(self.changes.len() as u32, steps);
        self.changes.as_slice()
    }
}

/// Batches in order, as those of a chain. Each may stand in other lists too.
#[derive(Drop)]
pub struct Batches {
    list: Vec<Arc<Batch>>,
}

impl Model for Batches {
    ghost use Rattle.std.specs.Prelude.{List, map};
    ghost use Rattle.std.specs.Arc.{arc_value};
    ghost use Rattle.std.specs.Coded.{coded_list};
    ghost use Rattle.tb_release.specs.Batches.{BatchValue, batch_code};

    ghost Value = { List BatchValue };

    ghost coded = { coded_list batch_code };

    ghost view = { λ b. map (λ one. arc_value one) b.list.items };
}

impl Batches {
    /// No batches. It takes no memory.
    pub fn new(alloc: Global) -> Batches
        ensures { result ≡ [] }
    {
        Batches {
            list: Vec::new(alloc),
        }
    }

    /// Adds a batch as the last. Where the call is out of memory, nothing has changed.
    pub fn push(&mut self, one: Arc<Batch>) -> Result<(), Memory>
        ensures ok { OnOk result (self.new ≡ self.old ++ arc_value one ∷ []) }
        ensures err { OnErr result (self.new ≡ self.old) }
    {
        self.list.push(one)?;
        Ok(())
    }

    /// How many batches there are.
    pub fn len(&self) -> usize
        ensures { result ≡ length self.now }
    {
        self.list.len()
    }

    /// The batch at place `i`, from 0.
    pub fn at(&self, i: usize) -> &Arc<Batch>
        requires { i < length self.now }
        ensures { slice_get self.now i ≡ Some (arc_value result.now) }
    {
        &self.list[i]
    }
}
