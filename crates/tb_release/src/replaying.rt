// A release of a chain, made from an earlier one by the batches between.

ghost use Rattle.std.specs.Prelude.{◌≡◌, ◌+◌, ◌≤◌, true, IfOk, OnOk, length, take};
ghost use Rattle.tb_base.specs.Persons.{has_person};
ghost use Rattle.tb_model.specs.Pages.{records_in};
ghost use Rattle.tb_model.specs.Releases.{ReleaseValue};
ghost use Rattle.tb_pages.specs.Registers.{IsAdded, IsRegister};
ghost use Rattle.tb_release.specs.Batches.{Follows};
ghost use Rattle.tb_release.specs.Chains.{after_batch, change_count, release_after, IsChain};
ghost use Rattle.tb_release.specs.Releases.{IsShared};
ghost use Rattle.tb_release.specs.Replays.{release_reached, CanBeAdded, CanChange, CanReplay};
ghost use Rattle.tb_release.specs.Replays.{IsChanged, IsLed, IsReached, IsReachedFrom};
ghost use Rattle.tb_release.specs.Replays.{WasReplaced, WasTaken};

use crate::batches::{Batch, Batches};
use crate::draft_rules::DraftRules;
use crate::edits::Change;
use crate::release::Release;
use std::alloc::Global;
use std::sync::ledger::Ledger;
use tb_base::{Memory, Record, Steps};
use tb_pages::{Register, Stock};

// Puts a copy of a new person's record last.
fn add(alloc: Global, register: &mut Register, stamp: u32, new: &Record) -> Result<(), Memory>
    requires register { IsRegister register.old }
    requires can { CanBeAdded new.now.person register.old new.now }
    ensures { IfOk result (λ _. IsAdded stamp new.now register.old register.new) }
{
    let copy = new.copy()?;
    register.add(alloc, stamp, copy)
}

// Takes a person's record out.
fn take_out(alloc: Global, register: &mut Register, stamp: u32, person: u32) -> Result<(), Memory>
    requires register { IsRegister register.old }
    requires there { has_person (records_in register.old.pages) person ≡ true }
    ensures { IfOk result (λ _. WasTaken stamp person register.old register.new) }
{
    let spot = register.find(person);
    let before = register.take_out(alloc, stamp, person, spot)?;
    let _ = before;
    Ok(())
}

// Puts a copy of a record in the place of the one of its person.
fn replace(alloc: Global, register: &mut Register, stamp: u32, new: &Record) -> Result<(), Memory>
    requires register { IsRegister register.old }
    requires there { has_person (records_in register.old.pages) new.now.person ≡ true }
    ensures { IfOk result (λ _. WasReplaced stamp new.now register.old register.new) }
{
    let spot = register.find(new.person);
    let copy = new.copy()?;
    let before = register.replace(alloc, stamp, spot, copy)?;
    let _ = before;
    Ok(())
}

// Makes a change.
fn make(alloc: Global, register: &mut Register, stamp: u32, change: &Change) -> Result<(), Memory>
    requires register { IsRegister register.old }
    requires can { CanChange change.now.person change.now.before change.now.after register.old }
    ensures { IfOk result (λ _. IsChanged stamp change.now register.old register.new) }
{
    match &change.after {
        Some(after) => match &change.before {
            Some(_) => replace(alloc, register, stamp, after),
            None => add(alloc, register, stamp, after),
        },
        None => match &change.before {
            Some(_) => take_out(alloc, register, stamp, change.person),
            None => Ok(()),
        },
    }
}

// Makes the changes of a batch under the number of the release to which it leads.
fn make_all<L: Ledger>(
    alloc: Global,
    register: &mut Register,
    stamp: u32,
    batch: &Batch,
    steps: &mut Steps<L>,
) -> Result<(), Memory>
    requires can { (release : ReleaseValue) × CanReplay release batch.now stamp register.old }
    // Of whatever release the register has the records, it has those of the release after it.
    ensures leads { (release : ReleaseValue) → CanReplay release batch.now stamp register.old
        → IfOk result (λ _. IsShared (after_batch release batch.now) register.new) }
    ensures charge { steps.new ≡ steps.old + length batch.now.changes }
{
    let changes = batch.lend(steps);
    for change in changes {
        make(alloc, register, stamp, change)?;
    }
    Ok(())
}

/// The release that was reached by the batches so far. Its pages, shards and rules are those of the
/// release at which they began until a batch touches them: then a copy is made, once for all
/// batches.
#[derive(Drop)]
struct Reached {
    register: Register,
    rules: DraftRules,
    most: usize,
    number: u32,
    changes: u32,
    edits: u32,
}

impl Reached {
    // The release at which a chain begins.
    fn of(alloc: Global, base: &Release) -> Result<Reached, Memory>
        ensures { IfOk result (λ reached. IsReachedFrom base.now reached) }
    {
        base.few_edits();
        let register = base.share(alloc)?;
        let shared = base.shared_rules()?;
        let rules = DraftRules::of(shared);
        Ok(Reached {
            register,
            rules,
            most: base.most(),
            number: base.number(),
            changes: base.record_changes(),
            edits: base.changes(),
        })
    }

    // Makes what stands in the batch that follows it.
    fn follow<L: Ledger>(
        &mut self,
        alloc: Global,
        batch: &Batch,
        steps: &mut Steps<L>,
    ) -> Result<(), Memory>
        requires reached { IsReached self.old }
        requires follows { Follows (release_reached self.old) batch.now }
        ensures led { IfOk result (λ _. IsLed batch.now self.old self.new) }
        ensures charge { steps.new ≡ steps.old + length batch.now.changes }
    {
        make_all(alloc, &mut self.register, self.number + 1, batch, steps)?;
        self.rules.follow(batch)?;
        let changes = batch.len() as u32;
        let rule_edits = batch.rule_edits() as u32;
        self.number += 1;
        self.changes += changes;
        self.edits += changes + rule_edits;
        Ok(())
    }

    // It as a release.
    fn finish(self, alloc: Global) -> Result<Release, Memory>
        requires { IsReached self }
        ensures { IfOk result (λ release. release ≡ release_reached self) }
    {
        let Reached {
            register,
            rules,
            most,
            number,
            changes,
            edits,
        } = self;
        let stock = Stock::of(register);
        let rules = rules.finish(alloc)?;
        let release = Release::of(alloc, stock, most, number, changes, edits, rules)?;
        Ok(release)
    }
}

/// The release to which the first `n` batches of a chain lead. Their changes are lent once and made
/// in their order, over the pages and shards of the release at which the chain begins: of each that
/// they touch one copy is made, however many batches touch it, and so of the rules where an edit
/// sets something in them. The others are shared. After release 0, which has no key book, it takes
/// memory for one of all its records.
///
/// The counter rises by how many changes of records these batches have, or by fewer where the call
/// is out of memory.
pub fn replay<L: Ledger>(
    alloc: Global,
    base: &Release,
    batches: &Batches,
    n: usize,
    steps: &mut Steps<L>,
) -> Result<Release, Memory>
    requires chain { IsChain base.now batches.now }
    requires there { n ≤ length batches.now }
    ensures release { IfOk result
        (λ release. release ≡ release_after base.now (take n batches.now)) }
    ensures price { steps.new ≤ steps.old + change_count (take n batches.now) }
    ensures cost { OnOk result (steps.new ≡ steps.old + change_count (take n batches.now)) }
{
    base.soundness();
    let mut reached = Reached::of(alloc, base)?;
    for i in 0..n {
        let batch = batches.at(i);
        reached.follow(alloc, batch, steps)?;
    }
    let release = reached.finish(alloc)?;
    Ok(release)
}
