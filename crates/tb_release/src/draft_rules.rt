// The rules of a release while it is edited.
//
// They are seen as one value, whoever owns them. The copy is taken out of its `Option`, changed and
// put back: in place behind `&mut` it would need an answer.

ghost use Rattle.std.specs.Prelude.{◌≡◌, ◌≤◌, IfOk, OnOk, fold};
ghost use Rattle.std.specs.Arc.{arc_value};
ghost use Rattle.tb_base.specs.declared.limits.TheConstants.{MOST_THRESHOLD};
ghost use Rattle.tb_base.specs.Rules.{MayBeSet, with_oldest, with_pvalue, with_threshold};
ghost use Rattle.tb_release.specs.Edits.{edited_rules};

use crate::batches::Batch;
use crate::following_rules::follow_rules;
use std::alloc::Global;
use std::marker::Model;
use std::sync::Arc;
use tb_base::{Memory, Rules};

/// Rules while they are edited. They are shared with the release that is edited until an edit sets
/// something: then a copy is made, once for all edits.
#[derive(Drop)]
pub(crate) struct DraftRules {
    shared: Arc<Rules>,
    own: Option<Rules>,
}

impl Model for DraftRules {
    ghost use Rattle.std.specs.Prelude.{unwrap_or};
    ghost use Rattle.std.specs.Arc.{arc_value};
    ghost use Rattle.tb_base.specs.Rules.{RulesValue, rules_code};

    ghost Value = { RulesValue };

    ghost coded = { rules_code };

    ghost view = { λ r. unwrap_or r.own (arc_value r.shared) };
}

impl DraftRules {
    /// Shared rules, with no edit so far.
    pub(crate) fn of(shared: Arc<Rules>) -> DraftRules
        ensures { result ≡ arc_value shared }
    {
        DraftRules { shared, own: None }
    }

    /// Sets the pvalue at a row and a cell key.
    pub(crate) fn set_pvalue(&mut self, row: u16, key: u16, pvalue: i16) -> Result<(), Memory>
        requires { MayBeSet row key pvalue }
        ensures { OnOk result (self.new ≡ with_pvalue self.old row key pvalue) }
    {
        let mut edited = self.take_own()?;
        edited.set(row, key, pvalue)?;
        self.own = Some(edited);
        Ok(())
    }

    /// Sets the threshold.
    pub(crate) fn set_threshold(&mut self, value: u32) -> Result<(), Memory>
        requires { value ≤ MOST_THRESHOLD }
        ensures { OnOk result (self.new ≡ with_threshold self.old value) }
    {
        let mut edited = self.take_own()?;
        edited.set_threshold(value);
        self.own = Some(edited);
        Ok(())
    }

    /// The number of the oldest release that is shown.
    pub(crate) fn oldest(&self) -> u32
        ensures { result ≡ self.now.oldest }
    {
        match &self.own {
            Some(edited) => edited.oldest(),
            None => self.shared.oldest(),
        }
    }

    /// Takes back the releases before this one.
    pub(crate) fn set_oldest(&mut self, oldest: u32) -> Result<(), Memory>
        ensures { OnOk result (self.new ≡ with_oldest self.old oldest) }
    {
        let mut edited = self.take_own()?;
        edited.set_oldest(oldest);
        self.own = Some(edited);
        Ok(())
    }

    /// Makes the edits of the rules in a batch. It takes memory where there is one.
    pub(crate) fn follow(&mut self, batch: &Batch) -> Result<(), Memory>
        ensures { OnOk result (self.new ≡ fold edited_rules self.old batch.now.rule_edits) }
    {
        if batch.rule_edits() == 0 {
            return Ok(());
        }
        let mut edited = self.take_own()?;
        follow_rules(&mut edited, batch)?;
        self.own = Some(edited);
        Ok(())
    }

    /// The rules after the edits. It takes memory where an edit set something, and else they are
    /// the shared ones.
    pub(crate) fn finish(self, alloc: Global) -> Result<Arc<Rules>, Memory>
        ensures { IfOk result (λ rules. arc_value rules ≡ self) }
    {
        let DraftRules { shared, own } = self;
        match own {
            Some(edited) => Ok(Arc::new(alloc, edited)?),
            None => Ok(shared),
        }
    }

    // The copy that the edits so far were made in, taken out; a new one where there was no edit.
    fn take_own(&mut self) -> Result<Rules, Memory>
        ensures { IfOk result (λ rules. rules ≡ self.old) }
    {
        match self.own.take() {
            Some(edited) => Ok(edited),
            None => self.shared.copy(),
        }
    }
}
