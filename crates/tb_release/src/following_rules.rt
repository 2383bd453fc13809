// The edits of the rules in a batch, made in rules.

ghost use Rattle.std.specs.Prelude.{◌≡◌, OnOk, fold};
ghost use Rattle.tb_release.specs.Edits.{edited_rules};
ghost use Rattle.tb_release.specs.RuleEdits.{IsRuleEdit};

use crate::batches::Batch;
use crate::edits::Edit;
use tb_base::{Memory, Rules};

// Makes an edit of the rules.
fn edit_rules(rules: &mut Rules, edit: &Edit) -> Result<(), Memory>
    requires { IsRuleEdit edit.now }
    ensures { OnOk result (rules.new ≡ edited_rules rules.old edit.now) }
{
    match edit {
        Edit::Pvalue { row, key, pvalue } => rules.set(*row, *key, *pvalue),
        Edit::Threshold { value } => {
            rules.set_threshold(*value);
            Ok(())
        }
        Edit::Oldest { release } => {
            rules.set_oldest(*release);
            Ok(())
        }
        Edit::Add { .. } => Ok(()),
        Edit::Drop { .. } => Ok(()),
        Edit::Amend { .. } => Ok(()),
    }
}

/// Makes the edits of the rules in a batch, in their order. It takes memory for each pvalue that is
/// set where none was. Where the call is out of memory, some of them may be made.
pub fn follow_rules(rules: &mut Rules, batch: &Batch) -> Result<(), Memory>
    ensures { OnOk result (rules.new ≡ fold edited_rules rules.old batch.now.rule_edits) }
{
    for i in 0..batch.rule_edits() {
        let edit = batch.rule_edit(i);
        edit_rules(rules, edit)?;
    }
    Ok(())
}
