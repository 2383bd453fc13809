//! The law of rules. The function does nothing, and its contract is the law.
ghost use Rattle.tb_base.specs.Laws.{SetIsFound};

/// A pvalue that is set is found at its row and cell key, and at every other the one from before.
pub fn set_pvalues_are_found()
    ensures { SetIsFound }
{}
