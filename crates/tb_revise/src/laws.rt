//! Laws of the definitions. Each function does nothing, and its contract is a law.

ghost use Rattle.tb_revise.specs.Laws.{OneAnswer, OneEdit, ReadEditsFit, SyntaxByRules};

/// The words of a line are at most one edit.
pub fn one_edit()
    ensures { OneEdit }
{}

/// Words are no edit exactly where the first isn't there or is no word of an edit, a word is
/// missing or too many, or a setting has no `=`.
pub fn syntax_by_rules()
    ensures { SyntaxByRules }
{}

/// A line reads as exactly one edit, or is refused by exactly one fault; so a refusal depends on
/// the schema and the line alone.
pub fn one_answer()
    ensures { OneAnswer }
{}

/// An edit that a line reads as sets variables of the schema to categories of theirs, and an add
/// has one of each variable and a key in range; what one sets of the rules is in range.
pub fn read_edits_fit()
    ensures { ReadEditsFit }
{}
