// The list of a table's lines, for contracts alone.

ghost use Rattle.std.specs.Prelude.{◌≡◌, ◌++◌, ◌∷◌, [], List};
ghost use Rattle.std.specs.Borrow.{ftrue};
ghost use Rattle.tb_model.specs.declared.names.PerturbationLine.{PerturbationLine};

use std::marker::Model;
use tb_model::PerturbationLine;

/// Lines that contracts see and nobody else: it has no bytes, and its methods do nothing when the
/// program runs.
///
/// So a table may be seen as the list of its lines, and keeps no such list.
#[derive(Drop)]
pub(crate) struct LineList {
    pub(crate) ghost lines: { List PerturbationLine },
}

impl Model for LineList {
    // It owns nothing. A struct may hold a value for contracts only beside this member.
    ghost also_owns = { λ _. ftrue };
}

impl LineList {
    /// No lines.
    pub(crate) fn empty() -> LineList
        ensures { result.lines ≡ [] }
    {
        LineList {}
    }

    /// These lines and one more.
    pub(crate) fn and(&self, line: &PerturbationLine) -> LineList
        ensures { result.lines ≡ self.now.lines ++ line.now ∷ [] }
    {
        let _ = line;
        LineList {}
    }
}
