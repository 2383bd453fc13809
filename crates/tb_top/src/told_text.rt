// The text that a sink took, for contracts alone.
//
// It costs nothing when the program runs: the sink keeps sums alone, and its invariant ties them to
// this text, so no sink holds what is only counted.

ghost use Rattle.std.specs.Prelude.{◌≡◌, ◌++◌, [], ℕ, List};
ghost use Rattle.std.specs.Borrow.{ftrue};

use std::marker::Model;

/// A text that contracts see and nobody else: it has no bytes, and its methods do nothing when the
/// program runs.
///
/// So a sink may be seen as the text that it took, and keeps no such text.
#[derive(Drop)]
pub(crate) struct ToldText {
    pub(crate) ghost text: { List ℕ },
}

impl Model for ToldText {
    // It owns nothing. A struct may hold a value for contracts only beside this member.
    ghost also_owns = { λ _. ftrue };
}

impl ToldText {
    /// No text.
    pub(crate) fn empty() -> ToldText
        ensures { result.text ≡ [] }
    {
        ToldText {}
    }

    /// This text and a piece more.
    pub(crate) fn and(&self, piece: &[u8]) -> ToldText
        ensures { result.text ≡ self.now.text ++ piece.now }
    {
        let _ = piece;
        ToldText {}
    }
}
