ghost use Rattle.std.specs.Prelude.{◌≡◌, ◌≤◌, All, IfErr, OnErr, OnOk};
ghost use Rattle.tb_follow.specs.Chains.{Applies, ChainValue, number_at, release_at};
ghost use Rattle.tb_release.specs.Batches.{batch_refusal};
ghost use Rattle.tb_release.specs.Laws.{EditFits};
ghost use Rattle.tb_release.specs.Results.{IsWhy};
ghost use Rattle.tb_release.specs.declared.limits.TheConstants.{MOST_RELEASES};

use tb_release::{EditFault, Edits};

/// A chain to which batches can be applied, in a setting `C`.
///
/// `value` is what the chain is: its shape, its release 0, and its batches so far. `IsReady` is the
/// condition under which batches are applied, which every call keeps.
pub trait Chain<C> {
    ghost value: { Self → ChainValue };

    ghost IsReady: { C → Self → Type 0 };

    /// The number of its release.
    fn number(&self, setting: &C) -> u32
        requires { IsReady setting.now self.now }
        ensures number { result ≡ number_at (value self.now) }
        ensures few { result ≤ MOST_RELEASES };

    /// Applies the batch of some edits. The refusals are those of `tb_release::next` on its
    /// release; after one, and where the call is out of memory, it is as before.
    fn apply(&mut self, setting: &C, edits: &Edits) -> Result<(), EditFault>
        requires ready { IsReady setting.now self.old }
        requires fit { All (EditFits (value self.old).shape) edits.now }
        ensures ready { IsReady setting.now self.new }
        ensures ok { OnOk result (Applies (value self.old) edits.now (value self.new)) }
        ensures err { OnErr result (value self.new ≡ value self.old) }
        ensures why { IfErr result
            (λ fault. IsWhy (batch_refusal (release_at (value self.old)) edits.now) fault) };
}
