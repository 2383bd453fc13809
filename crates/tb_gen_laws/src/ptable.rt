//! The generated perturbation table is in its grammar. The function does nothing, and its contract
//! is the law.

ghost use Rattle.std.specs.Prelude.{◌≡◌, ◌≤◌, ℕ, Ok, length};
ghost use Rattle.tb_base.specs.declared.keys.Keys.TheVariants.{K256};
ghost use Rattle.tb_gen.specs.Generated.{generated_ptable};
ghost use Rattle.tb_gen_laws.specs.Perturbations.{generated_table};
ghost use Rattle.tb_ptable.specs.Lines.{perturbation_of};

/// A generated perturbation table is accepted under the key range of 256, and has one line for each
/// row from 1 and each cell key, by its draw. It is no longer than a file may be (`MOST_BYTES` of
/// `tb_top`).
pub fn generated_ptable_is_accepted()
    ensures accepted { (start : ℕ) →
        perturbation_of K256 (generated_ptable start) ≡ Ok (generated_table start) }
    ensures short { (start : ℕ) → length (generated_ptable start) ≤ 268435456 }
{}
