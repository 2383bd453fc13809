//! The generated script is in its grammar.

ghost use Rattle.std.specs.Prelude.{◌≡◌, ◌≤◌, ℕ, length, Ok};
ghost use Rattle.tb_gen.specs.declared.limits.TheConstants.{MOST_GENERATED};
ghost use Rattle.tb_gen.specs.Generated.{generated_script};
ghost use Rattle.tb_script.specs.Scripts.{ScriptValue, script_of};
ghost use Rattle.tb_script.specs.declared.limits.TheConstants.{MOST_SCRIPT_BYTES};

/// The generated script is accepted, whatever its persons and its start, and it isn't longer than a
/// script may be.
pub fn generated_script_is_accepted()
    ensures accepted { (n start : ℕ) → 1 ≤ n → n ≤ MOST_GENERATED →
        (script : ScriptValue) × (script_of (generated_script n start) ≡ Ok script) }
    ensures short { (n start : ℕ) → 1 ≤ n → n ≤ MOST_GENERATED →
        length (generated_script n start) ≤ MOST_SCRIPT_BYTES }
{}
