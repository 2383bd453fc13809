//! The generated microdata is in its grammar. The function does nothing, and its contract is the
//! law.

ghost use Rattle.std.specs.Prelude.{◌≡◌, ◌≤◌, ℕ, Ok, length};
ghost use Rattle.tb_gen.specs.declared.limits.TheConstants.{MOST_GENERATED};
ghost use Rattle.tb_gen.specs.Generated.{generated_people};
ghost use Rattle.tb_gen_laws.specs.Classification.{IsGeneratedSchema};
ghost use Rattle.tb_gen_laws.specs.People.{generated_records};
ghost use Rattle.tb_model.specs.Schemas.{SchemaValue};
ghost use Rattle.tb_records.specs.People.{people_of};

/// Generated microdata is accepted under the generated classification, and says one record for each
/// person, by its draws. It is no longer than a file may be (`MOST_BYTES` of `tb_top`).
pub fn generated_people_are_accepted()
    ensures accepted { (schema : SchemaValue) (n start : ℕ) →
        IsGeneratedSchema schema → n ≤ MOST_GENERATED →
        people_of schema (generated_people n start) ≡ Ok (generated_records n start) }
    ensures short { (n start : ℕ) →
        n ≤ MOST_GENERATED → length (generated_people n start) ≤ 268435456 }
{}
