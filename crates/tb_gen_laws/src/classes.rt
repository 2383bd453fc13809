//! The generated classification and its recodes are in their grammar.

ghost use Rattle.std.specs.Prelude.{◌≡◌, ◌≤◌, length, Ok, Some};
ghost use Rattle.tb_gen.specs.Generated.{generated_classes, generated_recodes};
ghost use Rattle.tb_gen_laws.specs.Classification.{IsGeneratedSchema};
ghost use Rattle.tb_model.specs.Schemas.{SchemaValue};
ghost use Rattle.tb_schema.specs.Recodes.{schema_of};

/// The generated classification is accepted with the generated recodes, and the microdata's columns
/// and codes are its variables and theirs. Neither is longer than a file may be (`MOST_BYTES` of
/// `tb_top`).
pub fn generated_classes_are_accepted()
    ensures accepted { (schema : SchemaValue)
        × (schema_of generated_classes (Some generated_recodes) ≡ Ok schema)
        × IsGeneratedSchema schema }
    ensures short_classes { length generated_classes ≤ 268435456 }
    ensures short_recodes { length generated_recodes ≤ 268435456 }
{}
