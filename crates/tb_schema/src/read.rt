// Reading a classification and its recodes.

ghost use Rattle.std.specs.Prelude.{◌≡◌, ◌≢◌, Ok, Err, IfErr, IfOk, option_copied};
ghost use Rattle.tb_schema.specs.Classes.{classes_of};
ghost use Rattle.tb_schema.specs.Recodes.{recodes_of, schema_of, with_recodes_of};

use crate::classes::ClassesFile;
use crate::fault::{ClassFile, SchemaFault, in_file};
use crate::recodes::{RecodesFile, WholeRecodes};
use crate::schema::Schema;
use std::alloc::Global;
use tb_rows::read_file;

// What a file says: a classification without recodes, or its first fault.
fn read_classes(alloc: Global, file: &[u8]) -> Result<Schema, SchemaFault>
    ensures ok { IfOk result (λ schema. classes_of file.now ≡ Ok schema) }
    ensures refused { IfErr result
        (λ e. e ≢ SchemaFault.Memory → classes_of file.now ≡ Err e) }
{
    in_file(
        ClassFile::Classes,
        read_file(alloc, &ClassesFile { alloc }, file),
    )
}

// What a file of recodes over a classification says, or its first fault.
fn recodes_over(alloc: Global, schema: &Schema, file: &[u8]) -> Result<WholeRecodes, SchemaFault>
    ensures ok { IfOk result (λ rs. recodes_of schema.now file.now ≡ Ok rs) }
    ensures refused { IfErr result
        (λ e. e ≢ SchemaFault.Memory → recodes_of schema.now file.now ≡ Err e) }
{
    in_file(
        ClassFile::Recodes,
        read_file(alloc, &RecodesFile { alloc, schema }, file),
    )
}

impl Schema {
    /// Reads a classification and its recodes, if there are any.
    ///
    /// The classification is a CSV file with the columns `variable`, `code` and `label` in any
    /// order, beside others, and a record for each category. Its first record may state the key
    /// range instead, by the variable `*`, the code `keys` and the label `256` or `4096`; without
    /// it the key range is 256. Variables are numbered from 0 by first appearance, and a variable's
    /// categories in the order of their records, which need not be adjacent. The recodes are one
    /// with the columns `recode`, `variable`, `code` and `group`, and a record for each category of
    /// a recode's variable; recodes and a recode's groups are numbered from 0 by first appearance.
    ///
    /// The first fault of the classification refuses it, and else the first of the recodes, with
    /// the number of its record from 1, or 0 for the header. It takes memory for the names, codes
    /// and labels, for a table in which each variable's codes are looked up, and for the group of
    /// each category of a recode.
    pub fn read(
        alloc: Global,
        classes: &[u8],
        recodes: Option<&[u8]>,
    ) -> Result<Schema, SchemaFault>
        // What is read is what the files say.
        ensures ok { IfOk result
            (λ schema. schema_of classes.now (option_copied recodes.entry) ≡ Ok schema) }
        // A refusal is the first fault of the files. Memory can run out at any file.
        ensures refused { IfErr result (λ e. e ≢ SchemaFault.Memory
            → schema_of classes.now (option_copied recodes.entry) ≡ Err e) }
    {
        let schema = match read_classes(alloc, classes) {
            Ok(schema) => schema,
            Err(fault) => return Err(fault),
        };
        match recodes {
            None => Ok(schema),
            Some(file) => schema.read_recodes(alloc, file),
        }
    }

    // The same classification with the recodes of a file.
    fn read_recodes(self, alloc: Global, file: &[u8]) -> Result<Schema, SchemaFault>
        ensures ok { IfOk result (λ schema. with_recodes_of self file.now ≡ Ok schema) }
        ensures refused { IfErr result
            (λ e. e ≢ SchemaFault.Memory → with_recodes_of self file.now ≡ Err e) }
    {
        self.soundness();
        match recodes_over(alloc, &self, file) {
            Ok(recodes) => Ok(self.with_recodes(recodes)),
            Err(fault) => Err(fault),
        }
    }
}
