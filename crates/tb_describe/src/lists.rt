// The lists that tell what may be asked.

ghost use Rattle.std.specs.Prelude.{◌≡◌, ◌<◌, ◌++◌, IfOk, OnOk, length, map};
ghost use Rattle.std.specs.List.{range_with_len};
ghost use Rattle.csv.specs.Writing.{default_writer, row_text};
ghost use Rattle.tb_describe.specs.Lists.{base_name, categories_text, category_columns};
ghost use Rattle.tb_describe.specs.Lists.{category_record, name_record, names_text, records_text};
ghost use Rattle.tb_describe.specs.Writers.{IsBetweenRecords, written};
ghost use Rattle.tb_model.specs.declared.names.NameOf.TheVariants as name_of;
ghost use Rattle.tb_model.specs.Schemas.{base_of, category_count};
ghost use Rattle.tb_schema.specs.Names.{IsName};

use crate::records::{add_three, add_two, end_list, records_after};
use csv::Writer;
use itoa::Buffer;
use std::alloc::Global;
use tb_base::Memory;
use tb_schema::{NameOf, Schema};

// Adds the record of a variable.
fn add_variable(rows: &mut Writer<Vec<u8>>, schema: &Schema, v: u16) -> Result<(), Memory>
    requires between { IsBetweenRecords rows.old }
    requires name { IsName schema.now (name_of.Variable v) }
    ensures between { OnOk result (IsBetweenRecords rows.new) }
    ensures text { OnOk result (written rows.new ≡ written rows.old
        ++ row_text default_writer (name_record schema.now (name_of.Variable v))) }
{
    let mut digits = Buffer::new();
    let of = NameOf::Variable(v);
    let name = schema.name(of).as_bytes();
    let count = digits.format(schema.categories(of)).as_bytes();
    add_three(rows, name, b"variable", count)
}

// Adds the record of a recode. It takes memory for its kind.
fn add_recode(
    alloc: Global,
    rows: &mut Writer<Vec<u8>>,
    schema: &Schema,
    r: u16,
) -> Result<(), Memory>
    requires between { IsBetweenRecords rows.old }
    requires name { IsName schema.now (name_of.Recode r) }
    ensures between { OnOk result (IsBetweenRecords rows.new) }
    ensures text { OnOk result (written rows.new ≡ written rows.old
        ++ row_text default_writer (name_record schema.now (name_of.Recode r))) }
{
    let mut digits = Buffer::new();
    let recode = NameOf::Recode(r);
    let base = NameOf::Variable(schema.base_of(r));
    let mut kind = Vec::from_slice(alloc, b"recode of ")?;
    kind.extend_from_slice(schema.name(base).as_bytes())?;
    let name = schema.name(recode).as_bytes();
    let count = digits.format(schema.categories(recode)).as_bytes();
    add_three(rows, name, &kind, count)
}

// Adds the records of all variables.
fn add_variables(rows: &mut Writer<Vec<u8>>, schema: &Schema) -> Result<(), Memory>
    requires between { IsBetweenRecords rows.old }
    ensures between { OnOk result (IsBetweenRecords rows.new) }
    ensures text { OnOk result (written rows.new ≡ written rows.old ++ records_text
        (map (λ v. name_record schema.now (name_of.Variable v))
        (range_with_len 0 (length schema.now.variables)))) }
{
    for v in 0..schema.variables() {
        add_variable(rows, schema, v)?;
    }
    Ok(())
}

// Adds the records of all recodes.
fn add_recodes(alloc: Global, rows: &mut Writer<Vec<u8>>, schema: &Schema) -> Result<(), Memory>
    requires between { IsBetweenRecords rows.old }
    ensures between { OnOk result (IsBetweenRecords rows.new) }
    ensures text { OnOk result (written rows.new ≡ written rows.old ++ records_text
        (map (λ r. name_record schema.now (name_of.Recode r))
        (range_with_len 0 (length schema.now.recodes)))) }
{
    for r in 0..schema.recodes() {
        add_recode(alloc, rows, schema, r)?;
    }
    Ok(())
}

/// The list of the variables and the recodes. It takes memory for it.
pub(crate) fn list_names(alloc: Global, schema: &Schema) -> Result<Vec<u8>, Memory>
    ensures { IfOk result (λ text. text.items ≡ names_text schema.now) }
{
    let line = Vec::from_slice(alloc, b"describe\n")?;
    let mut rows = records_after(line);
    add_three(&mut rows, b"name", b"kind", b"categories")?;
    add_variables(&mut rows, schema)?;
    add_recodes(alloc, &mut rows, schema)?;
    end_list(rows)
}

// The variable that a name stands for or recodes.
fn base(schema: &Schema, of: NameOf) -> u16
    requires { IsName schema.now of }
    ensures base { result ≡ base_of schema.now of }
    ensures within { result < length schema.now.variables }
{
    match of {
        NameOf::Variable(v) => v,
        NameOf::Recode(r) => schema.base_of(r),
    }
}

// Adds what the two fields of each record under a name are.
fn add_columns(rows: &mut Writer<Vec<u8>>, of: NameOf) -> Result<(), Memory>
    requires { IsBetweenRecords rows.old }
    ensures between { OnOk result (IsBetweenRecords rows.new) }
    ensures text { OnOk result (written rows.new
        ≡ written rows.old ++ row_text default_writer (category_columns of)) }
{
    match of {
        NameOf::Variable(_) => add_two(rows, b"code", b"label"),
        NameOf::Recode(_) => add_two(rows, b"group", b"code"),
    }
}

// Adds the record of a category of a name's variable.
fn add_category(
    rows: &mut Writer<Vec<u8>>,
    schema: &Schema,
    of: NameOf,
    category: u16,
) -> Result<(), Memory>
    requires between { IsBetweenRecords rows.old }
    requires name { IsName schema.now of }
    requires category { category < category_count schema.now (base_name schema.now of) }
    ensures between { OnOk result (IsBetweenRecords rows.new) }
    ensures text { OnOk result (written rows.new
        ≡ written rows.old ++ row_text default_writer (category_record schema.now of category)) }
{
    match of {
        NameOf::Variable(v) => {
            let code = schema.code_at(of, category).as_bytes();
            let label = schema.label_at(v, category).as_bytes();
            add_two(rows, code, label)
        }
        NameOf::Recode(r) => {
            let base = NameOf::Variable(schema.base_of(r));
            let group = schema.group_of(r, category);
            let first = schema.code_at(of, group).as_bytes();
            let code = schema.code_at(base, category).as_bytes();
            add_two(rows, first, code)
        }
    }
}

// Adds the records of all categories of a name's variable.
fn add_categories(rows: &mut Writer<Vec<u8>>, schema: &Schema, of: NameOf) -> Result<(), Memory>
    requires between { IsBetweenRecords rows.old }
    requires name { IsName schema.now of }
    ensures between { OnOk result (IsBetweenRecords rows.new) }
    ensures text { OnOk result (written rows.new ≡ written rows.old ++ records_text
        (map (category_record schema.now of)
        (range_with_len 0 (category_count schema.now (base_name schema.now of))))) }
{
    let variable = NameOf::Variable(base(schema, of));
    for category in 0..schema.categories(variable) {
        add_category(rows, schema, of, category)?;
    }
    Ok(())
}

/// The list of the categories under a name. It takes memory for it.
pub(crate) fn list_categories(alloc: Global, schema: &Schema, of: NameOf) -> Result<Vec<u8>, Memory>
    requires { IsName schema.now of }
    ensures { IfOk result (λ text. text.items ≡ categories_text schema.now of) }
{
    let mut line = Vec::from_slice(alloc, b"describe ")?;
    line.extend_from_slice(schema.name(of).as_bytes())?;
    line.extend_from_slice(b"\n")?;
    let mut rows = records_after(line);
    add_columns(&mut rows, of)?;
    add_categories(&mut rows, schema, of)?;
    end_list(rows)
}
