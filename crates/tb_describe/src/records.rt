// Records that `csv` writes one after another.

ghost use Rattle.std.specs.Prelude.{◌≡◌, ◌++◌, ◌∷◌, [], IfOk, OnOk, codes, map};
ghost use Rattle.csv.specs.Writing.{default_writer, row_text};
ghost use Rattle.tb_describe.specs.Writers.{IsBetweenRecords, written};
ghost use Rattle.tb_model.specs.Texts.{line_text};

use csv::{Writer, WriterBuilder};
use tb_base::Memory;

/// A writer of records that go on after a text. It holds some kilobytes, so it is not passed on in
/// a `Result`.
#[inline(always)]
pub(crate) fn records_after(text: Vec<u8>) -> Writer<Vec<u8>>
    ensures between { IsBetweenRecords result }
    ensures text { written result ≡ text.items }
{
    WriterBuilder::new().from_writer(text)
}

// Adds a record.
fn add_record(rows: &mut Writer<Vec<u8>>, fields: &[&[u8]]) -> Result<(), Memory>
    requires { IsBetweenRecords rows.old }
    ensures between { OnOk result (IsBetweenRecords rows.new) }
    ensures text { OnOk result (written rows.new
        ≡ written rows.old ++ row_text default_writer (map (λ f. f.now) fields.now)) }
{
    match rows.write_fields(fields) {
        Ok(()) => Ok(()),
        Err(_) => Err(Memory),
    }
}

/// Adds a record of two fields.
pub(crate) fn add_two<'a>(
    rows: &mut Writer<Vec<u8>>,
    first: &'a [u8],
    second: &'a [u8],
) -> Result<(), Memory>
    requires { IsBetweenRecords rows.old }
    ensures between { OnOk result (IsBetweenRecords rows.new) }
    ensures text { OnOk result (written rows.new
        ≡ written rows.old ++ row_text default_writer (first.now ∷ second.now ∷ [])) }
{
    add_record(rows, &[first, second])
}

/// Adds a record of three fields.
pub(crate) fn add_three<'a>(
    rows: &mut Writer<Vec<u8>>,
    first: &'a [u8],
    second: &'a [u8],
    third: &'a [u8],
) -> Result<(), Memory>
    requires { IsBetweenRecords rows.old }
    ensures between { OnOk result (IsBetweenRecords rows.new) }
    ensures text { OnOk result (written rows.new ≡ written rows.old
        ++ row_text default_writer (first.now ∷ second.now ∷ third.now ∷ [])) }
{
    add_record(rows, &[first, second, third])
}

/// The text with the line that ends a list.
pub(crate) fn end_list(rows: Writer<Vec<u8>>) -> Result<Vec<u8>, Memory>
    ensures { IfOk result (λ text. text.items ≡ written rows ++ line_text (codes ".")) }
{
    let mut text = match rows.into_inner() {
        Ok(text) => text,
        Err(_) => return Err(Memory),
    };
    text.extend_from_slice(b".\n")?;
    Ok(text)
}
