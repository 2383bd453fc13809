// Fields that `csv` writes one after another within one record, which never ends.

ghost use Rattle.std.specs.Prelude.{◌≡◌, ◌<◌, ◌++◌, ◌∷◌, [], false, length, IfOk, OnOk};
ghost use Rattle.csv.specs.Writing.{default_writer, field_text, fields_written, next_sep};
ghost use Rattle.csv.specs.Writing.{has_written, writer_pending, writer_setup, writer_under};
ghost use Rattle.tb_text.specs.Lines.{before_another};
ghost use Rattle.tb_text.specs.Writers.{IsWithinRecord, fields_from};

use crate::bytes::Bytes;
use crate::spans::Span;
use csv::{Writer, WriterBuilder};
use std::alloc::Global;
use tb_base::Memory;

// Writes a field, and passes it on.
fn write_field(rows: &mut Writer<Vec<u8>>, text: &[u8]) -> Result<(), Memory>
    requires setup { writer_setup rows.old ≡ default_writer }
    requires pending { writer_pending rows.old ≡ [] }
    ensures within { OnOk result (IsWithinRecord rows.new) }
    ensures text { OnOk result ((writer_under rows.new).items ≡ (writer_under rows.old).items
        ++ (next_sep default_writer (fields_written rows.old)
        ++ field_text default_writer text.now)) }
{
    match rows.write_field(text) {
        Ok(()) => {}
        Err(_) => return Err(Memory),
    }
    match rows.flush() {
        Ok(()) => Ok(()),
        Err(_) => Err(Memory),
    }
}

/// A writer that goes on after a text. It holds some kilobytes, so it is not passed on in a
/// `Result`.
#[inline(always)]
pub(crate) fn writer_after(text: Vec<u8>) -> Writer<Vec<u8>>
    ensures setup { writer_setup result ≡ default_writer }
    ensures fields { fields_written result ≡ 0 }
    ensures wrote { has_written result ≡ false }
    ensures pending { writer_pending result ≡ [] }
    ensures under { writer_under result ≡ text }
{
    WriterBuilder::new().from_writer(text)
}

/// Begins a record by an empty field, so that a comma stands before each other.
pub(crate) fn begin_record(rows: &mut Writer<Vec<u8>>) -> Result<(), Memory>
    requires setup { writer_setup rows.old ≡ default_writer }
    requires pending { writer_pending rows.old ≡ [] }
    ensures { OnOk result (IsWithinRecord rows.new) }
{
    write_field(rows, b"")
}

/// How many bytes it wrote.
pub(crate) fn written_len(rows: &Writer<Vec<u8>>) -> usize
    ensures { fields_from result rows.now ≡ 44 ∷ [] }
{
    rows.get_ref().len()
}

/// Writes one more field, and returns where it stands, with the comma after it, from `base` on.
pub(crate) fn write_one(
    rows: &mut Writer<Vec<u8>>,
    base: usize,
    text: &[u8],
) -> Result<Span, Memory>
    requires within { IsWithinRecord rows.old }
    requires base { 0 < length (fields_from base rows.old) }
    ensures within { OnOk result (IsWithinRecord rows.new) }
    ensures text { OnOk result (fields_from base rows.new
        ≡ fields_from base rows.old ++ before_another text.now) }
    ensures start { IfOk result (λ span. span.start ≡ length (fields_from base rows.old)) }
    ensures end { IfOk result (λ span. span.end ≡ length (fields_from base rows.new)) }
{
    let start = rows.get_ref().len() + 1 - base;
    write_field(rows, text)?;
    let end = rows.get_ref().len() + 1 - base;
    Ok(Span { start, end })
}

/// What it wrote from `base` on, and a comma.
pub(crate) fn bytes_from(
    alloc: Global,
    rows: &Writer<Vec<u8>>,
    base: usize,
) -> Result<Bytes, Memory>
    requires { 0 < length (fields_from base rows.now) }
    ensures { IfOk result (λ bytes. bytes ≡ fields_from base rows.now) }
{
    let written = &rows.get_ref().as_slice()[base..];
    let mut bytes = Bytes::with_room(alloc, written.len() + 1)?;
    bytes.push_slice(written)?;
    bytes.push_slice(b",")?;
    Ok(bytes)
}
