// The header of a file, apart from its records.

ghost use Rattle.std.specs.Prelude.{◌≡◌, ◌==◌, ◌∷◌, [], Some, None, IfOk, IfSome, if◌then◌else◌};
ghost use Rattle.std.specs.Prelude.{length};
ghost use Rattle.csv.specs.Records.{fields_of};
ghost use Rattle.tb_rows.specs.Columns.{fields_at};
ghost use Rattle.tb_rows.specs.Records.{records_of};
ghost use Rattle.tb_rows.specs.WholeFiles.{IsFile};

use crate::columns::{Fields, fields_in};
use crate::csv_records::CsvRecords;
use crate::format::{FileFormat, indices_in};
use csv::ByteRecord;
use std::alloc::Global;
use std::marker::Model;
use tb_base::Memory;

/// A header that has each column of a format once: how many fields it has, and the index of each
/// column.
#[derive(Drop)]
pub struct Header {
    width: usize,
    indices: Vec<usize>,
}

impl Model for Header {
    ghost use Rattle.tb_rows.specs.Columns.{HeaderValue};

    ghost Value = { HeaderValue };

    ghost view = { λ h. record { width = h.width; indices = h.indices.items } };
}

impl Header {
    /// The fields of a record in the columns, if it has as many fields as the header. It takes no
    /// memory.
    pub fn fields<'a>(&'a self, whole: &'a ByteRecord) -> Option<Fields<'a>>
        ensures { result ≡ (if length (fields_of whole.now) == self.now.width
            then Some (fields_at self.now.indices (fields_of whole.now)) else None) }
    {
        if whole.len() == self.width {
            Some(fields_in(whole, &self.indices))
        } else {
            None
        }
    }
}

// The record that a text is, if it is one alone.
fn only_record(alloc: Global, text: &[u8]) -> Result<Option<ByteRecord>, Memory>
    ensures { IfOk result (λ o. IfSome o (λ one. records_of text.now ≡ fields_of one ∷ [])) }
{
    let mut to_come = CsvRecords::new(alloc, text);
    let mut one = ByteRecord::new(alloc);
    let found = to_come.read(&mut one)?;
    let mut other = ByteRecord::new(alloc);
    if found && !to_come.read(&mut other)? {
        Ok(Some(one))
    } else {
        Ok(None)
    }
}

/// The header that a text is, if it is one record, which has each column of the format once. It
/// takes memory for that record and for the header.
pub fn read_header<F: FileFormat>(
    alloc: Global,
    format: &F,
    text: &[u8],
) -> Result<Option<Header>, Memory>
    ensures file { IfOk result (λ o. IfSome o (λ h.
        IsFile (F.format format.now) text.now h.width h.indices [])) }
    ensures long { IfOk result (λ o. IfSome o (λ h.
        length h.indices ≡ length (F.format format.now).columns)) }
{
    let Some(one) = only_record(alloc, text)? else {
        return Ok(None);
    };
    let width = one.len();
    match indices_in(alloc, format, &one)? {
        Some(indices) => Ok(Some(Header { width, indices })),
        None => Ok(None),
    }
}
