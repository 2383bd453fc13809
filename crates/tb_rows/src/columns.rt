// Where the columns of a file stand, and the fields in them.

ghost use Rattle.std.specs.Prelude.{◌≡◌, ◌<◌, [], get_or, length};
ghost use Rattle.csv.specs.Records.{fields_of};
ghost use Rattle.tb_rows.specs.Columns.{fields_at, only_index};

use csv::ByteRecord;
use std::marker::Model;

/// The index of a name in a header, if the name stands there exactly once. Names are compared as
/// bytes.
pub fn index_of(header: &ByteRecord, name: &[u8]) -> Option<usize>
    ensures { result ≡ only_index name.now (fields_of header.now) }
{
    let mut found = None;
    let mut i = 0;
    while let Some(field) = header.get(i) {
        if field == name {
            if found.is_some() {
                return None;
            }
            found = Some(i);
        }
        i += 1;
    }
    found
}

/// The fields of one record in a format's columns, seen as the list of them in the format's order.
#[derive(Drop)]
pub struct Fields<'a> {
    whole: &'a ByteRecord,
    indices: &'a [usize],
}

impl<'a> Model for Fields<'a> {
    ghost use Rattle.std.specs.Prelude.{List, ℕ};
    ghost use Rattle.csv.specs.Records.{fields_of};
    ghost use Rattle.tb_rows.specs.Columns.{fields_at};

    ghost Value = { List (List ℕ) };

    ghost view = { λ f. fields_at f.indices.now (fields_of f.whole.now) };
}

/// The fields of a record at these indices.
pub fn fields_in<'a>(whole: &'a ByteRecord, indices: &'a [usize]) -> Fields<'a>
    ensures { result ≡ fields_at indices.now (fields_of whole.now) }
{
    Fields { whole, indices }
}

// The field of a record at an index, and no bytes past its last field.
#[tactic(auto, using(crate::proofs::FieldIndices::field_some, crate::proofs::FieldIndices::field_none))]
fn field(whole: &ByteRecord, i: usize) -> &[u8]
    ensures { result.now ≡ get_or (fields_of whole.now) i [] }
{
    match whole.get(i) {
        Some(field) => field,
        None => &[],
    }
}

impl<'a> Fields<'a> {
    /// The field in the format's column `i`. It takes no memory.
    pub fn at(&self, i: usize) -> &[u8]
        requires { i < length self.now }
        ensures { result.now ≡ get_or self.now i [] }
    {
        field(self.whole, self.indices[i])
    }
}
