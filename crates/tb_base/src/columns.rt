// Records by column: a list of their keys, and one of their categories for each variable.

ghost use Rattle.std.specs.Prelude.{◌≡◌, ◌<◌, List, All, IfOk, OnOk, length};
ghost use Rattle.std.specs.Vec.{vec_capacity, vec_len};
ghost use Rattle.tb_base.specs.declared.records.Record.{Record as AnyRecord};
ghost use Rattle.tb_base.specs.Records.{category_at};
ghost use Rattle.tb_base.specs.Pieces.{code_column, key_column, AreChanged, AreColumns};
ghost use Rattle.tb_base.specs.Pieces.{with_last, with_other, without};

use crate::memory::Memory;
use crate::records::Record;
use std::alloc::Global;

// A record's category of a variable, and 0 where it has none.
#[inline]
fn category_of(one: &Record, v: usize) -> u16
    ensures { result ≡ category_at one.now v }
{
    if v < one.codes.len() {
        one.codes.at(v)
    } else {
        0
    }
}

/// The keys of records, with room for so many.
pub fn keys_of(alloc: Global, records: &[Record], room: usize) -> Result<Vec<u16>, Memory>
    ensures { IfOk result (λ keys. keys.items ≡ key_column records.now) }
{
    let mut keys = Vec::with_capacity(alloc, room)?;
    for one in records {
        keys.push(one.key)?;
    }
    Ok(keys)
}

// The categories of records of one variable, with room for so many.
fn codes_of(alloc: Global, records: &[Record], v: usize, room: usize) -> Result<Vec<u16>, Memory>
    ensures { IfOk result (λ codes. codes.items ≡ code_column records.now v) }
{
    let mut codes = Vec::with_capacity(alloc, room)?;
    for one in records {
        codes.push(category_of(one, v))?;
    }
    Ok(codes)
}

// Adds the column of the next variable.
fn add_column(
    columns: &mut Vec<Vec<u16>>,
    alloc: Global,
    records: &[Record],
    room: usize,
) -> Result<(), Memory>
    requires { AreColumns columns.old.items records.now }
    ensures columns { OnOk result (AreColumns columns.new.items records.now) }
{
    let v = columns.len();
    let codes = codes_of(alloc, records, v, room)?;
    columns.push(codes)?;
    Ok(())
}

/// The columns of so many variables, with room for so many records.
pub fn columns_of(
    alloc: Global,
    records: &[Record],
    width: usize,
    room: usize,
) -> Result<Vec<Vec<u16>>, Memory>
    ensures { IfOk result (λ columns. AreColumns columns.items records.now) }
{
    let mut columns = Vec::with_capacity(alloc, width)?;
    for v in 0..width {
        add_column(&mut columns, alloc, records, room)?;
    }
    Ok(columns)
}

/// An equal column, with room for so many.
pub fn copy_of(alloc: Global, column: &[u16], room: usize) -> Result<Vec<u16>, Memory>
    ensures { IfOk result (λ copy. copy.items ≡ column.now) }
{
    let mut copy = Vec::with_capacity(alloc, room)?;
    copy.extend_from_slice(column)?;
    Ok(copy)
}

/// Equal columns, with room for so many records.
pub fn copy_columns(
    alloc: Global,
    columns: &[Vec<u16>],
    room: usize,
) -> Result<Vec<Vec<u16>>, Memory>
    ensures { IfOk result (λ copies. (records : List AnyRecord)
        → AreColumns columns.now records → AreColumns copies.items records) }
{
    let mut copies = Vec::with_capacity(alloc, columns.len())?;
    for column in columns {
        let copy = copy_of(alloc, column, room)?;
        copies.push(copy)?;
    }
    Ok(copies)
}

/// Takes the memory for one more record in each column.
pub fn reserve_all(columns: &mut [Vec<u16>]) -> Result<(), Memory>
    ensures same { AreChanged (λ v codes. codes) columns.old columns.new }
    ensures room { OnOk result (All (λ c. vec_len c < vec_capacity c) columns.new) }
{
    for v in 0..columns.len() {
        columns[v].reserve(1)?;
    }
    Ok(())
}

/// Puts a record's category last in each column, for which there is room.
pub fn push_all(columns: &mut [Vec<u16>], one: &Record)
    requires { All (λ c. vec_len c < vec_capacity c) columns.old }
    ensures { AreChanged (with_last one.now) columns.old columns.new }
{
    for v in 0..columns.len() {
        columns[v].push_reserved(category_of(one, v));
    }
}

/// Takes the category at a place out of each column.
pub fn remove_all(columns: &mut [Vec<u16>], place: usize)
    requires { All (λ c. place < vec_len c) columns.old }
    ensures { AreChanged (without place) columns.old columns.new }
{
    for v in 0..columns.len() {
        columns[v].remove(place);
    }
}

/// Puts another record's category at a place of each column.
pub fn replace_all(columns: &mut [Vec<u16>], place: usize, one: &Record)
    requires { All (λ c. place < vec_len c) columns.old }
    ensures { AreChanged (with_other place one.now) columns.old columns.new }
{
    for v in 0..columns.len() {
        let code = category_of(one, v);
        columns[v][place] = code;
    }
}
