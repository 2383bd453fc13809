// The text of a table.

ghost use Rattle.std.specs.Prelude.{◌≡◌, ◌≤◌, ◌++◌, ◌∷◌, codes, decimal, map};
ghost use Rattle.std.specs.Prelude.{◌<◌, length, drop, All, IfOk, IfSome, OnErr, OnOk};
ghost use Rattle.std.specs.List.{concat};
ghost use Rattle.tb_base.specs.declared.people.TheConstants.{MOST_PERSONS};
ghost use Rattle.tb_io.specs.Taken.{IsWritten};
ghost use Rattle.tb_model.specs.Rules.{pvalues_in};
ghost use Rattle.tb_model.specs.Schemas.{name_text};
ghost use Rattle.tb_model.specs.Texts.{heading, line_text, text_of_cells};
ghost use Rattle.tb_schema.specs.Names.{IsName};
ghost use Rattle.tb_text.specs.Lines.{before_another};

use crate::bytes::Bytes;
use crate::fields::add_plain;
use crate::prepared::{BUFFER, Prepared};
use crate::setup::Setup;
use crate::writing::{begin_record, bytes_from, write_one, writer_after, written_len};
use std::alloc::Global;
use tb_base::{Cell, Memory, Rules, print_number};
use tb_io::{Sink, Wrote};
use tb_query::Query;
use tb_schema::Schema;

// The lines before the first place, at most: eight names of 32 bytes, with commas, and two words
// and a number.
const HEAD: usize = 320;

// Adds the first line, with the number of the release.
fn add_release(text: &mut Bytes, number: u32) -> Result<(), Memory>
    ensures { OnOk result (text.new ≡ text.old ++ line_text (codes "release " ++ decimal number)) }
{
    let mut digits = [0; 10];
    let len = print_number(number, &mut digits);
    text.push_slice(b"release ")?;
    text.push_slice(&digits[..len])?;
    text.push_slice(b"\n")
}

// A comma, and the fields of the dimensions' names, each with a comma, where each name stands as it
// is.
fn plain_names(alloc: Global, schema: &Schema, query: &Query) -> Result<Option<Bytes>, Memory>
    requires { All (IsName schema.now) query.now.dimensions }
    ensures { IfOk result (λ found. IfSome found (λ names. names ≡ 44 ∷ concat
        (map (λ d. before_another (name_text schema.now d)) query.now.dimensions))) }
{
    let mut names = Bytes::with_room(alloc, HEAD)?;
    names.push_slice(b",")?;
    for of in query.dimensions() {
        let Some(_span) = add_plain(&mut names, schema.name(*of).as_bytes())? else {
            return Ok(None);
        };
    }
    Ok(Some(names))
}

// The same of any names, as `csv` writes them.
fn written_names(alloc: Global, schema: &Schema, query: &Query) -> Result<Bytes, Memory>
    requires { All (IsName schema.now) query.now.dimensions }
    ensures { IfOk result (λ names. names ≡ 44 ∷ concat
        (map (λ d. before_another (name_text schema.now d)) query.now.dimensions)) }
{
    let mut rows = writer_after(Vec::new(alloc));
    begin_record(&mut rows)?;
    let base = written_len(&rows);
    for of in query.dimensions() {
        write_one(&mut rows, base, schema.name(*of).as_bytes())?;
    }
    bytes_from(alloc, &rows, base)
}

// The same of any names. `csv` writes them where one calls for quotes.
fn names_of(alloc: Global, schema: &Schema, query: &Query) -> Result<Bytes, Memory>
    requires { All (IsName schema.now) query.now.dimensions }
    ensures { IfOk result (λ names. names ≡ 44 ∷ concat
        (map (λ d. before_another (name_text schema.now d)) query.now.dimensions)) }
{
    match plain_names(alloc, schema, query)? {
        Some(names) => Ok(names),
        None => written_names(alloc, schema, query),
    }
}

// The bytes after the first.
fn without_first(bytes: &[u8]) -> &[u8]
    requires { 0 < length bytes.now }
    ensures { result.now ≡ drop 1 bytes.now }
{
    &bytes[1..]
}

// Adds the line of names.
fn add_heading(
    alloc: Global,
    text: &mut Bytes,
    schema: &Schema,
    query: &Query,
) -> Result<(), Memory>
    requires { All (IsName schema.now) query.now.dimensions }
    ensures { OnOk result (text.new ≡ text.old ++ heading schema.now query.now) }
{
    let names = names_of(alloc, schema, query)?;
    text.push_slice(without_first(names.as_slice()))?;
    text.push_slice(b"count\n")
}

/// The lines before the first place, in a text with room for so many bytes more. It takes memory.
pub(crate) fn head_with_room(
    alloc: Global,
    schema: &Schema,
    query: &Query,
    number: u32,
    room: usize,
) -> Result<Bytes, Memory>
    requires { All (IsName schema.now) query.now.dimensions }
    ensures { IfOk result (λ head. head
        ≡ line_text (codes "release " ++ decimal number) ++ heading schema.now query.now) }
{
    let mut head = Bytes::with_room(alloc, room.saturating_add(HEAD))?;
    add_release(&mut head, number)?;
    add_heading(alloc, &mut head, schema, query)?;
    head.reserve(room)?;
    Ok(head)
}

/// The text of a query's table at the release of this number, where these are the rules by which it
/// is shown and these the table's cells: one for each of its places in row-major order, each of at
/// most `MOST_PERSONS` persons. It takes memory for the text, and for the fields of each dimension.
pub fn table_text(
    alloc: Global,
    setup: &Setup,
    rules: &Rules,
    query: &Query,
    number: u32,
    cells: &[Cell],
) -> Result<Vec<u8>, Memory>
    requires names { All (IsName setup.now.schema) query.now.dimensions }
    requires few { All (λ cell. cell.count ≤ MOST_PERSONS) cells.now }
    ensures { IfOk result (λ text. text.items
        ≡ text_of_cells setup.now.schema (pvalues_in setup.now rules.now) rules.now.threshold
        query.now number cells.now) }
{
    let prepared = Prepared::of(alloc, setup, query, number, cells.len(), usize::MAX)?;
    let text = prepared.text(alloc, rules, cells)?;
    Ok(text)
}

/// Writes the text of a query's table, as `table_text` says it, to a sink: in one write where it
/// is short, else piece by piece. All memory is taken before the first byte: where that is refused,
/// nothing is written. A write that fails ends the writing.
pub fn write_table<K: Sink>(
    alloc: Global,
    setup: &Setup,
    rules: &Rules,
    query: &Query,
    number: u32,
    cells: &[Cell],
    sink: &mut K,
) -> Result<Wrote, Memory>
    requires names { All (IsName setup.now.schema) query.now.dimensions }
    requires few { All (λ cell. cell.count ≤ MOST_PERSONS) cells.now }
    ensures written { IfOk result (λ wrote. IsWritten wrote (K.faults sink.old)
        (K.faults sink.new) (K.taken sink.old) (K.taken sink.new)
        (text_of_cells setup.now.schema (pvalues_in setup.now rules.now) rules.now.threshold
        query.now number cells.now)) }
    ensures err { OnErr result (sink.new ≡ sink.old) }
{
    let prepared = Prepared::of(alloc, setup, query, number, cells.len(), BUFFER)?;
    let wrote = prepared.write(rules, cells, sink);
    Ok(wrote)
}
