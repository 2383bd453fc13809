// The lines of a table's places, put together in a room and handed to a sink each time it is full.

ghost use Rattle.std.specs.Prelude.{◌≡◌, ◌<◌, ◌≤◌, ◌+◌, ◌++◌, ◌∷◌, [], length, drop, take};
ghost use Rattle.std.specs.Prelude.{codes, slice_index_or, All, IfOk, OnErr, OnOk};
ghost use Rattle.tb_base.specs.declared.people.TheConstants.{MOST_PERSONS};
ghost use Rattle.tb_io.specs.Taken.{IsWritten};
ghost use Rattle.tb_model.specs.Rules.{pvalues_in};
ghost use Rattle.tb_model.specs.RowMajor.{row_major};
ghost use Rattle.tb_model.specs.Texts.{line_text};
ghost use Rattle.tb_text.specs.Lines.{end_of, line_of, lines_under};
ghost use Rattle.tb_text.specs.Passing.{HasRoom, IsCut, IsOn};

use crate::bytes::{Bytes, WIDTH, put, put_end};
use crate::cut::Cut;
use crate::fields::EntryFields;
use crate::setup::Setup;
use tb_base::{Cell, Rules};
use tb_io::{Sink, Wrote, write_all};
use tb_model::Shown;

// Hands the bytes that wait to the sink, in one write.
fn hand_on<K: Sink>(waiting: &mut Bytes, sink: &mut K) -> Result<(), Cut>
    ensures none { waiting.new ≡ [] }
    ensures on { OnOk result (IsOn (K.faults sink.old) (K.faults sink.new) (K.taken sink.old)
        (K.taken sink.new) waiting.new waiting.old) }
    ensures cut { OnErr result (IsCut (K.faults sink.old) (K.faults sink.new)
        (K.taken sink.old) (K.taken sink.new) waiting.old) }
{
    let wrote = sink.write(waiting.as_slice());
    waiting.clear();
    match wrote {
        Wrote::All => Ok(()),
        Wrote::Failed => Err(Cut),
    }
}

// Writes a line, piece by piece.
fn write_line<K: Sink>(
    sink: &mut K,
    begin: &[u8],
    begin_len: usize,
    field: &[u8],
    field_len: usize,
    shown: Shown,
) -> Wrote
    requires begin { begin_len + 16 ≤ length begin.now }
    requires field { field_len + 16 ≤ length field.now }
    ensures written { IsWritten result (K.faults sink.old) (K.faults sink.new)
        (K.taken sink.old) (K.taken sink.new)
        (line_of (take begin_len begin.now) (take field_len field.now) shown) }
{
    let mut end = [0; WIDTH];
    let end_len = put_end(&mut end, 0, shown);
    let one = &begin[..begin_len];
    let two = &field[..field_len];
    let three = &end[..end_len];
    write_all(sink, &[one, two, three])
}

// Adds a line for which there is no room: the bytes before it are handed on, and the line itself
// too where it is longer than the room.
#[cold]
#[inline(never)]
fn add_past_room<K: Sink>(
    waiting: &mut Bytes,
    sink: &mut K,
    begin: &[u8],
    begin_len: usize,
    field: &[u8],
    field_len: usize,
    shown: Shown,
) -> Result<(), Cut>
    requires begin { begin_len + 16 ≤ length begin.now }
    requires field { field_len + 16 ≤ length field.now }
    ensures on { OnOk result (IsOn (K.faults sink.old) (K.faults sink.new) (K.taken sink.old)
        (K.taken sink.new) waiting.new (waiting.old
        ++ line_of (take begin_len begin.now) (take field_len field.now) shown)) }
    ensures cut { OnErr result (IsCut (K.faults sink.old) (K.faults sink.new)
        (K.taken sink.old) (K.taken sink.new) (waiting.old
        ++ line_of (take begin_len begin.now) (take field_len field.now) shown)) }
{
    hand_on(waiting, sink)?;
    if waiting.fit_line(begin, begin_len, field, field_len, shown) {
        return Ok(());
    }
    match write_line(sink, begin, begin_len, field, field_len, shown) {
        Wrote::All => Ok(()),
        Wrote::Failed => Err(Cut),
    }
}

// Adds a line: the first bytes of `begin` and of `field`, what is shown, and a line feed.
#[inline(always)]
fn add_line<K: Sink>(
    waiting: &mut Bytes,
    sink: &mut K,
    begin: &[u8],
    begin_len: usize,
    field: &[u8],
    field_len: usize,
    shown: Shown,
) -> Result<(), Cut>
    requires begin { begin_len + 16 ≤ length begin.now }
    requires field { field_len + 16 ≤ length field.now }
    ensures on { OnOk result (IsOn (K.faults sink.old) (K.faults sink.new) (K.taken sink.old)
        (K.taken sink.new) waiting.new (waiting.old
        ++ line_of (take begin_len begin.now) (take field_len field.now) shown)) }
    ensures cut { OnErr result (IsCut (K.faults sink.old) (K.faults sink.new)
        (K.taken sink.old) (K.taken sink.new) (waiting.old
        ++ line_of (take begin_len begin.now) (take field_len field.now) shown)) }
{
    if waiting.fit_line(begin, begin_len, field, field_len, shown) {
        return Ok(());
    }
    add_past_room(waiting, sink, begin, begin_len, field, field_len, shown)
}

// Adds the line of a cell: the first bytes of `begin`, the field `i`, from 0, and the cell's end.
#[inline(always)]
fn add_cell<K: Sink>(
    waiting: &mut Bytes,
    sink: &mut K,
    setup: &Setup,
    rules: &Rules,
    begin: &[u8],
    len: usize,
    fields: &EntryFields,
    i: usize,
    cell: Cell,
) -> Result<(), Cut>
    requires few { cell.count ≤ MOST_PERSONS }
    requires room { len + 16 ≤ length begin.now }
    requires entry { i < length fields.now }
    ensures on { OnOk result (IsOn (K.faults sink.old) (K.faults sink.new) (K.taken sink.old)
        (K.taken sink.new) waiting.new (waiting.old
        ++ ((take len begin.now ++ slice_index_or fields.now i [])
        ++ end_of (pvalues_in setup.now rules.now) rules.now.threshold cell))) }
    ensures cut { OnErr result (IsCut (K.faults sink.old) (K.faults sink.new)
        (K.taken sink.old) (K.taken sink.new) (waiting.old
        ++ ((take len begin.now ++ slice_index_or fields.now i [])
        ++ end_of (pvalues_in setup.now rules.now) rules.now.threshold cell))) }
{
    let shown = setup.shown(rules, cell);
    let field_len = fields.field_len(i);
    let field = fields.wide_field(i);
    add_line(waiting, sink, begin, len, field, field_len, shown)
}

// Adds the lines of cells, each of which begins with the first bytes of `begin` and a field.
fn add_row<K: Sink>(
    waiting: &mut Bytes,
    sink: &mut K,
    setup: &Setup,
    rules: &Rules,
    begin: &[u8],
    len: usize,
    fields: &EntryFields,
    cells: &[Cell],
) -> Result<(), Cut>
    requires few { All (λ cell. cell.count ≤ MOST_PERSONS) cells.now }
    requires room { len + 16 ≤ length begin.now }
    ensures on { OnOk result (IsOn (K.faults sink.old) (K.faults sink.new) (K.taken sink.old)
        (K.taken sink.new) waiting.new (waiting.old
        ++ lines_under (end_of (pvalues_in setup.now rules.now) rules.now.threshold)
        (take len begin.now) (fields.now ∷ []) cells.now)) }
    ensures cut { OnErr result (IsCut (K.faults sink.old) (K.faults sink.new)
        (K.taken sink.old) (K.taken sink.new) (waiting.old
        ++ lines_under (end_of (pvalues_in setup.now rules.now) rules.now.threshold)
        (take len begin.now) (fields.now ∷ []) cells.now)) }
{
    for i in 0..fields.len().min(cells.len()) {
        add_cell(waiting, sink, setup, rules, begin, len, fields, i, cells[i])?;
    }
    Ok(())
}

// Adds the line of the cell at the place `at`, if there is one, where no dimension is left.
fn add_alone<K: Sink>(
    waiting: &mut Bytes,
    sink: &mut K,
    setup: &Setup,
    rules: &Rules,
    begin: &[u8],
    len: usize,
    cells: &[Cell],
    at: usize,
) -> Result<usize, Cut>
    requires within { at ≤ length cells.now }
    requires few { All (λ cell. cell.count ≤ MOST_PERSONS) cells.now }
    requires room { len + 16 ≤ length begin.now }
    ensures on { OnOk result (IsOn (K.faults sink.old) (K.faults sink.new) (K.taken sink.old)
        (K.taken sink.new) waiting.new (waiting.old
        ++ lines_under (end_of (pvalues_in setup.now rules.now) rules.now.threshold)
        (take len begin.now) [] (drop at cells.now))) }
    ensures cut { OnErr result (IsCut (K.faults sink.old) (K.faults sink.new)
        (K.taken sink.old) (K.taken sink.new) (waiting.old
        ++ lines_under (end_of (pvalues_in setup.now rules.now) rules.now.threshold)
        (take len begin.now) [] (drop at cells.now))) }
    ensures within { IfOk result (λ next. next ≤ length cells.now) }
    ensures next { IfOk result (λ next. drop next cells.now ≡ drop 1 (drop at cells.now)) }
{
    if at == cells.len() {
        return Ok(at);
    }
    let shown = setup.shown(rules, cells[at]);
    add_line(waiting, sink, begin, len, begin, 0, shown)?;
    Ok(at + 1)
}

/// Adds the lines of the cells from the place `at` on, each of which begins with the first `len`
/// bytes of `begin` and goes on with a field of each dimension; the last dimension's change
/// fastest. Returns the place of the next cell. It takes no memory: behind those bytes `begin` has
/// room for a field of each dimension.
pub(crate) fn add_lines<K: Sink>(
    waiting: &mut Bytes,
    sink: &mut K,
    setup: &Setup,
    rules: &Rules,
    begin: &mut [u8],
    len: usize,
    dimensions: &[EntryFields],
    cells: &[Cell],
    at: usize,
) -> Result<usize, Cut>
    requires within { at ≤ length cells.now }
    requires few { All (λ cell. cell.count ≤ MOST_PERSONS) cells.now }
    requires room { HasRoom len (length begin.old) dimensions.now }
    ensures on { OnOk result (IsOn (K.faults sink.old) (K.faults sink.new) (K.taken sink.old)
        (K.taken sink.new) waiting.new (waiting.old
        ++ lines_under (end_of (pvalues_in setup.now rules.now) rules.now.threshold)
        (take len begin.old) dimensions.now (drop at cells.now))) }
    ensures cut { OnErr result (IsCut (K.faults sink.old) (K.faults sink.new)
        (K.taken sink.old) (K.taken sink.new) (waiting.old
        ++ lines_under (end_of (pvalues_in setup.now rules.now) rules.now.threshold)
        (take len begin.old) dimensions.now (drop at cells.now))) }
    ensures begin { OnOk result (take len begin.new ≡ take len begin.old) }
    ensures long { length begin.new ≡ length begin.old }
    ensures within { IfOk result (λ next. next ≤ length cells.now) }
    ensures next { IfOk result (λ next. drop next cells.now
        ≡ drop (length (row_major dimensions.now)) (drop at cells.now)) }
{
    let Some((fields, rest)) = dimensions.split_first() else {
        return add_alone(waiting, sink, setup, rules, begin, len, cells, at);
    };
    if rest.is_empty() {
        let row = &cells[at..];
        add_row(waiting, sink, setup, rules, begin, len, fields, row)?;
        return Ok(at + fields.len().min(row.len()));
    }
    let mut next = at;
    for i in 0..fields.len() {
        let field_len = fields.field_len(i);
        put(begin, len, fields.wide_field(i), field_len);
        let end = len + field_len;
        next = add_lines(waiting, sink, setup, rules, begin, end, rest, cells, next)?;
    }
    Ok(next)
}

/// Hands the bytes that wait and the last line to the sink, in one write where there is room.
pub(crate) fn finish<K: Sink>(waiting: &mut Bytes, sink: &mut K) -> Wrote
    ensures written { IsWritten result (K.faults sink.old) (K.faults sink.new)
        (K.taken sink.old) (K.taken sink.new) (waiting.old ++ line_text (codes ".")) }
{
    if waiting.fit(b".\n") {
        return sink.write(waiting.as_slice());
    }
    match sink.write(waiting.as_slice()) {
        Wrote::All => sink.write(b".\n"),
        Wrote::Failed => Wrote::Failed,
    }
}
