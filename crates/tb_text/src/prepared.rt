// A table that is ready to be written.

ghost use Rattle.std.specs.Prelude.{◌≡◌, ◌≤◌, ◌+◌, ℕ, List, All, IfOk};
ghost use Rattle.std.specs.Arc.{arc_value};
ghost use Rattle.tb_base.specs.Rules.{RulesValue};
ghost use Rattle.tb_base.specs.declared.cells.Cell.{Cell};
ghost use Rattle.tb_base.specs.declared.people.TheConstants.{MOST_PERSONS};
ghost use Rattle.tb_io.specs.Taken.{IsWritten};
ghost use Rattle.tb_model.specs.Rules.{pvalues_in};
ghost use Rattle.tb_model.specs.Texts.{text_of_cells};
ghost use Rattle.tb_schema.specs.Names.{IsName};
ghost use Rattle.tb_text.specs.Passing.{HasRoom};
ghost use Rattle.tb_text.specs.PreparedTables.{prepared_text};

use crate::bytes::{Bytes, WIDTH};
use crate::cut::Cut;
use crate::fields::{EntryFields, all_fields};
use crate::lines::{add_lines, finish};
use crate::setup::Setup;
use crate::table::head_with_room;
use crate::whole_text::WholeText;
use std::alloc::Global;
use std::marker::Model;
use std::sync::Arc;
use tb_base::{Cell, Memory, Rules};
use tb_io::{Sink, Wrote};
use tb_query::Query;

/// So many bytes of lines wait at most before they are written together.
pub(crate) const BUFFER: usize = 49_152;

// A shown count of at most 1,001,000 and its line feed.
const MOST_DIGITS: usize = 8;

// The last line, and the room that stays behind the lines.
const END: usize = 64;

// How much room the lines need: an entry stands in one line of so many.
fn room_for(fields: &[EntryFields], places: usize) -> usize {
    let mut room = places.saturating_mul(MOST_DIGITS).saturating_add(END);
    for dimension in fields {
        if dimension.len() > 0 {
            let lines = places / dimension.len();
            room = room.saturating_add(dimension.bytes().saturating_mul(lines));
        }
    }
    room
}

// How much room the fields before a line's last one need at most, and `WIDTH` bytes behind them.
fn begin_room(dimensions: &[EntryFields]) -> Result<usize, Memory>
    ensures { IfOk result (λ room. (used : ℕ) → HasRoom used (used + room) dimensions.now) }
{
    let Some((fields, rest)) = dimensions.split_first() else {
        return Ok(WIDTH);
    };
    let behind = begin_room(rest)?;
    match fields.longest().checked_add(behind) {
        Some(room) => Ok(room),
        None => Err(Memory),
    }
}

/// All that a table needs but its rules and its cells: the lines before the first place, in the
/// room in which lines wait, the fields of each dimension, and room for the fields with which a
/// line begins.
#[derive(Drop)]
pub(crate) struct Prepared<'a> {
    setup: &'a Setup,
    fields: Vec<EntryFields>,
    begin: Vec<u8>,
    waiting: Bytes,
}

impl<'a> Model for Prepared<'a> {
    ghost use Rattle.std.specs.Prelude.{length};
    ghost use Rattle.tb_text.specs.Passing.{HasRoom};
    ghost use Rattle.tb_text.specs.PreparedTables.{PreparedValue};

    ghost Value = { PreparedValue };

    ghost view = { λ p.
        record { setup = p.setup.now; head = p.waiting; fields = p.fields.items } };

    ghost invariant = { λ p. HasRoom 0 (length p.begin.items) p.fields.items };
}

impl<'a> Prepared<'a> {
    /// The table of a query at the release of this number, with so many cells, where at most `most`
    /// bytes of lines wait. It takes all the memory.
    pub(crate) fn of(
        alloc: Global,
        setup: &'a Setup,
        query: &Query,
        number: u32,
        places: usize,
        most: usize,
    ) -> Result<Prepared<'a>, Memory>
        requires names { All (IsName setup.now.schema) query.now.dimensions }
        ensures { IfOk result (λ p. (rules : RulesValue) (cells : List Cell)
            → prepared_text p rules cells
            ≡ text_of_cells setup.now.schema (pvalues_in setup.now rules) rules.threshold
            query.now number cells) }
    {
        let fields = all_fields(alloc, &setup.schema, query)?;
        let room = begin_room(&fields)?;
        let mut begin = Vec::new(alloc);
        begin.resize(room, 0)?;
        let lines = room_for(&fields, places).min(most);
        let waiting = head_with_room(alloc, &setup.schema, query, number, lines)?;
        Ok(Prepared {
            setup,
            fields,
            begin,
            waiting,
        })
    }

    /// Writes the table by these rules with these cells, in one write where it is short, else piece
    /// by piece. It takes no memory.
    pub(crate) fn write<K: Sink>(self, rules: &Rules, cells: &[Cell], sink: &mut K) -> Wrote
        requires { All (λ cell. cell.count ≤ MOST_PERSONS) cells.now }
        ensures { IsWritten result (K.faults sink.old) (K.faults sink.new) (K.taken sink.old)
            (K.taken sink.new) (prepared_text self.entry rules.now cells.now) }
    {
        let mut begin = self.begin;
        let mut waiting = self.waiting;
        let setup = self.setup;
        let fields = self.fields;
        match add_lines(
            &mut waiting,
            sink,
            setup,
            rules,
            &mut begin,
            0,
            &fields,
            cells,
            0,
        ) {
            Ok(_) => finish(&mut waiting, sink),
            Err(Cut) => Wrote::Failed,
        }
    }

    /// The text of the table by these rules with these cells: the lines that wait, where there is
    /// room for all. It takes memory where there isn't.
    pub(crate) fn text(
        self,
        alloc: Global,
        rules: &Rules,
        cells: &[Cell],
    ) -> Result<Vec<u8>, Memory>
        requires { All (λ cell. cell.count ≤ MOST_PERSONS) cells.now }
        ensures { IfOk result (λ text. text.items ≡ prepared_text self.entry rules.now cells.now) }
    {
        let mut begin = self.begin;
        let mut waiting = self.waiting;
        let setup = self.setup;
        let fields = self.fields;
        let mut whole = WholeText::new(alloc);
        match add_lines(
            &mut waiting,
            &mut whole,
            setup,
            rules,
            &mut begin,
            0,
            &fields,
            cells,
            0,
        ) {
            Ok(_) => {
                let text = whole.end_with(waiting)?;
                Ok(text)
            }
            Err(Cut) => Err(Memory),
        }
    }
}

/// A table that is ready to be written, seen as its text. To make one takes all the memory.
#[derive(Drop)]
pub struct PreparedTable<'a> {
    prepared: Prepared<'a>,
    rules: Arc<Rules>,
    cells: Vec<Cell>,
}

impl<'a> Model for PreparedTable<'a> {
    ghost use Rattle.std.specs.Prelude.{ℕ, List, ◌≤◌, All};
    ghost use Rattle.std.specs.Arc.{arc_value};
    ghost use Rattle.tb_base.specs.declared.people.TheConstants.{MOST_PERSONS};
    ghost use Rattle.tb_text.specs.PreparedTables.{prepared_text};

    ghost Value = { List ℕ };

    ghost view = { λ t. prepared_text t.prepared (arc_value t.rules) t.cells.items };

    ghost invariant = { λ t. All (λ cell. cell.count ≤ MOST_PERSONS) t.cells.items };
}

impl<'a> PreparedTable<'a> {
    /// The table of a query at the release of this number, where these are its rules and these its
    /// cells, as `table_text` says. It shares the rules, so it may outlive the release. It takes
    /// all the memory, though not that of the text.
    pub fn of(
        alloc: Global,
        setup: &'a Setup,
        rules: Arc<Rules>,
        query: &Query,
        number: u32,
        cells: Vec<Cell>,
    ) -> Result<PreparedTable<'a>, Memory>
        requires names { All (IsName setup.now.schema) query.now.dimensions }
        requires few { All (λ cell. cell.count ≤ MOST_PERSONS) cells.items }
        ensures { IfOk result (λ text. text
            ≡ text_of_cells setup.now.schema (pvalues_in setup.now (arc_value rules))
            (arc_value rules).threshold query.now number cells.items) }
    {
        let prepared = Prepared::of(alloc, setup, query, number, cells.len(), BUFFER)?;
        Ok(PreparedTable {
            prepared,
            rules,
            cells,
        })
    }

    /// Writes the text, in one write where it is short, else piece by piece. It takes no memory. A
    /// write that fails ends the writing.
    pub fn write<K: Sink>(self, sink: &mut K) -> Wrote
        ensures { IsWritten result (K.faults sink.old) (K.faults sink.new) (K.taken sink.old)
            (K.taken sink.new) self.entry }
    {
        self.prepared.write(&self.rules, &self.cells, sink)
    }
}
