// The reply to a query's line, and how it is written.

ghost use Rattle.std.specs.Prelude.{◌≡◌};
ghost use Rattle.std.specs.Result.{result_unwrap_or};
ghost use Rattle.tb_io.specs.Taken.{IsWritten};
ghost use Rattle.tb_tables.specs.ReplyLines.{memory_line};
ghost use Rattle.tb_tables.specs.ReplyTexts.{fault_text, table_reply_text};

use crate::writing::write_refusal;
use tb_base::Memory;
use tb_io::{Sink, Wrote};
use tb_query::QueryFault;
use tb_rows::FaultName;
use tb_text::PreparedTable;

/// The reply to a query's line.
#[derive(Drop)]
pub enum TableReply<'a> {
    /// The query's table.
    Table(PreparedTable<'a>),
    /// The query is refused by its first fault, at a position where it has one.
    Refused(FaultName, Option<u32>),
    /// The memory for it is refused.
    Memory,
}

impl<'a> TableReply<'a> {
    /// A query's table, or `Memory` where it couldn't be made.
    pub fn of_table(table: Result<PreparedTable<'a>, Memory>) -> TableReply<'a>
        ensures { table_reply_text result ≡ result_unwrap_or table.entry memory_line }
    {
        match table {
            Ok(text) => TableReply::Table(text),
            Err(Memory) => TableReply::Memory,
        }
    }

    /// The refusal by a fault of the line, or `Memory` where that is the fault.
    pub fn of_fault(fault: &QueryFault) -> TableReply<'a>
        ensures { table_reply_text result ≡ fault_text fault.now }
    {
        match fault.name() {
            Some(name) => TableReply::Refused(name, fault.position()),
            None => TableReply::Memory,
        }
    }

    /// Writes the reply's text: a long table piece by piece, any other in one write. It takes no
    /// memory. A write that fails ends the writing.
    pub fn write<O: Sink>(self, out: &mut O) -> Wrote
        ensures { IsWritten result (O.faults out.old) (O.faults out.new) (O.taken out.old)
            (O.taken out.new) (table_reply_text self.entry) }
    {
        match self {
            TableReply::Table(text) => text.write(out),
            TableReply::Refused(fault, position) => write_refusal(out, &fault, position),
            TableReply::Memory => out.write(b"memory\n"),
        }
    }
}
