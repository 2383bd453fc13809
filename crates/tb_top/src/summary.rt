// The line that sums up the replies over a generated population.

ghost use Rattle.std.specs.Prelude.{ℕ, List, Some};
ghost use Rattle.tb_io.specs.Taken.{IsWritten};
ghost use Rattle.tb_top.specs.Summaries.{summary_line};
ghost use Rattle.tb_top.specs.Summing.{AreSums};

use crate::sums::Sums;
use itoa::Buffer;
use tb_command::Population;
use tb_io::{Sink, Wrote, write_all};

/// Writes the line that sums up a text of replies, of which these are the sums. It takes no memory.
pub(crate) fn write_summary<O: Sink>(population: &Population, sums: &Sums, out: &mut O) -> Wrote
    ensures written { (text : List ℕ) → AreSums (Some sums.now) text
        → IsWritten result (O.faults out.old) (O.faults out.new)
        (O.taken out.old) (O.taken out.new) (summary_line population.now text) }
{
    let mut first = Buffer::new();
    let mut second = Buffer::new();
    let mut third = Buffer::new();
    let mut fourth = Buffer::new();
    let mut fifth = Buffer::new();
    let persons = first.format(population.persons()).as_bytes();
    let start = second.format(population.start()).as_bytes();
    let feeds = third.format(sums.line_feeds).as_bytes();
    let bytes = fourth.format(sums.bytes).as_bytes();
    let byte_sum = fifth.format(sums.byte_sum).as_bytes();
    write_all(
        out,
        &[
            b"gen ", persons, b" ", start, b" lines ", feeds, b" bytes ", bytes, b" sum ",
            byte_sum, b"\n",
        ],
    )
}
