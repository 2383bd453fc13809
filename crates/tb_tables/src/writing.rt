// Lines that are put together from words and numbers. Writing them takes no memory.

ghost use Rattle.std.specs.Prelude.{◌++◌, codes, decimal};
ghost use Rattle.tb_io.specs.Taken.{IsWritten};
ghost use Rattle.tb_tables.specs.ReplyLines.{refusal_line};

use tb_base::print_number;
use tb_io::{Sink, Wrote, write_all};
use tb_rows::FaultName;

/// Writes a line of some text and a number. It takes no memory.
pub fn write_number<O: Sink>(out: &mut O, before: &'static [u8], number: u32) -> Wrote
    ensures written { IsWritten result (O.faults out.old) (O.faults out.new) (O.taken out.old)
        (O.taken out.new) (before.now ++ decimal number ++ codes "\n") }
{
    let mut digits = [0; 10];
    let len = print_number(number, &mut digits);
    write_all(out, &[before, &digits[..len], b"\n"])
}

/// Writes a line of some text, and the number and the word of a fault. It takes no memory.
pub fn write_fault<O: Sink>(out: &mut O, before: &'static [u8], fault: &FaultName) -> Wrote
    ensures written { IsWritten result (O.faults out.old) (O.faults out.new) (O.taken out.old)
        (O.taken out.new)
        (before.now ++ decimal fault.now.number ++ codes " " ++ fault.now.word ++ codes "\n") }
{
    let mut digits = [0; 10];
    let len = print_number(u32::from(fault.number()), &mut digits);
    let word = fault.word().as_bytes();
    write_all(out, &[before, &digits[..len], b" ", word, b"\n"])
}

// Writes the line of a query that is refused.
pub(crate) fn write_refusal<O: Sink>(out: &mut O, fault: &FaultName, position: Option<u32>) -> Wrote
    ensures written { IsWritten result (O.faults out.old) (O.faults out.new) (O.taken out.old)
        (O.taken out.new) (refusal_line fault.now position) }
{
    let Some(at) = position else {
        return write_fault(out, b"refused ", fault);
    };
    let mut first = [0; 10];
    let mut second = [0; 10];
    let number_len = print_number(u32::from(fault.number()), &mut first);
    let at_len = print_number(at, &mut second);
    let number = &first[..number_len];
    let word = fault.word().as_bytes();
    let place = &second[..at_len];
    write_all(out, &[b"refused ", number, b" ", word, b" ", place, b"\n"])
}
