// The reply to a line of the leader's, and how it is written.

ghost use Rattle.std.specs.Prelude.{◌≡◌};
ghost use Rattle.tb_ahead.specs.Publishing.{batch_refusal_line};
ghost use Rattle.tb_io.specs.Taken.{IsWritten};
ghost use Rattle.tb_leader.specs.LeaderReplies.{answer_text};
ghost use Rattle.tb_leader.specs.ReplyTexts.{reply_text};

use tb_base::print_number;
use tb_follow::Delivered;
use tb_io::{Sink, Wrote, write_all};
use tb_rows::FaultName;
use tb_tables::{write_fault, write_number};

/// The reply to a line of the leader's.
#[derive(Drop)]
pub enum LeaderReply {
    /// There is none.
    Nothing,
    /// The message of this number is begun.
    Begun(u32),
    /// The open message has so many edits, with this one.
    Held(u32),
    /// An edit is refused by its first fault; the message is given up.
    EditRefused(FaultName),
    /// The message was delivered, and the release has this number now.
    At(u32),
    /// It waits, at a release of this number.
    Kept(u32),
    /// It is old, at a release of this number.
    Old(u32),
    /// It is too far ahead, at a release of this number.
    Far(u32),
    /// It is refused at the edit of this number.
    BatchRefused(u32, FaultName),
    /// The release is release 0 again.
    Restarted,
    /// The line is none that the leader may send, or there is no message for it.
    Refused,
    /// The memory for it is refused; the message is given up.
    Memory,
}

// Writes the line of a batch that is refused.
fn write_batch_refusal<O: Sink>(out: &mut O, edit: u32, fault: &FaultName) -> Wrote
    ensures written { IsWritten result (O.faults out.old) (O.faults out.new) (O.taken out.old)
        (O.taken out.new) (batch_refusal_line edit fault.now) }
{
    let mut first = [0; 10];
    let mut second = [0; 10];
    let edit_len = print_number(edit, &mut first);
    let number_len = print_number(u32::from(fault.number()), &mut second);
    let place = &first[..edit_len];
    let number = &second[..number_len];
    let word = fault.word().as_bytes();
    write_all(
        out,
        &[b"refused batch ", place, b" ", number, b" ", word, b"\n"],
    )
}

impl LeaderReply {
    /// The reply to the end of a message that was delivered.
    pub(crate) fn of(delivered: Delivered) -> LeaderReply
        ensures { reply_text result ≡ answer_text delivered }
    {
        match delivered {
            Delivered::Applied(number) => LeaderReply::At(number),
            Delivered::Kept(number) => LeaderReply::Kept(number),
            Delivered::Old(number) => LeaderReply::Old(number),
            Delivered::Far(number) => LeaderReply::Far(number),
            Delivered::Refused { edit, kind } => LeaderReply::BatchRefused(edit, kind.name()),
            Delivered::Memory => LeaderReply::Memory,
        }
    }

    /// Writes the reply's text in one write, if it has one. It takes no memory.
    pub fn write<O: Sink>(self, out: &mut O) -> Wrote
        ensures { IsWritten result (O.faults out.old) (O.faults out.new) (O.taken out.old)
            (O.taken out.new) (reply_text self) }
    {
        match self {
            LeaderReply::Nothing => Wrote::All,
            LeaderReply::Begun(number) => write_number(out, b"begun ", number),
            LeaderReply::Held(count) => write_number(out, b"held ", count),
            LeaderReply::EditRefused(fault) => write_fault(out, b"refused edit ", &fault),
            LeaderReply::At(number) => write_number(out, b"at ", number),
            LeaderReply::Kept(number) => write_number(out, b"kept ", number),
            LeaderReply::Old(number) => write_number(out, b"old ", number),
            LeaderReply::Far(number) => write_number(out, b"far ", number),
            LeaderReply::BatchRefused(edit, fault) => write_batch_refusal(out, edit, &fault),
            LeaderReply::Restarted => out.write(b"restarted\n"),
            LeaderReply::Refused => out.write(b"refused leader\n"),
            LeaderReply::Memory => out.write(b"memory\n"),
        }
    }
}
