// A reply, and how it is written.
//
// What decides on a reply isn't generic in a sink, so its goals have no ledger's or sink's names;
// only `write` speaks of what was taken.

ghost use Rattle.std.specs.Prelude.{◌≡◌};
ghost use Rattle.tb_ahead.specs.Publishing.{batch_refusal_line};
ghost use Rattle.tb_io.specs.Taken.{IsWritten};
ghost use Rattle.tb_session.specs.ReplyLines.{stats_line};
ghost use Rattle.tb_session.specs.ReplyTexts.{reply_text, text_or_memory};

use itoa::Buffer;
use tb_base::{Memory, print_number};
use tb_core::Stats;
use tb_describe::Description;
use tb_io::{Sink, Wrote, write_all};
use tb_rows::FaultName;
use tb_tables::{TableReply, write_fault, write_number};

/// The reply to a line.
#[derive(Drop)]
pub(crate) enum Reply<'a> {
    /// There is none.
    Nothing,
    /// What may be asked.
    Description(Description),
    /// The reply to a query's line.
    Query(TableReply<'a>),
    /// A query is refused since there is no such release: the last one has this number.
    NoSuchRelease(u32),
    /// A query is refused since its release was taken back: the oldest that is shown has this
    /// number.
    Withdrawn(u32),
    /// So many edits are held, with this one.
    Held(u32),
    /// An edit is refused by its first fault.
    EditRefused(FaultName),
    /// The held edits led to the release of this number.
    Published(u32),
    /// The held edits are refused at the edit of this number.
    BatchRefused(u32, FaultName),
    /// The desk's numbers.
    Stats(Stats),
    /// The cubes are forgotten.
    Cleared,
    /// So many cubes may be kept.
    Capacity(u32),
    /// The memory for it is refused.
    Memory,
}

// Writes the line of a batch that is refused.
fn write_batch_refusal<O: Sink>(out: &mut O, edit: u32, fault: &FaultName) -> Wrote
    ensures written { IsWritten result (O.faults out.old) (O.faults out.new) (O.taken out.old)
        (O.taken out.new) (batch_refusal_line edit fault.now) }
{
    let mut first = [0; 10];
    let mut second = [0; 10];
    let edit_len = print_number(edit, &mut first);
    let number_len = print_number(u32::from(fault.number()), &mut second);
    let place = &first[..edit_len];
    let number = &second[..number_len];
    let word = fault.word().as_bytes();
    write_all(
        out,
        &[b"refused batch ", place, b" ", number, b" ", word, b"\n"],
    )
}

// Writes the line of the desk's numbers.
fn write_stats<O: Sink>(out: &mut O, stats: &Stats) -> Wrote
    ensures written { IsWritten result (O.faults out.old) (O.faults out.new) (O.taken out.old)
        (O.taken out.new) (stats_line stats.now) }
{
    let mut first = Buffer::new();
    let mut second = Buffer::new();
    let mut third = Buffer::new();
    let mut fourth = Buffer::new();
    let mut fifth = Buffer::new();
    let release = first.format(stats.release).as_bytes();
    let looks = second.format(stats.looks).as_bytes();
    let hits = third.format(stats.hits).as_bytes();
    let entries = fourth.format(stats.entries).as_bytes();
    let capacity = fifth.format(stats.capacity).as_bytes();
    write_all(
        out,
        &[
            b"stats release ",
            release,
            b" looks ",
            looks,
            b" hits ",
            hits,
            b" entries ",
            entries,
            b" capacity ",
            capacity,
            b"\n",
        ],
    )
}

impl<'a> Reply<'a> {
    /// A reply, or `Memory` where it couldn't be made.
    pub(crate) fn or_memory(reply: Result<Reply<'a>, Memory>) -> Reply<'a>
        ensures { reply_text result ≡ text_or_memory reply.entry }
    {
        match reply {
            Ok(reply) => reply,
            Err(Memory) => Reply::Memory,
        }
    }

    /// Writes the reply's text: a long table piece by piece, any other in one write. It takes no
    /// memory.
    pub(crate) fn write<O: Sink>(self, out: &mut O) -> Wrote
        ensures { IsWritten result (O.faults out.old) (O.faults out.new) (O.taken out.old)
            (O.taken out.new) (reply_text self.entry) }
    {
        match self {
            Reply::Nothing => Wrote::All,
            Reply::Description(reply) => reply.write(out),
            Reply::Query(reply) => reply.write(out),
            Reply::NoSuchRelease(last) => write_number(out, b"refused 10 NoSuchRelease ", last),
            Reply::Withdrawn(oldest) => write_number(out, b"refused 11 Withdrawn ", oldest),
            Reply::Held(count) => write_number(out, b"held ", count),
            Reply::EditRefused(fault) => write_fault(out, b"refused edit ", &fault),
            Reply::Published(number) => write_number(out, b"published ", number),
            Reply::BatchRefused(edit, fault) => write_batch_refusal(out, edit, &fault),
            Reply::Stats(stats) => write_stats(out, &stats),
            Reply::Cleared => out.write(b"cleared\n"),
            Reply::Capacity(capacity) => write_number(out, b"cache ", capacity),
            Reply::Memory => out.write(b"memory\n"),
        }
    }
}
