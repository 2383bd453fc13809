//! The bytes of a list of edits, as a journal keeps them in a payload: each list has one spelling,
//! written by `spell_behind` and read back by `read_payload`.
//!
//! Bytes that are no payload are refused whole, and nothing of them is kept. `payload_len` is
//! exact, so `put` of `tb_journal` takes memory once for all that it writes.
//!
//! Begin at `write.rt`, `read.rt` and `specs/Spelling`. A reader and a spelling are one record
//! (`IsFormat` of `proofs/Formats`), proved once for each way to make one of others; functions that
//! read follow these ways one by one, each with the one clause `Gives`, and need no answer. One
//! more kind of edit is an arm each in `Spelling`, `Payloads` and `Reading`, in `write.rt` and
//! `read.rt`, and in `proofs/Edits`.
#![tactic(auto)]

mod fault;
pub mod laws;
mod limits;
mod read;
mod write;

pub use fault::PayloadFault;
pub use limits::{MOST_PARTS, MOST_PAYLOAD_BYTES};
pub use read::read_payload;
pub use write::{payload_len, spell, spell_behind};
