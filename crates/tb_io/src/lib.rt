//! The outside of the program, as four traits: files that are read by name (`Files`), sources of
//! bytes and the lines cut off them (`Source`, `LineReader`), sinks (`Sink`), and listeners, which
//! give sessions (`Listen`); with forms in memory, and the system's files and output.
//!
//! A call fails only where a count of faults rose in it. A form of the system tells nothing of
//! content, and clauses on content are empty there; a sink that stops telling never tells again. A
//! line reader takes its room when it is made: a line is lent and never copied, one that is too
//! long isn't kept.
//!
//! Begin at `sink.rt` and `source.rt`, then `line_reader.rt` over `room.rt`. A write is one record
//! (`IsWritten`; `all_written`, `cut_written` and `written_as` of `proofs/Written`).
#![tactic(auto)]

mod answers;
mod failures;
mod file_map;
mod files;
mod limits;
mod line_reader;
mod listen;
mod mem_files;
mod mem_listen;
mod mem_sink;
mod mem_source;
mod pieces;
mod read;
mod real_files;
mod real_sink;
mod room;
mod sink;
mod source;
mod sure_files;
mod sure_sink;
mod sure_source;
mod unread;

pub use answers::{Accepted, Bound, FileRead, Wrote, count_fault};
pub use failures::is_listed;
pub use files::Files;
pub use limits::MOST_LINE_BYTES;
pub use line_reader::{LineReader, NextLine};
pub use listen::Listen;
pub use mem_files::MemFiles;
pub use mem_listen::MemListen;
pub use mem_sink::MemSink;
pub use mem_source::MemSource;
pub use pieces::write_all;
pub use read::Read;
pub use real_files::RealFiles;
pub use real_sink::RealSink;
pub use sink::Sink;
pub use source::Source;
pub use sure_files::SureFiles;
pub use sure_sink::SureSink;
pub use sure_source::SureSource;
