//! The words of a command, put into their positions by `clap` (`in_positions`).
//!
//! Who calls has read the words (`IsCommand`), so `clap` refuses them for want of memory alone, and
//! finds each word that was handed on at its own position. It knows no help and no options here.
//!
//! Begin at `given.rt`, `in_positions`: a `-`, which stands for no file and which `clap` would take
//! for the beginning of an option, is handed on as `none`. The commands and their positions are
//! those of the table of `tb_command`.
#![tactic(auto)]

mod given;
mod positions;

pub use given::in_positions;
