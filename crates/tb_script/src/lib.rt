//! Scripts: read whole from a file (`Script::read`), and answered line by line over a board, each
//! lane by a party of its own (`run_script`) or the custodian's lane by any `Owner` (`run_owned`).
//!
//! A file is refused by the number of its first bad line, where all lines count, and nothing of it
//! is kept. A run is out of memory only before its first line, while the analysts are made; later a
//! line that finds no memory is answered `memory`, and the next one follows.
//!
//! Begin at `script.rt`, `Script::read`: `line.rt` splits a line into lane and text, `parts.rt`
//! keeps it. Then `run.rt`: an analyst's pass learns a note of the custodian's before each line,
//! and the custodian confirms it after. The loop is `tb_lines::answer_list`, over `Parties`.
#![tactic(auto)]

mod asker;
mod fault;
pub mod laws;
mod limits;
mod line;
mod parts;
mod run;
mod script;

pub use asker::Asker;
pub use fault::ScriptFault;
pub use limits::{MOST_LANE_BYTES, MOST_LANES, MOST_SCRIPT_BYTES};
pub use run::{RunEnd, run_owned, run_script};
pub use script::Script;
