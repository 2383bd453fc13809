//! Lines that are answered one after another, by anything that answers lines (`Answerer`): those of
//! a source, in a session (`answer_lines`), and those of a list (`answer_list`).
//!
//! A session ends with its source, at `quit`, at a line that is too long, at a foreign line,
//! unanswered (one that ends with a blank and HTTP/1.0 or HTTP/1.1), after `MOST_LINES` lines, and
//! at the first fault. Nothing takes memory but the replies. Where a read failed only whole lines
//! were answered.
//!
//! Begin at `answerer.rt` and `line_by_line.rt`. The loops' lemmas stand over any relation of steps
//! (`proofs/SoFar`; the counter is in the state, `AtPrice`) and any bound (`Ends`), so no board
//! enters. What a source gave is kept beside its stream (`Cutting`).
#![tactic(auto)]

mod answerer;
mod foreign;
mod line;
mod line_by_line;
mod list;
mod quit;
mod session_end;

pub use answerer::Answerer;
pub use line::is_passed_over;
pub use line_by_line::answer_lines;
pub use list::{LineList, answer_list};
pub use session_end::{MOST_LINES, SessionEnd};
