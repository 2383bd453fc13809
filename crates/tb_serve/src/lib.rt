//! The sessions of several listeners over one board, a worker each: the command `serve` (`serve`),
//! and its middle (`serve_from`), over any board whose chain may have begun and any `Owner` of the
//! first listener. Each is bound to a port of its own, or all but the first to one (`Places`).
//!
//! Nothing is accepted before all ports are bound; a fault until then ends the call. A session's
//! fault ends no other session, a failed accept only its own worker. Sessions end as in
//! `tb_session`: also, unanswered, at a foreign line (it ends with a blank and HTTP/1.0 or
//! HTTP/1.1). An analyst's worker has one pass: its next session begins where the last one ended.
//!
//! Begin at `serving.rt`, `serve`: `prepare` (readers of lines, then binds), the board,
//! `serve_from` (`over_board.rt`: confirmed passes, the workers, each with listener, party, reader
//! and counter of its own, then all passes confirmed), and the report, which takes no memory.
#![tactic(auto)]

mod closing;
mod over_board;
mod places;
mod port;
mod preparing;
mod readiness;
mod report;
mod seating;
mod serving;
mod workers;

pub use over_board::serve_from;
pub use places::Places;
pub use port::Port;
pub use preparing::prepare;
pub use readiness::Readiness;
pub use report::{end_with_report, write_end, write_ports, write_release};
pub use serving::serve;
