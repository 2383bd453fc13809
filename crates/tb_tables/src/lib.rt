//! The reply to a query's line over one release, without a board (`answer_at`), and the steps to
//! it, which a party over a board takes too: the line is read, the query planned, its cells are
//! counted by a cube or from the records, and the table is prepared and written.
//!
//! A cube is built anew and none is kept. A line at fault writes its refusal without memory; where
//! memory is refused at any step the reply is `memory`. All of it is taken before the first byte.
//!
//! Begin at `answer.rt`, then `count.rt` and `reply.rt` (`TableReply`, a value without a sink). A
//! query answered over something else takes these steps in a crate of its own, with `by-text` and
//! `by-fault` of `proofs/QueryAnswers`.
#![tactic(auto)]

mod answer;
mod count;
mod homes;
pub mod laws;
mod query;
mod reply;
mod writing;

pub use answer::{answer_at, table_anew};
pub use count::{Counted, count_anew, count_records, roll_up, roll_up_at};
pub use homes::homes_table;
pub use query::{plan_for, read, shape_in};
pub use reply::TableReply;
pub use writing::{write_fault, write_number};
