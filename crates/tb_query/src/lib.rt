//! Query lines: the query that a line reads as, or its first fault (`read_query`), and a query's
//! canonical text (`print_query`, which the program doesn't use).
//!
//! A refusal depends on the schema and the line alone, and is the fault with the lowest number over
//! the whole line. A line is at most one query.
//!
//! Begin at `read.rt`: tokens (`tokens.rt`), the parser by descent (`parse.rt`), names and codes
//! (`check.rt`). A step that takes one token stands once (`after`, `expect` of `parse/tree.rt`); a
//! parser's clause says that what the table of steps reads from one stage is what it reads from
//! another, after something in front (`Leads`). First the first item, then `while let`: at its exit
//! the next token is known to be no separator.
#![tactic(auto)]

mod check;
mod codes;
mod fault;
pub mod laws;
mod limits;
mod names;
mod parse;
mod print;
mod query;
mod read;
mod tokens;

pub use fault::QueryFault;
pub use limits::{MOST_DIMENSIONS, MOST_FILTERS, MOST_PLACES, MOST_QUERY_BYTES};
pub use print::print_query;
pub use query::Query;
pub use read::read_query;
pub use tb_model::Filter;
