//! Tests of lines and of their tables: queries, edits and scripts by their bytes, each fault with
//! its place, plans and printed tables, and what may be asked. Their calls have ample memory. They
//! call public functions alone; whole runs stand in `tb_top_tests`.
//!
//! Begin at `query_lines.rt`, or at `table_texts.rt` for printed tables. A `#[test]` function owns
//! nothing: it asserts what one function returns, the place of the first row that is wrong.
#![tactic(auto)]

#[cfg(test)]
mod counting;
#[cfg(test)]
mod descriptions;
#[cfg(test)]
mod edit_lines;
#[cfg(test)]
mod edit_refusals;
#[cfg(test)]
mod long_tables;
#[cfg(test)]
mod making;
#[cfg(test)]
mod plans;
#[cfg(test)]
mod query_limits;
#[cfg(test)]
mod query_lines;
#[cfg(test)]
mod scripts;
#[cfg(test)]
mod table_texts;
