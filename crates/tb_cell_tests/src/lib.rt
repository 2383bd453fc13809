//! Tests of releases and cubes: batches of edits, also of records and rules mixed and at a limit of
//! records, pages and their stamps, columns, tallies, key sums, cubes, past releases, runs of events
//! and the recency list, worked by hand over the small setup. Their calls have ample memory, and are
//! public.
//!
//! Begin at `batches.rt` or `cubes.rt`; `making.rt` has what they share. A `#[test]` function owns
//! nothing: it asserts what one function returns.
#![tactic(auto)]

#[cfg(test)]
mod batches;
#[cfg(test)]
mod cubes;
#[cfg(test)]
mod event_runs;
#[cfg(test)]
mod key_sums;
#[cfg(test)]
mod limits;
#[cfg(test)]
mod making;
#[cfg(test)]
mod mixed_batches;
#[cfg(test)]
mod packed_cubes;
#[cfg(test)]
mod pages;
#[cfg(test)]
mod past_releases;
#[cfg(test)]
mod pieces;
#[cfg(test)]
mod recency_lists;
#[cfg(test)]
mod sets;
#[cfg(test)]
mod tallies;
