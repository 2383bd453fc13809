//! Tests of the journal: files by their bytes, stops after each call of the disk and in each write,
//! each call failing in turn, the two writes of a batch, and edits that fit a setup. Their calls
//! have ample memory, and are public.
//!
//! Begin at `stops.rt`; `running.rt` has what they share, and `specs/Ready` what is told of a
//! journal beside a disk in memory.
#![tactic(auto)]

#[cfg(test)]
mod batches;
#[cfg(test)]
mod files;
#[cfg(test)]
mod fitted;
#[cfg(test)]
mod payloads;
#[cfg(test)]
mod running;
#[cfg(test)]
mod stops;
