//! Tests of the files: each reader's files by their bytes, each fault with its place, the texts of
//! faults, names at their limits, the generated files, and the forms over the system. Their calls
//! have ample memory, and are public.
//!
//! Begin at `accepted.rt` and `refused.rt`, rows of whole files. A row says what it wants by number
//! and word, since a static table with an enum inside an `Option` takes up to a minute to prove.
#![tactic(auto)]

#[cfg(test)]
mod accepted;
#[cfg(test)]
mod faults;
#[cfg(test)]
mod files;
#[cfg(test)]
mod generated;
#[cfg(test)]
mod limits;
#[cfg(test)]
mod parts;
#[cfg(test)]
mod printed;
#[cfg(test)]
mod refused;
#[cfg(test)]
mod spelling;
