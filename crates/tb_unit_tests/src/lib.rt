//! Tests of dwellings: both files with their faults, and the cells of tables that count dwellings,
//! worked by hand over the small setup and beside a plain count. Their calls have ample memory, and
//! are public.
//!
//! Begin at `worked.rt`, or at `refused.rt` for the files; `making.rt` has what they share.
#![tactic(auto)]

#[cfg(test)]
mod accepted;
#[cfg(test)]
mod faults;
#[cfg(test)]
mod limits;
#[cfg(test)]
mod making;
#[cfg(test)]
mod plain;
#[cfg(test)]
mod refused;
#[cfg(test)]
mod worked;
