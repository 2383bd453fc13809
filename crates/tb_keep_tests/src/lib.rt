//! Tests of `keep` by the top call, over the small setup and a disk in memory: worked runs, two
//! runs one after another, a stop after each call of the disk and in each write, each call failing
//! in turn, and journals that are cut or changed. Each call has ample memory.
//!
//! Begin at `worked.rt`; `running.rt` has what they share. `tb_journal_tests` has the journal's own
//! tests, of many batches and of every kind of edit.
#![tactic(auto)]

#[cfg(test)]
mod changes;
#[cfg(test)]
mod failures;
#[cfg(test)]
mod running;
#[cfg(test)]
mod stops;
#[cfg(test)]
mod worked;
