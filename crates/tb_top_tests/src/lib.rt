//! Tests of the top call over files and a sink in memory: worked runs and scripts, limits of
//! persons, generated populations, scripts that a follower answers, tables of dwellings, files that
//! are cut, readings and sinks that fail, tables of many places, arguments at each edge, and calls
//! with ample memory.
//!
//! Begin at `runs.rt`; `running.rt` makes a run of a row. Tables of rows stand behind functions
//! without a clause, so that no proof of a loop reads them.
#![tactic(auto)]

#[cfg(test)]
mod arguments;
#[cfg(test)]
mod cuts;
#[cfg(test)]
mod dwellings;
#[cfg(test)]
mod faults;
#[cfg(test)]
mod follows;
#[cfg(test)]
mod generated;
#[cfg(test)]
mod large;
#[cfg(test)]
mod limits;
#[cfg(test)]
mod memory;
#[cfg(test)]
mod running;
#[cfg(test)]
mod runs;
#[cfg(test)]
mod scripts;
