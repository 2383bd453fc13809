//! The lanes of a script answered at the same time, each in a thread where one can be made, phase
//! by phase (`run_lanes`). Each has a party, a `SureSink`, a gate and a counter of steps of its
//! own.
//!
//! A phase's text is written once all its lanes have ended. Where a sink has lost it for want of
//! memory nothing of that phase is written and the run ends; the texts before it stay written. No
//! phase goes over the whole script: its lines are found by their places.
//!
//! Begin at `phase.rt`, `run_phase`, five calls in a row: every analyst's pass learns a note of the
//! custodian's, also without a line in the phase; the custodian takes its lane's place; the lanes
//! are answered, in one thread where no two have a line; the custodian takes its own place again,
//! with the edits that it then holds, and confirms every pass.
#![tactic(auto)]

mod gates;
mod lane;
mod phase;
mod run;
mod telling;
mod writing;

pub use gates::open_gates;
pub use run::run_lanes;
