//! Tests of whoever answers lines over a board: scripts, sessions, and lanes at the same time, over
//! the four persons of the small setup.
//!
//! They call public functions alone, with ample memory. A script that is led stands in
//! `tb_follow_tests`, whole runs in `tb_top_tests`. Begin at `answers/scripts`: a script, and the
//! replies that were worked by hand.
#![tactic(auto)]

#[cfg(test)]
mod answers;
#[cfg(test)]
mod lanes;
#[cfg(test)]
mod sessions;
