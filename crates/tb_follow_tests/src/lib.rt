//! Tests of a follower and of a script that is led: messages by their numbers, in every order of
//! five, lost and repeated, and scripts by their replies. Each call has ample memory. They call
//! public functions alone.
//!
//! Begin at `scripts.rt`, or at `orders.rt` for messages; `making.rt` has what they share.
#![tactic(auto)]

#[cfg(test)]
mod making;
#[cfg(test)]
mod numbers;
#[cfg(test)]
mod orders;
#[cfg(test)]
mod scripts;
