//! A query over a schema, worked out once for each category (`Plan`): for each variable that is
//! used, a table from its category to a step. The steps of a record's categories add up to the
//! number of its place, or to one past all places where it fails a filter. So recodes, filters and
//! several dimensions over one variable cost nothing more for each record.
//!
//! A plan holds no schema and no release, so its users' clauses are over any schema and query of
//! which this is the plan (`plan ≡ plan_of schema query`). Only `Plan::of` takes memory or is
//! refused.
//!
//! Begin at `plan.rt` and `specs/Steps`. What is true of each variable that a plan uses is one
//! induction over dimensions, filters and names (`proofs/Under`).
#![tactic(auto)]

mod axes;
mod condition;
mod dimension;
mod plan;
mod steps;

pub use plan::Plan;
