//! Cubes: the cells of all lists of categories of some variables, of the records that were put in
//! (`Cube`), by column, one by one or by another cube's cells, and weren't taken out again.
//!
//! A cube knows no release, rules or key range. It is dense, or packed (the cells that aren't
//! empty, each with its place): one value with a field for the form (`dense`). Calls that change
//! cells want a dense one; what may be either is told by `unpacked`. Only `zero`, `copy`, `pack`
//! and `narrow` take memory; without it the cube stays. The program uses no `add_all` and no
//! `merge_at`.
//!
//! Begin at `cube.rt`. Calls are said twice: what becomes of any cells, and, as `held`, which
//! records a cube holds that held some. `apply` asks that the cell counts a record, `held` that it
//! is this one.
#![tactic(auto)]

mod axes;
mod columns;
mod cube;
mod merging;
mod narrowing;
mod packing;
mod putting;
mod tallying;

pub use cube::{Cube, narrow};
pub use packing::KeptCell;
