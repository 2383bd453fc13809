//! The method's definitions: what a table is, counted from scratch. An auditor begins here.
//!
//! There is no code but the types that definitions and code share, and laws (`laws`). No definition
//! knows of cubes that are kept, of threads or of memory.
//!
//! Begin at `specs/Places` (`cells_of`: which records a cell counts), `Perturbations` and `Rules`
//! (what is shown of it) and `Texts` (the table's text); `Schemas`, `Setups` and `Releases` say
//! what a table is made from, `Queries` what is asked, `Cubes` how a table comes from a finer one,
//! `Units` what a table of dwellings counts, and `Worlds` when two cells show the same.
//! `proofs/Vectors` and `OnLiterals` compute the worked tables: `refl` under
//! `unfolding tables_on_literals`.
#![tactic(auto)]

pub mod laws;
mod names;
mod rooms;
mod rows;

pub use names::{Entry, Filter, NameOf, PerturbationLine, Shown};
pub use rooms::PAGE_ROOM;
pub use rows::{LARGE_ROWS, LARGE_ROWS_BEGIN};
