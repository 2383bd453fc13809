//! Dwellings beside the persons of the microdata, and who lives in them: read from two files, or
//! the first fault of the first file that has one (`Units::read`).
//!
//! No person need be in the microdata, and no release changes a link. A refused file leaves
//! nothing.
//!
//! Begin at `units.rt`, then `formats.rt` (one `FileFormat` a file). Beside the lists, in the order
//! of their files, it keeps the links of each dwelling as a chain, along which a count goes from
//! person to person (`chains.rt`), and for persons whose numbers aren't too large an array in which
//! a link is one access (`slots.rt`), else a look-up by hash (`pairs.rt`).
#![tactic(auto)]

mod chains;
mod fault;
mod formats;
pub mod laws;
mod links;
mod pairs;
mod read;
mod slots;
mod units;

pub use fault::{UnitsFault, UnitsFile, UnitsKind};
pub use units::Units;
