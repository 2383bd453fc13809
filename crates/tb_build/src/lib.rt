//! The cube of a release, counted from its records, which are lent once, past a gate (`build`).
//!
//! The gate is reached once, before the first record is lent; a test's may wait there, since no
//! lock is held. Where the memory for a cube is refused there is none. Of parts and threads the
//! contract of `build` tells nothing: that of `build_in_parts` says that they make no difference.
//!
//! Begin at `building.rt`, `build`: from `FEWEST_TO_CUT` records on, where there are at least
//! `RECORDS_A_CELL` of them a cell in each part, they are cut into as many parts as there are
//! processors (`cutting.rt`), and the parts' cubes are merged. Parts go by places and not by pieces
//! (`between from to (records_in lent)`), so one function, `cube_between`, makes a part's cube and
//! the whole one.
#![tactic(auto)]

mod building;
mod cutting;
mod gate;
mod walking;

pub use building::build;
pub use cutting::{MOST_PARTS, build_in_parts};
pub use gate::{Gate, Open};
