// How many cubes are kept.

/// How many cubes a board keeps at the start, before a custodian's `cache K`.
pub const FIRST_CAPACITY: u32 = 64;
