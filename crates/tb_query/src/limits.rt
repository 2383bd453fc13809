// How much a query may ask for.

/// How many dimensions a table has at most.
pub const MOST_DIMENSIONS: usize = 8;

/// How many filters a query has at most.
pub const MOST_FILTERS: usize = 16;

/// How many places a table has at most.
pub const MOST_PLACES: usize = 1_000_000;

/// How many bytes a query line has at most.
pub const MOST_QUERY_BYTES: usize = 65_536;
