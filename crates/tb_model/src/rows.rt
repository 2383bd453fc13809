/// The first of the rows that serve all counts above the last row.
pub const LARGE_ROWS_BEGIN: u32 = 501;

/// How many rows serve all counts above the last row.
pub const LARGE_ROWS: u32 = 250;
