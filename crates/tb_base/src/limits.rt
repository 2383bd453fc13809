/// The last row of the perturbation table. The rows are 0 to 750; a pvalue may be set at 1 to 750.
pub const LAST_ROW: u32 = 750;

// In an edit this bound decides nothing, since a row is at most 750 and row plus pvalue isn't
// negative; it stands for the reader.
/// The least pvalue.
pub const LEAST_PVALUE: i64 = -1000;

/// The greatest pvalue.
pub const MOST_PVALUE: i64 = 1000;

/// The greatest threshold.
pub const MOST_THRESHOLD: u32 = 1_000_000;
