/// The most edits that a batch may have.
pub const MOST_EDITS: usize = 10_000;

/// The most releases that may come after release 0.
pub const MOST_RELEASES: u32 = 10_000;

/// The most edits that may lead to a release, of records and of the rules.
pub const MOST_CHANGES: u32 = 1_000_000;
