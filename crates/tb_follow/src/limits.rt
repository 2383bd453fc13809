/// How far the number of a message may lie above that of the release, at most.
pub const MOST_AHEAD: u32 = 64;
