/// How many bytes a line of a script or a session has at most, its end not counted.
pub const MOST_LINE_BYTES: usize = 4096;
