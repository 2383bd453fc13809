/// The most records that a page may have.
pub const PAGE_ROOM: usize = 1_024;
