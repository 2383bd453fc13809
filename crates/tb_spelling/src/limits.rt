/// The most bytes that a payload may have.
pub const MOST_PAYLOAD_BYTES: u32 = 4_000_000;

/// The most codes, or settings, of an edit that is spelled: as many as a schema may have variables.
pub const MOST_PARTS: usize = 64;

/// The most bytes of an edit that is spelled: of an amend with `MOST_PARTS` settings.
pub(crate) const MOST_EDIT_BYTES: usize = 7 + 4 * MOST_PARTS;
