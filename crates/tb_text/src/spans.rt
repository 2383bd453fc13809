// Where a part of a text stands.

/// The bytes from `start` on that end before `end`.
#[derive(Clone, Copy)]
pub(crate) struct Span {
    pub(crate) start: usize,
    pub(crate) end: usize,
}
