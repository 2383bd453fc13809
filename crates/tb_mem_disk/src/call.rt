/// A call of a disk, by what it does.
#[derive(Clone, Copy, Debug, PartialEq, Eq)]
pub enum Call {
    Attach,
    Size,
    Read,
    Write,
    Sync,
}
