use tb_release::Edits;

/// What comes next of a journal: a batch, or that the journal ends there. `BadRecord` has the
/// number, from 1, of a record that is none; `DiskFault` says that the disk failed; and after
/// `Memory` nothing was taken.
#[derive(Drop)]
pub enum Recovered {
    Batch(Edits),
    End,
    BadRecord(u32),
    DiskFault,
    Memory,
}
