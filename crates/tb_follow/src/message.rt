use tb_release::{EditFaultKind, Edits};

/// A leader's batch on its way to a follower: the edits that lead to the release of this number.
#[derive(Drop)]
pub struct Message {
    pub number: u32,
    pub edits: Edits,
}

/// What became of a message that was delivered. The release rose to a number; or the message is
/// kept, or old, or too far ahead, at a release of this number; or its edits are refused as
/// `tb_release::next` refuses them; or the call was out of memory.
#[derive(Clone, Copy, Debug, PartialEq, Eq)]
pub enum Delivered {
    Applied(u32),
    Kept(u32),
    Old(u32),
    Far(u32),
    Refused { edit: u32, kind: EditFaultKind },
    Memory,
}
