use tb_session::Role;

/// Who asks a line of a script: the lane of a number, from 0 in the order of first appearance,
/// which is an analyst's or the custodian's.
#[derive(Clone, Copy, Debug, PartialEq, Eq)]
pub struct Asker {
    pub lane: usize,
    pub role: Role,
}
