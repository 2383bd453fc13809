use std::sync::Arc;
use tb_release::{Batches, Release};

/// Release 0 and the whole chain of one turn.
#[derive(Drop)]
pub struct Chain {
    pub base: Arc<Release>,
    pub batches: Batches,
}
