// What a board is opened over.

use std::alloc::Global;
use std::sync::Wait;
use std::thread::Threads;
use tb_text::Setup;

/// A setup, and the threads and the memory that are had over it: a setting before there is a board.
#[derive(Drop)]
pub(crate) struct Over<'a, R: Threads + Wait + Sync> {
    pub(crate) setup: &'a Setup,
    pub(crate) rt: &'a R,
    pub(crate) alloc: Global,
}
