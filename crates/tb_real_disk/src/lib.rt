//! A file of the system as a disk, into which a journal is written (`RealDisk`), under a lock: one
//! process at a time has it. A folder, a pipe or a device is refused.
//!
//! It tells nothing of its bytes and of what a stop may leave: all that is proved of it is that its
//! count of faults rises where a call fails. That the system's file is a disk, as `tb_disk` says
//! what one is, isn't proved. Each fault is told in a line on the standard error.
//!
//! Begin at `real_disk.rt`, and `opening.rt` for how a file is attached. Where the file is empty
//! its folder is synced, which is that of the name as it was given (`folder_of`): behind a link
//! that leads nowhere that is another folder than the new file's.
#![tactic(auto)]

mod fault;
mod opening;
mod real_disk;
#[cfg(test)]
mod tests;

pub use real_disk::RealDisk;
