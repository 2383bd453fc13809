// Why an accept failed.

use std::io;
use std::io::ErrorKind;

// The system's numbers of the errors of which it has no memory or no more files to give: this
// process, or the whole machine.
const ENOMEM: i32 = 12;

const ENFILE: i32 = 23;

const EMFILE: i32 = 24;

const ENOBUFS: i32 = 105;

/// Why an accept failed: its client had gone; files or memory are wanting, which may pass; or
/// something that doesn't pass.
#[derive(Clone, Copy, Debug, PartialEq, Eq)]
pub(crate) enum Trouble {
    Gone,
    Want,
    Lasting,
}

/// Why an accept failed that gave this error.
pub(crate) fn trouble_of(e: &io::Error) -> Trouble {
    if e.kind() == ErrorKind::ConnectionAborted {
        return Trouble::Gone;
    }
    match e.raw_os_error() {
        Some(ENOMEM | ENFILE | EMFILE | ENOBUFS) => Trouble::Want,
        _ => Trouble::Lasting,
    }
}
