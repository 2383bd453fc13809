// What calls of the outside return.

ghost use Rattle.std.specs.Prelude.{◌≡◌, ◌≤◌, IsOk};
ghost use Rattle.tb_io.specs.Faults.{HasRisen};
ghost use Rattle.tb_io.specs.declared.answers.Wrote.TheVariants as wrote;

use std::io;

/// How a write ended. `All` says that the whole piece was taken, `Failed` that the write failed and
/// took a first part of it, which may be empty or all of it.
#[derive(Clone, Copy, Debug, PartialEq, Eq)]
pub enum Wrote {
    All,
    Failed,
}

/// How a write to the system ended. An error counts one fault more, up to the count's last value.
pub fn count_fault(outcome: io::Result<()>, faults: &mut u64) -> Wrote
    ensures count { faults.old ≤ faults.new }
    ensures failed { result ≡ wrote.Failed → HasRisen faults.old faults.new }
    ensures all { IsOk outcome → (result ≡ wrote.All) × (faults.new ≡ faults.old) }
{
    match outcome {
        Ok(()) => Wrote::All,
        Err(_) => {
            *faults = faults.saturating_add(1);
            Wrote::Failed
        }
    }
}

/// How the reading of a file ended. `Bytes` has all that it holds, `TooLong` says that it holds
/// more bytes than the caller allows, `Failed` is a fault of the outside, and `Memory` says that
/// the call was out of memory for the bytes.
#[derive(Debug, Drop)]
pub enum FileRead {
    Bytes(Vec<u8>),
    TooLong,
    Failed,
    Memory,
}

/// How the binding of a listener to a port ended. `Failed` is a fault of the outside.
#[derive(Clone, Copy, Debug, PartialEq, Eq)]
pub enum Bound {
    Ready,
    Failed,
}

/// How an accept ended. `Session` has the reading and the writing end of the next session, `End`
/// says that none is to come, and `Failed` is a fault of the outside.
#[derive(Drop)]
pub enum Accepted<R, W> {
    Session(R, W),
    End,
    Failed,
}
