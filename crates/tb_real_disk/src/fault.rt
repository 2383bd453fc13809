// Why a file can't be attached.

use std::io;
use thiserror::Error;

/// Why a file can't be attached: another process has it, it is a folder, a pipe or a device, or an
/// error of the system.
#[derive(Debug, Drop, Error)]
pub(crate) enum AttachFault {
    #[error("another process has it")]
    Taken,
    #[error("it is no file")]
    NoFile,
    #[error("{0}")]
    System(io::Error),
}

impl From<io::Error> for AttachFault {
    ghost use Rattle.std.specs.Prelude.{◌≡◌};
    ghost use Rattle.tb_real_disk.specs.declared.fault.AttachFault.TheVariants as fault;

    ghost from_gives = { λ error e. e ≡ fault.System error };

    fn from(error: io::Error) -> AttachFault {
        AttachFault::System(error)
    }
}
