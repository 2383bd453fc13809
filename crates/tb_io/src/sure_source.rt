ghost use Rattle.std.specs.Prelude.{◌≡◌, ◌≢◌, ◌<◌, Some, IfOk, length};
ghost use Rattle.tb_io.specs.Sources.{Reads};
ghost use Rattle.tb_io.specs.declared.read.Read.TheVariants as read;

use crate::read::Read;
use crate::source::Source;
use crate::unread::Unread;
use std::alloc::Global;
use std::marker::Model;
use tb_base::Memory;

/// A source in memory that never fails, and gives as many bytes as it is asked for.
#[derive(Drop)]
pub struct SureSource {
    unread: Unread,
}

impl Model for SureSource {
    ghost use Rattle.std.specs.Prelude.{ℕ, List};

    ghost Value = { List ℕ };

    ghost view = { λ s. s.unread };
}

impl SureSource {
    /// A source of these bytes. It takes memory for them.
    pub fn new(alloc: Global, bytes: &[u8]) -> Result<SureSource, Memory>
        ensures { IfOk result (λ source. source ≡ bytes.now) }
    {
        let unread = Unread::new(alloc, bytes)?;
        Ok(SureSource { unread })
    }

    /// The bytes left.
    pub fn left(&self) -> &[u8]
        ensures { result.now ≡ self.now }
    {
        self.unread.left()
    }
}

impl Source for SureSource {
    ghost faults = { λ _. 0 };

    ghost left = { λ source. Some source };

    /// Never fails.
    fn read(&mut self, buf: &mut [u8]) -> Read
        requires { 0 < length buf.old }
        ensures sure { result ≢ read.Failed }
        ensures reads { Reads result (Some self.old) (Some self.new) buf.new }
    {
        let asked = buf.len();
        self.unread.give(asked, buf)
    }
}
