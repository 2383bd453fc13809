ghost use Rattle.std.specs.Prelude.{◌≡◌, ◌≤◌, ◌<◌, Some, IfOk, length};
ghost use Rattle.tb_io.specs.Faults.{HasRisen};
ghost use Rattle.tb_io.specs.PiecedSource.{after_read, read_of};
ghost use Rattle.tb_io.specs.Sources.{Reads};
ghost use Rattle.tb_io.specs.declared.read.Read.TheVariants as read;

use crate::failures::is_listed;
use crate::read::Read;
use crate::source::Source;
use crate::unread::Unread;
use std::alloc::Global;
use std::marker::Model;
use tb_base::Memory;

/// A source in memory that gives at most so many bytes a read, and of which some reads fail.
#[derive(Drop)]
pub struct MemSource {
    unread: Unread,
    most: usize,
    fails: Vec<u32>,
    calls: u64,
    faults: u64,
}

impl Model for MemSource {
    ghost use Rattle.std.specs.Prelude.{◌<◌};
    ghost use Rattle.tb_io.specs.PiecedSource.{PiecedSource};

    ghost Value = { PiecedSource };

    ghost view = { λ s. record {
      left = s.unread;
      most = s.most;
      fails = s.fails.items;
      calls = s.calls;
      faults = s.faults;
    } };

    ghost invariant = { λ s. 0 < s.most };
}

impl MemSource {
    /// A source of these bytes, with at most `most` of them a read. The reads with the numbers
    /// `fails`, from 1, will fail. It takes memory for both.
    pub fn new(alloc: Global, bytes: &[u8], most: usize, fails: &[u32]) -> Result<MemSource, Memory>
        requires { 0 < most }
        ensures { IfOk result (λ source. source ≡ record {
          left = bytes.now;
          most = most;
          fails = fails.now;
          calls = 0;
          faults = 0;
        }) }
    {
        let unread = Unread::new(alloc, bytes)?;
        let fails = Vec::from_slice(alloc, fails)?;
        Ok(MemSource {
            unread,
            most,
            fails,
            calls: 0,
            faults: 0,
        })
    }

    /// The bytes left.
    pub fn left(&self) -> &[u8]
        ensures { result.now ≡ self.now.left }
    {
        self.unread.left()
    }
}

impl Source for MemSource {
    ghost faults = { λ source. source.faults };

    ghost left = { λ source. Some source.left };

    /// Fails exactly where the read is one of those that are to fail; else it gives as many bytes
    /// as are allowed, are asked for and are left.
    fn read(&mut self, buf: &mut [u8]) -> Read
        requires { 0 < length buf.old }
        ensures count { self.old.faults ≤ self.new.faults }
        ensures failed { result ≡ read.Failed → HasRisen self.old.faults self.new.faults }
        ensures reads { Reads result (Some self.old.left) (Some self.new.left) buf.new }
        ensures exact { result ≡ read_of self.old (length buf.old) }
        ensures after { self.new ≡ after_read self.old result }
    {
        self.calls = self.calls.saturating_add(1);
        if is_listed(self.fails.as_slice(), self.calls) {
            self.faults = self.faults.saturating_add(1);
            return Read::Failed;
        }
        self.unread.give(self.most, buf)
    }
}
