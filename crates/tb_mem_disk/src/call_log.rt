// The calls of a disk, and which of them fail.

ghost use Rattle.std.specs.Prelude.{◌≡◌, ◌≤◌, ◌<◌, ◌-◌, [], IfOk, length, take, get_or};
ghost use Rattle.tb_io.specs.Faults.{HasRisen, one_more};
ghost use Rattle.tb_mem_disk.specs.Calls.{CallLog, IsCalled, is_sync};
ghost use Rattle.tb_mem_disk.specs.declared.call.Call.TheVariants as kind;
ghost use Rattle.tb_disk.specs.declared.disk.Done.TheVariants as done;

use crate::call::Call;
use std::alloc::Global;
use std::marker::Model;
use tb_base::Memory;
use tb_disk::Done;
use tb_io::is_listed;

/// The record of a disk's calls, and the numbers of those that are to fail.
#[derive(Drop)]
pub(crate) struct Calls {
    record: Vec<Call>,
    fails: Vec<u32>,
    made: u64,
    faults: u64,
}

impl Model for Calls {
    ghost use Rattle.tb_mem_disk.specs.Calls.{CallLog};

    ghost Value = { CallLog };

    ghost view = { λ c. record {
      calls = c.record.items;
      fails = c.fails.items;
      made = c.made;
      faults = c.faults;
    } };
}

impl Calls {
    /// No calls, of which those with these numbers, from 1, will fail.
    pub(crate) fn new(alloc: Global, fails: &[u32]) -> Result<Calls, Memory>
        ensures { IfOk result (λ log.
            log ≡ record { calls = []; fails = fails.now; made = 0; faults = 0 }) }
    {
        Ok(Calls {
            record: Vec::new(alloc),
            fails: Vec::from_slice(alloc, fails)?,
            made: 0,
            faults: 0,
        })
    }

    /// Makes a call: whether it is to go on, or fails. It takes memory for the record.
    pub(crate) fn make(&mut self, call: Call) -> Done
        ensures called { IsCalled call result self.old self.new }
        ensures count { self.old.faults ≤ self.new.faults }
        ensures failed { result ≡ done.Failed → HasRisen self.old.faults self.new.faults }
    {
        self.made = self.made.saturating_add(1);
        if self.record.push(call).is_ok() && !is_listed(self.fails.as_slice(), self.made) {
            return Done::All;
        }
        self.faults = self.faults.saturating_add(1);
        Done::Failed
    }

    /// The last call was out of memory: it fails, and isn't recorded.
    pub(crate) fn refuse(&mut self) -> Done
        ensures failed { result ≡ done.Failed }
        ensures left { self.new ≡ record self.old {
          calls = take (length self.old.calls - 1) self.old.calls;
          faults = one_more self.old.faults;
        } }
        ensures count { self.old.faults ≤ self.new.faults }
        ensures risen { HasRisen self.old.faults self.new.faults }
    {
        self.record.pop();
        self.faults = self.faults.saturating_add(1);
        Done::Failed
    }

    /// How many calls were recorded.
    pub(crate) fn len(&self) -> usize
        ensures { result ≡ length self.now.calls }
    {
        self.record.len()
    }

    /// Whether that call was a sync.
    pub(crate) fn is_sync(&self, i: usize) -> bool
        requires { i < length self.now.calls }
        ensures { result ≡ is_sync (get_or self.now.calls i kind.Attach) }
    {
        matches!(self.record[i], Call::Sync)
    }
}
