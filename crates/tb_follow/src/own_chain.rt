// A chain of a follower's own.

ghost use Rattle.std.specs.Prelude.{◌≡◌, All, IfOk};
ghost use Rattle.std.specs.Option.{unwrap_or};
ghost use Rattle.tb_base.specs.Records.{AllFit};
ghost use Rattle.tb_follow.specs.Chains.{first_chain, release_at};

use crate::batch_list::BatchList;
use crate::chain::Chain;
use std::alloc::Global;
use std::marker::Model;
use tb_base::{Memory, Shape};
use tb_release::{EditFault, Edits, Release, next};

/// A chain of which release 0 is kept, and the release to which it leads.
#[derive(Drop)]
pub(crate) struct OwnChain {
    alloc: Global,
    shape: Shape,
    base: Release,
    ahead: Option<Release>,
    list: BatchList,
}

impl Model for OwnChain {
    ghost use Rattle.tb_follow.specs.Chains.{ChainValue, chain_code};
    ghost use Rattle.tb_follow.specs.OwnChains.{IsKept};

    ghost Value = { ChainValue };

    ghost coded = { chain_code };

    ghost view = { λ c. record { shape = c.shape; base = c.base; batches = c.list.batches } };

    ghost invariant = { λ c.
        IsKept (record { shape = c.shape; base = c.base; batches = c.list.batches }) c.ahead };
}

// The release to which a chain leads: release 0, where there is no other.
fn last_of<'a>(base: &'a Release, ahead: &'a Option<Release>) -> &'a Release
    ensures { result.now ≡ unwrap_or ahead.now base.now }
{
    match ahead {
        Some(release) => release,
        None => base,
    }
}

impl OwnChain {
    /// A chain at release 0. It takes a little memory.
    pub(crate) fn new(alloc: Global, shape: &Shape, base: Release) -> Result<OwnChain, Memory>
        requires first { base.number ≡ 0 }
        requires fit { AllFit shape.now base.records }
        ensures { IfOk result (λ chain. chain ≡ first_chain shape.now base) }
    {
        let shape = shape.copy()?;
        Ok(OwnChain {
            alloc,
            shape,
            base,
            ahead: None,
            list: BatchList::empty(),
        })
    }

    /// The release to which it leads.
    pub(crate) fn release(&self) -> &Release
        ensures release { result.now ≡ release_at self.now }
        ensures fit { AllFit self.now.shape result.now.records }
    {
        last_of(&self.base, &self.ahead)
    }

    /// Goes back to release 0. It takes no memory.
    pub(crate) fn restart(&mut self)
        ensures { self.new ≡ first_chain self.old.shape self.old.base }
    {
        self.ahead = None;
        self.list = BatchList::empty();
    }
}

impl Chain<()> for OwnChain {
    ghost use Rattle.tb_follow.specs.Chains.{ChainValue};

    ghost value = { λ chain. chain };

    ghost IsReady = { λ c chain. Unit {0} };

    fn number(&self, _setting: &()) -> u32 {
        last_of(&self.base, &self.ahead).number()
    }

    fn apply(&mut self, _setting: &(), edits: &Edits) -> Result<(), EditFault> {
        let release = last_of(&self.base, &self.ahead);
        let (release, batch) = next(self.alloc, &self.shape, release, edits)?;
        self.list = self.list.and(&batch);
        self.ahead = Some(release);
        Ok(())
    }
}
