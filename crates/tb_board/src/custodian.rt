ghost use Rattle.std.specs.Prelude.{◌≡◌};
ghost use Rattle.std.specs.Borrow.{sem};
ghost use Rattle.tb_base.specs.Records.{AllFit};
ghost use Rattle.tb_board.specs.Holders.{IsChainSeen};
ghost use Rattle.tb_board.specs.Lends.{LendsPass};

use crate::step::Step;
use std::marker::Model;
use std::sync::Arc;
use tb_base::Shape;
use tb_front::{Pass, Writer};
use tb_release::Release;

/// Who publishes on a board, of which there is one: the writer of its front, the current release,
/// and a pass for its own turns. What its writer wrote is a chain on a release 0, whose records fit
/// the shape. It is whole where its pass has seen what its writer wrote, and its release is where
/// that leads.
#[derive(Drop)]
pub struct Custodian {
    pub(crate) writer: Writer<Step>,
    pub(crate) pass: Pass<Step>,
    pub(crate) shape: Shape,
    pub(crate) release: Arc<Release>,
}

impl Model for Custodian {
    ghost use Rattle.std.specs.Prelude.{◌≡◌};
    ghost use Rattle.std.specs.Arc.{arc_value};
    ghost use Rattle.tb_base.specs.Records.{AllFit};
    ghost use Rattle.tb_board.specs.Custodians.{CustodianValue, custodian_code};
    ghost use Rattle.tb_board.specs.Holders.{IsChainSeen};

    ghost Value = { CustodianValue };

    ghost coded = { custodian_code };

    ghost view = { λ c.
        record { writer = c.writer; pass = c.pass; release = arc_value c.release } };

    ghost invariant = { λ c. (c.shape ≡ c.writer.start.shape)
        × AllFit c.shape (arc_value c.release).records × IsChainSeen c.writer };
}

impl Custodian {
    /// What is true of every custodian: its writer wrote a chain of batches, each of which follows
    /// the release before it, on a sound release of number 0, and all records fit the shape. It
    /// does nothing, and lets a caller's proof know this.
    pub fn soundness(&self)
        ensures { IsChainSeen self.now.writer }
    {
        let _ = &self.writer;
    }

    /// The number of its release.
    pub fn number(&self) -> u32
        ensures { result ≡ self.now.release.number }
    {
        self.release.number()
    }

    /// Its current release, whose records fit its shape.
    pub fn release(&self) -> &Release
        ensures release { result.now ≡ self.now.release }
        ensures fit { AllFit self.now.writer.start.shape result.now.records }
    {
        &self.release
    }

    /// Its pass, for turns of the board. Whoever lends it to one calls `Board::settle` afterwards.
    pub fn pass(&mut self) -> &mut Pass<Step>
        ensures* writes_back { sem 𝓛 (LendsPass self.entry result) }
        ensures pass { result.now ≡ self.old.pass }
    {
        &mut self.pass
    }
}
