// How a batch is published: first all memory is taken, and then one turn adopts it.
//
// In the turn the custodian's pass catches up, and the writer confirms it, so that the desk's chain
// is known to be the writer's; the desk adopts; the writer appends and gives a draft; the keeper
// adopts that; the pass catches up. Only the desk's step can be refused, and then nothing has
// changed.

ghost use Rattle.std.specs.Prelude.{◌≡◌, ◌<◌, All, IfOk, IfErr, OnOk, OnErr, length};
ghost use Rattle.tb_front.specs.declared.front.TheConstants.{LONGEST_CHAIN};
ghost use Rattle.tb_release.specs.Batches.{CanFollow, Follows, batch_refusal};
ghost use Rattle.tb_release.specs.Laws.{EditFits};
ghost use Rattle.tb_release.specs.Results.{ChangeFits, IsWhy};
ghost use Rattle.tb_board.specs.Custodians.{after_publication, next_publication, CanPublish};
ghost use Rattle.tb_board.specs.Custodians.{IsWhole};
ghost use Rattle.tb_board.specs.Holders.{release_seen, with_batch};

use crate::custodian::Custodian;
use crate::locked::Locked;
use crate::named::Named;
use crate::step::Step;
use std::alloc::Global;
use std::marker::Model;
use std::sync::Arc;
use tb_base::Memory;
use tb_front::{Front, Keeper};
use tb_release::{Batch, EditFault, Edits, Release, next};

/// What a publication adds: the next release, for the desk and for the custodian, and the batch
/// that leads to it, for the desk and as the chain's entry.
#[derive(Drop)]
pub struct Publication {
    release: Arc<Release>,
    kept: Arc<Release>,
    batch: Arc<Batch>,
    step: Step,
}

impl Model for Publication {
    ghost use Rattle.std.specs.Prelude.{◌≡◌};
    ghost use Rattle.std.specs.Arc.{arc_value};
    ghost use Rattle.tb_board.specs.Custodians.{PublicationValue, publication_code};

    ghost Value = { PublicationValue };

    ghost coded = { publication_code };

    ghost view = { λ p. record { release = arc_value p.release; batch = arc_value p.batch } };

    ghost invariant = { λ p. (arc_value p.kept ≡ arc_value p.release)
        × (p.step ≡ arc_value p.batch) };
}

impl Custodian {
    /// What the publication of some edits adds. The refusals are those of `tb_release::next` on the
    /// custodian's release. It takes all memory of a publication but the desk's room for one batch
    /// more, and changes nothing.
    pub fn prepare(&self, alloc: Global, edits: &Edits) -> Result<Publication, EditFault>
        requires { All (EditFits self.now.writer.start.shape) edits.now }
        ensures next { IfOk result (λ made. made ≡ next_publication self.now.release edits.now) }
        ensures publication { IfOk result
            (CanPublish self.now.writer.start.shape self.now.release) }
        ensures can { OnOk result (CanFollow self.now.release edits.now) }
        ensures why { IfErr result
            (λ fault. IsWhy (batch_refusal self.now.release edits.now) fault) }
    {
        let (release, batch) = next(alloc, &self.shape, &self.release, edits)?;
        let release = Arc::new(alloc, release)?;
        let batch = Arc::new(alloc, batch)?;
        let kept = Arc::try_clone(&release)?;
        let step = Step::of(Arc::try_clone(&batch)?);
        Ok(Publication {
            release,
            kept,
            batch,
            step,
        })
    }
}

// The writer adds a batch, and tells the keeper of it, and the keeper the custodian's pass.
fn hand_on(front: &Front<Step>, keeper: &mut Keeper<Step>, custodian: &mut Custodian, step: &Step)
    requires front { keeper.old.name ≡ front.now }
    requires met { custodian.old.writer ≡ keeper.old }
    requires whole { custodian.old.pass ≡ keeper.old }
    requires room { length keeper.old.list < LONGEST_CHAIN }
    requires follows { Follows (release_seen keeper.old) step.now }
    requires fit { All (ChangeFits keeper.old.start.shape) step.now.changes }
    ensures keeper { keeper.new ≡ with_batch keeper.old step.now }
    ensures writer { custodian.new.writer ≡ with_batch keeper.old step.now }
    ensures pass { custodian.new.pass ≡ with_batch keeper.old step.now }
    ensures release { custodian.new.release ≡ custodian.old.release }
{
    custodian.writer.append(front, step);
    keeper.adopt(front, custodian.writer.draft(front));
    custodian.pass.catch_up(front, keeper);
}

impl<B: Named> Locked<B> {
    // The turn of a publication: the custodian's pass catches up and is confirmed, the desk adopts
    // the release and its batch, the writer adds the batch and gives a draft, the keeper adopts the
    // draft, and the pass catches up again. Only the desk's room for the batch can be refused; then
    // all is as before. It returns how many batches there are.
    pub(crate) fn publish(
        &mut self,
        front: &Front<Step>,
        custodian: &mut Custodian,
        publication: Publication,
    ) -> Result<u32, Memory>
        requires front { front.now ≡ B.name }
        requires custodian { custodian.old.writer.name ≡ B.name }
        requires whole { IsWhole custodian.old }
        requires publication { CanPublish custodian.old.writer.start.shape
            custodian.old.release publication }
        ensures ok { OnOk result (custodian.new ≡ after_publication publication custodian.old) }
        ensures number { IfOk result (λ n. n ≡ length custodian.new.pass.list) }
        ensures release { IfOk result (λ n. n ≡ custodian.new.release.number) }
        ensures whole { IsWhole custodian.new }
        ensures err { OnErr result (custodian.new ≡ custodian.old) }
        ensures same { OnErr result (self.new ≡ self.old) }
    {
        self.meet(front, custodian);
        let Publication {
            release,
            kept,
            batch,
            step,
        } = publication;
        self.desk.adopt(release, batch)?;
        hand_on(front, &mut self.keeper, custodian, &step);
        custodian.release = kept;
        Ok(custodian.number())
    }
}
