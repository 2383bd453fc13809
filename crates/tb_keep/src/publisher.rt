// The custodian's party, whose batches are written ahead.
//
// What the trial makes for the next line stands in an `Option`, so that the next release is made
// once. That it is of what the party is stands in `IsReady`, so the trait and its callers know
// nothing of it; the next line takes it out first. Who has to empty that place sets the field:
// after a method the party's value would be another, equal by a clause alone.

ghost use Rattle.std.specs.Prelude.{◌≡◌, ◌≤◌, All, IfSome, None, length};
ghost use Rattle.tb_ahead.specs.Trials.{IsTried};
ghost use Rattle.tb_keep.specs.Publishers.{asks_to_publish as is_to_publish};
ghost use Rattle.tb_release.specs.Laws.{EditFits};
ghost use Rattle.tb_session.specs.Prepared.{IsPreparedOf};
ghost use Rattle.tb_spelling.specs.declared.limits.TheConstants.{MOST_PARTS};

use std::alloc::Global;
use std::sync::Wait;
use std::sync::ledger::Ledger;
use std::thread::Threads;
use tb_ahead::{Publisher, Trial};
use tb_base::Steps;
use tb_board::{Custodian, Named, Publication};
use tb_build::Gate;
use tb_io::{Sink, Wrote};
use tb_release::{EditFault, Edits};
use tb_session::{Asks, Custody, Party, Role, Setting, answer, answer_prepared, asks_of};
use tb_text::Setup;

/// The custodian of a board, with edits that can be written ahead; and what the publication of the
/// held edits adds, where that was tried just now. The next line takes it, whatever it asks for.
#[derive(Drop)]
pub struct BoardPublisher {
    pub custody: Custody,
    pub(crate) prepared: Option<Publication>,
}

impl BoardPublisher {
    /// This custodian, with nothing prepared.
    pub fn new(custody: Custody) -> BoardPublisher
        ensures custody { result.custody ≡ custody }
        ensures none { result.prepared ≡ None }
    {
        BoardPublisher {
            custody,
            prepared: None,
        }
    }
}

// Whether some edits can follow a custodian's release, and if so what their publication adds.
fn try_on(alloc: Global, custodian: &Custodian, held: &Edits) -> (Trial, Option<Publication>)
    requires { All (EditFits custodian.now.writer.start.shape) held.now }
    ensures tried { IsTried custodian.now.release held.now result.0 }
    ensures prepared { IfSome result.1 (IsPreparedOf custodian.now held.now) }
{
    match custodian.prepare(alloc, held) {
        Ok(publication) => (Trial::Follows, Some(publication)),
        Err(EditFault::Refused { .. }) => (Trial::Refused, None),
        Err(EditFault::Memory) => (Trial::Memory, None),
    }
}

// Whether a line of the custodian asks to publish.
fn is_to_publish(line: &[u8]) -> bool
    ensures { result ≡ is_to_publish line.now }
{
    match asks_of(Role::Custodian, line) {
        Asks::Publish => true,
        Asks::Nothing
        | Asks::Description
        | Asks::Table
        | Asks::At(_)
        | Asks::Edit
        | Asks::Stats
        | Asks::Clear
        | Asks::Cache(_) => false,
    }
}

// What is true of every setup: an add of it can be written. It does nothing.
fn has_few_variables(setup: &Setup)
    ensures { length setup.now.schema.variables ≤ MOST_PARTS }
{
    let _ = setup.schema.variables();
}

impl<'a, B: Named, R: Threads + Wait + Sync, G: Gate> Publisher<Setting<'a, B, R>, G>
    for BoardPublisher {
    ghost use Rattle.std.specs.Prelude.{IfSome};
    ghost use Rattle.std.specs.Thread.{IsSync};
    ghost use Rattle.tb_model.specs.Schemas.{shape_of};
    ghost use Rattle.tb_session.specs.Parties.{seen_by, state_of};
    ghost use Rattle.tb_session.specs.Prepared.{IsPreparedBy};
    ghost use Rattle.tb_keep.specs.PublisherLaws.{own_publishing};
    ghost use Rattle.tb_keep.specs.Publishers.{CanWriteAhead, IsOwnStep, asks_to_publish};

    ghost base = { λ o. (seen_by o.custody.party).start.base };

    ghost state = { λ o. state_of o.custody.party };

    ghost publishes = { asks_to_publish };

    ghost IsReady = { λ c o. IsSync R.row
        × CanWriteAhead B.name (shape_of c.setup.now.schema) o.custody.party
        × IfSome o.prepared (IsPreparedBy o.custody.party) };

    ghost Step = { λ c base. IsOwnStep c.setup.now base };

    ghost publishing = { λ c base. own_publishing c.setup.now base };

    fn begin(&mut self, _setting: &Setting<'a, B, R>) {
        self.custody.party.drop_held();
        self.prepared = None;
    }

    fn asks_to_publish(&self, line: &[u8]) -> bool {
        is_to_publish(line)
    }

    fn try_next(&mut self, setting: &Setting<'a, B, R>) -> Trial {
        match &self.custody.party {
            Party::Analyst(_) => unreachable!(),
            Party::Custodian(custodian, held) => {
                let (trial, prepared) = try_on(setting.alloc, custodian, held);
                self.prepared = prepared;
                trial
            }
        }
    }

    fn held(&self, _setting: &Setting<'a, B, R>) -> &Edits {
        match &self.custody.party {
            Party::Analyst(_) => unreachable!(),
            Party::Custodian(_, held) => held,
        }
    }

    fn answer_line<K: Sink, L: Ledger>(
        &mut self,
        setting: &Setting<'a, B, R>,
        line: &[u8],
        sink: &mut K,
        gate: &mut G,
        steps: &mut Steps<L>,
    ) -> Wrote {
        has_few_variables(setting.setup);
        if let Some(publication) = self.prepared.take() {
            if is_to_publish(line) {
                return answer_prepared(
                    setting.board,
                    setting.rt,
                    &mut self.custody.party,
                    publication,
                    sink,
                );
            }
        }
        answer(
            setting.setup,
            setting.board,
            setting.rt,
            setting.alloc,
            &mut self.custody.party,
            line,
            sink,
            gate,
            steps,
        )
    }
}
