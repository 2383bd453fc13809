// The chain of a board's custodian, to which a leader's batches are applied.

ghost use Rattle.std.specs.Prelude.{◌≡◌, ◌≤◌, All, IfErr, List, OnErr, OnOk, Option, length};
ghost use Rattle.tb_board.specs.Custodians.{IsWhole};
ghost use Rattle.tb_board.specs.Holders.{release_seen};
ghost use Rattle.tb_follow.specs.Chains.{Applies};
ghost use Rattle.tb_follow.specs.declared.message.Message.{Message};
ghost use Rattle.tb_io.specs.declared.limits.TheConstants.{MOST_LINE_BYTES};
ghost use Rattle.tb_io.specs.Taken.{IsWritten};
ghost use Rattle.tb_leader.specs.ReplyLines.{at_line};
ghost use Rattle.tb_lines.specs.Moments.{IsReplied, moment};
ghost use Rattle.tb_mirror.specs.BoardChains.{chain_seen, standing};
ghost use Rattle.tb_mirror.specs.MirrorAsks.{asks_of};
ghost use Rattle.tb_mirror.specs.MirrorReplies.{IsMirrorStep};
ghost use Rattle.tb_mirror.specs.declared.asks.MirrorAsks.TheVariants as mirror_asks;
ghost use Rattle.tb_model.specs.Schemas.{shape_of};
ghost use Rattle.tb_release.specs.Batches.{batch_refusal};
ghost use Rattle.tb_release.specs.Laws.{EditFits};
ghost use Rattle.tb_release.specs.Results.{IsWhy};
ghost use Rattle.tb_release.specs.declared.limits.TheConstants.{MOST_RELEASES};
ghost use Rattle.tb_session.specs.Parties.{IsOwnerOf, seen_by};

use std::alloc::Global;
use std::sync::Wait;
use std::sync::ledger::Ledger;
use std::thread::Threads;
use tb_base::Steps;
use tb_board::{Board, Custodian, Named};
use tb_build::Open;
use tb_follow::Chain;
use tb_io::{Sink, Wrote};
use tb_release::{EditFault, Edits};
use tb_session::{Custody, Party, Setting, answer};
use tb_tables::write_number;

/// The chain of a board's custodian: what is applied to it is published on the board.
#[derive(Drop)]
pub struct BoardChain {
    pub custody: Custody,
}

// The number of a custodian's release.
fn number_of(custodian: &Custodian) -> u32
    requires { IsWhole custodian.now }
    ensures number { result ≡ length custodian.now.writer.list }
    ensures few { result ≤ MOST_RELEASES }
{
    custodian.soundness();
    custodian.number()
}

// Publishes the batch of some edits on the board.
fn publish<B: Named>(
    board: &Board<B>,
    rt: &impl Wait,
    alloc: Global,
    custodian: &mut Custodian,
    edits: &Edits,
) -> Result<(), EditFault>
    requires name { custodian.old.writer.name ≡ B.name }
    requires whole { IsWhole custodian.old }
    requires fit { All (EditFits custodian.old.writer.start.shape) edits.now }
    ensures name { custodian.new.writer.name ≡ custodian.old.writer.name }
    ensures start { custodian.new.writer.start ≡ custodian.old.writer.start }
    ensures whole { IsWhole custodian.new }
    ensures ok { OnOk result (Applies (chain_seen custodian.old.writer) edits.now
        (chain_seen custodian.new.writer)) }
    ensures err { OnErr result (custodian.new ≡ custodian.old) }
    ensures why { IfErr result
        (λ fault. IsWhy (batch_refusal (release_seen custodian.old.writer) edits.now) fault) }
{
    match board.publish(rt, alloc, custodian, edits) {
        Ok(_) => Ok(()),
        Err(fault) => Err(fault),
    }
}

impl BoardChain {
    // Writes the reply to `where`.
    pub(crate) fn answer_where<'a, B: Named, R: Threads + Wait + Sync, K: Sink>(
        &self,
        setting: &Setting<'a, B, R>,
        sink: &mut K,
    ) -> Wrote
        requires own { IsOwnerOf B.name (shape_of setting.now.setup.now.schema)
            self.now.custody.party }
        ensures written { IsWritten result (K.faults sink.old) (K.faults sink.new)
            (K.taken sink.old) (K.taken sink.new)
            (at_line (length (seen_by self.now.custody.party).list)) }
    {
        let number = self.number(setting);
        write_number(sink, b"at ", number)
    }

    // Writes the reply to a line that the custodian may ask too.
    pub(crate) fn answer_custodian<'a, B: Named, R: Threads + Wait + Sync, K: Sink, L: Ledger>(
        &mut self,
        setting: &Setting<'a, B, R>,
        line: &[u8],
        sink: &mut K,
        gate: &mut Open,
        steps: &mut Steps<L>,
    ) -> Wrote
        requires few { length line.now ≤ MOST_LINE_BYTES }
        requires own { IsOwnerOf B.name (shape_of setting.now.setup.now.schema)
            self.old.custody.party }
        requires asks { asks_of line.now ≡ mirror_asks.Custodian }
        ensures own { IsOwnerOf B.name (shape_of setting.now.setup.now.schema)
            self.new.custody.party }
        ensures same { seen_by self.new.custody.party ≡ seen_by self.old.custody.party }
        // Whatever messages wait, and whether one is open.
        ensures replied { (window : List Message) (message : Option Message)
            → IsReplied (IsMirrorStep setting.now.setup.now) line.now result
            (moment (standing self.old.custody.party window message) steps.old
            (K.taken sink.old) (K.faults sink.old))
            (moment (standing self.new.custody.party window message) steps.new
            (K.taken sink.new) (K.faults sink.new)) }
    {
        answer(
            setting.setup,
            setting.board,
            setting.rt,
            setting.alloc,
            &mut self.custody.party,
            line,
            sink,
            gate,
            steps,
        )
    }
}

impl<'a, B: Named, R: Threads + Wait + Sync> Chain<Setting<'a, B, R>> for BoardChain {
    ghost use Rattle.std.specs.Thread.{IsSync};
    ghost use Rattle.tb_mirror.specs.BoardChains.{chain_seen};
    ghost use Rattle.tb_model.specs.Schemas.{shape_of};
    ghost use Rattle.tb_session.specs.Parties.{IsOwnerOf, seen_by};

    ghost value = { λ o. chain_seen (seen_by o.custody.party) };

    ghost IsReady = { λ c o. IsSync R.row
        × IsOwnerOf B.name (shape_of c.setup.now.schema) o.custody.party };

    fn number(&self, _setting: &Setting<'a, B, R>) -> u32 {
        match &self.custody.party {
            Party::Custodian(custodian, _) => number_of(custodian),
            Party::Analyst(_) => unreachable!(),
        }
    }

    #[tactic(auto, using(crate::proofs::Applying::still_custodian))]
    fn apply(&mut self, setting: &Setting<'a, B, R>, edits: &Edits) -> Result<(), EditFault> {
        match &mut self.custody.party {
            Party::Custodian(custodian, _) => {
                publish(setting.board, setting.rt, setting.alloc, custodian, edits)
            }
            Party::Analyst(_) => unreachable!(),
        }
    }
}
