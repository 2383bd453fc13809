// The replies to the lines of a script whose custodian writes its batches ahead.

ghost use Rattle.std.specs.Prelude.{◌≡◌, ◌≤◌, []};
ghost use Rattle.tb_io.specs.Faults.{HasRisen};
ghost use Rattle.tb_keep.specs.JournalOwners.{keeper_of};
ghost use Rattle.tb_keep.specs.KeptRuns.{RunsFrom};
ghost use Rattle.tb_keep.specs.Publishers.{CanWriteAhead};
ghost use Rattle.tb_lines.specs.Outputs.{charged};
ghost use Rattle.tb_model.specs.Schemas.{shape_of};
ghost use Rattle.tb_script.specs.declared.run.RunEnd.TheVariants as run_end;
ghost use Rattle.tb_session.specs.Parties.{held_by};

use crate::journal_owner::JournalOwner;
use std::sync::Wait;
use std::sync::ledger::Ledger;
use std::thread::Threads;
use tb_ahead::WriteAhead;
use tb_base::Steps;
use tb_board::Named;
use tb_io::Sink;
use tb_script::{RunEnd, Script, run_owned};
use tb_session::Setting;

/// Writes the reply to each line of a script, one after another, as `run_script` does, but that
/// each batch is written ahead of its publication. The custodian holds no edits at first, and comes
/// back. It is out of memory only before the first line.
pub fn run_kept<B: Named, W: WriteAhead, R: Threads + Wait + Sync, K: Sink, L: Ledger>(
    setting: &Setting<'_, B, R>,
    script: &Script,
    mut owner: JournalOwner<W>,
    sink: &mut K,
    steps: &mut Steps<L>,
) -> (RunEnd, JournalOwner<W>)
    requires own { CanWriteAhead B.name (shape_of setting.now.setup.now.schema)
        owner.keeper.party.custody.party }
    requires none { held_by owner.keeper.party.custody.party ≡ [] }
    requires puts { W.IsReady owner.keeper.ahead }
    ensures own { CanWriteAhead B.name (shape_of setting.now.setup.now.schema)
        result.1.keeper.party.custody.party }
    ensures puts { W.IsReady result.1.keeper.ahead }
    ensures count { K.faults sink.old ≤ K.faults sink.new }
    ensures failed { result.0 ≡ run_end.WriteFault
        → HasRisen (K.faults sink.old) (K.faults sink.new) }
    ensures unwritten { result.0 ≡ run_end.Memory
        → result.1.keeper.ahead ≡ owner.keeper.ahead }
    // Wherever the custodian stood, the file stands for what the replies lead to.
    ensures run { RunsFrom W.Continues W.live W.faults W.StandsFor setting.now.setup.now
        script.now.lines result.0
        (charged (keeper_of owner.keeper.party.custody.party owner.keeper.ahead) steps.old)
        (charged (keeper_of result.1.keeper.party.custody.party result.1.keeper.ahead) steps.new)
        (K.taken sink.old) (K.taken sink.new) }
{
    // What was prepared before is for no line of these.
    owner.keeper.party.prepared = None;
    // The lifetimes in the two settings differ, so one is lent anew.
    run_owned(&*setting, setting, script, owner, sink, steps)
}
