// The replies to a script's lines, written one after another.

ghost use Rattle.std.specs.Prelude.{◌≡◌, ◌≤◌, [], All, IfOk, length};
ghost use Rattle.tb_io.specs.Faults.{HasRisen};
ghost use Rattle.tb_io.specs.declared.limits.TheConstants.{MOST_LINE_BYTES};
ghost use Rattle.tb_lines.specs.Moments.{IsReplied, moment};
ghost use Rattle.tb_lines.specs.Outputs.{charged};
ghost use Rattle.tb_model.specs.Schemas.{shape_of};
ghost use Rattle.tb_script.specs.Runs.{AreAnalysts, IsBeside, IsOwnedReply, IsOwnedRun};
ghost use Rattle.tb_script.specs.Runs.{IsOwnedStep, IsRun};
ghost use Rattle.tb_script.specs.declared.run.RunEnd.TheVariants as run_end;
ghost use Rattle.tb_session.specs.Parties.{IsAnalystOf, IsCustodianOf, state_at};

use crate::asker::Asker;
use crate::script::Script;
use std::alloc::Global;
use std::sync::Wait;
use std::sync::ledger::Ledger;
use std::thread::Threads;
use tb_base::{Memory, Steps};
use tb_board::{Board, Custodian, Named};
use tb_build::Open;
use tb_io::{Sink, Wrote};
use tb_lines::{Answerer, answer_list};
use tb_session::{Custody, Owner, Party, Role, Setting, answer};
use tb_text::Setup;

/// How the run of a script ends: each line was answered, a write failed, or it is out of memory.
#[derive(Clone, Copy, Debug, PartialEq, Eq)]
pub enum RunEnd {
    Done,
    WriteFault,
    Memory,
}

// What the lines of a script are answered over: what analysts' lines are, what the owner's are, and
// how many lanes it has.
#[derive(Drop)]
struct Lanes<'a, C, B: Named, R: Threads + Wait + Sync> {
    setup: &'a Setup,
    board: &'a Board<B>,
    rt: &'a R,
    alloc: Global,
    own: &'a C,
    lanes: usize,
}

// Answers an analyst's line over what the owner's custodian wrote: its pass learns that, and has
// seen no more after it.
fn answer_beside<C, B: Named, O: Owner<C, B>, R: Threads + Wait + Sync, K: Sink, L: Ledger>(
    lanes: &Lanes<'_, C, B, R>,
    owner: &mut O,
    party: &mut Party,
    line: &[u8],
    sink: &mut K,
    gate: &mut Open,
    steps: &mut Steps<L>,
) -> Wrote
    requires few { length line.now ≤ MOST_LINE_BYTES }
    requires ready { O.IsReady lanes.now.own.now owner.old }
    requires shape { O.shape lanes.now.own.now ≡ shape_of lanes.now.setup.now.schema }
    requires analyst { IsAnalystOf B.name (shape_of lanes.now.setup.now.schema) party.old }
    ensures ready { O.IsReady lanes.now.own.now owner.new }
    ensures same { O.state owner.new ≡ O.state owner.old }
    ensures analyst { IsAnalystOf B.name (shape_of lanes.now.setup.now.schema) party.new }
    ensures replied { IsReplied
        (IsBeside lanes.now.setup.now O.base O.chain) line.now result
        (moment (O.state owner.old) steps.old (K.taken sink.old) (K.faults sink.old))
        (moment (O.state owner.new) steps.new (K.taken sink.new) (K.faults sink.new)) }
{
    owner.tell(lanes.own, party);
    let done = answer(
        lanes.setup,
        lanes.board,
        lanes.rt,
        lanes.alloc,
        party,
        line,
        sink,
        gate,
        steps,
    );
    owner.confirm(lanes.own, party);
    done
}

// Answers a line of a lane: the custodian's as the owner, or that of an analyst.
fn answer_lane<C, B: Named, O: Owner<C, B>, R: Threads + Wait + Sync, K: Sink, L: Ledger>(
    lanes: &Lanes<'_, C, B, R>,
    owner: &mut O,
    party: &mut Party,
    role: Role,
    line: &[u8],
    sink: &mut K,
    gate: &mut Open,
    steps: &mut Steps<L>,
) -> Wrote
    requires few { length line.now ≤ MOST_LINE_BYTES }
    requires ready { O.IsReady lanes.now.own.now owner.old }
    requires shape { O.shape lanes.now.own.now ≡ shape_of lanes.now.setup.now.schema }
    requires analyst { IsAnalystOf B.name (shape_of lanes.now.setup.now.schema) party.old }
    ensures ready { O.IsReady lanes.now.own.now owner.new }
    ensures analyst { IsAnalystOf B.name (shape_of lanes.now.setup.now.schema) party.new }
    ensures replied { IsReplied
        (IsOwnedStep lanes.now.setup.now O.base O.chain (O.Step lanes.now.own.now) role)
        line.now result
        (moment (O.state owner.old) steps.old (K.taken sink.old) (K.faults sink.old))
        (moment (O.state owner.new) steps.new (K.taken sink.new) (K.faults sink.new)) }
{
    match role {
        Role::Custodian => owner.answer(lanes.own, line, sink, gate, steps),
        Role::Analyst => answer_beside(lanes, owner, party, line, sink, gate, steps),
    }
}

// Who answers the lines of a script: the owner, and an analyst for each lane.
#[derive(Drop)]
struct Parties<O> {
    owner: O,
    analysts: Vec<Party>,
}

impl<'a, C, B: Named, O: Owner<C, B>, R: Threads + Wait + Sync> Answerer<
    Lanes<'a, C, B, R>,
    Open,
    Asker,
> for Parties<O> {
    ghost use Rattle.std.specs.Prelude.{◌≡◌, ◌<◌};
    ghost use Rattle.std.specs.Thread.{IsSync};
    ghost use Rattle.tb_model.specs.Schemas.{shape_of};
    ghost use Rattle.tb_script.specs.Runs.{AreAnalysts, IsOwnedStep};

    ghost State = { O.State };

    ghost state = { λ parties. O.state parties.owner };

    ghost fresh = { O.fresh };

    ghost IsReady = { λ c parties. IsSync R.row × O.IsReady c.own.now parties.owner
        × (O.shape c.own.now ≡ shape_of c.setup.now.schema)
        × AreAnalysts B.name (shape_of c.setup.now.schema) c.lanes parties.analysts.items };

    ghost MayAsk = { λ c who. who.lane < c.lanes };

    ghost Step = { λ c who.
        IsOwnedStep c.setup.now O.base O.chain (O.Step c.own.now) who.role };

    fn begin(&mut self, lanes: &Lanes<'a, C, B, R>) {
        self.owner.begin(lanes.own);
    }

    fn answer<K: Sink, L: Ledger>(
        &mut self,
        lanes: &Lanes<'a, C, B, R>,
        who: Asker,
        line: &[u8],
        sink: &mut K,
        gate: &mut Open,
        steps: &mut Steps<L>,
    ) -> Wrote {
        answer_lane(
            lanes,
            &mut self.owner,
            &mut self.analysts[who.lane],
            who.role,
            line,
            sink,
            gate,
            steps,
        )
    }
}

// An analyst for each lane, of which none has seen more than the owner's custodian. It takes memory
// for the list.
fn analysts<C, B: Named, O: Owner<C, B>>(
    setting: &C,
    alloc: Global,
    owner: &mut O,
    lanes: usize,
) -> Result<Vec<Party>, Memory>
    requires { O.IsReady setting.now owner.old }
    ensures ready { O.IsReady setting.now owner.new }
    ensures same { O.state owner.new ≡ O.state owner.old }
    ensures analysts { IfOk result
        (λ v. AreAnalysts B.name (O.shape setting.now) lanes v.items) }
{
    let mut parties = Vec::with_capacity(alloc, lanes)?;
    for _ in 0..lanes {
        let party = owner.analyst(setting);
        parties.push(party)?;
    }
    Ok(parties)
}

/// Writes the reply to each line of a script, one after another: the custodian's as the owner, who
/// answers over a setting of its own, and each other lane's as an analyst of the owner's board,
/// over what its custodian wrote by then. The owner begins afresh, and comes back. It takes memory
/// for the analysts and for the replies, and is out of memory only before the first line.
pub fn run_owned<C, B: Named, O: Owner<C, B>, R: Threads + Wait + Sync, K: Sink, L: Ledger>(
    setting: &Setting<'_, B, R>,
    own_setting: &C,
    script: &Script,
    mut owner: O,
    sink: &mut K,
    steps: &mut Steps<L>,
) -> (RunEnd, O)
    requires ready { O.IsReady own_setting.now owner }
    requires shape { O.shape own_setting.now ≡ shape_of setting.now.setup.now.schema }
    ensures ready { O.IsReady own_setting.now result.1 }
    ensures count { K.faults sink.old ≤ K.faults sink.new }
    ensures failed { result.0 ≡ run_end.WriteFault
        → HasRisen (K.faults sink.old) (K.faults sink.new) }
    ensures run { IsOwnedRun
        (IsOwnedReply setting.now.setup.now O.base O.chain (O.Step own_setting.now)) O.fresh
        script.now.lines result.0
        (charged (O.state owner) steps.old) (charged (O.state result.1) steps.new)
        (K.taken sink.old) (K.taken sink.new) }
{
    let Ok(analysts) = analysts(own_setting, setting.alloc, &mut owner, script.lanes()) else {
        return (RunEnd::Memory, owner);
    };
    let mut parties = Parties { owner, analysts };
    let lanes = Lanes {
        setup: setting.setup,
        board: setting.board,
        rt: setting.rt,
        alloc: setting.alloc,
        own: own_setting,
        lanes: script.lanes(),
    };
    let end = match answer_list(&lanes, &mut parties, script, sink, &mut Open, steps) {
        Wrote::All => RunEnd::Done,
        Wrote::Failed => RunEnd::WriteFault,
    };
    (end, parties.owner)
}

/// Writes the reply to each line of a script, one after another, each lane by a party of its own: a
/// query's table counted over the custodian's current release; the line of the query's first fault;
/// what became of the custodian's edit or of `publish`, `stats`, `clear` or `cache K`; or `memory`
/// where the memory for it is refused. A line of blanks alone, or one that begins with `#`, has
/// none. It is out of memory only before the first line.
pub fn run_script<B: Named, K: Sink, L: Ledger>(
    setup: &Setup,
    board: &Board<B>,
    rt: &(impl Threads + Wait + Sync),
    alloc: Global,
    script: &Script,
    custodian: Custodian,
    sink: &mut K,
    steps: &mut Steps<L>,
) -> RunEnd
    requires own { IsCustodianOf B.name (shape_of setup.now.schema) custodian [] }
    ensures count { K.faults sink.old ≤ K.faults sink.new }
    ensures failed { result ≡ run_end.WriteFault
        → HasRisen (K.faults sink.old) (K.faults sink.new) }
    ensures run { IsRun setup.now custodian.writer.start.base script.now.lines result
        (charged (state_at custodian.writer []) steps.old) steps.new
        (K.taken sink.old) (K.taken sink.new) }
{
    let setting = Setting {
        setup,
        board,
        rt,
        alloc,
    };
    let owner = Custody::new(alloc, custodian);
    let (end, _) = run_owned(&setting, &setting, script, owner, sink, steps);
    end
}
