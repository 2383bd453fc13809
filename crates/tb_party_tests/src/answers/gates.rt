// One analyst's cube waits to be built, while the custodian publishes and another is answered.

ghost use Rattle.std.specs.Prelude.{◌≡◌};
ghost use Rattle.tb_model.specs.Schemas.{shape_of};
ghost use Rattle.tb_session.specs.Parties.{IsPartyOf};

use super::asking::ask_all;
use super::making::analyst;
use std::alloc::Global;
use std::marker::Brand;
use std::sync::Wait;
use std::sync::atomic::{AtomicBool, Ordering};
use std::sync::ledger::Ledger;
use std::test::Fail;
use std::thread::{Threads, join};
use tb_base::{Memory, Steps};
use tb_board::{Board, Named, Opening};
use tb_build::{Gate, Open};
use tb_comparison::is_text;
use tb_io::MemSink;
use tb_session::{Party, Setting};
use tb_small_boards::{opening, owner};
use tb_small_values::setup;
use tb_text::Setup;

// The first caller is at its gate, may go on, and was answered twice.
#[derive(Drop)]
struct Flags {
    there: AtomicBool,
    open: AtomicBool,
    answered: AtomicBool,
}

// Whether a flag is set, after so many looks.
fn waits_for(flag: &AtomicBool) -> bool {
    for _ in 0..1_000_000_000u32 {
        if flag.load(Ordering::SeqCst) {
            return true;
        }
    }
    false
}

// A gate that tells that it was reached, and waits until it may be passed.
#[derive(Drop)]
struct Flagged<'a> {
    flags: &'a Flags,
    times: u32,
    late: bool,
}

impl Gate for Flagged<'_> {
    ghost HasReached = { λ _ _ _. Unit {0} };

    fn reach<L: Ledger>(&mut self, _steps: &Steps<L>) {
        self.times = self.times.saturating_add(1);
        self.flags.there.store(true, Ordering::SeqCst);
        if !waits_for(&self.flags.open) {
            self.late = true;
        }
    }
}

// What the first caller asks twice, and what it gets, whose cube is built at release 3; what the
// custodian publishes meanwhile, and what it and the other caller get.
struct Talk {
    line: &'static str,
    first: &'static [u8],
    edits: &'static str,
    others: &'static [u8],
}

static TALKS: [Talk; 2] = [
    // Release 4 has another threshold and pvalue: the first table is shown by the rules of its own
    // release.
    Talk {
        line: "table SEX",
        first: b"release 3\nSEX,count\n1,1\n2,2\n.\nrelease 4\nSEX,count\n1,8\n2,c\n.\n",
        edits: "threshold 1\ndrop 104\npvalue 3 64 5\npublish",
        others: b"held 1\nheld 2\nheld 3\npublished 4\nrelease 4\nSEX,count\n1,8\n2,c\n.\n\
            stats release 4 looks 3 hits 1 entries 1 capacity 64\n",
    },
    // Release 4 takes back those before it: the first table goes by what was seen before.
    Talk {
        line: "at 3 table SEX",
        first: b"release 3\nSEX,count\n1,1\n2,2\n.\nrefused 11 Withdrawn 4\n",
        edits: "oldest 4\npublish",
        others: b"held 1\npublished 4\nrelease 4\nSEX,count\n1,1\n2,2\n.\n\
            stats release 4 looks 3 hits 1 entries 1 capacity 64\n",
    },
];

fn talks() -> &'static [Talk] {
    &TALKS
}

// The first caller asks, and waits at the gate; then it asks again, and isn't there again.
fn ask_twice<B: Named, R: Threads + Wait + Sync>(
    setting: &Setting<'_, B, R>,
    party: &mut Party,
    flags: &Flags,
    talk: &Talk,
    sink: &mut MemSink,
) -> bool
    requires own { IsPartyOf B.name (shape_of setting.now.setup.now.schema) party.old }
{
    let mut gate = Flagged {
        flags,
        times: 0,
        late: false,
    };
    let once = ask_all(setting, party, talk.line, sink, &mut gate);
    let again = ask_all(setting, party, talk.line, sink, &mut gate);
    flags.answered.store(true, Ordering::SeqCst);
    once && again && gate.times == 1 && !gate.late
}

// Whether the first caller gets its replies so.
fn ask_first<B: Named, R: Threads + Wait + Sync + Eprint>(
    setting: &Setting<'_, B, R>,
    mut party: Party,
    flags: &Flags,
    talk: &Talk,
) -> Option<bool>
    requires own { IsPartyOf B.name (shape_of setting.now.setup.now.schema) party }
{
    let mut sink = MemSink::new(setting.alloc, 200).ok()?;
    let right = ask_twice(setting, &mut party, flags, talk, &mut sink);
    Some(is_text(setting.rt, sink.taken(), talk.first) && right)
}

// The custodian publishes and another caller is answered before the first may go on; in the end
// the custodian asks for the desk's numbers.
fn publish_and_ask<B: Named, R: Threads + Wait + Sync>(
    setting: &Setting<'_, B, R>,
    own: &mut Party,
    party: &mut Party,
    flags: &Flags,
    talk: &Talk,
    sink: &mut MemSink,
) -> bool
    requires own { IsPartyOf B.name (shape_of setting.now.setup.now.schema) own.old }
    requires party { IsPartyOf B.name (shape_of setting.now.setup.now.schema) party.old }
{
    let there = waits_for(&flags.there);
    let published = ask_all(setting, own, talk.edits, sink, &mut Open);
    let asked = ask_all(setting, party, "table SEX", sink, &mut Open);
    flags.open.store(true, Ordering::SeqCst);
    let answered = waits_for(&flags.answered);
    let told = ask_all(setting, own, "stats", sink, &mut Open);
    there && published && asked && answered && told
}

// Whether the others get their replies so.
fn go_on<B: Named, R: Threads + Wait + Sync + Eprint>(
    setting: &Setting<'_, B, R>,
    mut own: Party,
    mut party: Party,
    flags: &Flags,
    talk: &Talk,
) -> Option<bool>
    requires own { IsPartyOf B.name (shape_of setting.now.setup.now.schema) own }
    requires party { IsPartyOf B.name (shape_of setting.now.setup.now.schema) party }
{
    let mut sink = MemSink::new(setting.alloc, 400).ok()?;
    let right = publish_and_ask(setting, &mut own, &mut party, flags, talk, &mut sink);
    Some(is_text(setting.rt, sink.taken(), talk.others) && right)
}

// Whether the custodian publishes three releases.
fn publish_three<B: Named, R: Threads + Wait + Sync>(
    setting: &Setting<'_, B, R>,
    own: &mut Party,
) -> Option<bool>
    requires own { IsPartyOf B.name (shape_of setting.now.setup.now.schema) own.old }
    ensures own { IsPartyOf B.name (shape_of setting.now.setup.now.schema) own.new }
{
    let mut sink = MemSink::new(setting.alloc, 200).ok()?;
    let lines = "amend 101 AGE=16-64\npublish\namend 101 AGE=65+\npublish\n\
        amend 101 AGE=0-15\npublish";
    Some(ask_all(setting, own, lines, &mut sink, &mut Open))
}

// Whether both get their replies, one beside the other.
fn are_answered<B: Named + Send + Sync, R: Threads + Wait + Sync + Eprint>(
    setting: &Setting<'_, B, R>,
    own: Party,
    one: Party,
    two: Party,
    talk: &Talk,
) -> bool
    requires own { IsPartyOf B.name (shape_of setting.now.setup.now.schema) own }
    requires one { IsPartyOf B.name (shape_of setting.now.setup.now.schema) one }
    requires two { IsPartyOf B.name (shape_of setting.now.setup.now.schema) two }
{
    let flags = Flags {
        there: AtomicBool::new(false),
        open: AtomicBool::new(false),
        answered: AtomicBool::new(false),
    };
    let (first, others) = join(
        setting.rt,
        || -> Option<bool>
            requires { IsPartyOf B.name (shape_of setting.now.setup.now.schema) one }
        { ask_first(setting, one, &flags, talk) },
        || -> Option<bool>
            requires { IsPartyOf B.name (shape_of setting.now.setup.now.schema) own
                × IsPartyOf B.name (shape_of setting.now.setup.now.schema) two }
        { go_on(setting, own, two, &flags, talk) },
    );
    first == Some(true) && others == Some(true)
}

// The same over a new board, after three releases.
fn beside<B: Named + Send + Sync, R: Threads + Wait + Sync + Eprint>(
    rt: &R,
    alloc: Global,
    setup: &Setup,
    opening: Opening,
    talk: &Talk,
) -> bool
    requires name { opening.name ≡ B.name }
    requires shape { opening.start.shape ≡ shape_of setup.now.schema }
{
    let (board, mut custodian) = Board::<B>::new(opening);
    let one = analyst(rt, setup, &board, &mut custodian);
    let two = analyst(rt, setup, &board, &mut custodian);
    let mut own = owner::<B>(alloc, setup, custodian);
    let setting = Setting {
        setup,
        board: &board,
        rt,
        alloc,
    };
    let published = publish_three(&setting, &mut own);
    are_answered(&setting, own, one, two, talk) && published == Some(true)
}

fn beside_over<R: Threads + Wait + Sync + Eprint>(
    rt: &R,
    alloc: Global,
    setup: &Setup,
    talk: &Talk,
) -> Result<bool, Memory> {
    let opening = opening(alloc, setup)?;
    Ok(beside::<Brand, R>(rt, alloc, setup, opening, talk))
}

fn beside_over_small<R: Threads + Wait + Sync + Eprint>(
    rt: &R,
    alloc: Global,
    talk: &Talk,
) -> Result<bool, Memory> {
    let setup = setup(alloc)?;
    beside_over(rt, alloc, &setup, talk)
}

#[test]
fn cube_is_built_outside_the_lock(rt: HostRuntime) -> Result<(), Fail> {
    for (i, talk) in talks().iter().enumerate() {
        assert!(&rt; beside_over_small(&rt, rt.alloc(), talk)?, "at {i}");
    }
    Ok(())
}
