// Two lanes of a phase, each of which waits for the other while its cube is built.

ghost use Rattle.std.specs.Prelude.{◌≡◌, length, vec_len};
ghost use Rattle.tb_script.specs.Scripts.{lanes_of};

use super::making::run_past;
use std::alloc::Global;
use std::marker::Brand;
use std::sync::Wait;
use std::sync::atomic::{AtomicBool, Ordering};
use std::sync::ledger::Ledger;
use std::test::Fail;
use std::thread::Threads;
use tb_base::{Memory, Steps};
use tb_build::Gate;
use tb_io::SureSink;
use tb_script::{RunEnd, Script};
use tb_small_boards::{opening, read_script};
use tb_small_values::setup;
use tb_text::Setup;

// A gate that sets its own flag, and waits for the other's.
#[derive(Drop)]
struct Crossed<'a> {
    own: &'a AtomicBool,
    other: &'a AtomicBool,
    lane: u32,
    met: bool,
}

impl Gate for Crossed<'_> {
    ghost HasReached = { λ _ _ _. Unit {0} };

    fn reach<L: Ledger>(&mut self, _steps: &Steps<L>) {
        self.own.store(true, Ordering::SeqCst);
        for _ in 0..1_000_000_000u32 {
            if self.other.load(Ordering::SeqCst) {
                self.met = true;
                return;
            }
        }
    }
}

// The gates of two lanes, the first of which has this flag.
fn two_gates<'a>(
    alloc: Global,
    one: &'a AtomicBool,
    two: &'a AtomicBool,
) -> Result<Vec<Crossed<'a>>, Memory> {
    let mut gates = Vec::new(alloc);
    gates.push(Crossed {
        own: one,
        other: two,
        lane: 0,
        met: false,
    })?;
    gates.push(Crossed {
        own: two,
        other: one,
        lane: 1,
        met: false,
    })?;
    Ok(gates)
}

// Whether there are two gates, each met the other, and each stands at its lane's place.
fn have_met(gates: &[Crossed<'_>]) -> bool {
    match gates {
        [first, second] => first.met && second.met && first.lane == 0 && second.lane == 1,
        _ => false,
    }
}

// How a run past these gates ends, over a new board.
fn run_crossed<R: Threads + Wait + Sync>(
    rt: &R,
    alloc: Global,
    setup: &Setup,
    script: &Script,
    gates: &mut Vec<Crossed<'_>>,
) -> Result<RunEnd, Memory>
    requires { vec_len gates.old ≡ length (lanes_of script.now.lines) }
{
    let opening = opening(alloc, setup)?;
    let mut sink = SureSink::new(alloc);
    Ok(run_past::<Brand, R, _, _>(rt, alloc, setup, opening, script, &mut sink, gates))
}

// Whether both gates of a script of two lanes are reached, and each meets the other.
fn meet<R: Threads + Wait + Sync>(
    rt: &R,
    alloc: Global,
    setup: &Setup,
    script: &Script,
) -> Result<bool, Memory> {
    let (one, two) = (AtomicBool::new(false), AtomicBool::new(false));
    let mut gates = two_gates(alloc, &one, &two)?;
    if gates.len() != script.lanes() {
        return Ok(false);
    }
    let end = run_crossed(rt, alloc, setup, script, &mut gates)?;
    Ok(end == RunEnd::Done && have_met(&gates))
}

fn lanes_meet<R: Threads + Wait + Sync>(
    rt: &R,
    alloc: Global,
    setup: &Setup,
) -> Result<bool, Memory> {
    let script = read_script(alloc, b"a table SEX\nb table AREA\n")?;
    meet(rt, alloc, setup, &script)
}

fn lanes_meet_over_small<R: Threads + Wait + Sync>(rt: &R, alloc: Global) -> Result<bool, Memory> {
    let setup = setup(alloc)?;
    lanes_meet(rt, alloc, &setup)
}

#[test]
fn lanes_run_at_the_same_time(rt: HostRuntime) -> Result<(), Fail> {
    assert!(&rt; lanes_meet_over_small(&rt, rt.alloc())?);
    Ok(())
}
