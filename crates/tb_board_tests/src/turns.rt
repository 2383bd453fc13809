// Turns of a board.

ghost use Rattle.std.specs.Prelude.{◌≡◌, ◌<◌};
ghost use Rattle.tb_board.specs.Custodians.{IsWhole};
ghost use Rattle.tb_front.specs.Holders.{IsLater};

use crate::making::{first_two, leaving, opening};
use std::alloc::Global;
use std::marker::Brand;
use std::process::Abort;
use std::sync::ledger::{Blank, Ledger};
use std::sync::{Arc, Wait};
use std::test::Fail;
use tb_base::{Memory, Shape, Steps};
use tb_board::{Board, Custodian, Named, Opening, Step};
use tb_core::{CubeFor, Offer, Stats, cube_for};
use tb_cube::Cube;
use tb_front::Pass;
use tb_release::EditFault;
use tb_schema::Schema;
use tb_small_values::schema;

// One person leaves with the next release, whose number is returned.
pub fn publish_one<B: Named, R: Wait>(
    rt: &R,
    alloc: Global,
    board: &Board<B>,
    custodian: &mut Custodian,
    shape: &Shape,
    person: u32,
) -> Result<u32, EditFault>
    requires name { custodian.old.writer.name ≡ B.name }
    requires whole { IsWhole custodian.old }
    requires shape { custodian.old.writer.start.shape ≡ shape.now }
    ensures name { custodian.new.writer.name ≡ B.name }
    ensures whole { IsWhole custodian.new }
    ensures shape { custodian.new.writer.start.shape ≡ shape.now }
{
    let edits = leaving(alloc, shape, person)?;
    board.publish(rt, alloc, custodian, &edits)
}

// How many persons the cells of a cube have, and the sum of their keys, each as often as its cell's
// place, from 1 on.
fn sums(cube: &Cube) -> (u32, u32) {
    let mut persons = 0u32;
    let mut keys = 0u32;
    for place in 0..cube.cells() {
        let cell = cube.cell(place);
        let times = (place as u32).saturating_add(1);
        persons = persons.saturating_add(cell.count);
        keys = keys.saturating_add(times.saturating_mul(u32::from(cell.key)));
    }
    (persons, keys)
}

// What the sums over SEX by AGE are where 104, 103, 102 and 101 leave one after another: their keys
// are 7, 20, 100 and 200, and their cells the fifth, the third, the second and the first.
fn sums_of(number: u32) -> (u32, u32) {
    match number {
        0 => (4, 495),
        1 => (3, 460),
        2 => (2, 400),
        3 => (1, 200),
        _ => (0, 0),
    }
}

// Whether a cube's cells are those of a release.
fn is_of_release(cube: &Cube, number: u32) -> bool {
    cube.cells() == 6 && sums(cube) == sums_of(number)
}

// Takes a release with the cube of SEX by AGE, offers the cube where it was made anew, and
// returns whether its cells are those of the release.
fn ask<B: Named, R: Wait, L: Ledger>(
    rt: &R,
    alloc: Global,
    board: &Board<B>,
    shape: &Shape,
    pass: &mut Pass<Step>,
    steps: &mut Steps<L>,
) -> Result<bool, Memory>
    requires name { pass.old.name ≡ B.name }
    requires shape { pass.old.start.shape ≡ shape.now }
    ensures { IsLater pass.old pass.new }
{
    let vars = first_two(alloc, shape)?;
    let taken = board.take(rt, pass, Some(&vars))?;
    let got = cube_for(alloc, shape, &vars, &taken, steps)?;
    let number = taken.release.number();
    let right = is_of_release(got.cube(), number);
    match got {
        CubeFor::Kept(_cube) => {}
        CubeFor::Made(cube) => {
            let cube = Arc::new(alloc, cube)?;
            board.offer(rt, pass, Offer { vars, number, cube });
        }
    }
    Ok(right)
}

// Asks so many times, and returns how often that went before the first cube that was wrong.
#[tactic(auto, using(tb_front::proofs::Holding::seen_more))]
fn ask_often<L: Ledger, B: Named, R: Wait>(
    blank: Blank,
    rt: &R,
    alloc: Global,
    board: &Board<B>,
    shape: &Shape,
    pass: &mut Pass<Step>,
    times: u32,
) -> Result<u32, Memory>
    requires ledger { blank.name ≡ L.name }
    requires parts { blank.parts ≡ L.parts }
    requires some { 0 < L.parts }
    requires name { pass.old.name ≡ B.name }
    requires shape { pass.old.start.shape ≡ shape.now }
    ensures { IsLater pass.old pass.new }
{
    let mut steps = Steps::<L>::new(blank);
    for asked in 0..times {
        if !ask(rt, alloc, board, shape, pass, &mut steps)? {
            return Ok(asked);
        }
    }
    Ok(times)
}

// The same by a pass of its own.
pub fn ask_beside<B: Named, R: Wait>(
    rt: &R,
    alloc: Global,
    board: &Board<B>,
    shape: &Shape,
    mut pass: Pass<Step>,
    times: u32,
) -> Option<u32>
    requires name { pass.name ≡ B.name }
    requires shape { pass.start.shape ≡ shape.now }
{
    ask_often::<Brand, B, R>(Blank::new(1), rt, alloc, board, shape, &mut pass, times).ok()
}

// An analyst of a new pass asks so many times. Returns how often the cube was right.
fn ask_anew<B: Named, R: Wait>(
    rt: &R,
    alloc: Global,
    board: &Board<B>,
    shape: &Shape,
    custodian: &mut Custodian,
    times: u32,
) -> u32
    requires name { custodian.old.writer.name ≡ B.name }
    requires shape { custodian.old.writer.start.shape ≡ shape.now }
    ensures { custodian.new ≡ custodian.old }
{
    let mut pass = board.pass(rt);
    board.confirm(custodian, &mut pass);
    ask_beside(rt, alloc, board, shape, pass, times).unwrap_or(0)
}

// An analyst asks twice, and finds the cube the second time; 104 leaves; another asks, and finds
// the cube of release 0, which it advances. Returns how often the cube was right, and the
// numbers of the desk: of three looks two found a cube, the capacity was set to 2, and the cubes
// were forgotten.
fn worked_turns<B: Named, R: Wait>(
    rt: &R,
    alloc: Global,
    board: &Board<B>,
    shape: &Shape,
    mut custodian: Custodian,
) -> Result<(u32, Stats), EditFault>
    requires name { custodian.writer.name ≡ B.name }
    requires whole { IsWhole custodian }
    requires shape { custodian.writer.start.shape ≡ shape.now }
{
    let first = ask_anew(rt, alloc, board, shape, &mut custodian, 2);
    board.resize(rt, 2)?;
    publish_one(rt, alloc, board, &mut custodian, shape, 104)?;
    let second = ask_anew(rt, alloc, board, shape, &mut custodian, 1);
    board.clear(rt);
    Ok((
        first.saturating_add(second),
        board.stats(rt, &mut custodian),
    ))
}

// How many records release 0 has, and how many batches there are, as a new pass is handed them.
fn sizes_of_chain<B: Named, R: Wait>(rt: &R, board: &Board<B>) -> Result<(usize, usize), Memory> {
    let mut pass = board.pass(rt);
    let chain = board.chain(rt, &mut pass)?;
    Ok((chain.base.len(), chain.batches.len()))
}

fn turn_by_turn<B: Named, R: Wait + Abort>(
    rt: &R,
    alloc: Global,
    opening: Opening,
    shape: &Shape,
) -> Result<(), Fail>
    requires name { opening.name ≡ B.name }
    requires shape { opening.start.shape ≡ shape.now }
{
    let (board, custodian) = Board::<B>::new(opening);
    let (right, stats) = worked_turns(rt, alloc, &board, shape, custodian)?;
    assert_eq!(rt; right, 3);
    let want = Stats {
        release: 1,
        looks: 3,
        hits: 2,
        entries: 0,
        capacity: 2,
    };
    assert_eq!(rt; stats, want);
    assert_eq!(rt; sizes_of_chain(rt, &board).ok(), Some((4, 1)));
    Ok(())
}

fn turns_over<R: Wait + Abort>(rt: &R, alloc: Global, schema: &Schema) -> Result<(), Fail> {
    let opening = opening(alloc, schema)?;
    turn_by_turn::<Brand, R>(rt, alloc, opening, schema.shape())
}

#[test]
fn ample_memory_is_enough(rt: HostRuntime) -> Result<(), Fail> {
    let schema = schema(rt.alloc())?;
    turns_over(&rt, rt.alloc(), &schema)
}
