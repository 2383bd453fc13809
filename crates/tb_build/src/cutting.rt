// The cube of a release, in parts that threads count.

ghost use Rattle.std.specs.Prelude.{◌≡◌, ◌+◌, ◌*◌, ◌<◌, ◌≤◌, [], IfOk, OnOk, length, map};
ghost use Rattle.std.specs.List.{range_with_len};
ghost use Rattle.tb_base.specs.declared.people.TheConstants.{MOST_PERSONS};
ghost use Rattle.tb_base.specs.Records.{AllFit};
ghost use Rattle.tb_cube.specs.Cubes.{cube_over};
ghost use Rattle.tb_delta.specs.Counting.{HasCube};
ghost use Rattle.tb_build.specs.Parts.{part_of, records_in};

use crate::walking::cube_between;
use rayon::prelude::*;
use std::alloc::Global;
use std::sync::ledger::Ledger;
use std::thread::Threads;
use tb_base::{Memory, Shape, Steps, VarSet};
use tb_cube::Cube;
use tb_delta::count_all;
use tb_release::{Lent, Release};

/// Into how many parts the records are cut at most.
pub const MOST_PARTS: usize = 64;

// The cube of each part, each counted in a thread of its own where one can be made.
fn cubes_of(
    rt: &(impl Threads + Sync),
    alloc: Global,
    shape: &Shape,
    vars: &VarSet,
    lent: &Lent<'_>,
    parts: usize,
    size: usize,
) -> Result<Vec<Cube>, Memory>
    requires has { HasCube shape.now vars.now }
    requires fit { AllFit shape.now (records_in lent.now) }
    requires few { length (records_in lent.now) ≤ MOST_PERSONS }
    requires parts { parts ≤ MOST_PARTS }
    requires size { size ≤ MOST_PERSONS }
    ensures { IfOk result (λ cubes. cubes.items
        ≡ map (λ k. cube_over shape.now vars.now (part_of size (records_in lent.now) k))
        (range_with_len 0 parts)) }
{
    (0..parts)
        .into_par_iter()
        // Without it so short a range is gone through by one thread.
        .with_min_len(1)
        .map(
            |k: usize| -> Result<Cube, Memory>
                requires { (k < MOST_PARTS) × ((size ≤ MOST_PERSONS)
                    × (HasCube shape.now vars.now
                    × (AllFit shape.now (records_in lent.now)
                    × (length (records_in lent.now) ≤ MOST_PERSONS)))) }
                ensures { IfOk result (λ cube. cube ≡ cube_over shape.entry.now vars.entry.now
                    (part_of size (records_in lent.entry.now) k)) }
            { cube_between(alloc, shape, vars, lent, k * size, (k + 1) * size) },
        )
        .collect::<Result<Vec<Cube>, Memory>>(rt, alloc)?
}

// Merges the cubes of all parts, in order, into one that holds no record.
fn merge_parts(cube: &mut Cube, cubes: &[Cube], lent: &Lent<'_>, size: usize)
    requires empty { cube.old ≡ cube_over cube.old.shape cube.old.vars [] }
    requires cubes { cubes.now ≡ map
        (λ k. cube_over cube.old.shape cube.old.vars (part_of size (records_in lent.now) k))
        (range_with_len 0 (length cubes.now)) }
    requires few { length (records_in lent.now) ≤ MOST_PERSONS }
    requires all { length (records_in lent.now) ≤ length cubes.now * size }
    ensures { cube.new ≡ cube_over cube.old.shape cube.old.vars (records_in lent.now) }
{
    let _ = lent;
    for other in cubes {
        cube.merge(other);
    }
}

/// The cube of a release over some variables, counted from its records, which are lent once, in
/// some number of parts, at most `MOST_PARTS`: each part's cube is made in a thread of its own
/// where one can be made, and merged; one part, or none, is the walk by this thread. It takes
/// memory for the cubes alone.
pub fn build_in_parts<L: Ledger>(
    rt: &(impl Threads + Sync),
    alloc: Global,
    shape: &Shape,
    release: &Release,
    vars: &VarSet,
    parts: usize,
    steps: &mut Steps<L>,
) -> Result<Cube, Memory>
    requires has { HasCube shape.now vars.now }
    requires fit { AllFit shape.now release.now.records }
    ensures price { steps.new ≤ steps.old + length release.now.records }
    ensures cost { OnOk result (steps.new ≡ steps.old + length release.now.records) }
    ensures cube { IfOk result (λ cube. cube ≡ cube_over shape.now vars.now release.now.records) }
{
    if parts <= 1 {
        return count_all(alloc, shape, vars, release, steps);
    }
    release.soundness();
    let mut cube = Cube::zero(alloc, shape, vars)?;
    let parts = parts.min(MOST_PARTS);
    let size = release.len().div_ceil(parts);
    let lent = release.lend(steps);
    let cubes = cubes_of(rt, alloc, shape, vars, &lent, parts, size)?;
    merge_parts(&mut cube, &cubes, &lent, size);
    Ok(cube)
}
