// Plans with ample memory, and the size of a cube at its bound.

use crate::making::schema_of;
use std::alloc::Global;
use std::test::Fail;
use tb_base::Memory;
use tb_plan::Plan;
use tb_query::{MOST_QUERY_BYTES, read_query};
use tb_small::CLASSES;

// Twenty variables of two categories.
const TWENTY: &[u8] = b"variable,code,label\nA,0,\nA,1,\nB,0,\nB,1,\nC,0,\nC,1,\nD,0,\nD,1,\n\
    E,0,\nE,1,\nF,0,\nF,1,\nG,0,\nG,1,\nH,0,\nH,1,\nI,0,\nI,1,\nJ,0,\nJ,1,\nK,0,\nK,1,\n\
    L,0,\nL,1,\nM,0,\nM,1,\nN,0,\nN,1,\nO,0,\nO,1,\nP,0,\nP,1,\nQ,0,\nQ,1,\nR,0,\nR,1,\n\
    S,0,\nS,1,\nT,0,\nT,1,\n";

const ALL_TWENTY: &[u8] = b"table A by B by C by D by E by F by G by H where I in (0) \
    and J in (0) and K in (0) and L in (0) and M in (0) and N in (0) and O in (0) \
    and P in (0) and Q in (0) and R in (0) and S in (0) and T in (0)";

fn plan_of(alloc: Global, classes: &[u8], line: &[u8]) -> Result<Plan, Memory> {
    if line.len() > MOST_QUERY_BYTES {
        return Err(Memory);
    }
    let schema = schema_of(alloc, classes, None)?;
    let Ok(query) = read_query(alloc, &schema, line) else {
        return Err(Memory);
    };
    Plan::of(alloc, &schema, &query)
}

// How many variables a plan has, how many places its table and how many cells its cube.
fn sizes(plan: &Plan) -> (usize, usize, u32) {
    (
        plan.vars().len(),
        plan.cells(),
        plan.cube_cells().unwrap_or(0),
    )
}

// The classification with one line more.
fn with_line(alloc: Global, classes: &[u8], line: &[u8]) -> Result<Vec<u8>, Memory> {
    let mut more = Vec::from_slice(alloc, classes)?;
    more.extend_from_slice(line)?;
    Ok(more)
}

#[test]
fn places_and_cube_cells(rt: HostRuntime) -> Result<(), Fail> {
    let plan = plan_of(
        rt.alloc(),
        CLASSES,
        b"table SEX where AREA in (E1) with totals",
    )?;
    assert!(rt; sizes(&plan) == (2, 3, 4));
    Ok(())
}

// The largest cube.
#[test]
fn most_cells(rt: HostRuntime) -> Result<(), Fail> {
    let plan = plan_of(rt.alloc(), TWENTY, ALL_TWENTY)?;
    assert!(rt; sizes(&plan) == (20, 256, 1_048_576));
    Ok(())
}

// One that is too large, where one variable has a category more.
#[test]
fn more_cells(rt: HostRuntime) -> Result<(), Fail> {
    let more = with_line(rt.alloc(), TWENTY, b"T,2,\n")?;
    let plan = plan_of(rt.alloc(), more.as_slice(), ALL_TWENTY)?;
    assert!(rt; sizes(&plan) == (20, 256, 0));
    Ok(())
}
