// A phase of as many lanes as there may be.

use super::scripts::writes;
use std::alloc::Global;
use std::sync::Wait;
use std::test::Fail;
use std::thread::Threads;
use tb_base::Memory;
use tb_small_values::setup;
use tb_text::Setup;

// Adds a lane's name between these bytes.
fn add_lane(bytes: &mut Vec<u8>, before: &[u8], name: &[u8], after: &[u8]) -> Result<(), Memory> {
    bytes.extend_from_slice(before)?;
    bytes.extend_from_slice(name)?;
    bytes.extend_from_slice(after)?;
    Ok(())
}

// A start, and then the names of 64 lanes, of two letters each, between these bytes.
fn lanes(alloc: Global, start: &[u8], before: &[u8], after: &[u8]) -> Result<Vec<u8>, Memory> {
    let mut bytes = Vec::from_slice(alloc, start)?;
    for first in b'a'..=b'h' {
        for second in b'a'..=b'h' {
            add_lane(&mut bytes, before, &[first, second], after)?;
        }
    }
    Ok(bytes)
}

// Whether each of 64 lanes is answered that its line is refused.
fn are_answered<R: Threads + Wait + Sync + Eprint>(
    rt: &R,
    alloc: Global,
    setup: &Setup,
) -> Result<bool, Memory> {
    let script = lanes(alloc, b"", b"", b" publish\n")?;
    let text = lanes(alloc, b"phase 1\n", b"lane ", b"\nrefused 2 Syntax 1\n")?;
    writes(rt, alloc, setup, &script, &text, &text)
}

fn are_answered_over_small<R: Threads + Wait + Sync + Eprint>(
    rt: &R,
    alloc: Global,
) -> Result<bool, Memory> {
    let setup = setup(alloc)?;
    are_answered(rt, alloc, &setup)
}

#[test]
fn lanes_of_a_phase_may_be_64(rt: HostRuntime) -> Result<(), Fail> {
    assert!(&rt; are_answered_over_small(&rt, rt.alloc())?);
    Ok(())
}
