// Calls of the disk that fail: one before the first line ends the run, and one in a publication
// leaves it unkept.

use super::running::{Left, ends_so, is_left, keep};
use super::worked::{AFTER, BEFORE, DROP_104, SEX};
use std::alloc::Global;
use std::sync::Wait;
use std::test::Fail;
use std::thread::Threads;
use tb_base::Memory;
use tb_comparison::{is_either_text, is_status};

// How many calls one publication makes: two writes and two syncs.
const OF_ONE: u32 = 4;

// What is written where the publication isn't kept.
const UNKEPT: &[u8] = b"held 1\nunkept\nrelease 0\nSEX,count\n1,1\n2,2\n.\n";

/// Whether a run over this file has no batch, or the one that drops a person: only that one where
/// it was acknowledged.
pub fn stands<R: Threads + Wait + Sync + Eprint>(
    rt: &R,
    alloc: Global,
    file: &[u8],
    acknowledged: bool,
) -> Result<bool, Memory> {
    let left = keep(rt, alloc, file, &[], SEX)?;
    if acknowledged {
        return Ok(is_left(rt, &left, 0, AFTER));
    }
    let same = is_status(rt, left.status, 0);
    Ok(is_either_text(rt, left.text.as_slice(), AFTER, BEFORE) && same)
}

// What becomes of edits whose publication isn't kept: the script, and what is written.
static SCRIPTS: [(&[u8], &[u8]); 3] = [
    (DROP_104, UNKEPT),
    // Nothing is put any more.
    (
        b"custodian drop 104\ncustodian publish\ncustodian publish\na table SEX\n",
        b"held 1\nunkept\nunkept\nrelease 0\nSEX,count\n1,1\n2,2\n.\n",
    ),
    // A batch that can't follow is refused as ever.
    (
        b"custodian drop 104\ncustodian publish\ncustodian drop 104\ncustodian publish\n\
        custodian publish\ncustodian drop 104\ncustodian publish\n",
        b"held 1\nunkept\nheld 2\nrefused batch 2 2 NoSuchPerson\nrefused batch 0 5 Nothing\n\
        held 1\nunkept\n",
    ),
];

fn scripts() -> &'static [(&'static [u8], &'static [u8])] {
    &SCRIPTS
}

// The number of the last sync of one publication, which is the fourth. 0 if there is none.
fn fourth_sync<R: Threads + Wait + Sync>(rt: &R, alloc: Global) -> Result<u32, Memory> {
    let left = keep(rt, alloc, b"", &[], DROP_104)?;
    match left.syncs.as_slice() {
        [_, _, _, fourth] => Ok(*fourth),
        _ => Ok(0),
    }
}

// Whether the file that is left where this call fails has no batch or one.
fn leaves_one_at_most<R: Threads + Wait + Sync + Eprint>(
    rt: &R,
    alloc: Global,
    call: u32,
) -> Result<bool, Memory> {
    let left = keep(rt, alloc, b"", &[call], DROP_104)?;
    stands(rt, alloc, left.file.as_slice(), false)
}

#[test]
fn failing_sync(rt: HostRuntime) -> Result<(), Fail> {
    let alloc = rt.alloc();
    let call = fourth_sync(&rt, alloc)?;
    assert!(&rt; call > 0);
    for (i, (script, text)) in scripts().iter().enumerate() {
        let are = ends_so(&rt, alloc, b"", &[call], script, 0, text)?;
        assert!(&rt; are, "at {i}");
    }
    assert!(&rt; leaves_one_at_most(&rt, alloc, call)?);
    Ok(())
}

// How many calls one publication makes, with those before it.
fn calls_of<R: Threads + Wait + Sync>(rt: &R, alloc: Global) -> Result<u32, Memory> {
    let left = keep(rt, alloc, b"", &[], DROP_104)?;
    Ok(u32::try_from(left.calls).unwrap_or(0))
}

// Whether a run of so many calls, this one of which failed, ended as it must.
fn ended_so(rt: &impl Eprint, left: &Left, call: u32, calls: u32) -> bool {
    if call.saturating_add(OF_ONE) <= calls {
        is_left(rt, left, 12, b"fault disk\n")
    } else {
        is_left(rt, left, 0, UNKEPT)
    }
}

// Whether the run ends as it must where this call fails, and its file has no batch or one.
fn is_told<R: Threads + Wait + Sync + Eprint>(
    rt: &R,
    alloc: Global,
    call: u32,
    calls: u32,
) -> Result<bool, Memory> {
    let left = keep(rt, alloc, b"", &[call], DROP_104)?;
    Ok(ended_so(rt, &left, call, calls) && stands(rt, alloc, left.file.as_slice(), false)?)
}

#[test]
fn each_call_fails_in_turn(rt: HostRuntime) -> Result<(), Fail> {
    let calls = calls_of(&rt, rt.alloc())?;
    assert!(&rt; calls > OF_ONE);
    for call in 1..=calls {
        assert!(&rt; is_told(&rt, rt.alloc(), call, calls)?, "call {call}");
    }
    Ok(())
}
