// Runs over generated populations. The lines that are wanted come from `bench/summary.py`, a model
// that shares nothing with the program.

use super::running::run_over;
use std::alloc::Global;
use std::sync::Wait;
use std::test::Fail;
use std::thread::Threads;
use tb_base::{Memory, Status};
use tb_comparison::{is_status, is_text};
use tb_gen::files_of;
use tb_io::{SureFiles, SureSink};
use tb_small_runs::words_of;

const ONE_PERSON: &[u8] = b"gen 1 1 lines 7211 bytes 64917 sum 4228453\n";

// Per round two tables of 306 lines, one of 58, 50 edits and a publication; and one line of
// numbers.
const MANY_PERSONS: &[u8] = b"gen 20000 7 lines 7211 bytes 76127 sum 4497808\n";

// Whether a run without files writes this text, and is done.
fn writes(
    rt: &(impl Threads + Wait + Sync + Eprint),
    alloc: Global,
    arguments: &str,
    text: &[u8],
) -> Result<bool, Memory> {
    let words = words_of(alloc, arguments)?;
    let mut out = SureSink::new(alloc);
    let status = run_over(rt, alloc, &words, &mut SureFiles::new(alloc), &mut out)?;
    let same = is_status(rt, status.number(), Status::Done.number());
    Ok(is_text(rt, out.text()?, text) && same)
}

#[test]
fn generated_runs(rt: HostRuntime) -> Result<(), Fail> {
    let alloc = rt.alloc();
    for _ in 0..2 {
        assert!(rt; writes(&rt, alloc, "gen 1 1", ONE_PERSON)?);
        assert!(rt; writes(&rt, alloc, "gen 20000 7", MANY_PERSONS)?);
    }
    Ok(())
}

// The generated files of one person, under the names that a last line gives them.
fn one_person(alloc: Global) -> Result<SureFiles, Memory> {
    let generated = files_of(alloc, 1, 1)?;
    let mut files = SureFiles::new(alloc);
    files.hold("classes", &generated.classes)?;
    files.hold("recodes", &generated.recodes)?;
    files.hold("ptable", &generated.ptable)?;
    files.hold("people", &generated.people)?;
    files.hold("script", &generated.script)?;
    Ok(files)
}

// How many line feeds and bytes a text has, and the sum of its byte values.
fn sums_of(text: &[u8]) -> [u64; 3] {
    let feeds = text.iter().filter(|byte| **byte == b'\n').count();
    let mut sum = 0_u32;
    for byte in text {
        sum = sum.wrapping_add(u32::from(*byte));
    }
    [feeds as u64, text.len() as u64, u64::from(sum)]
}

// The sums of what `script` writes over those files.
fn script_sums(rt: &(impl Threads + Wait + Sync), alloc: Global) -> Result<[u64; 3], Memory> {
    let words = words_of(alloc, "script classes recodes ptable people 10 script")?;
    let mut files = one_person(alloc)?;
    let mut out = SureSink::new(alloc);
    let status = run_over(rt, alloc, &words, &mut files, &mut out)?;
    Ok(if status == Status::Done {
        sums_of(out.text()?)
    } else {
        [0, 0, 0]
    })
}

#[test]
fn the_script_comes_to_the_same(rt: HostRuntime) -> Result<(), Fail> {
    assert_eq!(rt; script_sums(&rt, rt.alloc())?, [7211, 64_917, 4_228_453]);
    Ok(())
}
