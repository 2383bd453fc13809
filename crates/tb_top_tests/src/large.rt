// Tables of many places.

use super::running::{WITHOUT_RECODES, run_over};
use std::alloc::{AllocError, Global};
use std::sync::Wait;
use std::test::Fail;
use std::thread::Threads;
use tb_base::Memory;
use tb_io::{SureFiles, SureSink};
use tb_small::PTABLE;
use tb_small_runs::words_of;

// A table of many places over a header of microdata alone: the variables with how many categories
// each has, the microdata, the script, how many lines are written, and the last of them.
struct Large {
    name: &'static str,
    variables: &'static [(&'static str, u32)],
    people: &'static [u8],
    script: &'static [u8],
    lines: usize,
    last: &'static [u8],
}

static LARGE: [Large; 2] = [
    // No cube over the four variables fits: none is looked for, and the table is answered all the
    // same.
    Large {
        name: "no_cube_still_answered",
        variables: &[("AREA", 2000), ("AGE", 101), ("SEX", 2), ("TENURE", 5)],
        people: b"person,record_key,AREA,AGE,SEX,TENURE\n",
        script: b"a table AREA by AGE by SEX where TENURE in (c1)\ncustodian stats\n",
        lines: 404_004,
        last: b"c1999,c100,c1,0\n.\nstats release 0 looks 0 hits 0 entries 0 capacity 64\n",
    },
    // The most places, and too many.
    Large {
        name: "place_limit",
        variables: &[("A", 1000), ("B", 1000), ("C", 1001)],
        people: b"person,record_key,A,B,C\n",
        script: b"a table A by B\na table A by C\n",
        lines: 1_000_004,
        last: b"c999,c999,0\n.\nrefused 8 TooLarge\n",
    },
];

fn large_tables() -> &'static [Large] {
    &LARGE
}

fn classes_of(alloc: Global, variables: &[(&str, u32)]) -> Result<String, AllocError> {
    let mut classes = String::from_str(alloc, "variable,code,label\n")?;
    for (name, categories) in variables {
        for i in 0..*categories {
            classes.push_str(format!(in alloc; "{name},c{i},\n")?.as_str())?;
        }
    }
    Ok(classes)
}

fn files_of(alloc: Global, one: &Large, classes: &[u8]) -> Result<SureFiles, Memory> {
    let mut files = SureFiles::new(alloc);
    files.hold("classes", classes)?;
    files.hold("ptable", PTABLE)?;
    files.hold("people", one.people)?;
    files.hold("script", one.script)?;
    Ok(files)
}

// Whether a run writes so many lines, and the last ones are these.
fn is_written(
    rt: &(impl Threads + Wait + Sync),
    alloc: Global,
    one: &Large,
    classes: &[u8],
) -> Result<bool, Memory> {
    let mut files = files_of(alloc, one, classes)?;
    let words = words_of(alloc, WITHOUT_RECODES)?;
    let mut out = SureSink::new(alloc);
    run_over(rt, alloc, &words, &mut files, &mut out)?;
    let text = out.text()?;
    Ok(text.ends_with(one.last) && text.iter().filter(|c| **c == b'\n').count() == one.lines)
}

#[test]
fn many_places(rt: HostRuntime) -> Result<(), Fail> {
    for one in large_tables() {
        let classes = classes_of(rt.alloc(), one.variables)?;
        assert!(rt;
            is_written(&rt, rt.alloc(), one, classes.as_bytes())?,
            "{}",
            one.name
        );
    }
    Ok(())
}
