// The small setup with one of its files cut after each of its bytes.

use super::running::{Run, WITH_RECODES, WITH_UNITS, is_so};
use std::alloc::Global;
use std::sync::Wait;
use std::test::Fail;
use std::thread::Threads;
use tb_base::Memory;
use tb_small::{CLASSES, DWELLINGS, LINKS, PEOPLE, PTABLE, RECODES};

// Up to how many bytes of a file, from where the row before ends, and the number of the status and
// the text of a run over so many of them.
type Row = (usize, u8, &'static [u8]);

// The name of a file, all its bytes, and its rows. Each row is worked out by hand from what the
// last record of such a file holds: fewer fields than the header, an empty field, a part of one, or
// all of it.
type Cut = (&'static str, &'static [u8], &'static [Row]);

const SEX: &[u8] = b"release 0\nSEX,count\n1,1\n2,2\n.\n";

// The same table of dwellings: both have a person of SEX 1, and one has one of SEX 2.
const HOMES: &[u8] = b"release 0\nSEX,count\n1,2\n2,1\n.\n";

static CUTS: [Cut; 4] = [
    // Without AGE or one of its codes the recode isn't accepted, without E2 person 103 isn't, and
    // without AREA all is.
    (
        "classes",
        CLASSES,
        &[
            (18, 3, b"fault classes 1 BadHeader 0\n"),
            (20, 3, b"fault recodes 5 UnknownVariable 1\n"),
            (25, 3, b"fault classes 10 BadCsv 1\n"),
            (31, 3, b"fault recodes 5 UnknownVariable 1\n"),
            (36, 3, b"fault classes 10 BadCsv 2\n"),
            (44, 3, b"fault recodes 5 UnknownVariable 1\n"),
            (52, 3, b"fault classes 10 BadCsv 3\n"),
            (62, 3, b"fault recodes 6 UnknownCode 2\n"),
            (71, 3, b"fault classes 10 BadCsv 4\n"),
            (84, 3, b"fault recodes 6 UnknownCode 3\n"),
            (91, 3, b"fault classes 10 BadCsv 5\n"),
            (104, 0, SEX),
            (111, 3, b"fault classes 10 BadCsv 6\n"),
            (127, 5, b"fault people 4 UnknownCode 3\n"),
            (134, 3, b"fault classes 10 BadCsv 7\n"),
            (141, 0, SEX),
        ],
    ),
    // A recode lacks a code until the last record has a group, of which one letter is enough.
    (
        "recodes",
        RECODES,
        &[
            (25, 3, b"fault recodes 1 BadHeader 0\n"),
            (27, 0, SEX),
            (40, 3, b"fault recodes 10 BadCsv 1\n"),
            (41, 3, b"fault recodes 3 BadCode 1\n"),
            (47, 3, b"fault recodes 8 CodeMissing 1\n"),
            (61, 3, b"fault recodes 10 BadCsv 2\n"),
            (62, 3, b"fault recodes 3 BadCode 2\n"),
            (66, 3, b"fault recodes 8 CodeMissing 1\n"),
            (78, 3, b"fault recodes 10 BadCsv 3\n"),
            (79, 3, b"fault recodes 3 BadCode 3\n"),
            (83, 0, SEX),
        ],
    ),
    // The two cells have the keys 64 and 7, so their pvalues are those of records 1 and 2.
    (
        "ptable",
        PTABLE,
        &[
            (14, 4, b"fault ptable 1 BadHeader 0\n"),
            (16, 0, b"release 0\nSEX,count\n1,3\n2,1\n.\n"),
            (20, 4, b"fault ptable 7 BadCsv 1\n"),
            (22, 4, b"fault ptable 2 BadNumber 1\n"),
            (24, 0, b"release 0\nSEX,count\n1,1\n2,1\n.\n"),
            (27, 4, b"fault ptable 7 BadCsv 2\n"),
            (28, 4, b"fault ptable 2 BadNumber 2\n"),
            (30, 0, SEX),
            (34, 4, b"fault ptable 7 BadCsv 3\n"),
            (35, 4, b"fault ptable 2 BadNumber 3\n"),
            (37, 0, SEX),
            (42, 4, b"fault ptable 7 BadCsv 4\n"),
            (43, 4, b"fault ptable 2 BadNumber 4\n"),
            (45, 0, SEX),
            (49, 4, b"fault ptable 7 BadCsv 5\n"),
            (51, 4, b"fault ptable 2 BadNumber 5\n"),
            (53, 0, SEX),
        ],
    ),
    // One person and two have the keys 200 and 44, to which no pvalue belongs.
    (
        "people",
        PEOPLE,
        &[
            (29, 5, b"fault people 1 BadHeader 0\n"),
            (31, 0, b"release 0\nSEX,count\n1,0\n2,0\n.\n"),
            (45, 5, b"fault people 6 BadCsv 1\n"),
            (47, 5, b"fault people 4 UnknownCode 1\n"),
            (49, 0, b"release 0\nSEX,count\n1,1\n2,0\n.\n"),
            (64, 5, b"fault people 6 BadCsv 2\n"),
            (66, 5, b"fault people 4 UnknownCode 2\n"),
            (68, 0, b"release 0\nSEX,count\n1,2\n2,0\n.\n"),
            (80, 5, b"fault people 6 BadCsv 3\n"),
            (82, 5, b"fault people 4 UnknownCode 3\n"),
            (84, 0, b"release 0\nSEX,count\n1,1\n2,0\n.\n"),
            (97, 5, b"fault people 6 BadCsv 4\n"),
            (99, 5, b"fault people 4 UnknownCode 4\n"),
            (101, 0, SEX),
        ],
    ),
];

// The same of the files of dwellings, over a script that asks for a table of these.
static UNITS_CUTS: [Cut; 2] = [
    // A link is of a dwelling that isn't there until the last record has a key, of which one digit
    // is enough: 6 adds up with 50 to a key to which no pvalue belongs, as 60 does.
    (
        "dwellings",
        DWELLINGS,
        &[
            (20, 13, b"fault dwellings 1 BadHeader 0\n"),
            (22, 13, b"fault links 5 UnknownDwelling 1\n"),
            (23, 13, b"fault dwellings 8 BadCsv 1\n"),
            (24, 13, b"fault dwellings 3 BadKey 1\n"),
            (27, 13, b"fault links 5 UnknownDwelling 3\n"),
            (28, 13, b"fault dwellings 8 BadCsv 2\n"),
            (29, 13, b"fault dwellings 3 BadKey 2\n"),
            (32, 0, HOMES),
        ],
    ),
    (
        "links",
        LINKS,
        &[
            (14, 13, b"fault links 1 BadHeader 0\n"),
            (16, 0, b"release 0\nSEX,count\n1,0\n2,0\n.\n"),
            (19, 13, b"fault links 8 BadCsv 1\n"),
            (20, 13, b"fault links 2 BadDwelling 1\n"),
            (22, 0, b"release 0\nSEX,count\n1,1\n2,0\n.\n"),
            (25, 13, b"fault links 8 BadCsv 2\n"),
            (26, 13, b"fault links 2 BadDwelling 2\n"),
            (28, 0, b"release 0\nSEX,count\n1,1\n2,0\n.\n"),
            (31, 13, b"fault links 8 BadCsv 3\n"),
            (32, 13, b"fault links 2 BadDwelling 3\n"),
            (34, 0, b"release 0\nSEX,count\n1,2\n2,0\n.\n"),
            (37, 13, b"fault links 8 BadCsv 4\n"),
            (38, 13, b"fault links 2 BadDwelling 4\n"),
            (40, 0, HOMES),
        ],
    ),
];

fn cuts() -> &'static [Cut] {
    &CUTS
}

fn units_cuts() -> &'static [Cut] {
    &UNITS_CUTS
}

// No run has this status.
const NO_ROW: (u8, &[u8]) = (10, b"");

// What is wanted of a run over so many bytes of the file.
fn wanted(rows: &[Row], len: usize) -> (u8, &'static [u8]) {
    match rows.iter().find(|row| len <= row.0) {
        Some((_, status, text)) => (*status, *text),
        None => NO_ROW,
    }
}

// The first of the bytes of a file after which a run with these arguments, over this script and the
// file's bytes so far, isn't as its rows say.
fn wrong_cut(
    rt: &(impl Threads + Wait + Sync + Eprint),
    alloc: Global,
    arguments: &str,
    script: &'static [u8],
    cut: &Cut,
) -> Result<Option<usize>, Memory> {
    let (name, whole, rows) = cut;
    for len in 0..=whole.len() {
        let (status, text) = wanted(rows, len);
        let others = [("script", script), (*name, &whole[..len])];
        let run = Run {
            arguments,
            others: &others,
            fails: &[],
            bound: 400,
            status,
            text,
        };
        if !is_so(rt, alloc, &run)? {
            return Ok(Some(len));
        }
    }
    Ok(None)
}

#[test]
fn files_cut_after_each_byte(rt: HostRuntime) -> Result<(), Fail> {
    for cut in cuts() {
        let wrong = wrong_cut(&rt, rt.alloc(), WITH_RECODES, b"a table SEX\n", cut)?;
        assert_eq!(rt; wrong, None, "{}", cut.0);
    }
    for cut in units_cuts() {
        let wrong = wrong_cut(&rt, rt.alloc(), WITH_UNITS, b"a dwellings SEX\n", cut)?;
        assert_eq!(rt; wrong, None, "{}", cut.0);
    }
    Ok(())
}
