// Worked runs, each over a journal's file of given bytes, and two runs one after another.

use super::running::{ends_so, is_left, keep};
use std::alloc::Global;
use std::sync::Wait;
use std::test::Fail;
use std::thread::Threads;
use tb_base::Memory;
use tb_comparison::is_text;

/// A batch that drops one person, and a table.
pub const DROP_104: &[u8] = b"custodian drop 104\ncustodian publish\na table SEX\n";

/// The same table alone.
pub const SEX: &[u8] = b"a table SEX\n";

/// The journal of that batch.
pub const ONE_BATCH: &[u8] =
    b"TBJOURN1\x01\x00\x00\x00\x09\x00\x00\x00\x01\x02\x00\x00\x00\x68\x00";

/// The table before that batch, and after it.
pub const BEFORE: &[u8] = b"release 0\nSEX,count\n1,1\n2,2\n.\n";

pub const AFTER: &[u8] = b"release 1\nSEX,count\n1,1\n2,0\n.\n";

// What a run shows, the bytes of the journal's file, the script, the number of the status, and what
// is written.
type Row = (
    &'static str,
    &'static [u8],
    &'static [u8],
    u8,
    &'static [u8],
);

static ROWS: [Row; 21] = [
    ("no_batch", b"", SEX, 0, BEFORE),
    ("no_batch", b"012345678", SEX, 0, BEFORE),
    ("no_batch", b"TBJOURN1\x00\x01\x02\x03", SEX, 0, BEFORE),
    ("no_lines", ONE_BATCH, b"", 0, b""),
    (
        "an_earlier_release",
        ONE_BATCH,
        b"a at 0 table SEX\ncustodian at 2 table SEX\n",
        0,
        b"release 0\nSEX,count\n1,1\n2,2\n.\nrefused 10 NoSuchRelease 1\n",
    ),
    (
        "what_may_be_asked",
        ONE_BATCH,
        b"a describe SEX\ncustodian describe SEX x\n",
        0,
        b"describe SEX\ncode,label\n1,Male\n2,Female\n.\nrefused 2 Syntax 3\n",
    ),
    (
        "analysts_beside_the_custodian",
        b"",
        b"a table SEX\ncustodian drop 104\nb table SEX\na publish\ncustodian publish\n\
        # a comment\nb table SEX\n--\ncustodian table SEX\ncustodian stats\n",
        0,
        b"release 0\nSEX,count\n1,1\n2,2\n.\nheld 1\nrelease 0\nSEX,count\n1,1\n2,2\n.\n\
        refused 2 Syntax 1\npublished 1\nrelease 1\nSEX,count\n1,1\n2,0\n.\n\
        release 1\nSEX,count\n1,1\n2,0\n.\nstats release 1 looks 4 hits 3 entries 1 capacity 64\n",
    ),
    (
        "a_batch_that_is_refused",
        b"",
        b"custodian publish\ncustodian drop 999\ncustodian publish\ncustodian drop 104\n\
        custodian publish\n",
        0,
        b"refused batch 0 5 Nothing\nheld 1\nrefused batch 1 2 NoSuchPerson\nheld 1\npublished 1\n",
    ),
    (
        "not_a_journal",
        b"0123456789",
        DROP_104,
        11,
        b"fault journal 1 NotJournal 0\n",
    ),
    (
        "not_a_journal",
        b"TBJOURN2\x00\x00",
        DROP_104,
        11,
        b"fault journal 1 NotJournal 0\n",
    ),
    (
        "a_release_taken_back",
        b"TBJOURN1\x01\x00\x00\x00\x09\x00\x00\x00\x01\x06\x00\x00\x00\x01\x00",
        b"a at 0 table SEX\na at 1 table SEX\n",
        0,
        b"refused 11 Withdrawn 1\nrelease 1\nSEX,count\n1,1\n2,2\n.\n",
    ),
    // Releases up to a later one than the next.
    (
        "does_not_follow",
        b"TBJOURN1\x01\x00\x00\x00\x09\x00\x00\x00\x01\x06\x00\x00\x00\x02\x00",
        SEX,
        11,
        b"fault journal 3 DoesNotFollow 1\n",
    ),
    // A kind of edit that is none.
    (
        "bad_record",
        b"TBJOURN1\x01\x00\x00\x00\x09\x00\x00\x00\x01\x07\x00\x00\x00\x68\x00",
        SEX,
        11,
        b"fault journal 2 BadRecord 1\n",
    ),
    // The gate behind the only record is open.
    (
        "bad_record",
        b"TBJOURN1\x01\x00\x00\x00\x09\x00\x00\x00\x01\x02\x00\x00\x00\x68\x01",
        SEX,
        11,
        b"fault journal 2 BadRecord 2\n",
    ),
    // The same behind a record that can't follow, of which there is no person 999.
    (
        "does_not_follow",
        b"TBJOURN1\x01\x00\x00\x00\x09\x00\x00\x00\x01\x02\x00\x00\x03\xe7\x01",
        SEX,
        11,
        b"fault journal 3 DoesNotFollow 1\n",
    ),
    // The same person is dropped twice.
    (
        "does_not_follow",
        b"TBJOURN1\x01\x00\x00\x00\x09\x00\x00\x00\x01\x02\x00\x00\x00\x68\
        \x01\x00\x00\x00\x09\x00\x00\x00\x01\x02\x00\x00\x00\x68\x00",
        DROP_104,
        11,
        b"fault journal 3 DoesNotFollow 2\n",
    ),
    // An add of two codes, where there are three variables.
    (
        "does_not_fit",
        b"TBJOURN1\x01\x00\x00\x00\x11\x00\x00\x00\x01\x01\x00\x00\x00\xc8\x00\x09\x00\x02\
        \x00\x00\x00\x00\x00",
        SEX,
        11,
        b"fault journal 3 DoesNotFollow 1\n",
    ),
    // A pvalue past the last row.
    (
        "does_not_fit",
        b"TBJOURN1\x01\x00\x00\x00\x0b\x00\x00\x00\x01\x04\x02\xef\x00\x00\x00\x00\x00",
        SEX,
        11,
        b"fault journal 3 DoesNotFollow 1\n",
    ),
    // An add of a person and a threshold: of SEX 1 four persons have the cell key 73, for which no
    // pvalue is listed.
    (
        "records_and_rules",
        b"TBJOURN1\x01\x00\x00\x00\x18\x00\x00\x00\x02\x01\x00\x00\x00\xc8\x00\x09\x00\x03\
        \x00\x00\x00\x02\x00\x00\x05\x00\x00\x00\x03\x00",
        SEX,
        0,
        b"release 1\nSEX,count\n1,4\n2,c\n.\n",
    ),
    // A script's faults come first.
    (
        "script_before_journal",
        b"0123456789",
        b"!x\n",
        6,
        b"fault script 1\n",
    ),
    (
        "batches_after_the_first",
        ONE_BATCH,
        b"custodian drop 103\ncustodian drop 102\ncustodian publish\ncustodian publish\n",
        0,
        b"held 1\nheld 2\npublished 2\nrefused batch 0 5 Nothing\n",
    ),
];

// What two runs show, the script of each, and what the second writes.
type Pair = (&'static str, &'static [u8], &'static [u8], &'static [u8]);

static PAIRS: [Pair; 5] = [
    (
        "publications_by_two_runs",
        DROP_104,
        b"custodian add 104 7 SEX=2 AGE=16-64 AREA=E2\ncustodian publish\na table SEX\n",
        b"held 1\npublished 2\nrelease 2\nSEX,count\n1,1\n2,2\n.\n",
    ),
    (
        "rules_of_the_last_release",
        b"custodian pvalue 3 64 5\ncustodian threshold 3\ncustodian publish\n",
        SEX,
        b"release 1\nSEX,count\n1,8\n2,c\n.\n",
    ),
    (
        "releases_taken_back",
        b"custodian oldest 1\ncustodian publish\n",
        b"a at 0 table SEX\ncustodian oldest 0\ncustodian publish\n",
        b"refused 11 Withdrawn 1\nheld 1\nrefused batch 1 6 BadRelease\n",
    ),
    (
        "keys_of_all_releases",
        b"custodian add 200 9 SEX=1 AGE=65+ AREA=E1\ncustodian drop 200\ncustodian publish\n",
        b"custodian add 200 10 SEX=1 AGE=65+ AREA=E1\ncustodian publish\n",
        b"held 1\nrefused batch 1 3 KeyChanged\n",
    ),
    (
        "edits_that_were_held",
        b"custodian drop 101\ncustodian publish\ncustodian drop 102\n",
        b"custodian publish\na table SEX\n",
        b"refused batch 0 5 Nothing\nrelease 1\nSEX,count\n1,2\n2,2\n.\n",
    ),
];

fn rows() -> &'static [Row] {
    &ROWS
}

fn pairs() -> &'static [Pair] {
    &PAIRS
}

// Whether a run with one publication leaves the journal of one batch, and one over that prints the
// table after it.
fn keeps_one_batch<R: Threads + Wait + Sync + Eprint>(
    rt: &R,
    alloc: Global,
) -> Result<bool, Memory> {
    let left = keep(rt, alloc, b"", &[], DROP_104)?;
    let text = b"held 1\npublished 1\nrelease 1\nSEX,count\n1,1\n2,0\n.\n".as_slice();
    let file = left.file.as_slice();
    Ok(
        is_left(rt, &left, 0, text)
            && is_text(rt, file, ONE_BATCH)
            && ends_so(rt, alloc, file, &[], SEX, 0, AFTER)?,
    )
}

#[test]
fn journal_of_one_batch(rt: HostRuntime) -> Result<(), Fail> {
    assert!(&rt; keeps_one_batch(&rt, rt.alloc())?);
    Ok(())
}

#[test]
fn worked_runs(rt: HostRuntime) -> Result<(), Fail> {
    for (name, file, script, status, text) in rows() {
        let are = ends_so(&rt, rt.alloc(), file, &[], script, *status, text)?;
        assert!(&rt; are, "{name}");
    }
    Ok(())
}

// Whether the second of two runs, over the file that the first left, writes this text.
fn writes_then<R: Threads + Wait + Sync + Eprint>(
    rt: &R,
    alloc: Global,
    first: &[u8],
    second: &[u8],
    text: &[u8],
) -> Result<bool, Memory> {
    let left = keep(rt, alloc, b"", &[], first)?;
    ends_so(rt, alloc, left.file.as_slice(), &[], second, 0, text)
}

#[test]
fn two_runs(rt: HostRuntime) -> Result<(), Fail> {
    for (name, first, second, text) in pairs() {
        let are = writes_then(&rt, rt.alloc(), first, second, text)?;
        assert!(&rt; are, "{name}");
    }
    Ok(())
}

// Whether a run leaves this file.
fn leaves<R: Threads + Wait + Sync + Eprint>(
    rt: &R,
    alloc: Global,
    file: &[u8],
    script: &[u8],
    wanted: &[u8],
) -> Result<bool, Memory> {
    let left = keep(rt, alloc, file, &[], script)?;
    Ok(is_text(rt, left.file.as_slice(), wanted))
}

#[test]
fn files_that_are_left(rt: HostRuntime) -> Result<(), Fail> {
    let alloc = rt.alloc();
    assert!(&rt; leaves(&rt, alloc, b"", SEX, b"TBJOURN1\x00")?);
    assert!(&rt;
        leaves(
            &rt,
            alloc,
            b"",
            b"custodian drop 999\ncustodian publish\n",
            b"TBJOURN1\x00"
        )?
    );
    assert!(&rt; leaves(&rt, alloc, ONE_BATCH, SEX, ONE_BATCH)?);
    assert!(&rt; leaves(&rt, alloc, b"0123456789", DROP_104, b"0123456789")?);
    Ok(())
}
