// Worked runs, of any files and arguments.

use super::running::{Run, WITH_RECODES, WITHOUT_RECODES, is_either, is_so};
use std::alloc::Global;
use std::sync::Wait;
use std::test::Fail;
use std::thread::Threads;
use tb_base::Memory;
use tb_small::{CLASSES, PEOPLE, PTABLE, WIDE_CLASSES};

pub const SEX: &[u8] = b"release 0\nSEX,count\n1,1\n2,2\n.\n";

const USAGE: &[u8] = b"fault usage\n";

const NOBODY_SERVED: &[u8] = b"worker 0 sessions 0\nworker 1 sessions 0\nworker 2 sessions 0\n\
    worker 3 sessions 0\nworker 4 sessions 0\nworker 5 sessions 0\nworker 6 sessions 0\n\
    worker 7 sessions 0\nworker 8 sessions 0\nworker 9 sessions 0\nworker 10 sessions 0\n\
    worker 11 sessions 0\nworker 12 sessions 0\nworker 13 sessions 0\nworker 14 sessions 0\n\
    worker 15 sessions 0\nworker 16 sessions 0\nrelease 0\n";

// What a run shows, the arguments, the files with other bytes than the small setup's, the number of
// the status, and the text.
pub type Over = (
    &'static str,
    &'static str,
    &'static [(&'static str, &'static [u8])],
    u8,
    &'static [u8],
);

// Perturbation tables with one more line, whose cell key is below 4096 alone, or below 256 too.
const WITH_KEY_320: &[u8] =
    b"pcv,ckey,pvalue\n3,64,-2\n1,7,1\n4,71,2\n3,127,3\n2,27,-1\n3,320,-1\n";

const WITH_KEY_24: &[u8] = b"pcv,ckey,pvalue\n3,64,-2\n1,7,1\n4,71,2\n3,127,3\n2,27,-1\n3,24,2\n";

// Four persons, the keys of three of whom add up to 4120.
const WIDE_PEOPLE: &[u8] = b"person,record_key,SEX,AGE,AREA\n101,4000,1,0-15,E1\n\
    102,100,1,16-64,E1\n103,20,1,65+,E2\n104,7,2,16-64,E2\n";

static RUNS: [Over; 40] = [
    ("one_variable", WITHOUT_RECODES, &[], 0, SEX),
    ("one_variable", WITH_RECODES, &[], 0, SEX),
    (
        "lanes_in_phases",
        "lanes classes recodes ptable people 0 script",
        &[(
            "script",
            b"custodian drop 104\ncustodian publish\n--\nana table SEX\nana stats\n--\n",
        )],
        0,
        b"phase 1\nlane custodian\nheld 1\npublished 1\nphase 2\nlane ana\nrelease 1\nSEX,count\n\
        1,1\n2,0\n.\nrefused 2 Syntax 1\nphase 3\n",
    ),
    (
        "lanes_in_phases",
        "lanes classes - ptable people 0 script",
        &[("script", b"")],
        0,
        b"phase 1\n",
    ),
    (
        "lanes_in_phases",
        "lanes classes - ptable people 0 script",
        &[("script", b"a table SEX\n!x\n")],
        6,
        b"fault script 2\n",
    ),
    (
        "threshold_on_shown_count",
        "script classes - ptable people 2 script",
        &[],
        0,
        b"release 0\nSEX,count\n1,c\n2,2\n.\n",
    ),
    (
        "no_records",
        WITHOUT_RECODES,
        &[("people", b"person,record_key,SEX,AGE,AREA\n")],
        0,
        b"release 0\nSEX,count\n1,0\n2,0\n.\n",
    ),
    (
        "no_records",
        "script classes - ptable people 10 script",
        &[("people", b"person,record_key,SEX,AGE,AREA\n")],
        0,
        b"release 0\nSEX,count\n1,c\n2,c\n.\n",
    ),
    (
        "perturbation_file_faults",
        WITHOUT_RECODES,
        &[(
            "ptable",
            b"pcv,ckey,pvalue\n1,7,1\n4,71,2\n3,127,3\n2,27,-1\n",
        )],
        0,
        b"release 0\nSEX,count\n1,3\n2,2\n.\n",
    ),
    (
        "perturbation_file_faults",
        WITHOUT_RECODES,
        &[("ptable", b"pcv,ckey,pvalue\n1,7,1\n1,7,1\n")],
        4,
        b"fault ptable 5 PairTwice 2\n",
    ),
    (
        "perturbation_file_faults",
        WITHOUT_RECODES,
        &[("ptable", b"pcv,ckey,pvalue\n3,10,-4\n")],
        4,
        b"fault ptable 4 Negative 1\n",
    ),
    (
        "perturbation_file_faults",
        WITHOUT_RECODES,
        &[("ptable", b"pcv,ckey,pvalue\n0,0,1\n")],
        4,
        b"fault ptable 6 ZeroRow 1\n",
    ),
    (
        "perturbation_file_faults",
        WITHOUT_RECODES,
        &[("ptable", b"pcv,ckey,pvalue\n751,0,0\n")],
        4,
        b"fault ptable 3 OutOfRange 1\n",
    ),
    (
        "a_compressed_file",
        WITHOUT_RECODES,
        &[("ptable", b"\x1F\x8B\x08")],
        4,
        b"fault ptable 1 BadHeader 0\n",
    ),
    (
        "any_accepted_spelling",
        WITHOUT_RECODES,
        &[("ptable", b"note,pvalue,ckey,pcv\nx,-2,64,3\nx,1,7,1\n")],
        0,
        SEX,
    ),
    (
        "any_accepted_spelling",
        WITHOUT_RECODES,
        &[(
            "people",
            b"\xEF\xBB\xBFSEX,person,AREA,record_key,AGE,NOTE\r\n\
            \"1\",101,\"E1\",200,\"0-15\",x\r\n1,102,E1,100,16-64,x\r\n\
            1,103,E2,20,65+,x\r\n2,104,E2,7,16-64,x\r\n",
        )],
        0,
        SEX,
    ),
    ("command_faults", "", &[], 2, USAGE),
    ("command_faults", "script", &[], 2, USAGE),
    (
        "command_faults",
        "script classes - ptable people -1 script",
        &[],
        2,
        USAGE,
    ),
    (
        "command_faults",
        "script classes - ptable nobody 0 script",
        &[],
        7,
        b"fault read people\n",
    ),
    (
        "command_faults",
        WITHOUT_RECODES,
        &[(
            "people",
            b"person,record_key,SEX,AGE,AREA\n101,200,1,0-15,E1\n102,256,1,16-64,E1\n",
        )],
        5,
        b"fault people 3 BadKey 2\n",
    ),
    (
        "command_faults",
        WITH_RECODES,
        &[(
            "recodes",
            b"recode,variable,code,group\nAGE2,AGE,0-15,young\nAGE2,AGE,16-64,old\n",
        )],
        3,
        b"fault recodes 8 CodeMissing 1\n",
    ),
    (
        "command_faults",
        WITHOUT_RECODES,
        &[(
            "classes",
            b"variable,code,label\nSEX,1,Male\nSEX,1,Female\n",
        )],
        3,
        b"fault classes 4 RepeatedCode 2\n",
    ),
    (
        "command_faults",
        WITHOUT_RECODES,
        &[("script", b"a table SEX\na table AREA\n!x\n")],
        6,
        b"fault script 3\n",
    ),
    (
        "key_range_of_the_classification",
        WITHOUT_RECODES,
        &[("classes", WIDE_CLASSES), ("ptable", WITH_KEY_320)],
        0,
        b"release 0\nSEX,count\n1,2\n2,2\n.\n",
    ),
    (
        "key_range_of_the_classification",
        WITHOUT_RECODES,
        &[("ptable", WITH_KEY_320)],
        4,
        b"fault ptable 3 OutOfRange 6\n",
    ),
    (
        "key_range_of_the_classification",
        WITHOUT_RECODES,
        &[
            ("classes", WIDE_CLASSES),
            ("ptable", WITH_KEY_24),
            ("people", WIDE_PEOPLE),
        ],
        0,
        b"release 0\nSEX,count\n1,5\n2,2\n.\n",
    ),
    (
        "key_range_of_the_classification",
        WITHOUT_RECODES,
        &[("people", WIDE_PEOPLE)],
        5,
        b"fault people 3 BadKey 1\n",
    ),
    (
        "key_range_of_the_classification",
        WITHOUT_RECODES,
        &[(
            "classes",
            b"variable,code,label\n*,keys,512\nSEX,1,Male\nSEX,2,Female\n",
        )],
        3,
        b"fault classes 13 BadKeys 1\n",
    ),
    (
        "a_threshold_above_all_counts",
        "script classes - ptable people 1000000 script",
        &[],
        0,
        b"release 0\nSEX,count\n1,c\n2,c\n.\n",
    ),
    (
        "a_threshold_with_a_zero_in_front",
        "script classes - ptable people 01 script",
        &[],
        0,
        SEX,
    ),
    (
        "files_named_as_commands",
        "script help - gen script 0 serve",
        &[
            ("help", CLASSES),
            ("gen", PTABLE),
            ("script", PEOPLE),
            ("serve", b"a table SEX\n"),
        ],
        0,
        SEX,
    ),
    (
        "recodes_named_none",
        "script classes none ptable people 0 script",
        &[("none", b"")],
        3,
        b"fault recodes 1 BadHeader 0\n",
    ),
    (
        "a_follower",
        "follow classes - ptable people 2 script",
        &[],
        0,
        b"release 0\nSEX,count\n1,c\n2,2\n.\n",
    ),
    (
        "a_follower",
        "follow classes - ptable people 0 script",
        &[("script", b"")],
        0,
        b"",
    ),
    (
        "a_follower_over_files_at_fault",
        "follow classes - ptable nobody 0 script",
        &[],
        7,
        b"fault read people\n",
    ),
    (
        "a_follower_over_files_at_fault",
        "follow classes - ptable people 0 script",
        &[("script", b"leader end\na table SEX\n!x\n")],
        6,
        b"fault script 3\n",
    ),
    (
        "a_service_without_sessions",
        "serve classes - ptable people 0 65519 16 1000000",
        &[],
        0,
        NOBODY_SERVED,
    ),
    (
        "a_mirror_without_sessions",
        "mirror classes - ptable people 0 - - 65533 1024 1000000",
        &[],
        0,
        b"port 65533 sessions 0\nport 65534 sessions 0\nrelease 0\n",
    ),
    (
        "a_service_over_a_file_at_fault",
        "serve classes - ptable people 0 5000 1 1",
        &[("people", b"person,record_key,SEX,AGE,AREA\n0,1,1,65+,E1\n")],
        5,
        b"fault people 2 BadPerson 1\n",
    ),
];

fn runs() -> &'static [Over] {
    &RUNS
}

// Whether a run is as its row says.
pub fn is_worked(
    rt: &(impl Threads + Wait + Sync + Eprint),
    alloc: Global,
    over: &Over,
) -> Result<bool, Memory> {
    let (_, arguments, others, status, text) = over;
    let run = Run {
        arguments,
        others,
        fails: &[],
        bound: 400,
        status: *status,
        text,
    };
    is_so(rt, alloc, &run)
}

#[test]
fn worked_runs(rt: HostRuntime) -> Result<(), Fail> {
    for over in runs() {
        assert!(rt; is_worked(&rt, rt.alloc(), over)?, "{}: {}", over.0, over.1);
    }
    Ok(())
}

// A publication and a table in one phase, whichever came first, and a table in the next.
const PUBLISHED: &[u8] =
    b"custodian drop 104\ncustodian publish\nana table SEX\n--\nana table SEX\n";

const TABLE_FIRST: &[u8] = b"phase 1\nlane custodian\nheld 1\npublished 1\nlane ana\nrelease 0\n\
    SEX,count\n1,1\n2,2\n.\nphase 2\nlane ana\nrelease 1\nSEX,count\n1,1\n2,0\n.\n";

const PUBLICATION_FIRST: &[u8] = b"phase 1\nlane custodian\nheld 1\npublished 1\nlane ana\n\
    release 1\nSEX,count\n1,1\n2,0\n.\nphase 2\nlane ana\nrelease 1\nSEX,count\n1,1\n2,0\n.\n";

#[test]
fn a_publication_beside_a_table(rt: HostRuntime) -> Result<(), Fail> {
    let run = Run {
        arguments: "lanes classes - ptable people 0 script",
        others: &[("script", PUBLISHED)],
        fails: &[],
        bound: 400,
        status: 0,
        text: TABLE_FIRST,
    };
    assert!(rt; is_either(&rt, rt.alloc(), &run, PUBLICATION_FIRST)?);
    Ok(())
}
