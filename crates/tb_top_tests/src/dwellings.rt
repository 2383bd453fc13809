// Worked runs over files of dwellings and of links.

use super::running::{Run, WITH_UNITS, is_so};
use super::runs::{Over, is_worked};
use super::scripts::{Script, is_replied};
use std::alloc::Global;
use std::sync::Wait;
use std::test::Fail;
use std::thread::Threads;
use tb_base::Memory;
use tb_small::{DWELLINGS, LINKS, WIDE_CLASSES};

// The persons 101, 102 and 103 are of SEX 1, and 101 and 102 in E1; 101 is young. The first two
// live in dwelling 1 with the key 50, the others in dwelling 2 with the key 60. No pvalue belongs
// to these keys or to their sum.
static SCRIPTS: [Script; 13] = [
    Script {
        name: "dwellings_count_once",
        lines: b"a dwellings SEX with totals\ncustodian drop 101\ncustodian drop 102\n\
            custodian publish\na dwellings SEX with totals\n",
        replies: b"release 0\nSEX,count\n1,2\n2,1\nTotal,2\n.\nheld 1\nheld 2\npublished 1\n\
            release 1\nSEX,count\n1,1\n2,1\nTotal,1\n.\n",
    },
    Script {
        name: "persons_beside_dwellings",
        lines: b"a table SEX with totals\na dwellings SEX with totals\ncustodian table SEX\n\
            custodian dwellings SEX\n",
        replies: b"release 0\nSEX,count\n1,1\n2,2\nTotal,6\n.\n\
            release 0\nSEX,count\n1,2\n2,1\nTotal,2\n.\n\
            release 0\nSEX,count\n1,1\n2,2\n.\nrelease 0\nSEX,count\n1,2\n2,1\n.\n",
    },
    Script {
        name: "what_may_be_asked",
        lines: b"a describe SEX\ncustodian describe dwellings\n",
        replies: b"describe SEX\ncode,label\n1,Male\n2,Female\n.\nrefused 3 UnknownName 2\n",
    },
    Script {
        name: "labels_with_commas",
        lines: b"a dwellings AREA by SEX with totals with labels\n",
        replies: b"release 0\nAREA,SEX,count\n\"North, rural\",Male,1\n\
            \"North, rural\",Female,0\n\"North, rural\",Total,1\nSouth,Male,1\nSouth,Female,1\n\
            South,Total,1\nTotal,Male,2\nTotal,Female,1\nTotal,Total,2\n.\n",
    },
    // Dwelling 2 alone has somebody of 65 or more, who is of SEX 1.
    Script {
        name: "recodes_and_filters",
        lines: b"a dwellings AGE2 with totals\na dwellings SEX where AGE in (65+) with totals\n\
            a dwellings SEX where AREA not in (E1) and AGE2 in (old)\n",
        replies: b"release 0\nAGE2,count\nyoung,1\nold,2\nTotal,2\n.\n\
            release 0\nSEX,count\n1,1\n2,0\nTotal,1\n.\nrelease 0\nSEX,count\n1,1\n2,1\n.\n",
    },
    Script {
        name: "any_accepted_spelling",
        lines: b"a \tdwellings\tSEX \t with totals \t\r\ndwellings dwellings SEX\n\
            a dwellings AREA where AGE not in(65+,0-15)",
        replies: b"release 0\nSEX,count\n1,2\n2,1\nTotal,2\n.\nrelease 0\nSEX,count\n1,2\n2,1\n.\n\
            release 0\nAREA,count\nE1,1\nE2,1\n.\n",
    },
    // Each fault is that of the query with `table` in place of the first word, which has four bytes
    // less.
    Script {
        name: "query_refusals",
        lines: b"a dwellings\na dwellings SEX by\na dwellings SEX;\na dwellings table\n\
            a dwellings dwellings\na dwellings FOO\na dwellings AGE where SEX in (9)\n\
            a dwellings AGE by SEX by AGE\na dwellings \xC3\na dwellings SEX \xC3\n\
            custodian dwellings \t\xC3\n",
        replies: b"refused 2 Syntax 2\nrefused 2 Syntax 4\nrefused 2 Syntax 3\n\
            refused 2 Syntax 2\nrefused 3 UnknownName 2\nrefused 3 UnknownName 2\n\
            refused 4 UnknownCode 7\nrefused 5 RepeatedDimension 6\nrefused 1 NotText 7\n\
            refused 1 NotText 11\nrefused 1 NotText 8\n",
    },
    // The first word is another, so each is a query as it stands. A blank is a space or a tab.
    Script {
        name: "another_first_word",
        lines: b"a dwellings,SEX\na dwellings(\na Dwellings SEX\na dwelling SEX\n\
            a dwellingsSEX\na table dwellings\na dwellings\x0B SEX\na dwellings\xC3 SEX\n",
        replies: b"refused 2 Syntax 1\nrefused 2 Syntax 1\nrefused 2 Syntax 1\n\
            refused 2 Syntax 1\nrefused 2 Syntax 1\nrefused 3 UnknownName 2\n\
            refused 1 NotText 10\nrefused 1 NotText 10\n",
    },
    // Behind `at` stands a query of persons alone; its fault comes before that of the release.
    Script {
        name: "no_dwellings_of_an_earlier_release",
        lines: b"a at 0 dwellings SEX\na at 1 dwellings SEX\ncustodian at 0 dwellings SEX\n\
            a at 0 table SEX\na dwellings at 0 SEX\n",
        replies: b"refused 2 Syntax 1\nrefused 2 Syntax 1\nrefused 2 Syntax 1\n\
            release 0\nSEX,count\n1,1\n2,2\n.\nrefused 2 Syntax 3\n",
    },
    // The last person of dwelling 1 leaves E1, and then both of dwelling 2 leave the microdata.
    Script {
        name: "the_last_person_leaves_a_place",
        lines: b"custodian amend 101 AREA=E2\ncustodian publish\na dwellings AREA with totals\n\
            custodian amend 102 AREA=E2\ncustodian publish\na dwellings AREA with totals\n\
            custodian drop 103\ncustodian drop 104\ncustodian publish\n\
            a dwellings AREA with totals\n",
        replies: b"held 1\npublished 1\nrelease 1\nAREA,count\nE1,1\nE2,2\nTotal,2\n.\n\
            held 1\npublished 2\nrelease 2\nAREA,count\nE1,0\nE2,2\nTotal,2\n.\n\
            held 1\nheld 2\npublished 3\nrelease 3\nAREA,count\nE1,0\nE2,1\nTotal,1\n.\n",
    },
    // What is held isn't published yet, and a refused batch changes nothing.
    Script {
        name: "edits_that_are_held",
        lines: b"custodian drop 101\ncustodian drop 102\ncustodian dwellings SEX\n\
            custodian drop 999\ncustodian publish\na dwellings SEX\n",
        replies: b"held 1\nheld 2\nrelease 0\nSEX,count\n1,2\n2,1\n.\nheld 3\n\
            refused batch 3 2 NoSuchPerson\nrelease 0\nSEX,count\n1,2\n2,1\n.\n",
    },
    // Two dwellings have the cell key 110: 2 + 3 = 5, and one is below the threshold.
    Script {
        name: "rules_by_publication",
        lines: b"custodian pvalue 2 110 3\ncustodian threshold 2\ncustodian publish\n\
            a dwellings SEX with totals\n",
        replies: b"held 1\nheld 2\npublished 1\nrelease 1\nSEX,count\n1,5\n2,c\nTotal,5\n.\n",
    },
    Script {
        name: "no_cube_is_kept",
        lines: b"a dwellings SEX\na dwellings SEX\ncustodian stats\n",
        replies: b"release 0\nSEX,count\n1,2\n2,1\n.\nrelease 0\nSEX,count\n1,2\n2,1\n.\n\
            stats release 0 looks 0 hits 0 entries 0 capacity 64\n",
    },
];

const TOTALS: &[u8] = b"a dwellings SEX with totals\n";

const FOUND: &[u8] = b"release 0\nSEX,count\n1,1\n2,0\nTotal,1\n.\n";

const NONE: &[u8] = b"release 0\nSEX,count\n1,0\n2,0\nTotal,0\n.\n";

// Perturbation tables of one pvalue, for two dwellings and for three.
const WITH_KEY_27: &[u8] = b"pcv,ckey,pvalue\n2,27,-1\n";

const WITH_KEY_320: &[u8] = b"pcv,ckey,pvalue\n3,64,-2\n3,320,-1\n";

// Three dwellings, whose keys add up to 4,416, which is 4,096 + 320.
const WIDE_DWELLINGS: &[u8] = b"dwelling,dwelling_key\n1,4000\n2,400\n3,16\n";

// Of the two files other than the small ones.
static RUNS: [Over; 18] = [
    // One dwelling whose persons are in each category.
    (
        "each_category_has_the_dwelling",
        WITH_UNITS,
        &[
            ("dwellings", b"dwelling,dwelling_key\n7,9\n"),
            ("links", b"person,dwelling\n104,7\n101,7\n103,7\n102,7\n"),
            (
                "script",
                b"a dwellings AGE with totals\na dwellings SEX with totals\n",
            ),
        ],
        0,
        b"release 0\nAGE,count\n0-15,1\n16-64,1\n65+,1\nTotal,1\n.\n\
        release 0\nSEX,count\n1,1\n2,1\nTotal,1\n.\n",
    ),
    // Three persons without a link, two links without a person, of whom one comes, and a dwelling
    // without links.
    (
        "what_has_no_other_side",
        WITH_UNITS,
        &[
            (
                "dwellings",
                b"dwelling,dwelling_key\n1,50\n2,60\n3,70\n4,80\n",
            ),
            ("links", b"person,dwelling\n103,2\n999,3\n998,1\n"),
            (
                "script",
                b"a dwellings SEX with totals\ncustodian add 999 5 SEX=2 AGE=65+ AREA=E1\n\
                custodian publish\na dwellings SEX with totals\n",
            ),
        ],
        0,
        b"release 0\nSEX,count\n1,1\n2,0\nTotal,1\n.\nheld 1\npublished 1\n\
        release 1\nSEX,count\n1,1\n2,1\nTotal,2\n.\n",
    ),
    (
        "no_links",
        WITH_UNITS,
        &[("links", b"person,dwelling\n"), ("script", TOTALS)],
        0,
        NONE,
    ),
    (
        "no_dwellings",
        WITH_UNITS,
        &[
            ("dwellings", b"dwelling,dwelling_key\n"),
            ("links", b"person,dwelling\n"),
            ("script", TOTALS),
        ],
        0,
        NONE,
    ),
    (
        "nobody",
        WITH_UNITS,
        &[
            ("people", b"person,record_key,SEX,AGE,AREA\n"),
            ("script", TOTALS),
        ],
        0,
        NONE,
    ),
    (
        "without_recodes",
        "units classes - ptable people 0 dwellings links script",
        &[("script", TOTALS)],
        0,
        b"release 0\nSEX,count\n1,2\n2,1\nTotal,2\n.\n",
    ),
    (
        "threshold_on_shown_count",
        "units classes recodes ptable people 2 dwellings links script",
        &[("script", TOTALS)],
        0,
        b"release 0\nSEX,count\n1,2\n2,c\nTotal,2\n.\n",
    ),
    // 200 + 83 = 283, which is 256 + 27: one less is shown of the two.
    (
        "a_cell_key_of_dwellings",
        WITH_UNITS,
        &[
            ("ptable", WITH_KEY_27),
            ("dwellings", b"dwelling,dwelling_key\n1,200\n2,83\n"),
            ("script", TOTALS),
        ],
        0,
        b"release 0\nSEX,count\n1,1\n2,1\nTotal,1\n.\n",
    ),
    (
        "key_range_of_the_classification",
        WITH_UNITS,
        &[
            ("classes", WIDE_CLASSES),
            ("ptable", WITH_KEY_320),
            ("dwellings", WIDE_DWELLINGS),
            ("links", b"person,dwelling\n101,1\n102,2\n103,3\n104,3\n"),
            ("script", TOTALS),
        ],
        0,
        b"release 0\nSEX,count\n1,2\n2,1\nTotal,2\n.\n",
    ),
    (
        "key_range_of_the_classification",
        WITH_UNITS,
        &[("dwellings", WIDE_DWELLINGS)],
        13,
        b"fault dwellings 3 BadKey 1\n",
    ),
    (
        "any_accepted_spelling",
        WITH_UNITS,
        &[
            (
                "dwellings",
                b"\xEF\xBB\xBFnote,dwelling_key,dwelling\r\nx,050,\"02\"\r\n\"a, b\",60,1\r\n",
            ),
            ("links", b"dwelling,floor,person\n\n02,,0103\n\"2\",x,999"),
            ("script", TOTALS),
        ],
        0,
        FOUND,
    ),
    // Other commands have no dwellings: a line that asks for them is a query as it stands.
    (
        "without_the_files",
        "script classes - ptable people 0 script",
        &[("script", b"a dwellings SEX\ncustodian dwellings SEX\n")],
        0,
        b"refused 2 Syntax 1\nrefused 2 Syntax 1\n",
    ),
    (
        "without_the_files",
        "script classes - ptable people 0 script",
        &[("script", b"a dwellings \xC3\n")],
        0,
        b"refused 1 NotText 11\n",
    ),
    (
        "without_the_files",
        "lanes classes - ptable people 0 script",
        &[("script", b"a dwellings SEX\n")],
        0,
        b"phase 1\nlane a\nrefused 2 Syntax 1\n",
    ),
    (
        "without_the_files",
        "follow classes - ptable people 0 script",
        &[("script", b"a dwellings SEX\n")],
        0,
        b"refused 2 Syntax 1\n",
    ),
    // A script is answered as without dwellings, and its lines must be lines.
    (
        "one_variable",
        WITH_UNITS,
        &[],
        0,
        b"release 0\nSEX,count\n1,1\n2,2\n.\n",
    ),
    (
        "a_bad_line",
        WITH_UNITS,
        &[("script", b"a dwellings SEX\ndwellings\n")],
        6,
        b"fault script 2\n",
    ),
    (
        "no_lines",
        WITH_UNITS,
        &[("script", b"#a dwellings SEX\n--\n")],
        0,
        b"",
    ),
];

// Files that are refused, with the bytes of the dwellings and of the links, and the line that is
// written. The dwellings are tested wholly before the links, and both before the script.
type Refused = (&'static [u8], &'static [u8], &'static [u8]);

static REFUSED: [Refused; 24] = [
    // Each kind alone.
    (
        b"dwelling,key\n1,50\n",
        LINKS,
        b"fault dwellings 1 BadHeader 0\n",
    ),
    (
        b"dwelling,dwelling_key\n1,50\n2\n",
        LINKS,
        b"fault dwellings 8 BadCsv 2\n",
    ),
    (
        b"dwelling,dwelling_key\n0,50\n2,60\n",
        LINKS,
        b"fault dwellings 2 BadDwelling 1\n",
    ),
    (
        b"dwelling,dwelling_key\n1,50\n2,256\n",
        LINKS,
        b"fault dwellings 3 BadKey 2\n",
    ),
    (
        b"dwelling,dwelling_key\n1,50\n2,60\n1,50\n",
        LINKS,
        b"fault dwellings 4 DwellingTwice 3\n",
    ),
    (
        DWELLINGS,
        b"person,dwelling,person\n101,1,101\n",
        b"fault links 1 BadHeader 0\n",
    ),
    (
        DWELLINGS,
        b"person,dwelling\n101,1\n102,1,\n",
        b"fault links 8 BadCsv 2\n",
    ),
    (
        DWELLINGS,
        b"person,dwelling\n0,1\n",
        b"fault links 7 BadPerson 1\n",
    ),
    (
        DWELLINGS,
        b"person,dwelling\n101,1\n102,-\n",
        b"fault links 2 BadDwelling 2\n",
    ),
    (
        DWELLINGS,
        b"person,dwelling\n101,1\n102,1\n103,2\n104,3\n",
        b"fault links 5 UnknownDwelling 4\n",
    ),
    (
        DWELLINGS,
        b"person,dwelling\n101,1\n102,1\n101,1\n",
        b"fault links 6 PersonTwice 3\n",
    ),
    // Two in a record.
    (
        b"dwelling,dwelling_key\n0,50,\n",
        LINKS,
        b"fault dwellings 8 BadCsv 1\n",
    ),
    (
        b"dwelling,dwelling_key\n0,256\n",
        LINKS,
        b"fault dwellings 2 BadDwelling 1\n",
    ),
    (
        b"dwelling,dwelling_key\n1,50\n1,256\n",
        LINKS,
        b"fault dwellings 3 BadKey 2\n",
    ),
    (
        DWELLINGS,
        b"person,dwelling\n0,1,\n",
        b"fault links 8 BadCsv 1\n",
    ),
    (
        DWELLINGS,
        b"person,dwelling\n0,0\n",
        b"fault links 7 BadPerson 1\n",
    ),
    (
        DWELLINGS,
        b"person,dwelling\n101,1\n101,0\n",
        b"fault links 2 BadDwelling 2\n",
    ),
    (
        DWELLINGS,
        b"person,dwelling\n101,1\n101,3\n",
        b"fault links 5 UnknownDwelling 2\n",
    ),
    // Two in a file.
    (
        b"dwelling,dwelling_key\n1,50\n1,50\n0,50\n",
        LINKS,
        b"fault dwellings 4 DwellingTwice 2\n",
    ),
    (
        DWELLINGS,
        b"person,dwelling\n101,1\n101,2\n102\n",
        b"fault links 6 PersonTwice 2\n",
    ),
    // One in each.
    (
        b"dwelling,dwelling_key\n1,50\n2,60\n2,60\n",
        b"",
        b"fault dwellings 4 DwellingTwice 3\n",
    ),
    (b"", b"", b"fault dwellings 1 BadHeader 0\n"),
    (DWELLINGS, b"", b"fault links 1 BadHeader 0\n"),
    (LINKS, DWELLINGS, b"fault dwellings 1 BadHeader 0\n"),
];

fn scripts() -> &'static [Script] {
    &SCRIPTS
}

fn runs() -> &'static [Over] {
    &RUNS
}

fn refused() -> &'static [Refused] {
    &REFUSED
}

// The place of the first row of which a run over its two files, and over a script with a bad line,
// isn't so.
fn wrong_refusal(
    rt: &(impl Threads + Wait + Sync + Eprint),
    alloc: Global,
) -> Result<Option<usize>, Memory> {
    for (i, (dwellings, links, line)) in refused().iter().enumerate() {
        let others = [
            ("dwellings", *dwellings),
            ("links", *links),
            ("script", b"!x\n".as_slice()),
        ];
        let run = Run {
            arguments: WITH_UNITS,
            others: &others,
            fails: &[],
            bound: 100,
            status: 13,
            text: line,
        };
        if !is_so(rt, alloc, &run)? {
            return Ok(Some(i));
        }
    }
    Ok(None)
}

#[test]
fn scripts_of_dwellings(rt: HostRuntime) -> Result<(), Fail> {
    for script in scripts() {
        let is = is_replied(&rt, rt.alloc(), WITH_UNITS, script)?;
        assert!(rt; is, "{}", script.name);
    }
    Ok(())
}

#[test]
fn runs_of_dwellings(rt: HostRuntime) -> Result<(), Fail> {
    for over in runs() {
        assert!(rt; is_worked(&rt, rt.alloc(), over)?, "{}: {}", over.0, over.1);
    }
    Ok(())
}

#[test]
fn refused_dwellings_and_links(rt: HostRuntime) -> Result<(), Fail> {
    assert_eq!(rt; wrong_refusal(&rt, rt.alloc())?, None);
    Ok(())
}
