// Worked scripts over the small setup with its recodes.

use super::running::{Run, WITH_RECODES, is_so};
use std::alloc::Global;
use std::sync::Wait;
use std::test::Fail;
use std::thread::Threads;
use tb_base::Memory;

// What a script shows, its bytes, and the replies.
pub struct Script {
    pub name: &'static str,
    pub lines: &'static [u8],
    pub replies: &'static [u8],
}

static SCRIPTS: [Script; 22] = [
    Script {
        name: "totals_are_cells_of_their_own",
        lines: b"a table SEX with totals\n",
        replies: b"release 0\nSEX,count\n1,1\n2,2\nTotal,6\n.\n",
    },
    Script {
        name: "same_records_three_ways",
        lines: b"a table AGE2\na table AREA where AGE2 in (old) with totals\n\
            a table SEX where AGE not in (0-15) with totals\n",
        replies: b"release 0\nAGE2,count\nyoung,1\nold,6\n.\n\
            release 0\nAREA,count\nE1,1\nE2,1\nTotal,6\n.\n\
            release 0\nSEX,count\n1,2\n2,2\nTotal,6\n.\n",
    },
    Script {
        name: "query_refusals",
        lines: b"a table AGE by AGE\na table AGE by\na table AGE by FOO where SEX in (9)\n\
            a table AGE where SEX in (9)\na table AGE;\na table \xC3\na publish\n",
        replies: b"refused 5 RepeatedDimension 4\nrefused 2 Syntax 4\nrefused 3 UnknownName 4\n\
            refused 4 UnknownCode 7\nrefused 2 Syntax 3\nrefused 1 NotText 7\nrefused 2 Syntax 1\n",
    },
    Script {
        name: "canonical_query",
        lines: b"a\ttable  AREA by SEX where AGE not in(65+,0-15)\t\n",
        replies: b"release 0\nAREA,SEX,count\nE1,1,1\nE1,2,0\nE2,1,0\nE2,2,2\n.\n",
    },
    Script {
        name: "labels_with_commas",
        lines: b"a table AREA by SEX with totals with labels\n",
        replies: b"release 0\nAREA,SEX,count\n\"North, rural\",Male,2\n\
            \"North, rural\",Female,0\n\"North, rural\",Total,2\nSouth,Male,1\nSouth,Female,2\n\
            South,Total,1\nTotal,Male,1\nTotal,Female,2\nTotal,Total,6\n.\n",
    },
    Script {
        name: "lines_without_reply",
        lines: b"# a comment\n\na \ttable  SEX\t\n--\n \t\nb #table SEX",
        replies: b"release 0\nSEX,count\n1,1\n2,2\n.\n",
    },
    Script {
        name: "returning_person",
        lines: b"custodian add 200 9 SEX=1 AGE=65+ AREA=E1\ncustodian amend 200 AGE=0-15\n\
            custodian drop 200\ncustodian publish\na table SEX\n\
            custodian add 200 10 SEX=1 AGE=65+ AREA=E1\ncustodian publish\n",
        replies: b"held 1\nheld 2\nheld 3\npublished 1\nrelease 1\nSEX,count\n1,1\n2,2\n.\n\
            held 1\nrefused batch 1 3 KeyChanged\n",
    },
    Script {
        name: "refused_batch",
        lines: b"custodian drop 101\ncustodian drop 102\ncustodian drop 999\ncustodian publish\n\
            a table SEX\ncustodian publish\n",
        replies: b"held 1\nheld 2\nheld 3\nrefused batch 3 2 NoSuchPerson\n\
            release 0\nSEX,count\n1,1\n2,2\n.\nrefused batch 0 5 Nothing\n",
    },
    Script {
        name: "edit_refusals",
        lines: b"custodian add 300 1 SEX=1\ncustodian amend 101 AGE=7\n\
            custodian drop 4294967296\ncustodian publish\n",
        replies: b"refused edit 6 Missing\nrefused edit 4 UnknownCode\n\
            refused edit 2 BadNumber\nrefused batch 0 5 Nothing\n",
    },
    Script {
        name: "rules_by_publication",
        lines: b"a table SEX\ncustodian pvalue 3 64 5\ncustodian threshold 3\ncustodian publish\n\
            a table SEX\n",
        replies: b"release 0\nSEX,count\n1,1\n2,2\n.\nheld 1\nheld 2\npublished 1\n\
            release 1\nSEX,count\n1,8\n2,c\n.\n",
    },
    Script {
        name: "rules_by_publication",
        lines: b"custodian pvalue 3 64 -4\ncustodian pvalue 0 0 0\ncustodian threshold 1000001\n\
            custodian publish\na threshold 3\na pvalue 3 64 5\n",
        replies: b"refused edit 2 BadNumber\nrefused edit 2 BadNumber\n\
            refused edit 2 BadNumber\nrefused batch 0 5 Nothing\n\
            refused 2 Syntax 1\nrefused 2 Syntax 1\n",
    },
    // The batch is refused for its second edit, so the first sets nothing.
    Script {
        name: "a_rule_edit_in_a_refused_batch",
        lines: b"custodian threshold 3\ncustodian drop 999\ncustodian pvalue 3 64 5\n\
            custodian publish\na table SEX\ncustodian publish\n",
        replies: b"held 1\nheld 2\nheld 3\nrefused batch 2 2 NoSuchPerson\n\
            release 0\nSEX,count\n1,1\n2,2\n.\nrefused batch 0 5 Nothing\n",
    },
    // The cube of release 0 serves the releases whose rules alone are others. At row 1 and cell key
    // 7 the file lists 1, and at row 3 and cell key 127 (102, 103, 104) 3; what was set last
    // stands.
    Script {
        name: "a_cube_over_other_rules",
        lines: b"a table SEX with totals\ncustodian pvalue 1 7 0\ncustodian pvalue 1 7 -1\n\
            custodian publish\na table SEX\ncustodian drop 101\ncustodian pvalue 1 7 0\n\
            custodian threshold 1\ncustodian publish\na table SEX with totals\n\
            custodian stats\n",
        replies: b"release 0\nSEX,count\n1,1\n2,2\nTotal,6\n.\nheld 1\nheld 2\n\
            published 1\nrelease 1\nSEX,count\n1,1\n2,0\n.\nheld 1\nheld 2\nheld 3\n\
            published 2\nrelease 2\nSEX,count\n1,2\n2,1\nTotal,6\n.\n\
            stats release 2 looks 3 hits 2 entries 1 capacity 64\n",
    },
    // Room for one cube: AREA takes the place of SEX; it is found at release 0, and at release 1,
    // one change behind; SEX is looked for and not found again.
    Script {
        name: "cache_and_price",
        lines: b"custodian cache 1\na table SEX\na table AREA\na table AREA\ncustodian drop 104\n\
            custodian publish\na table AREA\na table SEX\ncustodian stats\ncustodian clear\n\
            custodian stats\n",
        replies: b"cache 1\nrelease 0\nSEX,count\n1,1\n2,2\n.\nrelease 0\nAREA,count\nE1,2\n\
            E2,1\n.\nrelease 0\nAREA,count\nE1,2\nE2,1\n.\nheld 1\npublished 1\n\
            release 1\nAREA,count\nE1,2\nE2,1\n.\nrelease 1\nSEX,count\n1,1\n2,0\n.\n\
            stats release 1 looks 5 hits 2 entries 1 capacity 1\ncleared\n\
            stats release 1 looks 5 hits 2 entries 0 capacity 1\n",
    },
    // At release 3 SEX 1 has the keys 100 and 20, and SEX 2 the key 7.
    Script {
        name: "a_cube_three_releases_old",
        lines: b"a table SEX\ncustodian drop 104\ncustodian publish\n\
            custodian add 104 7 SEX=2 AGE=65+ AREA=E1\ncustodian publish\ncustodian drop 101\n\
            custodian publish\nb table SEX\ncustodian stats\nb table SEX\ncustodian stats\n",
        replies: b"release 0\nSEX,count\n1,1\n2,2\n.\nheld 1\npublished 1\nheld 1\npublished 2\n\
            held 1\npublished 3\nrelease 3\nSEX,count\n1,2\n2,2\n.\n\
            stats release 3 looks 2 hits 1 entries 1 capacity 64\n\
            release 3\nSEX,count\n1,2\n2,2\n.\n\
            stats release 3 looks 3 hits 2 entries 1 capacity 64\n",
    },
    // A filter's variable is in the set; the order of the variables and a recode of one are not.
    Script {
        name: "sets_of_variables",
        lines: b"a table SEX where AREA in (E2)\na table AREA by SEX\na table AGE2\na table AGE\n\
            custodian stats\n",
        replies: b"release 0\nSEX,count\n1,1\n2,2\n.\nrelease 0\nAREA,SEX,count\nE1,1,2\nE1,2,0\n\
            E2,1,1\nE2,2,2\n.\nrelease 0\nAGE2,count\nyoung,1\nold,6\n.\n\
            release 0\nAGE,count\n0-15,1\n16-64,2\n65+,1\n.\n\
            stats release 0 looks 4 hits 2 entries 2 capacity 64\n",
    },
    Script {
        name: "capacities",
        lines: b"custodian cache 256\ncustodian \t cache  1 \ncustodian cache 257\n\
            custodian cache 064\ncustodian cache 0\ncustodian cache\na cache 2\ncustodian stats\n",
        replies: b"cache 256\ncache 1\nrefused 2 Syntax 1\nrefused 2 Syntax 1\n\
            refused 2 Syntax 1\nrefused 2 Syntax 1\nrefused 2 Syntax 1\n\
            stats release 0 looks 0 hits 0 entries 0 capacity 1\n",
    },
    // SEX comes from the cube over AGE and SEX, and is kept beside it.
    Script {
        name: "a_wider_cube",
        lines: b"a table AGE by SEX\na table SEX\ncustodian stats\n",
        replies: b"release 0\nAGE,SEX,count\n0-15,1,1\n0-15,2,0\n16-64,1,1\n16-64,2,2\n\
            65+,1,1\n65+,2,0\n.\nrelease 0\nSEX,count\n1,1\n2,2\n.\n\
            stats release 0 looks 2 hits 1 entries 2 capacity 64\n",
    },
    // The cube over AREA and SEX is one release behind where SEX is made of it, and three where
    // AREA is: at release 3 E1 has the keys 100 and 7, and E2 the key 20.
    Script {
        name: "wider_cubes_that_are_behind",
        lines: b"a table AREA by SEX\ncustodian drop 104\ncustodian publish\na table SEX\n\
            custodian add 104 7 SEX=2 AGE=65+ AREA=E1\ncustodian publish\ncustodian drop 101\n\
            custodian publish\na table AREA\ncustodian stats\n",
        replies: b"release 0\nAREA,SEX,count\nE1,1,2\nE1,2,0\nE2,1,1\nE2,2,2\n.\nheld 1\n\
            published 1\nrelease 1\nSEX,count\n1,1\n2,0\n.\nheld 1\npublished 2\nheld 1\n\
            published 3\nrelease 3\nAREA,count\nE1,2\nE2,1\n.\n\
            stats release 3 looks 3 hits 2 entries 3 capacity 64\n",
    },
    // At release 1 three of twelve cells count a person, so their cube is packed: SEX is made of
    // it, it is found again, and at release 2 it is one batch behind.
    Script {
        name: "a_packed_cube",
        lines: b"custodian drop 104\ncustodian publish\na table AREA by AGE by SEX\na table SEX\n\
            a table AREA where AGE in (65+) and SEX in (1)\ncustodian drop 102\n\
            custodian publish\na table AREA where AGE in (16-64) and SEX in (1)\n\
            custodian stats\n",
        replies: b"held 1\npublished 1\nrelease 1\nAREA,AGE,SEX,count\nE1,0-15,1,1\nE1,0-15,2,0\n\
            E1,16-64,1,1\nE1,16-64,2,0\nE1,65+,1,0\nE1,65+,2,0\nE2,0-15,1,0\nE2,0-15,2,0\n\
            E2,16-64,1,0\nE2,16-64,2,0\nE2,65+,1,1\nE2,65+,2,0\n.\nrelease 1\nSEX,count\n\
            1,1\n2,0\n.\nrelease 1\nAREA,count\nE1,0\nE2,1\n.\nheld 1\npublished 2\n\
            release 2\nAREA,count\nE1,0\nE2,0\n.\n\
            stats release 2 looks 4 hits 3 entries 2 capacity 64\n",
    },
    // Of two wider cubes the more recent one is found for SEX, so the other has to go.
    Script {
        name: "the_first_of_two_wider_cubes",
        lines: b"custodian cache 2\na table AREA by SEX\na table AGE by SEX\na table SEX\n\
            a table AGE by SEX\na table AREA by SEX\ncustodian stats\n",
        replies: b"cache 2\nrelease 0\nAREA,SEX,count\nE1,1,2\nE1,2,0\nE2,1,1\nE2,2,2\n.\n\
            release 0\nAGE,SEX,count\n0-15,1,1\n0-15,2,0\n16-64,1,1\n16-64,2,2\n65+,1,1\n\
            65+,2,0\n.\nrelease 0\nSEX,count\n1,1\n2,2\n.\n\
            release 0\nAGE,SEX,count\n0-15,1,1\n0-15,2,0\n16-64,1,1\n16-64,2,2\n65+,1,1\n\
            65+,2,0\n.\nrelease 0\nAREA,SEX,count\nE1,1,2\nE1,2,0\nE2,1,1\nE2,2,2\n.\n\
            stats release 0 looks 5 hits 2 entries 2 capacity 2\n",
    },
    // The most recent ones stay.
    Script {
        name: "a_smaller_capacity",
        lines: b"a table SEX\na table AGE\na table AREA\na table SEX\ncustodian cache 2\n\
            a table AREA\na table SEX\na table AGE\ncustodian stats\n",
        replies: b"release 0\nSEX,count\n1,1\n2,2\n.\n\
            release 0\nAGE,count\n0-15,1\n16-64,2\n65+,1\n.\n\
            release 0\nAREA,count\nE1,2\nE2,1\n.\nrelease 0\nSEX,count\n1,1\n2,2\n.\ncache 2\n\
            release 0\nAREA,count\nE1,2\nE2,1\n.\nrelease 0\nSEX,count\n1,1\n2,2\n.\n\
            release 0\nAGE,count\n0-15,1\n16-64,2\n65+,1\n.\n\
            stats release 0 looks 7 hits 3 entries 2 capacity 2\n",
    },
];

fn scripts() -> &'static [Script] {
    &SCRIPTS
}

// Whether a run with these arguments over the script writes its replies.
pub fn is_replied(
    rt: &(impl Threads + Wait + Sync + Eprint),
    alloc: Global,
    arguments: &str,
    script: &Script,
) -> Result<bool, Memory> {
    let others = [("script", script.lines)];
    let run = Run {
        arguments,
        others: &others,
        fails: &[],
        bound: 700,
        status: 0,
        text: script.replies,
    };
    is_so(rt, alloc, &run)
}

#[test]
fn worked_scripts(rt: HostRuntime) -> Result<(), Fail> {
    for script in scripts() {
        let is = is_replied(&rt, rt.alloc(), WITH_RECODES, script)?;
        assert!(rt; is, "{}", script.name);
    }
    Ok(())
}
