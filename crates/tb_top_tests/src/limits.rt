// Worked runs over classifications that state how many persons there may be.

use super::running::WITHOUT_RECODES;
use super::runs::{Over, SEX, is_worked};
use std::test::Fail;

// The small classification with a limit of persons, before it or behind its categories.
const FOR_THREE: &[u8] =
    b"variable,code,label\n*,persons,3\nSEX,1,Male\nSEX,2,Female\nAGE,0-15,Under 16\n\
    AGE,16-64,Working age\nAGE,65+,65 and over\nAREA,E1,\"North, rural\"\nAREA,E2,South\n";

const FOR_FOUR: &[u8] =
    b"variable,code,label\n*,persons,4\nSEX,1,Male\nSEX,2,Female\nAGE,0-15,Under 16\n\
    AGE,16-64,Working age\nAGE,65+,65 and over\nAREA,E1,\"North, rural\"\nAREA,E2,South\n";

const FOR_FOUR_OF_256: &[u8] =
    b"variable,code,label\n*,keys,256\n*,persons,4\nSEX,1,Male\nSEX,2,Female\nAGE,0-15,Under 16\n\
    AGE,16-64,Working age\nAGE,65+,65 and over\nAREA,E1,\"North, rural\"\nAREA,E2,South\n";

const FOR_FOUR_AT_LAST: &[u8] =
    b"variable,code,label\nSEX,1,Male\nSEX,2,Female\nAGE,0-15,Under 16\n\
    AGE,16-64,Working age\nAGE,65+,65 and over\nAREA,E1,\"North, rural\"\nAREA,E2,South\n\
    *,persons,4\n";

// A person more than four is refused, and taken once another has gone.
const ONE_MORE: &[u8] = b"custodian add 105 1 SEX=1 AGE=65+ AREA=E1\ncustodian publish\n\
    custodian drop 104\ncustodian add 105 1 SEX=1 AGE=65+ AREA=E1\ncustodian publish\n";

const AT_THE_LIMIT: &[u8] = b"held 1\nrefused batch 1 4 TooMany\nheld 1\nheld 2\npublished 1\n";

static RUNS: [Over; 6] = [
    (
        "limit_of_the_classification",
        WITHOUT_RECODES,
        &[("classes", FOR_THREE)],
        5,
        b"fault people 7 TooMany 4\n",
    ),
    (
        "limit_of_the_classification",
        WITHOUT_RECODES,
        &[("classes", FOR_FOUR)],
        0,
        SEX,
    ),
    (
        "limit_of_the_classification",
        WITHOUT_RECODES,
        &[("classes", FOR_FOUR), ("script", ONE_MORE)],
        0,
        AT_THE_LIMIT,
    ),
    (
        "limit_of_the_classification",
        WITHOUT_RECODES,
        &[("classes", FOR_FOUR_OF_256), ("script", ONE_MORE)],
        0,
        AT_THE_LIMIT,
    ),
    (
        "limit_of_the_classification",
        WITHOUT_RECODES,
        &[("classes", FOR_FOUR_AT_LAST)],
        3,
        b"fault classes 14 BadPersons 8\n",
    ),
    (
        "limit_of_the_classification",
        "units classes - ptable people 0 dwellings links script",
        &[
            ("classes", FOR_FOUR),
            (
                "dwellings",
                b"dwelling,dwelling_key\n1,50\n2,60\n3,1\n4,1\n5,1\n",
            ),
            ("links", b"person,dwelling\n"),
        ],
        13,
        b"fault dwellings 9 TooMany 5\n",
    ),
];

fn runs() -> &'static [Over] {
    &RUNS
}

#[test]
fn runs_with_a_limit(rt: HostRuntime) -> Result<(), Fail> {
    for over in runs() {
        assert!(rt; is_worked(&rt, rt.alloc(), over)?, "{}: {}", over.0, over.1);
    }
    Ok(())
}
