// Worked scripts over the small setup with its recodes that a follower answers.

use super::scripts::{Script, is_replied};
use std::test::Fail;

const ARGUMENTS: &str = "follow classes recodes ptable people 0 script";

static SCRIPTS: [Script; 3] = [
    // The second message waits for the first.
    Script {
        name: "messages_in_another_order",
        lines: b"leader begin 2\nleader add 105 30 SEX=2 AGE=0-15 AREA=E2\nleader end\n\
            a table SEX\nleader begin 1\nleader drop 104\nleader end\na table SEX\n",
        replies: b"begun 2\nheld 1\nkept 0\nrelease 0\nSEX,count\n1,1\n2,2\n.\n\
            begun 1\nheld 1\nat 2\nrelease 2\nSEX,count\n1,1\n2,1\n.\n",
    },
    // After the same lines a message comes again, one is as far ahead as may wait, and the next
    // isn't kept; then the follower begins anew.
    Script {
        name: "old_and_far_messages",
        lines: b"leader begin 2\nleader add 105 30 SEX=2 AGE=0-15 AREA=E2\nleader end\n\
            a table SEX\nleader begin 1\nleader drop 104\nleader end\na table SEX\n\
            leader begin 1\nleader drop 104\nleader end\n\
            leader begin 66\nleader drop 101\nleader end\n\
            leader begin 67\nleader drop 101\nleader end\nleader end\n\
            leader restart\na table SEX\n",
        replies: b"begun 2\nheld 1\nkept 0\nrelease 0\nSEX,count\n1,1\n2,2\n.\n\
            begun 1\nheld 1\nat 2\nrelease 2\nSEX,count\n1,1\n2,1\n.\n\
            begun 1\nheld 1\nold 2\nbegun 66\nheld 1\nkept 2\nbegun 67\nheld 1\nfar 2\n\
            refused leader\nrestarted\nrelease 0\nSEX,count\n1,1\n2,2\n.\n",
    },
    // Each other lane asks, the custodian's too.
    Script {
        name: "lanes_that_ask",
        lines: b"custodian drop 104\ncustodian publish\ncustodian table AGE2 with totals\n\
            a begin 1\na stats\na #table SEX\n--\nb table FOO\n",
        replies: b"refused 2 Syntax 1\nrefused 2 Syntax 1\n\
            release 0\nAGE2,count\nyoung,1\nold,6\nTotal,6\n.\n\
            refused 2 Syntax 1\nrefused 2 Syntax 1\nrefused 3 UnknownName 2\n",
    },
];

fn scripts() -> &'static [Script] {
    &SCRIPTS
}

#[test]
fn scripts_of_a_follower(rt: HostRuntime) -> Result<(), Fail> {
    for script in scripts() {
        let is = is_replied(&rt, rt.alloc(), ARGUMENTS, script)?;
        assert!(rt; is, "{}", script.name);
    }
    Ok(())
}
