// Lists of arguments at each edge of what is a command.

use std::alloc::Global;
use std::test::Fail;
use tb_base::Memory;
use tb_command::read_command;
use tb_small_runs::words_of;

// Arguments, which one blank parts, and whether they are a command's.
type Row = (&'static str, bool);

static ROWS: [Row; 137] = [
    ("", false),
    ("help", false),
    ("help script", false),
    ("--help", false),
    ("Script classes - ptable people 0 script", false),
    ("script", false),
    ("script classes - ptable people 0", false),
    ("script classes - ptable people 0 script", true),
    ("script classes - ptable people 0 script script", false),
    (" classes - ptable people 0 script", false),
    ("script  - ptable people 0 script", false),
    ("script classes  ptable people 0 script", false),
    ("script classes -  people 0 script", false),
    ("script classes - ptable  0 script", false),
    ("script classes - ptable people  script", false),
    ("script classes - ptable people 0 ", false),
    ("script -x - ptable people 0 script", false),
    ("script classes -x ptable people 0 script", false),
    ("script classes - -x people 0 script", false),
    ("script classes - ptable -x 0 script", false),
    ("script classes - ptable people -1 script", false),
    ("script classes - ptable people 0 -x", false),
    ("script -- - ptable people 0 script", false),
    ("script classes -- ptable people 0 script", false),
    ("script - - ptable people 0 script", false),
    ("script classes - - people 0 script", false),
    ("script classes - ptable - 0 script", false),
    ("script classes - ptable people - script", false),
    ("script classes - ptable people 0 -", false),
    ("script -- classes - ptable people 0 script", false),
    ("-- script classes - ptable people 0 script", false),
    ("script classes - ptable people 1000000 script", true),
    ("script classes - ptable people 1000001 script", false),
    ("script classes - ptable people 0001000000 script", true),
    ("script classes - ptable people 00001000000 script", false),
    ("script classes - ptable people +1 script", false),
    ("script classes - ptable people 1x script", false),
    ("script classes none ptable people 0 script", true),
    ("script help script gen serve 0 help", true),
    ("script a- b- c- d- 0 e-", true),
    ("lanes classes - ptable people 0", false),
    ("lanes classes - ptable people 0 script", true),
    ("lanes classes - ptable people 0 script script", false),
    ("lanes classes - ptable people 1000001 script", false),
    ("lanes classes - ptable people 0 -x", false),
    ("keep classes - ptable people 0 script", false),
    ("keep classes - ptable people 0 journal script", true),
    (
        "keep classes - ptable people 0 journal script script",
        false,
    ),
    ("keep classes - ptable people 0  script", false),
    ("keep classes - ptable people 0 journal ", false),
    ("keep classes - ptable people 0 - script", false),
    ("keep classes - ptable people 0 journal -x", false),
    ("keep classes - ptable people 1000001 journal script", false),
    ("follow classes - ptable people 0", false),
    ("follow classes - ptable people 0 script", true),
    ("follow classes - ptable people 0 script script", false),
    ("follow classes - ptable people 1000001 script", false),
    ("follow classes - ptable people 0 -x", false),
    ("units classes - ptable people 0 dwellings script", false),
    ("units classes - ptable people 0 dwellings links", false),
    (
        "units classes - ptable people 0 dwellings links script",
        true,
    ),
    ("units classes none ptable people 0 links a script", true),
    ("units units - script help 0 gen serve units", true),
    (
        "units classes - ptable people 0 dwellings links script script",
        false,
    ),
    ("units classes - ptable people 0  links script", false),
    ("units classes - ptable people 0 dwellings  script", false),
    ("units classes - ptable people 0 dwellings links ", false),
    ("units classes - ptable people 0 - links script", false),
    ("units classes - ptable people 0 dwellings - script", false),
    ("units classes - ptable people 0 -x links script", false),
    ("units classes - ptable people 0 dwellings -x script", false),
    ("units classes - ptable people 0 dwellings links -x", false),
    (
        "units classes -x ptable people 0 dwellings links script",
        false,
    ),
    (
        "units classes - ptable people 1000000 dwellings links script",
        true,
    ),
    (
        "units classes - ptable people 1000001 dwellings links script",
        false,
    ),
    (
        "script classes - ptable people 0 dwellings links script",
        false,
    ),
    ("mirror classes - ptable people 0 - - 5000 1", false),
    ("mirror classes - ptable people 0 - - 5000 1 1", true),
    ("mirror classes - ptable people 0 - - 5000 1 1 1", false),
    (
        "mirror classes - ptable people 0 - - journal 5000 1 1",
        false,
    ),
    ("mirror classes - ptable people 0 - - 65533 1 1", true),
    ("mirror classes - ptable people 0 - - 65534 1 1", false),
    ("mirror classes - ptable people 0 - - 5000 1024 1", true),
    ("mirror classes - ptable people 0 - - 5000 1025 1", false),
    ("mirror classes - ptable people 0 - - 5000 0 1", false),
    ("mirror classes - ptable people 0 - - 5000 1 0", false),
    (
        "mirror classes - ptable people 0 dwellings links 5000 1 1",
        true,
    ),
    ("mirror classes - ptable people 0 - links 5000 1 1", false),
    (
        "mirror classes - ptable people 0 dwellings - 5000 1 1",
        false,
    ),
    ("mirror classes - ptable people 0 5000 1 1", false),
    ("host classes - ptable people 0 - - journal 5000 1 1", true),
    (
        "host classes - ptable people 0 - - journal 65533 1024 1000000",
        true,
    ),
    (
        "host classes - ptable people 0 - - journal 65534 1 1",
        false,
    ),
    (
        "host classes - ptable people 0 - - journal 5000 1025 1",
        false,
    ),
    (
        "host classes - ptable people 0 dwellings links journal 5000 1 1",
        true,
    ),
    (
        "host classes - ptable people 0 - links journal 5000 1 1",
        false,
    ),
    (
        "host classes - ptable people 0 dwellings - journal 5000 1 1",
        false,
    ),
    (
        "host classes - ptable people 0 dwellings links - 5000 1 1",
        false,
    ),
    ("host classes - ptable people 0 journal 5000 1 1", false),
    ("serve classes - ptable people 0 5000 1", false),
    ("serve classes - ptable people 0 5000 1 1", true),
    ("serve classes - ptable people 0 5000 1 1 1", false),
    ("serve classes - ptable people 0  1 1", false),
    ("serve classes - ptable people 0 5000  1", false),
    ("serve classes - ptable people 0 5000 1 ", false),
    ("serve classes - ptable people 0 -x 1 1", false),
    ("serve classes - ptable people 0 5000 -- 1", false),
    ("serve classes - ptable people 0 0 1 1", false),
    ("serve classes - ptable people 0 1 1 1", true),
    ("serve classes - ptable people 0 65519 1 1", true),
    ("serve classes - ptable people 0 65520 1 1", false),
    ("serve classes - ptable people 0 5000 0 1", false),
    ("serve classes - ptable people 0 5000 16 1", true),
    ("serve classes - ptable people 0 5000 17 1", false),
    ("serve classes - ptable people 0 5000 1 0", false),
    ("serve classes - ptable people 0 5000 1 1000000", true),
    ("serve classes - ptable people 0 5000 1 1000001", false),
    ("serve classes - ptable people 0 0000005000 1 1", true),
    ("serve classes - ptable people 0 00000005000 1 1", false),
    ("gen", false),
    ("gen 1", false),
    ("gen 1 1", true),
    ("gen 1 1 1", false),
    ("gen  1", false),
    ("gen 1 ", false),
    ("gen -1 1", false),
    ("gen 1 -1", false),
    ("gen 1 --", false),
    ("gen 0 1", false),
    ("gen 1000000 1", true),
    ("gen 1000001 1", false),
    ("gen 1 0", true),
    ("gen 1 4294967295", true),
    ("gen 1 4294967296", false),
    ("gen 0000000001 0000000001", true),
    ("gen 00000000001 1", false),
    ("gen 1 00000000001", false),
];

fn rows() -> &'static [Row] {
    &ROWS
}

fn are_commands(alloc: Global, arguments: &str) -> Result<bool, Memory> {
    let words = words_of(alloc, arguments)?;
    Ok(read_command(&words).is_some())
}

#[test]
fn arguments_at_each_edge(rt: HostRuntime) -> Result<(), Fail> {
    for (arguments, wanted) in rows() {
        let are = are_commands(rt.alloc(), arguments)?;
        assert_eq!(rt; are, *wanted, "{arguments}");
    }
    Ok(())
}
