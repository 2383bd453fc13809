// The command `mirror`: what the sessions of its first port are told, one after another.

ghost use Rattle.std.specs.Prelude.{All, IfOk};
ghost use Rattle.tb_serve.specs.Stages.{IsFresh};

use super::command::ends_so;
use super::ports::{PORTS, add_port, add_sessions, fill, is_told};
use std::alloc::Global;
use std::sync::Wait;
use std::test::Fail;
use std::thread::Threads;
use tb_base::{Memory, Status};
use tb_io::MemListen;
use tb_serve::Port;

// One worker, and two sessions at each port.
const COMMAND: &str = "mirror classes recodes ptable people 0 - - 5000 1 2";

// As many bytes as a session here has of replies, and more.
const ALL: usize = 400;

// What a run shows; the lines of the first port's sessions and what they are told, parted by `|`;
// how many bytes each of their sinks takes, and what is written.
type Row = (
    &'static str,
    &'static str,
    &'static str,
    usize,
    &'static [u8],
);

static ROWS: [Row; 5] = [
    // What waits stays from session to session; a message that isn't ended goes with its own.
    (
        "a_window_that_stays",
        "begin 2\nadd 105 30 SEX=2 AGE=0-15 AREA=E2\nend\nbegin 1\ndrop 104\n\
            |end\nwhere\nbegin 1\ndrop 104\nend\n",
        "begun 2\nheld 1\nkept 0\nbegun 1\nheld 1\n\
            |refused leader\nat 0\nbegun 1\nheld 1\nat 2\n",
        ALL,
        b"port 5000 sessions 2\nport 5001 sessions 1\nrelease 2\n",
    ),
    (
        "lines_of_a_custodian",
        "publish\ntable SEX\nrestart\nend\ndescribe\ncache 3\nclear\nstats\n \n# x\nwhere x\n\
            quit\nwhere\n",
        "refused leader\nrefused leader\nrefused leader\nrefused leader\nrefused leader\ncache 3\ncleared\n\
            stats release 0 looks 0 hits 0 entries 0 capacity 3\nrefused leader\n",
        ALL,
        b"port 5000 sessions 1\nport 5001 sessions 1\nrelease 0\n",
    ),
    // At release 1 as far ahead as may wait is 65; and there is no person 999.
    (
        "old_far_and_refused",
        "begin 1\ndrop 104\nend\nbegin 1\ndrop 104\nend\nbegin 65\ndrop 101\nend\n\
            begin 66\ndrop 101\nend\nbegin 2\ndrop 999\nend\nwhere\n",
        "begun 1\nheld 1\nat 1\nbegun 1\nheld 1\nold 1\nbegun 65\nheld 1\nkept 1\n\
            begun 66\nheld 1\nfar 1\nbegun 2\nheld 1\nrefused batch 1 2 NoSuchPerson\nat 1\n",
        ALL,
        b"port 5000 sessions 1\nport 5001 sessions 1\nrelease 1\n",
    ),
    // The reply to `end` is cut, and the next session is at its release.
    (
        "an_end_whose_reply_is_cut",
        "begin 1\ndrop 104\nend\n|where\n",
        "begun 1\nheld 1\na|at 1\n",
        16,
        b"port 5000 sessions 2\nport 5001 sessions 1\nrelease 1\n",
    ),
    // What a page in a browser sends leads the mirror nowhere, and the next session is served.
    (
        "a_foreign_line",
        "POST / HTTP/1.1\r\n\r\nbegin 1\ndrop 104\nend\n|where\n",
        "|at 0\n",
        ALL,
        b"port 5000 sessions 2\nport 5001 sessions 1\nrelease 0\n",
    ),
];

fn rows() -> &'static [Row] {
    &ROWS
}

// The first port with sessions of these lines, an analyst's with one of none, and after them, as
// many as a command has, those to which no session is to come.
fn ports(alloc: Global, lines: &str, bound: usize) -> Result<Vec<Port<MemListen>>, Memory>
    ensures { IfOk result (λ net. All IsFresh net.items) }
{
    let mut net = Vec::new(alloc);
    add_sessions(alloc, &mut net, lines, bound, 0)?;
    add_sessions(alloc, &mut net, "", ALL, 0)?;
    fill(alloc, &mut net, b"", 0, PORTS)?;
    Ok(net)
}

// Whether the run of a row is done, with the right replies.
fn is_so<R: Threads + Wait + Sync + Eprint>(
    rt: &R,
    alloc: Global,
    row: &Row,
) -> Result<bool, Memory> {
    let (_, lines, told, bound, text) = row;
    let mut net = ports(alloc, lines, *bound)?;
    Ok(ends_so(rt, alloc, COMMAND, &mut net, Status::Done, text) && is_told(rt, &net, 0, told))
}

// The first port with no session, and an analyst's with one: its bind fails, or its first accept.
fn failing(alloc: Global, bind_fails: bool, fails: u32) -> Result<Vec<Port<MemListen>>, Memory>
    ensures { IfOk result (λ net. All IsFresh net.items) }
{
    let mut net = Vec::new(alloc);
    add_port(alloc, &mut net, b"", 0, false, &[])?;
    add_port(alloc, &mut net, b"table SEX\n", 1, bind_fails, &[fails])?;
    fill(alloc, &mut net, b"", 0, PORTS)?;
    Ok(net)
}

// Whether the run ends by that fault, and writes this.
fn is_net_fault<R: Threads + Wait + Sync + Eprint>(
    rt: &R,
    alloc: Global,
    bind_fails: bool,
    fails: u32,
    text: &[u8],
) -> Result<bool, Memory> {
    let mut net = failing(alloc, bind_fails, fails)?;
    Ok(ends_so(rt, alloc, COMMAND, &mut net, Status::NetFault, text))
}

#[test]
fn a_port_of_a_mirror_fails(rt: HostRuntime) -> Result<(), Fail> {
    assert!(&rt; is_net_fault(&rt, rt.alloc(), true, 0, b"fault net\n")?);
    let text = b"port 5000 sessions 0\nport 5001 sessions 0\nrelease 0\nfault net\n";
    assert!(&rt; is_net_fault(&rt, rt.alloc(), false, 1, text)?);
    Ok(())
}

#[test]
fn sessions_of_a_mirror(rt: HostRuntime) -> Result<(), Fail> {
    for row in rows() {
        assert!(&rt; is_so(&rt, rt.alloc(), row)?, "{}", row.0);
    }
    Ok(())
}
