// The command `host` over the file of a disk in memory: what its sessions are told, and what is
// left in the file.

ghost use Rattle.std.specs.Prelude.{◌≡◌, All, IfOk, false};
ghost use Rattle.tb_mem_disk.specs.HeldDisk.{HeldDisk};
ghost use Rattle.tb_serve.specs.Stages.{IsFresh};

use super::command::ends_over;
use super::ports::{PORTS, add_port, add_sessions, fill, is_told};
use std::alloc::Global;
use std::sync::Wait;
use std::test::Fail;
use std::thread::Threads;
use tb_base::{Memory, Status};
use tb_comparison::is_text;
use tb_io::MemListen;
use tb_mem_disk::MemDisk;
use tb_serve::Port;

// A journal without a batch, that of one which drops a person, and that of one which takes release
// 0 back.
const NO_BATCH: &[u8] = b"TBJOURN1\x00";

const ONE_BATCH: &[u8] = b"TBJOURN1\x01\x00\x00\x00\x09\x00\x00\x00\x01\x02\x00\x00\x00\x68\x00";

const TAKEN_BACK: &[u8] = b"TBJOURN1\x01\x00\x00\x00\x09\x00\x00\x00\x01\x06\x00\x00\x00\x01\x00";

// One worker, and one session at each port, or two.
const ONE: &str = "host classes recodes ptable people 0 - - journal 5000 1 1";

const TWO: &str = "host classes recodes ptable people 0 - - journal 5000 1 2";

// With dwellings.
const HOMES: &str = "host classes recodes ptable people 0 dwellings links journal 5000 1 1";

// As many bytes as a session here has of replies, and more.
const ALL: usize = 400;

// What a run shows, the bytes of the journal's file, and the command; the lines of the custodian's
// sessions, and of an analyst's, each with what they are told, parted by `|`; whether the disk's
// fourth sync fails, which of the custodian's accepts does (0 for none), and how many bytes each of
// the custodian's sinks takes; how the run ends, what is written, and the bytes that are left.
type Row = (
    &'static str,
    &'static [u8],
    &'static str,
    (&'static str, &'static str),
    (&'static str, &'static str),
    (bool, u32, usize),
    Status,
    &'static [u8],
    &'static [u8],
);

static ROWS: [Row; 13] = [
    (
        "host_recovers",
        b"",
        ONE,
        ("drop 104\npublish\n", "held 1\npublished 1\n"),
        ("", ""),
        (false, 0, ALL),
        Status::Done,
        b"port 5000 sessions 1\nport 5001 sessions 1\nrelease 1\n",
        ONE_BATCH,
    ),
    (
        "host_recovers",
        ONE_BATCH,
        ONE,
        ("", ""),
        ("table SEX\n", "release 1\nSEX,count\n1,1\n2,0\n.\n"),
        (false, 0, ALL),
        Status::Done,
        b"port 5000 sessions 1\nport 5001 sessions 1\nrelease 1\n",
        ONE_BATCH,
    ),
    // What was written before the sync that fails stands in the file.
    (
        "host_whose_disk_failed",
        b"",
        TWO,
        (
            "drop 104\npublish\n|drop 103\npublish\ntable SEX\n",
            "held 1\nunkept\n|held 1\nunkept\nrelease 0\nSEX,count\n1,1\n2,2\n.\n",
        ),
        ("table SEX\n", "release 0\nSEX,count\n1,1\n2,2\n.\n"),
        (true, 0, ALL),
        Status::DiskFault,
        b"port 5000 sessions 2\nport 5001 sessions 1\nrelease 0\nfault disk\n",
        ONE_BATCH,
    ),
    // The disk's fault goes before that of the accept.
    (
        "an_accept_fails_after_the_disk",
        b"",
        TWO,
        ("drop 104\npublish\n", "held 1\nunkept\n"),
        ("", ""),
        (true, 2, ALL),
        Status::DiskFault,
        b"port 5000 sessions 1\nport 5001 sessions 1\nrelease 0\nfault disk\n",
        ONE_BATCH,
    ),
    (
        "an_accept_fails",
        b"",
        TWO,
        ("drop 104\npublish\n", "held 1\npublished 1\n"),
        ("", ""),
        (false, 2, ALL),
        Status::NetFault,
        b"port 5000 sessions 1\nport 5001 sessions 1\nrelease 1\nfault net\n",
        ONE_BATCH,
    ),
    // The reply to `publish` is cut, and the next session is at its release.
    (
        "a_publication_whose_reply_is_cut",
        b"",
        TWO,
        ("drop 104\npublish\n|table SEX\n", "held 1\npu|release 1"),
        ("", ""),
        (false, 0, 9),
        Status::Done,
        b"port 5000 sessions 2\nport 5001 sessions 1\nrelease 1\n",
        ONE_BATCH,
    ),
    // Edits that are held go with their session.
    (
        "edits_that_were_held",
        b"",
        TWO,
        (
            "drop 104\n|publish\n",
            "held 1\n|refused batch 0 5 Nothing\n",
        ),
        ("table SEX\n", "release 0\nSEX,count\n1,1\n2,2\n.\n"),
        (false, 0, ALL),
        Status::Done,
        b"port 5000 sessions 2\nport 5001 sessions 1\nrelease 0\n",
        NO_BATCH,
    ),
    (
        "what_may_be_asked",
        ONE_BATCH,
        ONE,
        (
            "describe SEX\n",
            "describe SEX\ncode,label\n1,Male\n2,Female\n.\n",
        ),
        (
            "describe SEX\n",
            "describe SEX\ncode,label\n1,Male\n2,Female\n.\n",
        ),
        (false, 0, ALL),
        Status::Done,
        b"port 5000 sessions 1\nport 5001 sessions 1\nrelease 1\n",
        ONE_BATCH,
    ),
    // What a page in a browser sends comes to no edit, and the next session is served.
    (
        "a_foreign_line",
        b"",
        TWO,
        (
            "POST / HTTP/1.1\r\nHost: 127.0.0.1:5000\r\n\r\ndrop 104\npublish\n|table SEX\n",
            "|release 0\nSEX,count\n1,1\n2,2\n.\n",
        ),
        (
            "table SEX\nGET /table HTTP/1.0\ntable SEX\n",
            "release 0\nSEX,count\n1,1\n2,2\n.\n",
        ),
        (false, 0, ALL),
        Status::Done,
        b"port 5000 sessions 2\nport 5001 sessions 1\nrelease 0\n",
        NO_BATCH,
    ),
    // Person 104, who is dropped, is the only one of SEX 2.
    (
        "dwellings_before_and_after_a_batch",
        b"",
        HOMES,
        (
            "dwellings SEX\ndrop 104\npublish\ndwellings SEX\n",
            "release 0\nSEX,count\n1,2\n2,1\n.\nheld 1\npublished 1\n\
            release 1\nSEX,count\n1,2\n2,0\n.\n",
        ),
        ("", ""),
        (false, 0, ALL),
        Status::Done,
        b"port 5000 sessions 1\nport 5001 sessions 1\nrelease 1\n",
        ONE_BATCH,
    ),
    (
        "dwellings_of_a_recovered_release",
        ONE_BATCH,
        HOMES,
        ("", ""),
        ("dwellings SEX\n", "release 1\nSEX,count\n1,2\n2,0\n.\n"),
        (false, 0, ALL),
        Status::Done,
        b"port 5000 sessions 1\nport 5001 sessions 1\nrelease 1\n",
        ONE_BATCH,
    ),
    // A batch that takes a release back is played before the first accept.
    (
        "a_release_taken_back",
        TAKEN_BACK,
        ONE,
        ("at 0 table SEX\n", "refused 11 Withdrawn 1\n"),
        (
            "at 0 table SEX\nat 1 table SEX\n",
            "refused 11 Withdrawn 1\nrelease 1\nSEX,count\n1,1\n2,2\n.\n",
        ),
        (false, 0, ALL),
        Status::Done,
        b"port 5000 sessions 1\nport 5001 sessions 1\nrelease 1\n",
        TAKEN_BACK,
    ),
    // Without dwellings it is a query whose first word is wrong.
    (
        "no_dwellings_are_named",
        ONE_BATCH,
        ONE,
        ("", ""),
        ("dwellings SEX\n", "refused 2 Syntax 1\n"),
        (false, 0, ALL),
        Status::Done,
        b"port 5000 sessions 1\nport 5001 sessions 1\nrelease 1\n",
        ONE_BATCH,
    ),
];

fn rows() -> &'static [Row] {
    &ROWS
}

// The custodian's port and an analyst's, with sessions of these lines; and after them, as many as a
// command has, those to which no session is to come.
fn ports(
    alloc: Global,
    own: &str,
    bound: usize,
    accept: u32,
    analyst: &str,
) -> Result<Vec<Port<MemListen>>, Memory>
    ensures { IfOk result (λ net. All IsFresh net.items) }
{
    let mut net = Vec::new(alloc);
    add_sessions(alloc, &mut net, own, bound, accept)?;
    add_sessions(alloc, &mut net, analyst, ALL, 0)?;
    fill(alloc, &mut net, b"", 0, PORTS)?;
    Ok(net)
}

// Whether the run of a row over this disk ends so, with the right replies.
fn serves_so<R: Threads + Wait + Sync + Eprint>(
    rt: &R,
    alloc: Global,
    row: &Row,
    disk: &mut MemDisk,
) -> Result<bool, Memory>
    requires { disk.old.attached ≡ false }
{
    let (_, _, command, (lines, told), (asked, answered), (_, accept, bound), end, text, _) = row;
    let mut net = ports(alloc, lines, *bound, *accept, asked)?;
    Ok(
        ends_over(rt, alloc, command, &mut net, disk, *end, text)
            && is_told(rt, &net, 0, told)
            && is_told(rt, &net, 1, answered),
    )
}

// Whether it does, and leaves the right bytes, where the fourth sync has this number.
fn is_so<R: Threads + Wait + Sync + Eprint>(
    rt: &R,
    alloc: Global,
    row: &Row,
    fourth: u32,
) -> Result<bool, Memory> {
    let fails = if row.5.0 { fourth } else { 0 };
    let mut disk = MemDisk::new(alloc, row.1, &[fails])?;
    Ok(serves_so(rt, alloc, row, &mut disk)? && is_text(rt, disk.bytes(), row.8))
}

// The number, from 1, of the last of a disk's calls that were syncs, where these are four. 0 where
// they aren't.
fn fourth_sync(disk: &MemDisk) -> u32 {
    let mut syncs = 0_u32;
    let mut number = 0_u32;
    let mut last = 0_u32;
    for i in 0..disk.calls() {
        number = number.saturating_add(1);
        if disk.is_sync(i) {
            syncs = syncs.saturating_add(1);
            last = number;
        }
    }
    if syncs == 4 { last } else { 0 }
}

// That number in the run of a row. 0 where the run doesn't end so.
fn fourth_sync_of<R: Threads + Wait + Sync + Eprint>(
    rt: &R,
    alloc: Global,
    row: &Row,
) -> Result<u32, Memory> {
    let mut disk = MemDisk::new(alloc, row.1, &[])?;
    if serves_so(rt, alloc, row, &mut disk)? {
        Ok(fourth_sync(&disk))
    } else {
        Ok(0)
    }
}

// The same in that of the first, which publishes into a new journal.
fn fourth_sync_of_first<R: Threads + Wait + Sync + Eprint>(
    rt: &R,
    alloc: Global,
) -> Result<u32, Memory> {
    match rows().first() {
        Some(row) => fourth_sync_of(rt, alloc, row),
        None => Ok(0),
    }
}

#[test]
fn worked_runs(rt: HostRuntime) -> Result<(), Fail> {
    let fourth = fourth_sync_of_first(&rt, rt.alloc())?;
    assert!(&rt; fourth > 0);
    for row in rows() {
        assert!(&rt; is_so(&rt, rt.alloc(), row, fourth)?, "{}", row.0);
    }
    Ok(())
}

// What a run shows that serves nobody, the bytes of the journal's file, which of the disk's calls
// fails (0 for none), how it ends, and what is written.
type Unserved = (&'static str, &'static [u8], u32, Status, &'static [u8]);

static UNSERVED: [Unserved; 4] = [
    (
        "not_a_journal",
        b"0123456789",
        0,
        Status::Journal,
        b"fault journal 1 NotJournal 0\n",
    ),
    // The gate behind the only record is open.
    (
        "bad_record",
        b"TBJOURN1\x01\x00\x00\x00\x09\x00\x00\x00\x01\x02\x00\x00\x00\x68\x01",
        0,
        Status::Journal,
        b"fault journal 2 BadRecord 2\n",
    ),
    // There is no person 999.
    (
        "does_not_follow",
        b"TBJOURN1\x01\x00\x00\x00\x09\x00\x00\x00\x01\x02\x00\x00\x03\xe7\x00",
        0,
        Status::Journal,
        b"fault journal 3 DoesNotFollow 1\n",
    ),
    ("no_file", b"", 1, Status::DiskFault, b"fault disk\n"),
];

fn unserved() -> &'static [Unserved] {
    &UNSERVED
}

// Whether no session came back at the port at this place.
fn is_quiet(net: &[Port<MemListen>], place: usize) -> bool {
    match net.get(place) {
        Some(port) => port.listener.back() == 0,
        None => false,
    }
}

// The custodian's port with so many sessions, and an analyst's with one: its bind fails, or its
// first accept.
fn failing(
    alloc: Global,
    own: u32,
    bind_fails: bool,
    fails: u32,
) -> Result<Vec<Port<MemListen>>, Memory>
    ensures { IfOk result (λ net. All IsFresh net.items) }
{
    let mut net = Vec::new(alloc);
    add_port(alloc, &mut net, b"drop 103\npublish\n", own, false, &[])?;
    add_port(alloc, &mut net, b"table SEX\n", 1, bind_fails, &[fails])?;
    fill(alloc, &mut net, b"", 0, PORTS)?;
    Ok(net)
}

// Whether a run whose journal was played serves nobody where the analyst's bind fails, or the first
// accept, writes this, and keeps its batch.
fn keeps_the_batch<R: Threads + Wait + Sync + Eprint>(
    rt: &R,
    alloc: Global,
    own: u32,
    bind_fails: bool,
    fails: u32,
    text: &[u8],
) -> Result<bool, Memory> {
    let mut net = failing(alloc, own, bind_fails, fails)?;
    let mut disk = MemDisk::new(alloc, ONE_BATCH, &[])?;
    let ends = ends_over(rt, alloc, ONE, &mut net, &mut disk, Status::NetFault, text);
    Ok(ends && is_quiet(&net, 0) && is_quiet(&net, 1) && is_text(rt, disk.bytes(), ONE_BATCH))
}

// All ports are bound before the first accept, so a bind that failed is told alone.
#[test]
fn a_port_fails_behind_a_journal(rt: HostRuntime) -> Result<(), Fail> {
    assert!(&rt; keeps_the_batch(&rt, rt.alloc(), 1, true, 0, b"fault net\n")?);
    let text = b"port 5000 sessions 0\nport 5001 sessions 0\nrelease 1\nfault net\n";
    assert!(&rt; keeps_the_batch(&rt, rt.alloc(), 0, false, 1, text)?);
    Ok(())
}

// Whether the run of a row ends so, and no session of two came back.
fn serves_nobody<R: Threads + Wait + Sync + Eprint>(
    rt: &R,
    alloc: Global,
    row: &Unserved,
    disk: &mut MemDisk,
) -> Result<bool, Memory>
    requires { disk.old.attached ≡ false }
{
    let mut net = ports(alloc, "table SEX\n", ALL, 0, "table SEX\n")?;
    Ok(
        ends_over(rt, alloc, ONE, &mut net, disk, row.3, row.4)
            && is_quiet(&net, 0)
            && is_quiet(&net, 1),
    )
}

// Whether it does, and leaves the file as it was.
fn leaves_it<R: Threads + Wait + Sync + Eprint>(
    rt: &R,
    alloc: Global,
    row: &Unserved,
) -> Result<bool, Memory> {
    let mut disk = MemDisk::new(alloc, row.1, &[row.2])?;
    Ok(serves_nobody(rt, alloc, row, &mut disk)? && is_text(rt, disk.bytes(), row.1))
}

#[test]
fn runs_that_serve_nobody(rt: HostRuntime) -> Result<(), Fail> {
    for row in unserved() {
        assert!(&rt; leaves_it(&rt, rt.alloc(), row)?, "{}", row.0);
    }
    Ok(())
}
