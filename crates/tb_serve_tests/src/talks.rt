// Sessions in memory whose clients wait for each other: a listener with one session at most, whose
// ends send each part when another client has got so many replies, and count and compare the
// replies. They own nothing: what is shared of a run is lent.

ghost use Rattle.std.specs.Prelude.{◌≡◌, ◌≤◌, None, false, length};
ghost use Rattle.tb_io.specs.Listeners.{telling_none};

use super::compared::Compared;
use std::marker::Model;
use std::sync::atomic::{AtomicU32, Ordering};
use tb_io::{Accepted, Bound, Listen, Read, Sink, Source, Wrote};

// How often a wait looks at most.
const LOOKS: u32 = 1_000_000_000;

/// A client of a session.
#[derive(Clone, Copy)]
pub enum Client {
    /// No session is to come.
    None,
    /// The custodian, who publishes after the analyst's first table.
    Custodian,
    /// An analyst, who waits for the reply to `publish` between two tables.
    Late,
    /// Two analysts, each of whom waits for the other's first table.
    One,
    Other,
    /// A custodian, who publishes at once.
    Publisher,
    /// An analyst, who sends nothing before another has got the reply to its table.
    Silent,
    /// An analyst, who asks once the custodian has published.
    Asking,
    /// A leader, whose second message comes before the first.
    Leader,
    /// An analyst, who waits for the reply to its last line.
    Behind,
    /// A leader, whose message comes after the analyst's first table.
    LateLeader,
    /// An analyst, who waits for the reply to that message between two tables.
    LateBehind,
    /// A leader, whose message comes after the analyst's first table of dwellings.
    HomesLeader,
    /// An analyst, who waits for the reply to that message between two tables of dwellings.
    HomesBehind,
    /// A leader, whose message takes back a release after the analyst's first table of it.
    TakingLeader,
    /// An analyst, who asks for that release before the message came, and after.
    TakenBehind,
}

/// How many replies two clients got, and how many clients got just those that they are to get.
#[derive(Drop)]
pub struct Replies {
    pub first: AtomicU32,
    pub second: AtomicU32,
    pub right: AtomicU32,
}

// A leader's lines, of which the second message is sent before the first.
const OUT_OF_ORDER: &[u8] = b"where\nbegin 2\nadd 105 30 SEX=2 AGE=0-15 AREA=E2\nend\n\
    begin 1\ndrop 104\nend\nwhere\n";

// The part that a client sends next, and how many replies the other client must have got before.
fn part(client: Client, step: u32) -> Option<(u32, &'static [u8])> {
    match (client, step) {
        (Client::Custodian, 0) => Some((1, b"drop 104\npublish\n")),
        (Client::Custodian, 1) => Some((2, b"stats\n")),
        (Client::Publisher, 0) => Some((0, b"drop 104\npublish\n")),
        (Client::Silent, 0) => Some((1, b"# nothing\n")),
        (Client::Asking, 0) => Some((2, b"table SEX\n")),
        (Client::Leader, 0) => Some((0, OUT_OF_ORDER)),
        (Client::LateLeader, 0) => Some((1, b"begin 1\ndrop 104\nend\n")),
        (Client::LateLeader, 1) => Some((2, b"stats\n")),
        (Client::HomesLeader, 0) => Some((1, b"begin 1\ndrop 104\nend\n")),
        (Client::HomesBehind, 0) => Some((0, b"dwellings SEX\n")),
        (Client::HomesBehind, 1) => Some((3, b"dwellings SEX\n")),
        (Client::TakingLeader, 0) => Some((1, b"begin 1\noldest 1\nend\n")),
        (Client::TakenBehind, 0) => Some((0, b"at 0 table SEX\n")),
        (Client::TakenBehind, 1) => Some((3, b"at 0 table SEX\nat 1 table SEX\n")),
        (Client::Late | Client::One | Client::Other | Client::LateBehind, 0) => {
            Some((0, b"table SEX\n"))
        }
        (Client::Behind, 0) => Some((8, b"table SEX\n")),
        (Client::LateBehind, 1) => Some((3, b"table SEX\n")),
        (Client::Late, 1) => Some((2, b"table SEX\n")),
        (Client::One | Client::Other, 1) => Some((1, b"table SEX\n")),
        _ => None,
    }
}

// The replies that a client is to get.
fn replies_to(client: Client) -> &'static [u8] {
    match client {
        Client::None | Client::Silent => b"",
        Client::Publisher => b"held 1\npublished 1\n",
        Client::Asking => b"release 1\nSEX,count\n1,1\n2,0\n.\n",
        Client::Custodian => {
            b"held 1\npublished 1\nstats release 1 looks 2 hits 1 entries 1 capacity 64\n"
        }
        Client::Leader => b"at 0\nbegun 2\nheld 1\nkept 0\nbegun 1\nheld 1\nat 2\nat 2\n",
        Client::Behind => b"release 2\nSEX,count\n1,1\n2,1\n.\n",
        Client::LateLeader => {
            b"begun 1\nheld 1\nat 1\nstats release 1 looks 2 hits 1 entries 1 capacity 64\n"
        }
        Client::HomesLeader | Client::TakingLeader => b"begun 1\nheld 1\nat 1\n",
        Client::TakenBehind => {
            b"release 0\nSEX,count\n1,1\n2,2\n.\nrefused 11 Withdrawn 1\nrelease 1\nSEX,count\n\
                1,1\n2,2\n.\n"
        }
        Client::HomesBehind => {
            b"release 0\nSEX,count\n1,2\n2,1\n.\nrelease 1\nSEX,count\n1,2\n2,0\n.\n"
        }
        Client::Late | Client::LateBehind => {
            b"release 0\nSEX,count\n1,1\n2,2\n.\nrelease 1\nSEX,count\n1,1\n2,0\n.\n"
        }
        Client::One | Client::Other => {
            b"release 0\nSEX,count\n1,1\n2,2\n.\nrelease 0\nSEX,count\n1,1\n2,2\n.\n"
        }
    }
}

// Whether a counter has come to a number, after so many looks.
fn waits_for(counter: &AtomicU32, number: u32) -> bool {
    for _ in 0..LOOKS {
        if counter.load(Ordering::SeqCst) >= number {
            return true;
        }
    }
    false
}

// Copies bytes to the front of a buffer that has room for them.
fn copy_front(from: &[u8], buf: &mut [u8])
    requires { length from.now ≤ length buf.old }
{
    let n = from.len();
    buf[..n].copy_from_slice(from);
}

// Copies bytes to the front of a buffer, where there is room for all of them, and returns how many
// it copied.
fn give(from: &[u8], buf: &mut [u8]) -> usize
    ensures { result ≤ length buf.new }
{
    if buf.len() < from.len() {
        return 0;
    }
    copy_front(from, buf);
    from.len()
}

/// A client's side of a session that is read. A wait that runs out of looks is read as the end.
#[derive(Drop)]
pub struct Sends<'a> {
    client: Client,
    step: u32,
    other: &'a AtomicU32,
}

impl<'a> Source for Sends<'a> {
    ghost faults = { λ _. 0 };

    ghost left = { λ _. None };

    fn read(&mut self, buf: &mut [u8]) -> Read {
        let Some((after, bytes)) = part(self.client, self.step) else {
            return Read::End;
        };
        self.step = self.step.saturating_add(1);
        if !waits_for(self.other, after) {
            return Read::End;
        }
        match give(bytes, buf) {
            0 => Read::End,
            n => Read::Got(n),
        }
    }
}

/// Its side that is written to, which counts how often that is done: once a reply.
#[derive(Drop)]
pub struct Gets<'a> {
    replies: Compared<'static>,
    own: &'a AtomicU32,
}

impl<'a> Sink for Gets<'a> {
    ghost faults = { λ _. 0 };

    ghost taken = { λ _. None };

    fn write(&mut self, bytes: &[u8]) -> Wrote {
        let wrote = self.replies.write(bytes);
        self.own.fetch_add(1, Ordering::SeqCst);
        wrote
    }
}

/// A listener with one session, or none.
#[derive(Drop)]
pub struct Talk<'a> {
    client: Client,
    own: &'a AtomicU32,
    other: &'a AtomicU32,
    right: &'a AtomicU32,
    came: bool,
    port: Option<u16>,
    is_out: bool,
}

impl<'a> Model for Talk<'a> {
    ghost use Rattle.std.specs.Prelude.{option_map};
    ghost use Rattle.tb_io.specs.Listeners.{ListenerValue, listener_code, telling_none};

    ghost Value = { ListenerValue };

    ghost coded = { listener_code };

    ghost view = { λ talk. telling_none 0 (option_map (λ port. port) talk.port) talk.is_out };
}

impl<'a> Talk<'a> {
    // A listener with the session of a client who counts its own replies and waits for the other's.
    fn with(
        client: Client,
        own: &'a AtomicU32,
        other: &'a AtomicU32,
        right: &'a AtomicU32,
    ) -> Talk<'a>
        ensures { result ≡ telling_none 0 None false }
    {
        Talk {
            client,
            own,
            other,
            right,
            came: false,
            port: None,
            is_out: false,
        }
    }

    /// A listener with the session of a client of a run.
    pub fn of(client: Client, replies: &'a Replies) -> Talk<'a>
        ensures { result ≡ telling_none 0 None false }
    {
        let (first, second, right) = (&replies.first, &replies.second, &replies.right);
        match client {
            Client::Late
            | Client::Other
            | Client::Asking
            | Client::Behind
            | Client::LateBehind
            | Client::HomesBehind
            | Client::TakenBehind => Talk::with(client, second, first, right),
            _ => Talk::with(client, first, second, right),
        }
    }
}

impl<'a> Listen for Talk<'a> {
    type Reader = Sends<'a>;

    type Writer = Gets<'a>;

    ghost seen = { λ talk. talk };

    fn bind(&mut self, port: u16) -> Bound {
        self.port = Some(port);
        Bound::Ready
    }

    fn accept(&mut self) -> Accepted<Sends<'a>, Gets<'a>> {
        if self.came || matches!(self.client, Client::None) {
            return Accepted::End;
        }
        self.came = true;
        self.is_out = true;
        let reader = Sends {
            client: self.client,
            step: 0,
            other: self.other,
        };
        let writer = Gets {
            replies: Compared::with(replies_to(self.client)),
            own: self.own,
        };
        Accepted::Session(reader, writer)
    }

    fn give_back(&mut self, _reader: Sends<'a>, writer: Gets<'a>) {
        if writer.replies.is_whole() {
            self.right.fetch_add(1, Ordering::SeqCst);
        }
        self.is_out = false;
    }
}
