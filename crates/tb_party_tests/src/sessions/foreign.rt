// Sessions that a request of HTTP comes to, and lines that are near one.

use super::talks::{TABLE, Talk, wrong_talk_over_small};
use std::test::Fail;
use tb_session::SessionEnd;

static FOREIGN: [Talk; 12] = [
    Talk {
        name: "a request that posts edits",
        bytes: b"POST / HTTP/1.1\r\nHost: here\r\n\r\ndrop 104\npublish\n",
        most: 10,
        fails: &[],
        bound: 100,
        end: SessionEnd::Foreign,
        text: b"",
    },
    Talk {
        name: "a request in pieces of one byte",
        bytes: b"POST / HTTP/1.1\r\nHost: here\r\n\r\ndrop 104\npublish\n",
        most: 1,
        fails: &[],
        bound: 100,
        end: SessionEnd::Foreign,
        text: b"",
    },
    Talk {
        name: "a request of the older version, with line feeds alone",
        bytes: b"GET /index HTTP/1.0\nHost: here\n\ndrop 104\npublish\n",
        most: 10,
        fails: &[],
        bound: 100,
        end: SessionEnd::Foreign,
        text: b"",
    },
    Talk {
        name: "a foreign line after another, and a tab before the version",
        bytes: b"table SEX\r\nOPTIONS *\tHTTP/1.1\ntable SEX\n",
        most: 10,
        fails: &[],
        bound: 100,
        end: SessionEnd::Foreign,
        text: TABLE,
    },
    Talk {
        name: "a foreign line of the older version and a tab",
        bytes: b"\tHTTP/1.0\r\ntable SEX\n",
        most: 10,
        fails: &[],
        bound: 100,
        end: SessionEnd::Foreign,
        text: b"",
    },
    Talk {
        name: "a foreign line as the last, without its line feed",
        bytes: b"table SEX\nHEAD / HTTP/1.1",
        most: 1,
        fails: &[],
        bound: 100,
        end: SessionEnd::Foreign,
        text: TABLE,
    },
    Talk {
        name: "a comment that is a foreign line",
        bytes: b"# GET / HTTP/1.1\ntable SEX\n",
        most: 10,
        fails: &[],
        bound: 100,
        end: SessionEnd::Foreign,
        text: b"",
    },
    Talk {
        name: "an edit that is a foreign line",
        bytes: b"drop 104 HTTP/1.0\npublish\n",
        most: 10,
        fails: &[],
        bound: 100,
        end: SessionEnd::Foreign,
        text: b"",
    },
    Talk {
        name: "a byte after the version",
        bytes: b"GET / HTTP/1.1x\ntable SEX\n",
        most: 10,
        fails: &[],
        bound: 100,
        end: SessionEnd::Ended,
        text: b"refused 2 Syntax 1\nrelease 0\nSEX,count\n1,1\n2,2\n.\n",
    },
    Talk {
        name: "a blank after the version",
        bytes: b"GET / HTTP/1.1 \ntable SEX\n",
        most: 10,
        fails: &[],
        bound: 100,
        end: SessionEnd::Ended,
        text: b"refused 2 Syntax 1\nrelease 0\nSEX,count\n1,1\n2,2\n.\n",
    },
    Talk {
        name: "a version without a blank before it",
        bytes: b"HTTP/1.1\nGET /HTTP/1.0\nGET / HTTP/2\n",
        most: 10,
        fails: &[],
        bound: 100,
        end: SessionEnd::Ended,
        text: b"refused 2 Syntax 1\nrefused 2 Syntax 1\nrefused 2 Syntax 1\n",
    },
    Talk {
        name: "a version in small letters, and one of HTTP/1.2",
        bytes: b"GET / http/1.1\nGET / HTTP/1.2\n",
        most: 10,
        fails: &[],
        bound: 100,
        end: SessionEnd::Ended,
        text: b"refused 2 Syntax 1\nrefused 2 Syntax 1\n",
    },
];

fn foreign() -> &'static [Talk] {
    &FOREIGN
}

#[test]
fn foreign_lines_end_a_session(rt: HostRuntime) -> Result<(), Fail> {
    assert_eq!(&rt; wrong_talk_over_small(&rt, rt.alloc(), foreign())?, None);
    Ok(())
}
