//! How connections end, over each book.

use crate::desk::compare::Failed;
use crate::desk::connection::Wanted;
use crate::desk::connection::Wanted::{Last, Successes};
use crate::desk::refused::NO_LINE;
use crate::desk::requests::{POST_CHUNKED, TEXT};
use crate::desk::rows::Rest::{Long, Short};
use crate::desk::rows::{Rest, Streams, come_to_their_ends};
use http_front::End;

/// The answer to a body that is no line of the device, at the end of a connection.
const LAST_NO_LINE: Wanted<'static> = Last(TEXT, b"refused 1 syntax\n");

/// A body in chunks, behind the line or the field by which a connection is asked to end.
const BODY: (&[u8], usize) = (
    b"Content-Type: text/plain;x\r\nTransfer-Encoding: chunked\r\n\r\n2 ;ext\r\nab\r\n0\r\nA: b\r\n\r\n",
    1,
);

/// The ends of request lines, and fields, by which a connection is asked to end.
const ENDING_LINES: &[Rest] = &[
    Long(b"HTTP/1.0\r\n", BODY, b""),
    Long(b"HTTP/1.0\r\nconnection: keep-alive\r\n", BODY, b""),
    Long(b"HTTP/1.0\r\nExpect: 100-continue\r\n", BODY, b""),
    Long(b"HTTP/1.1\r\nConnection: a , Close\t\r\n", BODY, b""),
    Long(
        b"HTTP/1.1\r\nConnection: a\r\nConnection: close\r\n",
        BODY,
        b"",
    ),
];

/// A report without a line.
const POST_NO_LINE: &[u8] =
    b"POST /device/report HTTP/1.1\r\nContent-Type: text/plain\r\nContent-Length: 0\r\n\r\n";

/// The same, with a field by which no connection is asked to end.
const POST_GOING_ON: &[u8] =
    b"POST /device/report HTTP/1.1\r\nConnection: closed\r\nContent-Type: text/plain\r\nContent-Length: 0\r\n\r\n";

/// The answers to 32 of them, which are as many as a connection may have.
const ANSWERS: &[Wanted<'static>] = &[Successes(31, TEXT, b"refused 1 syntax\n"), LAST_NO_LINE];

/// Bodies in chunks that are right as far as they go.
const BEGUN_CHUNKS: &[Rest] = &[
    Short(b"1"),
    Short(b"1\r"),
    Short(b"1\r\n"),
    Short(b"1\r\na"),
    Short(b"1\r\na\r"),
    Short(b"1\r\na\r\n"),
    Short(b"1\r\na\r\n0\r\n"),
    Short(b"1\r\na\r\n0\r\na: b\r\n\r"),
];

static ROWS: [Streams; 6] = [
    Streams {
        name: "no request",
        front: b"",
        rests: &[Short(b"")],
        jobs: 0,
        acted: 0,
        end: End::Closed,
        wanted: &[],
    },
    Streams {
        name: "connections that are asked to end",
        front: b"POST /device/report ",
        rests: ENDING_LINES,
        jobs: 1,
        acted: 1,
        end: End::Done,
        wanted: &[LAST_NO_LINE],
    },
    Streams {
        name: "connections that are asked to end, and behind which nothing is",
        front: b"POST /device/report ",
        rests: ENDING_LINES,
        jobs: 0,
        acted: 1,
        end: End::Done,
        wanted: &[LAST_NO_LINE],
    },
    Streams {
        name: "a connection that goes on",
        front: POST_GOING_ON,
        rests: &[Short(POST_NO_LINE)],
        jobs: 0,
        acted: 2,
        end: End::Closed,
        wanted: &[NO_LINE, NO_LINE],
    },
    Streams {
        name: "of 40 requests 32 are answered",
        front: b"",
        rests: &[Long(b"", (POST_NO_LINE, 40), b"")],
        jobs: 0,
        acted: 32,
        end: End::Done,
        wanted: ANSWERS,
    },
    Streams {
        name: "chunks that may go on",
        front: POST_CHUNKED,
        rests: BEGUN_CHUNKS,
        jobs: 0,
        acted: 0,
        end: End::Cut,
        wanted: &[],
    },
];

#[test]
fn ends_of_connections(rt: HostRuntime) -> Result<(), Failed> {
    come_to_their_ends(rt.alloc(), &ROWS)
}
