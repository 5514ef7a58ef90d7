//! Reads and writes that are interrupted, over each book: they are tried again, and nothing is lost.

use crate::desk::compare::Failed;
use crate::desk::connection::Connection;
use crate::desk::connection::Wanted::{Continue, Success};
use crate::desk::messages::{DONE, JOB_1, JOB_2, PRINT_JOB, RELEASE_JOB};
use crate::desk::refused::{BAD, POST_ALLOWED};
use crate::desk::requests::{
    GET_DOCUMENT, GET_QUEUE, IPP, OCTETS, POST_JOB, POST_RELEASE, POST_WAITING, REPORT_DONE,
    REPORT_START, TEXT,
};
use crate::desk::rows::{Row, take_rows};
use crate::desk::streams::{AT_ONCE, Way};
use http_front::End;

/// Messages, lines of the device, its queue, a document and refusals, one connection after another, to a queue in which alice has 30 pages.
const CONNECTIONS: &[Connection<'static>] = &[
    Connection {
        stream: &[
            POST_JOB,
            PRINT_JOB,
            POST_RELEASE,
            RELEASE_JOB,
            GET_QUEUE,
            GET_DOCUMENT,
        ],
        acted: 2,
        end: End::Closed,
        wanted: &[
            Success(IPP, JOB_1),
            Success(IPP, DONE),
            Success(TEXT, b"1 1 1 2\n"),
            Success(OCTETS, b"hi"),
        ],
    },
    Connection {
        stream: &[REPORT_START, REPORT_DONE, POST_JOB, PRINT_JOB],
        acted: 3,
        end: End::Closed,
        wanted: &[
            Success(TEXT, b"ok 1 5 0\n"),
            Success(TEXT, b"ok 1 9 20\n"),
            Success(IPP, JOB_2),
        ],
    },
    Connection {
        stream: &[POST_WAITING, b"1\r\nx\r\n0\r\n\r\n"],
        acted: 0,
        end: End::Refused(400),
        wanted: &[Continue, BAD],
    },
    Connection {
        stream: &[b"PUT /ipp/print HTTP/1.1\r\n\r\n"],
        acted: 0,
        end: End::Refused(405),
        wanted: &[POST_ALLOWED],
    },
];

/// The ways in which they come.
static WAYS: [Way; 3] = [
    Way {
        read: 1,
        write: 1,
        is_interrupted: true,
        ..AT_ONCE
    },
    Way {
        read: 7,
        write: 7,
        is_interrupted: true,
        ..AT_ONCE
    },
    Way {
        read: 4096,
        write: 4096,
        is_interrupted: true,
        ..AT_ONCE
    },
];

static ROWS: [Row; 1] = [("reads and writes that are interrupted", CONNECTIONS)];

#[test]
fn reads_and_writes_that_are_interrupted(rt: HostRuntime) -> Result<(), Failed> {
    take_rows(rt.alloc(), &ROWS, &WAYS)
}
