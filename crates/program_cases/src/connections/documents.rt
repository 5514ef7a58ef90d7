//! Which documents the device fetches, and which it may not, over each book.

use crate::desk::compare::Failed;
use crate::desk::connection::Wanted::{Continue, Success};
use crate::desk::connection::{Connection, Wanted};
use crate::desk::jobs::{PRINT, RELEASE};
use crate::desk::messages::{DONE, JOB_2, PRINT_JOB};
use crate::desk::refused::NOT_FOUND;
use crate::desk::requests::{
    GET_DOCUMENT, IPP, OCTETS, POST_JOB, POST_RELEASE, REPORT_DONE, REPORT_START, TEXT,
};
use crate::desk::rows::{Row, take_rows};
use crate::desk::streams::AT_EACH_SPEED;
use http_front::End;

/// The device prints the job, whose document isn't there then.
const PRINTED_AND_GONE: Connection<'static> = Connection {
    stream: &[
        REPORT_START,
        REPORT_DONE,
        b"GET /device/document/1/1 HTTP/1.0\r\nExpect: 100-continue\r\n\r\n",
    ],
    acted: 2,
    end: End::Refused(404),
    wanted: &[
        Success(TEXT, b"ok 1 5 0\n"),
        Success(TEXT, b"ok 1 9 20\n"),
        NOT_FOUND,
    ],
};

/// The front of a request for a document.
const GET_OF: &[u8] = b"GET /device/document/";

/// What goes on behind the path of a document.
const WITH_FIELDS: &[u8] = b" HTTP/1.1\r\nExpect: x, 100-Continue\r\n\r\n";

/// What is got of a document that isn't there.
const NONE: &[Wanted<'static>] = &[Continue, NOT_FOUND];

/// A job's documents are there from its release to its end.
const NOT_THERE: &[Connection<'static>] = &[
    PRINT,
    Connection {
        stream: &[GET_DOCUMENT],
        acted: 0,
        end: End::Refused(404),
        wanted: &[NOT_FOUND],
    },
    RELEASE,
    Connection {
        stream: &[GET_OF, b"1/2", WITH_FIELDS, POST_JOB, PRINT_JOB],
        acted: 0,
        end: End::Refused(404),
        wanted: NONE,
    },
    Connection {
        stream: &[GET_OF, b"1/0", WITH_FIELDS, POST_JOB, PRINT_JOB],
        acted: 0,
        end: End::Refused(404),
        wanted: NONE,
    },
    Connection {
        stream: &[GET_OF, b"1/01", WITH_FIELDS, POST_JOB, PRINT_JOB],
        acted: 0,
        end: End::Refused(404),
        wanted: NONE,
    },
    Connection {
        stream: &[GET_OF, b"01/1", WITH_FIELDS, POST_JOB, PRINT_JOB],
        acted: 0,
        end: End::Refused(404),
        wanted: NONE,
    },
    Connection {
        stream: &[GET_OF, b"+1/1", WITH_FIELDS, POST_JOB, PRINT_JOB],
        acted: 0,
        end: End::Refused(404),
        wanted: NONE,
    },
    Connection {
        stream: &[GET_OF, b"0/1", WITH_FIELDS, POST_JOB, PRINT_JOB],
        acted: 0,
        end: End::Refused(404),
        wanted: NONE,
    },
    Connection {
        stream: &[GET_OF, b"9/1", WITH_FIELDS, POST_JOB, PRINT_JOB],
        acted: 0,
        end: End::Refused(404),
        wanted: NONE,
    },
    Connection {
        stream: &[GET_OF, b"4294967297/1", WITH_FIELDS, POST_JOB, PRINT_JOB],
        acted: 0,
        end: End::Refused(404),
        wanted: NONE,
    },
    Connection {
        stream: &[GET_OF, b"1/4294967297", WITH_FIELDS, POST_JOB, PRINT_JOB],
        acted: 0,
        end: End::Refused(404),
        wanted: NONE,
    },
    Connection {
        stream: &[GET_OF, b"a/b", WITH_FIELDS, POST_JOB, PRINT_JOB],
        acted: 0,
        end: End::Refused(404),
        wanted: NONE,
    },
    PRINTED_AND_GONE,
    Connection {
        stream: &[POST_JOB, PRINT_JOB],
        acted: 1,
        end: End::Closed,
        wanted: &[Success(IPP, JOB_2)],
    },
];

/// Create-Job of alice: 143 bytes.
const CREATE_JOB: &[u8] =
    b"\x01\x01\x00\x05\x0a\x0b\x0c\x0d\x01G\x00\x12attributes-charset\x00\x05utf-8H\x00\x1battributes-natural-language\x00\x02enE\x00\x0bprinter-uri\x00\x19ipp://localhost/ipp/printB\x00\x14requesting-user-name\x00\x05alice\x03";

/// Send-Document of the document `one` to job 2, which more are to follow: 180 bytes.
const SEND_ONE: &[u8] =
    b"\x01\x01\x00\x06\x0a\x0b\x0c\x0d\x01G\x00\x12attributes-charset\x00\x05utf-8H\x00\x1battributes-natural-language\x00\x02enE\x00\x0bprinter-uri\x00\x19ipp://localhost/ipp/print!\x00\x06job-id\x00\x04\x00\x00\x00\x02\"\x00\rlast-document\x00\x01\x00B\x00\x14requesting-user-name\x00\x05alice\x03one";

/// Send-Document of the document `second` to it, the last one: 183 bytes.
const SEND_SECOND: &[u8] =
    b"\x01\x01\x00\x06\x0a\x0b\x0c\x0d\x01G\x00\x12attributes-charset\x00\x05utf-8H\x00\x1battributes-natural-language\x00\x02enE\x00\x0bprinter-uri\x00\x19ipp://localhost/ipp/print!\x00\x06job-id\x00\x04\x00\x00\x00\x02\"\x00\rlast-document\x00\x01\x01B\x00\x14requesting-user-name\x00\x05alice\x03second";

/// Release-Job of job 2: 158 bytes.
const RELEASE_JOB_2: &[u8] =
    b"\x01\x01\x00\r\x0a\x0b\x0c\x0d\x01G\x00\x12attributes-charset\x00\x05utf-8H\x00\x1battributes-natural-language\x00\x02enE\x00\x0bprinter-uri\x00\x19ipp://localhost/ipp/print!\x00\x06job-id\x00\x04\x00\x00\x00\x02B\x00\x14requesting-user-name\x00\x05alice\x03";

/// The reply that tells job 2, on hold and open.
const OPEN_JOB_2: &[u8] =
    b"\x01\x01\x00\x00\x0a\x0b\x0c\x0d\x01G\x00\x12attributes-charset\x00\x05utf-8H\x00\x1battributes-natural-language\x00\x02en\x02E\x00\x07job-uri\x00\x1bipp://localhost/ipp/print/2!\x00\x06job-id\x00\x04\x00\x00\x00\x02#\x00\x09job-state\x00\x04\x00\x00\x00\x04D\x00\x11job-state-reasons\x00\x0cjob-incomingD\x00\x00\x00\x18job-hold-until-specified\x03";

/// Job 2 gets two documents, and is released.
const OF_TWO: Connection<'static> = Connection {
    stream: &[
        b"POST /ipp/print HTTP/1.1\r\nContent-Type: application/ipp\r\nContent-Length: 143\r\n\r\n",
        CREATE_JOB,
        b"POST /ipp/print HTTP/1.1\r\nContent-Type: application/ipp\r\nContent-Length: 180\r\n\r\n",
        SEND_ONE,
        b"POST /ipp/print HTTP/1.1\r\nContent-Type: application/ipp\r\nContent-Length: 183\r\n\r\n",
        SEND_SECOND,
        POST_RELEASE,
        RELEASE_JOB_2,
    ],
    acted: 4,
    end: End::Closed,
    wanted: &[
        Success(IPP, OPEN_JOB_2),
        Success(IPP, OPEN_JOB_2),
        Success(IPP, JOB_2),
        Success(IPP, DONE),
    ],
};

/// The device fetches its second document and its first. A second one of job 1 isn't there.
const FETCHED: Connection<'static> = Connection {
    stream: &[
        b"GET /device/document/2/2 HTTP/1.1\r\n\r\n",
        b"GET /device/document/2/1 HTTP/1.1\r\n\r\n",
        b"GET /device/document/1/2 HTTP/1.1\r\n\r\n",
    ],
    acted: 0,
    end: End::Refused(404),
    wanted: &[
        Success(OCTETS, b"second"),
        Success(OCTETS, b"one"),
        NOT_FOUND,
    ],
};

static AT_EACH_TIME: [Row; 1] = [("documents that are not there", NOT_THERE)];

#[test]
fn documents_that_are_not_there(rt: HostRuntime) -> Result<(), Failed> {
    take_rows(rt.alloc(), &AT_EACH_TIME, &AT_EACH_SPEED)
}

// beside a job of one document that is on hold
static BY_NUMBERS: [Row; 1] = [("documents by their numbers", &[PRINT, OF_TWO, FETCHED])];

#[test]
fn documents_by_their_numbers(rt: HostRuntime) -> Result<(), Failed> {
    take_rows(rt.alloc(), &BY_NUMBERS, &AT_EACH_SPEED)
}
