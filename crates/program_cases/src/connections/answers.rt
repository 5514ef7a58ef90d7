//! Requests that are answered, over each book.

use crate::desk::compare::Failed;
use crate::desk::connection::Connection;
use crate::desk::connection::Wanted::{Continue, Last, Success};
use crate::desk::jobs::{PRINT, PRINTED, RELEASED};
use crate::desk::messages::{
    BAD_REQUEST, BROKEN_OFF, JOB_1, JOB_2, JOB_3, OTHER_VERSION, PRINT_JOB, PRINT_JOB_3_0,
    PRINT_PDF, RELEASE_JOB,
};
use crate::desk::refused::NO_LINE;
use crate::desk::requests::{
    GET_DOCUMENT, GET_QUEUE, IPP, NO_REPORT, OCTETS, POST_BROKEN_OFF, POST_CHUNKED, POST_JOB,
    POST_RELEASE, REPORT_DONE, REPORT_START, TEXT,
};
use crate::desk::rows::{Row, take_rows};
use crate::desk::streams::AT_EACH_SPEED;
use http_front::End;

/// A Print-Job of alice that is job 1, and its release.
const PRINT_AND_RELEASE: Connection<'static> = Connection {
    stream: &[
        POST_JOB,
        PRINT_JOB,
        b"POST /ipp/print/1 HTTP/1.1\r\nContent-Type: application/ipp\r\nContent-Length: 158\r\n\r\n",
        RELEASE_JOB,
    ],
    acted: 2,
    end: End::Closed,
    wanted: &[PRINTED, RELEASED],
};

/// The device's queue has no job.
const LOOK_AT_NONE: Connection<'static> = Connection {
    stream: &[GET_QUEUE],
    acted: 0,
    end: End::Closed,
    wanted: &[Success(TEXT, b"")],
};

/// The document of job 1.
const FETCH: Connection<'static> = Connection {
    stream: &[GET_DOCUMENT],
    acted: 0,
    end: End::Closed,
    wanted: &[Success(OCTETS, b"hi")],
};

/// What goes on behind the beginnings of request lines.
const FIELDS: &[u8] =
    b"\r\nHost: localhost\r\ncontent-TYPE: Application/IPP ; x\r\nContent-Encoding: Identity\r\nContent-Length: 0145\r\n\r\n";

/// Other targets of a Print-Job.
const TARGETS: &[Connection<'static>] = &[
    Connection {
        stream: &[b"POST /ipp/print/7 HTTP/1.1", FIELDS, PRINT_JOB],
        acted: 1,
        end: End::Closed,
        wanted: &[PRINTED],
    },
    Connection {
        stream: &[b"POST /ipp/print/abc HTTP/1.1", FIELDS, PRINT_JOB],
        acted: 1,
        end: End::Closed,
        wanted: &[Success(IPP, JOB_2)],
    },
    Connection {
        stream: &[b"POST /ipp/print?a HTTP/1.1", FIELDS, PRINT_JOB],
        acted: 1,
        end: End::Closed,
        wanted: &[Success(IPP, JOB_3)],
    },
];

const WHOLE_TARGET: &[Connection<'static>] = &[Connection {
    stream: &[
        b"POST http://127.0.0.1:631/ipp/print?x#y HTTP/1.1",
        FIELDS,
        PRINT_JOB,
    ],
    acted: 1,
    end: End::Closed,
    wanted: &[PRINTED],
}];

/// Other heads of a Print-Job: with lines that end by a line feed alone, behind empty lines, and with a length of 20 digits.
const HEADS: &[Connection<'static>] = &[
    Connection {
        stream: &[
            b"POST /ipp/print HTTP/1.1\nContent-Type: application/ipp\nContent-Length: 145\n\n",
            PRINT_JOB,
        ],
        acted: 1,
        end: End::Closed,
        wanted: &[PRINTED],
    },
    Connection {
        stream: &[
            b"\r\n\n\r\nPOST /ipp/print HTTP/1.1\r\nContent-Type: application/ipp\r\nContent-Length: 145\r\n\r\n",
            PRINT_JOB,
        ],
        acted: 1,
        end: End::Closed,
        wanted: &[Success(IPP, JOB_2)],
    },
    Connection {
        stream: &[
            b"POST /ipp/print HTTP/1.1\r\nContent-Type: application/ipp\r\nContent-Length: 00000000000000000145\r\n\r\n",
            PRINT_JOB,
        ],
        acted: 1,
        end: End::Closed,
        wanted: &[Success(IPP, JOB_3)],
    },
];

/// The head of a body in chunks, told by a word that begins with a capital.
const POST_IN_CHUNKS: &[u8] =
    b"POST /ipp/print HTTP/1.1\r\nContent-Type: application/ipp\r\nTransfer-Encoding: Chunked\r\n\r\n";

/// The end of a chunk, and trailers.
const TRAILERS: &[u8] = b"\r\n0\r\nA: b\r\nC: d\r\n\r\n";

/// One chunk of 145 bytes, with an extension, and trailers.
const ONE_CHUNK: &[Connection<'static>] = &[
    Connection {
        stream: &[POST_IN_CHUNKS, b"91 ;a=b\r\n", PRINT_JOB, TRAILERS],
        acted: 1,
        end: End::Closed,
        wanted: &[PRINTED],
    },
    Connection {
        stream: &[POST_IN_CHUNKS, b"91\t \r\n", PRINT_JOB, TRAILERS],
        acted: 1,
        end: End::Closed,
        wanted: &[Success(IPP, JOB_2)],
    },
    Connection {
        stream: &[
            POST_IN_CHUNKS,
            b"0000000000000091;\r\n",
            PRINT_JOB,
            TRAILERS,
        ],
        acted: 1,
        end: End::Closed,
        wanted: &[Success(IPP, JOB_3)],
    },
];

/// The front of a head that asks for leave to send its body.
const ASKS: &[u8] = b"POST /ipp/print HTTP/1.1\r\nContent-Type: application/ipp\r\n";

/// A body that waits for leave.
const WAITING: &[Connection<'static>] = &[
    Connection {
        stream: &[
            ASKS,
            b"Expect: 100-continue\r\n",
            b"Content-Length: 145\r\n\r\n",
            PRINT_JOB,
        ],
        acted: 1,
        end: End::Closed,
        wanted: &[Continue, PRINTED],
    },
    Connection {
        stream: &[
            ASKS,
            b"expect: 100-Continue\r\n",
            b"Content-Length: 145\r\n\r\n",
            PRINT_JOB,
        ],
        acted: 1,
        end: End::Closed,
        wanted: &[Continue, Success(IPP, JOB_2)],
    },
    Connection {
        stream: &[
            ASKS,
            b"Expect: x,\t100-continue \r\n",
            b"Content-Length: 145\r\n\r\n",
            PRINT_JOB,
        ],
        acted: 1,
        end: End::Closed,
        wanted: &[Continue, Success(IPP, JOB_3)],
    },
];

/// A body in chunks that more may follow.
const CHUNKED: &[Connection<'static>] = &[Connection {
    stream: &[POST_CHUNKED, b"91\r\n", PRINT_JOB, b"\r\n0\r\n\r\n"],
    acted: 1,
    end: End::Closed,
    wanted: &[PRINTED],
}];

/// Connections that are asked to end, and send no more.
const ARE_TO_END: &[Connection<'static>] = &[
    Connection {
        stream: &[
            b"POST /ipp/print HTTP/1.0\r\nContent-Type: application/ipp\r\nContent-Length: 145\r\n\r\n",
            PRINT_JOB,
        ],
        acted: 1,
        end: End::Done,
        wanted: &[Last(IPP, JOB_1)],
    },
    Connection {
        stream: &[b"GET /device/queue HTTP/1.1\r\nConnection: close\r\n\r\n"],
        acted: 0,
        end: End::Done,
        wanted: &[Last(TEXT, b"")],
    },
];

const QUEUE_AND_DOCUMENT: &[Connection<'static>] = &[
    LOOK_AT_NONE,
    PRINT_AND_RELEASE,
    Connection {
        stream: &[GET_QUEUE],
        acted: 0,
        end: End::Closed,
        wanted: &[Success(TEXT, b"1 1 1 2\n")],
    },
    FETCH,
    Connection {
        stream: &[b"GET /device/document/1/1 HTTP/1.1\r\nContent-Length: 00\r\n\r\n"],
        acted: 0,
        end: End::Closed,
        wanted: &[Success(OCTETS, b"hi")],
    },
    Connection {
        stream: &[GET_QUEUE, GET_DOCUMENT],
        acted: 0,
        end: End::Closed,
        wanted: &[Success(TEXT, b"1 1 1 2\n"), Success(OCTETS, b"hi")],
    },
];

/// Of two jobs one is released.
const RELEASED_AND_HELD: &[Connection<'static>] = &[
    Connection {
        stream: &[
            POST_JOB,
            PRINT_JOB,
            POST_JOB,
            PRINT_JOB,
            POST_RELEASE,
            RELEASE_JOB,
        ],
        acted: 3,
        end: End::Closed,
        wanted: &[PRINTED, Success(IPP, JOB_2), RELEASED],
    },
    Connection {
        stream: &[GET_QUEUE],
        acted: 0,
        end: End::Closed,
        wanted: &[Success(TEXT, b"1 1 1 2\n")],
    },
];

const PDF_DOCUMENT: &[Connection<'static>] = &[
    Connection {
        stream: &[
            b"POST /ipp/print HTTP/1.1\r\nContent-Type: application/ipp\r\nContent-Length: 182\r\n\r\n",
            PRINT_PDF,
            POST_RELEASE,
            RELEASE_JOB,
        ],
        acted: 2,
        end: End::Closed,
        wanted: &[PRINTED, RELEASED],
    },
    Connection {
        stream: &[GET_DOCUMENT],
        acted: 0,
        end: End::Closed,
        wanted: &[Success("application/pdf", b"%PDF")],
    },
];

/// The head of a report of 12 bytes.
const REPORT_12: &[u8] =
    b"POST /device/report HTTP/1.1\r\nContent-Type: text/plain\r\nContent-Length: 12\r\n\r\n";

/// The head of a report of 20 bytes.
const REPORT_20: &[u8] =
    b"POST /device/report HTTP/1.1\r\nContent-Type: text/plain\r\nContent-Length: 20\r\n\r\n";

const REPORTS: &[Connection<'static>] = &[
    PRINT_AND_RELEASE,
    Connection {
        stream: &[REPORT_12, b"7 1 start 0\n"],
        acted: 1,
        end: End::Closed,
        wanted: &[Success(TEXT, b"refused 2 no-job\n")],
    },
    Connection {
        stream: &[REPORT_20, b"1 1 start 100000001\n"],
        acted: 1,
        end: End::Closed,
        wanted: &[Success(TEXT, b"refused 4 range\n")],
    },
    Connection {
        stream: &[REPORT_START],
        acted: 1,
        end: End::Closed,
        wanted: &[Success(TEXT, b"ok 1 5 0\n")],
    },
    LOOK_AT_NONE,
    FETCH,
    Connection {
        stream: &[REPORT_12, b"1 2 stop 04\n"],
        acted: 1,
        end: End::Closed,
        wanted: &[NO_LINE],
    },
    Connection {
        stream: &[
            b"POST /device/report HTTP/1.1\r\nContent-Type: TEXT/plain;charset=utf-8\r\nTransfer-Encoding: chunked\r\n\r\n4\r\n1 2 \r\n7\r\nstop 4\n\r\n0\r\n\r\n",
        ],
        acted: 1,
        end: End::Closed,
        wanted: &[Success(TEXT, b"ok 1 6 4\n")],
    },
    FETCH,
];

const NO_LINES: &[Connection<'static>] = &[
    Connection {
        stream: &[NO_REPORT],
        acted: 1,
        end: End::Closed,
        wanted: &[NO_LINE],
    },
    Connection {
        stream: &[
            b"POST /device/report HTTP/1.1\r\nContent-Type: text/plain\r\nContent-Length: 0\r\nContent-Length: 0\r\n\r\n",
        ],
        acted: 1,
        end: End::Closed,
        wanted: &[NO_LINE],
    },
];

const REFUSED_MESSAGES: &[Connection<'static>] = &[
    Connection {
        stream: &[POST_JOB, PRINT_JOB_3_0],
        acted: 1,
        end: End::Closed,
        wanted: &[Success(IPP, OTHER_VERSION)],
    },
    Connection {
        stream: &[POST_BROKEN_OFF, BROKEN_OFF],
        acted: 1,
        end: End::Closed,
        wanted: &[Success(IPP, BAD_REQUEST)],
    },
    PRINT,
];

/// A job from its Print-Job to its end, and behind it a connection that is asked to end.
const WHOLE_JOB: Connection<'static> = Connection {
    stream: &[
        POST_JOB,
        PRINT_JOB,
        POST_RELEASE,
        RELEASE_JOB,
        GET_QUEUE,
        GET_DOCUMENT,
        REPORT_START,
        REPORT_DONE,
        POST_JOB,
        PRINT_JOB,
        b"GET http://h/device/queue?a HTTP/1.1\r\nConnection: close\r\n\r\n",
        POST_JOB,
        PRINT_JOB,
    ],
    acted: 5,
    end: End::Done,
    wanted: &[
        PRINTED,
        RELEASED,
        Success(TEXT, b"1 1 1 2\n"),
        Success(OCTETS, b"hi"),
        Success(TEXT, b"ok 1 5 0\n"),
        Success(TEXT, b"ok 1 9 20\n"),
        Success(IPP, JOB_2),
        Last(TEXT, b""),
    ],
};

/// Print-Jobs whose heads are spelled otherwise.
static HEADS_OF_PRINT_JOBS: [Row; 4] = [
    ("the smallest Print-Job", &[PRINT]),
    ("other targets of a Print-Job", TARGETS),
    ("a whole target of a Print-Job", WHOLE_TARGET),
    ("other spellings of a head", HEADS),
];

#[test]
fn print_jobs_with_other_heads(rt: HostRuntime) -> Result<(), Failed> {
    take_rows(rt.alloc(), &HEADS_OF_PRINT_JOBS, &AT_EACH_SPEED)
}

/// Print-Jobs whose bodies come otherwise, or that are the last of their connection.
static BODIES_OF_PRINT_JOBS: [Row; 4] = [
    ("a body in one chunk", CHUNKED),
    ("one chunk with an extension and trailers", ONE_CHUNK),
    ("a body that waits for leave", WAITING),
    ("connections that are asked to end", ARE_TO_END),
];

#[test]
fn print_jobs_with_other_bodies(rt: HostRuntime) -> Result<(), Failed> {
    take_rows(rt.alloc(), &BODIES_OF_PRINT_JOBS, &AT_EACH_SPEED)
}

/// What the device asks for.
static LOOKS: [Row; 3] = [
    ("the queue and a document", QUEUE_AND_DOCUMENT),
    ("the queue of a released and a held job", RELEASED_AND_HELD),
    ("the format of a document", PDF_DOCUMENT),
];

#[test]
fn the_queue_and_documents(rt: HostRuntime) -> Result<(), Failed> {
    take_rows(rt.alloc(), &LOOKS, &AT_EACH_SPEED)
}

/// What it tells.
static LINES: [Row; 2] = [
    ("lines of the device", REPORTS),
    ("bodies that are no line", NO_LINES),
];

#[test]
fn lines_of_the_device(rt: HostRuntime) -> Result<(), Failed> {
    take_rows(rt.alloc(), &LINES, &AT_EACH_SPEED)
}

static MESSAGES: [Row; 2] = [
    (
        "messages that are refused in their own words",
        REFUSED_MESSAGES,
    ),
    (
        "a job from its Print-Job to its end in one stream",
        &[WHOLE_JOB],
    ),
];

#[test]
fn refused_messages_and_a_whole_job(rt: HostRuntime) -> Result<(), Failed> {
    take_rows(rt.alloc(), &MESSAGES, &AT_EACH_SPEED)
}
