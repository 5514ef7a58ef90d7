//! Requests that are refused: each fails one check, and those behind it.

use crate::desk::compare::Failed;
use crate::desk::connection::Wanted::Continue;
use crate::desk::refused::{
    BAD, GET_ALLOWED, NO_LENGTH, NOT_FOUND, OTHER_TYPE, POST_ALLOWED, TOO_LARGE,
};
use crate::desk::requests::{POST_CHUNKED, POST_WAITING};
use crate::desk::rows::Rest::Short;
use crate::desk::rows::{Rest, Streams, come_to_their_ends};
use http_front::End;

/// Heads that can't be read.
const UNREADABLE_HEADS: &[Rest] = &[
    Short(b"GET /\x80 HTTP/1.1\r\n\r\n"),
    Short(b"\x00"),
    Short(b"GET /device/queue HTTP/2.0\r\n\r\n"),
    Short(b"a b c d\r\n\r\n"),
    Short(b"GET /device/queue HTTP/1.1\r\na b\r\n\r\n"),
    Short(b"GET  /device/queue HTTP/1.1\r\n\r\n"),
    Short(b"GET /device/queue HTTP/1.2\r\n\r\n"),
    Short(b"GET /device/queue HTTP/1.1\r\nA: b\r\n c\r\n\r\n"),
    Short(b"GET /device/queue HTTP/1.1\r\nContent-Length : 0\r\n\r\n"),
    Short(b"GET /device/queue HTTP/1.1\r\nA: b\x0Bc\r\n\r\n"),
    Short(b"GET /device/queue HTTP/1.1\r\nA: b\rC: d\r\n\r\n"),
];

/// Lengths that can't be read.
const UNREADABLE_LENGTHS: &[Rest] = &[
    Short(
        b"POST /ipp/print HTTP/1.1\r\nExpect: 100-continue\r\nContent-Type: application/ipp\r\nContent-Length: 145\r\nTransfer-Encoding: chunked\r\n\r\n",
    ),
    Short(b"PUT /nothing HTTP/1.1\r\nContent-Length: 5\r\nTransfer-Encoding: chunked\r\n\r\n"),
    Short(b"PUT /nothing HTTP/1.1\r\nTransfer-Encoding: gzip, chunked\r\n\r\n"),
    Short(b"PUT /nothing HTTP/1.1\r\nTransfer-Encoding: identity\r\n\r\n"),
    Short(
        b"PUT /nothing HTTP/1.1\r\nTransfer-Encoding: chunked\r\nTransfer-Encoding: chunked\r\n\r\n",
    ),
    Short(b"PUT /nothing HTTP/1.1\r\nContent-Length: +5\r\n\r\n"),
    Short(b"PUT /nothing HTTP/1.1\r\nContent-Length: 5, 5\r\n\r\n"),
    Short(b"PUT /nothing HTTP/1.1\r\nContent-Length: 000000000000000000005\r\n\r\n"),
    Short(b"PUT /nothing HTTP/1.1\r\nContent-Length: 5\r\nContent-Length: 05\r\n\r\n"),
    Short(b"PUT /nothing HTTP/1.1\r\nContent-Length:\r\n\r\n"),
];

/// Targets without a route.
const WITHOUT_A_ROUTE: &[Rest] = &[
    Short(
        b"POST /nothing HTTP/1.1\r\nExpect: 100-continue\r\nContent-Type: application/ipp\r\nContent-Length: 145\r\n\r\n",
    ),
    Short(b"PUT /nothing HTTP/1.1\r\nContent-Length: 99999999\r\n\r\n"),
    Short(b"PUT / HTTP/1.1\r\nContent-Length: 99999999\r\n\r\n"),
    Short(b"PUT /IPP/print HTTP/1.1\r\nContent-Length: 99999999\r\n\r\n"),
    Short(b"PUT /ipp/print/ HTTP/1.1\r\n\r\n"),
    Short(b"PUT /ipp/print/a/b HTTP/1.1\r\n\r\n"),
    Short(b"PUT /device/document/1 HTTP/1.1\r\n\r\n"),
    Short(b"PUT http://h HTTP/1.1\r\n\r\n"),
    Short(b"PUT HTTP://h/device/queue HTTP/1.1\r\n\r\n"),
    Short(b"OPTIONS * HTTP/1.1\r\n\r\n"),
    Short(b"PUT /ipp/print#x HTTP/1.1\r\n\r\n"),
    Short(b"PUT /ipp/prin%74 HTTP/1.1\r\n\r\n"),
    Short(b"PUT /device/queue/ HTTP/1.1\r\n\r\n"),
    Short(b"PUT //device/queue HTTP/1.1\r\n\r\n"),
    Short(b"PUT /device/document//1 HTTP/1.1\r\n\r\n"),
    Short(b"PUT /\xC3\xBC HTTP/1.1\r\n\r\n"),
    Short(b"PUT http://h?/ipp/print HTTP/1.1\r\n\r\n"),
];

/// Other methods than POST.
const NOT_BY_POST: &[Rest] = &[
    Short(
        b"PUT /ipp/print HTTP/1.1\r\nExpect: 100-continue\r\nContent-Type: application/ipp\r\nContent-Length: 145\r\n\r\n",
    ),
    Short(b"PUT /ipp/print HTTP/1.1\r\nContent-Length: 99999999\r\n\r\n"),
    Short(b"GET /ipp/print HTTP/1.1\r\nContent-Length: 99999999\r\n\r\n"),
    Short(b"post /ipp/print/1 HTTP/1.1\r\n\r\n"),
    Short(b"HEAD /device/report HTTP/1.1\r\n\r\n"),
];

/// Other methods than GET.
const NOT_BY_GET: &[Rest] = &[
    Short(b"HEAD /device/queue HTTP/1.1\r\nContent-Length: 1\r\n\r\n"),
    Short(b"POST /device/queue HTTP/1.1\r\n\r\n"),
    Short(b"DELETE /device/document/a/b HTTP/1.1\r\nContent-Length: 99999999\r\n\r\n"),
    Short(b"M-SEARCH /device/queue HTTP/1.1\r\n\r\n"),
];

/// Bodies that may not come.
const BODIES_OF_GET: &[Rest] = &[
    Short(b"GET /device/queue HTTP/1.1\r\nContent-Length: 1\r\n\r\n"),
    Short(b"GET /device/queue HTTP/1.1\r\nContent-Length: 99999999\r\n\r\n"),
    Short(b"GET /device/document/01/1 HTTP/1.1\r\nTransfer-Encoding: chunked\r\n\r\n"),
];

/// Bodies without a length.
const WITHOUT_A_LENGTH: &[Rest] = &[
    Short(b"POST /ipp/print HTTP/1.1\r\nExpect: 100-continue\r\n\r\n"),
    Short(b"POST /ipp/print HTTP/1.1\r\n\r\n"),
    Short(b"POST /device/report HTTP/1.1\r\nContent-Encoding: gzip\r\n\r\n"),
];

/// Bodies of too many bytes.
const TOO_LONG: &[Rest] = &[
    Short(
        b"POST /ipp/print HTTP/1.1\r\nExpect: 100-continue\r\nContent-Type: application/ipp\r\nContent-Length: 16777217\r\n\r\n",
    ),
    Short(b"POST /ipp/print HTTP/1.1\r\nContent-Length: 16777217\r\n\r\n"),
    Short(b"POST /ipp/print HTTP/1.1\r\nContent-Length: 99999999999999999999\r\n\r\n"),
];

/// Other types.
const OTHER_TYPES: &[Rest] = &[
    Short(
        b"POST /ipp/print HTTP/1.1\r\nExpect: 100-continue\r\nContent-Type: text/plain\r\nContent-Length: 145\r\n\r\n",
    ),
    Short(b"POST /ipp/print HTTP/1.1\r\nContent-Length: 16777216\r\n\r\n"),
    Short(b"POST /ipp/print HTTP/1.1\r\nContent-Type: text/plain\r\nContent-Length: 7\r\n\r\n"),
    Short(
        b"POST /device/report HTTP/1.1\r\nContent-Type: application/ipp\r\nContent-Length: 7\r\n\r\n",
    ),
    Short(
        b"POST /ipp/print HTTP/1.1\r\nContent-Type: application/ipp\r\nContent-Type: text/plain\r\nContent-Length: 7\r\n\r\n",
    ),
    Short(
        b"POST /ipp/print HTTP/1.1\r\nContent-Type: application/ipp\t;x\r\nContent-Length: 7\r\n\r\n",
    ),
    Short(
        b"POST /ipp/print HTTP/1.1\r\nContent-Type: application/ipp\r\nContent-Encoding: gzip\r\nContent-Length: 7\r\n\r\n",
    ),
    Short(
        b"POST /ipp/print HTTP/1.1\r\nContent-Type: application/ipp\r\nContent-Encoding:\r\nContent-Length: 7\r\n\r\n",
    ),
    Short(
        b"POST /ipp/print HTTP/1.1\r\nContent-Type: application/ipp\r\nContent-Encoding: identity\r\nContent-Encoding: gzip\r\nTransfer-Encoding: chunked\r\n\r\nzz\r\n",
    ),
];

/// Bodies that are no message.
const NO_MESSAGES: &[Rest] = &[
    Short(
        b"POST /ipp/print HTTP/1.1\r\nContent-Type: application/ipp\r\nContent-Length: 7\r\n\r\n\x01\x01\x00\x02\x00\x00\x00",
    ),
    Short(
        b"POST /ipp/print HTTP/1.1\r\nContent-Type: application/ipp\r\nContent-Length: 0\r\n\r\n",
    ),
    Short(
        b"POST /ipp/print HTTP/1.1\r\nContent-Type: application/ipp\r\nTransfer-Encoding: chunked\r\n\r\n0\r\n\r\n",
    ),
];

/// Chunks that can't be read.
const UNREADABLE_CHUNKS: &[Rest] = &[
    Short(b"zz\r\n"),
    Short(b"\r\n"),
    Short(b"1\r\nab"),
    Short(b"1\r\nax"),
    Short(b"1\r\na\n"),
    Short(b"1\r\na\rx"),
    Short(b"00000000000000001\r\n"),
    Short(b"0\r\na b\r\n\r\n"),
    Short(b"1\nx"),
    Short(b" 1\r\n"),
    Short(b"+1\r\n"),
    Short(b"0x1\r\n"),
    Short(b"1 x\r\n"),
    Short(b"1;a\nx"),
];

/// Chunks of too many bytes.
const TOO_LARGE_CHUNKS: &[Rest] = &[
    Short(b"1000001\r\n"),
    Short(b"FFFFFFFFFFFFFFFF\r\n"),
    Short(b"1\r\na\r\n1000000\r\n"),
];

static HEADS: [Streams; 3] = [
    Streams {
        name: "heads that can't be read",
        front: b"",
        rests: UNREADABLE_HEADS,
        jobs: 1,
        acted: 0,
        end: End::Refused(400),
        wanted: &[BAD],
    },
    // one wrong byte refuses them, also where the input ends behind it
    Streams {
        name: "heads that can't be read at the end of the input",
        front: b"",
        rests: UNREADABLE_HEADS,
        jobs: 0,
        acted: 0,
        end: End::Refused(400),
        wanted: &[BAD],
    },
    Streams {
        name: "lengths that can't be read",
        front: b"",
        rests: UNREADABLE_LENGTHS,
        jobs: 1,
        acted: 0,
        end: End::Refused(400),
        wanted: &[BAD],
    },
];

#[test]
fn heads_and_lengths_that_cannot_be_read(rt: HostRuntime) -> Result<(), Failed> {
    come_to_their_ends(rt.alloc(), &HEADS)
}

static TARGETS: [Streams; 3] = [
    Streams {
        name: "targets without a route",
        front: b"",
        rests: WITHOUT_A_ROUTE,
        jobs: 1,
        acted: 0,
        end: End::Refused(404),
        wanted: &[NOT_FOUND],
    },
    Streams {
        name: "other methods than POST",
        front: b"",
        rests: NOT_BY_POST,
        jobs: 1,
        acted: 0,
        end: End::Refused(405),
        wanted: &[POST_ALLOWED],
    },
    Streams {
        name: "other methods than GET",
        front: b"",
        rests: NOT_BY_GET,
        jobs: 1,
        acted: 0,
        end: End::Refused(405),
        wanted: &[GET_ALLOWED],
    },
];

#[test]
fn targets_without_a_route_and_other_methods(rt: HostRuntime) -> Result<(), Failed> {
    come_to_their_ends(rt.alloc(), &TARGETS)
}

static BODIES: [Streams; 6] = [
    Streams {
        name: "bodies that may not come",
        front: b"",
        rests: BODIES_OF_GET,
        jobs: 1,
        acted: 0,
        end: End::Refused(400),
        wanted: &[BAD],
    },
    Streams {
        name: "bodies without a length",
        front: b"",
        rests: WITHOUT_A_LENGTH,
        jobs: 1,
        acted: 0,
        end: End::Refused(411),
        wanted: &[NO_LENGTH],
    },
    Streams {
        name: "bodies of too many bytes",
        front: b"",
        rests: TOO_LONG,
        jobs: 1,
        acted: 0,
        end: End::Refused(413),
        wanted: &[TOO_LARGE],
    },
    Streams {
        name: "other types",
        front: b"",
        rests: OTHER_TYPES,
        jobs: 1,
        acted: 0,
        end: End::Refused(415),
        wanted: &[OTHER_TYPE],
    },
    // they are refused by the head
    Streams {
        name: "other types whose body has not come",
        front: b"",
        rests: OTHER_TYPES,
        jobs: 0,
        acted: 0,
        end: End::Refused(415),
        wanted: &[OTHER_TYPE],
    },
    Streams {
        name: "bodies that are no message",
        front: b"",
        rests: NO_MESSAGES,
        jobs: 1,
        acted: 0,
        end: End::Refused(400),
        wanted: &[BAD],
    },
];

#[test]
fn bodies_that_are_refused(rt: HostRuntime) -> Result<(), Failed> {
    come_to_their_ends(rt.alloc(), &BODIES)
}

static CHUNKS: [Streams; 4] = [
    Streams {
        name: "chunks that can't be read",
        front: POST_WAITING,
        rests: UNREADABLE_CHUNKS,
        jobs: 1,
        acted: 0,
        end: End::Refused(400),
        wanted: &[Continue, BAD],
    },
    // one wrong byte refuses them, also where the input ends behind it
    Streams {
        name: "chunks that can't be read at the end of the input",
        front: POST_CHUNKED,
        rests: UNREADABLE_CHUNKS,
        jobs: 0,
        acted: 0,
        end: End::Refused(400),
        wanted: &[BAD],
    },
    Streams {
        name: "chunks of too many bytes",
        front: POST_WAITING,
        rests: TOO_LARGE_CHUNKS,
        jobs: 1,
        acted: 0,
        end: End::Refused(413),
        wanted: &[Continue, TOO_LARGE],
    },
    // they are refused by their size, before a byte of them is read
    Streams {
        name: "chunks of too many bytes that have not come",
        front: POST_CHUNKED,
        rests: TOO_LARGE_CHUNKS,
        jobs: 0,
        acted: 0,
        end: End::Refused(413),
        wanted: &[TOO_LARGE],
    },
];

#[test]
fn chunks_that_are_refused(rt: HostRuntime) -> Result<(), Failed> {
    come_to_their_ends(rt.alloc(), &CHUNKS)
}
