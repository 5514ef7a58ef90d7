//! Heads, chunks and lengths at their limits.

use crate::desk::books::{DeskBook, MemoryBook};
use crate::desk::compare::{Failed, Mismatch, failed_at};
use crate::desk::connection::Wanted::Success;
use crate::desk::connection::{Wanted, faultless, filled, wanted_bytes};
use crate::desk::queue::{Exchange, Queue};
use crate::desk::refused::{BAD, HEAD_TOO_LARGE, NO_LINE, TOO_LARGE};
use crate::desk::requests::{POST_LARGEST, TEXT};
use crate::desk::rows::Rest::{Long, Short};
use crate::desk::rows::{Streams, come_to_their_ends};
use crate::desk::streams::{Behind, Way, by, speeds_for};
use http_front::{End, Served};
use list_book::ListBook;
use std::alloc::{AllocError, Global};

/// The request line of a GET of the device's queue.
const QUEUE_LINE: &[u8] = b"GET /device/queue HTTP/1.1\r\n";

/// How many bytes a field `a` may have for a head of 16,384 bytes.
const ROOM: usize = 16_384 - QUEUE_LINE.len() - 6;

/// The front of a head that fails the checks behind its limits.
const CROOKED: &[u8] =
    b"PUT /nothing HTTP/1.1\r\nContent-Length: 99999999\r\nTransfer-Encoding: gzip\r\n";

/// A POST of one byte, up to its chunk's extension.
const CHUNK: &[u8] =
    b"POST /device/report HTTP/1.1\r\nContent-Type: text/plain\r\nTransfer-Encoding: chunked\r\n\r\n1;";

/// How many bytes a field `a` may have for a trailer section of 16,384 bytes.
const TRAILER_ROOM: usize = 16_384 - 6;

static ROWS: [Streams; 10] = [
    // a head of 64 fields, and one of 16,384 bytes
    Streams {
        name: "heads at their limits",
        front: QUEUE_LINE,
        rests: &[
            Long(b"", (b"a:b\r\n", 64), b"\r\n"),
            Long(b"a:", (b"b", ROOM), b"\r\n\r\n"),
        ],
        jobs: 0,
        acted: 0,
        end: End::Closed,
        wanted: &[Success(TEXT, b"")],
    },
    // heads of 65 fields, of 16,385 bytes and more, and of no end
    Streams {
        name: "heads past their limits",
        front: QUEUE_LINE,
        rests: &[
            Long(b"", (b"a:b\r\n", 65), b"\r\n"),
            Long(b"", (b"a:b\r\n", 65), b"bad line\r\n\r\n"),
            Long(b"a:", (b"b", ROOM + 1), b"\r\n\r\n"),
        ],
        jobs: 1,
        acted: 0,
        end: End::Refused(431),
        wanted: &[HEAD_TOO_LARGE],
    },
    Streams {
        name: "crooked heads past their limits",
        front: CROOKED,
        rests: &[
            Long(b"", (b"a:b\r\n", 63), b"\r\n"),
            Long(b"a:", (b"b", 16_384), b"\r\n\r\n"),
        ],
        jobs: 1,
        acted: 0,
        end: End::Refused(431),
        wanted: &[HEAD_TOO_LARGE],
    },
    Streams {
        name: "a method without an end",
        front: b"",
        rests: &[Long(b"", (b"a", 20_000), b"")],
        jobs: 1,
        acted: 0,
        end: End::Refused(431),
        wanted: &[HEAD_TOO_LARGE],
    },
    // as many fields as a head may have, and a line behind them that is none
    Streams {
        name: "a wrong line behind sixty-four fields",
        front: QUEUE_LINE,
        rests: &[Long(b"", (b"a:b\r\n", 64), b"bad line\r\n\r\n")],
        jobs: 1,
        acted: 0,
        end: End::Refused(400),
        wanted: &[BAD],
    },
    // 65 field lines of a head, behind which the input ends
    Streams {
        name: "fields past their number without an end",
        front: QUEUE_LINE,
        rests: &[Long(b"", (b"a:b\r\n", 65), b"")],
        jobs: 0,
        acted: 0,
        end: End::Refused(431),
        wanted: &[HEAD_TOO_LARGE],
    },
    // a chunk line of 1,024 bytes, a trailer section of 64 fields, and one of 16,384 bytes
    Streams {
        name: "chunks at their limits",
        front: CHUNK,
        rests: &[
            Long(b"", (b"a", 1020), b"\r\nx\r\n0\r\n\r\n"),
            Long(b"\r\nx\r\n0\r\n", (b"a:b\r\n", 64), b"\r\n"),
            Long(b"\r\nx\r\n0\r\na:", (b"b", TRAILER_ROOM), b"\r\n\r\n"),
        ],
        jobs: 0,
        acted: 1,
        end: End::Closed,
        wanted: &[NO_LINE],
    },
    // chunk lines of 1,025 bytes and of no end, and trailer sections of 65 fields, of 16,385 bytes and more, and of no end
    Streams {
        name: "chunks past their limits",
        front: CHUNK,
        rests: &[
            Long(b"", (b"a", 1021), b"\r\nx\r\n0\r\n\r\n"),
            Long(b"", (b"a", 1023), b""),
            Long(b"\r\nx\r\n0\r\n", (b"a:b\r\n", 65), b"\r\n"),
            Long(b"\r\nx\r\n0\r\na:", (b"b", TRAILER_ROOM + 1), b"\r\n\r\n"),
            Long(
                b"\r\nx\r\n0\r\na:bbbbbbbbbbbbb\r\nc:",
                (b"b", 16_385),
                b"\r\n\r\n",
            ),
            Long(b"\r\nx\r\n0\r\na:", (b"b", 20_000), b""),
        ],
        jobs: 1,
        acted: 0,
        end: End::Refused(400),
        wanted: &[BAD],
    },
    // 65 field lines of trailers, behind which the input ends
    Streams {
        name: "trailers past their number without an end",
        front: CHUNK,
        rests: &[Long(b"\r\nx\r\n0\r\n", (b"a:b\r\n", 65), b"")],
        jobs: 0,
        acted: 0,
        end: End::Refused(400),
        wanted: &[BAD],
    },
    // the heads of bodies of 16,777,216 bytes, and one whose chunks have as many
    Streams {
        name: "lengths that may still come",
        front: b"",
        rests: &[
            Short(POST_LARGEST),
            Short(
                b"POST /ipp/print HTTP/1.1\r\nContent-Type: application/ipp\r\nTransfer-Encoding: chunked\r\n\r\n1000000\r\n",
            ),
            Short(
                b"POST /ipp/print HTTP/1.1\r\nContent-Type: application/ipp\r\nTransfer-Encoding: chunked\r\n\r\n1\r\nx\r\nffffff;\r\n",
            ),
        ],
        jobs: 0,
        acted: 0,
        end: End::Cut,
        wanted: &[],
    },
];

#[test]
fn heads_and_chunks_at_their_limits(rt: HostRuntime) -> Result<(), Failed> {
    come_to_their_ends(rt.alloc(), &ROWS)
}

/// What reads give without end, behind a front.
#[derive(Clone, Copy)]
struct Endless {
    front: &'static [u8],
    /// How many bytes of it at most are asked for behind that.
    past: usize,
    /// By what it is refused.
    code: u16,
    wanted: Wanted<'static>,
}

/// A method without end.
const METHOD: Endless = Endless {
    front: b"",
    past: 20_480,
    code: 431,
    wanted: HEAD_TOO_LARGE,
};

static ENDLESS: [Endless; 3] = [
    METHOD,
    Endless {
        front: QUEUE_LINE,
        ..METHOD
    },
    Endless {
        front: CHUNK,
        past: 5_120,
        code: 400,
        wanted: BAD,
    },
];

/// Bytes come in this way to an empty queue in a book: this comes of it.
fn come_in<B: DeskBook>(alloc: Global, exchange: &Exchange<'_>, way: Way) -> Result<(), Mismatch> {
    let mut queue = Queue::<B>::new(alloc)?;
    queue.exchange(exchange, way);
    queue.end()
}

/// A row is refused so over a book, at each of these speeds.
fn refuse_endless<B: DeskBook>(
    alloc: Global,
    row: &Endless,
    speeds: &[usize],
) -> Result<(), Mismatch> {
    let answers = wanted_bytes(alloc, &[row.wanted])?;
    let exchange = Exchange {
        stream: row.front,
        answers: answers.as_slice(),
        outcome: Ok(faultless(0, End::Refused(row.code))),
        past: row.past,
    };
    for most in speeds {
        let way = Way {
            behind: Behind::Endless(b'a'),
            ..by(*most)
        };
        come_in::<B>(alloc, &exchange, way)?;
    }
    Ok(())
}

#[test]
fn input_without_end(rt: HostRuntime) -> Result<(), Mismatch> {
    for row in &ENDLESS {
        refuse_endless::<ListBook>(rt.alloc(), row, speeds_for(row.past))?;
        refuse_endless::<MemoryBook>(rt.alloc(), row, speeds_for(row.past))?;
    }
    Ok(())
}

#[test]
fn input_without_end_byte_by_byte(rt: HostRuntime) -> Result<(), Mismatch> {
    refuse_endless::<ListBook>(rt.alloc(), &METHOD, &[1])
}

#[test]
fn input_without_end_by_few_bytes(rt: HostRuntime) -> Result<(), Mismatch> {
    refuse_endless::<ListBook>(rt.alloc(), &METHOD, &[2, 7])
}

/// The head of a POST whose body comes in chunks.
const CHUNKED: &[u8] =
    b"POST /device/report HTTP/1.1\r\nContent-Type: text/plain\r\nTransfer-Encoding: chunked\r\n\r\n";

/// An end of a body to which the raw limit leaves 576 bytes.
struct RawEnd {
    name: &'static str,
    /// Its front, how many bytes `a` are behind that, and what is behind those.
    rest: (&'static [u8], usize, &'static [u8]),
    /// What it comes to.
    outcome: Served,
    wanted: &'static [Wanted<'static>],
}

/// The end of one that is too large.
const REFUSED: Served = Served {
    acted: 0,
    faults: 0,
    end: End::Refused(413),
};

/// Ends that keep the limit.
static WITHIN: [RawEnd; 3] = [
    RawEnd {
        name: "a chunked body at its raw limit",
        rest: (b"0;", 570, b"\r\n\r\n"),
        outcome: Served {
            acted: 1,
            faults: 0,
            end: End::Closed,
        },
        wanted: &[NO_LINE],
    },
    // the line announces 569 bytes, which are 576 with it and the CR LF behind them, and may still come
    RawEnd {
        name: "a chunk up to the raw limit",
        rest: (b"239\r\n", 0, b""),
        outcome: Served {
            acted: 0,
            faults: 0,
            end: End::Cut,
        },
        wanted: &[],
    },
    // what no line may have stands in the 576 bytes
    RawEnd {
        name: "a bad chunk line before the raw limit",
        rest: (b"1;\rx", 1100, b""),
        outcome: Served {
            acted: 0,
            faults: 0,
            end: End::Refused(400),
        },
        wanted: &[BAD],
    },
];

/// Chunk lines that pass it.
static LINES_PAST: [RawEnd; 3] = [
    // it has no end in 576 bytes
    RawEnd {
        name: "a chunk line past the raw limit",
        rest: (b"1;", 574, b""),
        outcome: REFUSED,
        wanted: &[TOO_LARGE],
    },
    // it has no end in 576 bytes; what no line may have stands behind them
    RawEnd {
        name: "a chunk line that can't be read past the raw limit",
        rest: (b"1;", 574, b"\rx"),
        outcome: REFUSED,
        wanted: &[TOO_LARGE],
    },
    // it has no end in 576 bytes, and more than a line may have stand there
    RawEnd {
        name: "a chunk line that is too long past the raw limit",
        rest: (b"1;", 1100, b""),
        outcome: REFUSED,
        wanted: &[TOO_LARGE],
    },
];

/// Trailers, and a chunk, that pass it.
static PAST: [RawEnd; 3] = [
    RawEnd {
        name: "trailers past the raw limit",
        rest: (b"0;", 571, b"\r\n\r\n"),
        outcome: REFUSED,
        wanted: &[TOO_LARGE],
    },
    // the chunk line leaves them 573 bytes, in which they have no end; what no field may have stands behind those
    RawEnd {
        name: "trailers that can't be read past the raw limit",
        rest: (b"0\r\na:", 571, b"\rx"),
        outcome: REFUSED,
        wanted: &[TOO_LARGE],
    },
    // the line announces 570 bytes, which are 577 with it and the CR LF behind them, and the input ends
    RawEnd {
        name: "a chunk past the raw limit",
        rest: (b"23a\r\n", 0, b""),
        outcome: REFUSED,
        wanted: &[TOO_LARGE],
    },
];

/// 65,344 of these chunks between these bytes.
fn in_chunks<'a>(
    alloc: Global,
    front: &'a [u8],
    chunk: &'a [u8],
    rest: &'a [u8],
) -> Result<Vec<u8>, AllocError> {
    filled(alloc, &[(front, 1), (chunk, 65_344), (rest, 1)])
}

/// A POST in chunks of one byte, each 1,027 bytes long by its extension, and such an end.
fn raw_body(
    alloc: Global,
    (begin, count, end): (&'static [u8], usize, &'static [u8]),
) -> Result<Vec<u8>, AllocError> {
    let chunk = filled(alloc, &[(b"1;", 1), (b"a", 1020), (b"\r\nx\r\n", 1)])?;
    let rest = filled(alloc, &[(begin, 1), (b"a", count), (end, 1)])?;
    in_chunks(alloc, CHUNKED, chunk.as_slice(), rest.as_slice())
}

/// One with this end comes to this, over the queue in lists.
fn take_raw_end(alloc: Global, row: &RawEnd) -> Result<(), Mismatch> {
    let stream = raw_body(alloc, row.rest)?;
    let answers = wanted_bytes(alloc, row.wanted)?;
    let exchange = Exchange {
        stream: stream.as_slice(),
        answers: answers.as_slice(),
        outcome: Ok(row.outcome),
        past: 1,
    };
    come_in::<ListBook>(alloc, &exchange, by(4096))
}

/// Each row does. A test has three of them, as each takes seconds.
fn take_each_raw(alloc: Global, rows: &[RawEnd]) -> Result<(), Failed> {
    for (step, row) in rows.iter().enumerate() {
        if let Err(why) = take_raw_end(alloc, row) {
            return Err(failed_at(row.name, step, why));
        }
    }
    Ok(())
}

#[test]
fn bodies_within_the_raw_limit(rt: HostRuntime) -> Result<(), Failed> {
    take_each_raw(rt.alloc(), &WITHIN)
}

#[test]
fn chunk_lines_past_the_raw_limit(rt: HostRuntime) -> Result<(), Failed> {
    take_each_raw(rt.alloc(), &LINES_PAST)
}

#[test]
fn trailers_and_a_chunk_past_the_raw_limit(rt: HostRuntime) -> Result<(), Failed> {
    take_each_raw(rt.alloc(), &PAST)
}
