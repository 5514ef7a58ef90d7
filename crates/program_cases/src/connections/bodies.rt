//! Bodies that are large.

use crate::desk::books::{DeskBook, MemoryBook};
use crate::desk::compare::{Failed, Mismatch};
use crate::desk::connection::Wanted::Success;
use crate::desk::connection::{Connection, broken_off, faultless, filled, wanted_bytes};
use crate::desk::jobs::{PRINTED, RELEASED};
use crate::desk::messages::{PRINT_JOB_BEGUN, RELEASE_JOB};
use crate::desk::queue::{Exchange, Queue};
use crate::desk::requests::{GET_DOCUMENT, OCTETS, POST_RELEASE};
use crate::desk::rows::{Row, take_rows};
use crate::desk::streams::{AT_LONG_SPEEDS, AT_ONCE, Way, by};
use http_front::{End, ServeCause};
use list_book::ListBook;
use std::alloc::Global;

/// A part of a document.
const MUCH: &[u8] = &[b'0'; 4096];

/// The rest of a document by which the Print-Job has 20,000 bytes.
const REST: &[u8] = &[b'0'; 20_000 - PRINT_JOB_BEGUN.len() - 4 * 4096];

/// A Print-Job of 20,000 bytes by its length, and in one chunk.
static ROWS: [Row; 2] = [
    (
        "a long body of a told length",
        &[Connection {
            stream: &[
                b"POST /ipp/print HTTP/1.1\r\nContent-Type: application/ipp\r\nContent-Length: 20000\r\n\r\n",
                PRINT_JOB_BEGUN,
                MUCH,
                MUCH,
                MUCH,
                MUCH,
                REST,
            ],
            acted: 1,
            end: End::Closed,
            wanted: &[PRINTED],
        }],
    ),
    (
        "a long chunk",
        &[Connection {
            stream: &[
                b"POST /ipp/print HTTP/1.1\r\nContent-Type: application/ipp\r\nTransfer-Encoding: chunked\r\n\r\n4e20\r\n",
                PRINT_JOB_BEGUN,
                MUCH,
                MUCH,
                MUCH,
                MUCH,
                REST,
                b"\r\n0\r\n\r\n",
            ],
            acted: 1,
            end: End::Closed,
            wanted: &[PRINTED],
        }],
    ),
];

#[test]
fn long_bodies(rt: HostRuntime) -> Result<(), Failed> {
    take_rows(rt.alloc(), &ROWS, &AT_LONG_SPEEDS)
}

/// How many bytes the head of the document's answer has.
const HEAD: usize = 83;

/// The most bytes of a write to a client that is to fail.
const PIECE: usize = 8192;

/// After how many bytes of the document's answer a writer fails: inside a write, where the head begins, and at each write behind the head.
static ROOMS: [usize; 23] = [
    0,
    1,
    82,
    84,
    8192,
    65_620,
    HEAD,
    HEAD + PIECE,
    HEAD + 2 * PIECE,
    HEAD + 3 * PIECE,
    HEAD + 4 * PIECE,
    HEAD + 5 * PIECE,
    HEAD + 6 * PIECE,
    HEAD + 7 * PIECE,
    HEAD + 8 * PIECE,
    HEAD + 9 * PIECE,
    HEAD + 10 * PIECE,
    HEAD + 11 * PIECE,
    HEAD + 12 * PIECE,
    HEAD + 13 * PIECE,
    HEAD + 14 * PIECE,
    HEAD + 15 * PIECE,
    HEAD + 16 * PIECE,
];

/// A document of 131,073 bytes is printed and released.
fn print_large<B: DeskBook>(queue: &mut Queue<B>, document: &[u8]) {
    let prints = Connection {
        stream: &[
            b"POST /ipp/print HTTP/1.1\r\nContent-Type: application/ipp\r\nContent-Length: 131216\r\n\r\n",
            PRINT_JOB_BEGUN,
            document,
            POST_RELEASE,
            RELEASE_JOB,
        ],
        acted: 2,
        end: End::Closed,
        wanted: &[PRINTED, RELEASED],
    };
    queue.take(&prints, by(4096));
}

/// The document is fetched by writers that fail, and by one that takes it whole.
fn fetch_large<B: DeskBook>(queue: &mut Queue<B>, answers: &[u8]) {
    let whole = Exchange {
        stream: GET_DOCUMENT,
        answers,
        outcome: Ok(faultless(0, End::Closed)),
        past: 1,
    };
    let broken = Exchange {
        outcome: Err(broken_off(0, ServeCause::Write)),
        ..whole
    };
    for room in &ROOMS {
        let way = Way {
            room: *room,
            write: PIECE,
            ..AT_ONCE
        };
        queue.exchange(&broken, way);
    }
    queue.exchange(&whole, by(4096));
}

/// It is printed, released and fetched.
fn take_large<B: DeskBook>(alloc: Global, document: &[u8], answers: &[u8]) -> Result<(), Mismatch> {
    let mut queue = Queue::<B>::granted(alloc)?;
    print_large(&mut queue, document);
    fetch_large(&mut queue, answers);
    queue.end()
}

#[test]
fn a_large_document(rt: HostRuntime) -> Result<(), Mismatch> {
    let document = filled(rt.alloc(), &[(b"0123456", 18_724), (b"01234", 1)])?;
    let answers = wanted_bytes(rt.alloc(), &[Success(OCTETS, document.as_slice())])?;
    take_large::<ListBook>(rt.alloc(), document.as_slice(), answers.as_slice())?;
    take_large::<MemoryBook>(rt.alloc(), document.as_slice(), answers.as_slice())
}
