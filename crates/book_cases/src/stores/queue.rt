//! A queue with a job in each phase.

use crate::desk::book::StepBook;
use crate::desk::fault::StepFault;
use crate::desk::request::Request;
use crate::desk::request::Request::{Cancel, Create, PrintThis, Release, Send};
use crate::desk::step::Step;
use crate::desk::step::Step::{Ask, Dev, Grant};
use crate::desk::{Desk, printer};
use crate::stores::tables::{Tables, opened};
use queue_store::TableBook;
use queue_types::settings::Settings;
use sqlite::{Connection, MemStore};
use std::alloc::{AllocError, Global};
use std::test::Fail;

/// The first document of job 7.
const HI: Request<'static> = Send {
    job: 7,
    document: b"hi",
    last: false,
};

/// What makes the queue, but for the second document of job 7, which is long.
///
/// | Job | Owner | Phase |
/// |---|---|---|
/// | 1 | alice | completed, 25 pages |
/// | 2 | alice | canceled by its user |
/// | 3 | alice | canceled at the device, 3 pages |
/// | 4 | alice | aborted, 6 pages |
/// | 5 | alice | running, and asked to stop |
/// | 6 | alice | stopped, 4 pages |
/// | 7 | alice | waiting for the device, with two documents |
/// | 8 | bob | on hold |
/// | 9 | alice | released, and open for documents |
/// | 10 | carol, who has no account | on hold |
static FIRST: &[Step<'static>] = &[
    Grant(b"f24,alice,300\nf24,bob,50\n", Ok((2, 0))),
    Ask("alice", PrintThis(b"one"), 0x0000),
    Ask("alice", PrintThis(b"two"), 0x0000),
    Ask("alice", PrintThis(b"three"), 0x0000),
    Ask("alice", PrintThis(b"four"), 0x0000),
    Ask("alice", PrintThis(b"five"), 0x0000),
    Ask("alice", PrintThis(b"six"), 0x0000),
    Ask("alice", Create, 0x0000),
    Ask("bob", PrintThis(b"eight"), 0x0000),
    Ask("alice", Create, 0x0000),
    Ask("carol", PrintThis(b"ten"), 0x0000),
    Ask("alice", HI, 0x0000),
];

static SECOND: &[Step<'static>] = &[
    Ask("alice", Release(1), 0x0000),
    Ask("alice", Release(3), 0x0000),
    Ask("alice", Release(4), 0x0000),
    Ask("alice", Release(5), 0x0000),
    Ask("alice", Release(6), 0x0000),
    Ask("alice", Release(7), 0x0000),
    Ask("alice", Release(9), 0x0000),
    Ask("alice", Cancel(2), 0x0000),
    Dev("1 1 start 0", "ok 1 5 0"),
    Dev("1 2 count 12", "ok 1 5 12"),
    Dev("1 3 done 25", "ok 1 9 25"),
    Dev("3 1 start 0", "ok 3 5 0"),
    Dev("3 2 halt 3", "ok 3 7 3"),
    Dev("4 1 start 0", "ok 4 5 0"),
    Dev("4 2 fail 6", "ok 4 8 6"),
    Dev("5 1 start 0", "ok 5 5 0"),
    Ask("alice", Cancel(5), 0x0000),
    Dev("6 1 start 0", "ok 6 5 0"),
    Dev("6 2 stop 4", "ok 6 6 4"),
];

/// How many bytes the long document of job 7 has.
pub(super) const LONG: usize = 131_073;

/// Bytes 0 to 255, again and again, so that whole pieces of a document are alike.
pub(super) fn long_document(alloc: Global, length: usize) -> Result<Vec<u8>, AllocError> {
    (0..=255u8).cycle().take(length).collect(alloc)
}

/// The long document is sent to job 7.
fn send_long<B: StepBook>(desk: &mut Desk, book: &mut B) -> Result<(), StepFault> {
    let document = long_document(desk.alloc(), LONG)?;
    let send = Send {
        job: 7,
        document: document.as_slice(),
        last: true,
    };
    desk.take_by_seconds(book, &[Ask("alice", send, 0x0000)])
}

/// Makes the queue in a book without jobs, by a desk at moment 1.
fn fill_at<B: StepBook>(desk: &mut Desk, book: &mut B) -> Result<(), StepFault> {
    desk.take_by_seconds(book, FIRST)?;
    send_long(desk, book)?;
    desk.take_by_seconds(book, SECOND)
}

/// Makes the queue in a book without jobs.
pub(super) fn fill<B: StepBook>(alloc: Global, book: &mut B) -> Result<(), StepFault> {
    fill_at(&mut Desk::new(alloc)?, book)
}

/// Takes steps with a book.
pub(super) fn take_steps<B: StepBook>(
    alloc: Global,
    book: &mut B,
    steps: &[Step<'_>],
) -> Result<(), StepFault> {
    Desk::new(alloc)?.take_each(book, steps)
}

/// A new book in memory.
pub(super) fn new_book(alloc: Global, settings: Settings) -> Result<TableBook<MemStore>, Fail> {
    let conn = Connection::open_in_memory(alloc)?;
    opened(TableBook::create(alloc, conn, settings))
}

/// A new book of the printer in memory.
pub(super) fn empty_book(alloc: Global) -> Result<TableBook<MemStore>, Fail> {
    new_book(alloc, printer(alloc)?)
}

/// The tables of the queue.
pub(super) fn full_tables(alloc: Global) -> Result<Tables, Fail> {
    let mut book = empty_book(alloc)?;
    fill(alloc, &mut book)?;
    Ok(Tables::of(alloc, book))
}
