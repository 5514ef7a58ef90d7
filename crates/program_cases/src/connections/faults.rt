//! A book that can't do what it is asked.

use crate::desk::books::{DeskBook, MemoryBook};
use crate::desk::compare::{Failed, Mismatch, failed_at};
use crate::desk::connection::Wanted::{Refusal, Success};
use crate::desk::connection::{Wanted, wanted_bytes};
use crate::desk::faulty::{Failure, FaultyBook, TAKES_NOTHING};
use crate::desk::jobs::{PRINT, RELEASE};
use crate::desk::messages::{FAULT, OTHER_VERSION, PRINT_JOB, PRINT_JOB_3_0};
use crate::desk::queue::{Exchange, Queue};
use crate::desk::refused::NO_LINE;
use crate::desk::requests::{
    GET_DOCUMENT, GET_QUEUE, IPP, NO_REPORT, OCTETS, POST_JOB, REPORT_START, TEXT,
};
use crate::desk::streams::AT_ONCE;
use http_front::{End, ServeCause, ServeFault, Served};
use list_book::ListBook;
use queue_core::{BookFault, SendCause, SendFault};
use std::alloc::Global;

/// Requests to a book in which job 1 of alice is released, and which fails so from then on.
struct Row {
    name: &'static str,
    failure: Failure,
    stream: &'static [&'static [u8]],
    outcome: Result<Served, ServeFault>,
    wanted: &'static [Wanted<'static>],
    /// So many bytes of the answers aren't written.
    lacks: usize,
}

/// A fault is told of a document behind its first byte.
const SENDS_A_FAULT: Failure = Failure {
    sent: Err(SendFault {
        written: 1,
        cause: SendCause::Book(BookFault::Disk),
    }),
    ..TAKES_NOTHING
};

/// So it is, and the book can't be read for want of memory.
const NO_MEMORY: Failure = Failure {
    unread: Some(BookFault::Memory),
    ..SENDS_A_FAULT
};

/// So it is by the disk.
const NO_DISK: Failure = Failure {
    unread: Some(BookFault::Disk),
    ..SENDS_A_FAULT
};

/// So it is since the book is damaged.
const DAMAGED: Failure = Failure {
    unread: Some(BookFault::Damaged),
    ..SENDS_A_FAULT
};

const REPORT_FAULT: Wanted<'static> = Success(TEXT, b"refused 6 fault\n");

const JOB_FAULT: Wanted<'static> = Success(IPP, FAULT);

const UNAVAILABLE: Wanted<'static> = Refusal("503 Service Unavailable");

/// Requests that ask nothing of a book that can't be read, changes, a look at the queue, and one more request behind it, which the look ends.
const LOOK: Row = Row {
    name: "a queue that can't be read",
    failure: NO_MEMORY,
    stream: &[
        NO_REPORT,
        POST_JOB,
        PRINT_JOB_3_0,
        REPORT_START,
        POST_JOB,
        PRINT_JOB,
        GET_QUEUE,
        POST_JOB,
        PRINT_JOB,
    ],
    outcome: Ok(Served {
        acted: 4,
        faults: 0b11100,
        end: End::Refused(503),
    }),
    wanted: &[
        NO_LINE,
        Success(IPP, OTHER_VERSION),
        REPORT_FAULT,
        JOB_FAULT,
        UNAVAILABLE,
    ],
    lacks: 0,
};

/// A Print-Job, a document of such a book, and one more request behind that.
const FETCH: Row = Row {
    name: "a document that can't be read",
    failure: NO_MEMORY,
    stream: &[POST_JOB, PRINT_JOB, GET_DOCUMENT, POST_JOB, PRINT_JOB],
    outcome: Ok(Served {
        acted: 1,
        faults: 0b11,
        end: End::Refused(503),
    }),
    wanted: &[JOB_FAULT, UNAVAILABLE],
    lacks: 0,
};

/// A document that is broken off behind its first byte ends the connection: the request behind it is not answered.
const BREAK_OFF: Row = Row {
    name: "a document that fails",
    failure: SENDS_A_FAULT,
    stream: &[GET_DOCUMENT, GET_DOCUMENT],
    outcome: Err(ServeFault {
        acted: 0,
        faults: 0,
        cause: ServeCause::Book,
    }),
    wanted: &[Success(OCTETS, b"hi")],
    lacks: 1,
};

static ROWS: [Row; 9] = [
    // a request that asks nothing of the book, two changes, which fail, and a look at the queue, which is as it was
    Row {
        name: "changes that fail",
        failure: SENDS_A_FAULT,
        stream: &[NO_REPORT, REPORT_START, POST_JOB, PRINT_JOB, GET_QUEUE],
        outcome: Ok(Served {
            acted: 3,
            faults: 0b0110,
            end: End::Closed,
        }),
        wanted: &[
            NO_LINE,
            REPORT_FAULT,
            JOB_FAULT,
            Success(TEXT, b"1 1 1 2\n"),
        ],
        lacks: 0,
    },
    LOOK,
    Row {
        failure: NO_DISK,
        ..LOOK
    },
    Row {
        failure: DAMAGED,
        ..LOOK
    },
    FETCH,
    Row {
        failure: NO_DISK,
        ..FETCH
    },
    Row {
        failure: DAMAGED,
        ..FETCH
    },
    BREAK_OFF,
    // the head of the answer has told 2 octets, and the book is content with 1
    Row {
        name: "a document that is too short",
        failure: TAKES_NOTHING,
        ..BREAK_OFF
    },
];

/// A book in which job 1 of alice is released.
fn released<B: DeskBook>(alloc: Global) -> Result<B, Mismatch> {
    let mut queue = Queue::<B>::granted(alloc)?;
    queue.take_each(&[PRINT, RELEASE], AT_ONCE);
    queue.into_book()
}

/// A row comes to one that fails so from then on.
fn take_in<B: DeskBook>(
    alloc: Global,
    failure: Failure,
    exchange: &Exchange<'_>,
) -> Result<(), Mismatch> {
    let inner = released::<B>(alloc)?;
    let mut faulty = Queue::over(alloc, FaultyBook { inner, failure }, B::subject())?;
    faulty.exchange(exchange, AT_ONCE);
    faulty.end()
}

/// It does over each book.
fn take(alloc: Global, row: &Row) -> Result<(), Mismatch> {
    let stream = row.stream.concat(alloc)?;
    let answers = wanted_bytes(alloc, row.wanted)?;
    let written = answers.len().saturating_sub(row.lacks);
    let exchange = Exchange {
        stream: stream.as_slice(),
        answers: answers.as_slice().get(..written).unwrap_or(b""),
        outcome: row.outcome,
        past: 1,
    };
    take_in::<ListBook>(alloc, row.failure, &exchange)?;
    take_in::<MemoryBook>(alloc, row.failure, &exchange)
}

#[test]
fn books_that_fail(rt: HostRuntime) -> Result<(), Failed> {
    for (step, row) in ROWS.iter().enumerate() {
        if let Err(why) = take(rt.alloc(), row) {
            return Err(failed_at(row.name, step, why));
        }
    }
    Ok(())
}
