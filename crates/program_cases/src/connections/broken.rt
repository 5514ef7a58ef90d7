//! Reads and writes that fail, over each book.

use crate::desk::books::{DeskBook, MemoryBook};
use crate::desk::compare::{Failed, Mismatch, failed_at};
use crate::desk::connection::Wanted::{Continue, Success};
use crate::desk::connection::{Connection, Wanted, broken_off, wanted_bytes};
use crate::desk::jobs::{PRINT, PRINTED, RELEASE};
use crate::desk::messages::{JOB_2, JOB_3, PRINT_JOB};
use crate::desk::queue::{Exchange, Queue};
use crate::desk::refused::POST_ALLOWED;
use crate::desk::requests::{
    GET_QUEUE, IPP, POST_JOB, POST_WAITING, REPORT_DONE, REPORT_START, TEXT,
};
use crate::desk::streams::{AT_ONCE, Behind, Way};
use http_front::{End, ServeCause};
use list_book::ListBook;
use std::alloc::Global;

/// Requests of which the last that is answered has its answer broken off.
struct Broken {
    name: &'static str,
    /// What comes before, to a queue in which alice has 30 pages.
    before: &'static [Connection<'static>],
    stream: &'static [&'static [u8]],
    /// The answers up to that one.
    answers: &'static [Wanted<'static>],
    /// How many of the requests have acted.
    acted: u32,
    /// What comes behind, which shows that they have.
    after: Connection<'static>,
}

/// A Print-Job.
const ONE: &[&[u8]] = &[POST_JOB, PRINT_JOB];

/// Two Print-Jobs.
const TWO: &[&[u8]] = &[POST_JOB, PRINT_JOB, POST_JOB, PRINT_JOB];

/// The answer to a first Print-Job.
const FIRST: &[Wanted<'static>] = &[PRINTED];

/// The answers to two.
const BOTH: &[Wanted<'static>] = &[PRINTED, Success(IPP, JOB_2)];

/// Job 1 is printed by its Print-Job, and released.
const PRINT_THEN_RELEASE: &[Connection<'static>] = &[PRINT, RELEASE];

static ROWS: [Broken; 6] = [
    // the answer to the first of two Print-Jobs is broken off
    Broken {
        name: "first answers that cannot be written",
        before: &[],
        stream: TWO,
        answers: FIRST,
        acted: 1,
        after: Connection {
            stream: ONE,
            acted: 1,
            end: End::Closed,
            wanted: &[Success(IPP, JOB_2)],
        },
    },
    // the answer to the second of them is broken off
    Broken {
        name: "second answers that cannot be written",
        before: &[],
        stream: TWO,
        answers: BOTH,
        acted: 2,
        after: Connection {
            stream: ONE,
            acted: 1,
            end: End::Closed,
            wanted: &[Success(IPP, JOB_3)],
        },
    },
    // a refusal is broken off
    Broken {
        name: "refusals that cannot be written",
        before: &[],
        stream: &[b"PUT /ipp/print HTTP/1.1\r\n\r\n"],
        answers: &[POST_ALLOWED],
        acted: 0,
        after: PRINT,
    },
    // the leave to send a body is broken off
    Broken {
        name: "leaves that cannot be written",
        before: &[],
        stream: &[POST_WAITING, b"1\r\n"],
        answers: &[Continue],
        acted: 0,
        after: PRINT,
    },
    // the answer to the device, which starts job 1, is broken off: job 1 is started
    Broken {
        name: "answers to the device that cannot be written",
        before: PRINT_THEN_RELEASE,
        stream: &[REPORT_START, POST_JOB, PRINT_JOB],
        answers: &[Success(TEXT, b"ok 1 5 0\n")],
        acted: 1,
        after: Connection {
            stream: &[REPORT_DONE, POST_JOB, PRINT_JOB],
            acted: 2,
            end: End::Closed,
            wanted: &[Success(TEXT, b"ok 1 9 20\n"), Success(IPP, JOB_2)],
        },
    },
    // the device's queue is broken off, and stays as it is
    Broken {
        name: "queues that cannot be written",
        before: PRINT_THEN_RELEASE,
        stream: &[GET_QUEUE, POST_JOB, PRINT_JOB],
        answers: &[Success(TEXT, b"1 1 1 2\n")],
        acted: 0,
        after: Connection {
            stream: &[GET_QUEUE, POST_JOB, PRINT_JOB],
            acted: 1,
            end: End::Closed,
            wanted: &[Success(TEXT, b"1 1 1 2\n"), Success(IPP, JOB_2)],
        },
    },
];

/// Over tables, which take longer to make, failures are so many bytes apart: where in an answer one comes is a matter of HTTP alone.
const APART: usize = 25;

/// The most bytes of a write over lists. Over tables it is the first of these.
static WRITES: [usize; 3] = [50, 7, 1];

/// The answers of a row go in this way to a writer that fails.
fn break_writer<B: DeskBook>(
    alloc: Global,
    row: &Broken,
    exchange: &Exchange<'_>,
    way: Way,
) -> Result<(), Mismatch> {
    let mut queue = Queue::<B>::granted(alloc)?;
    queue.take_each(row.before, AT_ONCE);
    queue.exchange(exchange, way);
    queue.take(&row.after, AT_ONCE);
    queue.end()
}

/// They go to writers that fail after this number of bytes.
fn break_at(
    alloc: Global,
    row: &Broken,
    exchange: &Exchange<'_>,
    room: usize,
) -> Result<(), Mismatch> {
    for write in &WRITES {
        let way = Way {
            room,
            write: *write,
            ..AT_ONCE
        };
        break_writer::<ListBook>(alloc, row, exchange, way)?;
        if room % APART == 0 && *write == WRITES[0] {
            break_writer::<MemoryBook>(alloc, row, exchange, way)?;
        }
    }
    Ok(())
}

/// They go to writers that fail after each byte of the last of them.
fn break_last(alloc: Global, row: &Broken) -> Result<(), Mismatch> {
    let before = wanted_bytes(alloc, &row.answers[..row.answers.len().saturating_sub(1)])?;
    let stream = row.stream.concat(alloc)?;
    let answers = wanted_bytes(alloc, row.answers)?;
    let exchange = Exchange {
        stream: stream.as_slice(),
        answers: answers.as_slice(),
        outcome: Err(broken_off(row.acted, ServeCause::Write)),
        past: 1,
    };
    for room in before.len()..answers.len() {
        break_at(alloc, row, &exchange, room)?;
    }
    Ok(())
}

#[test]
fn answers_that_cannot_be_written(rt: HostRuntime) -> Result<(), Failed> {
    for (step, row) in ROWS.iter().enumerate() {
        if let Err(why) = break_last(rt.alloc(), row) {
            return Err(failed_at(row.name, step, why));
        }
    }
    Ok(())
}

/// A reader fails behind these bytes of Print-Jobs: so many have acted, and these are their answers.
fn break_reader<B: DeskBook>(
    alloc: Global,
    stream: &[u8],
    acted: u32,
    answers: &[u8],
) -> Result<(), Mismatch> {
    let mut queue = Queue::<B>::new(alloc)?;
    let exchange = Exchange {
        stream,
        answers,
        outcome: Err(broken_off(acted, ServeCause::Read)),
        past: 1,
    };
    let way = Way {
        behind: Behind::Failure,
        ..AT_ONCE
    };
    queue.exchange(&exchange, way);
    queue.end_at_job(acted.saturating_add(1))
}

/// How many bytes a Print-Job has.
const ONE_LENGTH: usize = POST_JOB.len() + PRINT_JOB.len();

/// A reader fails behind this front of two Print-Jobs.
fn break_front(alloc: Global, front: &[u8]) -> Result<(), Mismatch> {
    let acted = front.len() / ONE_LENGTH;
    let answers = wanted_bytes(alloc, BOTH.get(..acted).unwrap_or(BOTH))?;
    let jobs = u32::try_from(acted).unwrap_or(0);
    break_reader::<ListBook>(alloc, front, jobs, answers.as_slice())?;
    if front.len() % APART == 0 || acted == BOTH.len() {
        break_reader::<MemoryBook>(alloc, front, jobs, answers.as_slice())?;
    }
    Ok(())
}

#[test]
fn reads_that_fail_after_each_byte(rt: HostRuntime) -> Result<(), Mismatch> {
    let stream = TWO.concat(rt.alloc())?;
    for length in 0..=stream.len() {
        break_front(rt.alloc(), &stream.as_slice()[..length])?;
    }
    Ok(())
}
