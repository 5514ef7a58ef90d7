//! Rows of connections, and what they leave.

use crate::desk::books::{DeskBook, MemoryBook};
use crate::desk::compare::{Failed, Mismatch, failed_at};
use crate::desk::connection::{Connection, Wanted, faultless, filled, wanted_bytes};
use crate::desk::messages::PRINT_JOB;
use crate::desk::queue::{Exchange, Queue};
use crate::desk::requests::POST_JOB;
use crate::desk::streams::{Way, by, speeds_for};
use http_front::End;
use list_book::ListBook;
use std::alloc::Global;

/// Connections, one after another to a queue in which alice has 30 pages, by their name.
pub(crate) type Row = (&'static str, &'static [Connection<'static>]);

/// They come in this way, to a new queue.
fn take_in<B: DeskBook>(
    alloc: Global,
    connections: &[Connection<'_>],
    way: Way,
) -> Result<(), Mismatch> {
    let mut queue = Queue::<B>::granted(alloc)?;
    queue.take_each(connections, way);
    queue.end()
}

/// They do over each book.
fn take_row(alloc: Global, connections: &[Connection<'_>], way: Way) -> Result<(), Mismatch> {
    take_in::<ListBook>(alloc, connections, way)?;
    take_in::<MemoryBook>(alloc, connections, way)
}

/// Each row comes in each of these ways.
pub(crate) fn take_rows(alloc: Global, rows: &[Row], ways: &[Way]) -> Result<(), Failed> {
    for (name, connections) in rows {
        for (step, way) in ways.iter().enumerate() {
            if let Err(why) = take_row(alloc, connections, *way) {
                return Err(failed_at(name, step, why));
            }
        }
    }
    Ok(())
}

/// What is behind the front of a stream.
pub(crate) enum Rest {
    /// These bytes.
    Short(&'static [u8]),
    /// These, a part so many times, and an end.
    Long(&'static [u8], (&'static [u8], usize), &'static [u8]),
}

/// Streams that come to the same, and leave an empty queue empty.
pub(crate) struct Streams {
    pub(crate) name: &'static str,
    /// What each begins with.
    pub(crate) front: &'static [u8],
    pub(crate) rests: &'static [Rest],
    /// So many Print-Jobs stand behind each, and aren't acted on.
    pub(crate) jobs: usize,
    /// How many of the requests act.
    pub(crate) acted: u32,
    pub(crate) end: End,
    pub(crate) wanted: &'static [Wanted<'static>],
}

/// Bytes come to an empty queue at each of their speeds: behind them the next Print-Job is job 1.
fn come_to_empty<B: DeskBook>(alloc: Global, exchange: &Exchange<'_>) -> Result<(), Mismatch> {
    let mut queue = Queue::<B>::new(alloc)?;
    for most in speeds_for(exchange.stream.len()) {
        queue.exchange(exchange, by(*most));
    }
    queue.end_at_job(1)
}

impl Streams {
    /// The bytes of one of them.
    fn bytes(&self, alloc: Global, rest: &Rest) -> Result<Vec<u8>, Mismatch> {
        let (begin, (part, count), end) = match rest {
            Rest::Short(bytes) => (*bytes, (b"".as_slice(), 0), b"".as_slice()),
            Rest::Long(begin, parts, end) => (*begin, *parts, *end),
        };
        let parts = [
            (self.front, 1),
            (begin, 1),
            (part, count),
            (end, 1),
            (POST_JOB, self.jobs),
            (PRINT_JOB, self.jobs),
        ];
        let bytes = filled(alloc, &parts)?;
        Ok(bytes)
    }

    /// One of them comes to an empty queue over each book.
    fn come(&self, alloc: Global, rest: &Rest) -> Result<(), Mismatch> {
        let stream = self.bytes(alloc, rest)?;
        let answers = wanted_bytes(alloc, self.wanted)?;
        let exchange = Exchange {
            stream: stream.as_slice(),
            answers: answers.as_slice(),
            outcome: Ok(faultless(self.acted, self.end)),
            past: 1,
        };
        come_to_empty::<ListBook>(alloc, &exchange)?;
        come_to_empty::<MemoryBook>(alloc, &exchange)
    }
}

/// Each of these streams does.
pub(crate) fn come_to_their_ends(alloc: Global, rows: &[Streams]) -> Result<(), Failed> {
    for row in rows {
        for (step, rest) in row.rests.iter().enumerate() {
            if let Err(why) = row.come(alloc, rest) {
                return Err(failed_at(row.name, step, why));
            }
        }
    }
    Ok(())
}
