//! Connections that are cut at each length, over each book.

use crate::desk::books::{DeskBook, MemoryBook};
use crate::desk::compare::Mismatch;
use crate::desk::connection::Wanted::{Continue, Success};
use crate::desk::connection::{Connection, Wanted, faultless, in_chunks_of_one_byte, wanted_bytes};
use crate::desk::jobs::PRINTED;
use crate::desk::messages::{BAD_REQUEST, JOB_1, JOB_2, PRINT_JOB};
use crate::desk::queue::{Exchange, Queue};
use crate::desk::requests::{IPP, POST_JOB, POST_WAITING};
use crate::desk::streams::{AT_EACH_SPEED, Way, by};
use http_front::End;
use list_book::ListBook;
use std::alloc::Global;

/// A front of a Print-Job comes to a queue at each speed, and leaves no job. From the end of a head of so many bytes on it is answered.
fn cut_to<B: DeskBook>(queue: &mut Queue<B>, front: &[u8], head: usize, answers: &[u8]) {
    let end = if front.is_empty() {
        End::Closed
    } else {
        End::Cut
    };
    let exchange = Exchange {
        stream: front,
        answers: if front.len() < head { b"" } else { answers },
        outcome: Ok(faultless(0, end)),
        past: 1,
    };
    for way in &AT_EACH_SPEED {
        queue.exchange(&exchange, *way);
    }
}

/// No front of a Print-Job leaves a job, and it does, byte by byte, with these answers, the last of which isn't written before.
fn cut_in<B: DeskBook>(
    alloc: Global,
    whole: &Connection<'_>,
    head: usize,
    begun: &[u8],
) -> Result<(), Mismatch> {
    let request = whole.stream.first().copied().unwrap_or(b"");
    let mut queue = Queue::<B>::new(alloc)?;
    for length in 0..request.len() {
        cut_to(&mut queue, &request[..length], head, begun);
    }
    queue.take(whole, by(1));
    queue.end_at_job(2)
}

/// So it is over each book.
fn cut_each(
    alloc: Global,
    request: &[u8],
    head: usize,
    wanted: &[Wanted<'_>],
) -> Result<(), Mismatch> {
    let begun = wanted_bytes(alloc, &wanted[..wanted.len().saturating_sub(1)])?;
    let whole = Connection {
        stream: &[request],
        acted: 1,
        end: End::Closed,
        wanted,
    };
    cut_in::<ListBook>(alloc, &whole, head, begun.as_slice())?;
    cut_in::<MemoryBook>(alloc, &whole, head, begun.as_slice())
}

#[test]
fn a_request_cut_at_each_length(rt: HostRuntime) -> Result<(), Mismatch> {
    let request = [POST_JOB, PRINT_JOB].concat(rt.alloc())?;
    cut_each(rt.alloc(), request.as_slice(), 0, &[PRINTED])
}

/// Its head waits for leave, and its body comes in chunks of one byte.
#[test]
fn chunks_cut_at_each_length(rt: HostRuntime) -> Result<(), Mismatch> {
    let request = in_chunks_of_one_byte(rt.alloc(), POST_WAITING, PRINT_JOB)?;
    let wanted = [Continue, PRINTED];
    cut_each(rt.alloc(), request.as_slice(), POST_WAITING.len(), &wanted)
}

/// How many bytes the smallest Print-Job has before its document.
const ATTRIBUTES: usize = 143;

/// A message behind its head is answered so.
fn take_message<B: DeskBook>(
    queue: &mut Queue<B>,
    head: &[u8],
    message: &[u8],
    wanted: &[Wanted<'_>],
    way: Way,
) {
    let connection = Connection {
        stream: &[head, message],
        acted: 1,
        end: End::Closed,
        wanted,
    };
    queue.take(&connection, way);
}

/// The smallest Print-Job, cut to so many bytes, comes to a queue. It is refused inside its attributes, and makes a job with a part of its
/// document, or none.
fn cut_message<B: DeskBook>(
    alloc: Global,
    queue: &mut Queue<B>,
    length: usize,
    way: Way,
) -> Result<(), Mismatch> {
    let head = format!(in alloc;
        "POST /ipp/print HTTP/1.1\r\nContent-Type: application/ipp\r\nContent-Length: {length}\r\n\r\n"
    )?;
    let reply = match length.checked_sub(ATTRIBUTES) {
        None => BAD_REQUEST,
        Some(0) => JOB_1,
        Some(_) => JOB_2,
    };
    let message = PRINT_JOB.get(..length).unwrap_or(PRINT_JOB);
    take_message(queue, head.as_bytes(), message, &[Success(IPP, reply)], way);
    Ok(())
}

/// It is cut so to each length from 8 bytes on, to a queue of its own.
fn cut_messages<B: DeskBook>(alloc: Global, way: Way) -> Result<(), Mismatch> {
    let mut queue = Queue::<B>::new(alloc)?;
    for length in 8..=ATTRIBUTES + 1 {
        cut_message(alloc, &mut queue, length, way)?;
    }
    queue.end()
}

#[test]
fn a_message_cut_at_each_length(rt: HostRuntime) -> Result<(), Mismatch> {
    for way in &AT_EACH_SPEED {
        cut_messages::<ListBook>(rt.alloc(), *way)?;
        cut_messages::<MemoryBook>(rt.alloc(), *way)?;
    }
    Ok(())
}
