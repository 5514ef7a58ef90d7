//! Clients that don't read, or that send without end: the server leaves them.

use crate::desk::books::{DeskBook, MemoryBook};
use crate::desk::compare::Mismatch;
use crate::desk::connection::Connection;
use crate::desk::connection::Wanted::Success;
use crate::desk::faulty::{Failure, FaultyBook, TAKES_NOTHING};
use crate::desk::jobs::{PRINT, PRINTED, RELEASE, RELEASED};
use crate::desk::messages::{JOB_2, PRINT_JOB_BEGUN, RELEASE_JOB};
use crate::desk::queue::{Queue, new_book};
use crate::desk::requests::{GET_DOCUMENT, IPP, OCTETS, POST_LARGEST, POST_RELEASE};
use crate::desk::streams::AT_ONCE;
use crate::program::clients::POST_TOO_LARGE;
use crate::program::server::Step::{Comes, Gets, ServesSo, Waits};
use crate::program::server::{PRINTS, Pace, Server, Serving, Step, USUAL};
use crate::program::sockets::AT;
use crate::program::sockets::Comes::Sends;
use crate::program::sockets::Gets::{All, Front};
use http_front::End;
use queue_core::{BookFault, QueueBook, SendCause, SendFault};
use std::alloc::Global;
use std::test::Fail;

/// How many bytes the document of the largest Print-Job has: many more than wait on the way to a client that doesn't read.
const MOST_BYTES: usize = 16_777_216 - PRINT_JOB_BEGUN.len();

/// A book in which job 1 has this document, as long as it may be, and is released.
fn released<B: DeskBook>(alloc: Global, document: &[u8]) -> Result<B, Mismatch> {
    let mut queue = Queue::granted(alloc)?;
    let connection = Connection {
        stream: &[
            POST_LARGEST,
            PRINT_JOB_BEGUN,
            document,
            POST_RELEASE,
            RELEASE_JOB,
        ],
        acted: 2,
        end: End::Closed,
        wanted: &[PRINTED, RELEASED],
    };
    queue.take(&connection, AT_ONCE);
    queue.into_book()
}

/// The device asks for the document and doesn't read it, and another client prints. The server waits for the device the eight seconds of its
/// timeout and leaves it so; the other client gets its answer. All in all the server may wait for several timeouts: a write that has taken a part
/// when its time is over is followed by one more.
const LEAVES_THE_DEVICE: &[Step<'static>] = &[
    Comes(Sends(&[GET_DOCUMENT])),
    PRINTS,
    Waits(8),
    ServesSo(Serving {
        connections: 2,
        lines: "served 0\nserved 1\n",
        seconds: (8, 480),
        wait: (8, 16),
        ..USUAL
    }),
    Gets(1, All(&[Success(IPP, JOB_2)])),
];

/// So it does at a server, and what the device gets of job 1 is a front of this document.
fn leaves_the_device<B: DeskBook>(
    rt: &HostRuntime,
    server: &mut Server<B>,
    document: &[u8],
) -> Result<(), Fail> {
    server.take_each(rt, "a client that does not read", LEAVES_THE_DEVICE)?;
    server.get(0, Front(&[Success(OCTETS, document)]))?;
    Ok(())
}

/// So it does over a book in which the document is released.
fn is_left_unread<B: DeskBook>(rt: &HostRuntime, document: &[u8]) -> Result<(), Fail> {
    let mut server = Server::over(rt, released::<B>(rt.alloc(), document)?)?;
    leaves_the_device(rt, &mut server, document)
}

/// A server that waited for it would wait for ever, and the test would be cut off.
#[test]
fn a_client_that_does_not_read(rt: HostRuntime) -> Result<(), Fail> {
    let document = vec![in rt.alloc(); b'0'; MOST_BYTES]?;
    is_left_unread::<MemoryBook>(&rt, document.as_slice())
}

/// A client whose request has too large a body sends on without end, where no time passes.
const SENDS_WITHOUT_END: &[Step<'static>] = &[
    Comes(Sends(&[POST_TOO_LARGE])),
    ServesSo(Serving {
        lines: "served 0\n",
        pace: Pace::SendsOn(0, 0),
        ..USUAL
    }),
];

/// So it does, where a second passes from each look at the clock to the next.
const SENDS_AS_TIME_PASSES: &[Step<'static>] = &[
    Comes(Sends(&[POST_TOO_LARGE])),
    ServesSo(Serving {
        lines: "served 0\n",
        pace: Pace::SendsOn(1, 0),
        ..USUAL
    }),
];

/// How often a server looks at its clock in such steps, until it leaves the client.
fn looks_in<B: DeskBook>(rt: &HostRuntime, steps: &[Step<'_>]) -> Result<u64, Fail> {
    let mut server = Server::over(rt, new_book::<B>(rt.alloc())?)?;
    server.take_each(rt, "a client that sends without end", steps)?;
    Ok(server.looks)
}

/// A device asks for a document, which the book breaks off, and sends on without end, where no time passes.
const SENDS_BEHIND_A_DOCUMENT: &[Step<'static>] = &[
    Comes(Sends(&[GET_DOCUMENT])),
    ServesSo(Serving {
        lines: "served 0\n",
        pace: Pace::SendsOn(0, 0),
        ..USUAL
    }),
];

/// The book tells a fault behind the first byte of a document.
const BREAKS_OFF: Failure = Failure {
    sent: Err(SendFault {
        written: 1,
        cause: SendCause::Book(BookFault::Memory),
    }),
    ..TAKES_NOTHING
};

/// A book in which job 1 is released, and whose documents break off.
fn breaking<B: DeskBook>(alloc: Global) -> Result<FaultyBook<B>, Mismatch> {
    let mut queue = Queue::<B>::granted(alloc)?;
    queue.take_each(&[PRINT, RELEASE], AT_ONCE);
    Ok(FaultyBook {
        inner: queue.into_book()?,
        failure: BREAKS_OFF,
    })
}

/// How often a server looks at its clock over such a book, until it leaves the client.
fn looks_over<B: QueueBook + Drop>(rt: &HostRuntime, book: B) -> Result<u64, Fail> {
    let mut server = Server::over(rt, book)?;
    server.take_each(
        rt,
        "a device that sends behind a document",
        SENDS_BEHIND_A_DOCUMENT,
    )?;
    Ok(server.looks)
}

/// It reads past 256 reads there too, where few would do for the request.
#[test]
fn a_device_that_sends_behind_a_broken_document(rt: HostRuntime) -> Result<(), Fail> {
    let looks = looks_over(&rt, breaking::<MemoryBook>(rt.alloc())?)?;
    AT.is_so(
        looks > 256,
        "a device that is left behind 256 reads, where its document broke off",
    )?;
    Ok(())
}

/// It reads 256 times past what came where no time passes, and nine times where a second passes from each look to the next, since the tenth look
/// before a read is ten seconds behind the first: then it leaves the client.
#[test]
fn a_client_that_sends_without_end(rt: HostRuntime) -> Result<(), Fail> {
    let reads = looks_in::<MemoryBook>(&rt, SENDS_WITHOUT_END)?;
    let seconds = looks_in::<MemoryBook>(&rt, SENDS_AS_TIME_PASSES)?;
    AT.is_so(
        reads > 256 && reads.checked_sub(seconds) == Some(246),
        "a client that is left behind 256 reads, or ten seconds",
    )?;
    Ok(())
}
