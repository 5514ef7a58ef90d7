//! Clients that print, look, break off, go away, keep a connection and say nothing, or don't read: the steps of a server and its clients.

use crate::desk::books::{DeskBook, MemoryBook};
use crate::desk::connection::Wanted::{Continue, Last, Refusal, Success};
use crate::desk::messages::{
    GET_STATE, GET_UP_TIME, IS_ABORTED, IS_HELD, JOB_1, JOB_2, JOB_3, PRINT_JOB, UP_FOR_42,
};
use crate::desk::queue::new_book;
use crate::desk::requests::{GET_QUEUE, IPP, POST_JOB, POST_STATE, POST_UP_TIME, TEXT};
use crate::desk::streams::{NO_FLUSH, NO_ROOM};
use crate::program::server::Step::{Comes, Gets, Serves, ServesSo, Waits};
use crate::program::server::{Ends, PRINTS, Pace, Row, Serving, Step, USUAL, take_row};
use crate::program::sockets::Comes::{GoesAway, Sends, SendsLast};
use crate::program::sockets::Gets::{All, Front};
use std::test::Fail;

const GETS_JOB_1: Step<'static> = Gets(0, All(&[Success(IPP, JOB_1)]));

/// The first of two clients is given up, and the second is served.
const SERVES_THE_SECOND: Step<'static> = Serves(2, "served 0\nserved 1\n");

/// It gets its job.
const THE_SECOND_GETS_JOB_1: Step<'static> = Gets(1, All(&[Success(IPP, JOB_1)]));

const THE_FIRST_GETS_NOTHING: Step<'static> = Gets(0, All(&[]));

/// A client asks for the printer's up time.
const ASKS: Step<'static> = Comes(SendsLast(&[POST_UP_TIME, GET_UP_TIME]));

/// The first is told of 42 seconds.
const IS_TOLD: Step<'static> = Gets(0, All(&[Success(IPP, UP_FOR_42)]));

/// A client asks for the state of job 1.
const ASKS_STATE: Step<'static> = Comes(SendsLast(&[POST_STATE, GET_STATE]));

/// The head of a request whose body is too large.
pub(super) const POST_TOO_LARGE: &[u8] =
    b"POST /ipp/print HTTP/1.1\r\nContent-Type: application/ipp\r\nContent-Length: 16777217\r\n\r\n";

/// A part of its body.
const MUCH: &[u8] = &[b'0'; 4096];

/// A head with a length, whose client sends no body before it is told to.
const WAITS_FOR_LEAVE: &[u8] =
    b"POST /ipp/print HTTP/1.1\r\nExpect: 100-continue\r\nContent-Type: application/ipp\r\nContent-Length: 145\r\n\r\n";

/// Clients that print and look.
static COMING: [Row; 4] = [
    (
        "a print job and its reply",
        &[PRINTS, Serves(1, "served 1\n"), GETS_JOB_1],
    ),
    (
        "the queue of a device",
        &[
            Comes(SendsLast(&[GET_QUEUE])),
            Serves(1, "served 0\n"),
            Gets(0, All(&[Success(TEXT, b"")])),
        ],
    ),
    (
        "clients in their order",
        &[
            Comes(SendsLast(&[POST_JOB, PRINT_JOB, POST_JOB, PRINT_JOB])),
            PRINTS,
            Serves(2, "served 2\nserved 1\n"),
            Gets(1, All(&[Success(IPP, JOB_3)])),
            Gets(0, All(&[Success(IPP, JOB_1), Success(IPP, JOB_2)])),
        ],
    ),
    ("no connection", &[Serves(0, "")]),
];

/// Clients that break off, go away, send on or stay.
static GOING: [Row; 7] = [
    // a client goes away before it is served, and the next one is served
    (
        "a client that goes away at once",
        &[Comes(GoesAway(&[])), PRINTS, SERVES_THE_SECOND, GETS_JOB_1],
    ),
    (
        "a client that goes away inside a head",
        &[
            Comes(GoesAway(&[b"POST /ipp"])),
            PRINTS,
            SERVES_THE_SECOND,
            GETS_JOB_1,
        ],
    ),
    (
        "a client that goes away inside a body",
        &[
            Comes(GoesAway(&[POST_JOB, b"\x01\x01"])),
            PRINTS,
            SERVES_THE_SECOND,
            GETS_JOB_1,
        ],
    ),
    (
        "a client that goes away behind a Print-Job",
        &[
            Comes(GoesAway(&[POST_JOB, PRINT_JOB])),
            PRINTS,
            Serves(2, "served 1\nserved 1\n"),
            Gets(0, All(&[Success(IPP, JOB_2)])),
        ],
    ),
    // the answer to its first request meets a closed socket, and its system resets the connection: whatever comes of the requests behind it,
    // the server goes on
    (
        "a client that resets",
        &[
            Comes(GoesAway(&[POST_JOB, PRINT_JOB, GET_QUEUE, GET_QUEUE, GET_QUEUE])),
            PRINTS,
            Serves(2, "served 1\nserved 1\n"),
            Gets(0, All(&[Success(IPP, JOB_2)])),
        ],
    ),
    // the rest of its request isn't read by its turn, and it still gets the whole answer
    (
        "a client that sends on behind a refusal",
        &[
            Comes(SendsLast(&[
                POST_TOO_LARGE,
                MUCH,
                MUCH,
                MUCH,
                MUCH,
                MUCH,
                MUCH,
                MUCH,
                MUCH,
            ])),
            Serves(1, "served 0\n"),
            Gets(0, All(&[Refusal("413 Payload Too Large")])),
        ],
    ),
    // it keeps its side open, and the connection ends behind its last request: it is waited for a second, however long the timeout
    (
        "a client that asks for the end and stays behind it",
        &[
            Waits(40),
            Comes(Sends(&[b"GET /device/queue HTTP/1.0\r\n\r\n", POST_JOB, PRINT_JOB])),
            ServesSo(Serving {
                lines: "served 0\n",
                seconds: (1, 6),
                ..USUAL
            }),
            Gets(0, All(&[Last(TEXT, b"")])),
        ],
    ),
];

/// Clients that say nothing, or no more, each of which costs the server its timeout of a second.
static SILENT: [Row; 5] = [
    (
        "a client that is silent",
        &[
            Comes(Sends(&[])),
            PRINTS,
            SERVES_THE_SECOND,
            THE_SECOND_GETS_JOB_1,
            THE_FIRST_GETS_NOTHING,
        ],
    ),
    (
        "a client that is silent in a head",
        &[
            Comes(Sends(&[b"POST /ipp/print HTTP/1.1\r\nContent-"])),
            PRINTS,
            SERVES_THE_SECOND,
            THE_SECOND_GETS_JOB_1,
            THE_FIRST_GETS_NOTHING,
        ],
    ),
    (
        "a client that is silent in a body",
        &[
            Comes(Sends(&[POST_JOB, b"\x01\x01\x00\x02"])),
            PRINTS,
            SERVES_THE_SECOND,
            THE_SECOND_GETS_JOB_1,
            THE_FIRST_GETS_NOTHING,
        ],
    ),
    // it gets its leave although it sends no body
    (
        "a client that is silent behind its leave",
        &[
            Comes(Sends(&[WAITS_FOR_LEAVE])),
            PRINTS,
            SERVES_THE_SECOND,
            THE_SECOND_GETS_JOB_1,
            Gets(0, All(&[Continue])),
        ],
    ),
    // it sits on its connection while another prints, and once its time is over it prints again by a new one
    (
        "a client that sits idle",
        &[
            Comes(Sends(&[POST_JOB, PRINT_JOB])),
            PRINTS,
            Serves(2, "served 1\nserved 1\n"),
            Gets(1, All(&[Success(IPP, JOB_2)])),
            GETS_JOB_1,
            PRINTS,
            Serves(1, "served 1\n"),
            Gets(2, All(&[Success(IPP, JOB_3)])),
        ],
    ),
];

/// Connections whose time is over, and what is done as the server looks at its clock.
static BY_THE_CLOCK: [Row; 8] = [
    // A connection has a minute in all, 60 timeouts of a second. In its last second the request is still read and acts; then its answer is
    // not written any more.
    (
        "the last second of a connection",
        &[
            PRINTS,
            ServesSo(Serving {
                pace: Pace::Leaps(59),
                ..USUAL
            }),
            THE_FIRST_GETS_NOTHING,
            PRINTS,
            Serves(1, "served 1\n"),
            Gets(1, All(&[Success(IPP, JOB_2)])),
        ],
    ),
    // its time goes on over its writes: the answer's head is written in its 50th second, and what is behind it would be in its 75th
    (
        "a connection whose time is over as its answer is written",
        &[
            PRINTS,
            ServesSo(Serving {
                pace: Pace::Leaps(25),
                ..USUAL
            }),
            Gets(0, Front(&[Success(IPP, JOB_1)])),
        ],
    ),
    // behind it the request is not read any more
    (
        "a connection whose time is over",
        &[
            PRINTS,
            ServesSo(Serving {
                pace: Pace::Leaps(60),
                lines: "served 0\n",
                ..USUAL
            }),
            PRINTS,
            Serves(1, "served 1\n"),
            THE_SECOND_GETS_JOB_1,
        ],
    ),
    // behind its last answer a client gets the end of the connection while its own side is still open and waited for
    (
        "a client that is told the end",
        &[
            Comes(Sends(&[b"GET /device/queue HTTP/1.0\r\n\r\n"])),
            ServesSo(Serving {
                pace: Pace::ReadsOn(0),
                lines: "served 0\n",
                ..USUAL
            }),
        ],
    ),
    // a client that sends no body before it is told to is told before the body is waited for
    (
        "a client that waits for its leave",
        &[
            Comes(Sends(&[WAITS_FOR_LEAVE])),
            ServesSo(Serving {
                pace: Pace::SendsWhenTold(0),
                ..USUAL
            }),
        ],
    ),
    // a printer that was up at second 0 is up for 42 seconds at second 41
    (
        "the moment of a connection",
        &[ASKS, Serves(1, "served 1\n"), IS_TOLD],
    ),
    // a job that isn't released is kept for an hour, and ends before the first connection after that is served
    (
        "a job that expires",
        &[
            PRINTS,
            Serves(1, "served 1\n"),
            GETS_JOB_1,
            ASKS_STATE,
            ServesSo(Serving {
                second: 3640,
                ..USUAL
            }),
            Gets(1, All(&[Success(IPP, IS_HELD)])),
            ASKS_STATE,
            ServesSo(Serving {
                second: 3641,
                ..USUAL
            }),
            Gets(2, All(&[Success(IPP, IS_ABORTED)])),
        ],
    ),
    // two clients wait: the server takes the first and then looks at the clock, which takes the second away
    (
        "a moment that is looked at behind the client",
        &[
            ASKS,
            ASKS,
            ServesSo(Serving {
                pace: Pace::TakesAway,
                ..USUAL
            }),
            IS_TOLD,
        ],
    ),
];

/// Lines that can't be printed.
static UNPRINTED: [Row; 2] = [
    // the first of two connections has been served when its line can't be printed; the second is not taken, and served later
    (
        "a count that can't be printed",
        &[
            PRINTS,
            PRINTS,
            ServesSo(Serving {
                connections: 2,
                lines: "serve",
                way: NO_ROOM,
                ends: Ends::Unprinted,
                ..USUAL
            }),
            GETS_JOB_1,
            Serves(1, "served 1\n"),
            Gets(1, All(&[Success(IPP, JOB_2)])),
        ],
    ),
    // a count that is not flushed would be lost where the server is stopped
    (
        "a count that can't be flushed",
        &[
            PRINTS,
            PRINTS,
            ServesSo(Serving {
                connections: 2,
                way: NO_FLUSH,
                ends: Ends::Unprinted,
                ..USUAL
            }),
            GETS_JOB_1,
            Serves(1, "served 1\n"),
            Gets(1, All(&[Success(IPP, JOB_2)])),
        ],
    ),
];

/// Takes rows, each with a server over an empty queue.
fn take_rows<B: DeskBook>(rt: &HostRuntime, rows: &[Row]) -> Result<(), Fail> {
    for (name, steps) in rows {
        take_row(rt, new_book::<B>(rt.alloc())?, name, steps)?;
    }
    Ok(())
}

#[test]
fn clients_that_print_and_look(rt: HostRuntime) -> Result<(), Fail> {
    take_rows::<MemoryBook>(&rt, &COMING)
}

#[test]
fn clients_that_go_away_or_stay(rt: HostRuntime) -> Result<(), Fail> {
    take_rows::<MemoryBook>(&rt, &GOING)
}

#[test]
fn clients_that_are_silent(rt: HostRuntime) -> Result<(), Fail> {
    take_rows::<MemoryBook>(&rt, &SILENT)
}

#[test]
fn connections_by_the_clock(rt: HostRuntime) -> Result<(), Fail> {
    take_rows::<MemoryBook>(&rt, &BY_THE_CLOCK)
}

#[test]
fn counts_that_are_not_printed(rt: HostRuntime) -> Result<(), Fail> {
    take_rows::<MemoryBook>(&rt, &UNPRINTED)
}
