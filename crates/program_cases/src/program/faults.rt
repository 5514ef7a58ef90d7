//! Books that can't do what they are asked, under a server.

use crate::desk::books::{DeskBook, MemoryBook};
use crate::desk::connection::Wanted::Success;
use crate::desk::faulty::{Failure, FaultyBook, TAKES_NOTHING};
use crate::desk::messages::FAULT;
use crate::desk::refused::NO_LINE;
use crate::desk::requests::{IPP, NO_REPORT};
use crate::program::server::Step::{Comes, Gets, Serves, ServesSo};
use crate::program::server::{Ends, PRINTS, Serving, Step, USUAL, take_row};
use crate::program::sockets::Comes::SendsLast;
use crate::program::sockets::Gets::All;
use queue_core::BookFault;
use std::test::Fail;

/// The server goes on.
const GOES_ON: &[Step<'static>] = &[
    PRINTS,
    PRINTS,
    Serves(2, "served 1\nserved 1\n"),
    Gets(0, All(&[Success(IPP, FAULT)])),
    Gets(1, All(&[Success(IPP, FAULT)])),
];

/// A server is to serve two clients, and prints the line of the first.
const TWO: Serving<'static> = Serving {
    connections: 2,
    ..USUAL
};

/// Books that fail so, and what a server over them does.
static ROWS: [(&str, Failure, &[Step<'static>]); 6] = [
    ("a book that takes nothing", TAKES_NOTHING, GOES_ON),
    // it is read where it can decide nothing
    (
        "a book that decides nothing",
        Failure {
            undecided: Some(BookFault::Disk),
            ..TAKES_NOTHING
        },
        GOES_ON,
    ),
    // it may be read again once there is memory
    (
        "a book that has no memory",
        Failure {
            unread: Some(BookFault::Memory),
            ..TAKES_NOTHING
        },
        GOES_ON,
    ),
    // the first client has its answer; the server stops, by this fault, before the second comes
    (
        "a book that the disk does not read",
        Failure {
            unread: Some(BookFault::Disk),
            ..TAKES_NOTHING
        },
        &[
            PRINTS,
            ServesSo(Serving {
                ends: Ends::Unread(BookFault::Disk),
                ..TWO
            }),
            Gets(0, All(&[Success(IPP, FAULT)])),
        ],
    ),
    (
        "a book that is damaged",
        Failure {
            unread: Some(BookFault::Damaged),
            ..TAKES_NOTHING
        },
        &[
            PRINTS,
            ServesSo(Serving {
                ends: Ends::Unread(BookFault::Damaged),
                ..TWO
            }),
            Gets(0, All(&[Success(IPP, FAULT)])),
        ],
    ),
    // the client asks nothing of it: its sweep alone meets the fault
    (
        "a sweep that the disk does not read",
        Failure {
            unread: Some(BookFault::Disk),
            ..TAKES_NOTHING
        },
        &[
            Comes(SendsLast(&[NO_REPORT])),
            ServesSo(Serving {
                ends: Ends::Unread(BookFault::Disk),
                ..TWO
            }),
            Gets(0, All(&[NO_LINE])),
        ],
    ),
];

/// A server over a book that fails so does what it is to do.
fn take<B: DeskBook>(
    rt: &HostRuntime,
    name: &str,
    failure: Failure,
    steps: &[Step<'_>],
) -> Result<(), Fail> {
    let book = FaultyBook::<B>::new(rt.alloc(), failure)?;
    take_row(rt, book, name, steps)
}

#[test]
fn books_that_cannot_do_what_they_are_asked(rt: HostRuntime) -> Result<(), Fail> {
    for (name, failure, steps) in &ROWS {
        take::<MemoryBook>(&rt, name, *failure, steps)?;
    }
    Ok(())
}
