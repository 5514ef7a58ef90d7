//! A disk that stops at any of its calls, where the log grows long and all pages are kept in memory, and where the log is
//! copied again and again and few pages are kept.

use crate::desk::fault::RowFault;
use crate::desk::request::JobsWanted::{Ended, Live};
use crate::desk::request::Request;
use crate::desk::request::Request::{Cancel, Create, Hold, Print, Release, Send};
use crate::desk::shelf::take_row;
use crate::desk::step::Step;
use crate::desk::step::Step::{
    Ask, Dev, Document, Expire, Fetch, Grant, Jobs, Look, NoSheet, Now, Operators, Queue, Sheet,
};
use crate::shelves::older::{FIRST_QUEUE, FIRST_ROWS, FIRST_TABLES, TO_SECOND};
use crate::shelves::stops::Stopping;
use std::alloc::Global;

/// Takes the first steps, and then those of a row over a disk that stops. The last ones look at what came of them.
fn stop(
    alloc: Global,
    first: &[Step<'_>],
    steps: &[Step<'_>],
    last: &'static [Step<'static>],
) -> Result<(), RowFault> {
    stop_over(alloc, &[], first, steps, last)
}

/// The same, but statements make the tables in place of the first steps, if there are any.
fn stop_over(
    alloc: Global,
    statements: &'static [&'static str],
    first: &[Step<'_>],
    steps: &[Step<'_>],
    last: &'static [Step<'static>],
) -> Result<(), RowFault> {
    for (log_pages, cache_pages) in [(4, 8), (1000, 2000)] {
        let shelf = Stopping {
            statements,
            log_pages,
            cache_pages,
            last,
        };
        take_row(alloc, &shelf, log_pages, first, steps)?;
    }
    Ok(())
}

/// Alice has pages.
const GRANTED: Step<'static> = Grant(b"f24,alice,30\n", Ok((1, 0)));

#[test]
fn jobs_that_are_made(rt: HostRuntime) -> Result<(), RowFault> {
    const STEPS: &[Step<'static>] = &[
        Queue(""),
        Ask("alice", Print, 0x0000),
        Look("alice", 1, 4, &["job-hold-until-specified"]),
        Ask("bob", Create, 0x0000),
        Look("bob", 2, 4, &["job-incoming", "job-hold-until-specified"]),
        Ask("alice", Print, 0x0000),
    ];
    const LAST: &[Step<'static>] = &[
        Look("alice", 1, 4, &["job-hold-until-specified"]),
        Look("bob", 2, 4, &["job-incoming", "job-hold-until-specified"]),
        Look("alice", 3, 4, &["job-hold-until-specified"]),
        Ask("alice", Request::Look(4), 0x0406),
    ];
    stop(rt.alloc(), &[], STEPS, LAST)
}

/// A document of so many bytes that it lies on pages of its own.
const LONG: &[u8] = &[b'.'; 70_000];

/// The one document of job 1.
const SEND_LONG: Request<'static> = Send {
    job: 1,
    document: LONG,
    last: true,
};

#[test]
fn a_long_document(rt: HostRuntime) -> Result<(), RowFault> {
    const FIRST: &[Step<'static>] = &[GRANTED, Ask("alice", Create, 0x0000)];
    const STEPS: &[Step<'static>] = &[
        Look("alice", 1, 4, &["job-incoming", "job-hold-until-specified"]),
        Ask("alice", SEND_LONG, 0x0000),
        Look("alice", 1, 4, &["job-hold-until-specified"]),
        Ask("alice", Release(1), 0x0000),
        Fetch(1, 1, LONG),
    ];
    const LAST: &[Step<'static>] = &[Fetch(1, 1, LONG), Queue("1 1 1 70000\n")];
    stop(rt.alloc(), FIRST, STEPS, LAST)
}

/// That job 1 has no document.
const NOTHING: Request<'static> = Send {
    job: 1,
    document: b"",
    last: true,
};

#[test]
fn a_job_that_is_released_while_open(rt: HostRuntime) -> Result<(), RowFault> {
    const STEPS: &[Step<'static>] = &[
        NoSheet("alice"),
        GRANTED,
        Sheet("alice", (30, 30, 0, 0)),
        Ask("alice", Create, 0x0000),
        Look("alice", 1, 4, &["job-incoming", "job-hold-until-specified"]),
        Ask("alice", Release(1), 0x0000),
        Look("alice", 1, 4, &["job-incoming"]),
        Sheet("alice", (30, 10, 20, 0)),
        Ask("alice", NOTHING, 0x0000),
        Look("alice", 1, 3, &["none"]),
    ];
    const LAST: &[Step<'static>] = &[
        Look("alice", 1, 3, &["none"]),
        Sheet("alice", (30, 10, 20, 0)),
        Queue("1 1 0 0\n"),
        Document(1, 1, None),
    ];
    stop(rt.alloc(), &[], STEPS, LAST)
}

#[test]
fn jobs_that_are_held_and_canceled(rt: HostRuntime) -> Result<(), RowFault> {
    const FIRST: &[Step<'static>] = &[
        Grant(b"f24,alice,60\n", Ok((1, 0))),
        Ask("alice", Print, 0x0000),
        Ask("alice", Print, 0x0000),
        Ask("alice", Release(1), 0x0000),
        Ask("alice", Release(2), 0x0000),
    ];
    const STEPS: &[Step<'static>] = &[
        Sheet("alice", (60, 20, 40, 0)),
        Ask("alice", Hold(1), 0x0000),
        Sheet("alice", (60, 40, 20, 0)),
        Ask("alice", Cancel(2), 0x0000),
        Sheet("alice", (60, 60, 0, 0)),
        Ask("alice", Cancel(1), 0x0000),
    ];
    const LAST: &[Step<'static>] = &[
        Sheet("alice", (60, 60, 0, 0)),
        Look("alice", 1, 7, &["job-canceled-by-user"]),
        Look("alice", 2, 7, &["job-canceled-by-user"]),
        Queue(""),
    ];
    stop(rt.alloc(), FIRST, STEPS, LAST)
}

#[test]
fn pages_that_are_reserved_and_printed(rt: HostRuntime) -> Result<(), RowFault> {
    const STEPS: &[Step<'static>] = &[
        NoSheet("alice"),
        GRANTED,
        Sheet("alice", (30, 30, 0, 0)),
        Ask("alice", Print, 0x0000),
        Look("alice", 1, 4, &["job-hold-until-specified"]),
        Ask("alice", Print, 0x0000),
        Look("alice", 2, 4, &["job-hold-until-specified"]),
        Ask("alice", Release(1), 0x0000),
        Sheet("alice", (30, 10, 20, 0)),
        Ask("alice", Release(2), 0x0404),
        Look("alice", 2, 4, &["job-hold-until-specified"]),
        Sheet("alice", (30, 10, 20, 0)),
        Look("alice", 1, 3, &["none"]),
        Queue("1 1 1 2\n"),
        Dev("1 1 start 0", "ok 1 5 0"),
        Look("alice", 1, 5, &["job-printing"]),
        Dev("1 2 count 12", "ok 1 5 12"),
        Sheet("alice", (30, 10, 8, 12)),
        Dev("1 2 count 12", "ok 1 5 12"),
        Sheet("alice", (30, 10, 8, 12)),
        Dev("1 3 done 25", "ok 1 9 25"),
        Sheet("alice", (30, 5, 0, 25)),
    ];
    const LAST: &[Step<'static>] = &[
        Sheet("alice", (30, 5, 0, 25)),
        Look("alice", 1, 9, &["job-completed-successfully"]),
        Look("alice", 2, 4, &["job-hold-until-specified"]),
        Queue(""),
    ];
    stop(rt.alloc(), &[], STEPS, LAST)
}

#[test]
fn a_job_that_is_told_to_stop(rt: HostRuntime) -> Result<(), RowFault> {
    const STEPS: &[Step<'static>] = &[
        NoSheet("alice"),
        GRANTED,
        Sheet("alice", (30, 30, 0, 0)),
        Ask("alice", Print, 0x0000),
        Look("alice", 1, 4, &["job-hold-until-specified"]),
        Ask("alice", Release(1), 0x0000),
        Sheet("alice", (30, 10, 20, 0)),
        Dev("1 1 start 0", "ok 1 5 0"),
        Look("alice", 1, 5, &["job-printing"]),
        Ask("alice", Cancel(1), 0x0000),
        Look("alice", 1, 5, &["job-printing", "processing-to-stop-point"]),
        Ask("alice", Cancel(1), 0x0404),
        Look("alice", 1, 5, &["job-printing", "processing-to-stop-point"]),
        Dev("1 2 halt 3", "ok 1 7 3"),
        Sheet("alice", (30, 27, 0, 3)),
    ];
    const LAST: &[Step<'static>] = &[
        Look("alice", 1, 7, &["job-canceled-by-user"]),
        Sheet("alice", (30, 27, 0, 3)),
        Queue(""),
    ];
    stop(rt.alloc(), &[], STEPS, LAST)
}

#[test]
fn account_files(rt: HostRuntime) -> Result<(), RowFault> {
    const THREE: &[u8] = b"f24,alice,30\nf24,bob,50\nf24,carol,20\n";
    const STEPS: &[Step<'static>] = &[
        NoSheet("alice"),
        Grant(THREE, Ok((3, 0))),
        Sheet("carol", (20, 20, 0, 0)),
        Grant(THREE, Ok((0, 3))),
        Sheet("alice", (30, 30, 0, 0)),
        Grant(b"f24,alice,30\nf24,bob,60\nf24,dave,5\n", Err((4, 2))),
        NoSheet("dave"),
    ];
    const LAST: &[Step<'static>] = &[
        Sheet("alice", (30, 30, 0, 0)),
        Sheet("bob", (50, 50, 0, 0)),
        Sheet("carol", (20, 20, 0, 0)),
        NoSheet("dave"),
    ];
    stop(rt.alloc(), &[], STEPS, LAST)
}

#[test]
fn jobs_that_expire(rt: HostRuntime) -> Result<(), RowFault> {
    const FIRST: &[Step<'static>] = &[
        GRANTED,
        Ask("alice", Create, 0x0000),
        Ask("alice", Release(1), 0x0000),
        Ask("alice", Print, 0x0000),
        Now(3601),
    ];
    const STEPS: &[Step<'static>] = &[
        Sheet("alice", (30, 10, 20, 0)),
        Expire(2),
        Sheet("alice", (30, 30, 0, 0)),
        Expire(0),
    ];
    const LAST: &[Step<'static>] = &[
        Sheet("alice", (30, 30, 0, 0)),
        Look("alice", 1, 8, &["aborted-by-system"]),
        Look("alice", 2, 8, &["aborted-by-system"]),
        Queue(""),
    ];
    stop(rt.alloc(), FIRST, STEPS, LAST)
}

#[test]
fn jobs_that_an_operator_cancels(rt: HostRuntime) -> Result<(), RowFault> {
    const FIRST: &[Step<'static>] = &[
        Grant(b"f24,alice,60\n", Ok((1, 0))),
        Ask("alice", Print, 0x0000),
        Ask("alice", Print, 0x0000),
        Ask("alice", Release(1), 0x0000),
        Ask("alice", Release(2), 0x0000),
        Dev("1 1 start 0", "ok 1 5 0"),
    ];
    const STEPS: &[Step<'static>] = &[
        Sheet("alice", (60, 20, 40, 0)),
        Ask("opal", Cancel(2), 0x0000),
        Sheet("alice", (60, 40, 20, 0)),
        Ask("opal", Cancel(1), 0x0000),
        Look("opal", 1, 5, &["job-printing", "processing-to-stop-point"]),
        Ask("alice", Cancel(1), 0x0404),
        Jobs("opal", Live, &[1]),
        Dev("1 2 halt 3", "ok 1 7 3"),
        Jobs("opal", Ended, &[2, 1]),
    ];
    const LAST: &[Step<'static>] = &[
        Sheet("alice", (60, 57, 0, 3)),
        Look("alice", 1, 7, &["job-canceled-by-operator"]),
        Look("opal", 2, 7, &["job-canceled-by-operator"]),
        Queue(""),
    ];
    stop(rt.alloc(), FIRST, STEPS, LAST)
}

#[test]
fn operators_that_are_set(rt: HostRuntime) -> Result<(), RowFault> {
    const FIRST: &[Step<'static>] = &[Ask("alice", Print, 0x0000)];
    const STEPS: &[Step<'static>] = &[
        Jobs("pearl", Live, &[]),
        Operators(&["pearl"]),
        Jobs("pearl", Live, &[1]),
        Operators(&["opal", "quartz", "pearl"]),
        Jobs("quartz", Live, &[1]),
        Operators(&[]),
        Jobs("pearl", Live, &[]),
        Operators(&["quartz"]),
    ];
    const LAST: &[Step<'static>] = &[
        Jobs("opal", Live, &[]),
        Jobs("pearl", Live, &[]),
        Jobs("quartz", Live, &[1]),
        Look("alice", 1, 4, &["job-hold-until-specified"]),
    ];
    stop(rt.alloc(), FIRST, STEPS, LAST)
}

#[test]
fn tables_of_the_second_schema(rt: HostRuntime) -> Result<(), RowFault> {
    const STEPS: &[Step<'static>] = &[
        Sheet("alice", (30, 5, 0, 25)),
        Operators(&["opal"]),
        Jobs("opal", Live, &[4, 5, 2, 3, 7]),
    ];
    stop_over(
        rt.alloc(),
        &[FIRST_TABLES, FIRST_ROWS, TO_SECOND],
        &[],
        STEPS,
        FIRST_QUEUE,
    )
}

#[test]
fn tables_of_the_first_schema(rt: HostRuntime) -> Result<(), RowFault> {
    const STEPS: &[Step<'static>] = &[
        Sheet("alice", (30, 5, 0, 25)),
        Expire(0),
        Queue("5 1 1 4\n"),
        Ask("alice", Print, 0x0000),
        Look("alice", 8, 4, &["job-hold-until-specified"]),
    ];
    stop_over(
        rt.alloc(),
        &[FIRST_TABLES, FIRST_ROWS],
        &[],
        STEPS,
        FIRST_QUEUE,
    )
}
