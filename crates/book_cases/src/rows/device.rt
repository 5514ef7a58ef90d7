//! What the device reports, what its reports do to accounts, and what it may fetch.

use crate::desk::request::Request;
use crate::desk::request::Request::{
    Cancel, CancelMine, Create, Hold, Print, PrintSized, Release, Send,
};
use crate::desk::step::Step;
use crate::desk::step::Step::{Ask, Dev, Document, Grant, Look, Queue, Sheet, Statement};
use crate::shelves::books::{Case, take_cases};
use std::test::Fail;

/// Job 1 of alice, who has 30 pages, is released, and the device begins it.
const RUNNING: &[Step<'static>] = &[
    Grant(b"f24,alice,30\n", Ok((1, 0))),
    Ask("alice", Print, 0x0000),
    Ask("alice", Release(1), 0x0000),
    Look("alice", 1, 3, &["none"]),
    Sheet("alice", (30, 10, 20, 0)),
    Dev("1 1 start 0", "ok 1 5 0"),
    Sheet("alice", (30, 10, 20, 0)),
];

/// 20 pages of each of three copies.
const THREE: Request<'static> = PrintSized {
    impressions: 20,
    copies: 3,
};

/// Five pages.
const FIVE: Request<'static> = PrintSized {
    impressions: 5,
    copies: 1,
};

/// A first document of job 4.
const MORE: Request<'static> = Send {
    job: 4,
    document: b"abcd",
    last: false,
};

/// Its last document.
const LAST: Request<'static> = Send {
    job: 4,
    document: b"xyz",
    last: true,
};

/// That job 1 has no document.
const NOTHING: Request<'static> = Send {
    job: 1,
    document: b"",
    last: true,
};

/// Pages that are counted, up to an end and past it.
static COUNTS_AND_ENDS: &[Case<'static>] = &[
    Case {
        name: "counts and an end past what was reserved",
        first: &[],
        rows: &[&[
            Grant(b"f24,alice,30\n", Ok((1, 0))),
            Ask("alice", Print, 0x0000),
            Ask("alice", Print, 0x0000),
            Ask("alice", Release(1), 0x0000),
            Sheet("alice", (30, 10, 20, 0)),
            Queue("1 1 1 2\n"),
            Ask("alice", Release(2), 0x0404),
            Look("alice", 2, 4, &["job-hold-until-specified"]),
            Sheet("alice", (30, 10, 20, 0)),
            Dev("1 1 start 0", "ok 1 5 0"),
            Sheet("alice", (30, 10, 20, 0)),
            Dev("1 2 count 12", "ok 1 5 12"),
            Sheet("alice", (30, 10, 8, 12)),
            Dev("1 2 count 12", "ok 1 5 12"),
            Sheet("alice", (30, 10, 8, 12)),
            Dev("1 3 done 25", "ok 1 9 25"),
            Sheet("alice", (30, 5, 0, 25)),
            Dev("1 3 done 25", "ok 1 9 25"),
            Sheet("alice", (30, 5, 0, 25)),
            Dev("1 1 start 0", "ok 1 5 0"),
            Dev("1 2 count 12", "ok 1 5 12"),
            Sheet("alice", (30, 5, 0, 25)),
            Look("alice", 1, 9, &["job-completed-successfully"]),
        ]],
    },
    Case {
        name: "an account below zero",
        first: RUNNING,
        rows: &[
            &[
                Dev("1 2 done 45", "ok 1 9 45"),
                Sheet("alice", (30, -15, 0, 45)),
                Statement(
                    "alice",
                    "account alice\n\
                    granted               30\n\
                    free                 -15\n\
                    reserved               0\n\
                    printed               45\n\
                \x20      job state  reserved   printed\n\
                \x20        1     9         0        45\n\
                \x20    total               0        45\n",
                ),
                Ask("alice", Print, 0x0000),
                Ask("alice", Release(2), 0x0404),
                Grant(b"f25,alice,34\n", Ok((1, 0))),
                Sheet("alice", (64, 19, 0, 45)),
                Ask("alice", Release(2), 0x0404),
                Grant(b"f26,alice,1\n", Ok((1, 0))),
                Sheet("alice", (65, 20, 0, 45)),
                Ask("alice", Release(2), 0x0000),
                Sheet("alice", (65, 0, 20, 45)),
            ],
            &[
                Dev("1 2 count 100000000", "ok 1 5 100000000"),
                Sheet("alice", (30, -99_999_970, 0, 100_000_000)),
                Statement(
                    "alice",
                    "account alice\n\
                    granted               30\n\
                    free           -99999970\n\
                    reserved               0\n\
                    printed        100000000\n\
                \x20      job state  reserved   printed\n\
                \x20        1     5         0 100000000\n\
                \x20    total               0 100000000\n",
                ),
            ],
        ],
    },
];

/// Counts behind the end, and jobs that stop.
static LATE_COUNTS_AND_STOPS: &[Case<'static>] = &[
    Case {
        name: "counts behind the end",
        first: RUNNING,
        rows: &[&[
            Dev("1 3 done 5", "ok 1 9 5"),
            Sheet("alice", (30, 25, 0, 5)),
            Dev("1 2 count 7", "ok 1 9 7"),
            Sheet("alice", (30, 23, 0, 7)),
            Dev("1 3 done 6", "refused 5 conflict"),
            Sheet("alice", (30, 23, 0, 7)),
            Dev("1 4 count 6", "ok 1 9 7"),
            Sheet("alice", (30, 23, 0, 7)),
            Dev("1 2 count 7", "ok 1 9 7"),
            Dev("1 5 done 9", "refused 3 state"),
            Sheet("alice", (30, 23, 0, 7)),
            Dev("1 6 count 40", "ok 1 9 40"),
            Sheet("alice", (30, -10, 0, 40)),
        ]],
    },
    Case {
        name: "jobs that stop and halt",
        first: RUNNING,
        rows: &[
            &[
                Ask("alice", Cancel(1), 0x0000),
                Look("alice", 1, 5, &["job-printing", "processing-to-stop-point"]),
                Sheet("alice", (30, 10, 20, 0)),
            ],
            &[
                Ask("alice", Cancel(1), 0x0000),
                Ask("alice", Cancel(1), 0x0404),
                Dev("1 2 halt 3", "ok 1 7 3"),
                Look("alice", 1, 7, &["job-canceled-by-user"]),
                Sheet("alice", (30, 27, 0, 3)),
            ],
            &[
                Dev("1 2 halt 3", "ok 1 7 3"),
                Look("alice", 1, 7, &["job-canceled-at-device"]),
                Sheet("alice", (30, 27, 0, 3)),
            ],
            &[
                Dev("1 2 stop 2", "ok 1 6 2"),
                Dev("1 3 halt 3", "ok 1 7 3"),
                Look("alice", 1, 7, &["job-canceled-at-device"]),
                Sheet("alice", (30, 27, 0, 3)),
            ],
            &[
                Dev("1 2 stop 2", "ok 1 6 2"),
                Ask("alice", Cancel(1), 0x0000),
                Look(
                    "alice",
                    1,
                    6,
                    &["printer-stopped", "processing-to-stop-point"],
                ),
                Sheet("alice", (30, 10, 18, 2)),
            ],
            &[
                Dev("1 2 stop 2", "ok 1 6 2"),
                Ask("alice", Cancel(1), 0x0000),
                Dev("1 3 halt 3", "ok 1 7 3"),
                Look("alice", 1, 7, &["job-canceled-by-user"]),
                Sheet("alice", (30, 27, 0, 3)),
            ],
        ],
    },
];

/// Jobs that end while they stop, and what their owners ask of them as they run.
static STOPPING_AND_RUNNING_JOBS: &[Case<'static>] = &[
    Case {
        name: "jobs that end while they stop",
        first: RUNNING,
        rows: &[
            &[
                Ask("alice", Cancel(1), 0x0000),
                Dev("1 2 stop 2", "ok 1 6 2"),
                Dev("1 3 resume 2", "ok 1 5 2"),
                Look("alice", 1, 5, &["job-printing", "processing-to-stop-point"]),
                Sheet("alice", (30, 10, 18, 2)),
            ],
            &[
                Ask("alice", Cancel(1), 0x0000),
                Dev("1 2 done 8", "ok 1 9 8"),
                Look("alice", 1, 9, &["job-completed-successfully"]),
                Sheet("alice", (30, 22, 0, 8)),
            ],
            &[
                Ask("alice", Cancel(1), 0x0000),
                Dev("1 2 fail 8", "ok 1 8 8"),
                Look("alice", 1, 8, &["aborted-by-system"]),
                Sheet("alice", (30, 22, 0, 8)),
            ],
            &[
                Ask("alice", Cancel(1), 0x0000),
                Dev("1 2 halt 3", "ok 1 7 3"),
                Dev("1 3 count 9", "ok 1 7 9"),
                Look("alice", 1, 7, &["job-canceled-by-user"]),
                Sheet("alice", (30, 21, 0, 9)),
            ],
            &[
                Dev("1 2 stop 4", "ok 1 6 4"),
                Dev("1 3 done 4", "refused 3 state"),
                Dev("1 4 resume 4", "ok 1 5 4"),
                Dev("1 5 fail 6", "ok 1 8 6"),
                Look("alice", 1, 8, &["aborted-by-system"]),
                Sheet("alice", (30, 24, 0, 6)),
            ],
        ],
    },
    Case {
        name: "requests of a running job",
        first: RUNNING,
        rows: &[
            &[
                Ask("alice", CancelMine(None), 0x0000),
                Dev("1 2 halt 3", "ok 1 7 3"),
                Look("alice", 1, 7, &["job-canceled-by-user"]),
                Sheet("alice", (30, 27, 0, 3)),
            ],
            &[
                Ask("alice", Cancel(1), 0x0000),
                Ask("alice", CancelMine(Some(1)), 0x0404),
                Ask("alice", CancelMine(None), 0x0000),
                Look("alice", 1, 5, &["job-printing", "processing-to-stop-point"]),
                Sheet("alice", (30, 10, 20, 0)),
            ],
            &[
                Ask("alice", Hold(1), 0x0404),
                Look("alice", 1, 5, &["job-printing"]),
                Sheet("alice", (30, 10, 20, 0)),
            ],
            &[
                Ask("alice", Release(1), 0x0000),
                Look("alice", 1, 5, &["job-printing"]),
                Sheet("alice", (30, 10, 20, 0)),
            ],
        ],
    },
];

/// What the device is shown, and the documents that it fetches.
static THE_QUEUE_AND_DOCUMENTS: &[Case<'static>] = &[
    Case {
        name: "jobs that the device may start",
        first: &[],
        rows: &[&[
            Queue(""),
            Grant(b"f24,alice,200\n", Ok((1, 0))),
            Ask("alice", THREE, 0x0000),
            Ask("bob", Print, 0x0000),
            Ask("alice", FIVE, 0x0000),
            Ask("alice", Create, 0x0000),
            Queue(""),
            Ask("alice", Release(3), 0x0000),
            Ask("alice", Release(1), 0x0000),
            Queue("1 3 1 2\n3 1 1 2\n"),
            Ask("alice", MORE, 0x0000),
            Ask("alice", LAST, 0x0000),
            Ask("alice", Release(4), 0x0000),
            Queue("1 3 1 2\n3 1 1 2\n4 1 2 7\n"),
            Dev("1 1 start 0", "ok 1 5 0"),
            Ask("alice", Hold(3), 0x0000),
            Queue("4 1 2 7\n"),
        ]],
    },
    Case {
        name: "a job without documents",
        first: &[],
        rows: &[&[
            Grant(b"f24,alice,30\n", Ok((1, 0))),
            Ask("alice", Create, 0x0000),
            Look("alice", 1, 4, &["job-incoming", "job-hold-until-specified"]),
            Ask("alice", Release(1), 0x0000),
            Look("alice", 1, 4, &["job-incoming"]),
            Sheet("alice", (30, 10, 20, 0)),
            Queue(""),
            Ask("alice", NOTHING, 0x0000),
            Look("alice", 1, 3, &["none"]),
            Queue("1 1 0 0\n"),
            Document(1, 1, None),
        ]],
    },
    Case {
        name: "documents that the device may fetch",
        first: &[],
        rows: &[&[
            Grant(b"f24,alice,30\n", Ok((1, 0))),
            Ask("alice", Print, 0x0000),
            Document(1, 1, None),
            Ask("alice", Release(1), 0x0000),
            Document(1, 0, None),
            Document(1, 1, Some(2)),
            Document(1, 2, None),
            Document(2, 1, None),
            Dev("1 1 start 0", "ok 1 5 0"),
            Document(1, 1, Some(2)),
            Dev("1 2 stop 0", "ok 1 6 0"),
            Document(1, 1, Some(2)),
            Dev("1 3 resume 0", "ok 1 5 0"),
            Dev("1 4 done 0", "ok 1 9 0"),
            Document(1, 1, None),
        ]],
    },
];

#[test]
fn counts_and_ends(rt: HostRuntime) -> Result<(), Fail> {
    take_cases(&rt, "counts_and_ends", COUNTS_AND_ENDS)
}

#[test]
fn late_counts_and_stops(rt: HostRuntime) -> Result<(), Fail> {
    take_cases(&rt, "late_counts_and_stops", LATE_COUNTS_AND_STOPS)
}

#[test]
fn stopping_and_running_jobs(rt: HostRuntime) -> Result<(), Fail> {
    take_cases(&rt, "stopping_and_running_jobs", STOPPING_AND_RUNNING_JOBS)
}

#[test]
fn the_queue_and_documents(rt: HostRuntime) -> Result<(), Fail> {
    take_cases(&rt, "the_queue_and_documents", THE_QUEUE_AND_DOCUMENTS)
}
