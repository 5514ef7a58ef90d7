//! Operators, who see and cancel any job: opal, and those that are set.

use crate::desk::request::JobsWanted::{
    Ended, FirstEnded, FirstLive, FirstOwnEnded, Live, OwnLive,
};
use crate::desk::request::Request;
use crate::desk::request::Request::{
    Cancel, CancelMine, Create, Hold, Print, PrintSized, Release, Send,
};
use crate::desk::step::Step;
use crate::desk::step::Step::{
    Ask, AskTimes, Dev, Expire, Grant, Jobs, Look, NoSheet, Now, Operators, Queue, Sheet,
};
use crate::shelves::books::{Case, take_cases, take_cases_in_tables};
use std::test::Fail;

/// The device has job 1 of alice, who has 30 pages.
const RUNNING: &[Step<'static>] = &[
    Grant(b"f24,alice,30\nf24,opal,40\n", Ok((2, 0))),
    Ask("alice", Print, 0x0000),
    Ask("alice", Release(1), 0x0000),
    Dev("1 1 start 0", "ok 1 5 0"),
    Sheet("alice", (30, 10, 20, 0)),
];

/// That the device has it, and is to stop it.
const STOPPING: Step<'static> = Look("alice", 1, 5, &["job-printing", "processing-to-stop-point"]);

/// What an operator sees and cancels.
static SEEN_AND_CANCELED: &[Case<'static>] = &[
    Case {
        name: "another's job",
        first: &[Ask("alice", Print, 0x0000)],
        rows: &[&[
            Jobs("opal", Live, &[1]),
            Jobs("opal", OwnLive, &[]),
            Jobs("bob", Live, &[]),
            Ask("opal", Release(1), 0x0406),
            Ask("bob", Cancel(1), 0x0406),
            Ask("bob", Request::Look(1), 0x0406),
            Look("opal", 1, 4, &["job-hold-until-specified"]),
            Ask("opal", Cancel(2), 0x0406),
            Ask("opal", Request::Look(2), 0x0406),
            Ask("opal", Cancel(1), 0x0000),
            Look("alice", 1, 7, &["job-canceled-by-operator"]),
            Look("opal", 1, 7, &["job-canceled-by-operator"]),
            Ask("opal", Cancel(1), 0x0404),
            Ask("alice", Cancel(1), 0x0404),
            Jobs("opal", Live, &[]),
            Jobs("opal", Ended, &[1]),
            Jobs("opal", FirstOwnEnded(1), &[]),
            Jobs("bob", Ended, &[]),
        ]],
    },
    Case {
        name: "jobs that an operator stops, and their owner's Cancel-My-Jobs",
        first: &[
            Grant(b"f24,alice,30\n", Ok((1, 0))),
            Ask("alice", Print, 0x0000),
            Ask("alice", Print, 0x0000),
            Ask("alice", Release(1), 0x0000),
            Dev("1 1 start 0", "ok 1 5 0"),
            Ask("opal", Cancel(1), 0x0000),
        ],
        rows: &[
            &[
                Ask("alice", CancelMine(Some(1)), 0x0404),
                STOPPING,
                Ask("alice", CancelMine(Some(2)), 0x0000),
                Look("alice", 2, 7, &["job-canceled-by-user"]),
                Dev("1 2 halt 0", "ok 1 7 0"),
                Look("alice", 1, 7, &["job-canceled-by-operator"]),
            ],
            &[
                Ask("alice", CancelMine(None), 0x0000),
                STOPPING,
                Look("alice", 2, 7, &["job-canceled-by-user"]),
                Ask("alice", CancelMine(None), 0x0000),
                Dev("1 2 halt 0", "ok 1 7 0"),
                Look("alice", 1, 7, &["job-canceled-by-operator"]),
            ],
        ],
    },
];

/// What becomes of a job that prints, whoever cancels it.
static CANCELED_WHILE_PRINTING: &[Case<'static>] = &[Case {
    name: "a job that prints",
    first: RUNNING,
    rows: &[
        &[
            Look("opal", 1, 5, &["job-printing"]),
            Ask("opal", Cancel(1), 0x0000),
            STOPPING,
            Ask("alice", Cancel(1), 0x0404),
            Ask("opal", Cancel(1), 0x0404),
            STOPPING,
            Sheet("alice", (30, 10, 20, 0)),
            Dev("1 2 halt 3", "ok 1 7 3"),
            Look("alice", 1, 7, &["job-canceled-by-operator"]),
            Sheet("alice", (30, 27, 0, 3)),
            Sheet("opal", (40, 40, 0, 0)),
        ],
        // its owner was first
        &[
            Ask("alice", Cancel(1), 0x0000),
            Ask("opal", Cancel(1), 0x0404),
            Dev("1 2 halt 0", "ok 1 7 0"),
            Look("opal", 1, 7, &["job-canceled-by-user"]),
        ],
        // nobody asked
        &[
            Dev("1 2 halt 0", "ok 1 7 0"),
            Look("opal", 1, 7, &["job-canceled-at-device"]),
        ],
        // it stops and goes on, and the device ends it in another way
        &[
            Dev("1 2 stop 4", "ok 1 6 4"),
            Ask("opal", Cancel(1), 0x0000),
            Look(
                "alice",
                1,
                6,
                &["printer-stopped", "processing-to-stop-point"],
            ),
            Dev("1 3 resume 4", "ok 1 5 4"),
            STOPPING,
            Dev("1 4 done 9", "ok 1 9 9"),
            Look("alice", 1, 9, &["job-completed-successfully"]),
            Sheet("alice", (30, 21, 0, 9)),
        ],
        &[
            Ask("opal", Cancel(1), 0x0000),
            Dev("1 2 fail 6", "ok 1 8 6"),
            Look("opal", 1, 8, &["aborted-by-system"]),
            Dev("1 3 count 8", "ok 1 8 8"),
            Sheet("alice", (30, 22, 0, 8)),
        ],
    ],
}];

/// A document of job 1 that is its last.
const LAST: Request<'static> = Send {
    job: 1,
    document: b"a",
    last: true,
};

/// Five pages.
const FIVE: Request<'static> = PrintSized {
    impressions: 5,
    copies: 1,
};

/// What stays with the owners of jobs and accounts.
static LEFT_TO_OWNERS: &[Case<'static>] = &[
    Case {
        name: "operations on another's job that an operator is refused",
        first: &[
            Grant(b"f24,alice,30\nf24,opal,30\n", Ok((2, 0))),
            Ask("alice", Create, 0x0000),
        ],
        rows: &[&[
            Ask("opal", LAST, 0x0406),
            Ask("opal", Hold(1), 0x0406),
            Ask("opal", Release(1), 0x0406),
            Ask("opal", CancelMine(Some(1)), 0x0406),
            Ask("opal", CancelMine(None), 0x0000),
            Look("opal", 1, 4, &["job-incoming", "job-hold-until-specified"]),
            Ask("alice", Release(1), 0x0000),
            Ask("opal", LAST, 0x0406),
            Ask("opal", Hold(1), 0x0406),
            Look("opal", 1, 4, &["job-incoming"]),
            Sheet("alice", (30, 10, 20, 0)),
            Sheet("opal", (30, 30, 0, 0)),
            Ask("alice", LAST, 0x0000),
            Queue("1 1 1 1\n"),
        ]],
    },
    Case {
        name: "pages of jobs that an operator cancels",
        first: &[
            Grant(b"f24,alice,30\nf24,bob,30\n", Ok((2, 0))),
            Ask("alice", Print, 0x0000),
            Ask("bob", FIVE, 0x0000),
            Ask("carol", Print, 0x0000),
            Ask("alice", Release(1), 0x0000),
            Ask("bob", Release(2), 0x0000),
        ],
        rows: &[
            &[
                Ask("opal", Cancel(2), 0x0000),
                Sheet("bob", (30, 30, 0, 0)),
                Sheet("alice", (30, 10, 20, 0)),
                Ask("opal", Cancel(1), 0x0000),
                Ask("opal", Cancel(3), 0x0000),
                Sheet("alice", (30, 30, 0, 0)),
                Sheet("bob", (30, 30, 0, 0)),
                NoSheet("carol"),
                NoSheet("opal"),
                Queue(""),
            ],
            // it has an account, which stays as it is
            &[
                Grant(b"f24,opal,7\n", Ok((1, 0))),
                Ask("opal", FIVE, 0x0000),
                Ask("opal", Release(4), 0x0000),
                Sheet("opal", (7, 2, 5, 0)),
                Ask("opal", Cancel(1), 0x0000),
                Sheet("alice", (30, 30, 0, 0)),
                Sheet("opal", (7, 2, 5, 0)),
                Ask("opal", Cancel(4), 0x0000),
                Sheet("opal", (7, 7, 0, 0)),
                Look("opal", 4, 7, &["job-canceled-by-user"]),
            ],
        ],
    },
    Case {
        name: "an operator's own jobs",
        first: &[
            Grant(b"f24,opal,50\n", Ok((1, 0))),
            Ask("opal", Print, 0x0000),
            Ask("opal", Print, 0x0000),
            Ask("opal", Release(1), 0x0000),
            Ask("opal", Hold(1), 0x0000),
            Ask("opal", Release(1), 0x0000),
            Dev("1 1 start 0", "ok 1 5 0"),
        ],
        rows: &[&[
            Ask("opal", Cancel(2), 0x0000),
            Look("opal", 2, 7, &["job-canceled-by-user"]),
            Ask("opal", Cancel(1), 0x0000),
            Ask("alice", Cancel(1), 0x0406),
            Ask("alice", Request::Look(1), 0x0406),
            Dev("1 2 halt 2", "ok 1 7 2"),
            Look("opal", 1, 7, &["job-canceled-by-user"]),
            Sheet("opal", (50, 48, 0, 2)),
        ]],
    },
    Case {
        name: "callers who are no operators",
        first: &[Ask("alice", Print, 0x0000)],
        rows: &[&[
            Jobs("Opal", Live, &[]),
            Jobs("opa", Live, &[]),
            Jobs("opals", Live, &[]),
            Jobs("", Live, &[]),
            Jobs("anonymous", Live, &[]),
            Ask("Opal", Cancel(1), 0x0406),
            Ask("opal ", Cancel(1), 0x0406),
            Ask("", Cancel(1), 0x0406),
            Look("alice", 1, 4, &["job-hold-until-specified"]),
        ]],
    },
];

#[test]
fn jobs_that_operators_see_and_cancel(rt: HostRuntime) -> Result<(), Fail> {
    take_cases(&rt, "operators", SEEN_AND_CANCELED)
}

#[test]
fn a_job_that_prints_and_is_canceled(rt: HostRuntime) -> Result<(), Fail> {
    take_cases(&rt, "printing", CANCELED_WHILE_PRINTING)
}

#[test]
fn jobs_and_pages_that_stay_with_their_owners(rt: HostRuntime) -> Result<(), Fail> {
    take_cases(&rt, "owners", LEFT_TO_OWNERS)
}

/// The device has jobs 5 of alice and 6 of opal; it may start 1 of alice, 7 of bob and 8 of opal; 2 of bob, 3 of carol, 4 of opal and 9 of alice are on hold.
const NINE: &[Step<'static>] = &[
    Grant(b"f24,alice,100\nf24,bob,100\nf24,opal,100\n", Ok((3, 0))),
    Ask("alice", Print, 0x0000),
    Ask("bob", Print, 0x0000),
    Ask("carol", Print, 0x0000),
    Ask("opal", Print, 0x0000),
    Ask("alice", Print, 0x0000),
    Ask("opal", Print, 0x0000),
    Ask("bob", Print, 0x0000),
    Ask("opal", Print, 0x0000),
    Ask("alice", Print, 0x0000),
    Ask("opal", Release(8), 0x0000),
    Ask("bob", Release(7), 0x0000),
    Ask("opal", Release(6), 0x0000),
    Ask("alice", Release(5), 0x0000),
    Ask("alice", Release(1), 0x0000),
    Dev("6 1 start 0", "ok 6 5 0"),
    Dev("5 1 start 0", "ok 5 5 0"),
    Dev("5 2 stop 0", "ok 5 6 0"),
];

/// Lists of everybody's jobs, in their order.
static LISTS: &[Case<'static>] = &[
    Case {
        name: "everybody's live jobs",
        first: NINE,
        rows: &[&[
            Jobs("opal", Live, &[5, 6, 1, 7, 8, 2, 3, 4, 9]),
            Jobs("opal", FirstLive(1), &[5]),
            Jobs("opal", FirstLive(2), &[5, 6]),
            Jobs("opal", FirstLive(3), &[5, 6, 1]),
            Jobs("opal", FirstLive(6), &[5, 6, 1, 7, 8, 2]),
            Jobs("opal", FirstLive(9), &[5, 6, 1, 7, 8, 2, 3, 4, 9]),
            Jobs(
                "opal",
                FirstLive(2_147_483_647),
                &[5, 6, 1, 7, 8, 2, 3, 4, 9],
            ),
            Jobs("opal", OwnLive, &[6, 8, 4]),
            Jobs("alice", Live, &[5, 1, 9]),
            Jobs("alice", OwnLive, &[5, 1, 9]),
            Jobs("bob", FirstLive(1), &[7]),
            Jobs("opal", Ended, &[]),
            Jobs("opal", FirstEnded(1), &[]),
        ]],
    },
    Case {
        name: "everybody's jobs that ended",
        first: NINE,
        rows: &[&[
            Now(30),
            Ask("opal", Cancel(2), 0x0000),
            Now(10),
            Ask("opal", Cancel(9), 0x0000),
            Now(30),
            Ask("opal", Cancel(8), 0x0000),
            Now(20),
            Ask("opal", Cancel(3), 0x0000),
            Now(30),
            Ask("alice", Cancel(1), 0x0000),
            Now(15),
            Dev("5 3 fail 0", "ok 5 8 0"),
            Jobs("opal", Ended, &[8, 2, 1, 3, 5, 9]),
            Jobs("opal", FirstEnded(1), &[8]),
            Jobs("opal", FirstEnded(4), &[8, 2, 1, 3]),
            Jobs("opal", FirstEnded(6), &[8, 2, 1, 3, 5, 9]),
            Jobs("opal", FirstOwnEnded(6), &[8]),
            Jobs("alice", Ended, &[1, 5, 9]),
            Jobs("bob", Ended, &[2]),
            Jobs("opal", Live, &[6, 7, 4]),
            Now(3700),
            Expire(1),
            Jobs("opal", FirstEnded(2), &[4, 8]),
        ]],
    },
    Case {
        name: "more jobs than one owner has",
        first: &[],
        rows: &[&[
            AskTimes(100, "alice", Print, 0x0000),
            AskTimes(3, "bob", Print, 0x0000),
            Ask("alice", Print, 0x0404),
            Jobs("opal", FirstLive(2), &[1, 2]),
            Ask("alice", CancelMine(None), 0x0000),
            Jobs("opal", Live, &[101, 102, 103]),
            Jobs("opal", FirstEnded(3), &[100, 99, 98]),
            Ask("opal", Cancel(103), 0x0000),
            Jobs("opal", FirstEnded(2), &[103, 100]),
        ]],
    },
];

#[test]
fn lists_of_operators(rt: HostRuntime) -> Result<(), Fail> {
    take_cases(&rt, "everybody", LISTS)
}

/// Sixteen names.
const SIXTEEN: &[&str] = &[
    "a", "b", "c", "d", "e", "f", "g", "h", "i", "j", "k", "l", "m", "n", "o", "pearl",
];

/// Operators that are set. What others have canceled stays.
static SET: &[Case<'static>] = &[Case {
    name: "other operators",
    first: &[
        Grant(b"f24,alice,60\n", Ok((1, 0))),
        AskTimes(4, "alice", Print, 0x0000),
        Ask("alice", Release(1), 0x0000),
        Ask("alice", Release(2), 0x0000),
        Dev("1 1 start 0", "ok 1 5 0"),
        Ask("opal", Cancel(1), 0x0000),
        Ask("opal", Cancel(3), 0x0000),
    ],
    rows: &[
        &[
            Operators(&["pearl"]),
            Jobs("opal", Live, &[]),
            Ask("opal", Cancel(2), 0x0406),
            Ask("opal", Request::Look(1), 0x0406),
            Jobs("pearl", Live, &[1, 2, 4]),
            Jobs("pearl", Ended, &[3]),
            Look("pearl", 3, 7, &["job-canceled-by-operator"]),
            Ask("pearl", Cancel(1), 0x0404),
            Ask("pearl", Cancel(2), 0x0000),
            Sheet("alice", (60, 40, 20, 0)),
            Dev("1 2 halt 0", "ok 1 7 0"),
            Look("alice", 1, 7, &["job-canceled-by-operator"]),
            Look("alice", 2, 7, &["job-canceled-by-operator"]),
            Sheet("alice", (60, 60, 0, 0)),
        ],
        &[
            Operators(SIXTEEN),
            Jobs("opal", Live, &[]),
            Jobs("a", Live, &[1, 2, 4]),
            Jobs("o", Live, &[1, 2, 4]),
            Jobs("pearl", Live, &[1, 2, 4]),
            Operators(&["opal", "alice"]),
            Jobs("pearl", Live, &[]),
            Jobs("opal", Live, &[1, 2, 4]),
            // one who is an owner, too
            Ask("alice", Cancel(2), 0x0000),
            Look("opal", 2, 7, &["job-canceled-by-user"]),
            Operators(&[]),
            Jobs("opal", Live, &[]),
            Ask("opal", Cancel(4), 0x0406),
            Jobs("alice", Live, &[1, 4]),
            Operators(&["opal"]),
            Operators(&["opal"]),
            Jobs("opal", Live, &[1, 4]),
        ],
    ],
}];

#[test]
fn operators_that_are_set(rt: HostRuntime) -> Result<(), Fail> {
    take_cases_in_tables(&rt, "set", SET)
}
