//! Get-Jobs over jobs of each state, and the documents of a job in their order.

use crate::desk::request::JobsWanted::{Ended, FirstEnded, FirstLive, Live};
use crate::desk::request::Request;
use crate::desk::request::Request::{Cancel, CancelMine, Create, Print, Release, Send};
use crate::desk::step::Step;
use crate::desk::step::Step::{
    Ask, AskTimes, Dev, Document, Fetch, Grant, Jobs, Look, Now, Queue, Sheet,
};
use crate::shelves::books::{Case, take_cases};
use std::test::Fail;

/// Alice's job 1 is in state 3, 2 in 6, 4 in 5, and 3, 5 and 6 in 4. Job 7 is bob's.
const SIX: &[Step<'static>] = &[
    Grant(b"f24,alice,200\n", Ok((1, 0))),
    AskTimes(6, "alice", Print, 0x0000),
    Ask("bob", Print, 0x0000),
    Ask("alice", Release(1), 0x0000),
    Ask("alice", Release(2), 0x0000),
    Ask("alice", Release(4), 0x0000),
    Dev("4 1 start 0", "ok 4 5 0"),
    Dev("2 1 start 0", "ok 2 5 0"),
    Dev("2 2 stop 0", "ok 2 6 0"),
];

/// A document of one byte, behind which others come.
const ONE: Request<'static> = Send {
    job: 1,
    document: b"a",
    last: false,
};

/// A longer one.
const TWO: Request<'static> = Send {
    job: 1,
    document: b"bcd",
    last: false,
};

/// No document, behind which others come.
const NONE: Request<'static> = Send {
    job: 1,
    document: b"",
    last: false,
};

/// That there are no more.
const NO_MORE: Request<'static> = Send {
    job: 1,
    document: b"",
    last: true,
};

/// Lists of live and of ended jobs, and documents.
static CASES: &[Case<'static>] = &[
    Case {
        name: "live jobs by state and number",
        first: SIX,
        rows: &[&[
            Jobs("alice", Live, &[2, 4, 1, 3, 5, 6]),
            Jobs("alice", FirstLive(1), &[2]),
            Jobs("alice", FirstLive(3), &[2, 4, 1]),
            Jobs("alice", FirstLive(4), &[2, 4, 1, 3]),
            Jobs("alice", FirstLive(6), &[2, 4, 1, 3, 5, 6]),
            Jobs("alice", FirstLive(2_147_483_647), &[2, 4, 1, 3, 5, 6]),
            Jobs("alice", Ended, &[]),
            Jobs("alice", FirstEnded(1), &[]),
            Jobs("bob", Live, &[7]),
        ]],
    },
    Case {
        name: "ended jobs by their end",
        first: SIX,
        rows: &[&[
            Now(50),
            Ask("alice", Cancel(6), 0x0000),
            Now(40),
            Ask("alice", Cancel(3), 0x0000),
            Now(50),
            Ask("alice", Cancel(5), 0x0000),
            Now(60),
            Dev("4 2 done 3", "ok 4 9 3"),
            Now(45),
            Dev("2 3 resume 0", "ok 2 5 0"),
            Dev("2 4 fail 1", "ok 2 8 1"),
            Jobs("alice", Ended, &[4, 6, 5, 2, 3]),
            Jobs("alice", FirstEnded(1), &[4]),
            Jobs("alice", FirstEnded(2), &[4, 6]),
            Jobs("alice", FirstEnded(3), &[4, 6, 5]),
            Jobs("alice", FirstEnded(5), &[4, 6, 5, 2, 3]),
            Jobs("alice", Live, &[1]),
            // a count that comes behind the end
            Now(70),
            Dev("2 5 count 9", "ok 2 8 9"),
            Jobs("alice", Ended, &[4, 6, 5, 2, 3]),
            Jobs("bob", Ended, &[]),
            Jobs("bob", Live, &[7]),
        ]],
    },
    Case {
        name: "hundred live jobs",
        first: &[],
        rows: &[&[
            AskTimes(100, "alice", Print, 0x0000),
            Ask("alice", Print, 0x0404),
            Ask("alice", Create, 0x0404),
            Ask("bob", Print, 0x0000),
            Look("bob", 101, 4, &["job-hold-until-specified"]),
            Ask("alice", Cancel(7), 0x0000),
            Ask("alice", Print, 0x0000),
            Ask("alice", Create, 0x0404),
            Jobs("alice", FirstLive(2), &[1, 2]),
            Jobs("alice", Ended, &[7]),
            Ask("alice", CancelMine(None), 0x0000),
            Jobs("alice", Live, &[]),
            Jobs("alice", FirstEnded(3), &[102, 100, 99]),
            Jobs("bob", Live, &[101]),
            Ask("alice", Print, 0x0000),
            Jobs("alice", Live, &[103]),
        ]],
    },
    Case {
        name: "documents in their order",
        first: &[],
        rows: &[
            // sixteen, and no more
            &[
                Grant(b"f24,alice,30\n", Ok((1, 0))),
                Ask("alice", Create, 0x0000),
                AskTimes(15, "alice", ONE, 0x0000),
                Ask("alice", TWO, 0x0000),
                Ask("alice", ONE, 0x0404),
                Ask("alice", NONE, 0x0000),
                Ask("alice", Release(1), 0x0000),
                Look("alice", 1, 4, &["job-incoming"]),
                Sheet("alice", (30, 10, 20, 0)),
                Queue(""),
                Document(1, 16, None),
                Ask("alice", NO_MORE, 0x0000),
                Ask("alice", NO_MORE, 0x0404),
                Look("alice", 1, 3, &["none"]),
                Queue("1 1 16 18\n"),
                Fetch(1, 1, b"a"),
                Fetch(1, 15, b"a"),
                Fetch(1, 16, b"bcd"),
                Document(1, 17, None),
            ],
            // an empty one is none
            &[
                Grant(b"f24,alice,30\n", Ok((1, 0))),
                Ask("alice", Create, 0x0000),
                Ask("alice", TWO, 0x0000),
                Ask("alice", NONE, 0x0000),
                Ask("alice", ONE, 0x0000),
                Ask("alice", NO_MORE, 0x0000),
                Ask("alice", Release(1), 0x0000),
                Queue("1 1 2 4\n"),
                Fetch(1, 1, b"bcd"),
                Fetch(1, 2, b"a"),
                Document(1, 3, None),
            ],
        ],
    },
];

#[test]
fn jobs_and_documents_in_their_order(rt: HostRuntime) -> Result<(), Fail> {
    take_cases(&rt, "lists", CASES)
}
