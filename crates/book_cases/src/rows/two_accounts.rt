//! Accounts beside one another: what happens to the jobs of one leaves the other.

use crate::desk::request::Request;
use crate::desk::request::Request::{Cancel, CancelMine, Hold, Print, PrintSized, Release};
use crate::desk::step::Step;
use crate::desk::step::Step::{Ask, AskTimes, Dev, Grant, Look, Queue, Sheet, Statement};
use crate::shelves::books::{Case, take_cases};
use std::test::Fail;

/// Jobs 1, 3 and 5 of alice and 2 and 4 of bob are released.
const FIVE_JOBS: &[Step<'static>] = &[
    Grant(b"f24,alice,100\nf24,bob,100\n", Ok((2, 0))),
    Ask("alice", Print, 0x0000),
    Ask("bob", Print, 0x0000),
    Ask("alice", Print, 0x0000),
    Ask("bob", Print, 0x0000),
    Ask("alice", Print, 0x0000),
    Ask("alice", Release(1), 0x0000),
    Ask("bob", Release(2), 0x0000),
    Ask("alice", Release(3), 0x0000),
    Ask("bob", Release(4), 0x0000),
    Ask("alice", Release(5), 0x0000),
    Sheet("alice", (100, 40, 60, 0)),
    Sheet("bob", (100, 60, 40, 0)),
];

/// Five pages of one copy.
const FIVE: Request<'static> = PrintSized {
    impressions: 5,
    copies: 1,
};

/// Jobs of two accounts.
static CASES: &[Case<'static>] = &[
    Case {
        name: "jobs that are canceled together",
        first: FIVE_JOBS,
        rows: &[
            // all of alice's, of which one prints
            &[
                Dev("1 1 start 0", "ok 1 5 0"),
                Dev("1 2 count 7", "ok 1 5 7"),
                Dev("2 1 start 0", "ok 2 5 0"),
                Sheet("alice", (100, 40, 53, 7)),
                Ask("alice", CancelMine(None), 0x0000),
                Sheet("alice", (100, 80, 13, 7)),
                Sheet("bob", (100, 60, 40, 0)),
                Look("alice", 1, 5, &["job-printing", "processing-to-stop-point"]),
                Look("alice", 3, 7, &["job-canceled-by-user"]),
                Look("alice", 5, 7, &["job-canceled-by-user"]),
                Look("bob", 2, 5, &["job-printing"]),
                Look("bob", 4, 3, &["none"]),
                Queue("4 1 1 2\n"),
                Dev("1 3 halt 9", "ok 1 7 9"),
                Sheet("alice", (100, 91, 0, 9)),
                Sheet("bob", (100, 60, 40, 0)),
                Dev("2 2 done 20", "ok 2 9 20"),
                Sheet("bob", (100, 60, 20, 20)),
                Ask("bob", CancelMine(Some(2)), 0x0404),
                Ask("alice", CancelMine(Some(4)), 0x0406),
                Sheet("bob", (100, 60, 20, 20)),
                Ask("bob", CancelMine(Some(4)), 0x0000),
                Sheet("bob", (100, 80, 0, 20)),
                Sheet("alice", (100, 91, 0, 9)),
            ],
            // alice's one by one, and bob's together
            &[
                Ask("alice", Hold(3), 0x0000),
                Sheet("alice", (100, 60, 40, 0)),
                Ask("alice", Cancel(3), 0x0000),
                Sheet("alice", (100, 60, 40, 0)),
                Ask("alice", Cancel(5), 0x0000),
                Sheet("alice", (100, 80, 20, 0)),
                Ask("bob", CancelMine(None), 0x0000),
                Sheet("bob", (100, 100, 0, 0)),
                Sheet("alice", (100, 80, 20, 0)),
                Queue("1 1 1 2\n"),
                Ask("bob", CancelMine(None), 0x0000),
                Sheet("bob", (100, 100, 0, 0)),
            ],
        ],
    },
    Case {
        name: "jobs of the same pages",
        first: &[],
        rows: &[
            // one of each account
            &[
                Grant(b"f24,alice,30\nf24,bob,30\n", Ok((2, 0))),
                Ask("alice", Print, 0x0000),
                Ask("bob", Print, 0x0000),
                Ask("alice", Release(1), 0x0000),
                Ask("bob", Release(2), 0x0000),
                Dev("1 1 start 0", "ok 1 5 0"),
                Dev("2 1 start 0", "ok 2 5 0"),
                Dev("1 2 count 12", "ok 1 5 12"),
                Dev("2 2 count 12", "ok 2 5 12"),
                Sheet("alice", (30, 10, 8, 12)),
                Sheet("bob", (30, 10, 8, 12)),
                Dev("1 3 done 12", "ok 1 9 12"),
                Sheet("alice", (30, 18, 0, 12)),
                Sheet("bob", (30, 10, 8, 12)),
                Statement(
                    "bob",
                    "account bob\n\
                    granted               30\n\
                    free                  10\n\
                    reserved               8\n\
                    printed               12\n\
                    \x20      job state  reserved   printed\n\
                    \x20        2     5         8        12\n\
                    \x20    total               8        12\n",
                ),
            ],
            // three of one account
            &[
                Grant(b"f24,alice,30\nf25,alice,30\n", Ok((2, 0))),
                AskTimes(3, "alice", FIVE, 0x0000),
                Ask("alice", Release(3), 0x0000),
                Ask("alice", Release(1), 0x0000),
                Ask("alice", Release(2), 0x0000),
                Sheet("alice", (60, 45, 15, 0)),
                Dev("1 1 start 0", "ok 1 5 0"),
                Dev("3 1 start 0", "ok 3 5 0"),
                Dev("1 2 done 5", "ok 1 9 5"),
                Dev("3 2 count 5", "ok 3 5 5"),
                Sheet("alice", (60, 45, 5, 10)),
                Statement(
                    "alice",
                    "account alice\n\
                    granted               60\n\
                    free                  45\n\
                    reserved               5\n\
                    printed               10\n\
                    \x20      job state  reserved   printed\n\
                    \x20        1     9         0         5\n\
                    \x20        2     3         5         0\n\
                    \x20        3     5         0         5\n\
                    \x20    total               5        10\n",
                ),
            ],
        ],
    },
    Case {
        name: "names that differ in one byte",
        first: &[],
        rows: &[&[
            Grant(b"f24,alice,30\nf24,Alice,40\nf24,alice ,50\n", Ok((3, 0))),
            Ask("Alice", Print, 0x0000),
            Ask("alice", Release(1), 0x0406),
            Ask("Alice", Release(1), 0x0000),
            Sheet("alice", (30, 30, 0, 0)),
            Sheet("Alice", (40, 20, 20, 0)),
            Sheet("alice ", (50, 50, 0, 0)),
            Ask("alice", CancelMine(None), 0x0000),
            Ask("alice ", CancelMine(None), 0x0000),
            Sheet("Alice", (40, 20, 20, 0)),
        ]],
    },
];

#[test]
fn accounts_beside_one_another(rt: HostRuntime) -> Result<(), Fail> {
    take_cases(&rt, "two", CASES)
}
