//! Pages that enter accounts, and statements of accounts.

use crate::desk::request::Request::{Cancel, Hold, Print, Release};
use crate::desk::step::Step;
use crate::desk::step::Step::{Ask, Dev, Grant, Look, NoSheet, Sheet, Statement};
use crate::shelves::books::{Case, take_cases};
use std::test::Fail;

/// Pages of waiting jobs, and a statement of one that prints.
static CASES: &[Case<'static>] = &[
    Case {
        name: "pages of waiting jobs",
        first: &[],
        rows: &[
            // more pages, and the same again
            &[
                Grant(b"f24,alice,30\n", Ok((1, 0))),
                Ask("alice", Print, 0x0000),
                Ask("alice", Release(1), 0x0000),
                Sheet("alice", (30, 10, 20, 0)),
                Grant(b"f25,alice,10\n", Ok((1, 0))),
                Grant(b"f25,alice,10\n", Ok((0, 1))),
                Sheet("alice", (40, 20, 20, 0)),
            ],
            // the job is held
            &[
                Grant(b"f24,alice,30\n", Ok((1, 0))),
                Ask("alice", Print, 0x0000),
                Ask("alice", Release(1), 0x0000),
                Ask("alice", Hold(1), 0x0000),
                Look("alice", 1, 4, &["job-hold-until-specified"]),
                Sheet("alice", (30, 30, 0, 0)),
                Ask("alice", Hold(1), 0x0000),
                Sheet("alice", (30, 30, 0, 0)),
            ],
            // the job is canceled
            &[
                Grant(b"f24,alice,30\n", Ok((1, 0))),
                Ask("alice", Print, 0x0000),
                Ask("alice", Release(1), 0x0000),
                Ask("alice", Cancel(1), 0x0000),
                Sheet("alice", (30, 30, 0, 0)),
            ],
            // a caller without an account
            &[
                Ask("bob", Print, 0x0000),
                NoSheet("bob"),
                Ask("bob", Release(1), 0x0404),
                Look("bob", 1, 4, &["job-hold-until-specified"]),
                NoSheet("bob"),
                Grant(b"f24,bob,19\n", Ok((1, 0))),
                Ask("bob", Release(1), 0x0404),
                Grant(b"f25,bob,1\n", Ok((1, 0))),
                Ask("bob", Release(1), 0x0000),
                Sheet("bob", (20, 0, 20, 0)),
            ],
        ],
    },
    Case {
        name: "statements of a job that prints",
        first: &[],
        rows: &[&[
            Grant(b"f24,alice,30\n", Ok((1, 0))),
            Statement(
                "alice",
                "account alice\n\
                    granted               30\n\
                    free                  30\n\
                    reserved               0\n\
                    printed                0\n\
                    \x20      job state  reserved   printed\n\
                    \x20    total               0         0\n",
            ),
            Ask("alice", Print, 0x0000),
            Ask("alice", Print, 0x0000),
            Ask("alice", Release(1), 0x0000),
            Dev("1 1 start 0", "ok 1 5 0"),
            Dev("1 2 count 12", "ok 1 5 12"),
            Statement(
                "alice",
                "account alice\n\
                    granted               30\n\
                    free                  10\n\
                    reserved               8\n\
                    printed               12\n\
                    \x20      job state  reserved   printed\n\
                    \x20        1     5         8        12\n\
                    \x20    total               8        12\n",
            ),
            Dev("1 3 done 25", "ok 1 9 25"),
            Statement(
                "alice",
                "account alice\n\
                    granted               30\n\
                    free                   5\n\
                    reserved               0\n\
                    printed               25\n\
                    \x20      job state  reserved   printed\n\
                    \x20        1     9         0        25\n\
                    \x20    total               0        25\n",
            ),
        ]],
    },
];

#[test]
fn pages_and_statements(rt: HostRuntime) -> Result<(), Fail> {
    take_cases(&rt, "accounts", CASES)
}
