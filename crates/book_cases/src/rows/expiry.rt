//! Held and open jobs that expire, and those that don't.

use crate::desk::Desk;
use crate::desk::fault::StepFault;
use crate::desk::request::JobsWanted::{Ended, Live};
use crate::desk::request::Request;
use crate::desk::request::Request::{Cancel, Create, Hold, LookAtAll, Print, Release, Send};
use crate::desk::shelf::Shelf;
use crate::desk::step::Step;
use crate::desk::step::Step::{
    Ask, Dev, Expire, Grant, Jobs, Look, NoSheet, Now, Queue, Reply, Sheet,
};
use crate::shelves::books::{Case, take_cases};
use crate::shelves::kinds::{Adopted, InLists, InTables};
use queue_types::operators::OperatorNames;
use queue_types::settings::Settings;
use std::alloc::Global;
use std::test::Fail;

/// A document of job 1 that isn't the last.
const MORE: Request<'static> = Send {
    job: 1,
    document: b"a",
    last: false,
};

/// Job 1 of alice, who has 30 pages, is released and open, and job 2 is on hold.
const TWO_JOBS: &[Step<'static>] = &[
    Grant(b"f24,alice,30\n", Ok((1, 0))),
    Ask("alice", Create, 0x0000),
    Ask("alice", Release(1), 0x0000),
    Sheet("alice", (30, 10, 20, 0)),
    Ask("alice", Print, 0x0000),
];

/// Two jobs that expire together, with all of their attributes, and requests about them afterwards.
static TWO_THAT_EXPIRE: &[Case<'static>] = &[Case {
    name: "a job that is open and one on hold",
    first: TWO_JOBS,
    rows: &[
        &[
            Now(3600),
            Expire(0),
            Look("alice", 1, 4, &["job-incoming"]),
            Look("alice", 2, 4, &["job-hold-until-specified"]),
            Sheet("alice", (30, 10, 20, 0)),
            Now(3601),
            Expire(2),
            Reply(
                "alice",
                LookAtAll(1),
                b"\x01\x01\x00\x00\x0a\x0b\x0c\x0d\x01G\x00\x12attributes-charset\x00\x05utf-8H\x00\x1battributes-natural-language\x00\x02en\x02E\x00\x07job-uri\x00\x1bipp://localhost/ipp/print/1!\x00\x06job-id\x00\x04\x00\x00\x00\x01E\x00\x0fjob-printer-uri\x00\x19ipp://localhost/ipp/printB\x00\x08job-name\x00\x08untitledB\x00\x19job-originating-user-name\x00\x05alice#\x00\x09job-state\x00\x04\x00\x00\x00\x08D\x00\x11job-state-reasons\x00\x11aborted-by-system!\x00\x10time-at-creation\x00\x04\x00\x00\x00\x01\x13\x00\x12time-at-processing\x00\x00!\x00\x11time-at-completed\x00\x04\x00\x00\x0e\x11!\x00\x13job-printer-up-time\x00\x04\x00\x00\x0e\x11G\x00\x12attributes-charset\x00\x05utf-8H\x00\x1battributes-natural-language\x00\x02en!\x00\x0cjob-k-octets\x00\x04\x00\x00\x00\x00!\x00\x0fjob-impressions\x00\x04\x00\x00\x00\x14!\x00\x19job-impressions-completed\x00\x04\x00\x00\x00\x00!\x00\x13number-of-documents\x00\x04\x00\x00\x00\x00!\x00\x06copies\x00\x04\x00\x00\x00\x01D\x00\x0ejob-hold-until\x00\x07no-hold\x03",
            ),
            Reply(
                "alice",
                LookAtAll(2),
                b"\x01\x01\x00\x00\x0a\x0b\x0c\x0d\x01G\x00\x12attributes-charset\x00\x05utf-8H\x00\x1battributes-natural-language\x00\x02en\x02E\x00\x07job-uri\x00\x1bipp://localhost/ipp/print/2!\x00\x06job-id\x00\x04\x00\x00\x00\x02E\x00\x0fjob-printer-uri\x00\x19ipp://localhost/ipp/printB\x00\x08job-name\x00\x08untitledB\x00\x19job-originating-user-name\x00\x05alice#\x00\x09job-state\x00\x04\x00\x00\x00\x08D\x00\x11job-state-reasons\x00\x11aborted-by-system!\x00\x10time-at-creation\x00\x04\x00\x00\x00\x01\x13\x00\x12time-at-processing\x00\x00!\x00\x11time-at-completed\x00\x04\x00\x00\x0e\x11!\x00\x13job-printer-up-time\x00\x04\x00\x00\x0e\x11G\x00\x12attributes-charset\x00\x05utf-8H\x00\x1battributes-natural-language\x00\x02en!\x00\x0cjob-k-octets\x00\x04\x00\x00\x00\x01!\x00\x0fjob-impressions\x00\x04\x00\x00\x00\x14!\x00\x19job-impressions-completed\x00\x04\x00\x00\x00\x00!\x00\x13number-of-documents\x00\x04\x00\x00\x00\x01!\x00\x06copies\x00\x04\x00\x00\x00\x01D\x00\x0ejob-hold-until\x00\x07no-hold\x03",
            ),
            Sheet("alice", (30, 30, 0, 0)),
            Expire(0),
            Dev("1 1 start 0", "refused 3 state"),
            Ask("alice", Cancel(2), 0x0404),
        ],
        &[
            Now(2_147_483_647),
            Expire(2),
            Sheet("alice", (30, 30, 0, 0)),
            Jobs("alice", Live, &[]),
            Jobs("alice", Ended, &[2, 1]),
            Ask("alice", MORE, 0x0404),
            Ask("alice", Hold(1), 0x0404),
            Ask("alice", Release(1), 0x0404),
            Ask("alice", Print, 0x0000),
            Ask("alice", Release(3), 0x0000),
            Sheet("alice", (30, 10, 20, 0)),
        ],
    ],
}];

/// Which jobs expire, and when.
static WHICH_EXPIRE: &[Case<'static>] = &[
    Case {
        name: "jobs that wait for the device or are begun",
        first: &[
            Grant(b"f24,alice,100\n", Ok((1, 0))),
            Ask("alice", Print, 0x0000),
            Ask("alice", Print, 0x0000),
            Ask("alice", Print, 0x0000),
            Ask("alice", Print, 0x0000),
            Ask("alice", Release(1), 0x0000),
            Ask("alice", Release(2), 0x0000),
            Ask("alice", Release(3), 0x0000),
            Dev("2 1 start 0", "ok 2 5 0"),
            Dev("3 1 start 0", "ok 3 5 0"),
            Dev("3 2 stop 4", "ok 3 6 4"),
            Ask("alice", Cancel(4), 0x0000),
        ],
        rows: &[&[
            Now(3601),
            Expire(0),
            Look("alice", 1, 3, &["none"]),
            Look("alice", 2, 5, &["job-printing"]),
            Look("alice", 3, 6, &["printer-stopped"]),
            Look("alice", 4, 7, &["job-canceled-by-user"]),
            Sheet("alice", (100, 40, 56, 4)),
            Ask("alice", Hold(1), 0x0000),
            Expire(1),
            Look("alice", 1, 8, &["aborted-by-system"]),
            Queue(""),
            Sheet("alice", (100, 60, 36, 4)),
        ]],
    },
    Case {
        name: "jobs of several moments and owners",
        first: &[
            Grant(b"f24,alice,30\nf24,bob,50\n", Ok((2, 0))),
            Ask("alice", Create, 0x0000),
            Ask("alice", Release(1), 0x0000),
            Now(5000),
            Ask("carol", Print, 0x0000),
            Ask("bob", Create, 0x0000),
            Ask("bob", Create, 0x0000),
            Ask("bob", Release(3), 0x0000),
            Ask("bob", Release(4), 0x0000),
            Now(5001),
            Ask("alice", Print, 0x0000),
        ],
        rows: &[
            &[
                // a moment before the one at which a job was made
                Now(4999),
                Expire(1),
                Look("alice", 1, 8, &["aborted-by-system"]),
                Sheet("alice", (30, 30, 0, 0)),
                Sheet("bob", (50, 10, 40, 0)),
                Now(8599),
                Expire(0),
                Now(8600),
                Expire(3),
                Sheet("bob", (50, 50, 0, 0)),
                NoSheet("carol"),
                Jobs("bob", Ended, &[4, 3]),
                Look("carol", 2, 8, &["aborted-by-system"]),
                Look("alice", 5, 4, &["job-hold-until-specified"]),
            ],
            &[
                Now(8601),
                Expire(5),
                Sheet("alice", (30, 30, 0, 0)),
                Sheet("bob", (50, 50, 0, 0)),
            ],
        ],
    },
];

#[test]
fn two_jobs_that_expire(rt: HostRuntime) -> Result<(), Fail> {
    take_cases(&rt, "two_jobs_that_expire", TWO_THAT_EXPIRE)
}

#[test]
fn which_jobs_expire(rt: HostRuntime) -> Result<(), Fail> {
    take_cases(&rt, "which_jobs_expire", WHICH_EXPIRE)
}

/// The seconds for which a book keeps jobs, and the number of jobs that a sweep at the last moment ends if one was made at the first.
const KEPT: [(u32, u32); 4] = [(0, 0), (1, 1), (2_147_483_646, 1), (2_147_483_647, 0)];

/// A sweep at the last moment ends this number of jobs in each book, in which a job was made at the first.
fn keep_for(alloc: Global, keep: u32, ended: u32) -> Result<(), StepFault> {
    let settings = Settings::new(
        alloc,
        "ipp://localhost/ipp/print",
        "release",
        20,
        0,
        keep,
        OperatorNames::none(alloc),
    )?;
    let mut desk = Desk::of(alloc, settings, 1);
    let steps = [
        Now(1),
        Ask("alice", Print, 0x0000),
        Now(2_147_483_647),
        Expire(ended),
    ];
    InLists.take_steps(&mut desk, &[], &steps)?;
    InTables.take_steps(&mut desk, &[], &steps)?;
    Adopted.take_steps(&mut desk, &[], &steps)
}

#[test]
fn seconds_that_jobs_are_kept_for(rt: HostRuntime) -> Result<(), StepFault> {
    for (keep, ended) in &KEPT {
        keep_for(rt.alloc(), *keep, *ended)?;
    }
    Ok(())
}
