//! Account files, one after another and alone.

use crate::desk::step::Step::{File, Grant, NoSheet, Sheet};
use crate::desk::step::{Outcome, Step};
use crate::shelves::books::{Case, take_cases};
use std::test::Fail;

/// Rows of three accounts.
const FIRST: &[u8] = b"f24,alice,30\nf24,bob,50\nf24,carol,20\n";

/// Alice has the pages of a row.
const TAKEN: Step<'static> = Sheet("alice", (30, 30, 0, 0));

/// The refusal of a file that has no header.
const NO_HEADER: Outcome = Err((1, 0));

/// A file, and files after it.
static FILES_ONE_AFTER_ANOTHER: &[Case<'static>] = &[Case {
    name: "a file and files after it",
    first: &[],
    rows: &[
        &[
            NoSheet("alice"),
            Grant(FIRST, Ok((3, 0))),
            Sheet("alice", (30, 30, 0, 0)),
            Sheet("bob", (50, 50, 0, 0)),
            Sheet("carol", (20, 20, 0, 0)),
            Grant(FIRST, Ok((0, 3))),
            Grant(FIRST, Ok((0, 3))),
            Sheet("alice", (30, 30, 0, 0)),
            Sheet("bob", (50, 50, 0, 0)),
            Sheet("carol", (20, 20, 0, 0)),
            Grant(b"f24,alice,30\nf24,bob,60\nf24,dave,5\n", Err((4, 2))),
            NoSheet("dave"),
            Sheet("bob", (50, 50, 0, 0)),
        ],
        &[
            Grant(b"f24,\"alice\",30\n", Ok((1, 0))),
            Grant(FIRST, Ok((2, 1))),
            Sheet("alice", (30, 30, 0, 0)),
        ],
        // a conflict with an earlier file
        &[
            Grant(b"f24,alice,30\n", Ok((1, 0))),
            Grant(b"f25,alice,10\nf24,alice,31\n", Err((4, 2))),
            Sheet("alice", (30, 30, 0, 0)),
        ],
    ],
}];

/// Line ends, marks, quotes and headers.
static LINE_ENDS_AND_HEADERS: &[Case<'static>] = &[
    Case {
        name: "files with other line ends marks and quotes",
        first: &[],
        rows: &[
            &[
                File(
                    b"batch,account,pages\r\nf24,alice,30\r\nf24,bob,50\r\n",
                    Ok((2, 0)),
                ),
                TAKEN,
            ],
            &[
                File(
                    b"batch,account,pages\rf24,alice,30\rf24,bob,50\r",
                    Ok((2, 0)),
                ),
                TAKEN,
            ],
            &[
                File(
                    b"\xEF\xBB\xBFbatch,account,pages\r\nf24,alice,30\r\nf24,bob,50\r\n",
                    Ok((2, 0)),
                ),
                TAKEN,
            ],
            &[
                File(
                    b"\xEF\xBB\xBFbatch,account,pages\nf24,alice,30\nf24,bob,50\n",
                    Ok((2, 0)),
                ),
                TAKEN,
            ],
            &[
                File(
                    b"\"batch\",\"account\",\"pages\"\n\"f24\",\"alice\",\"30\"\n",
                    Ok((1, 0)),
                ),
                TAKEN,
            ],
            &[
                File(b"\n\nbatch,account,pages\nf24,alice,30\n", Ok((1, 0))),
                TAKEN,
            ],
            &[File(b"batch,account,pages", Ok((0, 0))), NoSheet("alice")],
            &[Grant(b"f24,alice,30", Ok((1, 0))), TAKEN],
            &[
                Grant(b"f24,alice,30\n\n\nf24,bob,50\n\n", Ok((2, 0))),
                Sheet("bob", (50, 50, 0, 0)),
            ],
        ],
    },
    Case {
        name: "files without the header",
        first: &[],
        rows: &[&[
            File(b"", NO_HEADER),
            File(b"\n", NO_HEADER),
            File(b"\r\n\r\n", NO_HEADER),
            File(b" \nbatch,account,pages\n", NO_HEADER),
            File(b"\xEF\xBB\xBF", NO_HEADER),
            File(b"f24,alice,30\n", NO_HEADER),
            File(b"Batch,account,pages\n", NO_HEADER),
            File(b"batch,account\n", NO_HEADER),
            File(b"batch,account,pages,\n", NO_HEADER),
            File(b"batch,account,pages,note\n", NO_HEADER),
            File(b"batch, account,pages\n", NO_HEADER),
            File(b" batch,account,pages\n", NO_HEADER),
            File(b"batch,account,pages \n", NO_HEADER),
            File(b"account,batch,pages\n", NO_HEADER),
            File(b"batch;account;pages\n", NO_HEADER),
            File(b"batch\taccount\tpages\n", NO_HEADER),
            File(b"\xEF\xBB\xBF\xEF\xBB\xBFbatch,account,pages\n", NO_HEADER),
            File(b"\xEF\xBBbatch,account,pages\n", NO_HEADER),
            File(b"\xFE\xFFbatch,account,pages\n", NO_HEADER),
            File(b"batch,account,pages\0\n", NO_HEADER),
            File(b"\nf24,alice,30\n", NO_HEADER),
            File(b"\"batch,account,pages\"\n", NO_HEADER),
            File(b"f24,alice\nf24,alice,0\n", NO_HEADER),
            File(b"batch\naccount\npages\n", NO_HEADER),
            NoSheet("alice"),
        ]],
    },
];

/// The row of a refusal.
static REFUSALS: &[Case<'static>] = &[Case {
    name: "the row of a refusal",
    first: &[],
    rows: &[&[
        Grant(b" \n", Err((2, 1))),
        Grant(b"f24,zoe,1\n   \n", Err((2, 2))),
        Grant(b"f24,\"al\nice\",30\n", Err((2, 1))),
        Grant(b"f24,a,1\nf24,b\nf24,c,0\n", Err((2, 2))),
        Grant(b"f24,a,1\nf24,c,0\nf24,b\n", Err((3, 2))),
        Grant(b"\n\nf24,a,1\n\nf24,b\n", Err((2, 2))),
        Grant(b"f24,\"a\",1\r\nf24,b\r\n", Err((2, 2))),
        Grant(b"f24,alice,30\nf24,alice,0\n", Err((3, 2))),
        Grant(b"f24,alice,0\n", Err((3, 1))),
        Grant(b"f24,alice,1000001\n", Err((3, 1))),
        Grant(b"f24,alice,4294967296\n", Err((3, 1))),
        Grant(b"f24,alice,4294967326\n", Err((3, 1))),
        Grant(b"f24,alice,18446744073709551646\n", Err((3, 1))),
        Grant(b"f 24,alice,0\n", Err((2, 1))),
        Grant(b"f24,,1000001\n", Err((2, 1))),
        Grant(b"f24,alice,0\nf24,bob\n", Err((3, 1))),
        Grant(b"f24,alice,30\nf24,alice,31\n", Err((4, 2))),
        Grant(
            b"f24,alice,30\nf24,bob,1\nf24,alice,30\nf24,alice,29\n",
            Err((4, 4)),
        ),
        Grant(b"f24,alice,30\nf24,alice,31\nf24,bob\n", Err((2, 3))),
        Grant(b"f24,alice,30\nf24,alice,31\nf24,bob,0\n", Err((3, 3))),
        Grant(b"f24,\"x\",1\r\nf24,b\r\n", Err((2, 2))),
        NoSheet("alice"),
        NoSheet("a"),
        NoSheet("bob"),
        NoSheet("zoe"),
    ]],
}];

#[test]
fn files_one_after_another(rt: HostRuntime) -> Result<(), Fail> {
    take_cases(&rt, "files_one_after_another", FILES_ONE_AFTER_ANOTHER)
}

#[test]
fn line_ends_and_headers(rt: HostRuntime) -> Result<(), Fail> {
    take_cases(&rt, "line_ends_and_headers", LINE_ENDS_AND_HEADERS)
}

#[test]
fn refusals(rt: HostRuntime) -> Result<(), Fail> {
    take_cases(&rt, "refusals", REFUSALS)
}
