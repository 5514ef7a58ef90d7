//! The steps of a test.

use crate::desk::request::{JobsWanted, Request};

/// What comes of an account file: how many rows are new and how many repeats, or a code and its row.
pub(crate) type Outcome = Result<(u32, u32), (u8, u32)>;

/// The pages of an account that are granted, free, reserved and printed.
pub(super) type Pages = (u64, i64, u64, u64);

/// What a step asks, or looks at, and what is wanted of it.
#[derive(Clone, Copy)]
pub(crate) enum Step<'a> {
    /// The steps behind it come at this moment. Those before the first such step come at moment 1.
    Now(u32),
    /// An account file of these rows behind its header, and what comes of it.
    Grant(&'a [u8], Outcome),
    /// A whole account file, and what comes of it.
    File(&'a [u8], Outcome),
    /// A line of the device, and its answer, both without their line feeds.
    Dev(&'a str, &'a str),
    /// A sweep, and how many jobs it ends.
    Expire(u32),
    /// The operators are set to these. Books in lists can't do that.
    Operators(&'a [&'a str]),
    /// A caller's request, and the status code of the reply.
    Ask(&'a str, Request<'a>, u16),
    /// A caller's request so many times, and the status code of each reply.
    AskTimes(u32, &'a str, Request<'a>, u16),
    /// A caller's request that changes nothing, and the bytes of the reply.
    Reply(&'a str, Request<'a>, &'a [u8]),
    /// A caller's job has this state, with these reasons.
    Look(&'a str, u32, u8, &'a [&'a str]),
    /// A caller's Get-Jobs lists the jobs of these numbers, in this order.
    Jobs(&'a str, JobsWanted, &'a [u32]),
    /// An account has so many pages granted, free, reserved and printed.
    Sheet(&'a str, Pages),
    /// There is no such account.
    NoSheet(&'a str),
    /// An account's statement.
    Statement(&'a str, &'a str),
    /// The device's queue.
    Queue(&'a str),
    /// How many bytes the document of a job has that the device may fetch.
    Document(u32, u32, Option<u64>),
    /// The bytes of the document of a job, as the device fetches them.
    Fetch(u32, u32, &'a [u8]),
}

impl Step<'_> {
    /// It looks at the queue, and changes nothing of it.
    pub(crate) fn only_looks(self) -> bool {
        match self {
            Step::Reply(..)
            | Step::Look(..)
            | Step::Jobs(..)
            | Step::Sheet(..)
            | Step::NoSheet(_)
            | Step::Statement(..)
            | Step::Queue(_)
            | Step::Document(..)
            | Step::Fetch(..) => true,
            Step::Now(_)
            | Step::Grant(..)
            | Step::File(..)
            | Step::Dev(..)
            | Step::Expire(_)
            | Step::Operators(_)
            | Step::Ask(..)
            | Step::AskTimes(..) => false,
        }
    }
}
