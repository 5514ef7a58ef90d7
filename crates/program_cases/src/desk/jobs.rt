//! The first job of a queue: its Print-Job and its release, and what a client gets of them.

use crate::desk::connection::Wanted::Success;
use crate::desk::connection::{Connection, Wanted};
use crate::desk::messages::{DONE, JOB_1, PRINT_JOB, RELEASE_JOB};
use crate::desk::requests::{IPP, POST_JOB, POST_RELEASE};
use http_front::End;

/// The answer to a first Print-Job.
pub(crate) const PRINTED: Wanted<'static> = Success(IPP, JOB_1);

/// The answer to its release.
pub(crate) const RELEASED: Wanted<'static> = Success(IPP, DONE);

/// A Print-Job of alice, which is job 1.
pub(crate) const PRINT: Connection<'static> = Connection {
    stream: &[POST_JOB, PRINT_JOB],
    acted: 1,
    end: End::Closed,
    wanted: &[PRINTED],
};

/// Its release.
pub(crate) const RELEASE: Connection<'static> = Connection {
    stream: &[POST_RELEASE, RELEASE_JOB],
    acted: 1,
    end: End::Closed,
    wanted: &[RELEASED],
};
