//! The command `expire`, and stores of an earlier release of the program.

use crate::desk::streams::{NO_FLUSH, NO_ROOM};
use crate::program::folder::Step::{IsEmpty, Keeps, Runs, Tells, Unprinted};
use crate::program::folder::{
    DAMAGED, DISK, DONE, EXPIRE, IMPORTED, MADE, REPEATED, Row, STATEMENT, STORE, Step, Told,
    take_rows,
};
use std::test::Fail;

/// A store is made whose jobs are kept for 1,000,000,000 seconds, some 31 years.
pub(super) const MADE_WITH_KEEP: Step = Tells(
    "printd init --store @/store --uri ipp://localhost/ipp/print --name release --keep 1000000000",
    DONE,
);

/// The epoch of the store is 1970. Alice, who has 30 pages, made two jobs at its first moment: one is released and open for documents, the other
/// is on hold.
pub(super) const HELD: Step = Runs(
    "\
    UPDATE meta SET epoch = 0, next_number = 3; \
    UPDATE accounts SET free = 10, reserved = 20; \
    INSERT INTO jobs VALUES \
    (1, 'alice', 'untitled', 1, 20, 0, 1, 0, 0, 0, 0, 1, NULL, NULL), \
    (2, 'alice', 'untitled', 1, 20, 1, 0, 0, 0, 0, 0, 1, NULL, NULL)",
);

/// The statement of alice before these jobs expire.
pub(super) const RESERVED: Told = (
    0,
    "account alice\n\
    granted               30\n\
    free                  10\n\
    reserved              20\n\
    printed                0\n       \
    job state  reserved   printed\n         \
    1     4        20         0\n     \
    total              20         0\n",
    "",
);

/// Her statement after they have expired.
const FREE: Told = (
    0,
    "account alice\n\
    granted               30\n\
    free                  30\n\
    reserved               0\n\
    printed                0\n       \
    job state  reserved   printed\n     \
    total               0         0\n",
    "",
);

pub(super) const NONE_EXPIRED: Step = Tells(EXPIRE, (0, "expired 0\n", ""));

pub(super) const TWO_EXPIRED: Step = Tells(EXPIRE, (0, "expired 2\n", ""));

static EXPIRING: [Row; 6] = [
    (
        "jobs that expire",
        &[
            MADE_WITH_KEEP,
            NONE_EXPIRED,
            IMPORTED,
            HELD,
            Tells(STATEMENT, RESERVED),
            TWO_EXPIRED,
            Tells(STATEMENT, FREE),
            NONE_EXPIRED,
        ],
    ),
    (
        "jobs that are kept without end",
        &[
            MADE,
            IMPORTED,
            HELD,
            NONE_EXPIRED,
            Tells(STATEMENT, RESERVED),
        ],
    ),
    (
        "jobs that are kept for the most seconds",
        &[
            Tells(
                "printd init --store @/store --uri ipp://localhost/ipp/print --name release --keep 2147483647",
                DONE,
            ),
            IMPORTED,
            HELD,
            NONE_EXPIRED,
        ],
    ),
    // the jobs end all the same
    (
        "a count of jobs that can't be written",
        &[
            MADE_WITH_KEEP,
            IMPORTED,
            HELD,
            Unprinted(EXPIRE, NO_ROOM),
            NONE_EXPIRED,
        ],
    ),
    (
        "a count of jobs that can't be flushed",
        &[
            MADE_WITH_KEEP,
            IMPORTED,
            HELD,
            Unprinted(EXPIRE, NO_FLUSH),
            NONE_EXPIRED,
        ],
    ),
    (
        "paths of no store",
        &[
            Tells(EXPIRE, DISK),
            Tells("printd expire --store @", DISK),
            Tells("printd expire --store ", DISK),
            Tells("printd expire --store /dev/null", DISK),
            IsEmpty,
        ],
    ),
];

#[test]
fn jobs_that_expire(rt: HostRuntime) -> Result<(), Fail> {
    take_rows(&rt, "expiry", &EXPIRING)
}

/// Makes the tables those of a release without operators.
pub(super) const TO_SECOND: Step = Runs(
    "DROP INDEX jobs_by_ended; DROP TABLE operators; UPDATE meta SET schema = 2",
);

/// Makes the tables those of a release without expiry.
pub(super) const TO_FIRST: Step = Runs(
    "DROP INDEX jobs_by_ended; DROP TABLE operators; DROP INDEX jobs_by_age; DROP TABLE policy; UPDATE meta SET schema = 1",
);

const NO_SWEEP: Step = Keeps(STORE, EXPIRE, DAMAGED);

static OLDER_STORES: [Row; 4] = [
    // its tables are taken to the newest schema, and its jobs are kept for as long as before
    (
        "a store of a release without operators",
        &[
            MADE_WITH_KEEP,
            IMPORTED,
            HELD,
            TO_SECOND,
            Tells(STATEMENT, RESERVED),
            REPEATED,
            TWO_EXPIRED,
            Tells(STATEMENT, FREE),
        ],
    ),
    // they are kept without end
    (
        "a store of a release without expiry",
        &[
            MADE,
            IMPORTED,
            HELD,
            TO_FIRST,
            Tells(STATEMENT, RESERVED),
            REPEATED,
            NONE_EXPIRED,
            Runs("UPDATE policy SET keep = 1"),
            TWO_EXPIRED,
        ],
    ),
    // no command opens it, and it stays as it was
    (
        "a store of an earlier release that is damaged",
        &[
            MADE,
            IMPORTED,
            TO_FIRST,
            Runs("UPDATE meta SET schema = 2"),
            NO_SWEEP,
            Keeps(STORE, STATEMENT, DAMAGED),
            Runs("UPDATE meta SET schema = 3"),
            NO_SWEEP,
            Runs("UPDATE meta SET schema = 99"),
            NO_SWEEP,
            Runs("UPDATE meta SET schema = 1"),
            NONE_EXPIRED,
            TO_SECOND,
            Runs("UPDATE meta SET schema = 3"),
            NO_SWEEP,
            Keeps(STORE, STATEMENT, DAMAGED),
            Runs("UPDATE meta SET schema = 2"),
            NONE_EXPIRED,
        ],
    ),
    (
        "seconds that no job is kept for",
        &[
            MADE,
            Runs("UPDATE policy SET keep = 2147483648"),
            NO_SWEEP,
            Runs("UPDATE policy SET keep = -1"),
            NO_SWEEP,
            Runs("DELETE FROM policy"),
            NO_SWEEP,
            Runs("INSERT INTO policy VALUES (2, 0)"),
            NO_SWEEP,
            Runs("INSERT INTO policy VALUES (1, 0)"),
            NO_SWEEP,
            Runs("DELETE FROM policy WHERE one = 2"),
            NONE_EXPIRED,
        ],
    ),
];

#[test]
fn stores_of_earlier_releases(rt: HostRuntime) -> Result<(), Fail> {
    take_rows(&rt, "older", &OLDER_STORES)
}
