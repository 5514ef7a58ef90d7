//! A queue in the tables of the first schema, which has no time for which jobs are kept, and of the second, which has no operators. Neither tells who asked
//! to stop a job.

use crate::desk::request::JobsWanted::{Ended, Live};
use crate::desk::step::Step;
use crate::desk::step::Step::{
    Dev, Document, Fetch, Grant, Jobs, Look, NoSheet, Queue, Sheet, Statement,
};

/// The statements that make its tables.
pub(crate) const FIRST_TABLES: &str = "\
    CREATE TABLE meta (one INTEGER PRIMARY KEY, schema INTEGER NOT NULL, uri TEXT NOT NULL, name TEXT NOT NULL, estimate INTEGER NOT NULL, epoch INTEGER NOT NULL, next_number INTEGER NOT NULL) STRICT;\
    CREATE TABLE jobs (number INTEGER PRIMARY KEY, owner TEXT NOT NULL, name TEXT NOT NULL, copies INTEGER NOT NULL, impressions INTEGER NOT NULL, hold INTEGER NOT NULL, incoming INTEGER NOT NULL, phase INTEGER NOT NULL, why INTEGER NOT NULL, stopping INTEGER NOT NULL, count INTEGER NOT NULL, created INTEGER NOT NULL, begun INTEGER, ended INTEGER) STRICT;\
    CREATE TABLE documents (job INTEGER NOT NULL REFERENCES jobs (number), doc INTEGER NOT NULL, format TEXT NOT NULL, octets INTEGER NOT NULL, PRIMARY KEY (job, doc)) STRICT;\
    CREATE TABLE pieces (job INTEGER NOT NULL, doc INTEGER NOT NULL, piece INTEGER NOT NULL, bytes BLOB NOT NULL, PRIMARY KEY (job, doc, piece), FOREIGN KEY (job, doc) REFERENCES documents (job, doc)) STRICT;\
    CREATE TABLE accounts (name TEXT NOT NULL PRIMARY KEY, free INTEGER NOT NULL, reserved INTEGER NOT NULL, printed INTEGER NOT NULL) STRICT;\
    CREATE TABLE grants (batch TEXT NOT NULL, account TEXT NOT NULL REFERENCES accounts (name), pages INTEGER NOT NULL, PRIMARY KEY (batch, account)) STRICT;\
    CREATE TABLE reports (job INTEGER NOT NULL REFERENCES jobs (number), seq INTEGER NOT NULL, kind INTEGER NOT NULL, count INTEGER NOT NULL, state INTEGER NOT NULL, total INTEGER NOT NULL, PRIMARY KEY (job, seq)) STRICT;\
    CREATE INDEX jobs_by_owner ON jobs (owner, phase);\
    CREATE INDEX jobs_by_end ON jobs (owner, ended);\
    CREATE INDEX jobs_by_phase ON jobs (phase, hold, incoming);";

/// The statements that fill them.
///
/// | Job | Owner | Phase |
/// |---|---|---|
/// | 1 | alice | completed, 25 pages |
/// | 2 | alice | on hold |
/// | 3 | bob | released, and open for documents |
/// | 4 | bob | running, 4 pages, and asked to stop |
/// | 5 | bob | waiting for the device |
/// | 6 | bob | canceled by its user |
/// | 7 | carol, who has no account | on hold, and open for documents |
pub(crate) const FIRST_ROWS: &str = "\
    INSERT INTO meta VALUES (1, 1, 'ipp://localhost/ipp/print', 'release', 20, 0, 8);\
    INSERT INTO jobs VALUES \
    (1, 'alice', 'untitled', 1, 20, 0, 0, 9, 0, 0, 25, 1, 1, 1), \
    (2, 'alice', 'untitled', 1, 20, 1, 0, 0, 0, 0, 0, 1, NULL, NULL), \
    (3, 'bob', 'untitled', 1, 20, 0, 1, 0, 0, 0, 0, 2, NULL, NULL), \
    (4, 'bob', 'untitled', 1, 20, 0, 0, 1, 0, 1, 4, 2, 3, NULL), \
    (5, 'bob', 'untitled', 1, 5, 0, 0, 0, 0, 0, 0, 2, NULL, NULL), \
    (6, 'bob', 'untitled', 1, 20, 0, 0, 7, 1, 0, 0, 2, NULL, 4), \
    (7, 'carol', 'untitled', 1, 20, 1, 1, 0, 0, 0, 0, 5, NULL, NULL);\
    INSERT INTO documents VALUES \
    (1, 1, 'application/octet-stream', 2), \
    (2, 1, 'application/octet-stream', 2), \
    (4, 1, 'application/octet-stream', 2), \
    (5, 1, 'application/pdf', 4), \
    (6, 1, 'application/octet-stream', 2);\
    INSERT INTO pieces VALUES \
    (1, 1, 0, x'6869'), \
    (2, 1, 0, x'6869'), \
    (4, 1, 0, x'6869'), \
    (5, 1, 0, x'25504446'), \
    (6, 1, 0, x'6869');\
    INSERT INTO accounts VALUES ('alice', 5, 0, 25), ('bob', 55, 41, 4);\
    INSERT INTO grants VALUES ('f24', 'alice', 30), ('f24', 'bob', 100);\
    INSERT INTO reports VALUES \
    (1, 1, 1, 0, 5, 0), \
    (1, 2, 4, 12, 5, 12), \
    (1, 3, 5, 25, 9, 25), \
    (4, 1, 1, 0, 5, 0), \
    (4, 2, 4, 4, 5, 4);";

/// The statements that make these tables those of the second schema. Jobs are kept for an hour.
pub(crate) const TO_SECOND: &str = "\
    CREATE TABLE policy (one INTEGER PRIMARY KEY, keep INTEGER NOT NULL) STRICT;\
    CREATE INDEX jobs_by_age ON jobs (phase, created);\
    INSERT INTO policy VALUES (1, 3600);\
    UPDATE meta SET schema = 2;";

/// Looks at the queue, and a line of the device and an account file that it has taken before.
pub(crate) static FIRST_QUEUE: &[Step<'static>] = &[
    Sheet("alice", (30, 5, 0, 25)),
    Sheet("bob", (100, 55, 41, 4)),
    NoSheet("carol"),
    Look("alice", 1, 9, &["job-completed-successfully"]),
    Look("alice", 2, 4, &["job-hold-until-specified"]),
    Look("bob", 3, 4, &["job-incoming"]),
    Look("bob", 4, 5, &["job-printing", "processing-to-stop-point"]),
    Look("bob", 5, 3, &["none"]),
    Look("bob", 6, 7, &["job-canceled-by-user"]),
    Look("carol", 7, 4, &["job-incoming", "job-hold-until-specified"]),
    Jobs("bob", Live, &[4, 5, 3]),
    Jobs("alice", Ended, &[1]),
    Queue("5 1 1 4\n"),
    Fetch(4, 1, b"hi"),
    Fetch(5, 1, b"%PDF"),
    Document(1, 1, None),
    Statement(
        "alice",
        "account alice\n\
        granted               30\n\
        free                   5\n\
        reserved               0\n\
        printed               25\n\
        \x20      job state  reserved   printed\n\
        \x20        1     9         0        25\n\
        \x20    total               0        25\n",
    ),
    Dev("1 2 count 12", "ok 1 5 12"),
    Dev("4 2 count 4", "ok 4 5 4"),
    Grant(b"f24,alice,30\nf24,bob,100\n", Ok((0, 2))),
];
