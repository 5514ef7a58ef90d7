//! Stores that are made, settings that aren't taken, and files that are no store.

use crate::desk::books::GRANT;
use crate::program::folder::Step::{
    Copies, HasByte, IsEmpty, IsPrivate, Keeps, Lacks, Links, Tells, Turns, Writes,
};
use crate::program::folder::{
    BAD_SETTING, DAMAGED, DISK, IMPORTED, INIT, MADE, NO_ACCOUNT, REPEATED, Row, STATEMENT, STORE,
    Step, take_rows,
};
use std::test::Fail;

/// The file of the store's log.
const LOG: &str = "@/store-wal";

/// The path of a front of a store.
const CUT: &str = "@/cut";

/// Bytes of other files than stores are left alone: no store is made over them.
const NO_INIT: Step = Keeps(STORE, INIT, DAMAGED);

/// They are no store, from which a statement could be printed.
const NO_STATEMENT: Step = Keeps(STORE, STATEMENT, DAMAGED);

/// Nor one that could take an account file.
const NO_IMPORT: Step = Keeps(STORE, "printd import --store @/store @/store", DAMAGED);

/// So it is with a front of a store.
const NO_STATEMENT_OF_CUT: Step = Keeps(CUT, "printd statement --store @/cut alice", DAMAGED);

const NO_IMPORT_INTO_CUT: Step = Keeps(CUT, "printd import --store @/cut @/cut", DAMAGED);

/// A database of 1,024 bytes that SQLite 3.40 made by `CREATE TABLE note (x)` in pages of 512.
const NOTES: &[(&[u8], usize)] = &[
    (
        b"SQLite format 3\0\x02\0\x01\x01\0@  \0\0\0\x01\0\0\0\x02\0\0\0\0\0\0\0\0\0\0\0\x01\0\0\0\x04\0\0\0\0\0\0\0\0\0\0\0\x01",
        1,
    ),
    (b"\0", 35),
    (b"\x01\0.c\x01\r\0\0\0\x01\x01\xd5\0\x01\xd5", 1),
    (b"\0", 359),
    (
        b")\x01\x06\x17\x15\x15\x017tablenotenote\x02CREATE TABLE note (x)\r\0\0\0\0\x02",
        1,
    ),
    (b"\0", 506),
];

/// The log that SQLite 3.40 made of that statement over an empty database: both pages are whole in it.
const LOG_OF_NOTES: &[(&[u8], usize)] = &[
    (
        b"7\x7f\x06\x82\0-\xe2\x18\0\0\x02\0\0\0\0\0\xa0B:Q\xdf\x80S\xc9&\x05E\xb3\xa72\x9e7\0\0\0\x01\0\0\0\0\xa0B:Q\xdf\x80S\xc93>\xe4Z\xb1f\xc6\xc9SQLite format 3\0\x02\0\x02\x02\0@  \0\0\0\x02\0\0\0\x02\0\0\0\0\0\0\0\0\0\0\0\x01\0\0\0\x04\0\0\0\0\0\0\0\0\0\0\0\x01",
        1,
    ),
    (b"\0", 35),
    (b"\x02\0.c\x01\r\0\0\0\x01\x01\xd5\0\x01\xd5", 1),
    (b"\0", 359),
    (
        b")\x01\x06\x17\x15\x15\x017tablenotenote\x02CREATE TABLE note (x)\0\0\0\x02\0\0\0\x02\xa0B:Q\xdf\x80S\xc9\x85\xf0\x17\x0c%'\xa0H\r\0\0\0\0\x02",
        1,
    ),
    (b"\0", 506),
];

/// A database of 512 bytes without tables that SQLite 3.40 made by `CREATE TABLE note (x)`, `DROP TABLE note` and `VACUUM` in pages of 512.
const BLANK: &[(&[u8], usize)] = &[
    (
        b"SQLite format 3\0\x02\0\x01\x01\0@  \0\0\0\x03\0\0\0\x01\0\0\0\0\0\0\0\0\0\0\0\x03\0\0\0\0\0\0\0\0\0\0\0\0\0\0\0\x01",
        1,
    ),
    (b"\0", 35),
    (b"\x03\0.c\x01\r\0\0\0\0\x02", 1),
    (b"\0", 406),
];

static SETTINGS: [Row; 2] = [
    // URIs and names of a printer that aren't both taken: the settings come before the store, and make no file
    (
        "settings that are refused",
        &[
            Tells(
                "printd init --store @/store --uri ipp://h/x --name release",
                BAD_SETTING,
            ),
            Tells(
                "printd init --store @/store --uri ipp://h/ipp/print?a --name release",
                BAD_SETTING,
            ),
            Tells(
                "printd init --store @/store --uri ipp://h/ipp/print/ --name release",
                BAD_SETTING,
            ),
            Tells(
                "printd init --store @/store --uri /ipp/print --name release",
                BAD_SETTING,
            ),
            Tells(
                "printd init --store @/store --uri  --name release",
                BAD_SETTING,
            ),
            Tells(
                "printd init --store @/store --uri ipp://\u{e9}/ipp/print --name release",
                BAD_SETTING,
            ),
            Tells(
                "printd init --store @/store --uri ipp://localhost/ipp/print --name ",
                BAD_SETTING,
            ),
            // a name of 128 octets
            Tells(
                "printd init --store @/store --uri ipp://localhost/ipp/print --name nnnnnnnnnnnnnnnnnnnnnnnnnnnnnnnnnnnnnnnnnnnnnnnnnnnnnnnnnnnnnnnnnnnnnnnnnnnnnnnnnnnnnnnnnnnnnnnnnnnnnnnnnnnnnnnnnnnnnnnnnnnnnnnn",
                BAD_SETTING,
            ),
            Tells("printd init --store @ --uri  --name release", BAD_SETTING),
            Tells(
                "printd init --store @ --uri ipp://localhost/ipp/print --name nnnnnnnnnnnnnnnnnnnnnnnnnnnnnnnnnnnnnnnnnnnnnnnnnnnnnnnnnnnnnnnnnnnnnnnnnnnnnnnnnnnnnnnnnnnnnnnnnnnnnnnnnnnnnnnnnnnnnnnnnnnnnnnn",
                BAD_SETTING,
            ),
            IsEmpty,
        ],
    ),
    // what SQLite takes for no file's name makes no file
    (
        "paths that name no file",
        &[
            Tells(
                "printd init --store :memory: --uri ipp://localhost/ipp/print --name release",
                DISK,
            ),
            Lacks(":memory:"),
            Tells(
                "printd init --store file:queue.db --uri ipp://localhost/ipp/print --name release",
                DISK,
            ),
            Lacks("file:queue.db"),
            IsEmpty,
        ],
    ),
];

static NEW: [Row; 7] = [
    (
        "a store over a store",
        &[
            MADE,
            IMPORTED,
            Keeps(
                STORE,
                "printd init --store @/store --uri ipp://localhost/ipp/print --name other",
                DAMAGED,
            ),
            REPEATED,
        ],
    ),
    (
        "a store is its user's alone",
        &[MADE, IsPrivate(STORE), IsPrivate(LOG)],
    ),
    // the byte that tells how much of each page is reserved, for a sum of it or for anything else
    ("pages without sums", &[MADE, HasByte(STORE, 20, 0)]),
    (
        "a store over an empty file",
        &[Writes(STORE, &[]), MADE, Tells(STATEMENT, NO_ACCOUNT)],
    ),
    // what is there of a store whose making was cut short
    (
        "a store over a zero byte",
        &[
            Writes(STORE, &[(b"\0", 1)]),
            MADE,
            Tells(STATEMENT, NO_ACCOUNT),
        ],
    ),
    (
        "a store in a database without tables",
        &[Writes(STORE, BLANK), MADE, Tells(STATEMENT, NO_ACCOUNT)],
    ),
    (
        "paths where no store can be made",
        &[
            Tells(
                "printd init --store @/missing/store --uri ipp://localhost/ipp/print --name release",
                DISK,
            ),
            Tells(
                "printd init --store @ --uri ipp://localhost/ipp/print --name release",
                DISK,
            ),
            Tells(
                "printd init --store  --uri ipp://localhost/ipp/print --name release",
                DISK,
            ),
            Tells(
                "printd init --store /dev/null --uri ipp://localhost/ipp/print --name release",
                DISK,
            ),
            Tells("printd statement --store @/missing/store alice", DISK),
            Tells("printd statement --store /dev/null/x alice", DISK),
            IsEmpty,
        ],
    ),
];

static OTHER: [Row; 3] = [
    // no store is made over a file with other bytes, which stays as it was
    (
        "bytes of another file",
        &[
            Writes(STORE, &[(b"S", 1)]),
            NO_INIT,
            Writes(STORE, &[(b"SQLite format 3", 1)]),
            NO_INIT,
            Writes(STORE, &[(b"SQLite format 3\0", 1)]),
            NO_INIT,
            Writes(STORE, &[(b"\0 and something more", 1)]),
            NO_INIT,
            Writes(STORE, &[(b"\0", 4096)]),
            NO_INIT,
            Writes(STORE, &[(b"\xff", 100)]),
            NO_INIT,
        ],
    ),
    // nor are they a store
    (
        "bytes of no store",
        &[
            Writes(STORE, &[]),
            NO_STATEMENT,
            NO_IMPORT,
            Writes(STORE, &[(b"S", 1)]),
            NO_STATEMENT,
            NO_IMPORT,
            Writes(STORE, &[(GRANT, 1)]),
            NO_STATEMENT,
            NO_IMPORT,
            Writes(STORE, &[(b"SQLite format 3", 1)]),
            NO_STATEMENT,
            NO_IMPORT,
            Writes(STORE, &[(b"SQLite format 3\0", 1)]),
            NO_STATEMENT,
            NO_IMPORT,
            Writes(
                STORE,
                &[(
                    b"SQLite format 4\0 and something more than sixteen bytes",
                    1,
                )],
            ),
            NO_STATEMENT,
            NO_IMPORT,
            Writes(STORE, &[(b"\0", 4096)]),
            NO_STATEMENT,
            NO_IMPORT,
            Writes(STORE, &[(b"\xff", 100)]),
            NO_STATEMENT,
            NO_IMPORT,
        ],
    ),
    // what lies beside such a file in place of its log stays as it was too
    (
        "a log beside no store",
        &[
            Writes(STORE, &[(b"S", 1)]),
            Writes(LOG, &[(b"log", 1)]),
            Keeps(LOG, STATEMENT, DAMAGED),
            Keeps(LOG, "printd import --store @/store @/store", DAMAGED),
            Keeps(LOG, INIT, DAMAGED),
        ],
    ),
];

static DATABASES: [Row; 6] = [
    // another program's database is no store, and none is made in it: it stays as it was
    (
        "a database of another program",
        &[Writes(STORE, NOTES), Keeps(STORE, INIT, DISK), NO_STATEMENT],
    ),
    // what a crash cut short as the log was copied into the first page is read from the log: it is that database
    (
        "a database that is whole in its log alone",
        &[
            Writes(STORE, &[(b"\xa5", 512)]),
            NO_INIT,
            Writes(LOG, LOG_OF_NOTES),
            Tells(INIT, DISK),
            Writes(STORE, &[(b"\0\xa5", 256)]),
            Writes(LOG, LOG_OF_NOTES),
            Tells(INIT, DISK),
        ],
    ),
    // the log lies beside the file that a link leads to
    (
        "a link to a database that is whole in its log alone",
        &[
            Links("@/link", STORE),
            Writes(STORE, &[(b"\xa5", 512)]),
            Writes(LOG, LOG_OF_NOTES),
            Tells(
                "printd init --store @/link --uri ipp://localhost/ipp/print --name release",
                DISK,
            ),
        ],
    ),
    // a log that may have pages, beside no file or an empty one, is what is left of a database: no store is made over it
    (
        "a log beside no file",
        &[
            Writes(LOG, LOG_OF_NOTES),
            Keeps(LOG, INIT, DAMAGED),
            Keeps(LOG, STATEMENT, DAMAGED),
            Lacks(STORE),
            Writes(STORE, &[]),
            Keeps(LOG, INIT, DAMAGED),
            Keeps(LOG, STATEMENT, DAMAGED),
            Writes(LOG, &[(b"\0", 57)]),
            Keeps(LOG, INIT, DAMAGED),
        ],
    ),
    // one that has no page is written over
    (
        "the headers of a log beside no file",
        &[
            Writes(LOG, &[(b"\0", 56)]),
            Tells(STATEMENT, DISK),
            MADE,
            Tells(STATEMENT, NO_ACCOUNT),
        ],
    ),
    // what is left of a log beside other bytes makes no database of them
    (
        "bytes of another file beside what is left of a log",
        &[
            MADE,
            Writes(STORE, &[(b"Sq", 1)]),
            NO_STATEMENT,
            NO_IMPORT,
            NO_INIT,
            Writes(STORE, &[(b"\xa5", 4096)]),
            NO_STATEMENT,
            NO_IMPORT,
            NO_INIT,
        ],
    ),
];

static DAMAGES: [Row; 3] = [
    // a store is whole in its one file once its command has ended, `init` and `import`: all of its bytes are a store, and no front of them is
    (
        "stores that are cut",
        &[
            MADE,
            Copies(STORE, CUT, 8),
            Tells("printd statement --store @/cut alice", NO_ACCOUNT),
            IMPORTED,
            Copies(STORE, CUT, 0),
            NO_STATEMENT_OF_CUT,
            NO_IMPORT_INTO_CUT,
            Copies(STORE, CUT, 1),
            NO_STATEMENT_OF_CUT,
            NO_IMPORT_INTO_CUT,
            Copies(STORE, CUT, 2),
            NO_STATEMENT_OF_CUT,
            NO_IMPORT_INTO_CUT,
            Copies(STORE, CUT, 3),
            NO_STATEMENT_OF_CUT,
            NO_IMPORT_INTO_CUT,
            Copies(STORE, CUT, 4),
            NO_STATEMENT_OF_CUT,
            NO_IMPORT_INTO_CUT,
            Copies(STORE, CUT, 5),
            NO_STATEMENT_OF_CUT,
            NO_IMPORT_INTO_CUT,
            Copies(STORE, CUT, 6),
            NO_STATEMENT_OF_CUT,
            NO_IMPORT_INTO_CUT,
            Copies(STORE, CUT, 7),
            NO_STATEMENT_OF_CUT,
            NO_IMPORT_INTO_CUT,
            Copies(STORE, CUT, 8),
            Tells(
                "printd import --store @/cut @/file",
                (0, "new 0 repeats 1\n", ""),
            ),
        ],
    ),
    // of the 30 pages that a row grants alice, and that her account has, one of the two is 31: the store stays as it was
    (
        "a store that is damaged",
        &[
            MADE,
            IMPORTED,
            Turns(STORE, CUT, b"f24alice\x1e", b"f24alice\x1f"),
            NO_STATEMENT_OF_CUT,
            NO_IMPORT_INTO_CUT,
        ],
    ),
    (
        "paths of no file",
        &[
            Tells("printd statement --store @/missing alice", DISK),
            Tells("printd statement --store @ alice", DISK),
            Tells("printd statement --store  alice", DISK),
            Tells("printd statement --store /dev/null alice", DISK),
            Tells("printd import --store @/missing /dev/null", DISK),
            Tells("printd import --store @ /dev/null", DISK),
            Tells("printd import --store  /dev/null", DISK),
            IsEmpty,
        ],
    ),
];

#[test]
fn settings_and_paths(rt: HostRuntime) -> Result<(), Fail> {
    take_rows(&rt, "settings", &SETTINGS)
}

#[test]
fn stores_that_are_made(rt: HostRuntime) -> Result<(), Fail> {
    take_rows(&rt, "made", &NEW)
}

#[test]
fn files_that_are_no_store(rt: HostRuntime) -> Result<(), Fail> {
    take_rows(&rt, "other", &OTHER)
}

#[test]
fn databases_that_are_no_store(rt: HostRuntime) -> Result<(), Fail> {
    take_rows(&rt, "databases", &DATABASES)
}

#[test]
fn stores_that_are_cut_or_damaged(rt: HostRuntime) -> Result<(), Fail> {
    take_rows(&rt, "cut", &DAMAGES)
}
