//! Tables of earlier schemas, which a book takes to the newest schema.

use crate::desk::request::JobsWanted::Live;
use crate::desk::request::Request::{Cancel, Print};
use crate::desk::step::Step;
use crate::desk::step::Step::{Ask, Dev, Expire, Jobs, Look, Now, Operators, Sheet};
use crate::shelves::older::{FIRST_QUEUE, FIRST_ROWS, FIRST_TABLES, TO_SECOND};
use crate::stores::adopted::damage_each;
use crate::stores::queue::take_steps;
use crate::stores::tables::Tables;
use std::alloc::Global;
use std::test::Fail;

/// The tables of the first schema.
fn first_tables(alloc: Global) -> Result<Tables, Fail> {
    let mut tables = Tables::none(alloc)?;
    tables.run(FIRST_TABLES)?;
    tables.run(FIRST_ROWS)?;
    Ok(tables)
}

/// The tables of the second schema.
fn second_tables(alloc: Global) -> Result<Tables, Fail> {
    let mut tables = first_tables(alloc)?;
    tables.run(TO_SECOND)?;
    Ok(tables)
}

/// No job expires, and the queue goes on: its owner canceled the job that is to stop.
const GOES_ON: &[Step<'static>] = &[
    Now(2_147_483_647),
    Expire(0),
    Look("bob", 3, 4, &["job-incoming"]),
    Sheet("bob", (100, 55, 41, 4)),
    Ask("alice", Print, 0x0000),
    Look("alice", 8, 4, &["job-hold-until-specified"]),
    Dev("4 3 halt 4", "ok 4 7 4"),
    Look("bob", 4, 7, &["job-canceled-by-user"]),
    Sheet("bob", (100, 71, 25, 4)),
];

/// Three jobs expire, and the queue goes on, with an operator.
const GOES_ON_FROM_SECOND: &[Step<'static>] = &[
    Now(3600),
    Expire(0),
    Now(3605),
    Expire(3),
    Look("bob", 3, 8, &["aborted-by-system"]),
    Sheet("bob", (100, 75, 21, 4)),
    Jobs("opal", Live, &[]),
    Ask("opal", Cancel(5), 0x0406),
    Operators(&["opal"]),
    Jobs("opal", Live, &[4, 5]),
    Ask("opal", Cancel(4), 0x0404),
    Ask("opal", Cancel(5), 0x0000),
    Look("bob", 5, 7, &["job-canceled-by-operator"]),
    Dev("4 3 halt 4", "ok 4 7 4"),
    Look("bob", 4, 7, &["job-canceled-by-user"]),
    Sheet("bob", (100, 96, 0, 4)),
];

/// What the tables and indexes of the newest schema have that older ones had not: no operators, and a cause of the job that is to stop.
const NEWEST: &[(&str, &str)] = &[
    (
        "SELECT * FROM meta",
        "1|3|ipp://localhost/ipp/print|release|20|0|8|\n",
    ),
    ("SELECT * FROM operators", ""),
    (
        "SELECT number, why, stopping FROM jobs WHERE why > 0 ORDER BY 1",
        "4|1|1|\n6|1|0|\n",
    ),
    (
        "SELECT name FROM sqlite_schema WHERE name = 'policy' OR name = 'jobs_by_age' OR name = 'operators' OR name = 'jobs_by_ended' ORDER BY 1",
        "jobs_by_age|\njobs_by_ended|\noperators|\npolicy|\n",
    ),
];

/// Takes steps over the book that the tables hold, and closes it again.
fn take(tables: Tables, steps: &[Step<'_>]) -> Result<Tables, Fail> {
    let alloc = tables.alloc;
    let mut book = tables.book()?;
    take_steps(alloc, &mut book, steps)?;
    Ok(Tables::of(alloc, book))
}

/// The tables hold the same queue in the newest schema, with jobs that are kept for this time, and go on.
fn take_to_newest(tables: Tables, keep: &str, steps: &[Step<'_>]) -> Result<(), Fail> {
    let mut tables = take(tables, FIRST_QUEUE)?;
    tables.show_each(NEWEST)?;
    tables.show("SELECT * FROM policy", keep)?;
    let tables = take(tables, FIRST_QUEUE)?;
    let _tables = take(tables, steps)?;
    Ok(())
}

#[test]
fn tables_of_the_first_schema(rt: HostRuntime) -> Result<(), Fail> {
    take_to_newest(first_tables(rt.alloc())?, "1|0|\n", GOES_ON)
}

#[test]
fn tables_of_the_second_schema(rt: HostRuntime) -> Result<(), Fail> {
    take_to_newest(second_tables(rt.alloc())?, "1|3600|\n", GOES_ON_FROM_SECOND)
}

/// Other numbers of the schema, the tables that it doesn't have, and rows of no sound queue.
const UNSOUND: &str = "\
    UPDATE meta SET schema = 0 => UPDATE meta SET schema = 1\n\
    UPDATE meta SET schema = 2 => UPDATE meta SET schema = 1\n\
    UPDATE meta SET schema = 3 => UPDATE meta SET schema = 1\n\
    UPDATE meta SET schema = 99 => UPDATE meta SET schema = 1\n\
    CREATE TABLE policy (one INTEGER PRIMARY KEY, keep INTEGER NOT NULL) STRICT => DROP TABLE policy\n\
    CREATE TABLE policy (one INTEGER PRIMARY KEY, keep INTEGER NOT NULL) STRICT; INSERT INTO policy VALUES (1, 0) => DROP TABLE policy\n\
    CREATE TABLE operators (name TEXT NOT NULL PRIMARY KEY) STRICT => DROP TABLE operators\n\
    UPDATE accounts SET free = 6 WHERE name = 'alice' => UPDATE accounts SET free = 5 WHERE name = 'alice'\n\
    UPDATE jobs SET phase = 3 WHERE number = 5 => UPDATE jobs SET phase = 0 WHERE number = 5";

/// The same of the second schema.
const UNSOUND_SECOND: &str = "\
    UPDATE meta SET schema = 0 => UPDATE meta SET schema = 2\n\
    UPDATE meta SET schema = 1 => UPDATE meta SET schema = 2\n\
    UPDATE meta SET schema = 3 => UPDATE meta SET schema = 2\n\
    UPDATE meta SET schema = 99 => UPDATE meta SET schema = 2\n\
    DELETE FROM policy => INSERT INTO policy VALUES (1, 3600)\n\
    UPDATE policy SET keep = -1 => UPDATE policy SET keep = 3600\n\
    DROP INDEX jobs_by_age; DROP TABLE policy => CREATE TABLE policy (one INTEGER PRIMARY KEY, keep INTEGER NOT NULL) STRICT; INSERT INTO policy VALUES (1, 3600); CREATE INDEX jobs_by_age ON jobs (phase, created)\n\
    CREATE TABLE operators (name TEXT NOT NULL PRIMARY KEY) STRICT => DROP TABLE operators\n\
    CREATE TABLE operators (name TEXT NOT NULL PRIMARY KEY) STRICT; INSERT INTO operators VALUES ('opal') => DROP TABLE operators\n\
    UPDATE accounts SET free = 6 WHERE name = 'alice' => UPDATE accounts SET free = 5 WHERE name = 'alice'\n\
    UPDATE jobs SET stopping = 1 WHERE number = 5 => UPDATE jobs SET stopping = 0 WHERE number = 5";

#[test]
fn tables_of_earlier_schemas_that_are_damaged(rt: HostRuntime) -> Result<(), Fail> {
    damage_each(&mut first_tables(rt.alloc())?, UNSOUND)?;
    damage_each(&mut second_tables(rt.alloc())?, UNSOUND_SECOND)
}
