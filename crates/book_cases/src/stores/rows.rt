//! Tables with a row too many or too few, and rows that tables don't take.

use crate::stores::judge::judge_changes;
use crate::stores::queue::{empty_book, full_tables};
use crate::stores::tables::{DAMAGED, Judgement, Tables};
use sqlite::Constraint;
use std::alloc::Global;
use std::test::Fail;

/// Rows that come or go.
const ROWS: &str = "\
    DELETE FROM meta => INSERT INTO meta VALUES (1, 3, 'ipp://localhost/ipp/print', 'release', 20, 0, 11)\n\
    INSERT INTO meta VALUES (2, 3, 'ipp://localhost/ipp/print', 'release', 20, 0, 11) => DELETE FROM meta WHERE one = 2\n\
    DELETE FROM jobs WHERE number = 9 => INSERT INTO jobs VALUES (9, 'alice', 'untitled', 1, 20, 0, 1, 0, 0, 0, 0, 10, NULL, NULL)\n\
    INSERT INTO jobs VALUES (11, 'alice', 'untitled', 1, 20, 1, 0, 0, 0, 0, 0, 10, NULL, NULL) => DELETE FROM jobs WHERE number = 11\n\
    INSERT INTO documents VALUES (1, 3, 'text/plain', 2); INSERT INTO pieces VALUES (1, 3, 0, x'6869') => DELETE FROM pieces WHERE job = 1 AND doc = 3; DELETE FROM documents WHERE job = 1 AND doc = 3\n\
    INSERT INTO documents VALUES (9, 2, 'text/plain', 2); INSERT INTO pieces VALUES (9, 2, 0, x'6869') => DELETE FROM pieces WHERE job = 9; DELETE FROM documents WHERE job = 9\n\
    INSERT INTO documents VALUES (9, 0, 'text/plain', 2); INSERT INTO pieces VALUES (9, 0, 0, x'6869') => DELETE FROM pieces WHERE job = 9; DELETE FROM documents WHERE job = 9\n\
    DELETE FROM pieces WHERE job = 1 => INSERT INTO pieces VALUES (1, 1, 0, x'6f6e65')\n\
    INSERT INTO documents VALUES (9, 1, 'text/plain', 0) => DELETE FROM documents WHERE job = 9\n\
    DELETE FROM pieces WHERE job = 7 AND doc = 2 AND piece = 0 => INSERT INTO pieces SELECT job, doc, 0, bytes FROM pieces WHERE job = 7 AND doc = 2 AND piece = 1\n\
    DELETE FROM pieces WHERE job = 7 AND doc = 2 AND piece = 1 => INSERT INTO pieces SELECT job, doc, 1, bytes FROM pieces WHERE job = 7 AND doc = 2 AND piece = 0\n\
    DELETE FROM pieces WHERE job = 7 AND piece = 2 => INSERT INTO pieces VALUES (7, 2, 2, x'00')\n\
    INSERT INTO pieces VALUES (1, 1, 1, x'00') => DELETE FROM pieces WHERE job = 1 AND piece = 1\n\
    UPDATE pieces SET bytes = x'6f' WHERE job = 1; INSERT INTO pieces VALUES (1, 1, 1, x'6e65') => DELETE FROM pieces WHERE job = 1 AND piece = 1; UPDATE pieces SET bytes = x'6f6e65' WHERE job = 1\n\
    INSERT INTO accounts VALUES ('dave', 0, 0, 0) => DELETE FROM accounts WHERE name = 'dave'\n\
    DELETE FROM grants WHERE account = 'bob' => INSERT INTO grants VALUES ('f24', 'bob', 50)\n\
    INSERT INTO grants VALUES ('f25', 'alice', 300) => DELETE FROM grants WHERE batch = 'f25'\n\
    DELETE FROM policy => INSERT INTO policy VALUES (1, 3600)\n\
    INSERT INTO policy VALUES (2, 3600) => DELETE FROM policy WHERE one = 2\n\
    INSERT INTO operators VALUES ('anonymous') => DELETE FROM operators WHERE name = 'anonymous'\n\
    INSERT INTO operators VALUES ('') => DELETE FROM operators WHERE name = ''\n\
    INSERT INTO operators VALUES ('a'), ('b'), ('c'), ('d'), ('e'), ('f'), ('g'), ('h'), ('i'), ('j'), ('k'), ('l'), ('m'), ('n'), ('o'), ('p') => DELETE FROM operators WHERE name <> 'opal'\n\
    DELETE FROM reports WHERE job = 1 AND seq = 3 => INSERT INTO reports VALUES (1, 3, 5, 25, 9, 25)\n\
    INSERT INTO reports VALUES (2, 1, 4, 7, 7, 7) => DELETE FROM reports WHERE job = 2\n\
    UPDATE jobs SET hold = 0, impressions = 0 WHERE number = 10 => UPDATE jobs SET hold = 1, impressions = 20 WHERE number = 10\n\
    UPDATE jobs SET hold = 0, impressions = 0, phase = 1, begun = 40 WHERE number = 10 => UPDATE jobs SET hold = 1, impressions = 20, phase = 0, begun = NULL WHERE number = 10\n\
    UPDATE jobs SET hold = 0, phase = 9, begun = 40, ended = 41 WHERE number = 10 => UPDATE jobs SET hold = 1, phase = 0, begun = NULL, ended = NULL WHERE number = 10\n\
    INSERT INTO documents VALUES (9, 1, 'text/plain', 1), (9, 2, 'text/plain', 1), (9, 3, 'text/plain', 1), (9, 4, 'text/plain', 1), (9, 5, 'text/plain', 1), (9, 6, 'text/plain', 1), (9, 7, 'text/plain', 1), (9, 8, 'text/plain', 1), (9, 9, 'text/plain', 1), (9, 10, 'text/plain', 1), (9, 11, 'text/plain', 1), (9, 12, 'text/plain', 1), (9, 13, 'text/plain', 1), (9, 14, 'text/plain', 1), (9, 15, 'text/plain', 1), (9, 16, 'text/plain', 1), (9, 17, 'text/plain', 1); INSERT INTO pieces SELECT job, doc, 0, x'61' FROM documents WHERE job = 9 => DELETE FROM pieces WHERE job = 9; DELETE FROM documents WHERE job = 9";

#[test]
fn rows_of_no_queue(rt: HostRuntime) -> Result<(), Fail> {
    judge_changes(rt.alloc(), DAMAGED, "", ROWS)
}

/// The queue's tables with so many rows more are taken as they are to be.
fn judge_many(
    alloc: Global,
    insert: &str,
    last: i64,
    after: &str,
    wanted: Judgement,
) -> Result<(), Fail> {
    let mut tables = full_tables(alloc)?;
    tables.run_to(insert, last)?;
    tables.run(after)?;
    tables.judge(wanted, insert)
}

#[test]
fn more_pages_than_an_account_may_have(rt: HostRuntime) -> Result<(), Fail> {
    let insert = "INSERT INTO grants VALUES ('b' || ?1, 'bob', 1000000)";
    let most = "UPDATE accounts SET free = 999000050 WHERE name = 'bob'";
    judge_many(rt.alloc(), insert, 999, most, Ok(()))?;
    let more = "UPDATE accounts SET free = 1000000050 WHERE name = 'bob'";
    judge_many(rt.alloc(), insert, 1000, more, DAMAGED)
}

#[test]
fn more_jobs_than_an_owner_may_have(rt: HostRuntime) -> Result<(), Fail> {
    let insert =
        "INSERT INTO jobs VALUES (10 + ?1, 'bob', 'untitled', 1, 20, 1, 0, 0, 0, 0, 0, 10, NULL, NULL)";
    let next = "UPDATE meta SET next_number = 200";
    judge_many(rt.alloc(), insert, 99, next, Ok(()))?;
    judge_many(rt.alloc(), insert, 100, next, DAMAGED)
}

/// Each of these tables is needed.
const NEEDED: &str = "\
    DROP TABLE meta; DROP TABLE jobs; DROP TABLE documents; DROP TABLE pieces; \
    DROP TABLE accounts; DROP TABLE grants; DROP TABLE reports; DROP TABLE policy; \
    DROP TABLE operators";

/// The tables of a book without jobs are damaged by a statement.
fn damage(alloc: Global, statement: &str) -> Result<(), Fail> {
    let mut tables = Tables::of(alloc, empty_book(alloc)?);
    tables.run(statement)?;
    tables.judge(DAMAGED, statement)
}

#[test]
fn tables_that_are_missing(rt: HostRuntime) -> Result<(), Fail> {
    for statement in NEEDED.split("; ") {
        damage(rt.alloc(), statement)?;
    }
    Tables::none(rt.alloc())?.judge(DAMAGED, "no tables")
}

/// No column is without a value but for the moments at which a job began and ended.
const NULLS: &str = "\
    UPDATE meta SET schema = NULL; UPDATE meta SET uri = NULL; UPDATE meta SET name = NULL; \
    UPDATE meta SET estimate = NULL; UPDATE meta SET epoch = NULL; \
    UPDATE meta SET next_number = NULL; \
    UPDATE jobs SET owner = NULL; UPDATE jobs SET name = NULL; UPDATE jobs SET copies = NULL; \
    UPDATE jobs SET impressions = NULL; UPDATE jobs SET hold = NULL; \
    UPDATE jobs SET incoming = NULL; UPDATE jobs SET phase = NULL; UPDATE jobs SET why = NULL; \
    UPDATE jobs SET stopping = NULL; UPDATE jobs SET count = NULL; \
    UPDATE jobs SET created = NULL; \
    UPDATE documents SET job = NULL; UPDATE documents SET doc = NULL; \
    UPDATE documents SET format = NULL; UPDATE documents SET octets = NULL; \
    UPDATE pieces SET job = NULL; UPDATE pieces SET doc = NULL; UPDATE pieces SET piece = NULL; \
    UPDATE pieces SET bytes = NULL; \
    UPDATE accounts SET name = NULL; UPDATE accounts SET free = NULL; \
    UPDATE accounts SET reserved = NULL; UPDATE accounts SET printed = NULL; \
    UPDATE grants SET batch = NULL; UPDATE grants SET account = NULL; \
    UPDATE grants SET pages = NULL; \
    UPDATE reports SET job = NULL; UPDATE reports SET seq = NULL; \
    UPDATE reports SET kind = NULL; UPDATE reports SET count = NULL; \
    UPDATE reports SET state = NULL; UPDATE reports SET total = NULL; \
    UPDATE policy SET keep = NULL; \
    UPDATE operators SET name = NULL";

/// Values of another type than their columns.
const OTHER_TYPES: &str = "\
    UPDATE jobs SET created = 'soon'; \
    UPDATE jobs SET begun = 'soon'; \
    UPDATE policy SET keep = 'long'; \
    UPDATE pieces SET bytes = 'one' WHERE job = 1";

/// Rows whose number is taken.
const NUMBERS_TAKEN: &str = "\
    INSERT INTO meta VALUES (1, 3, 'ipp://localhost/ipp/print', 'release', 20, 0, 11); \
    INSERT INTO policy VALUES (1, 0); \
    INSERT INTO jobs VALUES (9, 'alice', 'untitled', 1, 20, 1, 0, 0, 0, 0, 0, 10, NULL, NULL)";

/// Rows whose key, of another kind or of several columns, is taken.
const KEYS_TAKEN: &str = "\
    INSERT INTO documents VALUES (1, 1, 'text/plain', 3); \
    INSERT INTO pieces VALUES (1, 1, 0, x'6f6e65'); \
    INSERT INTO accounts VALUES ('alice', 0, 0, 0); \
    INSERT INTO grants VALUES ('f24', 'alice', 300); \
    INSERT INTO reports VALUES (1, 1, 1, 0, 5, 0); \
    INSERT INTO operators VALUES ('opal')";

/// Rows of a job, a document or an account that isn't there, or that go while others need them.
const ROWS_APART: &str = "\
    INSERT INTO documents VALUES (11, 1, 'text/plain', 3); \
    INSERT INTO pieces VALUES (1, 2, 0, x'6f6e65'); \
    INSERT INTO grants VALUES ('f24', 'dave', 1); \
    INSERT INTO reports VALUES (11, 1, 1, 0, 5, 0); \
    DELETE FROM jobs WHERE number = 1; \
    DELETE FROM documents WHERE job = 1; \
    DELETE FROM accounts WHERE name = 'alice'";

fn refuse_in_turn(
    tables: &mut Tables,
    whole: &[u8],
    statements: &str,
    broken: Constraint,
) -> Result<(), Fail> {
    for statement in statements.split("; ") {
        tables.refuse(whole, statement, broken)?;
    }
    Ok(())
}

/// Each statement by itself is refused by the queue's tables, since it breaks a constraint of this kind, and they stay as they were.
fn refuse_each(alloc: Global, statements: &str, broken: Constraint) -> Result<(), Fail> {
    let mut tables = full_tables(alloc)?;
    let whole = tables.content()?;
    refuse_in_turn(&mut tables, whole.as_slice(), statements, broken)
}

#[test]
fn rows_that_tables_refuse(rt: HostRuntime) -> Result<(), Fail> {
    refuse_each(rt.alloc(), OTHER_TYPES, Constraint::Datatype)?;
    refuse_each(rt.alloc(), NUMBERS_TAKEN, Constraint::PrimaryKey)?;
    refuse_each(rt.alloc(), KEYS_TAKEN, Constraint::Unique)?;
    refuse_each(rt.alloc(), ROWS_APART, Constraint::ForeignKey)
}

#[test]
fn columns_without_a_value(rt: HostRuntime) -> Result<(), Fail> {
    refuse_each(rt.alloc(), NULLS, Constraint::NotNull)
}
