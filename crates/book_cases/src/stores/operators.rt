//! Operators in the tables of a store, and the jobs that they cancel.

use crate::desk::operators::are_named;
use crate::desk::request::JobsWanted::Live;
use crate::desk::request::Request::{Cancel, Print, Release};
use crate::desk::step::Step;
use crate::desk::step::Step::{Ask, Dev, Grant, Jobs, Look, Operators};
use crate::stores::adopted::damage_each;
use crate::stores::compare::same;
use crate::stores::queue::{empty_book, take_steps};
use crate::stores::tables::Tables;
use queue_store::TableBook;
use sqlite::MemStore;
use std::alloc::Global;
use std::test::Fail;

/// Job 1 is canceled by an operator while it waits, and 2 while it prints; an operator has asked to stop 3, and its owner 4.
static CANCELED: &[Step<'static>] = &[
    Grant(b"f24,alice,80\n", Ok((1, 0))),
    Ask("alice", Print, 0x0000),
    Ask("alice", Print, 0x0000),
    Ask("alice", Print, 0x0000),
    Ask("alice", Print, 0x0000),
    Ask("alice", Release(2), 0x0000),
    Ask("alice", Release(3), 0x0000),
    Ask("alice", Release(4), 0x0000),
    Dev("2 1 start 0", "ok 2 5 0"),
    Dev("3 1 start 0", "ok 3 5 0"),
    Dev("4 1 start 0", "ok 4 5 0"),
    Dev("4 2 stop 0", "ok 4 6 0"),
    Ask("opal", Cancel(1), 0x0000),
    Ask("opal", Cancel(2), 0x0000),
    Ask("opal", Cancel(3), 0x0000),
    Ask("alice", Cancel(4), 0x0000),
    Dev("2 2 halt 5", "ok 2 7 5"),
];

/// How the device ends the jobs that are to stop.
static HALTED: &[Step<'static>] = &[
    Dev("3 2 halt 0", "ok 3 7 0"),
    Dev("4 3 halt 0", "ok 4 7 0"),
    Look("alice", 1, 7, &["job-canceled-by-operator"]),
    Look("alice", 2, 7, &["job-canceled-by-operator"]),
    Look("alice", 3, 7, &["job-canceled-by-operator"]),
    Look("alice", 4, 7, &["job-canceled-by-user"]),
];

/// The same, where the store doesn't tell who asked: their owner.
static HALTED_BY_OWNER: &[Step<'static>] = &[
    Dev("3 2 halt 0", "ok 3 7 0"),
    Dev("4 3 halt 0", "ok 4 7 0"),
    Look("alice", 2, 7, &["job-canceled-by-operator"]),
    Look("alice", 3, 7, &["job-canceled-by-user"]),
    Look("alice", 4, 7, &["job-canceled-by-user"]),
];

/// Who canceled the jobs, or asked to.
const CAUSES: &str = "SELECT number, phase, why, stopping FROM jobs ORDER BY 1";

/// The tables of a queue with these jobs.
fn canceled_tables(alloc: Global) -> Result<Tables, Fail> {
    let mut book = empty_book(alloc)?;
    take_steps(alloc, &mut book, CANCELED)?;
    let mut tables = Tables::of(alloc, book);
    tables.show(CAUSES, "1|7|3|0|\n2|7|3|0|\n3|1|3|1|\n4|2|1|1|\n")?;
    Ok(tables)
}

#[test]
fn jobs_that_an_operator_cancels(rt: HostRuntime) -> Result<(), Fail> {
    let mut book = canceled_tables(rt.alloc())?.book()?;
    take_steps(rt.alloc(), &mut book, HALTED)?;
    let mut tables = Tables::of(rt.alloc(), book);
    tables.show(CAUSES, "1|7|3|0|\n2|7|3|0|\n3|7|3|0|\n4|7|1|0|\n")
}

/// A store that doesn't tell who asked to stop a job is taken, and tells it then.
#[test]
fn jobs_that_are_to_stop_for_nobody(rt: HostRuntime) -> Result<(), Fail> {
    let mut tables = canceled_tables(rt.alloc())?;
    tables.run("UPDATE jobs SET why = 0 WHERE stopping = 1")?;
    let mut tables = Tables::of(rt.alloc(), tables.book()?);
    tables.show(CAUSES, "1|7|3|0|\n2|7|3|0|\n3|1|1|1|\n4|2|1|1|\n")?;
    let mut book = tables.book()?;
    take_steps(rt.alloc(), &mut book, HALTED_BY_OWNER)?;
    Ok(())
}

/// Causes that no job has.
const UNSOUND: &str = "\
    UPDATE jobs SET why = 0 WHERE number = 1 => UPDATE jobs SET why = 3 WHERE number = 1\n\
    UPDATE jobs SET why = 4 WHERE number = 2 => UPDATE jobs SET why = 3 WHERE number = 2\n\
    UPDATE jobs SET stopping = 1 WHERE number = 1 => UPDATE jobs SET stopping = 0 WHERE number = 1\n\
    UPDATE jobs SET stopping = 3 WHERE number = 1 => UPDATE jobs SET stopping = 0 WHERE number = 1\n\
    UPDATE jobs SET stopping = 0 WHERE number = 3 => UPDATE jobs SET stopping = 1 WHERE number = 3\n\
    UPDATE jobs SET why = 2 WHERE number = 3 => UPDATE jobs SET why = 3 WHERE number = 3\n\
    UPDATE jobs SET why = 4 WHERE number = 3 => UPDATE jobs SET why = 3 WHERE number = 3\n\
    UPDATE jobs SET why = -1 WHERE number = 3 => UPDATE jobs SET why = 3 WHERE number = 3\n\
    UPDATE jobs SET why = 2 WHERE number = 4 => UPDATE jobs SET why = 1 WHERE number = 4\n\
    UPDATE jobs SET stopping = 0 WHERE number = 4 => UPDATE jobs SET stopping = 1 WHERE number = 4\n\
    UPDATE jobs SET phase = 8 WHERE number = 2 => UPDATE jobs SET phase = 7 WHERE number = 2\n\
    UPDATE jobs SET phase = 9 WHERE number = 2 => UPDATE jobs SET phase = 7 WHERE number = 2";

#[test]
fn causes_of_no_queue(rt: HostRuntime) -> Result<(), Fail> {
    damage_each(&mut canceled_tables(rt.alloc())?, UNSOUND)
}

/// Only pearl sees the job of alice.
static PEARL: &[Step<'static>] = &[
    Jobs("opal", Live, &[]),
    Jobs("pearl", Live, &[1]),
    Ask("opal", Cancel(1), 0x0406),
];

/// The settings of a book name these operators.
fn same_operators(book: &TableBook<MemStore>, wanted: &[&str]) -> Result<(), Fail> {
    let settings = book.settings()?;
    same(&are_named(settings.operators(), wanted), &true, "operators")
}

/// The operators of a book without jobs become pearl alone.
fn set_pearl(alloc: Global) -> Result<Tables, Fail> {
    let mut book = empty_book(alloc)?;
    let set = [Operators(&["pearl"]), Ask("alice", Print, 0x0000)];
    take_steps(alloc, &mut book, &set)?;
    same_operators(&book, &["pearl"])?;
    take_steps(alloc, &mut book, PEARL)?;
    Ok(Tables::of(alloc, book))
}

#[test]
fn operators_come_back(rt: HostRuntime) -> Result<(), Fail> {
    let mut tables = set_pearl(rt.alloc())?;
    tables.show("SELECT * FROM operators", "pearl|\n")?;
    let mut book = tables.book()?;
    same_operators(&book, &["pearl"])?;
    take_steps(rt.alloc(), &mut book, PEARL)?;
    Ok(())
}
