//! Books that are made, closed and adopted again.

use crate::desk::operators::{are_named, operators_of};
use crate::desk::request::Request::{Print, Release};
use crate::desk::step::Step;
use crate::desk::step::Step::{Ask, Dev, Grant};
use crate::stores::compare::same;
use crate::stores::judge::Changes;
use crate::stores::queue::{empty_book, full_tables, new_book, take_steps};
use crate::stores::shown::shows_the_queue;
use crate::stores::tables::{DAMAGED, Tables};
use queue_core::BookFault;
use queue_store::TableBook;
use queue_types::settings::Settings;
use sqlite::MemStore;
use std::alloc::Global;
use std::test::Fail;

#[test]
fn a_queue_comes_back(rt: HostRuntime) -> Result<(), Fail> {
    let mut book = full_tables(rt.alloc())?.book()?;
    shows_the_queue(rt.alloc(), &mut book)
}

/// The columns of the queue's tables, row by row.
const COLUMNS: &[(&str, &str)] = &[
    (
        "SELECT * FROM meta",
        "1|3|ipp://localhost/ipp/print|release|20|0|11|\n",
    ),
    ("SELECT * FROM policy", "1|3600|\n"),
    ("SELECT * FROM operators", "opal|\n"),
    (
        "SELECT * FROM jobs ORDER BY number",
        "1|alice|untitled|1|20|0|0|9|0|0|25|2|22|24|\n\
         2|alice|untitled|1|20|0|0|7|1|0|0|3|NULL|21|\n\
         3|alice|untitled|1|20|0|0|7|2|0|3|4|25|26|\n\
         4|alice|untitled|1|20|0|0|8|0|0|6|5|27|28|\n\
         5|alice|untitled|1|20|0|0|1|1|1|0|6|29|NULL|\n\
         6|alice|untitled|1|20|0|0|2|0|0|4|7|31|NULL|\n\
         7|alice|untitled|1|20|0|0|0|0|0|0|8|NULL|NULL|\n\
         8|bob|untitled|1|20|1|0|0|0|0|0|9|NULL|NULL|\n\
         9|alice|untitled|1|20|0|1|0|0|0|0|10|NULL|NULL|\n\
         10|carol|untitled|1|20|1|0|0|0|0|0|11|NULL|NULL|\n",
    ),
    (
        "SELECT doc, format, octets FROM documents WHERE job = 7 ORDER BY doc",
        "1|application/octet-stream|2|\n2|application/octet-stream|131073|\n",
    ),
    (
        "SELECT job, doc, piece, bytes FROM pieces WHERE job < 7 ORDER BY job",
        "1|1|0|one|\n2|1|0|two|\n3|1|0|three|\n4|1|0|four|\n5|1|0|five|\n6|1|0|six|\n",
    ),
    (
        "SELECT * FROM accounts ORDER BY name",
        "alice|186|76|38|\nbob|50|0|0|\n",
    ),
    (
        "SELECT * FROM grants ORDER BY account",
        "f24|alice|300|\nf24|bob|50|\n",
    ),
    (
        "SELECT * FROM reports ORDER BY job, seq",
        "1|1|1|0|5|0|\n1|2|4|12|5|12|\n1|3|5|25|9|25|\n3|1|1|0|5|0|\n3|2|7|3|7|3|\n\
         4|1|1|0|5|0|\n4|2|6|6|8|6|\n5|1|1|0|5|0|\n6|1|1|0|5|0|\n6|2|2|4|6|4|\n",
    ),
];

#[test]
fn columns_of_a_queue(rt: HostRuntime) -> Result<(), Fail> {
    full_tables(rt.alloc())?.show_each(COLUMNS)
}

/// The URI, the name, the estimate and the epoch of a printer, the seconds for which it keeps a held job, and its operators in their order.
type Printer<'a> = (&'a str, &'a str, u32, i64, u32, &'a [&'a str]);

const PRINTERS: &[Printer<'static>] = &[
    ("ipp://localhost/ipp/print", "release", 20, 0, 3600, &[]),
    (
        "ipps://print.example.org:8631/ipp/print",
        "Druckraum f\u{fc}r alle",
        100_000,
        1_795_000_000,
        2_147_483_647,
        &["J\u{fc}rg", "opal"],
    ),
    (":///ipp/print", "\n", 0, -1, 0, &["\u{fc}"]),
];

/// A book has the settings of the printer.
fn has_settings(book: &TableBook<MemStore>, printer: Printer<'_>) -> Result<(), Fail> {
    let settings = book.settings()?;
    let (uri, name, estimate, epoch, keep, names) = printer;
    let came = (
        settings.uri(),
        settings.name(),
        settings.estimate(),
        settings.epoch(),
        settings.keep(),
    );
    same(&came, &(uri, name, estimate, epoch, keep), "settings")?;
    same(&are_named(settings.operators(), names), &true, "operators")
}

/// A new book of the printer has its settings. It is closed.
fn make_with(alloc: Global, printer: Printer<'_>) -> Result<Tables, Fail> {
    let (uri, name, estimate, epoch, keep, names) = printer;
    let operators = operators_of(alloc, names)?;
    let settings = Settings::new(alloc, uri, name, estimate, epoch, keep, operators)?;
    let book = new_book(alloc, settings)?;
    has_settings(&book, printer)?;
    Ok(Tables::of(alloc, book))
}

/// A book keeps its settings, also once it was closed and adopted.
fn keep_settings(alloc: Global, printer: Printer<'_>) -> Result<(), Fail> {
    let book = make_with(alloc, printer)?.book()?;
    has_settings(&book, printer)
}

#[test]
fn settings_come_back(rt: HostRuntime) -> Result<(), Fail> {
    for printer in PRINTERS {
        keep_settings(rt.alloc(), *printer)?;
    }
    Ok(())
}

/// Statements of another program, how many tables, indexes and views they make, and what a book beside these is refused
/// as: Damaged where one of them has the name of a table of the book.
const STRANGERS: &[(&str, &str, BookFault)] = &[
    ("CREATE TABLE meta (x)", "1|\n", BookFault::Damaged),
    ("CREATE TABLE jobs (x)", "1|\n", BookFault::Damaged),
    ("CREATE TABLE documents (x)", "1|\n", BookFault::Damaged),
    ("CREATE TABLE pieces (x)", "1|\n", BookFault::Damaged),
    ("CREATE TABLE accounts (x)", "1|\n", BookFault::Damaged),
    ("CREATE TABLE grants (x)", "1|\n", BookFault::Damaged),
    ("CREATE TABLE reports (x)", "1|\n", BookFault::Damaged),
    ("CREATE TABLE policy (x)", "1|\n", BookFault::Damaged),
    ("CREATE TABLE operators (x)", "1|\n", BookFault::Damaged),
    ("CREATE TABLE Jobs (x)", "1|\n", BookFault::Damaged),
    ("CREATE VIEW jobs AS SELECT 1", "1|\n", BookFault::Damaged),
    (
        "CREATE TABLE note (x); CREATE INDEX jobs ON note (x)",
        "2|\n",
        BookFault::Damaged,
    ),
    ("CREATE TABLE note (x)", "1|\n", BookFault::Disk),
];

/// No book is made beside what the statements make, which stays alone.
fn make_beside(
    alloc: Global,
    statements: &str,
    count: &str,
    wanted: BookFault,
) -> Result<(), Fail> {
    let mut tables = Tables::none(alloc)?;
    tables.run(statements)?;
    same(&tables.make()?, &Err(wanted), statements)?;
    tables.show("SELECT count(*) FROM sqlite_schema", count)
}

#[test]
fn names_that_are_taken(rt: HostRuntime) -> Result<(), Fail> {
    for (statements, count, wanted) in STRANGERS {
        make_beside(rt.alloc(), statements, count, *wanted)?;
    }
    Ok(())
}

#[test]
fn a_book_over_a_book(rt: HostRuntime) -> Result<(), Fail> {
    let mut tables = full_tables(rt.alloc())?;
    same(&tables.make()?, &DAMAGED, "its own tables")?;
    let mut book = tables.book()?;
    shows_the_queue(rt.alloc(), &mut book)
}

/// Pages that are reserved and printed for one job.
const PRINTING: &[Step<'static>] = &[
    Grant(b"f24,alice,30\n", Ok((1, 0))),
    Ask("alice", Print, 0x0000),
    Ask("alice", Print, 0x0000),
    Ask("alice", Release(1), 0x0000),
    Dev("1 1 start 0", "ok 1 5 0"),
    Dev("1 2 count 12", "ok 1 5 12"),
];

/// Totals that are not those of the account's jobs.
const TOTALS: &str = "\
    UPDATE accounts SET reserved = 9 => UPDATE accounts SET reserved = 8\n\
    UPDATE accounts SET free = 11 => UPDATE accounts SET free = 10";

/// Each change of the tables damages them.
pub(super) fn damage_each(tables: &mut Tables, lines: &str) -> Result<(), Fail> {
    let whole = tables.content()?;
    let changes = Changes {
        whole: whole.as_slice(),
        wanted: DAMAGED,
    };
    changes.change_each(tables, lines)
}

#[test]
fn totals_of_an_account(rt: HostRuntime) -> Result<(), Fail> {
    let mut book = empty_book(rt.alloc())?;
    take_steps(rt.alloc(), &mut book, PRINTING)?;
    let mut tables = Tables::of(rt.alloc(), book);
    tables.show("SELECT * FROM accounts", "alice|10|8|12|\n")?;
    damage_each(&mut tables, TOTALS)
}
