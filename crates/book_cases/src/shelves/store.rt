//! Steps over the book of a store, until one meets the stop of its disk, if any does.

use crate::desk::Desk;
use crate::desk::book::StepBook;
use crate::desk::fault::StepFault;
use crate::desk::step::Step;
use queue_core::BookFault;
use queue_store::TableBook;
use queue_types::settings::Settings;
use sqlite::{Alter, Connection, Error, ErrorCode, FileStore, Files};
use sqlite_disk::Disk;
use std::alloc::Global;

/// Where the book of a store comes from: a book or a connection over that store. It has no bound on the store, so that files can be handed over in it.
pub(super) enum Source<B, C> {
    /// It is there.
    Book(B),
    /// The tables of a connection hold it.
    Tables(C),
    /// It is made of these settings in a connection.
    New(C, Settings),
}

/// The book of a source. A refusal gives the store back.
fn book_of<S: Alter + Drop>(
    alloc: Global,
    source: Source<TableBook<S>, Connection<S>>,
) -> Result<TableBook<S>, (BookFault, S)> {
    let book = match source {
        Source::Book(book) => Ok(book),
        Source::Tables(conn) => TableBook::adopt(alloc, conn),
        Source::New(conn, settings) => TableBook::create(alloc, conn, settings),
    };
    match book {
        Ok(book) => Ok(book),
        Err((fault, conn)) => Err((fault, conn.into_store())),
    }
}

/// An earlier fault shut the store of a connection for good.
fn is_shut<S: Alter>(conn: &mut Connection<S>) -> bool {
    match conn.prepare("SELECT 1") {
        Ok(_statement) => false,
        Err(error) => error == Error::SqliteFailure(ErrorCode::Closed),
    }
}

/// The store of a book, as it is, and whether a fault shut it.
fn close<S: Alter + Drop>(book: TableBook<S>) -> (S, bool) {
    let mut conn = book.close();
    let is_shut = is_shut(&mut conn);
    (conn.into_store(), is_shut)
}

/// How steps over a disk that stops ended.
#[derive(Clone, Copy, Debug, PartialEq, Eq)]
pub(super) enum End {
    /// There was no book to take them over.
    Unopened,
    /// Each was well.
    Well,
    /// One met the stop, and so did the look behind it.
    Stopped,
    /// One met the stop, and the look behind it was well.
    Answering,
}

impl End {
    /// Each step was well.
    pub(super) fn well(self) -> Result<(), StepFault> {
        match self {
            End::Well => Ok(()),
            End::Unopened | End::Stopped | End::Answering => Err(StepFault::Book(BookFault::Disk)),
        }
    }
}

/// A fault that a disk which stops may make is how a step ended.
fn stopped(fault: StepFault) -> Result<End, StepFault> {
    if fault.may_be_of_disk() {
        Ok(End::Stopped)
    } else {
        Err(fault)
    }
}

/// The look that tells what stands as a step meets the stop: that step itself, or the one before it.
fn look_at<'a>(steps: &[Step<'a>], at: usize) -> Option<Step<'a>> {
    let before = at.saturating_sub(1);
    match (steps.get(at), steps.get(before)) {
        (Some(look), _) if look.only_looks() => Some(*look),
        (_, Some(look)) if look.only_looks() => Some(*look),
        _ => None,
    }
}

/// Looks once more at a book where a step has met the stop.
fn look_again<B: StepBook>(
    desk: &mut Desk,
    book: &mut B,
    look: Step<'_>,
) -> Result<End, StepFault> {
    let place = desk.place();
    let looked = desk.take(book, look);
    desk.go_to(place);
    match looked {
        Ok(()) => Ok(End::Answering),
        Err(fault) => stopped(fault),
    }
}

/// Takes steps and then others over a book until one meets the stop.
fn take_to_stop<B: StepBook>(
    desk: &mut Desk,
    book: &mut B,
    steps: &[Step<'_>],
    last: &[Step<'_>],
) -> Result<End, StepFault> {
    let begun = desk.place();
    let Err(fault) = take_both(desk, book, steps, last) else {
        return Ok(End::Well);
    };
    let ended = stopped(fault)?;
    match look_at(steps, desk.place().behind(begun)) {
        Some(look) => look_again(desk, book, look),
        None => Ok(ended),
    }
}

/// Takes steps and then others.
pub(super) fn take_both<B: StepBook>(
    desk: &mut Desk,
    book: &mut B,
    steps: &[Step<'_>],
    last: &[Step<'_>],
) -> Result<(), StepFault> {
    desk.take_each(book, steps)?;
    desk.take_each(book, last)
}

/// Takes steps and then others over a book until one meets the stop, and gives its store back.
fn take_and_close<S: Alter + Drop>(
    desk: &mut Desk,
    mut book: TableBook<S>,
    steps: &[Step<'_>],
    last: &[Step<'_>],
) -> (Result<End, StepFault>, S) {
    let ended = take_to_stop(desk, &mut book, steps, last);
    let (store, is_shut) = close(book);
    match ended {
        Ok(End::Answering) if is_shut => (Err(StepFault::ShutAnswers), store),
        ended => (ended, store),
    }
}

/// How steps end whose book can't be made or opened.
pub(super) fn unopened(fault: BookFault) -> Result<End, StepFault> {
    match fault {
        BookFault::Disk => Ok(End::Unopened),
        BookFault::Memory | BookFault::Damaged => Err(StepFault::Book(fault)),
    }
}

/// Takes steps and then others over the book of a store until one meets the stop, and gives the store back.
fn take_in_store<S: Alter + Drop>(
    desk: &mut Desk,
    source: Source<TableBook<S>, Connection<S>>,
    steps: &[Step<'_>],
    last: &[Step<'_>],
) -> (Result<End, StepFault>, S) {
    match book_of(desk.alloc(), source) {
        Ok(book) => take_and_close(desk, book, steps, last),
        Err((fault, store)) => (unopened(fault), store),
    }
}

/// `take_in_store` over files, which it gives back. Each book in files is handed over here: each such place costs the prover some 12 seconds.
pub(super) fn take_in_file_store<D: Disk + Drop>(
    desk: &mut Desk,
    source: Source<TableBook<FileStore<D>>, Connection<FileStore<D>>>,
    steps: &[Step<'_>],
    last: &[Step<'_>],
) -> (Result<End, StepFault>, Files<D>) {
    let (ended, store) = take_in_store(desk, source, steps, last);
    (ended, store.close())
}

/// Runs statements over a store, none of which is refused.
fn run_in_store<S: Alter + Drop>(
    mut conn: Connection<S>,
    statements: &[&str],
) -> Result<S, StepFault> {
    for some in statements {
        if conn.execute_batch(some).is_err() {
            return Err(StepFault::SettingUp);
        }
    }
    Ok(conn.into_store())
}

/// `run_in_store` over files, which it gives back.
pub(super) fn run_in_files<D: Disk + Drop>(
    conn: Connection<FileStore<D>>,
    statements: &[&str],
) -> Result<Files<D>, StepFault> {
    Ok(run_in_store(conn, statements)?.close())
}
