//! The books that a desk is run over: the plain one, and one in tables in memory; and the account files that enter them.
ghost use Rattle.queue_core.specs.Limits.{IsMoment};

use crate::desk::compare::{Mismatch, Subject, no_book};
use grants_csv::{Imported, import};
use list_book::ListBook;
use queue_core::QueueBook;
use queue_store::TableBook;
use queue_types::settings::Settings;
use sqlite::MemStore;
use std::alloc::Global;

/// A book in tables in memory.
pub(crate) type MemoryBook = TableBook<MemStore>;

/// A book that a desk can begin with.
pub(crate) trait DeskBook: QueueBook + Drop + Sized {
    /// What it is where a comparison fails.
    fn subject() -> Subject;

    /// The book of an empty queue with these settings.
    fn empty(alloc: Global, settings: Settings) -> Result<Self, Mismatch>;
}

impl DeskBook for ListBook {
    fn subject() -> Subject {
        Subject::Lists
    }

    fn empty(alloc: Global, settings: Settings) -> Result<ListBook, Mismatch> {
        Ok(ListBook::new(alloc, settings))
    }
}

impl DeskBook for MemoryBook {
    fn subject() -> Subject {
        Subject::Tables
    }

    fn empty(alloc: Global, settings: Settings) -> Result<MemoryBook, Mismatch> {
        TableBook::in_memory(alloc, settings).map_err(|fault| no_book(Subject::Tables, fault))
    }
}

/// An account file that grants alice 30 pages.
pub(crate) const GRANT: &[u8] = b"batch,account,pages\nf24,alice,30\n";

/// An account file adds so many rows to a book, and repeats none.
pub(crate) fn grant_in<B: DeskBook>(
    alloc: Global,
    book: &mut B,
    moment: u32,
    file: &[u8],
    rows: u32,
) -> Result<(), Mismatch>
    requires { IsMoment moment }
{
    match import(alloc, book, moment, file) {
        Ok(Imported { added, repeats: 0 }) if added == rows => Ok(()),
        _ => Err(Mismatch::Book {
            subject: B::subject(),
        }),
    }
}
