//! The tables of a book: what is in them, statements that change them, and whether they are taken.

use crate::desk::printer;
use crate::stores::compare::same;
use queue_core::BookFault;
use queue_store::TableBook;
use sqlite::types::ValueRef;
use sqlite::{Alter, Connection, Constraint, Error, ErrorCode, MemStore, Row, params};
use sqlite_resolve::CompileError;
use std::alloc::{AllocError, Global};
use std::io::Write;
use std::test::Fail;

/// The names of all tables and indexes, and all rows of each table.
const QUERIES: [&str; 10] = [
    "SELECT name FROM sqlite_schema ORDER BY 1",
    "SELECT * FROM meta ORDER BY 1",
    "SELECT * FROM jobs ORDER BY 1",
    "SELECT * FROM documents ORDER BY 1, 2",
    "SELECT * FROM pieces ORDER BY 1, 2, 3",
    "SELECT * FROM accounts ORDER BY 1",
    "SELECT * FROM grants ORDER BY 1, 2",
    "SELECT * FROM reports ORDER BY 1, 2",
    "SELECT * FROM policy ORDER BY 1",
    "SELECT * FROM operators ORDER BY 1",
];

/// What becomes of tables that a book is made in or taken from.
pub(super) type Judgement = Result<(), BookFault>;

/// What becomes of tables that stand for no sound queue.
pub(super) const DAMAGED: Judgement = Err(BookFault::Damaged);

fn put_value(out: &mut Vec<u8>, value: ValueRef<'_>) -> Result<(), Fail> {
    match value {
        ValueRef::Null => out.extend_from_slice(b"NULL")?,
        ValueRef::Int(number) => write!(out, "{number}")?,
        ValueRef::Real(_) => out.extend_from_slice(b"real")?,
        ValueRef::Text(bytes) | ValueRef::Blob(bytes) => out.extend_from_slice(bytes)?,
    }
    out.extend_from_slice(b"|")?;
    Ok(())
}

fn put_row(out: &mut Vec<u8>, row: &Row) -> Result<(), Fail> {
    for at in 0..row.column_count() {
        put_value(out, row.get_ref(at)?)?;
    }
    out.extend_from_slice(b"\n")?;
    Ok(())
}

/// Adds rows, a line each, with a bar behind each column.
fn put_rows(out: &mut Vec<u8>, rows: &[Row]) -> Result<(), Fail> {
    for row in rows {
        put_row(out, row)?;
    }
    Ok(())
}

/// The book that is wanted. A connection that is handed back is let go.
pub(super) fn opened<S: Alter + Drop>(
    came: Result<TableBook<S>, (BookFault, Connection<S>)>,
) -> Result<TableBook<S>, Fail> {
    match came {
        Ok(book) => Ok(book),
        Err((fault, _conn)) => Err(Fail::from(fault)),
    }
}

/// What became of the tables, and the tables, whose book is closed again.
fn closed<S: Alter>(
    came: Result<TableBook<S>, (BookFault, Connection<S>)>,
) -> (Judgement, Connection<S>) {
    match came {
        Ok(book) => (Ok(()), book.close()),
        Err((fault, conn)) => (Err(fault), conn),
    }
}

/// Tables in memory.
#[derive(Drop)]
pub(super) struct Tables {
    pub(super) alloc: Global,
    conn: Connection<MemStore>,
}

impl Tables {
    /// A store without tables.
    pub(super) fn none(alloc: Global) -> Result<Tables, AllocError> {
        let conn = Connection::open_in_memory(alloc)?;
        Ok(Tables { alloc, conn })
    }

    /// The tables of a book, which is closed.
    pub(super) fn of(alloc: Global, book: TableBook<MemStore>) -> Tables {
        let conn = book.close();
        Tables { alloc, conn }
    }

    /// The book that they hold.
    pub(super) fn book(self) -> Result<TableBook<MemStore>, Fail> {
        let Tables { alloc, conn } = self;
        opened(TableBook::adopt(alloc, conn))
    }

    /// Adds the rows that a query shows, or none where its table isn't there.
    fn put_shown(&mut self, out: &mut Vec<u8>, query: &str) -> Result<(), Fail> {
        match self.conn.query_all(query, &[]) {
            Ok(rows) => put_rows(out, rows.as_slice()),
            Err(Error::SqlInputError(CompileError::NoSuchTable)) => Ok(()),
            Err(error) => Err(Fail::from(error)),
        }
    }

    fn put_content(&mut self, out: &mut Vec<u8>) -> Result<(), Fail> {
        for query in QUERIES {
            self.put_shown(out, query)?;
        }
        Ok(())
    }

    /// All that is in them.
    pub(super) fn content(&mut self) -> Result<Vec<u8>, Fail> {
        let mut out = Vec::new(self.alloc);
        self.put_content(&mut out)?;
        Ok(out)
    }

    /// They have just this in them.
    pub(super) fn has_content(&mut self, wanted: &[u8], name: &str) -> Result<(), Fail> {
        let came = self.content()?;
        same(&came.as_slice(), &wanted, name)
    }

    /// A query shows these rows, a line each, with a bar behind each column.
    pub(super) fn show(&mut self, query: &str, wanted: &str) -> Result<(), Fail> {
        let mut rows = Vec::new(self.alloc);
        self.put_shown(&mut rows, query)?;
        same(&str::from_utf8(rows.as_slice()), &Ok(wanted), query)
    }

    /// Queries show what stands beside them.
    pub(super) fn show_each(&mut self, wanted: &[(&str, &str)]) -> Result<(), Fail> {
        for (query, rows) in wanted {
            self.show(query, rows)?;
        }
        Ok(())
    }

    /// Runs statements, none of which is refused.
    pub(super) fn run(&mut self, statements: &str) -> Result<(), Fail> {
        let came = self.conn.execute_batch(statements);
        same(&came, &Ok(()), statements)
    }

    /// Runs a statement with each number from 1 to the last one.
    pub(super) fn run_to(&mut self, statement: &str, last: i64) -> Result<(), Fail> {
        for number in 1..=last {
            self.conn.execute(statement, params![number])?;
        }
        Ok(())
    }

    /// A statement is refused, since it breaks a constraint of this kind, and they stay as they were.
    pub(super) fn refuse(
        &mut self,
        whole: &[u8],
        statement: &str,
        broken: Constraint,
    ) -> Result<(), Fail> {
        let came = self.conn.execute(statement, &[]);
        let refusal = Error::SqliteFailure(ErrorCode::ConstraintViolation(broken));
        same(&came, &Err(refusal), statement)?;
        self.has_content(whole, statement)
    }

    /// Takes them out, and leaves a store without tables in their place.
    fn take_out(&mut self) -> Result<Connection<MemStore>, AllocError> {
        let empty = Connection::open_in_memory(self.alloc)?;
        Ok(std::mem::replace(&mut self.conn, empty))
    }

    /// What becomes of them where they are taken for a book, which is closed again.
    fn adopt(&mut self) -> Result<Judgement, Fail> {
        let conn = self.take_out()?;
        let (came, conn) = closed(TableBook::adopt(self.alloc, conn));
        self.conn = conn;
        Ok(came)
    }

    /// What becomes of them where a book of the printer is made in them, which is closed again.
    pub(super) fn make(&mut self) -> Result<Judgement, Fail> {
        let settings = printer(self.alloc)?;
        let conn = self.take_out()?;
        let (came, conn) = closed(TableBook::create(self.alloc, conn, settings));
        self.conn = conn;
        Ok(came)
    }

    /// They are taken as they are to be, and stay as they were.
    pub(super) fn judge(&mut self, wanted: Judgement, name: &str) -> Result<(), Fail> {
        let before = self.content()?;
        same(&self.adopt()?, &wanted, name)?;
        self.has_content(before.as_slice(), name)
    }
}
