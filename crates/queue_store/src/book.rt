//! The book in tables.
ghost use Rattle.std.specs.Prelude.{◌≡◌, ◌≢◌, ◌↔◌, false, None, Err, IfErr, IfOk, IsErr, IsErrAnd, IsErrOf, IsTrue};
ghost use Rattle.std.specs.List.{list_any};
ghost use Rattle.sqlite.specs.Held.{state};
ghost use Rattle.sqlite.specs.State.{HasCleanDisk};
ghost use Rattle.sqlite.specs.Steps.{over_memory};
ghost use Rattle.sqlite_catalog.specs.Change.{is_used};
ghost use Rattle.queue_core.specs.World.{World, empty_queue};
ghost use Rattle.queue_core.specs.declared.book.BookFault.TheVariants.{Damaged};
ghost use Rattle.queue_store.specs.Kept.{IsHonest, StandsFor, connection_of, shown_by};
ghost use Rattle.queue_store.specs.Making.{MakesTables};
ghost use Rattle.queue_store.specs.New.{KeepsTables, LeavesOldOrNew, LeavesOnly, has_any, new_meta, new_policy};
ghost use Rattle.queue_tables.specs.Tables.{no_schema};

use crate::create::make_tables;
use queue_core::{BookFault, empty_is_sound};
use queue_rows::rows::{MetaRow, PolicyRow, SCHEMA};
use queue_tables::TABLES;
use queue_tables::fault::Fault;
use queue_types::limits::FIRST_JOB_NUMBER;
use queue_types::settings::Settings;
use queue_types::text::Text;
use sqlite::{Alter, Connection, MemStore};
use sqlite_catalog::layout::is_used;
use sqlite_schema::schema::Schema;
use std::alloc::{AllocError, Global};

/// A book kept in the tables of a connection.
#[derive(Drop)]
pub struct TableBook<S: Alter> {
    pub(crate) alloc: Global,
    pub(crate) conn: Connection<S>,
    /// Those of the queue. Only its operators change.
    pub(crate) settings: Settings,
}

/// The store has no tables, indexes or views.
fn is_blank<S: Alter>(conn: &Connection<S>) -> bool
    ensures { IsTrue result ↔ ((state S.Store conn.now).now.schema ≡ no_schema) }
{
    let schema = conn.schema();
    schema.tables.as_slice().is_empty()
        && schema.indexes.as_slice().is_empty()
        && schema.views.as_slice().is_empty()
}

/// A table, an index or a view has one of the names.
fn has_one_of(schema: &Schema, names: &[&[u8]]) -> bool
    ensures { result ≡ list_any (λ name. is_used schema.now name.now) names.now }
{
    names.iter().any(|name| is_used(schema, name))
}

/// A table, an index or a view has the name of a table of the book.
fn has_any_name<S: Alter>(conn: &Connection<S>) -> bool
    ensures { result ≡ has_any (state S.Store conn.now).now.schema }
{
    has_one_of(conn.schema(), &TABLES)
}

/// The row of a new book with these settings.
fn first_row(alloc: Global, settings: &Settings) -> Result<MetaRow, AllocError>
    ensures { IfOk result (λ m. m ≡ new_meta settings.now) }
{
    let uri = Text::copy_of(alloc, settings.uri())?;
    let name = Text::copy_of(alloc, settings.name())?;
    Ok(MetaRow {
        one: 1,
        schema: SCHEMA,
        uri,
        name,
        estimate: settings.estimate(),
        epoch: settings.epoch(),
        next_number: FIRST_JOB_NUMBER,
    })
}

/// The row that says for how long held jobs are kept.
fn policy_row(settings: &Settings) -> PolicyRow
    ensures { result ≡ new_policy settings.now }
{
    PolicyRow {
        one: 1,
        keep: settings.keep(),
    }
}

/// Makes the tables of a book with these settings in a blank store. In another, and within a transaction, nothing is done.
fn make_new<S: Alter>(
    alloc: Global,
    conn: &mut Connection<S>,
    settings: &Settings,
) -> Result<(), Fault>
    ensures blank { IfOk result (λ u. (state S.Store conn.old).now.schema ≡ no_schema) }
    ensures makes { MakesTables (empty_queue settings.now) (state S.Store conn.old) (state S.Store conn.new) result }
    ensures untouched { (state S.Store conn.old).now.schema ≢ no_schema → conn.new ≡ conn.old }
    ensures damaged { IfErr result (λ e. e ≡ Fault.Damaged → IsTrue (has_any (state S.Store conn.old).now.schema)) }
    ensures taken { IsTrue (has_any (state S.Store conn.old).now.schema) → IsErrOf result Fault.Damaged }
    ensures others { (state S.Store conn.old).now.schema ≢ no_schema → has_any (state S.Store conn.old).now.schema ≡ false → result ≡ Err Fault.Disk }
    ensures inside { IsTrue (state S.Store conn.old).in_transaction → IsErr result × (conn.new ≡ conn.old) }
{
    // its contract says that outside a transaction the tables are those of the last commit
    let _settled = conn.is_autocommit();
    if has_any_name(conn) {
        return Err(Fault::Damaged);
    }
    if !is_blank(conn) {
        return Err(Fault::Disk);
    }
    let meta = first_row(alloc, settings)?;
    let policy = policy_row(settings);
    make_tables(conn, &meta, &policy, settings.operators())
}

impl<S: Alter> TableBook<S> {
    /// A book with these settings over a connection, whose step limit is lifted.
    pub(crate) fn over(alloc: Global, mut conn: Connection<S>, settings: Settings) -> TableBook<S>
        ensures lifted { connection_of result ≡ record conn { step_limit = None } }
        ensures settings { result.settings ≡ settings }
    {
        conn.set_step_limit(None);
        TableBook {
            alloc,
            conn,
            settings,
        }
    }

    /// A new book with these settings, without jobs, accounts and reports, in a store without tables, indexes and
    /// views. A store where one of these has the name of a table of the book is Damaged, another that has any is told as Disk.
    /// Within a transaction it is refused. A refusal hands the connection back, with its tables and its step limit as they were
    /// and no transaction begun or ended; only a disk that fails or refuses shuts it: want of memory doesn't. Where there were
    /// any of these, and within a transaction, it is as it came. An Ok lifts its step limit. Whatever the answer, a crash then
    /// leaves what it might have left before, or the new book; after an Ok the new book alone.
    pub fn create(
        alloc: Global,
        mut conn: Connection<S>,
        settings: Settings,
    ) -> Result<TableBook<S>, (BookFault, Connection<S>)>
        ensures clean { IfOk result (λ b. IsHonest S.Store b → HasCleanDisk (state S.Store conn)) }
        ensures blank { IfOk result (λ b. (state S.Store conn).now.schema ≡ no_schema) }
        ensures stands { IfOk result (λ b. StandsFor S.Store b (empty_queue settings)) }
        ensures live { IfOk result (λ b. IsHonest S.Store b → IsTrue (shown_by S.Store b).is_open) }
        ensures damaged { IfErr result (λ e. e.0 ≡ Damaged → IsTrue (has_any (state S.Store conn).now.schema)) }
        ensures taken { IsTrue (has_any (state S.Store conn).now.schema) → IsErrAnd result (λ e. e.0 ≡ Damaged) }
        ensures others { (state S.Store conn).now.schema ≢ no_schema → has_any (state S.Store conn).now.schema ≡ false → IsErrAnd result (λ e. e.0 ≡ BookFault.Disk) }
        ensures lasts { IfOk result (λ b. LeavesOnly (empty_queue settings) (shown_by S.Store b)) }
        ensures handed { IfErr result (λ e. KeepsTables (state S.Store conn) (state S.Store e.1)) }
        ensures crash { IfErr result (λ e. LeavesOldOrNew (empty_queue settings) (state S.Store conn) (state S.Store e.1)) }
        ensures untouched { IfErr result (λ e. (state S.Store conn).now.schema ≢ no_schema → e.1 ≡ conn) }
        ensures inside { IsTrue (state S.Store conn).in_transaction → IsErrAnd result (λ e. e.1 ≡ conn) }
    {
        empty_is_sound();
        // its contract says that the settings are within their limits
        let _estimate = settings.estimate();
        match make_new(alloc, &mut conn, &settings) {
            Ok(()) => Ok(TableBook::over(alloc, conn, settings)),
            Err(fault) => Err((BookFault::from(fault), conn)),
        }
    }

    /// A copy of the queue's settings.
    pub fn settings(&self) -> Result<Settings, AllocError>
        ensures { IfOk result (λ s. (w : World) → IsHonest S.Store self.now → StandsFor S.Store self.now w → s ≡ w.settings) }
    {
        self.settings.try_clone()
    }

    /// The connection, whose tables stand for the book. It takes no memory.
    pub fn close(self) -> Connection<S>
        ensures { result ≡ connection_of self }
    {
        let TableBook {
            alloc: _,
            conn,
            settings: _,
        } = self;
        conn
    }
}

impl TableBook<MemStore> {
    /// A new book with these settings, without jobs, accounts and reports, in tables in memory. Damaged is never told, since no table is there.
    pub fn in_memory(alloc: Global, settings: Settings) -> Result<TableBook<MemStore>, BookFault>
        ensures stands { IfOk result (λ b. StandsFor over_memory b (empty_queue settings)) }
        ensures live { IfOk result (λ b. IsHonest over_memory b → IsTrue (shown_by over_memory b).is_open) }
        ensures never { IfErr result (λ e. e ≢ Damaged) }
    {
        let conn = Connection::open_in_memory(alloc)?;
        match TableBook::create(alloc, conn, settings) {
            Ok(book) => Ok(book),
            Err((fault, _conn)) => Err(fault),
        }
    }
}
