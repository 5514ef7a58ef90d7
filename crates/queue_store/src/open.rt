//! A book from a file.
ghost use Rattle.std.specs.Prelude.{◌≡◌, ◌≢◌, codes, false, Err, IfErr, IfNone, IfOk, IfSome, IsErrAnd, IsTrue, Ok};
ghost use Rattle.sqlite.specs.Closing.{IsCopied};
ghost use Rattle.sqlite.specs.Files.{HoldsDatabase, IsBlankAs, IsCleanLeft, IsOpened, file_state, over_files};
ghost use Rattle.sqlite.specs.Start.{FindsIn};
ghost use Rattle.sqlite.specs.State.{HasCleanDisk};
ghost use Rattle.sqlite_store.specs.FileStore.{view};
ghost use Rattle.sqlite_trees.specs.Tree.{Trees};
ghost use Rattle.sqlite_wal.specs.Files.{image_at, outcomes};
ghost use Rattle.sqlite_wal.specs.Reads.{AreClean};
ghost use Rattle.sqlite_wal.specs.Recovery.{Image};
ghost use Rattle.queue_core.specs.World.{World, empty_queue};
ghost use Rattle.queue_store.specs.Closed.{KeepAlone, LeavesNoMore};
ghost use Rattle.queue_store.specs.Crash.{IsKept, KeepOneOf, KeepTogether, StillHolds, StillKeeps};
ghost use Rattle.queue_store.specs.Handed.{AdoptsBook, IsBehind, MakesBook, OpensBook};
ghost use Rattle.queue_store.specs.Kept.{IsHonest, StandsFor, StandsForOne, shown_by};
ghost use Rattle.queue_store.specs.Opened.{FitsFile, HasNoTables, IsFaultless, IsKeptIn, open_fault};
ghost use Rattle.queue_tables.specs.Content.{LeavesOneOf};

use crate::book::TableBook;
use crate::laws::{tables_hold_one_queue, trees_list_one_schema};
use queue_core::BookFault;
use queue_types::settings::Settings;
use sqlite::{Alter, Connection, Error, ErrorCode, Leftover};
use sqlite_disk::{Disk, Files, Start};
use sqlite_std_file::FileFrom;
use sqlite_store::FileStore;
use std::alloc::Global;
use std::rt::HostRuntime;

/// Files that were not opened or closed.
fn fault_of_open(error: Error) -> BookFault
    ensures { result ≡ open_fault error }
{
    match error {
        Error::SqliteFailure(ErrorCode::OutOfMemory) => BookFault::Memory,
        Error::SqliteFailure(ErrorCode::NotADatabase) => BookFault::Damaged,
        Error::SqliteFailure(ErrorCode::DatabaseCorrupt) => BookFault::Damaged,
        _ => BookFault::Disk,
    }
}

/// Gives the files of a connection back as they are, without reading or writing.
fn take_files<D: Disk + Drop>(conn: Connection<FileStore<D>>) -> Files<D>
    ensures clean { AreClean D.Disk result.log result.db → HasCleanDisk (file_state conn) }
    ensures left { AreClean D.Disk result.log result.db → (image : Image) → outcomes D.Disk result.log result.db image → ∥ ((db : Trees) × (file_state conn).may_leave db × HoldsDatabase image db) ∥₁ }
{
    conn.into_store().close()
}

/// Copies the log of a connection's files into the database file, and gives both back. An error hands the store back.
fn copy_log<D: Disk + Drop>(
    conn: Connection<FileStore<D>>,
) -> Result<Files<D>, (BookFault, FileStore<D>)>
    ensures copied { IfOk result (λ files. AreClean D.Disk files.log files.db → IsCopied conn files) }
    ensures crash { IfErr result (λ e. LeavesNoMore (file_state conn) e.1) }
{
    match conn.close_files() {
        Ok(files) => Ok(files),
        Err((error, store)) => Err((fault_of_open(error), store)),
    }
}

/// A connection to the files at a path, whose pages have no sums where the files are new. An error hands back what is left of
/// them, where they were opened.
fn connect_or_left<S: Start>(
    rt: &HostRuntime,
    path: &str,
    start: S,
) -> Result<Connection<FileStore<FileFrom<S>>>, (BookFault, Option<Leftover<FileFrom<S>>>)>
    ensures opened { IfOk result (λ c. HasCleanDisk (file_state c) → IsOpened c) }
    ensures found { IfOk result (λ c. HasCleanDisk (file_state c) → FindsIn (image_at S.Start) (file_state c)) }
    ensures plain { IfOk result (λ c. HasCleanDisk (file_state c) → IsBlankAs false (image_at S.Start) → (view c.store).has_sums ≡ false) }
    ensures damaged { (w : World) → IsKept (image_at S.Start) w → IfErr result (λ e. IsFaultless e.1 → e.0 ≢ BookFault.Damaged) }
    ensures unharmed { (db : Trees) → HoldsDatabase (image_at S.Start) db → IfErr result (λ e. IfSome e.1 (λ left. IsCleanLeft left → StillHolds (image_at S.Start) left db)) }
    ensures memory { path.now ≡ codes ":memory:" → IsErrAnd result (λ e. e.0 ≡ BookFault.Disk) }
{
    match Connection::open_from(rt, path, false, start) {
        Ok(conn) => Ok(conn),
        Err((error, left)) => Err((fault_of_open(error), left)),
    }
}

/// A connection to the files at a path. Files that can't be connected to are let go.
fn connect<S: Start>(
    rt: &HostRuntime,
    path: &str,
    start: S,
) -> Result<Connection<FileStore<FileFrom<S>>>, BookFault>
    ensures opened { IfOk result (λ c. HasCleanDisk (file_state c) → IsOpened c) }
    ensures found { IfOk result (λ c. HasCleanDisk (file_state c) → FindsIn (image_at S.Start) (file_state c)) }
    ensures plain { IfOk result (λ c. HasCleanDisk (file_state c) → IsBlankAs false (image_at S.Start) → (view c.store).has_sums ≡ false) }
    ensures memory { path.now ≡ codes ":memory:" → result ≡ Err BookFault.Disk }
{
    match connect_or_left(rt, path, start) {
        Ok(conn) => Ok(conn),
        Err((fault, _left)) => Err(fault),
    }
}

/// A book, or of a connection that was handed back the store alone.
fn store_behind<S: Alter + Drop>(
    came: Result<TableBook<S>, (BookFault, Connection<S>)>,
) -> Result<TableBook<S>, (BookFault, S)>
    ensures book { IfOk result (λ b. came ≡ Ok b) }
    ensures left { IfErr result (λ e. IsErrAnd came (λ f. (f.0 ≡ e.0) × IsBehind S.Store f.1 e.1)) }
{
    match came {
        Ok(book) => Ok(book),
        Err((fault, conn)) => Err((fault, conn.into_store())),
    }
}

/// A new book with these settings, or where there are none the one that the tables hold. A refusal hands back the store alone.
fn make_or_adopt<S: Alter + Drop>(
    alloc: Global,
    conn: Connection<S>,
    new: Option<Settings>,
) -> Result<TableBook<S>, (BookFault, S)>
    ensures made { IfSome new (MakesBook S.Store conn result) }
    ensures adopted { IfNone new (AdoptsBook S.Store conn result) }
{
    match new {
        Some(settings) => store_behind(TableBook::create(alloc, conn, settings)),
        None => store_behind(TableBook::adopt(alloc, conn)),
    }
}

/// `make_or_adopt` over files.
fn make_or_adopt_in_files<D: Disk + Drop>(
    alloc: Global,
    conn: Connection<FileStore<D>>,
    new: Option<Settings>,
) -> Result<TableBook<FileStore<D>>, (BookFault, FileStore<D>)>
    ensures made { IfSome new (MakesBook over_files conn result) }
    ensures adopted { IfNone new (AdoptsBook over_files conn result) }
{
    make_or_adopt(alloc, conn, new)
}

/// A new book with these settings in files. A refusal lets them go.
fn make_in_files<D: Disk + Drop>(
    alloc: Global,
    conn: Connection<FileStore<D>>,
    settings: Settings,
) -> Result<TableBook<FileStore<D>>, BookFault>
    ensures { MakesBook over_files conn result settings }
{
    match make_or_adopt_in_files(alloc, conn, Some(settings)) {
        Ok(book) => Ok(book),
        Err((fault, _store)) => Err(fault),
    }
}

/// The book that the files of a connection hold. A refusal hands back what is left of them.
fn adopt_or_left<S: Start>(
    alloc: Global,
    conn: Connection<FileStore<FileFrom<S>>>,
) -> Result<TableBook<FileStore<FileFrom<S>>>, (BookFault, Option<Leftover<FileFrom<S>>>)>
    requires opened { HasCleanDisk (file_state conn) → IsOpened conn }
    requires found { HasCleanDisk (file_state conn) → FindsIn (image_at S.Start) (file_state conn) }
    ensures { OpensBook (image_at S.Start) result }
{
    tables_hold_one_queue();
    trees_list_one_schema();
    match make_or_adopt_in_files(alloc, conn, None) {
        Ok(book) => Ok(book),
        Err((fault, store)) => Err((fault, Some(Leftover::Store(store)))),
    }
}

impl<D: Disk + Drop> TableBook<FileStore<D>> {
    /// Gives the files of the book back as they are, without reading or writing: what a crash leaves of the book is what
    /// it leaves of them. While the book is open, as after each Ok, that is the queue that it stands for.
    pub fn into_files(self) -> Files<D>
        ensures honest { AreClean D.Disk result.log result.db → IsHonest over_files self }
        ensures left { AreClean D.Disk result.log result.db → (w : World) → StandsFor over_files self w → IsTrue (shown_by over_files self).is_open → KeepTogether D.Disk result w }
        ensures crash { AreClean D.Disk result.log result.db → (v w : World) → LeavesOneOf v w (shown_by over_files self) → KeepOneOf D.Disk result v w }
    {
        let TableBook {
            alloc: _,
            conn,
            settings: _,
        } = self;
        take_files(conn)
    }

    /// Copies the log into the database file, so that this file alone keeps the book, and gives both back, which are
    /// closed as they are let go. An error hands the store back, as a crash would leave it: what was done is in the log, and
    /// is found as the book is opened again.
    pub fn close_files(self) -> Result<Files<D>, (BookFault, FileStore<D>)>
        ensures honest { IfOk result (λ files. AreClean D.Disk files.log files.db → IsHonest over_files self) }
        ensures copied { IfOk result (λ files. AreClean D.Disk files.log files.db → (w : World) → StandsFor over_files self w → KeepAlone D.Disk files w) }
        ensures crash { IfErr result (λ e. LeavesNoMore (shown_by over_files self) e.1) }
    {
        let TableBook {
            alloc: _,
            conn,
            settings: _,
        } = self;
        copy_log(conn)
    }
}

impl<S: Start> TableBook<FileStore<FileFrom<S>>> {
    /// A new book with these settings, without jobs, accounts and reports, in the files at a path, which are made
    /// where they are missing. Damaged is told where a table, an index or a view in them has the name of a table of the
    /// book, or they are no database; Disk where they have others, can't be opened or are in use. A refusal lets them go,
    /// so what a crash then leaves is said by `create` alone, of the connection to them.
    pub fn create_from(
        rt: &HostRuntime,
        path: &str,
        settings: Settings,
        start: S,
    ) -> Result<TableBook<FileStore<FileFrom<S>>>, BookFault>
        ensures blank { IfOk result (λ b. IsHonest over_files b → HasNoTables (image_at S.Start)) }
        ensures stands { IfOk result (λ b. StandsFor over_files b (empty_queue settings)) }
        ensures live { IfOk result (λ b. IsHonest over_files b → IsTrue (shown_by over_files b).is_open) }
    {
        let conn = connect(rt, path, start)?;
        make_in_files(rt.alloc(), conn, settings)
    }

    /// The book that the files at a path hold, where `start` stands for what they hold as they are opened. Disk is
    /// told also where they can't be opened or are in use, Damaged also where they are no database. A path without a
    /// file gets an empty one, which is Damaged. Files that keep a queue, with their log or without, are found as it. An
    /// error hands back what is left of the files, where they were opened: where this tells of no disk that lied or
    /// failed, files that keep a queue are not told to be Damaged. Where no disk lied, files with the tables of a book, or
    /// with one missing, hold after the error the database that they held, or one with the same queue in the newest tables; of files that
    /// were being recovered that is said where their pages have no sums.
    pub fn open_or_left(
        rt: &HostRuntime,
        path: &str,
        start: S,
    ) -> Result<TableBook<FileStore<FileFrom<S>>>, (BookFault, Option<Leftover<FileFrom<S>>>)>
        ensures stands { FitsFile (image_at S.Start) → IfOk result (λ b. StandsForOne over_files b) }
        ensures kept { FitsFile (image_at S.Start) → IfOk result (λ b. IsHonest over_files b → (w : World) × IsKeptIn (image_at S.Start) w × StandsFor over_files b w) }
        ensures again { (w : World) → IsKept (image_at S.Start) w → IfOk result (λ b. StandsFor over_files b w) }
        ensures live { (w : World) → IsKept (image_at S.Start) w → IfOk result (λ b. IsHonest over_files b → IsTrue (shown_by over_files b).is_open) }
        ensures damaged { (w : World) → IsKept (image_at S.Start) w → IfErr result (λ e. IsFaultless e.1 → e.0 ≢ BookFault.Damaged) }
        ensures unharmed { FitsFile (image_at S.Start) → (db : Trees) → HoldsDatabase (image_at S.Start) db → IfErr result (λ e. IfSome e.1 (λ left. IsCleanLeft left → StillKeeps (image_at S.Start) left db)) }
        ensures memory { path.now ≡ codes ":memory:" → IsErrAnd result (λ e. e.0 ≡ BookFault.Disk) }
    {
        let conn = connect_or_left(rt, path, start)?;
        adopt_or_left(rt.alloc(), conn)
    }

    /// As `open_or_left`, but an error lets go what is left of the files.
    pub fn open_from(
        rt: &HostRuntime,
        path: &str,
        start: S,
    ) -> Result<TableBook<FileStore<FileFrom<S>>>, BookFault>
        ensures stands { FitsFile (image_at S.Start) → IfOk result (λ b. StandsForOne over_files b) }
        ensures kept { FitsFile (image_at S.Start) → IfOk result (λ b. IsHonest over_files b → (w : World) × IsKeptIn (image_at S.Start) w × StandsFor over_files b w) }
        ensures again { (w : World) → IsKept (image_at S.Start) w → IfOk result (λ b. StandsFor over_files b w) }
        ensures live { (w : World) → IsKept (image_at S.Start) w → IfOk result (λ b. IsHonest over_files b → IsTrue (shown_by over_files b).is_open) }
        ensures memory { path.now ≡ codes ":memory:" → result ≡ Err BookFault.Disk }
    {
        match TableBook::open_or_left(rt, path, start) {
            Ok(book) => Ok(book),
            Err((fault, _left)) => Err(fault),
        }
    }
}
