//! The store that is at a path: it is opened, and closed or given back behind a command.
ghost use Rattle.std.specs.Prelude.{◌≡◌, IfErr, IfOk, IsErrAnd, IsOk, IsTrue};
ghost use Rattle.sqlite.specs.Files.{over_files};
ghost use Rattle.sqlite_wal.specs.Files.{image_at};
ghost use Rattle.sqlite_wal.specs.Reads.{AreClean};
ghost use Rattle.queue_core.specs.World.{World};
ghost use Rattle.queue_store.specs.Closed.{KeepAlone, LeavesNoMore};
ghost use Rattle.queue_store.specs.Crash.{IsKept, KeepOneOf};
ghost use Rattle.queue_store.specs.Kept.{IsHonest, StandsFor, shown_by};
ghost use Rattle.queue_store.specs.Opened.{FitsFile, IsKeptIn};
ghost use Rattle.queue_tables.specs.Content.{LeavesOneOf};
ghost use Rattle.commands.specs.Store.{IsOfStore};

use crate::found::{Found, found_at};
use command_ends::Fault;
use queue_store::TableBook;
use sqlite_disk::{Disk, Files};
use sqlite_std_file::{FileFrom, Start};
use sqlite_store::FileStore;
use std::rt::HostRuntime;

/// A book in the tables of a file. `S` stands for what the file and its log hold as they are opened.
pub(crate) type FileBook<S> = TableBook<FileStore<FileFrom<S>>>;

/// The files of a store that was closed, or the store where its log could not be copied.
pub(crate) type Closed<D> = Result<Files<D>, FileStore<D>>;

/// Opens the store that is at a path, and makes none where there is none. Where its tables are those of a store, it stands for the queue that the
/// files keep. Disk is told where there is no file and no log that may have pages, or the file can't be opened or is in use; Damaged where such a log lies
/// beside no file or an empty one, where the file is no database, or where it keeps no queue.
pub(crate) fn open_store<S: Start>(
    rt: &HostRuntime,
    path: &str,
    start: S,
) -> Result<FileBook<S>, Fault>
    ensures kept { FitsFile (image_at S.Start) → IfOk result (λ b. IsHonest over_files b
        → (w : World) × IsKeptIn (image_at S.Start) w × StandsFor over_files b w) }
    ensures live { FitsFile (image_at S.Start) → IfOk result (λ b. IsHonest over_files b → IsTrue (shown_by over_files b).is_open) }
    // files that keep a queue, as a store leaves them, are opened again as that queue
    ensures again { (w : World) → IsKept (image_at S.Start) w → IfOk result (λ b. StandsFor over_files b w) }
    ensures again_live { (w : World) → IsKept (image_at S.Start) w → IfOk result (λ b. IsHonest over_files b → IsTrue (shown_by over_files b).is_open) }
    ensures told { IfErr result IsOfStore }
{
    match found_at(rt, path)? {
        Found::Database | Found::Torn => {}
        Found::Nothing => return Err(Fault::Disk),
        Found::EmptyFile | Found::LogAlone | Found::Unfinished | Found::OtherFile => {
            return Err(Fault::Damaged);
        }
    }
    let book = TableBook::open_from(rt, path, start)?;
    Ok(book)
}

/// The book that a command was done over. Where the command was not done its files are given back as they are, without reading or writing: what a crash
/// leaves of them is what it leaves of the book.
pub(crate) fn left<D: Disk + Drop>(
    book: TableBook<FileStore<D>>,
    done: Result<(), Fault>,
) -> Result<TableBook<FileStore<D>>, (Fault, Files<D>)>
    ensures same { IfOk result (λ b. (b ≡ book) × IsOk done) }
    ensures done { IfOk done (λ nothing. IsOk result) }
    ensures refused { IfErr done (λ fault. IsErrAnd result (λ e. e.0 ≡ fault)) }
    ensures honest { IfErr result (λ e. AreClean D.Disk e.1.log e.1.db → IsHonest over_files book) }
    ensures crash { IfErr result (λ e. AreClean D.Disk e.1.log e.1.db → (v w : World) → LeavesOneOf v w (shown_by over_files book) → KeepOneOf D.Disk e.1 v w) }
{
    match done {
        Ok(()) => Ok(book),
        Err(fault) => Err((fault, book.into_files())),
    }
}

/// Closes the store of a command that was done, so that its file alone keeps all of it. Where that fails nothing is lost and nothing is told: the store
/// is given back, with what was done in its log.
pub(crate) fn close<D: Disk + Drop>(book: TableBook<FileStore<D>>) -> Closed<D>
    ensures honest { IfOk result (λ files. AreClean D.Disk files.log files.db → IsHonest over_files book) }
    ensures copied { IfOk result (λ files. AreClean D.Disk files.log files.db → (w : World) → StandsFor over_files book w → KeepAlone D.Disk files w) }
    ensures crash { IfErr result (LeavesNoMore (shown_by over_files book)) }
{
    match book.close_files() {
        Ok(files) => Ok(files),
        Err((_fault, store)) => Err(store),
    }
}

/// Lets go the files of a store that was closed, or the store that could not be: one function, since each that drops such costs the prover its parts.
pub(crate) fn let_go<D: Disk + Drop>(_closed: Closed<D>) {}
