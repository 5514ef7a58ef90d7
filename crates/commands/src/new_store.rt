//! A new store at a path.
ghost use Rattle.std.specs.Prelude.{◌≡◌, ◌≢◌, ◌⊎◌, ℤ, Err, IfErr, IfOk, IsTrue, OnOk, false};
ghost use Rattle.sqlite.specs.Files.{over_files};
ghost use Rattle.sqlite_wal.specs.Files.{image_at};
ghost use Rattle.queue_types.specs.Settings.{AreSettings};
ghost use Rattle.queue_core.specs.World.{empty_queue};
ghost use Rattle.queue_store.specs.Closed.{KeepAlone};
ghost use Rattle.queue_store.specs.Kept.{IsHonest, StandsFor, shown_by};
ghost use Rattle.queue_store.specs.Opened.{HasNoTables};
ghost use Rattle.command_ends.specs.Faults.{IsOfStream};
ghost use Rattle.command_ends.specs.declared.fault.Fault.TheVariants.{BadSetting, Disk as OfDisk};
ghost use Rattle.commands.specs.Store as spec;
ghost use Rattle.commands.specs.Books.{IfClosed};
ghost use Rattle.commands.specs.Refusals.{IsOfInit};
ghost use Rattle.commands.specs.Store.{CanBeMade, IsOfStore, settings_of};

use crate::found::{Found, fault_of_path, found_at};
use crate::store::{Closed, FileBook, close, let_go};
use command_ends::Fault;
use command_words::Init;
use queue_store::TableBook;
use queue_types::operators::OperatorNames;
use queue_types::settings::Settings;
use sqlite_disk::Disk;
use sqlite_std_file::{FileFrom, Start};
use std::alloc::Global;
use std::fs::OpenOptions;
use std::io;
use std::os::unix::fs::OpenOptionsExt;
use std::rt::{Clock, HostRuntime};

/// The present second since 1970.
fn present_second<C: Clock>(clock: &C) -> io::Result<i64> {
    let second = clock.since_1970()?.as_secs();
    Ok(i64::try_from(second).unwrap_or(i64::MAX))
}

/// The settings of a new store, whose epoch is the present second.
fn new_settings<C: Clock>(alloc: Global, clock: &C, words: Init<'_>) -> Result<Settings, Fault>
    ensures ok { IfOk result (λ s. (epoch : ℤ) × (s ≡ settings_of words.entry epoch)) }
    ensures bad { IfErr result (λ f. f ≡ BadSetting → (epoch : ℤ) → ¬ AreSettings (settings_of words.entry epoch)) }
    ensures fits { IfOk result (λ s. (epoch : ℤ) → AreSettings (settings_of words.entry epoch)) }
    ensures told { IfErr result (λ f. IsOfStream f ⊎ (f ≡ BadSetting)) }
{
    let epoch = present_second(clock)?;
    let settings = Settings::new(
        alloc,
        words.uri,
        words.name,
        words.estimate,
        epoch,
        words.keep,
        OperatorNames::none(alloc),
    )?;
    Ok(settings)
}

/// Makes an empty file that its user alone may read and write, since it will hold what others print.
fn make_file(rt: &HostRuntime, path: &str) -> io::Result<()> {
    OpenOptions::new()
        .write(true)
        .create_new(true)
        .mode(0o600)
        .open(rt, path)?;
    Ok(())
}

/// SQLite takes the path for a file's name.
fn is_file_name(path: &str) -> bool
    ensures { result ≡ spec.is_file_name path.now }
{
    path != ":memory:" && !path.as_bytes().starts_with(b"file:")
}

/// Readies the path of a new store: makes its file where there is none, and refuses one that is no database by its first bytes, and a log that may have
/// pages beside no file or an empty one; what is in a database is looked at as it is opened. What is no file's name is refused before anything is looked at.
fn ready_path(rt: &HostRuntime, path: &str) -> Result<(), Fault>
    ensures named { IfOk result (λ nothing. IsTrue (spec.is_file_name path.now)) }
    ensures nameless { spec.is_file_name path.now ≡ false → result ≡ Err OfDisk }
    ensures told { IfErr result IsOfStore }
    ensures other { IfErr result (λ f. f ≢ BadSetting) }
{
    if !is_file_name(path) {
        return Err(Fault::Disk);
    }
    match found_at(rt, path)? {
        Found::Nothing => make_file(rt, path).map_err(fault_of_path),
        Found::EmptyFile | Found::Unfinished | Found::Database | Found::Torn => Ok(()),
        Found::LogAlone | Found::OtherFile => Err(Fault::Damaged),
    }
}

/// The settings of a new store, once its path is ready. A setting that is not within its limits makes no file.
fn ready(rt: &HostRuntime, words: Init<'_>) -> Result<Settings, Fault>
    ensures named { IfOk result (λ s. IsTrue (spec.is_file_name words.entry.store.now)) }
    ensures ok { IfOk result (λ s. (epoch : ℤ) × (s ≡ settings_of words.entry epoch)) }
    ensures bad { IfErr result (λ f. f ≡ BadSetting → (epoch : ℤ) → ¬ AreSettings (settings_of words.entry epoch)) }
    ensures fits { IfOk result (λ s. (epoch : ℤ) → AreSettings (settings_of words.entry epoch)) }
    ensures limits { IfErr result (λ f. (epoch : ℤ) → ¬ AreSettings (settings_of words.entry epoch) → (f ≡ BadSetting) ⊎ IsOfStream f) }
    ensures told { IfErr result IsOfInit }
{
    let settings = new_settings(rt.alloc(), rt, words)?;
    ready_path(rt, words.store)?;
    Ok(settings)
}

/// Makes a store with these settings, whose epoch is the present second, in files that hold no tables: it stands for the empty queue. A setting that
/// is not within its limits makes no file. Damaged is told where a store is there, a database in which a name of a queue's table is taken, a file that
/// is no database, or a log that may have pages beside no file or an empty one; Disk where another database is that isn't empty, or the path is no
/// file's name to SQLite. One whose making was cut short is made anew.
fn make_store<S: Start>(rt: &HostRuntime, words: Init<'_>, start: S) -> Result<FileBook<S>, Fault>
    ensures named { IfOk result (λ b. IsTrue (spec.is_file_name words.entry.store.now)) }
    ensures blank { IfOk result (λ b. IsHonest over_files b → HasNoTables (image_at S.Start)) }
    ensures made { IfOk result (λ b. (epoch : ℤ) × StandsFor over_files b (empty_queue (settings_of words.entry epoch))) }
    ensures live { IfOk result (λ b. IsHonest over_files b → IsTrue (shown_by over_files b).is_open) }
    ensures bad { IfErr result (λ f. f ≡ BadSetting → (epoch : ℤ) → ¬ AreSettings (settings_of words.entry epoch)) }
    ensures fits { IfOk result (λ b. (epoch : ℤ) → AreSettings (settings_of words.entry epoch)) }
    ensures limits { IfErr result (λ f. (epoch : ℤ) → ¬ AreSettings (settings_of words.entry epoch) → (f ≡ BadSetting) ⊎ IsOfStream f) }
    ensures told { IfErr result IsOfInit }
{
    let settings = ready(rt, words)?;
    let book = TableBook::create_from(rt, words.store, settings, start)?;
    Ok(book)
}

/// Makes a store as [`make_store`] does and closes it: its file alone keeps the empty queue. Where its log could not be copied the store is given back.
fn make_and_close<S: Start>(
    rt: &HostRuntime,
    words: Init<'_>,
    start: S,
) -> Result<Closed<FileFrom<S>>, Fault>
    ensures kept { IfClosed ⟦<FileFrom<S> as Disk>⟧ result (λ files. (epoch : ℤ) × KeepAlone ⟦<FileFrom<S> as Disk>⟧ files (empty_queue (settings_of words.entry epoch))) }
    ensures blank { IfClosed ⟦<FileFrom<S> as Disk>⟧ result (λ files. HasNoTables (image_at S.Start)) }
    ensures made { OnOk result (CanBeMade words.entry) }
    ensures told { IfErr result IsOfInit }
{
    let book = make_store(rt, words, start)?;
    Ok(close(book))
}

/// Makes a store as [`make_and_close`] does, and lets go the files or the store that it gives back.
pub(crate) fn make_and_let_go<S: Start>(
    rt: &HostRuntime,
    words: Init<'_>,
    start: S,
) -> Result<(), Fault>
    ensures made { OnOk result (CanBeMade words.entry) }
    ensures told { IfErr result IsOfInit }
{
    let closed = make_and_close(rt, words, start)?;
    let_go(closed);
    Ok(())
}
