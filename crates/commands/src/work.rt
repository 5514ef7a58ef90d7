//! What a command does on the store that is at a path.
ghost use Rattle.std.specs.Prelude.{◌≡◌, ◌⊎◌, IfErr, IfNone, IfOk, IsSome, IsTrue, OnOk};
ghost use Rattle.sqlite.specs.Files.{over_files};
ghost use Rattle.sqlite_wal.specs.Files.{image_at};
ghost use Rattle.sqlite_wal.specs.Reads.{AreClean};
ghost use Rattle.queue_core.specs.World.{World};
ghost use Rattle.queue_store.specs.Crash.{IsKept};
ghost use Rattle.queue_store.specs.Kept.{IsHonest, StandsFor, shown_by};
ghost use Rattle.queue_store.specs.Opened.{FitsFile, IsKeptIn};
ghost use Rattle.command_ends.specs.Faults.{IsOfStream};
ghost use Rattle.commands.specs.Books.{IfClosed, IfGivenBack};
ghost use Rattle.commands.specs.Store.{IsOfStore};
ghost use Rattle.commands.specs.Printed.{Prints};
ghost use Rattle.commands.specs.Refusals.{MayBePrintedOf, MayBeToldOf};
ghost use Rattle.commands.specs.Work.{AreAny, AreIn, AreReadIn, HasEnded, IsBrief, IsDoneFrom, IsDoneOn, IsKeptFrom, IsRefusal, IsRefusedFrom, IsRefusedOver, store_of};

use crate::office_commands::{expire_in, import_into, print_from, set_operators_in};
use crate::serving::serve_book;
use crate::store::{Closed, FileBook, close, left, let_go, open_store};
use command_ends::Fault;
use command_words::{Expire, Import, Serve, Statement};
use office::read_account_file;
use print_server::listen;
use queue_store::TableBook;
use queue_types::operators::OperatorNames;
use sqlite::Alter;
use sqlite_disk::{Disk, Files};
use sqlite_std_file::{FileFrom, Start};
use sqlite_store::FileStore;
use std::alloc::Global;
use std::fs::File;
use std::io::{ErrorKind, Read, Write};
use std::net::TcpListener;
use std::rt::{Clock, HostRuntime};
use std::{fs, io};

/// The operators that a store is to have.
#[derive(Clone, Copy)]
pub(crate) struct NewOperators<'a> {
    /// The path of the store.
    pub(crate) store: &'a str,
    pub(crate) operators: &'a OperatorNames,
}

/// What a command does on a store that is there.
#[derive(Clone, Copy)]
pub(crate) enum Work<'a> {
    /// Takes an account file, whole or not at all, and prints `new N repeats M`.
    Import(Import<'a>),
    /// Prints the statement of an account.
    Statement(Statement<'a>),
    /// Ends the held and open jobs that have expired, all of them or none, and prints `expired N`.
    Expire(Expire<'a>),
    /// Sets the operators, and prints `operators N`.
    Operators(NewOperators<'a>),
    /// Listens on a port, prints `listening 127.0.0.1:P`, and serves connections.
    Serve(Serve<'a>),
}

/// What work opens beside its store: its account file and its port. What it has none of is a `NotFound` that nobody reads.
#[derive(Drop)]
struct Opened<F: Drop> {
    file: io::Result<F>,
    listener: io::Result<TcpListener>,
}

impl<'a> Work<'a> {
    /// The path of its store.
    fn store(self) -> &'a str
        ensures { result.now ≡ store_of self.entry }
    {
        match self {
            Work::Import(words) => words.store,
            Work::Statement(words) => words.store,
            Work::Expire(words) => words.store,
            Work::Operators(work) => work.store,
            Work::Serve(words) => words.store,
        }
    }

    /// Opens its account file or its port. That it is the file at the path, or the port of the words, no contract says.
    fn open(self, rt: &HostRuntime) -> Opened<File> {
        let mut opened = Opened {
            file: Err(ErrorKind::NotFound.into()),
            listener: Err(ErrorKind::NotFound.into()),
        };
        match self {
            Work::Import(words) => opened.file = fs::open(rt, words.file),
            Work::Statement(_) | Work::Expire(_) | Work::Operators(_) => {}
            Work::Serve(words) => opened.listener = listen(rt, words.port),
        }
        opened
    }
}

/// The bytes of an account file that was opened.
fn read_opened<F: Read + Drop>(alloc: Global, file: io::Result<F>) -> io::Result<Vec<u8>>
    ensures { IfOk result (λ bytes. AreReadIn F.remaining file bytes.items) }
{
    read_account_file(alloc, file?)
}

/// Does the work on a book, with the bytes of its account file or over its port.
fn work_on<C: Clock, S: Alter, W: Write>(
    alloc: Global,
    clock: &C,
    work: Work<'_>,
    opened: Opened<Vec<u8>>,
    output: &mut W,
    book: &mut TableBook<S>,
) -> Result<(), Fault>
    ensures { HasEnded S.Store (AreIn opened.file) work.entry book.old book.new (W.contents output.old) (W.contents output.new) result }
{
    let Opened { file, listener } = opened;
    match work {
        Work::Import(_) => import_into(alloc, clock, file, output, book),
        Work::Statement(words) => print_from(alloc, words.account, output, book),
        Work::Expire(_) => expire_in(clock, output, book),
        Work::Operators(work) => set_operators_in(work, output, book),
        Work::Serve(words) => serve_book(alloc, clock, words, listener, output, book),
    }
}

/// Does the work on a book in files.
fn work_in<C: Clock, D: Disk + Drop, W: Write>(
    alloc: Global,
    clock: &C,
    work: Work<'_>,
    opened: Opened<Vec<u8>>,
    output: &mut W,
    book: &mut TableBook<FileStore<D>>,
) -> Result<(), Fault>
    ensures { HasEnded over_files (AreIn opened.file) work.entry book.old book.new (W.contents output.old) (W.contents output.new) result }
{
    work_on(alloc, clock, work, opened, output, book)
}

/// Reads the account file, does the work on a book in files, and gives the book back, or the files of one on which it was not done.
fn work_over<C: Clock, F: Read + Drop, D: Disk + Drop, W: Write>(
    alloc: Global,
    clock: &C,
    work: Work<'_>,
    opened: Opened<F>,
    output: &mut W,
    mut book: TableBook<FileStore<D>>,
) -> Result<TableBook<FileStore<D>>, (Fault, Files<D>)>
    ensures done { IfOk result (λ b. IsHonest over_files b
        → IsDoneOn over_files (AreReadIn F.remaining opened.file) work.entry book b (W.contents output.old) (W.contents output.new)) }
    ensures printed { OnOk result (Prints work.entry (W.contents output.old) (W.contents output.new)) }
    ensures told { IfErr result (λ e. IsRefusal work.entry (W.contents output.old) (W.contents output.new) e.0) }
    ensures began { IfErr result (λ e. AreClean D.Disk e.1.log e.1.db → IsHonest over_files book) }
    ensures refused { IfErr result (λ e. AreClean D.Disk e.1.log e.1.db → IsTrue (shown_by over_files book).is_open → (w : World) → StandsFor over_files book w
        → IsRefusedFrom D.Disk (AreReadIn F.remaining opened.file) work.entry w e.1 (W.contents output.old) (W.contents output.new) e.0) }
{
    let Opened { file, listener } = opened;
    let file = read_opened(alloc, file);
    let opened = Opened { file, listener };
    let done = work_in(alloc, clock, work, opened, output, &mut book);
    left(book, done)
}

/// Opens the account file or the port of the work, does it on a book in files, and gives the book back, or the files of one on which it was not done.
fn work_opened<D: Disk + Drop, W: Write>(
    rt: &HostRuntime,
    work: Work<'_>,
    output: &mut W,
    book: TableBook<FileStore<D>>,
) -> Result<TableBook<FileStore<D>>, (Fault, Option<Files<D>>)>
    ensures done { IfOk result (λ b. IsHonest over_files b
        → IsDoneOn over_files AreAny work.entry book b (W.contents output.old) (W.contents output.new)) }
    ensures printed { OnOk result (Prints work.entry (W.contents output.old) (W.contents output.new)) }
    ensures told { IfErr result (λ e. IsRefusal work.entry (W.contents output.old) (W.contents output.new) e.0) }
    ensures given_back { IfErr result (λ e. IsSome e.1) }
    ensures refused { IfGivenBack D.Disk result (IsRefusedOver D.Disk work.entry book (W.contents output.old) (W.contents output.new)) }
{
    let opened = work.open(rt);
    match work_over(rt.alloc(), rt, work, opened, output, book) {
        Ok(book) => Ok(book),
        Err((fault, files)) => Err((fault, Some(files))),
    }
}

/// Does the work on the store that is at its path, and gives the book, which is not closed yet, or the files of one on which it was not done; there are
/// none where no store was opened. What is done on the open store is done by [`work_over`], which has memory, a clock, and no way to a file or a port but
/// the store and the account file or port that [`work_opened`] opens.
fn work_at<S: Start, W: Write>(
    rt: &HostRuntime,
    work: Work<'_>,
    output: &mut W,
    start: S,
) -> Result<FileBook<S>, (Fault, Option<Files<FileFrom<S>>>)>
    ensures done { FitsFile (image_at S.Start) → IfOk result (λ b. IsHonest over_files b
        → (w : World) × IsKeptIn (image_at S.Start) w
        × IsDoneFrom over_files work.entry w b (W.contents output.old) (W.contents output.new)) }
    // files that keep a queue, as a store leaves them: the work is done on that queue
    ensures again { (w : World) → IsKept (image_at S.Start) w → IfOk result (λ b. IsHonest over_files b
        → IsDoneFrom over_files work.entry w b (W.contents output.old) (W.contents output.new)) }
    // the store is open; of a server no contract says so, as a fault may have shut its store and the look at it behind that have had no memory
    ensures live { IfOk result (λ b. IsHonest over_files b → IsBrief work.entry → IsTrue (shown_by over_files b).is_open) }
    // over any store, also one that is not honest
    ensures printed { OnOk result (Prints work.entry (W.contents output.old) (W.contents output.new)) }
    // a stream failed or there was no memory, or nothing was printed; a server may have told of its port and of connections
    ensures quiet { IfErr result (λ e. IsOfStream e.0 ⊎ MayBePrintedOf work.entry (W.contents output.old) (W.contents output.new)) }
    ensures told { IfErr result (λ e. IsOfStore e.0 ⊎ MayBeToldOf work.entry e.0) }
    ensures unopened { IfErr result (λ e. IfNone e.1 (IsOfStore e.0 × (output.new ≡ output.old))) }
    // where it is refused on a store that was opened: what it left of the queue that the files kept
    ensures refused { FitsFile (image_at S.Start) → IfGivenBack ⟦<FileFrom<S> as Disk>⟧ result (λ fault files. (w : World) × IsKeptIn (image_at S.Start) w
        × IsRefusedFrom ⟦<FileFrom<S> as Disk>⟧ AreAny work.entry w files (W.contents output.old) (W.contents output.new) fault) }
    ensures refused_again { (w : World) → IsKept (image_at S.Start) w → IfGivenBack ⟦<FileFrom<S> as Disk>⟧ result (λ fault files.
        IsRefusedFrom ⟦<FileFrom<S> as Disk>⟧ AreAny work.entry w files (W.contents output.old) (W.contents output.new) fault) }
{
    match open_store(rt, work.store(), start) {
        Ok(book) => work_opened(rt, work, output, book),
        Err(fault) => Err((fault, None)),
    }
}

/// Does the work as [`work_at`] does, and closes the store: its file alone keeps the queue that the work made. Where its log could not be copied the
/// store is given back. The files of a refused command are let go.
fn work_and_close<S: Start, W: Write>(
    rt: &HostRuntime,
    work: Work<'_>,
    output: &mut W,
    start: S,
) -> Result<Closed<FileFrom<S>>, Fault>
    ensures kept { FitsFile (image_at S.Start) → IfClosed ⟦<FileFrom<S> as Disk>⟧ result (λ files. (w : World) × IsKeptIn (image_at S.Start) w
        × IsKeptFrom ⟦<FileFrom<S> as Disk>⟧ work.entry w files (W.contents output.old) (W.contents output.new)) }
    // files that keep a queue, as a store leaves them: the work is done on that queue
    ensures again { (w : World) → IsKept (image_at S.Start) w → IfClosed ⟦<FileFrom<S> as Disk>⟧ result (λ files.
        IsKeptFrom ⟦<FileFrom<S> as Disk>⟧ work.entry w files (W.contents output.old) (W.contents output.new)) }
    ensures printed { OnOk result (Prints work.entry (W.contents output.old) (W.contents output.new)) }
    ensures quiet { IfErr result (λ f. IsOfStream f ⊎ MayBePrintedOf work.entry (W.contents output.old) (W.contents output.new)) }
    ensures told { IfErr result (λ f. IsOfStore f ⊎ MayBeToldOf work.entry f) }
{
    match work_at(rt, work, output, start) {
        Ok(book) => Ok(close(book)),
        Err((fault, _left)) => Err(fault),
    }
}

/// Does the work as [`work_and_close`] does, and lets go the files or the store that it gives back.
pub(crate) fn work_and_let_go<S: Start, W: Write>(
    rt: &HostRuntime,
    work: Work<'_>,
    output: &mut W,
    start: S,
) -> Result<(), Fault>
    ensures printed { OnOk result (Prints work.entry (W.contents output.old) (W.contents output.new)) }
    ensures quiet { IfErr result (λ f. IsOfStream f ⊎ MayBePrintedOf work.entry (W.contents output.old) (W.contents output.new)) }
    ensures told { IfErr result (λ f. IsOfStore f ⊎ MayBeToldOf work.entry f) }
{
    let closed = work_and_close(rt, work, output, start)?;
    let_go(closed);
    Ok(())
}
