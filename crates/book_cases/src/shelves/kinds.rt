//! Where books of each kind come from.

use crate::desk::Desk;
use crate::desk::fault::{Books, StepFault};
use crate::desk::shelf::Shelf;
use crate::desk::step::Step;
use crate::shelves::store::{Source, take_both, take_in_file_store};
use list_book::ListBook;
use queue_store::TableBook;
use queue_types::settings::Settings;
use sqlite::{Connection, MemStore};
use sqlite_disk::Disk;
use sqlite_std_file::{FileFrom, Wary};
use sqlite_store::FileStore;
use std::alloc::{AllocError, Global};
use std::path::PathBuf;
use std::{env, fs, io, mem, process, slice};

/// Books in lists.
pub(crate) struct InLists;

impl Shelf for InLists {
    fn books(&self) -> Books {
        Books::Lists
    }

    fn take_steps(
        &self,
        desk: &mut Desk,
        first: &[Step<'_>],
        steps: &[Step<'_>],
    ) -> Result<(), StepFault> {
        let mut book = ListBook::new(desk.alloc(), desk.settings()?);
        take_both(desk, &mut book, first, steps)
    }
}

/// Books in tables in memory.
pub(crate) struct InTables;

impl Shelf for InTables {
    fn books(&self) -> Books {
        Books::Tables
    }

    fn take_steps(
        &self,
        desk: &mut Desk,
        first: &[Step<'_>],
        steps: &[Step<'_>],
    ) -> Result<(), StepFault> {
        let mut book = TableBook::in_memory(desk.alloc(), desk.settings()?)?;
        take_both(desk, &mut book, first, steps)
    }
}

/// Takes a step over tables in memory, which are adopted before it and closed behind it.
fn take_once(
    desk: &mut Desk,
    conn: &mut Connection<MemStore>,
    step: Step<'_>,
) -> Result<(), StepFault> {
    let empty = Connection::open_in_memory(desk.alloc())?;
    match TableBook::adopt(desk.alloc(), mem::replace(conn, empty)) {
        Ok(mut book) => {
            let taken = desk.take(&mut book, step);
            *conn = book.close();
            taken
        }
        Err((fault, _conn)) => Err(StepFault::Book(fault)),
    }
}

/// Takes steps over tables in memory that are adopted before each.
fn take_each_adopted(
    desk: &mut Desk,
    conn: &mut Connection<MemStore>,
    steps: &[Step<'_>],
) -> Result<(), StepFault> {
    for step in steps {
        take_once(desk, conn, *step)?;
    }
    Ok(())
}

/// Takes steps and then others over tables in memory that are adopted before each.
pub(crate) fn take_adopted(
    desk: &mut Desk,
    mut conn: Connection<MemStore>,
    first: &[Step<'_>],
    steps: &[Step<'_>],
) -> Result<(), StepFault> {
    take_each_adopted(desk, &mut conn, first)?;
    take_each_adopted(desk, &mut conn, steps)
}

/// Books in tables in memory that are closed and adopted before every step.
pub(crate) struct Adopted;

impl Shelf for Adopted {
    fn books(&self) -> Books {
        Books::AdoptedTables
    }

    fn take_steps(
        &self,
        desk: &mut Desk,
        first: &[Step<'_>],
        steps: &[Step<'_>],
    ) -> Result<(), StepFault> {
        let conn = TableBook::in_memory(desk.alloc(), desk.settings()?)?.close();
        take_adopted(desk, conn, first, steps)
    }
}

/// Where the files of a book lie.
pub(super) trait BookFiles {
    /// One of the files.
    type File: Disk + Drop;

    /// A new book with these settings, in new files.
    fn create(
        &self,
        alloc: Global,
        settings: Settings,
    ) -> Result<TableBook<FileStore<Self::File>>, StepFault>;

    /// The book that the files hold.
    fn open(&self, alloc: Global) -> Result<TableBook<FileStore<Self::File>>, StepFault>;
}

/// The files of a book in a folder for temporary files, which has nothing else.
#[derive(Drop)]
pub(super) struct InFolder<'a> {
    rt: &'a HostRuntime,
    folder: PathBuf,
}

impl<'a> InFolder<'a> {
    /// A folder that is called after a test and its process. It is not there yet.
    pub(super) fn new(rt: &'a HostRuntime, name: &str) -> io::Result<InFolder<'a>> {
        let name = format!(in rt.alloc(); "printd-books-{name}-{}", process::id(rt.process()))?;
        let folder = env::temp_dir(rt)?.join(rt.alloc(), name.as_str())?;
        Ok(InFolder { rt, folder })
    }

    /// The runtime of the test.
    pub(super) fn rt(&self) -> &'a HostRuntime {
        self.rt
    }

    /// Removes the folder with its files, where it is there.
    pub(super) fn remove(&self) {
        let _ = fs::remove_dir_all(self.rt, self.folder.as_path());
    }

    /// The folder, with nothing in it.
    fn empty(&self) -> Result<(), StepFault> {
        self.remove();
        match fs::create_dir(self.rt, self.folder.as_path()) {
            Ok(()) => Ok(()),
            Err(_error) => Err(StepFault::SettingUp),
        }
    }

    /// The path of the book.
    fn path(&self, alloc: Global) -> Result<PathBuf, AllocError> {
        self.folder.as_path().join(alloc, "queue")
    }
}

impl BookFiles for InFolder<'_> {
    type File = FileFrom<Wary>;

    fn create(
        &self,
        alloc: Global,
        settings: Settings,
    ) -> Result<TableBook<FileStore<Self::File>>, StepFault> {
        self.empty()?;
        let path = self.path(alloc)?;
        let book = TableBook::create_from(self.rt, path.as_str(), settings, Wary)?;
        Ok(book)
    }

    fn open(&self, alloc: Global) -> Result<TableBook<FileStore<Self::File>>, StepFault> {
        let path = self.path(alloc)?;
        let book = TableBook::open_from(self.rt, path.as_str(), Wary)?;
        Ok(book)
    }
}

/// Books in tables in files that are let go, without being closed, and opened again before every step.
#[derive(Drop)]
pub(super) struct InFile<F: BookFiles> {
    pub(super) files: F,
}

impl<F: BookFiles> InFile<F> {
    /// Makes a new book, whose files are let go at once.
    fn make(&self, desk: &Desk) -> Result<(), StepFault> {
        let book = self.files.create(desk.alloc(), desk.settings()?)?;
        let _files = book.into_files();
        Ok(())
    }

    /// Opens the book and takes a step over it. Its files are let go then.
    fn take_opened(&self, desk: &mut Desk, step: &Step<'_>) -> Result<(), StepFault> {
        let book = Source::Book(self.files.open(desk.alloc())?);
        let (ended, _files) = take_in_file_store(desk, book, slice::from_ref(step), &[]);
        ended?.well()
    }

    /// Takes steps over the book, which is opened before each.
    fn take_each_opened(&self, desk: &mut Desk, steps: &[Step<'_>]) -> Result<(), StepFault> {
        for step in steps {
            self.take_opened(desk, step)?;
        }
        Ok(())
    }
}

impl<F: BookFiles> Shelf for InFile<F> {
    fn books(&self) -> Books {
        Books::TablesInAFile
    }

    fn take_steps(
        &self,
        desk: &mut Desk,
        first: &[Step<'_>],
        steps: &[Step<'_>],
    ) -> Result<(), StepFault> {
        self.make(desk)?;
        self.take_each_opened(desk, first)?;
        self.take_each_opened(desk, steps)
    }
}
