//! Tables in two files of a disk that stops.

use crate::desk::fault::{Books, StepFault};
use crate::desk::shelf::Shelf;
use crate::desk::step::Step;
use crate::desk::{Desk, Place};
use crate::shelves::disk::{Contents, Left, Remains, Stop, StoppingFile, is_one_spent};
use crate::shelves::store::{End, Source, run_in_files, take_in_file_store, unopened};
use queue_core::BookFault;
use queue_store::TableBook;
use queue_types::settings::Settings;
use sqlite::{Connection, Error, ErrorCode, FileStore, Files, Options};
use sqlite_disk::Disk;
use std::alloc::Global;

/// More calls than a file gets in the steps of a row.
const MOST_CALLS: u64 = 1_000_000;

/// A connection over two files, which are opened with these options. Files that can't be opened are given back.
fn open_in<D: Disk + Drop>(
    alloc: Global,
    files: Files<D>,
    options: Options,
) -> Result<Connection<FileStore<D>>, (BookFault, Files<D>)> {
    if !files.may_be_used() {
        return Err((BookFault::Disk, files));
    }
    match Connection::open_files(alloc, files, options) {
        Ok(conn) => Ok(conn),
        Err((error, left)) => Err((fault_of(error), left.into_files())),
    }
}

/// The source of a book in such files.
fn source_in<D: Disk + Drop>(
    alloc: Global,
    files: Files<D>,
    options: Options,
    settings: Option<Settings>,
) -> Result<Source<TableBook<FileStore<D>>, Connection<FileStore<D>>>, (BookFault, Files<D>)> {
    match open_in(alloc, files, options) {
        Ok(conn) => Ok(source_of(conn, settings)),
        Err(refused) => Err(refused),
    }
}

/// Why files can't be opened. What no disk that stops makes of them counts as damage.
fn fault_of(error: Error) -> BookFault {
    match error {
        Error::SqliteFailure(ErrorCode::OutOfMemory) => BookFault::Memory,
        Error::SqliteFailure(ErrorCode::SystemIoFailure) => BookFault::Disk,
        _ => BookFault::Damaged,
    }
}

/// Each step that changes the queue stands behind a look at it.
fn are_looked_at(steps: &[Step<'_>]) -> bool {
    let mut looked = false;
    for step in steps {
        let looks = step.only_looks();
        if !looks && !looked {
            return false;
        }
        looked = looks;
    }
    true
}

/// The steps from one on.
fn from<'a>(steps: &'a [Step<'a>], at: usize) -> &'a [Step<'a>] {
    &steps[at.min(steps.len())..]
}

/// A new book where settings of it are given, and else the one that the tables hold.
fn source_of<B, C>(conn: C, settings: Option<Settings>) -> Source<B, C> {
    match settings {
        Some(settings) => Source::New(conn, settings),
        None => Source::Tables(conn),
    }
}

/// `take_in_file_store` over two files that are opened with these options.
fn take_in_files(
    desk: &mut Desk,
    files: Files<StoppingFile>,
    options: Options,
    settings: Option<Settings>,
    steps: &[Step<'_>],
    last: &[Step<'_>],
) -> (Result<End, StepFault>, Files<StoppingFile>) {
    match source_in(desk.alloc(), files, options, settings) {
        Ok(source) => take_in_file_store(desk, source, steps, last),
        Err((fault, files)) => (unopened(fault), files),
    }
}

/// Steps over files of which one is spent have met the stop; over others each was well.
fn has_stopped(ended: End, is_spent: bool) -> Result<bool, StepFault> {
    match (is_spent, ended) {
        (true, _) => Ok(true),
        (false, End::Well) => Ok(false),
        (false, End::Unopened | End::Stopped | End::Answering) => Err(StepFault::NoStop),
    }
}

/// Books in tables in two files of a disk that stops: at each call of the log, and at each of the database file, until
/// the steps come to no further one. A book without first steps and statements is made on that disk, another is opened on it behind
/// them. The step that meets the stop, and the look behind it, tell a fault, or what is right. What is left then is
/// opened again, as it was written (as by a program that is killed) and as it was synced (as by a machine without
/// power), and goes on from the look before the step that met the stop or from the step behind it.
#[derive(Clone, Copy)]
pub(crate) struct Stopping<'a> {
    /// Statements that make the tables of the files in place of first steps; none if a book makes them.
    pub(crate) statements: &'a [&'a str],
    /// The pages that the log may have before it is copied into the database file.
    pub(crate) log_pages: usize,
    /// The pages that are kept in memory.
    pub(crate) cache_pages: usize,
    /// Steps behind those of a row, which only look at what came of them.
    pub(crate) last: &'a [Step<'a>],
}

impl Stopping<'_> {
    /// How the files are kept.
    fn options(self) -> Options {
        let mut options = Options::new(1);
        options.checkpoint_frames = self.log_pages;
        options.cache_pages = self.cache_pages;
        options
    }

    /// What the files of a new book hold behind the first steps.
    fn begin(self, desk: &mut Desk, first: &[Step<'_>]) -> Result<Contents, StepFault> {
        let (ended, files) = self.take_stopping(desk, None, Stop::Never, first)?;
        ended.well()?;
        Ok(Contents::of(desk.alloc(), &files)?)
    }

    /// The contents of the files after the statements made the tables.
    fn make(self, alloc: Global) -> Result<Contents, StepFault> {
        let files = Left::NOTHING.files(alloc, Stop::Never)?;
        match open_in(alloc, files, self.options()) {
            Ok(conn) => {
                let files = run_in_files(conn, self.statements)?;
                Ok(Contents::of(alloc, &files)?)
            }
            Err(_) => Err(StepFault::SettingUp),
        }
    }

    /// Steps and then the last ones are well over the book that a stop left.
    fn go_on(
        self,
        desk: &mut Desk,
        left: Left<'_>,
        place: Place,
        steps: &[Step<'_>],
    ) -> Result<(), StepFault> {
        desk.go_to(place);
        let (ended, _files) = self.take_left(desk, left, Stop::Never, None, steps, self.last)?;
        ended.well()
    }

    /// Takes steps and then others over the book in two files that hold this and may stop. It is a new one where settings
    /// are given.
    fn take_left(
        self,
        desk: &mut Desk,
        left: Left<'_>,
        stop: Stop,
        settings: Option<Settings>,
        steps: &[Step<'_>],
        last: &[Step<'_>],
    ) -> Result<(End, Files<StoppingFile>), StepFault> {
        let files = left.files(desk.alloc(), stop)?;
        let (ended, files) = take_in_files(desk, files, self.options(), settings, steps, last);
        Ok((ended?, files))
    }

    /// A stop left the book as it was before a step, or as that step makes it. What it was is told by the look before a step that changes it.
    fn compare_left(
        self,
        desk: &mut Desk,
        left: Left<'_>,
        place: Place,
        steps: &[Step<'_>],
        at: usize,
    ) -> Result<(), StepFault> {
        if !matches!(steps.get(at), Some(step) if !step.only_looks()) {
            return self.go_on(desk, left, place, from(steps, at));
        }
        let before = self.go_on(
            desk,
            left,
            place.before(),
            from(steps, at.saturating_sub(1)),
        );
        if before.is_ok() {
            return before;
        }
        self.go_on(desk, left, place.next(), from(steps, at.saturating_add(1)))
    }

    /// What is left of files that stopped behind some of the steps is well.
    fn compare_files(
        self,
        desk: &mut Desk,
        files: Files<StoppingFile>,
        begun: Place,
        steps: &[Step<'_>],
    ) -> Result<(), StepFault> {
        let remains = Remains::of(desk.alloc(), files)?;
        let place = desk.place();
        self.compare_remains(desk, &remains, place, steps, place.behind(begun))
    }

    /// What a stop at a step left is well, however much of it was synced.
    fn compare_remains(
        self,
        desk: &mut Desk,
        remains: &Remains,
        place: Place,
        steps: &[Step<'_>],
        at: usize,
    ) -> Result<(), StepFault> {
        for left in remains.each() {
            if let Some(left) = left {
                self.compare_left(desk, left, place, steps, at)?;
            }
        }
        Ok(())
    }

    /// Takes the steps over a new book, or one that files hold, with files that may stop.
    fn take_stopping(
        self,
        desk: &mut Desk,
        kept: Option<&Contents>,
        stop: Stop,
        steps: &[Step<'_>],
    ) -> Result<(End, Files<StoppingFile>), StepFault> {
        match kept {
            Some(contents) => {
                self.take_left(desk, contents.beside(contents), stop, None, steps, &[])
            }
            None => {
                let settings = desk.settings()?;
                self.take_left(desk, Left::NOTHING, stop, Some(settings), steps, &[])
            }
        }
    }

    /// Takes the steps with files that stop, and compares what is left of them with what it may be. Whether they
    /// stopped.
    fn stops(
        self,
        desk: &mut Desk,
        kept: Option<&Contents>,
        stop: Stop,
        steps: &[Step<'_>],
    ) -> Result<bool, StepFault> {
        let begun = desk.place();
        let (ended, mut files) = self.take_stopping(desk, kept, stop, steps)?;
        // a book that was not made has nothing to tell
        let is_none = kept.is_none() && ended == End::Unopened;
        if !has_stopped(ended, is_one_spent(&mut files))? {
            return Ok(false);
        }
        if !is_none {
            self.compare_files(desk, files, begun, steps)?;
        }
        Ok(true)
    }

    /// `stops`, where a difference tells the stop.
    fn stops_at(
        self,
        desk: &mut Desk,
        kept: Option<&Contents>,
        stop: Stop,
        steps: &[Step<'_>],
    ) -> Result<bool, StepFault> {
        match self.stops(desk, kept, stop, steps) {
            Ok(stopped) => Ok(stopped),
            Err(fault) => {
                let text = format!(in desk.alloc(); "{stop:?}: {fault:?}")?;
                Err(StepFault::AtStop(text))
            }
        }
    }

    /// Takes the steps once for each call of a file that may stop them.
    fn stop_at_each(
        self,
        desk: &mut Desk,
        kept: Option<&Contents>,
        stop: Stop,
        steps: &[Step<'_>],
    ) -> Result<(), StepFault> {
        let place = desk.place();
        for calls in 0..MOST_CALLS {
            desk.go_to(place);
            if !self.stops_at(desk, kept, stop.after(calls), steps)? {
                // each file is called as it is opened
                return if calls == 0 {
                    Err(StepFault::NoStop)
                } else {
                    Ok(())
                };
            }
        }
        Err(StepFault::NoEnd)
    }

    /// Takes the steps once for each call of each file that may stop them.
    fn stop_each_file(
        self,
        desk: &mut Desk,
        kept: Option<&Contents>,
        steps: &[Step<'_>],
    ) -> Result<(), StepFault> {
        let place = desk.place();
        self.stop_at_each(desk, kept, Stop::Log { calls: 0 }, steps)?;
        desk.go_to(place);
        self.stop_at_each(desk, kept, Stop::Database { calls: 0 }, steps)
    }

    /// The files as the steps begin, where their book is not a new one.
    fn kept(self, desk: &mut Desk, first: &[Step<'_>]) -> Result<Option<Contents>, StepFault> {
        if !self.statements.is_empty() {
            return Ok(Some(self.make(desk.alloc())?));
        }
        if first.is_empty() {
            return Ok(None);
        }
        Ok(Some(self.begin(desk, first)?))
    }
}

impl Shelf for Stopping<'_> {
    fn books(&self) -> Books {
        Books::TablesOnAStoppingDisk
    }

    fn take_steps(
        &self,
        desk: &mut Desk,
        first: &[Step<'_>],
        steps: &[Step<'_>],
    ) -> Result<(), StepFault> {
        if !are_looked_at(steps) {
            return Err(StepFault::NoLook);
        }
        let kept = self.kept(desk, first)?;
        self.stop_each_file(desk, kept.as_ref(), steps)
    }
}
