//! A disk in memory that stops, and what a stop leaves of the two files on it.

use crate::desk::fault::StepFault;
use sqlite::Files;
use sqlite_disk::{Crash, Disk, Fuse, Memory};
use std::alloc::{AllocError, Global};

/// A file in memory that fails from a call on.
pub(super) type StoppingFile = Fuse<Memory>;

/// The file that fails, from which call on.
#[derive(Clone, Copy, Debug)]
pub(super) enum Stop {
    Never,
    Log { calls: u64 },
    Database { calls: u64 },
}

impl Stop {
    /// The same file fails after so many calls.
    pub(super) fn after(self, calls: u64) -> Stop {
        match self {
            Stop::Never => Stop::Never,
            Stop::Log { .. } => Stop::Log { calls },
            Stop::Database { .. } => Stop::Database { calls },
        }
    }

    /// How many calls the log takes.
    fn of_log(self) -> u64 {
        match self {
            Stop::Log { calls } => calls,
            Stop::Never | Stop::Database { .. } => u64::MAX,
        }
    }

    /// How many calls the database file takes.
    fn of_database(self) -> u64 {
        match self {
            Stop::Database { calls } => calls,
            Stop::Never | Stop::Log { .. } => u64::MAX,
        }
    }
}

/// What the two files hold.
#[derive(Drop)]
pub(super) struct Contents {
    log: Vec<u8>,
    database: Vec<u8>,
}

/// What a stop left of the two files.
#[derive(Clone, Copy)]
pub(super) struct Left<'a> {
    log: &'a [u8],
    database: &'a [u8],
}

/// A file that holds these bytes, and fails after so many calls.
fn file_of(alloc: Global, bytes: &[u8], calls: u64) -> Result<StoppingFile, StepFault> {
    let mut file = Memory::new(alloc);
    if file.write_at(0, bytes).is_err() || file.sync().is_err() {
        return Err(StepFault::Memory);
    }
    Ok(Fuse::new(file, calls))
}

/// No further call of the file is well.
fn is_spent(file: &mut StoppingFile) -> bool {
    !file.may_be_used() || file.len().is_err()
}

/// No further call of one of the files is well.
pub(super) fn is_one_spent(files: &mut Files<StoppingFile>) -> bool {
    is_spent(&mut files.log) || is_spent(&mut files.db)
}

impl Left<'_> {
    /// Two empty files.
    pub(super) const NOTHING: Left<'static> = Left {
        log: b"",
        database: b"",
    };

    /// Two files that hold this, and fail after so many calls.
    pub(super) fn files(self, alloc: Global, stop: Stop) -> Result<Files<StoppingFile>, StepFault> {
        let log = file_of(alloc, self.log, stop.of_log())?;
        let db = file_of(alloc, self.database, stop.of_database())?;
        Ok(Files { log, db })
    }
}

impl Contents {
    /// What two files hold, as they would be read.
    pub(super) fn of(alloc: Global, files: &Files<StoppingFile>) -> Result<Contents, AllocError> {
        Ok(Contents {
            log: Vec::from_slice(alloc, files.log.inner().bytes())?,
            database: Vec::from_slice(alloc, files.db.inner().bytes())?,
        })
    }

    /// The log of this, with a database file.
    pub(super) fn beside<'a>(&'a self, other: &'a Contents) -> Left<'a> {
        Left {
            log: self.log.as_slice(),
            database: other.database.as_slice(),
        }
    }
}

/// What a stop leaves: what was written by then, and what of that was synced.
#[derive(Drop)]
pub(super) struct Remains {
    written: Contents,
    synced: Contents,
}

impl Remains {
    /// What two files that stopped have left.
    pub(super) fn of(alloc: Global, mut files: Files<StoppingFile>) -> Result<Remains, AllocError> {
        let written = Contents::of(alloc, &files)?;
        files.log.crash();
        files.db.crash();
        let synced = Contents::of(alloc, &files)?;
        Ok(Remains { written, synced })
    }

    /// Each file may be left as it was written, or as it was synced. What is the same stands once.
    pub(super) fn each(&self) -> [Option<Left<'_>>; 4] {
        let logs_differ = self.written.log != self.synced.log;
        let databases_differ = self.written.database != self.synced.database;
        [
            Some(self.written.beside(&self.written)),
            logs_differ.then_some(self.synced.beside(&self.written)),
            databases_differ.then_some(self.written.beside(&self.synced)),
            (logs_differ && databases_differ).then_some(self.synced.beside(&self.synced)),
        ]
    }
}
