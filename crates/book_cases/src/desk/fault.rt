//! Why a row of a test is not well.

use ipp_ops::TooShort;
use queue_core::BookFault;
use queue_types::settings::SettingFault;
use std::alloc::{AllocError, AllocFailed};

/// Why a step is not well.
#[derive(Debug, Drop)]
pub(crate) enum StepFault {
    /// What came is not what was wanted: both.
    Differs(String),
    /// What a test needs can't be made: its folder, or its tables.
    SettingUp,
    /// The book could not do it.
    Book(BookFault),
    /// The book could not do it, and the answer is the one that tells this, and not why.
    Told,
    /// There was no memory.
    Memory,
    /// The printer's settings are not within their limits.
    Settings,
    /// The book can't set operators.
    NoOperators,
    /// A request is too long, or too short to be one.
    Request,
    /// There is no such document.
    NoDocument,
    /// What came of a disk that stops is not well.
    AtStop(String),
    /// A store that a fault shut for good answers.
    ShutAnswers,
    /// No call of the disk has failed, though a fault was told, or its first was to.
    NoStop,
    /// There is no look where one has to be, as before a step that a disk may stop.
    NoLook,
    /// A disk is called on and on.
    NoEnd,
}

impl StepFault {
    /// It may be what a disk that fails makes of a step.
    pub(crate) fn may_be_of_disk(&self) -> bool {
        matches!(self, StepFault::Book(BookFault::Disk) | StepFault::Told)
    }
}

impl From<AllocError> for StepFault {
    fn from(_error: AllocError) -> StepFault {
        StepFault::Memory
    }
}

impl<T: Drop> From<AllocFailed<T>> for StepFault {
    fn from(_error: AllocFailed<T>) -> StepFault {
        StepFault::Memory
    }
}

impl From<BookFault> for StepFault {
    fn from(fault: BookFault) -> StepFault {
        StepFault::Book(fault)
    }
}

impl From<SettingFault> for StepFault {
    fn from(fault: SettingFault) -> StepFault {
        match fault {
            SettingFault::Bad => StepFault::Settings,
            SettingFault::Memory => StepFault::Memory,
        }
    }
}

impl From<TooShort> for StepFault {
    fn from(_fault: TooShort) -> StepFault {
        StepFault::Request
    }
}

/// The books that rows are taken over.
#[derive(Clone, Copy, Debug)]
pub(crate) enum Books {
    /// Lists.
    Lists,
    /// Tables.
    Tables,
    /// Tables that are adopted.
    AdoptedTables,
    /// Tables in a file.
    TablesInAFile,
    /// Tables on a disk that stops.
    TablesOnAStoppingDisk,
    /// Tables whose next job has the last number.
    TablesAtTheLastNumber,
}

/// A step that is not well, by its book, its row and its number in the row, both from 0. The steps that a row begins
/// with are counted, too. On a stopping disk the pages of the log stand for the row's number.
#[derive(Debug, Drop)]
pub(crate) struct RowFault {
    pub(super) books: Books,
    pub(super) row: usize,
    pub(super) step: usize,
    pub(super) fault: StepFault,
}
