//! Why the tables can't be read or written.
ghost use Rattle.std.specs.Prelude.{◌≡◌};
ghost use Rattle.queue_tables.specs.Faults.{insert_fault, write_fault, form_fault};

use queue_core::BookFault;
use sqlite::{Constraint, Error, ErrorCode};
use std::alloc::{AllocError, AllocFailed};

/// Why the tables can't be read or written.
#[derive(Clone, Copy, Debug, PartialEq, Eq, thiserror::Error)]
pub enum Fault {
    /// There was no memory.
    #[error("there is no memory")]
    Memory,
    /// Any other error of a statement: of the disk, of a size, of rowids that are used up, of a transaction of the caller's that is under way,
    /// or of a statement that doesn't fit the tables that are there.
    #[error("the disk refused")]
    Disk,
    /// A value that was read has not the form of its column; a constraint refused a row that was written, as where another row of its key is
    /// there, or one is missing that it refers to; or the rows that are there are no queue's.
    #[error("the rows stand for no queue")]
    Damaged,
}

/// A query that was not run to its end.
impl From<Error> for Fault {
    ghost use Rattle.std.specs.Prelude.{◌≡◌};
    ghost use Rattle.queue_tables.specs.Faults.{read_fault};

    ghost from_gives = { λ e f. f ≡ read_fault e };

    fn from(error: Error) -> Fault {
        match error {
            Error::SqliteFailure(ErrorCode::OutOfMemory) => Fault::Memory,
            _ => Fault::Disk,
        }
    }
}

impl From<AllocError> for Fault {
    ghost use Rattle.std.specs.Prelude.{◌≡◌};
    ghost use Rattle.queue_tables.specs.declared.fault.Fault.TheVariants.{Memory};

    ghost from_gives = { λ _ f. f ≡ Memory };

    fn from(_: AllocError) -> Fault {
        Fault::Memory
    }
}

impl<T: Drop> From<AllocFailed<T>> for Fault {
    ghost use Rattle.std.specs.Prelude.{◌≡◌};
    ghost use Rattle.queue_tables.specs.declared.fault.Fault.TheVariants.{Memory};

    ghost from_gives = { λ _ f. f ≡ Memory };

    fn from(_: AllocFailed<T>) -> Fault {
        Fault::Memory
    }
}

impl From<Fault> for BookFault {
    ghost use Rattle.std.specs.Prelude.{◌≡◌};
    ghost use Rattle.queue_tables.specs.Faults.{told_as};

    ghost from_gives = { λ f b. b ≡ told_as f };

    fn from(fault: Fault) -> BookFault {
        match fault {
            Fault::Memory => BookFault::Memory,
            Fault::Disk => BookFault::Disk,
            Fault::Damaged => BookFault::Damaged,
        }
    }
}

/// A value that was read and has not the form of its column.
pub(crate) fn fault_of_value(error: Error) -> Fault
    ensures { result ≡ form_fault error }
{
    match error {
        Error::SqliteFailure(ErrorCode::OutOfMemory) => Fault::Memory,
        _ => Fault::Damaged,
    }
}

/// A statement that writes was refused: Damaged where a constraint refused a row, and else as a query's error is told.
pub(crate) fn fault_of_write(error: Error) -> Fault
    ensures { result ≡ write_fault error }
{
    match error {
        Error::SqliteFailure(ErrorCode::ConstraintViolation(_)) => Fault::Damaged,
        _ => Fault::from(error),
    }
}

/// An INSERT was refused of a row whose rowid the store chooses: Disk where that rowid is taken, since then they are used up, and
/// else as any statement that writes.
pub(crate) fn fault_of_insert(error: Error) -> Fault
    ensures { result ≡ insert_fault error }
{
    match error {
        Error::SqliteFailure(ErrorCode::ConstraintViolation(Constraint::PrimaryKey)) => Fault::Disk,
        _ => fault_of_write(error),
    }
}
