//! Why the office is not served.
ghost use Rattle.std.specs.Prelude.{◌≡◌};
ghost use Rattle.office.specs.declared.fault.OfficeFault.TheVariants as faults;
ghost use Rattle.office.specs.Faults.{fault_of_book};

use grants_csv::ImportFault;
use queue_core::BookFault;
use std::alloc::AllocError;
use std::io;
use thiserror::Error;

/// Why the office is not served.
#[derive(Debug, Clone, Copy, PartialEq, Eq, Error)]
pub enum OfficeFault {
    /// There was no memory.
    #[error("there is no memory")]
    Memory,
    /// The disk, or its size, refused.
    #[error("the disk refused")]
    Disk,
    /// The tables don't stand for a queue.
    #[error("the rows stand for no queue")]
    Damaged,
    /// Nothing was ever granted to the account.
    #[error("nothing was ever granted to the account")]
    NoAccount,
    /// The account file was refused.
    #[error(transparent)]
    Import(ImportFault),
    /// A file or a stream couldn't be read or written.
    #[error("a file or a stream failed")]
    Io,
}

impl From<AllocError> for OfficeFault {
    ghost from_gives = { λ _ fault. fault ≡ faults.Memory };

    fn from(_error: AllocError) -> OfficeFault {
        OfficeFault::Memory
    }
}

impl From<BookFault> for OfficeFault {
    ghost from_gives = { λ told fault. fault ≡ fault_of_book told };

    fn from(told: BookFault) -> OfficeFault {
        match told {
            BookFault::Memory => OfficeFault::Memory,
            BookFault::Disk => OfficeFault::Disk,
            BookFault::Damaged => OfficeFault::Damaged,
        }
    }
}

impl From<ImportFault> for OfficeFault {
    ghost from_gives = { λ told fault. fault ≡ faults.Import told };

    fn from(told: ImportFault) -> OfficeFault {
        OfficeFault::Import(told)
    }
}

impl From<io::Error> for OfficeFault {
    ghost use Rattle.std.specs.IoError.{error_kind};
    ghost use Rattle.std.specs.Prelude.{◌↔◌};
    ghost use Rattle.std.specs.declared.io.ErrorKind.TheVariants.{OutOfMemory};
    ghost use Rattle.office.specs.Faults.{IsOfStream};

    ghost from_gives = { λ error fault. IsOfStream fault × ((fault ≡ faults.Memory) ↔ (error_kind error ≡ OutOfMemory)) };

    fn from(error: io::Error) -> OfficeFault {
        match error.kind() {
            io::ErrorKind::OutOfMemory => OfficeFault::Memory,
            _ => OfficeFault::Io,
        }
    }
}
