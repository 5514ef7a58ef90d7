//! Why a replay can't go on.
ghost use Rattle.std.specs.Prelude.{◌≡◌};
ghost use Rattle.replay.specs.declared.fault.Fault.TheVariants as faults;

use std::alloc::AllocError;
use std::io;
use thiserror::Error;

/// A fault that ends a replay. A fault of its book ends none: it is told in the answer to the line.
#[derive(Debug, Clone, Copy, PartialEq, Eq, Error)]
pub enum Fault {
    /// There was no memory.
    #[error("there is no memory")]
    Memory,
    /// The store that is to have the queue, or its size, refused.
    #[error("the disk refused")]
    Disk,
    /// A standard stream couldn't be read or written.
    #[error("a stream failed")]
    Io,
}

impl From<AllocError> for Fault {
    ghost from_gives = { λ _ fault. fault ≡ faults.Memory };

    fn from(_error: AllocError) -> Fault {
        Fault::Memory
    }
}

impl From<io::Error> for Fault {
    ghost use Rattle.std.specs.IoError.{error_kind};
    ghost use Rattle.std.specs.Prelude.{◌↔◌};
    ghost use Rattle.std.specs.declared.io.ErrorKind.TheVariants.{OutOfMemory};
    ghost use Rattle.replay.specs.Faults.{IsOfStream};

    ghost from_gives = { λ error fault. IsOfStream fault × ((fault ≡ faults.Memory) ↔ (error_kind error ≡ OutOfMemory)) };

    fn from(error: io::Error) -> Fault {
        match error.kind() {
            io::ErrorKind::OutOfMemory => Fault::Memory,
            _ => Fault::Io,
        }
    }
}
