//! Why a server stops.
ghost use Rattle.std.specs.Prelude.{◌≡◌};
ghost use Rattle.print_server.specs.declared.fault.ServerFault.TheVariants as faults;

use queue_core::BookFault;
use std::io;
use thiserror::Error;

/// Why serving connections ended in an error.
#[derive(Debug, Drop, Error)]
pub enum ServerFault {
    /// No connection could be taken, the clock could not be read, or a line could not be written.
    #[error(transparent)]
    Io(io::Error),
    /// The book can't be read any more.
    #[error(transparent)]
    Book(BookFault),
}

impl From<io::Error> for ServerFault {
    ghost from_gives = { λ error fault. fault ≡ faults.Io error };

    fn from(error: io::Error) -> ServerFault {
        ServerFault::Io(error)
    }
}

impl From<BookFault> for ServerFault {
    ghost from_gives = { λ told fault. fault ≡ faults.Book told };

    fn from(told: BookFault) -> ServerFault {
        ServerFault::Book(told)
    }
}
