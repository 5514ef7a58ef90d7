//! Why an account file is refused.
ghost use Rattle.std.specs.Prelude.{◌≡◌};

use std::alloc::{AllocError, AllocFailed};
use thiserror::Error;

/// Why an account file is refused, by its number.
#[derive(Clone, Copy, Debug, PartialEq, Eq, Error)]
pub enum ImportCause {
    /// The first record isn't `batch,account,pages`.
    #[error("the header is not batch,account,pages")]
    Header = 1,
    /// A row isn't of the form.
    #[error("a row is not of the form")]
    Form = 2,
    /// Pages aren't 1 to 1,000,000, or, at row 0, the file is over 16,777,216 bytes.
    #[error("pages or the file are not within their limits")]
    Range = 3,
    /// The same batch and account were granted other pages.
    #[error("the account was granted other pages by the batch")]
    Conflict = 4,
    /// The account would have more than 1,000,000,000 pages granted.
    #[error("the account would have more than 1,000,000,000 pages granted")]
    TooMany = 5,
    /// Memory or the book refused.
    #[error("memory or the book refused")]
    Fault = 6,
}

impl ImportCause {
    ghost use Rattle.grants_csv.specs.Fault.{at_row, code_of};

    /// 1 to 6, in the order above.
    pub fn code(self) -> u8
        ensures { result ≡ code_of self }
    {
        self as u8
    }

    /// This cause at that row, or at 0 for the file.
    pub(crate) fn at(self, row: u32) -> ImportFault
        ensures { result ≡ at_row self row }
    {
        ImportFault { cause: self, row }
    }
}

/// Why an account file is refused, and the row that it is refused for: rows count from 1 after the
/// header, and 0 stands for the file.
#[derive(Clone, Copy, Debug, PartialEq, Eq, Error)]
#[error("row {row}: {cause}")]
pub struct ImportFault {
    /// Why.
    pub cause: ImportCause,
    /// For which row, or 0.
    pub row: u32,
}

impl ImportFault {
    pub(crate) const FAULT: ImportFault = ImportFault {
        cause: ImportCause::Fault,
        row: 0,
    };
}

impl From<AllocError> for ImportFault {
    ghost use Rattle.grants_csv.specs.Fault.{fault};

    ghost from_gives = { λ _ f. f ≡ fault };

    fn from(_: AllocError) -> ImportFault {
        ImportFault::FAULT
    }
}

impl<T: Drop> From<AllocFailed<T>> for ImportFault {
    ghost use Rattle.grants_csv.specs.Fault.{fault};

    ghost from_gives = { λ _ f. f ≡ fault };

    fn from(_: AllocFailed<T>) -> ImportFault {
        ImportFault::FAULT
    }
}
