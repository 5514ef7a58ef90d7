//! Why a command is refused.
ghost use Rattle.std.specs.Prelude.{◌≡◌};
ghost use Rattle.command_ends.specs.Texts.{fault_text};
ghost use Rattle.command_ends.specs.declared.fault.Fault.TheVariants as faults;
ghost use Rattle.command_ends.specs.Faults.{fault_of_book, fault_of_names, fault_of_office, fault_of_replay, fault_of_setting};

use arrayvec::ArrayString;
use grants_csv::ImportFault;
use itoa::Buffer;
use office::OfficeFault;
use queue_core::BookFault;
use queue_types::operators::NameFault;
use queue_types::settings::SettingFault;
use std::alloc::AllocError;
use std::{error, fmt, io};

/// More bytes than the longest text of a fault has, that of a row of ten digits.
const TEXT_BYTES: usize = 48;

/// Why a command is refused.
#[derive(Debug, Clone, Copy, PartialEq, Eq)]
pub enum Fault {
    /// There was no memory.
    Memory,
    /// The disk, or its size, refused, the store is not there or in use, or its path is no file's name to SQLite; or where one is to be
    /// made, another database is there that isn't empty.
    Disk,
    /// The store does not stand for a queue, or is no database; or where one is to be made, one is there already, or a database in which a
    /// name of a queue's table is taken; or there is no file, or an empty one, beside a log that may have pages.
    Damaged,
    /// Nothing was ever granted to the account.
    NoAccount,
    /// The account file was refused.
    Import(ImportFault),
    /// A setting of the printer is not within its limits, or a name can't be that of an operator.
    BadSetting,
    /// A port, a file or a standard stream can't be opened, read or written, no connection can be taken, the clock can't be read, or a word is not UTF-8.
    Io,
}

impl Fault {
    /// Its text in the line that tells it. It takes no memory.
    pub(crate) fn text(self) -> ArrayString<TEXT_BYTES>
        ensures { result.bytes ≡ fault_text self }
    {
        let mut text = ArrayString::new();
        match self {
            Fault::Memory => text.push_str("memory"),
            Fault::Disk => text.push_str("disk"),
            Fault::Damaged => text.push_str("damaged"),
            Fault::NoAccount => text.push_str("no account"),
            Fault::Import(told) => {
                text.push_str("import fault ");
                text.push_str(Buffer::new().format(told.cause.code()));
                text.push_str(" at row ");
                text.push_str(Buffer::new().format(told.row));
            }
            Fault::BadSetting => text.push_str("bad setting"),
            Fault::Io => text.push_str("io"),
        }
        text
    }
}

impl fmt::Display for Fault {
    ghost use Rattle.std.specs.Prelude.{Some};

    ghost output = { λ fault. Some (fault_text fault) };

    fn fmt<W: fmt::Write>(&self, f: &mut fmt::Formatter<W>) -> fmt::Result {
        f.write_str(self.text().as_str())
    }
}

impl error::Error for Fault {}

impl From<AllocError> for Fault {
    ghost from_gives = { λ _ fault. fault ≡ faults.Memory };

    fn from(_error: AllocError) -> Fault {
        Fault::Memory
    }
}

impl From<BookFault> for Fault {
    ghost from_gives = { λ told fault. fault ≡ fault_of_book told };

    fn from(told: BookFault) -> Fault {
        match told {
            BookFault::Memory => Fault::Memory,
            BookFault::Disk => Fault::Disk,
            BookFault::Damaged => Fault::Damaged,
        }
    }
}

impl From<SettingFault> for Fault {
    ghost from_gives = { λ told fault. fault ≡ fault_of_setting told };

    fn from(told: SettingFault) -> Fault {
        match told {
            SettingFault::Bad => Fault::BadSetting,
            SettingFault::Memory => Fault::Memory,
        }
    }
}

impl From<NameFault> for Fault {
    ghost from_gives = { λ told fault. fault ≡ fault_of_names told };

    fn from(told: NameFault) -> Fault {
        match told {
            NameFault::TooMany | NameFault::Bad | NameFault::Twice => Fault::BadSetting,
            NameFault::Memory => Fault::Memory,
        }
    }
}

impl From<OfficeFault> for Fault {
    ghost from_gives = { λ told fault. fault ≡ fault_of_office told };

    fn from(told: OfficeFault) -> Fault {
        match told {
            OfficeFault::Memory => Fault::Memory,
            OfficeFault::Disk => Fault::Disk,
            OfficeFault::Damaged => Fault::Damaged,
            OfficeFault::NoAccount => Fault::NoAccount,
            OfficeFault::Import(told) => Fault::Import(told),
            OfficeFault::Io => Fault::Io,
        }
    }
}

impl From<replay::Fault> for Fault {
    ghost from_gives = { λ told fault. fault ≡ fault_of_replay told };

    fn from(told: replay::Fault) -> Fault {
        match told {
            replay::Fault::Memory => Fault::Memory,
            replay::Fault::Disk => Fault::Disk,
            replay::Fault::Io => Fault::Io,
        }
    }
}

impl From<io::Error> for Fault {
    ghost use Rattle.std.specs.IoError.{error_kind};
    ghost use Rattle.std.specs.Prelude.{◌↔◌};
    ghost use Rattle.std.specs.declared.io.ErrorKind.TheVariants.{OutOfMemory};
    ghost use Rattle.command_ends.specs.Faults.{IsOfStream};

    ghost from_gives = { λ error fault. IsOfStream fault × ((fault ≡ faults.Memory) ↔ (error_kind error ≡ OutOfMemory)) };

    fn from(error: io::Error) -> Fault {
        match error.kind() {
            io::ErrorKind::OutOfMemory => Fault::Memory,
            _ => Fault::Io,
        }
    }
}
