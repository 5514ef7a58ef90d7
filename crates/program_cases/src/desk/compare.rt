//! What is told where a connection isn't served as it is to be. A comparison succeeds just where what it compares is the same.
ghost use Rattle.std.specs.Prelude.{◌≡◌, ◌↔◌, IsOk, IsTrue};

use http_front::{ServeFault, Served};
use queue_core::BookFault;
use queue_types::operators::NameFault;
use queue_types::settings::SettingFault;
use std::alloc::AllocError;
use std::{fmt, io};

/// How many bytes are told of those that differ.
const MOST_TOLD: usize = 80;

/// The front of some bytes. It is shown as ASCII with escapes.
#[derive(Clone, Copy)]
pub(crate) struct Told {
    bytes: [u8; MOST_TOLD],
    count: usize,
}

impl fmt::Debug for Told {
    fn fmt<W: fmt::Write>(&self, f: &mut fmt::Formatter<W>) -> fmt::Result {
        let front = self.bytes.as_slice().get(..self.count).unwrap_or(b"");
        write!(f, "\"{}\"", front.escape_ascii())
    }
}

/// What is compared with what it was to be.
#[derive(Clone, Copy, Debug)]
pub(crate) enum Subject {
    /// A queue in lists.
    Lists,
    /// A queue in tables.
    Tables,
    /// Commands, and the files that they leave.
    Files,
    /// A server, and what its clients get.
    Server,
    /// A replay, and what it writes.
    Replay,
}

/// Why a test fails. It borrows nothing: each `?` that passes on an error with a reference in it costs the prover more.
#[derive(Clone, Copy, Debug)]
pub(crate) enum Mismatch {
    /// There was no memory.
    Memory,
    /// A stream failed.
    Io(io::ErrorKind),
    /// The printer's settings are not within their limits.
    Settings,
    /// A book can't be made, or takes no grant.
    Book {
        subject: Subject,
    },
    /// Other bytes came than were wanted: the first place where they differ, and how both go on there.
    Bytes {
        subject: Subject,
        /// The most bytes of a read.
        most: usize,
        place: usize,
        wanted: Told,
        came: Told,
    },
    /// Another outcome came than was wanted.
    Outcome {
        subject: Subject,
        /// The most bytes of a read.
        most: usize,
        wanted: Result<Served, ServeFault>,
        came: Result<Served, ServeFault>,
    },
    /// What is said here isn't so.
    Not {
        subject: Subject,
        said: Told,
    },
}

/// What of a row wasn't well.
#[derive(Clone, Copy, Debug)]
pub(crate) struct Failed {
    /// The name of its row.
    pub(crate) row: Told,
    /// The number, from 0, of its step, its stream or the way in which it came.
    pub(crate) step: usize,
    pub(crate) why: Mismatch,
}

/// What is at this number in the row of this name was not well.
pub(crate) fn failed_at(row: &str, step: usize, why: Mismatch) -> Failed {
    Failed {
        row: told_from(row.as_bytes(), 0),
        step,
        why,
    }
}

impl From<AllocError> for Mismatch {
    fn from(_error: AllocError) -> Mismatch {
        Mismatch::Memory
    }
}

impl From<io::Error> for Mismatch {
    fn from(error: io::Error) -> Mismatch {
        Mismatch::Io(error.kind())
    }
}

impl From<SettingFault> for Mismatch {
    fn from(fault: SettingFault) -> Mismatch {
        match fault {
            SettingFault::Memory => Mismatch::Memory,
            SettingFault::Bad => Mismatch::Settings,
        }
    }
}

impl From<NameFault> for Mismatch {
    fn from(fault: NameFault) -> Mismatch {
        match fault {
            NameFault::Memory => Mismatch::Memory,
            NameFault::TooMany | NameFault::Bad | NameFault::Twice => Mismatch::Settings,
        }
    }
}

/// Where a comparison is made.
#[derive(Clone, Copy)]
pub(crate) struct Place {
    /// What is compared.
    pub(crate) subject: Subject,
    /// The most bytes of a read.
    pub(crate) most: usize,
}

/// How bytes go on from a place.
fn told_from(bytes: &[u8], place: usize) -> Told {
    let rest = bytes.get(place..).unwrap_or(b"");
    let count = rest.len().min(MOST_TOLD);
    let mut front = [0; MOST_TOLD];
    front[..count].copy_from_slice(&rest[..count]);
    Told {
        bytes: front,
        count,
    }
}

/// The first place where two texts differ.
fn first_difference(one: &[u8], other: &[u8]) -> usize {
    one.iter()
        .zip(other.iter())
        .position(|(a, b)| *a != *b)
        .unwrap_or(one.len().min(other.len()))
}

impl Place {
    /// These bytes came as they were wanted.
    pub(crate) fn same_bytes(&self, wanted: &[u8], came: &[u8]) -> Result<(), Mismatch>
        ensures { IsOk result ↔ (wanted.now ≡ came.now) }
    {
        if wanted == came {
            return Ok(());
        }
        let place = first_difference(wanted, came);
        Err(Mismatch::Bytes {
            subject: self.subject,
            most: self.most,
            place,
            wanted: told_from(wanted, place),
            came: told_from(came, place),
        })
    }

    /// A connection came to what it was to come to.
    pub(crate) fn same_outcome(
        &self,
        wanted: Result<Served, ServeFault>,
        came: Result<Served, ServeFault>,
    ) -> Result<(), Mismatch>
        ensures { IsOk result ↔ (wanted ≡ came) }
    {
        if wanted == came {
            return Ok(());
        }
        Err(Mismatch::Outcome {
            subject: self.subject,
            most: self.most,
            wanted,
            came,
        })
    }

    /// What is said is so.
    pub(crate) fn is_so(&self, is_so: bool, said: &str) -> Result<(), Mismatch>
        ensures { IsOk result ↔ IsTrue is_so }
    {
        if is_so { Ok(()) } else { Err(self.not(said)) }
    }

    /// What is said isn't so.
    pub(crate) fn not(&self, said: &str) -> Mismatch {
        Mismatch::Not {
            subject: self.subject,
            said: told_from(said.as_bytes(), 0),
        }
    }
}

/// The fault of a book that can't be made.
pub(crate) fn no_book(subject: Subject, fault: BookFault) -> Mismatch {
    match fault {
        BookFault::Memory => Mismatch::Memory,
        BookFault::Disk | BookFault::Damaged => Mismatch::Book { subject },
    }
}
