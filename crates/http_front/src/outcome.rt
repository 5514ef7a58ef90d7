//! What serving a connection comes to, and each turn of it.
ghost use Rattle.std.specs.Prelude.{◌≡◌, false};
ghost use Rattle.http_front.specs.declared.outcome.ServeCause.TheVariants as causes;

use http_head::end::{End, Finish, Refusal};
use http_wire::fault::WriteFault;
use thiserror::Error;

/// What a connection came to.
#[derive(Clone, Copy, Debug, PartialEq, Eq)]
pub struct Served {
    /// How many requests were answered as an IPP message or as a line of the device, by a fault too.
    pub acted: u32,
    /// Bit k is set where request k, from 0, was answered by a fault: status code 0x0505, `refused 6 fault` or status 503.
    pub faults: u32,
    /// How it ended.
    pub end: End,
}

/// What stopped a connection.
#[derive(Clone, Copy, Debug, PartialEq, Eq, Error)]
pub enum ServeCause {
    /// A read failed.
    #[error("a read failed")]
    Read,
    /// A write failed.
    #[error("a write failed")]
    Write,
    /// The book failed inside a document whose head was written.
    #[error("the book failed inside a document")]
    Book,
}

/// A connection that was stopped.
#[derive(Clone, Copy, Debug, PartialEq, Eq, Error)]
#[error("{cause}")]
pub struct ServeFault {
    /// As in [`Served`], the request whose answer could not be written included.
    pub acted: u32,
    /// As in [`Served`], the request whose answer could not be written included.
    pub faults: u32,
    /// What stopped it.
    pub cause: ServeCause,
}

/// What is counted of a request.
#[derive(Clone, Copy)]
pub(crate) struct Tally {
    /// It was answered as an IPP message or as a line of the device.
    pub acted: bool,
    /// It was answered by a fault.
    pub is_fault: bool,
}

impl Tally {
    /// Nothing is counted: of a request that only reads, or of none.
    pub fn empty() -> Tally
        ensures acted { result.acted ≡ false }
        ensures is_fault { result.is_fault ≡ false }
    {
        Tally {
            acted: false,
            is_fault: false,
        }
    }
}

/// A turn that was stopped.
#[derive(Clone, Copy)]
pub(crate) struct Stopped {
    /// What is counted of its request.
    pub tally: Tally,
    /// What stopped it.
    pub cause: ServeCause,
}

impl Stopped {
    /// A turn that had not acted and met no fault was stopped.
    pub fn by(cause: ServeCause) -> Stopped
        ensures acted { result.tally.acted ≡ false }
        ensures is_fault { result.tally.is_fault ≡ false }
        ensures cause { result.cause ≡ cause }
    {
        Stopped {
            tally: Tally::empty(),
            cause,
        }
    }

    /// A write failed in a turn of which so much is counted.
    pub fn in_write(tally: Tally) -> Stopped
        ensures tally { result.tally ≡ tally }
        ensures cause { result.cause ≡ ServeCause.Write }
    {
        Stopped {
            tally,
            cause: ServeCause::Write,
        }
    }
}

/// A write failed in a turn that had not acted and met no fault.
impl From<WriteFault> for Stopped {
    ghost from_gives = { λ _ stopped. (stopped.tally.acted ≡ false) × (stopped.tally.is_fault ≡ false) × (stopped.cause ≡ causes.Write) };

    fn from(_fault: WriteFault) -> Stopped {
        Stopped::in_write(Tally::empty())
    }
}

/// Why the body of a request was not taken.
#[derive(Clone, Copy)]
pub(crate) enum Untaken {
    /// The connection ends so.
    Ended(Finish),
    /// The turn was stopped.
    Stopped(Stopped),
}

/// What became of a whole request.
#[derive(Clone, Copy)]
pub(crate) enum Replied {
    /// It was answered.
    Answered(Tally),
    /// Nothing was written yet, and this refusal is to be.
    Declined(Refusal),
}

/// What a turn came to.
#[derive(Clone, Copy)]
pub(crate) enum Turned {
    /// A request was answered.
    Answered {
        /// What is counted of it.
        tally: Tally,
        /// The connection ends after it.
        closes: bool,
    },
    /// The connection has ended.
    Ended(Finish),
}
