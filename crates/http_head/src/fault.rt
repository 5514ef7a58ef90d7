//! A read that failed, and why there is no request head to answer.
ghost use Rattle.std.specs.Prelude.{◌≡◌};
ghost use Rattle.http_head.specs.declared.fault.HeadFault.TheVariants as faults;

use crate::end::{Finish, Refusal};
use thiserror::Error;

/// A read failed.
#[derive(Clone, Copy, Debug, Error)]
#[error("a read failed")]
pub struct ReadFault;

/// Why there is no request head to answer.
#[derive(Clone, Copy, Debug, Error)]
pub enum HeadFault {
    /// No head stands there, and the connection ends so.
    #[error("the connection ends")]
    Ended(Finish),
    /// A head stands there, and a check refuses it.
    #[error("a check refuses the request")]
    Refused(Refusal),
    /// A read failed.
    #[error("a read failed")]
    Read,
}

impl From<ReadFault> for HeadFault {
    ghost from_gives = { λ _ fault. fault ≡ faults.Read };

    fn from(_fault: ReadFault) -> HeadFault {
        HeadFault::Read
    }
}

impl From<Refusal> for HeadFault {
    ghost from_gives = { λ refusal fault. fault ≡ faults.Refused refusal };

    fn from(refusal: Refusal) -> HeadFault {
        HeadFault::Refused(refusal)
    }
}
