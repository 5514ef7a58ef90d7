//! A write that failed, and why a body is not there.
ghost use Rattle.std.specs.Prelude.{◌≡◌};
ghost use Rattle.http_wire.specs.declared.fault.BodyFault.TheVariants as faults;

use http_head::end::Finish;
use http_head::fault::ReadFault;
use std::alloc::AllocError;
use thiserror::Error;

/// A write failed.
#[derive(Clone, Copy, Debug, Error)]
#[error("a write failed")]
pub struct WriteFault;

/// Why a body, or a part of it, is not there.
#[derive(Clone, Copy, Debug, Error)]
pub enum BodyFault {
    /// The connection ends so: the input was cut inside of it, or it is refused.
    #[error("the connection ends")]
    Ended(Finish),
    /// A read failed.
    #[error("a read failed")]
    Read,
    /// Want of memory.
    #[error("there is no memory")]
    Memory,
}

impl From<ReadFault> for BodyFault {
    ghost from_gives = { λ _ fault. fault ≡ faults.Read };

    fn from(_fault: ReadFault) -> BodyFault {
        BodyFault::Read
    }
}

impl From<AllocError> for BodyFault {
    ghost from_gives = { λ _ fault. fault ≡ faults.Memory };

    fn from(_error: AllocError) -> BodyFault {
        BodyFault::Memory
    }
}
