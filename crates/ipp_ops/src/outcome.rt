//! The bytes of an answer.
ghost use Rattle.std.specs.Prelude.{◌≡◌};

use ipp_wire::BARE_OCTETS;
use queue_types::status::SERVER_ERROR_TEMPORARY_ERROR;
use thiserror::Error;

/// The bytes of an answer: a whole reply, or a bare one that took no memory.
#[derive(Debug, Drop)]
pub enum Answer {
    Whole(Vec<u8>),
    Bare([u8; BARE_OCTETS]),
}

impl Answer {
    ghost use Rattle.ipp_ops.specs.Answer.{bytes_of, is_fault};

    /// The bytes, to be sent as they are. It takes no memory.
    pub fn bytes(&self) -> &[u8]
        ensures { result.now ≡ bytes_of self.now }
    {
        match self {
            Answer::Whole(bytes) => bytes.as_slice(),
            Answer::Bare(bytes) => bytes,
        }
    }

    /// The answer is a fault: its status code is 0x0505, server-error-temporary-error. It takes no memory.
    pub fn is_fault(&self) -> bool
        ensures { result ≡ is_fault (bytes_of self.now) }
    {
        match self.bytes() {
            [_, _, high, low, ..] => {
                u16::from_be_bytes([*high, *low]) == SERVER_ERROR_TEMPORARY_ERROR
            }
            _ => false,
        }
    }
}

/// There are fewer than 8 bytes, too few for the head of a message.
#[derive(Clone, Copy, Debug, PartialEq, Eq, Error)]
#[error("there are fewer than 8 octets")]
pub struct TooShort;
