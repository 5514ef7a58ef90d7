//! The head of a request: its version and its operation.
ghost use Rattle.std.specs.Prelude.{◌≡◌};
ghost use Rattle.ipp_request.specs.Reading.{head_refusal, operation_in};

use ipp_reply::Operation;
use ipp_wire::{Head, is_known_version};
use queue_types::status;

/// The operation that a head asks for, or the code that refuses it.
pub(crate) fn operation_in(head: Head) -> Result<Operation, u16>
    ensures { result ≡ operation_in head }
{
    if !is_known_version(head) {
        return Err(status::SERVER_ERROR_VERSION_NOT_SUPPORTED);
    }
    Operation::from_id(head.code).ok_or(status::SERVER_ERROR_OPERATION_NOT_SUPPORTED)
}

/// What the head of a request alone refuses: 0x0503, where its major version isn't 1 or 2, or else
/// 0x0501, where its operation isn't supported (RFC 8011, appendix B). It takes no memory.
pub fn head_check(head: Head) -> Option<u16>
    ensures { result ≡ head_refusal head }
{
    operation_in(head).err()
}
