//! What a connection came to, and what its client still sends.
ghost use Rattle.std.specs.Prelude.{◌≡◌, ◌≢◌, ◌≤◌, ◌*◌, ◌↔◌, ℕ, List, length, IfErr, IfOk, IsTrue, false};
ghost use Rattle.std.specs.Io.KnownBytes.{Consumes};
ghost use Rattle.http_front.specs.Connections.{IsFaultless, acted_of};

use http_front::{End, ServeCause, ServeFault, Served};
use std::io::{ErrorKind, Read};

/// The most reads of what a client sends behind its last request.
const DRAIN_READS: u32 = 256;

/// The most bytes of such a read.
const DRAIN_BYTES: usize = 65_536;

/// How many requests of a connection acted, whether it ended or was broken off.
pub(crate) fn acted_of(served: Result<Served, ServeFault>) -> u32
    ensures { result ≡ acted_of served }
{
    match served {
        Ok(served) => served.acted,
        Err(fault) => fault.acted,
    }
}

/// The server has ended the connection, by what it wrote last or inside a document where the book failed, and its client may still be
/// sending.
pub(crate) fn is_ended_here(served: Result<Served, ServeFault>) -> bool
    ensures ended { IfOk served (λ s. IsTrue result ↔ ((s.end ≢ End.Closed) × (s.end ≢ End.Cut))) }
    ensures broken { IfErr served (λ fault. IsTrue result ↔ (fault.cause ≡ ServeCause.Book)) }
{
    match served {
        Ok(served) => match served.end {
            End::Done | End::Refused(_) => true,
            End::Closed | End::Cut => false,
        },
        Err(fault) => fault.cause == ServeCause::Book,
    }
}

/// A request of the connection was answered by a fault, or the book failed inside a document.
pub(crate) fn has_fault(served: Result<Served, ServeFault>) -> bool
    ensures { (result ≡ false) ↔ IsFaultless served }
{
    match served {
        Ok(served) => served.faults != 0,
        Err(fault) => fault.faults != 0 || fault.cause == ServeCause::Book,
    }
}

/// Reads past what a client still sends: to its end, to a read that fails, or through 256 reads of at most 65,536 bytes. A read that is
/// interrupted counts as one of them.
pub(crate) fn drain<R: Read>(reader: &mut R)
    ensures { (bytes : List ℕ) × Consumes (R.remaining reader.old) (R.remaining reader.new) bytes × (length bytes ≤ 256 * 65536) }
{
    let mut bytes = [0; DRAIN_BYTES];
    for _round in 0..DRAIN_READS {
        match reader.read(bytes.as_mut_slice()) {
            Ok(0) => return,
            Ok(_) => {}
            Err(error) if error.kind() == ErrorKind::Interrupted => {}
            Err(_) => return,
        }
    }
}
