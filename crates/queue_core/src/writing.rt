//! Bytes are written whole, by as many writes as it takes.
ghost use Rattle.std.specs.Prelude.{◌≤◌, IfErr, OnOk, length, take};
ghost use Rattle.std.specs.Io.KnownBytes.{Appends};

use crate::book::{SendCause, SendFault};
use std::io::{ErrorKind, Write};
use thiserror::Error;

/// Bytes that a writer did not take whole, and how many of them it took.
#[derive(Clone, Copy, Debug, PartialEq, Eq, Error)]
#[error("a write failed, after {written} octets")]
pub struct Unwritten {
    pub written: usize,
}

impl From<Unwritten> for SendFault {
    ghost use Rattle.std.specs.Prelude.{◌≡◌};
    ghost use Rattle.queue_core.specs.declared.book.SendCause.TheVariants.{Write};

    ghost from_gives = { λ front fault. (fault.written ≡ front.written) × (fault.cause ≡ Write) };

    fn from(front: Unwritten) -> SendFault {
        SendFault {
            written: front.written as u64,
            cause: SendCause::Write,
        }
    }
}

/// How often in a row a write that is interrupted is tried, before it has failed.
const MOST_TRIES: u32 = u32::MAX;

/// Writes once, and answers how many bytes were taken: none where the writer failed. A write that is interrupted is tried again.
fn put_once<W: Write>(out: &mut W, bytes: &[u8]) -> usize
    ensures within { result ≤ length bytes.now }
    ensures taken { Appends (W.contents out.old) (W.contents out.new) (take result bytes.now) }
{
    'tries: for _ in 0..MOST_TRIES {
        match out.write(bytes) {
            Ok(n) => return n,
            Err(error) if error.kind() == ErrorKind::Interrupted => {}
            Err(_) => return 0,
        }
    }
    0
}

/// Writes all the bytes, by as many writes as it takes. After an error, which is the writer's, a front of them was written.
pub fn put_whole<W: Write>(out: &mut W, bytes: &[u8]) -> Result<(), Unwritten>
    ensures ok { OnOk result (Appends (W.contents out.old) (W.contents out.new) bytes.now) }
    ensures err { IfErr result (λ f. (f.written ≤ length bytes.now) × Appends (W.contents out.old) (W.contents out.new) (take f.written bytes.now)) }
{
    let mut at = 0;
    'write: while at < bytes.len() {
        let n = put_once(out, &bytes[at..]);
        if n == 0 {
            return Err(Unwritten { written: at });
        }
        at += n;
    }
    Ok(())
}
