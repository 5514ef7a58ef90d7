//! Writing to the peer.
ghost use Rattle.std.specs.Prelude.{◌≤◌, ◌++◌, length, take, IfOk, OnOk, OnErr};
ghost use Rattle.std.specs.Io.KnownBytes.{Appends, Keeps};
ghost use Rattle.http_wire.specs.Responses.{WritesFront};

use crate::fault::WriteFault;
use http_head::limits::MOST_TRIES;
use std::io::{ErrorKind, Write};

/// Writes once, and answers how many bytes were taken. A write that is interrupted is tried again.
fn put_once<W: Write>(writer: &mut W, bytes: &[u8]) -> Result<usize, WriteFault>
    ensures within { IfOk result (λ n. n ≤ length bytes.now) }
    ensures ok { IfOk result (λ n. Appends (W.contents writer.old) (W.contents writer.new) (take n bytes.now)) }
    ensures err { OnErr result (Keeps (W.contents writer.old) (W.contents writer.new)) }
{
    'tries: for _ in 0..MOST_TRIES {
        match writer.write(bytes) {
            Ok(n) => return Ok(n),
            Err(error) if error.kind() == ErrorKind::Interrupted => {}
            Err(_) => return Err(WriteFault),
        }
    }
    Err(WriteFault)
}

/// Writes all the bytes, by as many writes as it takes. After a fault a front of them was written.
#[tactic(auto, using(crate::proofs::WriteLemmas::front_taken))]
pub(crate) fn put<W: Write>(writer: &mut W, bytes: &[u8]) -> Result<(), WriteFault>
    ensures ok { OnOk result (Appends (W.contents writer.old) (W.contents writer.new) bytes.now) }
    ensures err { OnErr result (WritesFront (W.contents writer.old) (W.contents writer.new) bytes.now) }
{
    let mut at = 0;
    'write: while at < bytes.len() {
        let n = put_once(writer, &bytes[at..])?;
        if n == 0 {
            return Err(WriteFault);
        }
        at += n;
    }
    Ok(())
}

/// Writes one text and then another.
#[tactic(auto, using(crate::proofs::WriteLemmas::front_part, crate::proofs::WriteLemmas::front_after, crate::proofs::WriteLemmas::both))]
pub(crate) fn put_both<W: Write>(
    writer: &mut W,
    first: &[u8],
    second: &[u8],
) -> Result<(), WriteFault>
    ensures ok { OnOk result (Appends (W.contents writer.old) (W.contents writer.new) (first.now ++ second.now)) }
    ensures err { OnErr result (WritesFront (W.contents writer.old) (W.contents writer.new) (first.now ++ second.now)) }
{
    put(writer, first)?;
    put(writer, second)
}
