//! Writing a document to whoever fetches it.
ghost use Rattle.std.specs.Prelude.{◌≡◌, ◌≤◌, IfOk, IfErr, length, take};
ghost use Rattle.std.specs.Io.KnownBytes.{Appends};
ghost use Rattle.queue_core.specs.declared.book.SendCause.TheVariants.{Write as ByWriter};

use queue_core::{SendFault, put_whole};
use std::io::Write;

/// Writes all the bytes, by as many writes as it takes, and says how many they are. After a fault a front
/// of them was written.
pub(crate) fn send<W: Write>(out: &mut W, bytes: &[u8]) -> Result<u64, SendFault>
    ensures sent { IfOk result (λ n. n ≡ length bytes.now) }
    ensures ok { IfOk result (λ n. Appends (W.contents out.old) (W.contents out.new) bytes.now) }
    ensures within { IfErr result (λ f. f.written ≤ length bytes.now) }
    ensures err { IfErr result (λ f. Appends (W.contents out.old) (W.contents out.new) (take f.written bytes.now)) }
    ensures cause { IfErr result (λ f. f.cause ≡ ByWriter) }
{
    put_whole(out, bytes)?;
    Ok(bytes.len() as u64)
}
