//! A body, however it is framed (RFC 9112, section 6).
ghost use Rattle.std.specs.Prelude.{◌≡◌, ◌≤◌, ℕ, List, false, length, IfErr, IfOk, IfSome};
ghost use Rattle.std.specs.Io.KnownBytes.{Consumes};
ghost use Rattle.http_wire.specs.Bodies.{EndsInBody, IsBody};
ghost use Rattle.http_head.specs.Framing.{is_chunked, size_of};
ghost use Rattle.http_head.specs.Limits.{content_limit};
ghost use Rattle.http_head.specs.Reads.{MakesNoRead, bytes_left, come, reads_left};
ghost use Rattle.http_wire.specs.Fault.{IfEnded};

use crate::body::take_body;
use crate::chunked::take_chunked;
use crate::fault::BodyFault;
use crate::respond::Invited;
use http_head::framing::Framing;
use http_head::input::Input;
use std::alloc::Global;
use std::io::Read;

/// Takes the body of a request whose client was told to send it, and answers its content, which has at most 16,777,216 bytes.
pub fn take_framed<R: Read>(
    alloc: Global,
    input: &mut Input<R>,
    invited: Invited,
) -> Result<Vec<u8>, BodyFault>
    requires { size_of invited ≤ content_limit }
    ensures taken { IfOk result (λ content. (raw : List ℕ) × IsBody invited raw content.items
        × Consumes (bytes_left R.Read input.old) (bytes_left R.Read input.new) raw) }
    ensures fits { IfOk result (λ content. length content.items ≤ content_limit) }
    ensures ended { IfErr result (λ f. IfEnded f (λ end. IfSome (bytes_left R.Read input.old) (λ bytes. EndsInBody invited bytes end))) }
    ensures never_more { reads_left input.new ≤ reads_left input.old }
    // where none is told, or as many bytes as its length tells have come, no read is made
    ensures unread { is_chunked invited ≡ false → size_of invited ≤ length (come input.old) → MakesNoRead input.old input.new }
{
    match invited.framing() {
        Framing::Nothing => Ok(Vec::new(alloc)),
        Framing::Sized(n) => take_body(alloc, input, n as usize),
        Framing::Chunked => take_chunked(alloc, input),
    }
}
