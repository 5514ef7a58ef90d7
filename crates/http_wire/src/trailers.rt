//! The trailer section of a chunked body (RFC 9112, section 7.1.2). Its field lines are read past.
ghost use Rattle.std.specs.Prelude.{◌≤◌, IfErr, IfOk, IfSome, OnOk};
ghost use Rattle.std.specs.Io.KnownBytes.{Keeps};
ghost use Rattle.http_wire.specs.ChunkEnds.{EndsAtTrailers};
ghost use Rattle.http_wire.specs.ChunkParts.{AreTrailersAt, TakesTrailers};
ghost use Rattle.http_head.specs.Reads.{bytes_left, come, reads_left};
ghost use Rattle.http_head.specs.Limits.{trailer_limit};
ghost use Rattle.http_wire.specs.Fault.{IfEnded};

use crate::chunk::{Bound, front};
use crate::fault::BodyFault;
use http_head::end::{Finish, Refusal};
use http_head::input::Input;
use http_head::limits::MOST_FIELDS;
use httparse::Status;
use httparse::spans::{EMPTY_HEADER_SPAN, parse_headers};
use std::io::Read;

/// Reads until a trailer section stands at the front of the buffer, where it is left, and answers how many bytes it has.
fn find_trailers<R: Read>(input: &mut Input<R>, bound: Bound) -> Result<usize, BodyFault>
    requires { bound.limit ≤ trailer_limit }
    ensures kept { Keeps (bytes_left R.Read input.old) (bytes_left R.Read input.new) }
    ensures found { IfOk result (λ len. AreTrailersAt (come input.new) len × (len ≤ bound.limit)) }
    ensures ended { IfErr result (λ f. IfEnded f (λ end. IfSome (bytes_left R.Read input.old) (λ bytes. EndsAtTrailers bound bytes end))) }
    ensures never_more { reads_left input.new ≤ reads_left input.old }
{
    let mut headers = [EMPTY_HEADER_SPAN; MOST_FIELDS];
    'fill: loop {
        match parse_headers(front(input.bytes(), bound.limit), &mut headers) {
            Ok(Status::Complete((len, _))) => return Ok(len),
            Ok(Status::Partial) => {}
            Err(_) => return Err(BodyFault::Ended(Finish::Refused(Refusal::BadRequest))),
        }
        if input.bytes().len() >= bound.limit {
            return Err(BodyFault::Ended(Finish::Refused(bound.refusal)));
        }
        if input.fill()? == 0 {
            return Err(BodyFault::Ended(Finish::Cut));
        }
    }
}

/// Takes a trailer section. No byte is read for it once `bound.limit` bytes have come, which is at most 16,384.
pub(crate) fn take_trailers<R: Read>(input: &mut Input<R>, bound: Bound) -> Result<(), BodyFault>
    requires { bound.limit ≤ trailer_limit }
    ensures taken { OnOk result (TakesTrailers bound.limit (bytes_left R.Read input.old) (bytes_left R.Read input.new)) }
    ensures ended { IfErr result (λ f. IfEnded f (λ end. IfSome (bytes_left R.Read input.old) (λ bytes. EndsAtTrailers bound bytes end))) }
    ensures never_more { reads_left input.new ≤ reads_left input.old }
{
    let len = find_trailers(input, bound)?;
    input.take(len);
    Ok(())
}
