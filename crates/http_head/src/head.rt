//! The head of a request.
ghost use Rattle.std.specs.Prelude.{◌≡◌, ◌≤◌, ℕ, List, IfErr, IfOk};
ghost use Rattle.std.specs.Io.KnownBytes.{Keeps};
ghost use Rattle.http_head.specs.Reads.{bytes_left, come, reads_left};
ghost use Rattle.http_head.specs.Fault.{IsHeadFault};
ghost use Rattle.http_head.specs.Found.{IsHeadAt};
ghost use Rattle.httparse.specs.Grammar.{RequestHead, ReadsRequest};

use crate::end::{Finish, Refusal};
use crate::fault::HeadFault;
use crate::input::Input;
use crate::limits::{MOST_FIELDS, MOST_HEAD_BYTES};
use httparse::spans::{HeaderSpan, RequestSpans, parse_request};
use httparse::{Error, Status};
use std::io::Read;

/// Reads until a whole head stands at the front of the buffer, where it is left.
pub(crate) fn find_head<R: Read>(
    input: &mut Input<R>,
    headers: &mut [HeaderSpan; MOST_FIELDS],
) -> Result<RequestSpans, HeadFault>
    ensures kept { Keeps (bytes_left R.Read input.old) (bytes_left R.Read input.new) }
    ensures found { IfOk result (λ spans. (h : RequestHead) × IsHeadAt (come input.new) headers.new spans h) }
    ensures failed { IfErr result (IsHeadFault (bytes_left R.Read input.old)) }
    ensures never_more { reads_left input.new ≤ reads_left input.old }
    // where a head has come, nothing is read
    ensures unread { (h : RequestHead) (rest : List ℕ) → ReadsRequest (come input.old) h rest → input.new ≡ input.old }
{
    'fill: loop {
        match parse_request(input.bytes(), headers) {
            Ok(Status::Complete(spans)) => return Ok(spans),
            Ok(Status::Partial) => {}
            Err(Error::TooManyHeaders) => {
                return Err(HeadFault::Ended(Finish::Refused(Refusal::HeaderFieldsTooLarge)));
            }
            Err(_) => return Err(HeadFault::Ended(Finish::Refused(Refusal::BadRequest))),
        }
        if input.bytes().len() == MOST_HEAD_BYTES {
            return Err(HeadFault::Ended(Finish::Refused(Refusal::HeaderFieldsTooLarge)));
        }
        if input.fill()? == 0 {
            let end = if input.bytes().is_empty() {
                Finish::Closed
            } else {
                Finish::Cut
            };
            return Err(HeadFault::Ended(end));
        }
    }
}
