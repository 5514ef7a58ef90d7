//! A whole chunked body (RFC 9112, section 7.1): its content has at most 16,777,216 bytes, and as it stands in the stream it
//! has at most 67,108,864. No pass reads a byte once as many have come as the part that it looks for may have.
ghost use Rattle.std.specs.Prelude.{◌≡◌, ◌+◌, ◌<◌, ◌≤◌, ◌⊎◌, [], length, IfErr, IfOk, IfSome};
ghost use Rattle.std.specs.Bool.{OnTrue, OnFalse};
ghost use Rattle.http_wire.specs.ChunkEnds.{EndsInChunks};
ghost use Rattle.http_wire.specs.ChunkParts.{TakesChunked, TakesToLast};
ghost use Rattle.http_head.specs.Reads.{bytes_left, reads_left};
ghost use Rattle.http_head.specs.Limits.{content_limit, line_limit, raw_limit};
ghost use Rattle.http_wire.specs.Fault.{IfEnded};

use crate::chunk::{Line, bound_behind, take_chunk, take_line};
use crate::fault::BodyFault;
use crate::trailers::take_trailers;
use http_head::end::{Finish, Refusal};
use http_head::input::Input;
use http_head::limits::{
    MOST_CHUNK_LINE_BYTES, MOST_CONTENT_BYTES, MOST_RAW_BYTES, MOST_TRAILER_BYTES,
};
use std::alloc::Global;
use std::io::Read;

/// Behind so much content and so many raw bytes, the chunk of this line brings the content or the raw bytes past their limit.
fn is_too_large(content: usize, raw: usize, line: Line) -> bool
    requires content { content ≤ content_limit }
    requires raw { raw ≤ raw_limit }
    requires line { line.len ≤ line_limit }
    ensures over { OnTrue result ((content_limit < content + line.size) ⊎ (raw_limit < raw + line.len + line.size + 2)) }
    ensures fits { OnFalse result ((content + line.size ≤ content_limit) × (raw + line.len + line.size + 2 ≤ raw_limit)) }
{
    line.size > u64::from(MOST_CONTENT_BYTES) - content as u64
        || raw + line.len + line.size as usize + 2 > MOST_RAW_BYTES
}

/// Takes the chunks and the line of the last one, adds up their content, and answers how many bytes they have.
fn take_chunks<R: Read>(input: &mut Input<R>, content: &mut Vec<u8>) -> Result<usize, BodyFault>
    requires { content.old.items ≡ [] }
    ensures taken { IfOk result (λ raw. TakesToLast (bytes_left R.Read input.old) (bytes_left R.Read input.new) raw content.new.items) }
    ensures ended { IfErr result (λ f. IfEnded f (λ end. IfSome (bytes_left R.Read input.old) (λ bytes. EndsInChunks bytes end))) }
    ensures never_more { reads_left input.new ≤ reads_left input.old }
{
    let mut raw: usize = 0;
    'chunks: loop {
        let line = take_line(input, bound_behind(raw, MOST_CHUNK_LINE_BYTES))?;
        if line.size == 0 {
            return Ok(raw + line.len);
        }
        if is_too_large(content.len(), raw, line) {
            return Err(BodyFault::Ended(Finish::Refused(Refusal::ContentTooLarge)));
        }
        take_chunk(input, content, line.size as usize)?;
        raw += line.len + line.size as usize + 2;
    }
}

/// Takes a chunked body, and answers its content.
pub(crate) fn take_chunked<R: Read>(
    alloc: Global,
    input: &mut Input<R>,
) -> Result<Vec<u8>, BodyFault>
    ensures taken { IfOk result (λ content. TakesChunked (bytes_left R.Read input.old) (bytes_left R.Read input.new) content.items) }
    ensures fits { IfOk result (λ content. length content.items ≤ content_limit) }
    ensures ended { IfErr result (λ f. IfEnded f (λ end. IfSome (bytes_left R.Read input.old) (λ bytes. EndsInChunks bytes end))) }
    ensures never_more { reads_left input.new ≤ reads_left input.old }
{
    let mut content = Vec::new(alloc);
    let raw = take_chunks(input, &mut content)?;
    take_trailers(input, bound_behind(raw, MOST_TRAILER_BYTES))?;
    Ok(content)
}
