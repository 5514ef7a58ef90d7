//! The chunks of a chunked body: a chunk line, and the content and the CR LF behind it (RFC 9112, section 7.1).
ghost use Rattle.std.specs.Prelude.{◌≡◌, ◌+◌, ◌<◌, ◌≤◌, take, IfErr, IfOk, IfSome, OnOk};
ghost use Rattle.std.specs.Io.KnownBytes.{Consumes, Keeps};
ghost use Rattle.httparse.specs.Ascii.{crlf_bytes};
ghost use Rattle.httparse.specs.Grammar.{ChunkLine};
ghost use Rattle.httparse.specs.Spans.{IsChunkLineAt};
ghost use Rattle.http_wire.specs.ChunkEnds as ends;
ghost use Rattle.http_wire.specs.ChunkEnds.{EndsAtLine, EndsAtLineEnd, EndsInChunk};
ghost use Rattle.http_wire.specs.ChunkParts.{TakesChunk, TakesLine};
ghost use Rattle.http_head.specs.Reads.{bytes_left, come, reads_left};
ghost use Rattle.http_head.specs.Limits.{line_limit, raw_limit};
ghost use Rattle.http_wire.specs.LineEnds.{IsLineEndState};
ghost use Rattle.http_wire.specs.Fault.{IfEnded};

use crate::body::take_more;
use crate::fault::BodyFault;
use http_head::end::{Finish, Refusal};
use http_head::input::Input;
use http_head::limits::MOST_RAW_BYTES;
use httparse::{Status, parse_chunk_size};
use std::io::Read;

/// How many bytes a part of a body may have, and the refusal where it has no end within them.
#[derive(Clone, Copy)]
pub struct Bound {
    /// How many bytes.
    pub limit: usize,
    /// How it is refused where it has more.
    pub refusal: Refusal,
}

/// The bound of a part behind that many raw bytes of the body: its own limit, or what the raw limit leaves it.
pub(crate) fn bound_behind(raw: usize, limit: usize) -> Bound
    ensures value { result ≡ ends.bound_behind raw limit }
    ensures own { result.limit ≤ limit }
    ensures whole { raw ≤ raw_limit → raw + result.limit ≤ raw_limit }
{
    let room = MOST_RAW_BYTES.saturating_sub(raw);
    if room < limit {
        Bound {
            limit: room,
            refusal: Refusal::ContentTooLarge,
        }
    } else {
        Bound {
            limit,
            refusal: Refusal::BadRequest,
        }
    }
}

/// The first n bytes, or all of them.
#[tactic(auto, using(std::proofs::lemmas::List::take_min))]
pub(crate) fn front(bytes: &[u8], n: usize) -> &[u8]
    ensures { result.now ≡ take n bytes.now }
{
    &bytes[..n.min(bytes.len())]
}

/// A chunk line.
#[derive(Clone, Copy)]
pub(crate) struct Line {
    /// How many bytes it has.
    pub len: usize,
    /// The size of the chunk that it tells.
    pub size: u64,
}

/// Reads until a chunk line stands at the front of the buffer, where it is left.
fn find_line<R: Read>(input: &mut Input<R>, bound: Bound) -> Result<Line, BodyFault>
    requires { bound.limit ≤ line_limit }
    ensures kept { Keeps (bytes_left R.Read input.old) (bytes_left R.Read input.new) }
    ensures found { IfOk result (λ line. (l : ChunkLine) × IsChunkLineAt (come input.new) line.len line.size l × (line.len ≤ bound.limit)) }
    ensures ended { IfErr result (λ f. IfEnded f (λ end. IfSome (bytes_left R.Read input.old) (λ bytes. EndsAtLine bound bytes end))) }
    ensures never_more { reads_left input.new ≤ reads_left input.old }
{
    'fill: loop {
        match parse_chunk_size(front(input.bytes(), bound.limit)) {
            Ok(Status::Complete((len, size))) => return Ok(Line { len, size }),
            Ok(Status::Partial) => {}
            Err(_) => return Err(BodyFault::Ended(Finish::Refused(Refusal::BadRequest))),
        }
        if input.bytes().len() >= bound.limit {
            return Err(BodyFault::Ended(Finish::Refused(bound.refusal)));
        }
        if input.fill()? == 0 {
            return Err(BodyFault::Ended(Finish::Cut));
        }
    }
}

/// Takes a chunk line. No byte is read for it once `bound.limit` bytes have come, which is at most 1,024.
pub(crate) fn take_line<R: Read>(input: &mut Input<R>, bound: Bound) -> Result<Line, BodyFault>
    requires { bound.limit ≤ line_limit }
    ensures taken { IfOk result (λ line. TakesLine bound.limit (bytes_left R.Read input.old) (bytes_left R.Read input.new) line.len line.size) }
    ensures ended { IfErr result (λ f. IfEnded f (λ end. IfSome (bytes_left R.Read input.old) (λ bytes. EndsAtLine bound bytes end))) }
    ensures never_more { reads_left input.new ≤ reads_left input.old }
{
    let line = find_line(input, bound)?;
    input.take(line.len);
    Ok(line)
}

/// What bytes say of a CR LF at their front.
#[derive(Clone, Copy)]
pub(crate) enum LineEndState {
    /// One stands there.
    Whole,
    /// Bytes behind them may make it one.
    Open,
    /// None can.
    Wrong,
}

fn line_end_in(bytes: &[u8]) -> LineEndState
    ensures { IsLineEndState bytes.now result }
{
    match bytes {
        [] | [b'\r'] => LineEndState::Open,
        [b'\r', b'\n', ..] => LineEndState::Whole,
        _ => LineEndState::Wrong,
    }
}

/// Takes the CR LF behind a chunk's content.
fn take_line_end<R: Read>(input: &mut Input<R>) -> Result<(), BodyFault>
    ensures taken { OnOk result (Consumes (bytes_left R.Read input.old) (bytes_left R.Read input.new) crlf_bytes) }
    ensures ended { IfErr result (λ f. IfEnded f (λ end. IfSome (bytes_left R.Read input.old) (λ bytes. EndsAtLineEnd bytes end))) }
    ensures never_more { reads_left input.new ≤ reads_left input.old }
{
    'fill: loop {
        match line_end_in(input.bytes()) {
            LineEndState::Whole => {
                input.take(2);
                return Ok(());
            }
            LineEndState::Open => {}
            LineEndState::Wrong => return Err(BodyFault::Ended(Finish::Refused(
                Refusal::BadRequest,
            ))),
        }
        if input.fill()? == 0 {
            return Err(BodyFault::Ended(Finish::Cut));
        }
    }
}

/// Takes the content of a chunk, which it adds to that of the chunks before it, and the CR LF behind it.
pub(crate) fn take_chunk<R: Read>(
    input: &mut Input<R>,
    content: &mut Vec<u8>,
    size: usize,
) -> Result<(), BodyFault>
    ensures taken { OnOk result (TakesChunk size (bytes_left R.Read input.old) (bytes_left R.Read input.new) content.old.items content.new.items) }
    ensures ended { IfErr result (λ f. IfEnded f (λ end. IfSome (bytes_left R.Read input.old) (λ bytes. EndsInChunk size bytes end))) }
    ensures never_more { reads_left input.new ≤ reads_left input.old }
{
    take_more(input, content, size)?;
    take_line_end(input)
}
