//! The answer to one whole request.
ghost use Rattle.std.specs.Prelude.{◌≡◌, ◌≢◌, ◌≤◌, ℕ, List, length, IfErr, IfOk};
ghost use Rattle.std.specs.Io.KnownBytes.{Appends};
ghost use Rattle.queue_core.specs.Limits.{IsMoment};
ghost use Rattle.queue_core.specs.World.{World};
ghost use Rattle.http_front.specs.Books.{ComesTo};
ghost use Rattle.http_front.specs.Framed.{IsFramed};
ghost use Rattle.http_front.specs.Turned.{IsReplied, IsRepliedOver, IsReplyFaultless};
ghost use Rattle.http_head.specs.Limits.{content_limit};
ghost use Rattle.http_head.specs.declared.target.Target.TheVariants.{Ipp, Report, Queue, Document};
ghost use Rattle.http_wire.specs.Responses.{WritesFront, success_response};

use crate::context::Context;
use crate::outcome::{Replied, ServeCause, Stopped, Tally};
use device_lines::{queue_text, report};
use http_head::end::Refusal;
use http_head::target::Target;
use http_wire::fault::WriteFault;
use http_wire::respond::{send_head, send_success};
use ipp_ops::{TooShort, answer};
use queue_core::{QueueBook, SendCause};
use std::alloc::Global;
use std::io::Write;

/// The media type of an IPP message.
const IPP: &str = "application/ipp";

/// The media type of the device's lines.
const PLAIN_TEXT: &str = "text/plain";

/// A whole request.
#[derive(Clone, Copy)]
pub(crate) struct Request<'a> {
    pub target: Target,
    /// At most 16,777,216 bytes.
    pub content: &'a [u8],
    /// The connection ends after it.
    pub closes: bool,
}

/// Writes a whole answer, and tells what is counted of its request, also where writing it is broken off.
fn send<W: Write>(
    writer: &mut W,
    media_type: &str,
    content: &[u8],
    closes: bool,
    tally: Tally,
) -> Result<Replied, Stopped>
    requires { length media_type.now ≤ 64 }
    ensures ok { IfOk result (λ replied. (replied ≡ Replied.Answered tally)
        × Appends (W.contents writer.old) (W.contents writer.new) (success_response media_type.now content.now closes)) }
    ensures err { IfErr result (λ stopped. (stopped.tally ≡ tally)
        × WritesFront (W.contents writer.old) (W.contents writer.new) (success_response media_type.now content.now closes)) }
    ensures no_read_failed { IfErr result (λ f. f.cause ≢ ServeCause.Read) }
{
    match send_success(writer, media_type, content, closes) {
        Ok(()) => Ok(Replied::Answered(tally)),
        Err(WriteFault) => Err(Stopped::in_write(tally)),
    }
}

/// Answers an IPP message.
fn reply_ipp<W: Write, B: QueueBook>(
    context: Context<'_>,
    writer: &mut W,
    book: &mut B,
    content: &[u8],
    closes: bool,
) -> Result<Replied, Stopped>
    requires moment { IsMoment context.now }
    requires fits { length content.now ≤ content_limit }
    ensures began { B.is_honest book.new → B.is_honest book.old }
    ensures replied { ComesTo B.QueueBook book.old book.new context.entry.settings.now (λ w u.
        IsRepliedOver (B.crash_leaves book.old) (B.crash_leaves book.new) context.entry.now w u Ipp content.now closes
        (W.contents writer.old) (W.contents writer.new) result) }
    ensures live { B.is_honest book.new → B.is_live book.old → IsReplyFaultless result → B.is_live book.new }
    ensures no_read_failed { IfErr result (λ f. f.cause ≢ ServeCause.Read) }
    // over any book, also one that is not honest
    ensures framed { IfOk result (λ replied. IsFramed closes (W.contents writer.old) (W.contents writer.new) replied) }
{
    match answer(context.alloc, book, context.settings, context.now, content) {
        Err(TooShort) => Ok(Replied::Declined(Refusal::BadRequest)),
        Ok(a) => {
            let tally = Tally {
                acted: true,
                is_fault: a.is_fault(),
            };
            send(writer, IPP, a.bytes(), closes, tally)
        }
    }
}

/// Answers a line of the device.
fn reply_report<W: Write, B: QueueBook>(
    writer: &mut W,
    book: &mut B,
    now: u32,
    content: &[u8],
    closes: bool,
) -> Result<Replied, Stopped>
    requires moment { IsMoment now }
    ensures began { B.is_honest book.new → B.is_honest book.old }
    ensures replied { B.is_honest book.new → (w : World) → B.stands book.old w → (u : World) × B.stands book.new u
        × IsRepliedOver (B.crash_leaves book.old) (B.crash_leaves book.new) now w u Report content.now closes
        (W.contents writer.old) (W.contents writer.new) result }
    ensures live { B.is_honest book.new → B.is_live book.old → IsReplyFaultless result → B.is_live book.new }
    ensures no_read_failed { IfErr result (λ f. f.cause ≢ ServeCause.Read) }
    // over any book, also one that is not honest
    ensures framed { IfOk result (λ replied. IsFramed closes (W.contents writer.old) (W.contents writer.new) replied) }
{
    let answer = report(book, now, content);
    let tally = Tally {
        acted: true,
        is_fault: answer.is_fault(),
    };
    send(writer, PLAIN_TEXT, answer.bytes(), closes, tally)
}

/// Answers with the device's queue.
fn reply_queue<W: Write, B: QueueBook>(
    alloc: Global,
    writer: &mut W,
    book: &mut B,
    closes: bool,
) -> Result<Replied, Stopped>
    ensures began { B.is_honest book.new → B.is_honest book.old }
    ensures kept { (w : World) → B.stands book.old w → B.stands book.new w }
    ensures left { B.is_honest book.new → (v w : World) → B.crash_leaves book.old v w → B.crash_leaves book.new v w }
    ensures replied { B.is_honest book.new → (w : World) → B.stands book.old w → (now : ℕ) (content : List ℕ)
        → IsReplied now w w Queue content closes (W.contents writer.old) (W.contents writer.new) result }
    ensures live { B.is_honest book.new → B.is_live book.old → IsReplyFaultless result → B.is_live book.new }
    ensures no_read_failed { IfErr result (λ f. f.cause ≢ ServeCause.Read) }
    // over any book, also one that is not honest
    ensures framed { IfOk result (λ replied. IsFramed closes (W.contents writer.old) (W.contents writer.new) replied) }
{
    let Ok(jobs) = book.pending() else {
        return Ok(Replied::Declined(Refusal::ServiceUnavailable));
    };
    let Ok(text) = queue_text(alloc, jobs.as_slice()) else {
        return Ok(Replied::Declined(Refusal::ServiceUnavailable));
    };
    send(writer, PLAIN_TEXT, text.as_bytes(), closes, Tally::empty())
}

fn cause_of(cause: SendCause) -> ServeCause
    ensures book { result ≢ ServeCause.Book → cause ≡ SendCause.Write }
    ensures write { cause ≡ SendCause.Write → result ≡ ServeCause.Write }
    ensures no_read_failed { result ≢ ServeCause.Read }
{
    match cause {
        SendCause::Book(_) => ServeCause::Book,
        SendCause::Write => ServeCause::Write,
    }
}

/// Answers with a document: its head first, by its length, and then its bytes as the book gives them.
fn reply_document<W: Write, B: QueueBook>(
    writer: &mut W,
    book: &mut B,
    numbers: Option<(u32, u32)>,
    closes: bool,
) -> Result<Replied, Stopped>
    ensures began { B.is_honest book.new → B.is_honest book.old }
    ensures kept { (w : World) → B.stands book.old w → B.stands book.new w }
    ensures left { B.is_honest book.new → (v w : World) → B.crash_leaves book.old v w → B.crash_leaves book.new v w }
    ensures replied { B.is_honest book.new → (w : World) → B.stands book.old w → (now : ℕ) (content : List ℕ)
        → IsReplied now w w (Document numbers) content closes (W.contents writer.old) (W.contents writer.new) result }
    ensures live { B.is_honest book.new → B.is_live book.old → IsReplyFaultless result → B.is_live book.new }
    ensures no_read_failed { IfErr result (λ f. f.cause ≢ ServeCause.Read) }
    // over any book, also one that is not honest
    ensures framed { IfOk result (λ replied. IsFramed closes (W.contents writer.old) (W.contents writer.new) replied) }
{
    let Some((job, n)) = numbers else {
        return Ok(Replied::Declined(Refusal::NotFound));
    };
    let head = match book.document_head(job, n) {
        Ok(Some(head)) => head,
        Ok(None) => return Ok(Replied::Declined(Refusal::NotFound)),
        Err(_) => return Ok(Replied::Declined(Refusal::ServiceUnavailable)),
    };
    send_head(writer, head.format.name(), head.octets, closes)?;
    match book.send_document(job, n, writer) {
        Ok(sent) if sent == head.octets => Ok(Replied::Answered(Tally::empty())),
        // the length that the head tells isn't kept, as of a book that isn't honest
        Ok(_) => Err(Stopped::by(ServeCause::Book)),
        Err(fault) => Err(Stopped::by(cause_of(fault.cause))),
    }
}

/// Answers a whole request.
pub(crate) fn reply<W: Write, B: QueueBook>(
    context: Context<'_>,
    writer: &mut W,
    book: &mut B,
    request: Request<'_>,
) -> Result<Replied, Stopped>
    requires moment { IsMoment context.now }
    requires fits { length request.content.now ≤ content_limit }
    ensures began { B.is_honest book.new → B.is_honest book.old }
    ensures replied { ComesTo B.QueueBook book.old book.new context.entry.settings.now (λ w u.
        IsRepliedOver (B.crash_leaves book.old) (B.crash_leaves book.new) context.entry.now w u request.entry.target request.entry.content.now request.entry.closes
        (W.contents writer.old) (W.contents writer.new) result) }
    ensures live { B.is_honest book.new → B.is_live book.old → IsReplyFaultless result → B.is_live book.new }
    ensures no_read_failed { IfErr result (λ f. f.cause ≢ ServeCause.Read) }
    // over any book, also one that is not honest
    ensures framed { IfOk result (λ replied. IsFramed request.entry.closes (W.contents writer.old) (W.contents writer.new) replied) }
{
    match request.target {
        Target::Ipp => reply_ipp(context, writer, book, request.content, request.closes),
        Target::Report => reply_report(writer, book, context.now, request.content, request.closes),
        Target::Queue => reply_queue(context.alloc, writer, book, request.closes),
        Target::Document(numbers) => reply_document(writer, book, numbers, request.closes),
    }
}
