//! One request and its answer.
ghost use Rattle.std.specs.Prelude.{◌≡◌, ◌≢◌, ◌≤◌, ◌==◌, ◌||◌, ℕ, IfErr, IfOk, List, OnOk, length};
ghost use Rattle.std.specs.Io.KnownBytes.{Appends, Consumes};
ghost use Rattle.std.specs.Option.{ForSome};
ghost use Rattle.queue_core.specs.Limits.{IsMoment};
ghost use Rattle.http_head.specs.Framing.{size_of};
ghost use Rattle.http_head.specs.Reads.{bytes_left, reads_left};
ghost use Rattle.http_head.specs.Limits.{content_limit};
ghost use Rattle.http_head.specs.Routes.{routes};
ghost use Rattle.http_wire.specs.Bodies.{IsBody};
ghost use Rattle.http_wire.specs.Responses.{interim_response};
ghost use Rattle.http_front.specs.Books.{ComesTo};
ghost use Rattle.http_front.specs.Turns.{last_request};
ghost use Rattle.http_front.specs.FailedReads.{FailsToRead};
ghost use Rattle.http_front.specs.Framed.{IsTurnFramed};
ghost use Rattle.http_front.specs.Turned.{IsClosed, IsPlanned, IsTurnFaultless, IsTurned, IsUntaken, ClosesLast};

use crate::context::Context;
use crate::outcome::{Replied, ServeCause, Stopped, Tally, Turned, Untaken};
use crate::reply::{Request, reply};
use http_head::end::{Finish, Refusal};
use http_head::fault::HeadFault;
use http_head::input::Input;
use http_head::limits::MOST_REQUESTS;
use http_head::plan::Plan;
use http_head::receive::take_head;
use http_head::routes::Route;
use http_wire::fault::{BodyFault, WriteFault};
use http_wire::framed::take_framed;
use http_wire::respond::{send_continue, send_end};
use matchit::Router;
use queue_core::QueueBook;
use std::alloc::Global;
use std::io::{Read, Write};

/// The number, from 0, of the last request that a connection may have.
const LAST_REQUEST: u32 = MOST_REQUESTS - 1;

/// Writes what an end has for a response.
fn close_with<W: Write>(writer: &mut W, end: Finish) -> Result<Turned, Stopped>
    ensures closed { IsClosed end (W.contents writer.old) (W.contents writer.new) result }
    ensures no_read_failed { IfErr result (λ f. f.cause ≢ ServeCause.Read) }
{
    match send_end(writer, end) {
        Ok(()) => Ok(Turned::Ended(end)),
        Err(WriteFault) => Err(Stopped::in_write(Tally {
            acted: false,
            is_fault: end.is_unavailable(),
        })),
    }
}

/// A request's plan, and its number on the connection, from 0.
#[derive(Clone, Copy)]
struct NumberedPlan {
    plan: Plan,
    k: u32,
}

impl NumberedPlan {
    /// The connection ends after the request.
    fn closes_after(self) -> bool
        ensures { result ≡ (self.plan.closes || (self.k == last_request)) }
    {
        self.plan.closes() || self.k == LAST_REQUEST
    }
}

/// Takes the body of a request behind a head that passed the checks, once its client has the leave to send it. Where there is no memory for it the connection ends
/// with status 503.
fn take_content<R: Read, W: Write>(
    alloc: Global,
    input: &mut Input<R>,
    writer: &mut W,
    plan: Plan,
) -> Result<Vec<u8>, Untaken>
    requires { size_of plan.framing ≤ content_limit }
    ensures taken { IfOk result (λ content. (raw : List ℕ) × IsBody plan.framing raw content.items
        × Consumes (bytes_left R.Read input.old) (bytes_left R.Read input.new) raw) }
    ensures fits { IfOk result (λ content. length content.items ≤ content_limit) }
    ensures invited { OnOk result (Appends (W.contents writer.old) (W.contents writer.new) (interim_response plan)) }
    ensures untaken { IfErr result (IsUntaken plan (bytes_left R.Read input.old) (W.contents writer.old) (W.contents writer.new)) }
    ensures never_more { reads_left input.new ≤ reads_left input.old }
{
    let Ok(invited) = send_continue(writer, plan) else {
        return Err(Untaken::Stopped(Stopped::by(ServeCause::Write)));
    };
    match take_framed(alloc, input, invited) {
        Ok(content) => Ok(content),
        Err(BodyFault::Ended(end)) => Err(Untaken::Ended(end)),
        Err(BodyFault::Read) => Err(Untaken::Stopped(Stopped::by(ServeCause::Read))),
        Err(BodyFault::Memory) => Err(Untaken::Ended(Finish::Refused(Refusal::ServiceUnavailable))),
    }
}

/// Answers a request behind a head that passed the checks.
fn take_planned<R: Read, W: Write, B: QueueBook>(
    context: Context<'_>,
    input: &mut Input<R>,
    writer: &mut W,
    book: &mut B,
    numbered: NumberedPlan,
) -> Result<Turned, Stopped>
    requires moment { IsMoment context.now }
    requires size { size_of numbered.plan.framing ≤ content_limit }
    requires few { numbered.k ≤ last_request }
    ensures began { B.is_honest book.new → B.is_honest book.old }
    ensures planned { ComesTo B.QueueBook book.old book.new context.entry.settings.now (λ w u.
        IsPlanned (B.crash_leaves book.old) (B.crash_leaves book.new) context.entry.now numbered.k w u numbered.plan
        (bytes_left R.Read input.old) (bytes_left R.Read input.new)
        (W.contents writer.old) (W.contents writer.new) result) }
    ensures never_more { reads_left input.new ≤ reads_left input.old }
    ensures last { ClosesLast numbered.k result }
    // a read that fails behind a head comes behind the whole leave to send the body
    ensures invited { IfErr result (λ f. f.cause ≡ ServeCause.Read
        → Appends (W.contents writer.old) (W.contents writer.new) (interim_response numbered.plan)) }
    // what shuts a book is answered as a fault, or breaks a document off
    ensures live { B.is_honest book.new → B.is_live book.old → IsTurnFaultless result → B.is_live book.new }
    // over any book, also one that is not honest
    ensures framed { IfOk result (λ turned. IsTurnFramed (W.contents writer.old) (W.contents writer.new) turned) }
{
    let plan = numbered.plan;
    let content = match take_content(context.alloc, input, writer, plan) {
        Ok(content) => content,
        Err(Untaken::Ended(end)) => return close_with(writer, end),
        Err(Untaken::Stopped(stopped)) => return Err(stopped),
    };
    let closes = numbered.closes_after();
    let request = Request {
        target: plan.target(),
        content: content.as_slice(),
        closes,
    };
    match reply(context, writer, book, request) {
        Ok(Replied::Answered(tally)) => Ok(Turned::Answered { tally, closes }),
        Ok(Replied::Declined(refusal)) => close_with(writer, Finish::Refused(refusal)),
        Err(stopped) => Err(stopped),
    }
}

/// Takes and answers request k of a connection, from 0. Without a router, for want of memory, it can't.
pub(crate) fn turn<R: Read, W: Write, B: QueueBook>(
    context: Context<'_>,
    router: Option<&Router<Route>>,
    input: &mut Input<R>,
    writer: &mut W,
    book: &mut B,
    k: u32,
) -> Result<Turned, Stopped>
    requires router { ForSome router (λ r. r.now ≡ routes) }
    requires moment { IsMoment context.now }
    requires few { k ≤ last_request }
    ensures began { B.is_honest book.new → B.is_honest book.old }
    ensures turned { ComesTo B.QueueBook book.old book.new context.entry.settings.now (λ w u.
        IsTurned (B.crash_leaves book.old) (B.crash_leaves book.new) context.entry.now k w u
        (bytes_left R.Read input.old) (bytes_left R.Read input.new)
        (W.contents writer.old) (W.contents writer.new) result) }
    ensures never_more { reads_left input.new ≤ reads_left input.old }
    ensures last { ClosesLast k result }
    // a read that fails comes before a head is taken, or behind the whole leave to send the body
    ensures invited { IfErr result (λ f. f.cause ≡ ServeCause.Read
        → FailsToRead (bytes_left R.Read input.old) (bytes_left R.Read input.new) (W.contents writer.old) (W.contents writer.new)) }
    // what shuts a book is answered as a fault, or breaks a document off
    ensures live { B.is_honest book.new → B.is_live book.old → IsTurnFaultless result → B.is_live book.new }
    // over any book, also one that is not honest
    ensures framed { IfOk result (λ turned. IsTurnFramed (W.contents writer.old) (W.contents writer.new) turned) }
{
    let Some(router) = router else {
        return close_with(writer, Finish::Refused(Refusal::ServiceUnavailable));
    };
    match take_head(router, input) {
        Ok(plan) => take_planned(context, input, writer, book, NumberedPlan { plan, k }),
        Err(HeadFault::Ended(end)) => close_with(writer, end),
        Err(HeadFault::Refused(refusal)) => close_with(writer, Finish::Refused(refusal)),
        Err(HeadFault::Read) => Err(Stopped::by(ServeCause::Read)),
    }
}
