//! One request, from its bytes to those of its answer.
ghost use Rattle.std.specs.Prelude.{◌≡◌, ◌<◌, ◌≤◌, ◌↔◌, None, Some, ℕ, false, true, length, IfErr, IfOk, IsErr, OnErr, OnOk};
ghost use Rattle.ipp_wire.specs.Message.{IsMessage, Spells, head_of};
ghost use Rattle.ipp_wire.specs.Viewed.{message_of};
ghost use Rattle.ipp_wire.specs.Bare.{bare};
ghost use Rattle.ipp_wire.specs.Fault.{IsMalformed};
ghost use Rattle.queue_types.specs.Event.{event_of};
ghost use Rattle.queue_types.specs.declared.event.Reply.TheVariants.{Refused};
ghost use Rattle.queue_core.specs.Crash.{Carries, Leaves};
ghost use Rattle.queue_core.specs.Limits.{IsEvent, IsMoment, IsSoundReply};
ghost use Rattle.queue_core.specs.Machine.{step as machine_step};
ghost use Rattle.queue_core.specs.World.{World};
ghost use Rattle.ipp_reply.specs.Unsupported.{CanList, Unsupported as Listed, unsupported_of};
ghost use Rattle.ipp_reply.specs.Wanted.{no_rows, rows_of};
ghost use Rattle.ipp_ops.specs.Answer.{Answers, AskedBy, BringsAnswer, BringsOutcome, BringsReply, Fails, IfFault, IfNoFault, IsAsk, IsBareAnswer, IsFaultless, IsReplyTo, IsRequestIn, IsVerdictOn, OnRefusal, SpellsUnlessFault, TellsFault, bytes_of, is_fault, refusal_to, reply_in};
ghost use Rattle.ipp_ops.specs.Verdict.{IsPassed, IsWithinLimits, ListsAttributes, ask_content, refused, verdict};
ghost use Rattle.ipp_request.specs.Reading.{head_refusal};

use crate::asking::ask;
use crate::law::one_verdict;
use crate::outcome::{Answer, TooShort};
use crate::verdict::Ask;
use ipp_reply::{Unsupported, Wanted, reply_message};
use ipp_request::head_check;
use ipp_wire::{BARE_OCTETS, Head, View, WireFault, head, put_fault, read, write};
use queue_core::{BookFault, QueueBook};
use queue_types::event::{Event, Reply};
use queue_types::settings::Settings;
use queue_types::status::{CLIENT_ERROR_BAD_REQUEST, SERVER_ERROR_TEMPORARY_ERROR};
use std::alloc::{AllocError, Global};

/// What a request is answered with, beside what it asks and the book.
#[derive(Clone, Copy)]
struct Context<'a> {
    alloc: Global,
    /// The request's.
    head: Head,
    settings: &'a Settings,
    /// The moment, 1 to 2,147,483,647.
    now: u32,
}

/// The bare reply with this code to a request of this head. It takes no memory.
fn bare_answer(head: Head, code: u16) -> Answer
    ensures { Spells (bare head code) (bytes_of result) }
{
    let mut out = [0; BARE_OCTETS];
    put_fault(&mut out, head, code);
    Answer::Bare(out)
}

/// The bytes of the message that is a reply.
#[tactic(auto, using(crate::proofs::Bytes::each_replies))]
fn reply_bytes(
    context: Context<'_>,
    reply: &Reply,
    wanted: &Wanted,
    unsupported: &Unsupported<'_>,
) -> Result<Vec<u8>, AllocError>
    requires sound { IsSoundReply reply.now }
    requires listed { CanList (unsupported_of unsupported.now) }
    ensures spelled { IfOk result (λ b. Spells (reply_in context.entry reply.now (rows_of wanted.now) (unsupported_of unsupported.now)) b.items) }
    ensures replies { IfOk result (λ b. IsReplyTo context.entry.head b.items) }
{
    let message = reply_message(
        context.alloc,
        reply,
        context.head,
        wanted,
        unsupported,
        context.settings,
        context.now,
    )?;
    write(&message)
}

/// The bytes of the reply that refuses a request. Want of memory for them is a fault, as of a book.
fn refusal_bytes(
    context: Context<'_>,
    code: u16,
    unsupported: &Unsupported<'_>,
) -> Result<Vec<u8>, BookFault>
    requires listed { CanList (unsupported_of unsupported.now) }
    ensures spelled { IfOk result (λ b. Spells (reply_in context.entry (Refused code) no_rows (unsupported_of unsupported.now)) b.items) }
    ensures replies { IfOk result (λ b. IsReplyTo context.entry.head b.items) }
{
    let wanted = Wanted::nothing(context.alloc);
    let bytes = reply_bytes(context, &Reply::Refused(code), &wanted, unsupported)?;
    Ok(bytes)
}

/// One step of the machine, or a fault and no change: the book is changed last, once the reply's bytes
/// are there.
fn take_step<B: QueueBook>(
    context: Context<'_>,
    book: &mut B,
    event: &Event<'_>,
    wanted: &Wanted,
    unsupported: &Unsupported<'_>,
) -> Result<Vec<u8>, BookFault>
    requires moment { IsMoment context.now }
    requires event { IsEvent (event_of event.now) }
    requires asked { IsAsk (event_of event.now) }
    requires listed { CanList (unsupported_of unsupported.now) }
    ensures began { B.is_honest book.new → B.is_honest book.old }
    ensures reply { B.is_honest book.new → IfOk result (λ b. (w : World) → B.stands book.old w
        → Spells (reply_in context.entry (machine_step w context.entry.now (event_of event.now)).reply (rows_of wanted.now) (unsupported_of unsupported.now)) b.items) }
    ensures replies { IfOk result (λ b. IsReplyTo context.entry.head b.items) }
    ensures world { B.is_honest book.new → IfOk result (λ b. (w : World) → B.stands book.old w
        → B.stands book.new (machine_step w context.entry.now (event_of event.now)).world) }
    ensures err { OnErr result ((w : World) → B.stands book.old w → B.stands book.new w) }
    ensures live { B.is_honest book.new → OnOk result (B.is_live book.new) }
    ensures crash { B.is_honest book.new → OnErr result ((w v : World) → B.stands book.old w → B.crash_leaves book.old w v
        → (x : World) × B.crash_leaves book.new w x × Leaves (λ e. e ≡ event_of event.now) (IsErr result) context.entry.now w v w x) }
{
    let decision = book.decide(context.now, event)?;
    let bytes = reply_bytes(context, &decision.reply, wanted, unsupported)?;
    book.apply(decision)?;
    Ok(bytes)
}

/// What a request is answered that asks this: the reply that refuses it, or one step of the machine; or a fault and no change.
fn answer_ask<B: QueueBook>(
    context: Context<'_>,
    book: &mut B,
    ask: Ask<'_>,
) -> Result<Vec<u8>, BookFault>
    requires moment { IsMoment context.now }
    requires limits { IsWithinLimits (ask_content ask) }
    requires listed { ListsAttributes (ask_content ask) }
    ensures began { B.is_honest book.new → B.is_honest book.old }
    ensures replies { IfOk result (λ b. IsReplyTo context.entry.head b.items) }
    ensures done { B.is_honest book.new → (w : World) → B.stands book.old w
        → (after : World) × BringsOutcome (ask_content ask.entry) context.entry w after result × B.stands book.new after
        × Carries (B.crash_leaves book.old) (B.crash_leaves book.new) (IsPassed (ask_content ask.entry)) (IsErr result) context.entry.now w after }
    ensures live { B.is_honest book.new → B.is_live book.old → OnOk result (B.is_live book.new) }
    // What the checks refuse, whatever the book is, which sees nothing of it.
    ensures checked { (code : ℕ) (u : Listed) → ask_content ask.entry ≡ refused code u
        → IfOk result (λ b. Spells (reply_in context.entry (Refused code) no_rows u) b.items) }
    ensures unseen { (code : ℕ) (u : Listed) → ask_content ask.entry ≡ refused code u → book.new ≡ book.old }
{
    match ask {
        Ask::Refused { code, unsupported } => refusal_bytes(context, code, &unsupported),
        Ask::Call {
            caller,
            call,
            wanted,
            unsupported,
        } => {
            let event = Event::Ask { caller, call };
            take_step(context, book, &event, &wanted, &unsupported)
        }
    }
}

/// What a request that was read is answered: the reply to it, or a fault and no change.
fn answer_message<B: QueueBook>(
    context: Context<'_>,
    book: &mut B,
    view: View<'_>,
) -> Result<Vec<u8>, BookFault>
    requires moment { IsMoment context.now }
    requires message { IsMessage (message_of view) }
    requires fits { length view.payload.now ≤ 16777216 }
    ensures began { B.is_honest book.new → B.is_honest book.old }
    ensures replies { IfOk result (λ b. IsReplyTo context.entry.head b.items) }
    ensures done { B.is_honest book.new → (w : World) → B.stands book.old w
        → (after : World) × BringsOutcome (verdict (message_of view.entry)) context.entry w after result × B.stands book.new after
        × Carries (B.crash_leaves book.old) (B.crash_leaves book.new) (IsPassed (verdict (message_of view.entry))) (IsErr result) context.entry.now w after }
    ensures live { B.is_honest book.new → B.is_live book.old → OnOk result (B.is_live book.new) }
    // What the checks refuse, whatever the book is, which sees nothing of it.
    ensures checked { (code : ℕ) (u : Listed) → verdict (message_of view.entry) ≡ refused code u
        → IfOk result (λ b. Spells (reply_in context.entry (Refused code) no_rows u) b.items) }
    ensures unseen { (code : ℕ) (u : Listed) → verdict (message_of view.entry) ≡ refused code u → book.new ≡ book.old }
{
    let ask = ask(context.alloc, &view)?;
    // What is asked borrows of the bytes alone: the groups that were read are let go before the reply is made.
    drop(view);
    answer_ask(context, book, ask)
}

/// The message that bytes with a head spell. What the head alone refuses, without memory, bytes that spell no message, and want of memory
/// are answered by a bare reply.
fn message_in<'a>(alloc: Global, head: Head, body: &'a [u8]) -> Result<View<'a>, Answer>
    requires head { head ≡ head_of body.now }
    requires long { 8 ≤ length body.now }
    ensures request { IfOk result (λ view. IsRequestIn body.now (message_of view)) }
    ensures bare { IfErr result (λ a. IsBareAnswer body.now (bytes_of a)) }
{
    if let Some(code) = head_check(head) {
        return Err(bare_answer(head, code));
    }
    match read(alloc, body) {
        Ok(view) => Ok(view),
        Err(WireFault::Malformed { .. }) => Err(bare_answer(head, CLIENT_ERROR_BAD_REQUEST)),
        Err(WireFault::Memory) => Err(bare_answer(head, SERVER_ERROR_TEMPORARY_ERROR)),
        Err(WireFault::Short) => unreachable!("its head was read"),
    }
}

/// What bytes with a head are answered.
fn answer_headed<B: QueueBook>(context: Context<'_>, book: &mut B, body: &[u8]) -> Answer
    requires moment { IsMoment context.now }
    requires fits { length body.now ≤ 16777216 }
    requires head { context.head ≡ head_of body.now }
    requires long { 8 ≤ length body.now }
    ensures began { B.is_honest book.new → B.is_honest book.old }
    ensures replies { IsReplyTo (head_of body.now) (bytes_of result) }
    ensures answered { B.is_honest book.new → (w : World) → B.stands book.old w
        → (after : World) × (context.entry.settings.now ≡ w.settings → BringsReply w context.entry.now body.now after (bytes_of result)) × B.stands book.new after
        × Carries (B.crash_leaves book.old) (B.crash_leaves book.new) (AskedBy body.now) (is_fault (bytes_of result) ≡ true) context.entry.now w after }
    ensures live { B.is_honest book.new → B.is_live book.old → is_fault (bytes_of result) ≡ false → B.is_live book.new }
    ensures checked { (code : ℕ) (u : Listed) → IsVerdictOn body.now (refused code u)
        → SpellsUnlessFault body.now (refusal_to (head_of body.now) code u context.entry.settings.now context.entry.now) (bytes_of result) }
    ensures unseen { (code : ℕ) (u : Listed) → IsVerdictOn body.now (refused code u) → book.new ≡ book.old }
{
    one_verdict();
    match message_in(context.alloc, context.head, body) {
        Ok(view) => match answer_message(context, book, view) {
            Ok(bytes) => Answer::Whole(bytes),
            Err(_) => bare_answer(context.head, SERVER_ERROR_TEMPORARY_ERROR),
        },
        Err(answer) => answer,
    }
}

/// Answers one request by its bytes, of which there are at most 16,777,216, at a moment from 1 to 2,147,483,647: it reads, asks, decides,
/// encodes the reply, and changes the book last. A fault in any of these, as want of memory, is answered
/// by the bare reply 0x0505 and changes nothing. What any check refuses never reaches the book, and what the head alone refuses is answered
/// without memory.
/// Under 8 bytes there is no head to reply to, and nothing happens. The settings have to be those of the book's queue:
/// with others, of what a call is answered nothing is promised but that it is a reply to its request (`replies`).
pub fn answer<B: QueueBook>(
    alloc: Global,
    book: &mut B,
    settings: &Settings,
    now: u32,
    body: &[u8],
) -> Result<Answer, TooShort>
    requires moment { IsMoment now }
    requires fits { length body.now ≤ 16777216 }
    ensures began { B.is_honest book.new → B.is_honest book.old }

    // Under 8 bytes.
    ensures short { IsErr result ↔ (length body.now < 8) }
    ensures err { OnErr result (book.new ≡ book.old) }

    // What is answered, and what becomes of the queue.
    ensures answered { B.is_honest book.new → IfNoFault result (λ out. (w : World) → B.stands book.old w → settings.now ≡ w.settings
        → (after : World) × Answers w now body.now after out × B.stands book.new after) }
    // A fault changes nothing, and the code 0x0505 stands for nothing else.
    ensures failed { B.is_honest book.new → IfFault result (λ out. (w : World) → B.stands book.old w → settings.now ≡ w.settings
        → Fails body.now out × B.stands book.new w) }
    // What shuts a book is answered as a fault.
    ensures live { B.is_honest book.new → B.is_live book.old → IsFaultless result → B.is_live book.new }
    // A refusal, whoever refuses, changes nothing.
    ensures refused { B.is_honest book.new → OnRefusal result ((w : World) → B.stands book.old w → settings.now ≡ w.settings → B.stands book.new w) }
    // A crash at any moment leaves what the request asks done, or not done; which of the two is open only behind a fault. This is the whole of it:
    // what is answered, failed and refused is read off it.
    ensures crash { B.is_honest book.new → (w : World) → B.stands book.old w
        → (after : World) × (settings.now ≡ w.settings → BringsAnswer w now body.now after result) × B.stands book.new after
        × Carries (B.crash_leaves book.old) (B.crash_leaves book.new) (AskedBy body.now) (TellsFault result) now w after }

    // These hold on any book, also on one that is not honest.
    ensures replies { IfOk result (λ a. IsReplyTo (head_of body.now) (bytes_of a)) }
    // What the verdict on the bytes refuses, by whichever check, is answered by that refusal or by a fault, and the book never sees it.
    ensures checked { (code : ℕ) (u : Listed) → IsVerdictOn body.now (refused code u)
        → IfOk result (λ a. SpellsUnlessFault body.now (refusal_to (head_of body.now) code u settings.now now) (bytes_of a)) }
    ensures unseen { (code : ℕ) (u : Listed) → IsVerdictOn body.now (refused code u) → book.new ≡ book.old }
    // Two such verdicts: on a head that is refused, before which no fault can come, and on bytes that spell no message.
    ensures head_refused { (code : ℕ) → head_refusal (head_of body.now) ≡ Some code → IfOk result (λ a. Spells (bare (head_of body.now) code) (bytes_of a)) }
    ensures malformed { head_refusal (head_of body.now) ≡ None → IsMalformed body.now
        → IfOk result (λ a. SpellsUnlessFault body.now (bare (head_of body.now) 0x0400) (bytes_of a)) }
{
    let Some(head) = head(body) else {
        return Err(TooShort);
    };
    let context = Context {
        alloc,
        head,
        settings,
        now,
    };
    Ok(answer_headed(context, book, body))
}
