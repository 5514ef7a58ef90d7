//! What the machine decides on the rows that an event needs.
ghost use Rattle.std.specs.Prelude.{◌≡◌, [], ◌<◌, ◌^◌, IfOk, IsNone, IsTrue, None, false, option_map};
ghost use Rattle.queue_core.specs.Balance.{AreAmounts};
ghost use Rattle.queue_types.specs.Event.{event_of, change_of, decision_of, document_of, new_job_of, call_of};
ghost use Rattle.queue_core.specs.Limits.{IsMoment, IsEvent, IsCall, IsNewJob, IsFair, IsReplyTo, IsSoundChange};
ghost use Rattle.queue_core.specs.Machine.{answered, decision, new_job, entered as entered_row, new_refusal, print_job_row, create_job_row, validate_job_row, printer_row, printer_state, call_row, is_on_own, step};
ghost use Rattle.queue_core.specs.Runs.{MovesAlong};
ghost use Rattle.queue_core.specs.Sound.{IsSound, Balances};
ghost use Rattle.queue_core.specs.World.{World, cut, made_on};
ghost use Rattle.queue_types.specs.declared.event.Reply.TheVariants.{Jobs};

use crate::decision::{answer_only, change_job, one_job, refuse};
use crate::expiry::expire;
use crate::grants::grant;
use crate::my_jobs::{cancel_all, cancel_named};
use crate::own_job::{Sent, cancel, count_of, document_in, hold, own, release, send, show};
use crate::reports::report;
use queue_types::document::Format;
use queue_types::event::{Call, Decision, Event, NewDocument, NewJob, QueueCounts, Reply, Scene};
use queue_types::job::{Job, Phase};
use queue_types::limits::{LAST_JOB_NUMBER, MOST_LIVE_JOBS};
use queue_types::states::PrinterState;
use queue_types::status::{
    CLIENT_ERROR_NOT_FOUND, CLIENT_ERROR_NOT_POSSIBLE, SERVER_ERROR_NOT_ACCEPTING_JOBS,
};
use queue_types::text::Text;
use std::alloc::{AllocError, Global};

/// The code that refuses a new job of the caller, where there is one.
fn refusal_of_new(scene: &Scene) -> Option<u16>
    ensures code { result ≡ new_refusal scene.now }
    ensures room { IsNone result → scene.now.next < 2 ^ 31 }
{
    if scene.live >= MOST_LIVE_JOBS {
        return Some(CLIENT_ERROR_NOT_POSSIBLE);
    }
    if scene.next > LAST_JOB_NUMBER {
        return Some(SERVER_ERROR_NOT_ACCEPTING_JOBS);
    }
    None
}

/// What a caller's call is answered with.
#[derive(Clone, Copy)]
struct CallContext<'s> {
    /// Where memory is taken.
    alloc: Global,
    /// The rows that the call needs.
    scene: &'s Scene,
    /// The moment, from 1 to 2,147,483,647.
    now: u32,
    /// The requesting user name.
    caller: &'s str,
}

/// The new job that the caller asks for, under the scene's next number. It takes no more documents.
fn made_job(context: CallContext<'_>, asked: &NewJob<'_>, payload: &[u8]) -> Result<Job, AllocError>
    ensures { IfOk result (λ k. k ≡ new_job context.entry.scene.now context.entry.now context.entry.caller.now false (new_job_of asked.now) payload.now) }
{
    let scene = context.scene;
    let owner = Text::copy_of(context.alloc, context.caller)?;
    let name = Text::copy_of(context.alloc, asked.name)?;
    Ok(Job {
        number: scene.next,
        owner,
        name,
        copies: asked.copies,
        impressions: asked.impressions.unwrap_or(scene.settings.estimate()),
        hold: true,
        incoming: false,
        phase: Phase::Waiting,
        stopping: None,
        count: 0,
        created: context.now,
        begun: None,
        ended: None,
        documents: count_of(payload),
        octets: payload.len() as u64,
    })
}

/// The job enters under the scene's next number, with its document.
fn enter<'a>(
    alloc: Global,
    scene: &Scene,
    job: Job,
    document: Option<NewDocument<'a>>,
) -> Result<Decision<'a>, AllocError>
    requires fair { IsFair scene.now }
    requires amounts { AreAmounts job }
    requires number { scene.now.next < 2 ^ 31 }
    ensures { IfOk result (λ d. decision_of d ≡ entered_row scene.now job (option_map document_of document.entry)) }
{
    let reply = one_job(alloc, &job)?;
    let mut change = change_job(alloc, scene, job)?;
    change.document = document;
    change.next = Some(scene.next + 1);
    Ok(Decision { reply, change })
}

fn print<'a>(
    context: CallContext<'_>,
    new_job: &NewJob<'a>,
    format: Format,
    payload: &'a [u8],
) -> Result<Decision<'a>, AllocError>
    requires fair { IsFair context.scene.now }
    requires job { IsNewJob (new_job_of new_job.now) }
    ensures { IfOk result (λ d. decision_of d ≡ print_job_row context.entry.scene.now context.entry.now context.entry.caller.now (new_job_of new_job.now) format payload.entry.now) }
{
    let CallContext { alloc, scene, .. } = context;
    if let Some(code) = refusal_of_new(scene) {
        return Ok(refuse(alloc, code));
    }
    let job = made_job(context, new_job, payload)?;
    enter(alloc, scene, job, document_in(scene.next, format, payload))
}

/// The job that enters takes documents from then on.
fn create<'a>(context: CallContext<'_>, new_job: &NewJob<'a>) -> Result<Decision<'a>, AllocError>
    requires fair { IsFair context.scene.now }
    requires job { IsNewJob (new_job_of new_job.now) }
    ensures { IfOk result (λ d. decision_of d ≡ create_job_row context.entry.scene.now context.entry.now context.entry.caller.now (new_job_of new_job.now)) }
{
    let CallContext { alloc, scene, .. } = context;
    if let Some(code) = refusal_of_new(scene) {
        return Ok(refuse(alloc, code));
    }
    let mut job = made_job(context, new_job, &[])?;
    job.incoming = true;
    enter(alloc, scene, job, None)
}

fn validate<'a>(alloc: Global, scene: &Scene) -> Decision<'a>
    ensures { decision_of result ≡ validate_job_row scene.now }
{
    match refusal_of_new(scene) {
        Some(code) => refuse(alloc, code),
        None => answer_only(alloc, Reply::Done),
    }
}

/// The jobs of the scene are those that are shown.
fn show_jobs<'a>(alloc: Global, scene: &Scene) -> Result<Decision<'a>, AllocError>
    ensures { IfOk result (λ d. decision_of d ≡ answered (Jobs scene.now.jobs)) }
{
    let shown = scene.jobs.try_clone(alloc)?;
    Ok(answer_only(alloc, Reply::Jobs(shown)))
}

/// The printer's state.
fn state_of_printer(counts: QueueCounts) -> PrinterState
    ensures { result ≡ printer_state counts }
{
    if counts.running > 0 {
        PrinterState::Processing
    } else if counts.stopped > 0 {
        PrinterState::Stopped
    } else {
        PrinterState::Idle
    }
}

fn show_printer<'a>(alloc: Global, scene: &Scene) -> Decision<'a>
    requires { IsFair scene.now }
    ensures { decision_of result ≡ printer_row scene.now }
{
    answer_only(
        alloc,
        Reply::Printer {
            state: state_of_printer(scene.counts),
            queued: scene.counts.queued as u32,
            accepting: scene.next <= LAST_JOB_NUMBER,
        },
    )
}

/// What a call on a job of the caller's own makes of it.
fn answer_on_job<'a>(context: CallContext<'_>, call: &Call<'a>) -> Result<Decision<'a>, AllocError>
    requires fair { IsFair context.scene.now }
    requires own { IsTrue (is_on_own (call_of call.now)) }
    ensures { IfOk result (λ d. decision_of d ≡ call_row context.entry.scene.now context.entry.now context.entry.caller.now (call_of call.now)) }
{
    let CallContext {
        alloc,
        scene,
        caller,
        ..
    } = context;
    let Some(job) = own(scene, caller) else {
        return Ok(refuse(alloc, CLIENT_ERROR_NOT_FOUND));
    };
    match call {
        Call::SendDocument {
            format,
            payload,
            last,
            ..
        } => {
            let sent = Sent {
                format: *format,
                payload: *payload,
                last: *last,
            };
            send(alloc, scene, job, sent)
        }
        Call::HoldJob { .. } => hold(alloc, scene, job),
        Call::ReleaseJob { .. } => release(alloc, scene, job),
        _ => unreachable!("no other call is on a job of the caller's own"),
    }
}

fn answer_call<'a>(context: CallContext<'_>, call: &Call<'a>) -> Result<Decision<'a>, AllocError>
    requires fair { IsFair context.scene.now }
    requires call { IsCall (call_of call.now) }
    ensures { IfOk result (λ d. decision_of d ≡ call_row context.entry.scene.now context.entry.now context.entry.caller.now (call_of call.now)) }
{
    let CallContext {
        alloc,
        scene,
        now,
        caller,
    } = context;
    match call {
        Call::PrintJob {
            job,
            format,
            payload,
        } => print(context, job, *format, payload),
        Call::ValidateJob { .. } => Ok(validate(alloc, scene)),
        Call::CreateJob { job } => create(context, job),
        Call::CancelMyJobs {
            jobs: Some(numbers),
        } => { cancel_named(alloc, scene, now, numbers.as_slice()) }
        Call::CancelMyJobs { jobs: None } => cancel_all(alloc, scene, now),
        Call::GetJobs { .. } => show_jobs(alloc, scene),
        Call::GetPrinterAttributes => Ok(show_printer(alloc, scene)),
        Call::CancelJob { .. } => cancel(alloc, scene, now, caller),
        Call::GetJobAttributes { .. } => show(alloc, scene, caller),
        Call::SendDocument { .. } | Call::HoldJob { .. } | Call::ReleaseJob { .. } => {
            answer_on_job(context, call)
        }
    }
}

fn decision_on<'a>(
    alloc: Global,
    scene: &Scene,
    now: u32,
    event: &Event<'a>,
) -> Result<Decision<'a>, AllocError>
    requires fair { IsFair scene.now }
    requires event { IsEvent (event_of event.now) }
    ensures { IfOk result (λ d. decision_of d ≡ decision scene.now now (event_of event.now)) }
{
    match event {
        Event::Ask { caller, call } => {
            let context = CallContext {
                alloc,
                scene,
                now,
                caller: *caller,
            };
            answer_call(context, call)
        }
        Event::Report(r) => report(alloc, scene, now, *r),
        Event::Grants(rows) => grant(alloc, scene, rows),
        Event::Expire => expire(alloc, scene, now),
    }
}

/// What the machine decides at a moment on the rows that the event needs. On the rows that were cut from
/// a sound world, the reply is the step's and the change makes the step's world, which is sound again:
/// each job keeps its state or takes an allowed pair, and in every account pages granted are those that
/// are free, reserved and printed. The one error is want of memory.
pub fn decide<'a>(
    alloc: Global,
    scene: &Scene,
    now: u32,
    event: &Event<'a>,
) -> Result<Decision<'a>, AllocError>
    requires fair { IsFair scene.now }
    requires moment { IsMoment now }
    requires event { IsEvent (event_of event.now) }
    ensures decides { IfOk result (λ d. decision_of d ≡ decision scene.now now (event_of event.now)) }
    ensures limits { IfOk result (λ d. IsReplyTo (event_of event.now) d.reply) }
    ensures change { IfOk result (λ d. IsSoundChange (change_of d.change)) }

    // on the scene that was cut from a world
    ensures reply { IfOk result (λ d. (w : World) → scene.now ≡ cut w now (event_of event.now) → d.reply ≡ (step w now (event_of event.now)).reply) }
    ensures world { IfOk result (λ d. (w : World) → scene.now ≡ cut w now (event_of event.now) → made_on (change_of d.change) w ≡ (step w now (event_of event.now)).world) }
    ensures sound { IfOk result (λ d. (w : World) → scene.now ≡ cut w now (event_of event.now) → IsSound w → IsSound (made_on (change_of d.change) w)) }
    ensures moves { IfOk result (λ d. (w : World) → scene.now ≡ cut w now (event_of event.now) → IsSound w → MovesAlong w (made_on (change_of d.change) w)) }
    ensures balances { IfOk result (λ d. (w : World) → scene.now ≡ cut w now (event_of event.now) → IsSound w → Balances (made_on (change_of d.change) w)) }
{
    decision_on(alloc, scene, now, event)
}
