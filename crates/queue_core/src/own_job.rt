//! What the machine decides on one job: of the caller's own, or any for an operator.
ghost use Rattle.std.specs.Prelude.{◌≡◌, ◌≤◌, ◌∷◌, [], ◌||◌, All, IfOk, IfSome, IsNone, bytes_eq, option_map};
ghost use Rattle.queue_types.specs.Event.{decision_of, document_of};
ghost use Rattle.queue_types.specs.Job.{estimate};
ghost use Rattle.queue_types.specs.Operators.{is_operator};
ghost use Rattle.queue_core.specs.Limits.{IsFair, IsSoundJob};
ghost use Rattle.queue_core.specs.Machine.{refused, answered, canceled_by, cancel_row, cause, is_cancelable, document_count, has_pages, hold_in, is_sendable, let_print, new_document, of_own, of_seen, release_in, send_in, sent};
ghost use Rattle.queue_types.specs.declared.event.Reply.TheVariants.{Jobs};

use crate::decision::{answer_only, change_job, job_becomes, one_job, refuse};
use queue_types::document::Format;
use queue_types::event::{Decision, FreeRow, NewDocument, Reply, Scene};
use queue_types::job::{Job, Phase, Why};
use queue_types::limits::MOST_DOCUMENTS;
use queue_types::status::{CLIENT_ERROR_NOT_FOUND, CLIENT_ERROR_NOT_POSSIBLE};
use std::alloc::{AllocError, Global};

/// The job waits, or the device has it and was not asked to stop it.
pub(crate) fn can_cancel(job: &Job) -> bool
    ensures { result ≡ is_cancelable job.now }
{
    match job.phase {
        Phase::Waiting => true,
        Phase::Running | Phase::Stopped => job.stopping.is_none(),
        Phase::Canceled(_) | Phase::Aborted | Phase::Completed => false,
    }
}

/// The job as it is once it is canceled: a waiting job ends, one that the device has is asked to stop.
pub(crate) fn canceled_job(now: u32, why: Why, job: &Job) -> Result<Job, AllocError>
    ensures { IfOk result (λ k. k ≡ canceled_by why now job.now) }
{
    let mut job = job.try_clone()?;
    match job.phase {
        Phase::Waiting => {
            job.phase = Phase::Canceled(why);
            job.hold = false;
            job.incoming = false;
            job.ended = Some(now);
        }
        Phase::Running | Phase::Stopped => job.stopping = Some(why),
        Phase::Canceled(_) | Phase::Aborted | Phase::Completed => {}
    }
    Ok(job)
}

/// The owner cancels its own job, and an operator another's.
fn why_canceled(caller: &str, job: &Job) -> Why
    ensures { result ≡ cause caller.now job.now }
{
    if job.owner.as_str() == caller {
        Why::ByUser
    } else {
        Why::ByOperator
    }
}

fn cancel_job<'a>(
    alloc: Global,
    scene: &Scene,
    now: u32,
    why: Why,
    job: &Job,
) -> Result<Decision<'a>, AllocError>
    requires fair { IsFair scene.now }
    requires job { IsSoundJob job.now }
    ensures { IfOk result (λ d. decision_of d ≡ cancel_row scene.now now why job.now) }
{
    if !can_cancel(job) {
        return Ok(refuse(alloc, CLIENT_ERROR_NOT_POSSIBLE));
    }
    job_becomes(alloc, scene, canceled_job(now, why, job)?)
}

/// The caller may see and cancel the job: it is its own, or the caller is an operator.
fn may_see(scene: &Scene, caller: &str, job: &Job) -> bool
    ensures { result ≡ (bytes_eq job.now.owner caller.now || is_operator scene.now.settings.operators caller.now) }
{
    job.owner.as_str() == caller || scene.settings.operators().has(caller)
}

/// The job that the caller may see and cancel, the first of those that the event speaks of: another's job and no job are both none.
fn seen<'s>(scene: &'s Scene, caller: &str) -> Option<&'s Job>
    requires sound { All IsSoundJob scene.now.jobs }
    ensures seen { IfSome result (λ j. (row : _) → of_seen scene.now.settings.operators caller.now row scene.now.jobs ≡ row j.now) }
    ensures none { IsNone result → (row : _) → of_seen scene.now.settings.operators caller.now row scene.now.jobs ≡ refused 0x0406 }
    ensures sound { IfSome result (λ j. IsSoundJob j.now) }
{
    match scene.jobs.as_slice() {
        [job, ..] if may_see(scene, caller, job) => Some(job),
        _ => None,
    }
}

/// Cancels the job that the event speaks of.
pub(crate) fn cancel<'a>(
    alloc: Global,
    scene: &Scene,
    now: u32,
    caller: &str,
) -> Result<Decision<'a>, AllocError>
    requires { IsFair scene.now }
    ensures { IfOk result (λ d. decision_of d ≡ of_seen scene.now.settings.operators caller.now (λ j. cancel_row scene.now now (cause caller.now j) j) scene.now.jobs) }
{
    let Some(job) = seen(scene, caller) else {
        return Ok(refuse(alloc, CLIENT_ERROR_NOT_FOUND));
    };
    cancel_job(alloc, scene, now, why_canceled(caller, job), job)
}

/// The caller's own job, the first of those that the event speaks of: another's job and no job are both none.
pub(crate) fn own<'s>(scene: &'s Scene, caller: &str) -> Option<&'s Job>
    requires sound { All IsSoundJob scene.now.jobs }
    ensures own { IfSome result (λ j. (row : _) → of_own caller.now row scene.now.jobs ≡ row j.now) }
    ensures none { IsNone result → (row : _) → of_own caller.now row scene.now.jobs ≡ refused 0x0406 }
    ensures sound { IfSome result (λ j. IsSoundJob j.now) }
{
    match scene.jobs.as_slice() {
        [job, ..] if job.owner.as_str() == caller => Some(job),
        _ => None,
    }
}

/// Shows the job that the event speaks of.
pub(crate) fn show<'a>(
    alloc: Global,
    scene: &Scene,
    caller: &str,
) -> Result<Decision<'a>, AllocError>
    requires { IsFair scene.now }
    ensures { IfOk result (λ d. decision_of d ≡ of_seen scene.now.settings.operators caller.now (λ j. answered (Jobs (j ∷ []))) scene.now.jobs) }
{
    let Some(job) = seen(scene, caller) else {
        return Ok(refuse(alloc, CLIENT_ERROR_NOT_FOUND));
    };
    let reply = one_job(alloc, job)?;
    Ok(answer_only(alloc, reply))
}

pub(crate) fn hold<'a>(alloc: Global, scene: &Scene, job: &Job) -> Result<Decision<'a>, AllocError>
    requires fair { IsFair scene.now }
    requires job { IsSoundJob job.now }
    ensures { IfOk result (λ d. decision_of d ≡ hold_in job.now.phase scene.now job.now) }
{
    match job.phase {
        Phase::Waiting => {
            let mut job = job.try_clone()?;
            job.hold = true;
            job_becomes(alloc, scene, job)
        }
        Phase::Running | Phase::Stopped | Phase::Canceled(_) | Phase::Aborted | Phase::Completed =>
            Ok(refuse(alloc, CLIENT_ERROR_NOT_POSSIBLE)),
    }
}

/// The caller's account, the first of these where there is one, has so many free pages.
fn has_free_pages(free: &[FreeRow], pages: u64) -> bool
    ensures { result ≡ has_pages free.now pages }
{
    match free {
        [] => false,
        [a, ..] => i128::from(pages) <= i128::from(a.free),
    }
}

fn allow<'a>(alloc: Global, scene: &Scene, job: &Job) -> Result<Decision<'a>, AllocError>
    requires fair { IsFair scene.now }
    requires job { IsSoundJob job.now }
    ensures { IfOk result (λ d. decision_of d ≡ let_print scene.now job.now) }
{
    if !has_free_pages(scene.free.as_slice(), job.estimate()) {
        return Ok(refuse(alloc, CLIENT_ERROR_NOT_POSSIBLE));
    }
    let mut job = job.try_clone()?;
    job.hold = false;
    job_becomes(alloc, scene, job)
}

pub(crate) fn release<'a>(
    alloc: Global,
    scene: &Scene,
    job: &Job,
) -> Result<Decision<'a>, AllocError>
    requires fair { IsFair scene.now }
    requires job { IsSoundJob job.now }
    ensures { IfOk result (λ d. decision_of d ≡ release_in job.now.phase scene.now job.now) }
{
    match job.phase {
        Phase::Waiting if job.hold => allow(alloc, scene, job),
        Phase::Waiting | Phase::Running | Phase::Stopped => Ok(answer_only(alloc, Reply::Done)),
        Phase::Canceled(_) | Phase::Aborted | Phase::Completed => Ok(refuse(
            alloc,
            CLIENT_ERROR_NOT_POSSIBLE,
        )),
    }
}

/// A payload is one document, and an empty one is none.
pub(crate) fn count_of(payload: &[u8]) -> u32
    ensures exact { result ≡ document_count payload.now }
    ensures most { result ≤ 1 }
{
    if payload.is_empty() { 0 } else { 1 }
}

/// The payload as a document of that job, where it is not empty.
pub(crate) fn document_in(number: u32, format: Format, payload: &[u8]) -> Option<NewDocument<'_>>
    ensures { option_map document_of result ≡ new_document number format payload.entry.now }
{
    if payload.is_empty() {
        return None;
    }
    Some(NewDocument {
        job: number,
        format,
        bytes: payload,
    })
}

fn takes(job: &Job, payload: &[u8]) -> bool
    requires { IsSoundJob job.now }
    ensures { result ≡ is_sendable job.now payload.now }
{
    job.incoming && job.documents + count_of(payload) <= MOST_DOCUMENTS
}

/// The job with the payload as its next document.
fn with_document(job: &Job, payload: &[u8], last: bool) -> Result<Job, AllocError>
    requires { IsSoundJob job.now }
    ensures { IfOk result (λ k. k ≡ sent job.now payload.now last) }
{
    let mut job = job.try_clone()?;
    job.documents += count_of(payload);
    job.octets += payload.len() as u64;
    job.incoming = !last;
    Ok(job)
}

/// What a Send-Document operation sends to a job.
#[derive(Clone, Copy)]
pub(crate) struct Sent<'a> {
    pub format: Format,
    /// The document's octets; none where the operation has no document.
    pub payload: &'a [u8],
    /// The job takes no more documents after it.
    pub last: bool,
}

pub(crate) fn send<'a>(
    alloc: Global,
    scene: &Scene,
    job: &Job,
    sent: Sent<'a>,
) -> Result<Decision<'a>, AllocError>
    requires fair { IsFair scene.now }
    requires job { IsSoundJob job.now }
    ensures { IfOk result (λ d. decision_of d ≡ send_in scene.now job.now sent.entry.format sent.entry.payload.now sent.entry.last) }
{
    if !takes(job, sent.payload) {
        return Ok(refuse(alloc, CLIENT_ERROR_NOT_POSSIBLE));
    }
    let job = with_document(job, sent.payload, sent.last)?;
    let document = document_in(job.number, sent.format, sent.payload);
    let reply = one_job(alloc, &job)?;
    let mut change = change_job(alloc, scene, job)?;
    change.document = document;
    Ok(Decision { reply, change })
}
