//! What the machine decides on a device's report.
ghost use Rattle.std.specs.Prelude.{◌≡◌, ◌≤◌, IfOk, IfSome};
ghost use Rattle.queue_core.specs.Balance.{AreAmounts};
ghost use Rattle.queue_types.specs.Event.{decision_of};
ghost use Rattle.queue_core.specs.Limits.{IsFair, IsReport, IsSoundJob};
ghost use Rattle.queue_core.specs.Machine.{accepted, accepted_where, report_row};
ghost use Rattle.queue_core.specs.Reports.{counted, ended_as, is_same_report, moved_by, why_halted};

use crate::decision::{answer_only, change_job};
use queue_types::event::{Decision, KeptReport, Kind, Reply, Report, ReportRefusal, Scene};
use queue_types::job::{Job, Phase, Why};
use std::alloc::{AllocError, Global};

/// Two reports of one job and sequence number are the same: they have the same kind and count.
fn is_same(a: &Report, b: &Report) -> bool
    ensures { result ≡ is_same_report a.now b.now }
{
    a.kind == b.kind && a.count == b.count
}

/// The job with the greatest count that was reported.
fn counted_job(job: &Job, count: u32) -> Result<Job, AllocError>
    requires job { IsSoundJob job.now }
    requires count { count ≤ 100000000 }
    ensures is { IfOk result (λ k. k ≡ counted count job.now) }
    ensures amounts { IfOk result AreAmounts }
{
    let mut job = job.try_clone()?;
    job.count = job.count.max(count);
    Ok(job)
}

/// The job once it has ended in that phase.
fn ended_job(mut job: Job, phase: Phase, now: u32) -> Job
    ensures { result ≡ ended_as phase now job }
{
    job.phase = phase;
    job.stopping = None;
    job.ended = Some(now);
    job
}

/// Whoever asked to cancel it ended it, and if nobody did, the device.
fn why(stopping: Option<Why>) -> Why
    ensures { result ≡ why_halted stopping }
{
    stopping.unwrap_or(Why::AtDevice)
}

/// The job as it starts printing, where it is neither held nor open for documents.
fn started(mut job: Job, now: u32) -> Option<Job>
    ensures is { result ≡ moved_by Kind.Start Phase.Waiting now job }
    ensures amounts { AreAmounts job → IfSome result AreAmounts }
{
    if job.hold || job.incoming {
        return None;
    }
    job.phase = Phase::Running;
    job.begun = Some(now);
    Some(job)
}

fn in_phase(mut job: Job, phase: Phase) -> Job
    ensures { result ≡ record job { phase = phase } }
{
    job.phase = phase;
    job
}

/// What becomes of the job by a report of that kind, where its phase takes one.
fn moved(job: Job, kind: Kind, now: u32) -> Option<Job>
    ensures is { result ≡ moved_by kind job.phase now job }
    ensures amounts { AreAmounts job → IfSome result AreAmounts }
{
    match (kind, job.phase) {
        (Kind::Start, Phase::Waiting) => started(job, now),
        (Kind::Stop, Phase::Running) => Some(in_phase(job, Phase::Stopped)),
        (Kind::Resume, Phase::Stopped) => Some(in_phase(job, Phase::Running)),
        (Kind::Count, _) if job.begun.is_some() => Some(job),
        (Kind::Done, Phase::Running) => Some(ended_job(job, Phase::Completed, now)),
        (Kind::Fail, Phase::Running | Phase::Stopped) => Some(ended_job(job, Phase::Aborted, now)),
        (Kind::Halt, Phase::Running | Phase::Stopped) => {
            let phase = Phase::Canceled(why(job.stopping));
            Some(ended_job(job, phase, now))
        }
        _ => None,
    }
}

/// The report is kept, and the job changes.
fn accept<'a>(
    alloc: Global,
    scene: &Scene,
    report: Report,
    job: Job,
) -> Result<Decision<'a>, AllocError>
    requires fair { IsFair scene.now }
    requires amounts { AreAmounts job }
    ensures { IfOk result (λ d. decision_of d ≡ accepted scene.now report job) }
{
    let kept = KeptReport {
        report,
        state: job.state(),
        total: job.count,
    };
    let mut change = change_job(alloc, scene, job)?;
    change.report = Some(kept);
    Ok(Decision {
        reply: Reply::Told {
            state: kept.state,
            count: kept.total,
        },
        change,
    })
}

/// Takes a report that was not accepted before, where the job's phase takes its kind.
fn take<'a>(
    alloc: Global,
    scene: &Scene,
    now: u32,
    report: Report,
    job: &Job,
) -> Result<Decision<'a>, AllocError>
    requires fair { IsFair scene.now }
    requires report { IsReport report }
    requires job { IsSoundJob job.now }
    ensures { IfOk result (λ d. decision_of d ≡ accepted_where scene.now report (moved_by report.kind job.now.phase now (counted report.count job.now))) }
{
    let job = counted_job(job, report.count)?;
    match moved(job, report.kind, now) {
        Some(job) => accept(alloc, scene, report, job),
        None => Ok(answer_only(alloc, Reply::NotTold(ReportRefusal::State))),
    }
}

/// A device's report of the scene's job.
pub(crate) fn report<'a>(
    alloc: Global,
    scene: &Scene,
    now: u32,
    report: Report,
) -> Result<Decision<'a>, AllocError>
    requires fair { IsFair scene.now }
    requires report { IsReport report }
    ensures { IfOk result (λ d. decision_of d ≡ report_row scene.now now report scene.now.jobs scene.now.report) }
{
    let [j, ..] = scene.jobs.as_slice() else {
        return Ok(answer_only(alloc, Reply::NotTold(ReportRefusal::NoJob)));
    };
    let Some(kept) = scene.report else {
        return take(alloc, scene, now, report, j);
    };
    if is_same(&report, &kept.report) {
        return Ok(answer_only(
            alloc,
            Reply::Told {
                state: kept.state,
                count: kept.total,
            },
        ));
    }
    Ok(answer_only(alloc, Reply::NotTold(ReportRefusal::Conflict)))
}
