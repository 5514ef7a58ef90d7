//! The forms of a decision: an answer alone, a refusal, a job that changes.
ghost use Rattle.std.specs.Prelude.{◌≡◌, ◌<◌, ◌^◌, ◌∷◌, [], All, IfOk, length};
ghost use Rattle.queue_core.specs.Balance.{AreAmounts};
ghost use Rattle.queue_types.specs.Event.{change_of, decision_of};
ghost use Rattle.queue_core.specs.Limits.{IsFair};
ghost use Rattle.queue_core.specs.Machine.{refused, answered, becomes, changed, no_change as empty_change};
ghost use Rattle.queue_types.specs.declared.event.Reply.TheVariants.{Jobs};

use crate::balance::credited_rows;
use queue_types::event::{Change, Decision, FreeList, GrantList, Reply, Scene};
use queue_types::job::{Job, JobList};
use std::alloc::{AllocError, Global};

/// The change of no row. It takes no memory.
pub(crate) fn no_change<'a>(alloc: Global) -> Change<'a>
    ensures { change_of result ≡ empty_change }
{
    Change {
        jobs: JobList::from_items(Vec::new(alloc)),
        document: None,
        free: FreeList::from_items(Vec::new(alloc)),
        grants: GrantList::from_items(Vec::new(alloc)),
        report: None,
        next: None,
    }
}

pub(crate) fn answer_only<'a>(alloc: Global, reply: Reply) -> Decision<'a>
    ensures { decision_of result ≡ answered reply }
{
    Decision {
        reply,
        change: no_change(alloc),
    }
}

pub(crate) fn refuse<'a>(alloc: Global, code: u16) -> Decision<'a>
    ensures { decision_of result ≡ refused code }
{
    answer_only(alloc, Reply::Refused(code))
}

/// The reply that shows one job.
pub(crate) fn one_job(alloc: Global, job: &Job) -> Result<Reply, AllocError>
    ensures { IfOk result (λ r. r ≡ Jobs (job.now ∷ [])) }
{
    let mut shown = Vec::new(alloc);
    shown.push(job.try_clone()?)?;
    Ok(Reply::Jobs(JobList::from_items(shown)))
}

/// Each job takes the place of the one of its number, or enters, and the free pages of the scene's accounts move by the
/// balance.
pub(crate) fn change_jobs<'a>(
    alloc: Global,
    scene: &Scene,
    jobs: Vec<Job>,
) -> Result<Change<'a>, AllocError>
    requires fair { IsFair scene.now }
    requires amounts { All AreAmounts jobs.items }
    requires few { length jobs.items < 2 ^ 31 }
    ensures { IfOk result (λ c. change_of c ≡ changed scene.now jobs.items) }
{
    let free = credited_rows(
        alloc,
        scene.jobs.as_slice(),
        jobs.as_slice(),
        scene.free.as_slice(),
    )?;
    let mut change = no_change(alloc);
    change.jobs = JobList::from_items(jobs);
    change.free = FreeList::from_items(free);
    Ok(change)
}

pub(crate) fn change_job<'a>(
    alloc: Global,
    scene: &Scene,
    job: Job,
) -> Result<Change<'a>, AllocError>
    requires fair { IsFair scene.now }
    requires amounts { AreAmounts job }
    ensures { IfOk result (λ c. change_of c ≡ changed scene.now (job ∷ [])) }
{
    let mut jobs = Vec::new(alloc);
    jobs.push(job)?;
    change_jobs(alloc, scene, jobs)
}

pub(crate) fn job_becomes<'a>(
    alloc: Global,
    scene: &Scene,
    job: Job,
) -> Result<Decision<'a>, AllocError>
    requires fair { IsFair scene.now }
    requires amounts { AreAmounts job }
    ensures { IfOk result (λ d. decision_of d ≡ becomes scene.now job) }
{
    let change = change_job(alloc, scene, job)?;
    Ok(Decision {
        reply: Reply::Done,
        change,
    })
}
