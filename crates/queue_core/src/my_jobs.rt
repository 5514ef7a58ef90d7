//! What the machine decides on several jobs of the caller's own.
ghost use Rattle.std.specs.Prelude.{◌≡◌, ◌≤◌, ◌==◌, ◌++◌, ◌∷◌, [], ℕ, Some, All, IfOk, OnOk, filter, length, map};
ghost use Rattle.std.specs.List.{list_all, list_any};
ghost use Rattle.std.specs.BTreeSet.{contains};
ghost use Rattle.std.specs.Ordering.{nat_cmp};
ghost use Rattle.queue_core.specs.Balance.{AreAmounts};
ghost use Rattle.queue_types.specs.Event.{decision_of};
ghost use Rattle.queue_core.specs.Limits.{IsFair};
ghost use Rattle.queue_core.specs.Machine.{all_canceled, are_there, canceled, cancel_my_jobs_row, is_cancelable};

use crate::decision::{change_jobs, refuse};
use crate::own_job::{can_cancel, canceled_job};
use queue_types::event::{Decision, Reply, Scene};
use queue_types::job::{Job, Why};
use queue_types::status::{CLIENT_ERROR_NOT_FOUND, CLIENT_ERROR_NOT_POSSIBLE};
use std::alloc::{AllocError, Global};
use std::collections::BTreeSet;

/// A set of these numbers. The one error is want of memory.
pub fn number_set(alloc: Global, numbers: &[u32]) -> Result<BTreeSet<u32>, AllocError>
    ensures { IfOk result (λ s. (q : ℕ) → contains nat_cmp s q ≡ list_any (λ n. n == q) numbers.now) }
{
    let mut set = BTreeSet::new(alloc);
    for n in numbers {
        set.insert(*n)?;
    }
    Ok(set)
}

fn numbers_of(alloc: Global, jobs: &[Job]) -> Result<Vec<u32>, AllocError>
    ensures { IfOk result (λ v. v.items ≡ map (λ j. j.number) jobs.now) }
{
    jobs.iter().map(|j| j.number).collect(alloc)
}

/// Each of the numbers is that of one of the jobs.
fn has_each(alloc: Global, jobs: &[Job], numbers: &[u32]) -> Result<bool, AllocError>
    ensures { IfOk result (λ b. b ≡ are_there jobs.now numbers.now) }
{
    let known = number_set(alloc, numbers_of(alloc, jobs)?.as_slice())?;
    Ok(numbers.iter().all(|n| known.contains(n)))
}

fn can_cancel_all(jobs: &[Job]) -> bool
    ensures { result ≡ list_all is_cancelable jobs.now }
{
    jobs.iter().all(|j| can_cancel(j))
}

/// Adds the job as it is once it is canceled, where it can be.
fn push_canceled(after: &mut Vec<Job>, now: u32, job: &Job) -> Result<(), AllocError>
    ensures { OnOk result (after.new.items ≡ after.old.items ++ map (canceled now) (filter is_cancelable (job.now ∷ []))) }
{
    if can_cancel(job) {
        after.push(canceled_job(now, Why::ByUser, job)?)?;
    }
    Ok(())
}

/// The jobs that can be canceled, as they are once they are.
fn canceled_jobs(alloc: Global, now: u32, jobs: &[Job]) -> Result<Vec<Job>, AllocError>
    requires { All AreAmounts jobs.now }
    ensures is { IfOk result (λ v. v.items ≡ map (canceled now) (filter is_cancelable jobs.now)) }
    ensures amounts { IfOk result (λ v. All AreAmounts v.items) }
    ensures few { IfOk result (λ v. length v.items ≤ length jobs.now) }
{
    let mut after = Vec::new(alloc);
    for job in jobs {
        push_canceled(&mut after, now, job)?;
    }
    Ok(after)
}

/// All the jobs of the scene that can be canceled are.
pub(crate) fn cancel_all<'a>(
    alloc: Global,
    scene: &Scene,
    now: u32,
) -> Result<Decision<'a>, AllocError>
    requires { IsFair scene.now }
    ensures { IfOk result (λ d. decision_of d ≡ all_canceled scene.now now (filter is_cancelable scene.now.jobs)) }
{
    let after = canceled_jobs(alloc, now, scene.jobs.as_slice())?;
    let change = change_jobs(alloc, scene, after)?;
    Ok(Decision {
        reply: Reply::Done,
        change,
    })
}

/// The caller's jobs of these numbers, which the scene has, are canceled, all of them or none.
pub(crate) fn cancel_named<'a>(
    alloc: Global,
    scene: &Scene,
    now: u32,
    numbers: &[u32],
) -> Result<Decision<'a>, AllocError>
    requires { IsFair scene.now }
    ensures { IfOk result (λ d. decision_of d ≡ cancel_my_jobs_row scene.now now (Some numbers.now)) }
{
    if !has_each(alloc, scene.jobs.as_slice(), numbers)? {
        return Ok(refuse(alloc, CLIENT_ERROR_NOT_FOUND));
    }
    if !can_cancel_all(scene.jobs.as_slice()) {
        return Ok(refuse(alloc, CLIENT_ERROR_NOT_POSSIBLE));
    }
    cancel_all(alloc, scene, now)
}
