//! The machine's decision on jobs that have expired.
ghost use Rattle.std.specs.Prelude.{◌≡◌, ◌<◌, ◌^◌, ◌+ℤ◌, pos, ℕ, List, All, IfOk, length, map};
ghost use Rattle.queue_core.specs.Balance.{AreAmounts};
ghost use Rattle.queue_types.specs.Event.{decision_of};
ghost use Rattle.queue_core.specs.Limits.{IsAmount, IsFair};
ghost use Rattle.queue_core.specs.Machine.{expire_row, expired, freed};
ghost use Rattle.queue_core.specs.Sound.{reserved_for};
ghost use Rattle.queue_core.specs.Totals.{total_in};

use crate::decision::no_change;
use crate::totals::{total_of, totals};
use queue_types::event::{Decision, FreeList, FreeRow, Reply, Scene};
use queue_types::job::{Job, JobList, Phase};
use std::alloc::{AllocError, Global};
use std::collections::BTreeMap;

/// The job after it has expired: aborted by the system (RFC 8011, section 5.3.7), neither held nor open.
fn expired_job(now: u32, job: &Job) -> Result<Job, AllocError>
    ensures { IfOk result (λ k. k ≡ expired now job.now) }
{
    let mut job = job.try_clone()?;
    job.phase = Phase::Aborted;
    job.hold = false;
    job.incoming = false;
    job.stopping = None;
    job.ended = Some(now);
    Ok(job)
}

/// The jobs after they have expired.
fn expired_jobs(alloc: Global, now: u32, jobs: &[Job]) -> Result<Vec<Job>, AllocError>
    ensures { IfOk result (λ v. v.items ≡ map (expired now) jobs.now) }
{
    let mut after = Vec::new(alloc);
    for job in jobs {
        after.push(expired_job(now, job)?)?;
    }
    Ok(after)
}

/// The free pages of an account after the pages that were set aside come back.
fn free_with(free: i64, back: u128) -> i64
    requires free { IsAmount free }
    requires few { back < 2 ^ 60 }
    ensures { result ≡ free +ℤ pos back }
{
    free + back as i64
}

/// The pages that are set aside for the jobs of each owner.
fn set_aside<'a>(alloc: Global, jobs: &'a [Job]) -> Result<BTreeMap<&'a str, u128>, AllocError>
    ensures { IfOk result (λ m. (q : List ℕ) → total_in m q ≡ reserved_for q jobs.now) }
{
    totals(alloc, jobs, |job| (job.owner.as_str(), job.owed()))
}

/// The accounts after each got back the pages that were set aside for these jobs of its owner.
fn freed_rows(alloc: Global, jobs: &[Job], free: &[FreeRow]) -> Result<Vec<FreeRow>, AllocError>
    requires amounts { All AreAmounts jobs.now }
    requires few { length jobs.now < 2 ^ 31 }
    requires free { All (λ a. IsAmount a.free) free.now }
    ensures { IfOk result (λ v. v.items ≡ map (freed jobs.now) free.now) }
{
    let owed = set_aside(alloc, jobs)?;
    let mut rows = Vec::new(alloc);
    for row in free {
        let account = row.account.try_clone()?;
        let back = total_of(&owed, row.account.as_str());
        rows.push(FreeRow {
            account,
            free: free_with(row.free, back),
        })?;
    }
    Ok(rows)
}

/// The decision of a sweep: every job of the scene has expired.
pub(crate) fn expire<'a>(alloc: Global, scene: &Scene, now: u32) -> Result<Decision<'a>, AllocError>
    requires { IsFair scene.now }
    ensures { IfOk result (λ d. decision_of d ≡ expire_row scene.now now) }
{
    let after = expired_jobs(alloc, now, scene.jobs.as_slice())?;
    let free = freed_rows(alloc, scene.jobs.as_slice(), scene.free.as_slice())?;
    let ended = after.len() as u32;
    let mut change = no_change(alloc);
    change.jobs = JobList::from_items(after);
    change.free = FreeList::from_items(free);
    Ok(Decision {
        reply: Reply::Expired(ended),
        change,
    })
}
