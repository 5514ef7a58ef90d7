//! The rows of jobs by their owners: how many are live, and that without an account nothing prints.
ghost use Rattle.std.specs.Prelude.{◌≡◌, ◌↔◌, ◌≤◌, ℕ, List, All, IfOk, IsTrue};
ghost use Rattle.queue_core.specs.Sound.{IsIdle};
ghost use Rattle.queue_core.specs.World.{live_jobs};
ghost use Rattle.queue_rows.specs.Totals.{total_in};

use crate::amounts::live_totals;
use crate::totals::{are_within, total_of};
use queue_types::job::Job;
use queue_types::limits::MOST_LIVE_JOBS;
use std::alloc::{AllocError, Global};
use std::collections::BTreeMap;

/// No owner has more than 100 jobs in the states 3 to 6.
pub(crate) fn live_jobs_fit(alloc: Global, jobs: &[Job]) -> Result<bool, AllocError>
    ensures { IfOk result (λ b. IsTrue b ↔ ((caller : List ℕ) → live_jobs caller jobs.now ≤ 100)) }
{
    let live = live_totals(alloc, jobs)?;
    Ok(are_within(&live, MOST_LIVE_JOBS as u128))
}

fn is_idle(job: &Job) -> bool
    ensures { IsTrue result ↔ IsIdle job.now }
{
    job.begun.is_none() && job.count == 0 && (job.hold || job.ended.is_some())
}

/// The owner was granted pages, or the job is idle.
fn is_covered(granted: &BTreeMap<&str, u128>, job: &Job) -> bool
    ensures { IsTrue result ↔ (total_in granted.now job.now.owner ≡ 0 → IsIdle job.now) }
{
    if total_of(granted, job.owner.as_str()) > 0 {
        return true;
    }
    is_idle(job)
}

/// Each job whose owner was granted nothing never began, has no count, and is on hold or ended.
pub(crate) fn others_are_idle(jobs: &[Job], granted: &BTreeMap<&str, u128>) -> bool
    ensures { IsTrue result ↔ All (λ j. total_in granted.now j.owner ≡ 0 → IsIdle j) jobs.now }
{
    jobs.iter().all(|job| is_covered(granted, job))
}
