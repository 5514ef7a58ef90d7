//! The balance of accounts: as jobs change, what they had taken less what they have taken now goes back
//! to the free pages of their owner.
ghost use Rattle.std.specs.Prelude.{◌≡◌, ◌≤◌, ◌<◌, ◌^◌, All, IfOk, IfSome, length, map};
ghost use Rattle.std.specs.Option.{option_copied};
ghost use Rattle.queue_types.specs.Job.{owed};
ghost use Rattle.queue_core.specs.Limits.{IsAmount};
ghost use Rattle.queue_core.specs.Machine.{credited, returned, taken, given_back};
ghost use Rattle.queue_core.specs.World.{job_at};
ghost use Rattle.queue_core.specs.Balance.{AreAmounts, IsWithin};

use queue_types::event::FreeRow;
use queue_types::job::Job;
use std::alloc::{AllocError, Global};

/// The pages that a job has taken of its account: those set aside for it, and those printed.
fn taken_of(job: &Job) -> u64
    requires { AreAmounts job.now }
    ensures exact { result ≡ taken job.now }
    ensures bound { result ≤ 2 ^ 28 }
{
    job.owed() + u64::from(job.count)
}

/// The first of the jobs that has that number, where there is one.
pub fn numbered_job(jobs: &[Job], number: u32) -> Option<&Job>
    ensures at { option_copied result ≡ job_at number jobs.now }
    ensures amounts { All AreAmounts jobs.now → IfSome result (λ j. AreAmounts j.now) }
{
    jobs.iter().find(|j| j.number == number)
}

fn given_back_by(before: &[Job], job: &Job, account: &str) -> i64
    requires before { All AreAmounts before.now }
    requires job { AreAmounts job.now }
    ensures exact { result ≡ given_back before.now account.now job.now }
    ensures bound { IsWithin (2 ^ 28) result }
{
    if job.owner.as_str() != account {
        return 0;
    }
    let was = match numbered_job(before, job.number) {
        Some(old) => taken_of(old),
        None => 0,
    };
    was as i64 - taken_of(job) as i64
}

/// What comes back to an account as jobs become what they are now.
fn returned_to(before: &[Job], after: &[Job], account: &str) -> i64
    requires before { All AreAmounts before.now }
    requires after { All AreAmounts after.now }
    requires few { length after.now < 2 ^ 31 }
    ensures exact { result ≡ returned before.now account.now after.now }
    ensures bound { IsWithin (2 ^ 59) result }
{
    let mut back: i64 = 0;
    for job in after {
        back += given_back_by(before, job, account);
    }
    back
}

/// The accounts, each with its free pages once what comes back to it is added.
pub(crate) fn credited_rows(
    alloc: Global,
    before: &[Job],
    after: &[Job],
    free: &[FreeRow],
) -> Result<Vec<FreeRow>, AllocError>
    requires before { All AreAmounts before.now }
    requires after { All AreAmounts after.now }
    requires few { length after.now < 2 ^ 31 }
    requires free { All (λ a. IsAmount a.free) free.now }
    ensures { IfOk result (λ v. v.items ≡ map (credited before.now after.now) free.now) }
{
    let mut rows = Vec::new(alloc);
    for row in free {
        let account = row.account.try_clone()?;
        let back = returned_to(before, after, row.account.as_str());
        rows.push(FreeRow {
            account,
            free: row.free + back,
        })?;
    }
    Ok(rows)
}
