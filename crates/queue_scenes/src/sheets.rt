//! The sheet of an account.
ghost use Rattle.std.specs.Prelude.{◌≡◌, ◌≤◌, All, IfSome, IfOk, OnOk, IsTrue, filter};
ghost use Rattle.sqlite.specs.Held.{state};
ghost use Rattle.sqlite.specs.State.{HasCleanDisk};
ghost use Rattle.queue_types.specs.Job.{owed};
ghost use Rattle.queue_core.specs.Limits.{IsSoundJob};
ghost use Rattle.queue_core.specs.Shown.{is_charged, sheet_jobs, sheet_of};
ghost use Rattle.queue_tables.specs.Telling.{ReadsQueue};

use crate::own_jobs::all_jobs;
use queue_tables::account_pages::find_account;
use queue_tables::fault::Fault;
use queue_types::job::{Job, JobList};
use queue_types::sheet::AccountSheet;
use queue_types::text::Text;
use sqlite::{Alter, Connection};
use std::alloc::Global;

/// The job has pages reserved or printed.
fn is_charged(job: &Job) -> bool
    ensures { result ≡ is_charged job.now }
{
    0 < job.owed() || 0 < job.count
}

/// Keeps those of the jobs that have pages reserved or printed.
fn keep_charged(jobs: &mut Vec<Job>)
    ensures { jobs.new.items ≡ filter is_charged jobs.old.items }
{
    jobs.retain(is_charged);
}

/// The jobs of an account that have pages reserved or printed, by number. Damaged is told only where the tables hold
/// no sound queue.
fn charged_jobs<S: Alter>(
    alloc: Global,
    conn: &mut Connection<S>,
    account: &str,
) -> Result<JobList, Fault>
    ensures reads { ReadsQueue (state S.Store conn.old) (state S.Store conn.new) result (λ w js. js ≡ sheet_jobs w account.now) }
    ensures live { HasCleanDisk (state S.Store conn.new) → OnOk result (IsTrue (state S.Store conn.new).is_open) }
    ensures sound { IfOk result (λ js. All IsSoundJob js) }
{
    let mut jobs = all_jobs(alloc, conn, account)?;
    keep_charged(&mut jobs);
    Ok(JobList::from_items(jobs))
}

/// What is granted to an account, what of it is free, reserved and printed, and its jobs, where the account is
/// there. It writes nothing: the tables stay as they were, where the connection is still open. Within a
/// transaction it answers Disk. The sheet is of that account, and what was granted and each of the jobs is within its limits, whatever the tables hold;
/// Damaged is told only where they hold no sound queue.
pub fn sheet<S: Alter>(
    alloc: Global,
    conn: &mut Connection<S>,
    account: &str,
) -> Result<Option<AccountSheet>, Fault>
    ensures reads { ReadsQueue (state S.Store conn.old) (state S.Store conn.new) result (λ w s. s ≡ sheet_of w account.now) }
    ensures live { HasCleanDisk (state S.Store conn.new) → OnOk result (IsTrue (state S.Store conn.new).is_open) }
    ensures within { IfOk result (λ s. IfSome s (λ it. (it.account ≡ account.now) × (it.granted ≤ 1000000000) × All IsSoundJob it.jobs)) }
{
    let found = find_account(conn, account)?;
    let Some(pages) = found else {
        return Ok(None);
    };
    let granted = pages.granted()?;
    let jobs = charged_jobs(alloc, conn, account)?;
    let name = Text::copy_of(alloc, account)?;
    Ok(Some(AccountSheet {
        account: name,
        granted: u64::from(granted),
        free: pages.free,
        reserved: pages.reserved,
        printed: pages.printed,
        jobs,
    }))
}
