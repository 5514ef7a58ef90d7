//! The rows that a sweep needs of the book in lists: the jobs that have expired, and the accounts of their owners.
ghost use Rattle.std.specs.Prelude.{◌≡◌, List, IfOk, bytes_eq, filter, map};
ghost use Rattle.std.specs.List.{list_any};
ghost use Rattle.queue_core.specs.World.{has_expired, owners, rows_of_accounts};
ghost use Rattle.list_book.specs.Lists.{texts};
ghost use Rattle.list_book.specs.Tables.{free_map};

use crate::accounts::{Accounts, free_row_of};
use queue_types::event::FreeRow;
use queue_types::job::Job;
use queue_types::states::JobState;
use std::alloc::{AllocError, Global};

/// The job has been held or open for at least as many seconds as jobs are kept.
fn is_late(job: &Job, keep: u32, now: u32) -> bool
    ensures { result ≡ has_expired keep now job.now }
{
    let kept_until = u64::from(job.created) + u64::from(keep);
    keep > 0 && kept_until <= u64::from(now) && job.state().number() == 4
}

/// The jobs that have expired.
pub(crate) fn expired_in(
    alloc: Global,
    jobs: &[Job],
    keep: u32,
    now: u32,
) -> Result<Vec<Job>, AllocError>
    ensures { IfOk result (λ v. v.items ≡ filter (has_expired keep now) jobs.now) }
{
    let mut late = Vec::new(alloc);
    for job in jobs {
        if is_late(job, keep, now) {
            late.push(job.try_clone()?)?;
        }
    }
    Ok(late)
}

/// The name is one of these.
fn is_named(names: &[&str], name: &str) -> bool
    ensures { result ≡ list_any (λ a. bytes_eq name.now a.now) names.now }
{
    names.iter().any(|a| name == *a)
}

/// The owners of these jobs, each once, in the order of their first jobs.
fn owners_of<'a>(alloc: Global, jobs: &'a [Job]) -> Result<Vec<&'a str>, AllocError>
    ensures { IfOk result (λ v. texts v.items ≡ owners jobs.now) }
{
    let mut names = Vec::new(alloc);
    for job in jobs {
        let owner = job.owner.as_str();
        if !is_named(names.as_slice(), owner) {
            names.push(owner)?;
        }
    }
    Ok(names)
}

/// The accounts of these names that are there.
fn accounts_named(
    alloc: Global,
    accounts: &Accounts,
    names: &[&str],
) -> Result<Vec<FreeRow>, AllocError>
    ensures { IfOk result (λ v. v.items ≡ rows_of_accounts (free_map accounts.now.entries) (texts names.now)) }
{
    let mut rows = Vec::new(alloc);
    for name in names {
        let owner = *name;
        if let Some(row) = free_row_of(alloc, accounts, owner)? {
            rows.push(row)?;
        }
    }
    Ok(rows)
}

/// The accounts of the owners of these jobs.
pub(crate) fn accounts_of_owners(
    alloc: Global,
    accounts: &Accounts,
    jobs: &[Job],
) -> Result<Vec<FreeRow>, AllocError>
    ensures { IfOk result (λ v. v.items ≡ rows_of_accounts (free_map accounts.now.entries) (owners jobs.now)) }
{
    let names = owners_of(alloc, jobs)?;
    accounts_named(alloc, accounts, names.as_slice())
}
