//! What the book in lists tells an office of an account.
ghost use Rattle.std.specs.Prelude.{◌≡◌, ◌<◌, ◌^◌, IfOk, option_map};
ghost use Rattle.std.specs.FinMap.{get};
ghost use Rattle.queue_core.specs.Shown.{charged_to};
ghost use Rattle.queue_core.specs.Sound.{printed_for, reserved_for};
ghost use Rattle.list_book.specs.Lists.{sheet_in};
ghost use Rattle.list_book.specs.Tables.{free_map, total_of};

use crate::accounts::pages_of;
use crate::lists::Lists;
use crate::name::Name;
use queue_types::job::{Job, JobList};
use queue_types::sheet::AccountSheet;
use std::alloc::{AllocError, Global};

/// The account's jobs that have pages reserved or printed.
fn sheet_jobs(alloc: Global, jobs: &[Job], account: &str) -> Result<Vec<Job>, AllocError>
    ensures { IfOk result (λ v. v.items ≡ charged_to account.now jobs.now) }
{
    let mut shown = Vec::new(alloc);
    for job in jobs {
        if job.owner.as_str() == account && (0 < job.owed() || 0 < job.count) {
            shown.push(job.try_clone()?)?;
        }
    }
    Ok(shown)
}

/// The pages that are reserved in the account.
fn reserved_in(jobs: &[Job], account: &str) -> u64
    requires { reserved_for account.now jobs.now < 2 ^ 64 }
    ensures { result ≡ reserved_for account.now jobs.now }
{
    let mut pages = 0;
    for job in jobs {
        if job.owner.as_str() == account {
            pages += job.owed();
        }
    }
    pages
}

/// The pages that are printed in the account.
fn printed_in(jobs: &[Job], account: &str) -> u64
    requires { printed_for account.now jobs.now < 2 ^ 64 }
    ensures { result ≡ printed_for account.now jobs.now }
{
    let mut pages = 0;
    for job in jobs {
        if job.owner.as_str() == account {
            pages += u64::from(job.count);
        }
    }
    pages
}

/// The sheet of an account that is there, with its free pages and those that were granted to it.
fn sheet_with(
    alloc: Global,
    lists: &Lists,
    account: &str,
    name: Name,
    free: i64,
    granted: u32,
) -> Result<AccountSheet, AllocError>
    requires name { name ≡ account.now }
    requires granted { granted ≡ total_of lists.now.accounts.entries account.now }
    requires reserved { reserved_for account.now lists.now.jobs.items < 2 ^ 64 }
    requires printed { printed_for account.now lists.now.jobs.items < 2 ^ 64 }
    ensures { IfOk result (λ s. s ≡ sheet_in lists.now account.now free) }
{
    let jobs = lists.jobs.as_slice();
    let shown = sheet_jobs(alloc, jobs, account)?;
    Ok(AccountSheet {
        account: name.into_text(),
        granted: u64::from(granted),
        free,
        reserved: reserved_in(jobs, account),
        printed: printed_in(jobs, account),
        jobs: JobList::from_items(shown),
    })
}

/// What is granted to the account, what of it is free, reserved and printed, where the account is there.
pub(crate) fn sheet(
    alloc: Global,
    lists: &Lists,
    account: &str,
) -> Result<Option<AccountSheet>, AllocError>
    requires reserved { reserved_for account.now lists.now.jobs.items < 2 ^ 64 }
    requires printed { printed_for account.now lists.now.jobs.items < 2 ^ 64 }
    ensures { IfOk result (λ s. s ≡ option_map (sheet_in lists.now account.now) (get (free_map lists.now.accounts.entries) account.now)) }
{
    let name = Name::copy_of(alloc, account)?;
    let (Some(free), granted) = pages_of(&lists.accounts, &name) else {
        return Ok(None);
    };
    let sheet = sheet_with(alloc, lists, account, name, free, granted)?;
    Ok(Some(sheet))
}
