//! The sums of what rows tell of their accounts or owners.
ghost use Rattle.std.specs.Prelude.{◌≡◌, ℕ, List, IfOk};
ghost use Rattle.queue_core.specs.World.{live_jobs};
ghost use Rattle.queue_rows.specs.Accounts.{accounts_of, reserved_for, printed_for};
ghost use Rattle.queue_rows.specs.Totals.{AreGranted, total_in};

use crate::rows::AccountRow;
use crate::totals::totals;
use queue_types::event::GrantRow;
use queue_types::job::Job;
use std::alloc::{AllocError, Global};
use std::collections::BTreeMap;

/// The pages that were granted to each account.
pub(crate) fn granted_totals<'a>(
    alloc: Global,
    grants: &'a [GrantRow],
) -> Result<BTreeMap<&'a str, u128>, AllocError>
    ensures { IfOk result (λ m. AreGranted m grants.now) }
{
    totals(alloc, grants, |grant| {
        (grant.account.as_str(), u64::from(grant.pages))
    })
}

/// The pages that are set aside for each owner's jobs.
pub(crate) fn reserved_totals<'a>(
    alloc: Global,
    jobs: &'a [Job],
) -> Result<BTreeMap<&'a str, u128>, AllocError>
    ensures { IfOk result (λ m. (q : List ℕ) → total_in m q ≡ reserved_for q jobs.now) }
{
    totals(alloc, jobs, |job| (job.owner.as_str(), job.owed()))
}

/// The pages that each owner's jobs have printed.
pub(crate) fn printed_totals<'a>(
    alloc: Global,
    jobs: &'a [Job],
) -> Result<BTreeMap<&'a str, u128>, AllocError>
    ensures { IfOk result (λ m. (q : List ℕ) → total_in m q ≡ printed_for q jobs.now) }
{
    totals(alloc, jobs, |job| {
        (job.owner.as_str(), u64::from(job.count))
    })
}

/// How many accounts have each name.
pub(crate) fn name_totals<'a>(
    alloc: Global,
    accounts: &'a [AccountRow],
) -> Result<BTreeMap<&'a str, u128>, AllocError>
    ensures { IfOk result (λ m. (q : List ℕ) → total_in m q ≡ accounts_of q accounts.now) }
{
    totals(alloc, accounts, |account| (account.name.as_str(), 1u64))
}

/// How many jobs of each owner are in the states 3 to 6.
pub(crate) fn live_totals<'a>(
    alloc: Global,
    jobs: &'a [Job],
) -> Result<BTreeMap<&'a str, u128>, AllocError>
    ensures { IfOk result (λ m. (q : List ℕ) → total_in m q ≡ live_jobs q jobs.now) }
{
    totals(alloc, jobs, |job| {
        (job.owner.as_str(), u64::from(job.is_live()))
    })
}
