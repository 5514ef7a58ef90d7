//! What is stored of an account against grants and jobs.
ghost use Rattle.std.specs.Prelude.{◌≡◌, ◌↔◌, ◌<◌, ◌^◌, pos, ◌+ℤ◌, List, All, IfOk, IsTrue};
ghost use Rattle.queue_types.specs.declared.event.GrantRow.{GrantRow};
ghost use Rattle.queue_rows.specs.Accounts.{HasSums, IsBalanced};
ghost use Rattle.queue_rows.specs.Totals.{AreGranted, total_in};

use crate::amounts::{printed_totals, reserved_totals};
use crate::rows::AccountRow;
use crate::totals::total_of;
use queue_types::job::Job;
use std::alloc::{AllocError, Global};
use std::collections::BTreeMap;

fn is_sum(granted: u128, free: i64, spent: u128) -> bool
    requires { spent < 2 ^ 70 }
    ensures { IsTrue result ↔ (pos granted ≡ free +ℤ pos spent) }
{
    let size = u128::from(free.unsigned_abs());
    if free >= 0 {
        granted == size + spent
    } else {
        spent >= size && granted == spent - size
    }
}

/// The stored sums are these, and pages granted are those free, reserved and printed.
fn is_balanced(account: &AccountRow, granted: u128, reserved: u128, printed: u128) -> bool
    ensures { IsTrue result ↔ HasSums granted reserved printed account.now }
{
    let spent = u128::from(account.reserved) + u128::from(account.printed);
    u128::from(account.reserved) == reserved
        && u128::from(account.printed) == printed
        && is_sum(granted, account.free, spent)
}

fn is_account_balanced(
    account: &AccountRow,
    granted: &BTreeMap<&str, u128>,
    reserved: &BTreeMap<&str, u128>,
    printed: &BTreeMap<&str, u128>,
) -> bool
    ensures { IsTrue result ↔ HasSums (total_in granted.now account.now.name) (total_in reserved.now account.now.name) (total_in printed.now account.now.name) account.now }
{
    let name = account.name.as_str();
    is_balanced(
        account,
        total_of(granted, name),
        total_of(reserved, name),
        total_of(printed, name),
    )
}

/// What is stored of each account is what these sums say.
fn are_balanced(
    accounts: &[AccountRow],
    granted: &BTreeMap<&str, u128>,
    reserved: &BTreeMap<&str, u128>,
    printed: &BTreeMap<&str, u128>,
) -> bool
    ensures { IsTrue result ↔ All (λ a. HasSums (total_in granted.now a.name) (total_in reserved.now a.name) (total_in printed.now a.name) a) accounts.now }
{
    accounts.iter().all(|account| is_account_balanced(account, granted, reserved, printed))
}

/// What is stored of each account is what grants and jobs say.
pub(crate) fn accounts_are_balanced(
    alloc: Global,
    accounts: &[AccountRow],
    granted: &BTreeMap<&str, u128>,
    jobs: &[Job],
) -> Result<bool, AllocError>
    ensures { IfOk result (λ b. (gs : List GrantRow) → AreGranted granted.now gs → IsTrue b ↔ All (IsBalanced gs jobs.now) accounts.now) }
{
    let reserved = reserved_totals(alloc, jobs)?;
    let printed = printed_totals(alloc, jobs)?;
    Ok(are_balanced(accounts, granted, &reserved, &printed))
}
