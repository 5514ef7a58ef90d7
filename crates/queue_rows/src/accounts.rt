//! The rows of accounts: their order, and that they are those that have a grant.
ghost use Rattle.std.specs.Prelude.{◌↔◌, ◌≤◌, All, IsTrue};
ghost use Rattle.queue_rows.specs.Totals.{total_in};

use crate::order::Keyed;
use crate::rows::AccountRow;
use crate::totals::total_of;
use queue_types::event::GrantRow;
use std::collections::BTreeMap;

/// By name.
impl Keyed for AccountRow {
    ghost use Rattle.queue_rows.specs.Accounts.{account_before};

    ghost before = { account_before };

    fn is_before(&self, other: &AccountRow) -> bool {
        self.name.as_str() < other.name.as_str()
    }
}

fn has_total(sums: &BTreeMap<&str, u128>, name: &str) -> bool
    ensures { IsTrue result ↔ (1 ≤ total_in sums.now name.now) }
{
    total_of(sums, name) >= 1
}

/// Each grant's account is among the names.
pub(crate) fn grants_have_accounts(grants: &[GrantRow], names: &BTreeMap<&str, u128>) -> bool
    ensures { IsTrue result ↔ All (λ g. 1 ≤ total_in names.now g.account) grants.now }
{
    grants
        .iter()
        .all(|grant| has_total(names, grant.account.as_str()))
}

/// Each account was granted pages.
pub(crate) fn accounts_have_grants(accounts: &[AccountRow], granted: &BTreeMap<&str, u128>) -> bool
    ensures { IsTrue result ↔ All (λ a. 1 ≤ total_in granted.now a.name) accounts.now }
{
    accounts
        .iter()
        .all(|account| has_total(granted, account.name.as_str()))
}
