//! The rows of grants: each one's own limits, their order, and the most of an account.
ghost use Rattle.std.specs.Prelude.{◌↔◌, ◌≤◌, ℕ, List, All, IsTrue};
ghost use Rattle.queue_rows.specs.Grants.{IsGrantRow};
ghost use Rattle.queue_rows.specs.Totals.{total_in};

use crate::order::Keyed;
use crate::totals::are_within;
use queue_core::{is_batch, is_owner};
use queue_types::event::GrantRow;
use queue_types::limits::{MOST_GRANTED_PAGES, MOST_ROW_PAGES};
use std::collections::BTreeMap;

/// By batch, then by account.
impl Keyed for GrantRow {
    ghost use Rattle.queue_rows.specs.Grants.{grant_before};

    ghost before = { grant_before };

    fn is_before(&self, other: &GrantRow) -> bool {
        (self.batch.as_str(), self.account.as_str())
            < (other.batch.as_str(), other.account.as_str())
    }
}

fn is_grant(grant: &GrantRow) -> bool
    ensures { IsTrue result ↔ IsGrantRow grant.now }
{
    let names = is_batch(grant.batch.as_str()) && is_owner(grant.account.as_str());
    names && grant.pages >= 1 && grant.pages <= MOST_ROW_PAGES
}

/// The batch, the account and the pages of each are within their limits.
pub(crate) fn grants_are_sound(grants: &[GrantRow]) -> bool
    ensures { IsTrue result ↔ All IsGrantRow grants.now }
{
    grants.iter().all(is_grant)
}

/// No account was granted more than 1,000,000,000 pages.
pub(crate) fn grants_are_within(granted: &BTreeMap<&str, u128>) -> bool
    ensures { IsTrue result ↔ ((a : List ℕ) → total_in granted.now a ≤ 1000000000) }
{
    are_within(granted, u128::from(MOST_GRANTED_PAGES))
}
