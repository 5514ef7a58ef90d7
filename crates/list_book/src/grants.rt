//! The grants of the book in lists, by batch and account.
ghost use Rattle.std.specs.Prelude.{ℕ, List, ◌≡◌, ◌≤◌, ◌<◌, ◌+◌, ◌^◌, IfOk, IsSome, OnOk, bytes_eq, fold, if◌then◌else◌, length, map};
ghost use Rattle.std.specs.FinMap.{get};
ghost use Rattle.std.specs.HashMap.{spare};
ghost use Rattle.queue_core.specs.Grants.{pages_to};
ghost use Rattle.queue_core.specs.World.{put_grant as with_grant};
ghost use Rattle.list_book.specs.Tables.{HaveAccounts, free_map, grants_map, known_in, total_of};

use crate::accounts::{Accounts, add_pages, pages_of};
use crate::name::Name;
use queue_types::event::{GrantRow, KnownGrant};
use std::alloc::{AllocError, Global};
use std::collections::HashMap;

/// The pages of the grants, by batch and account.
pub(crate) type Grants = HashMap<(Name, Name), u32>;

/// The pages that are granted under a batch to an account.
fn pages_under(grants: &Grants, key: &(Name, Name)) -> Option<u32>
    ensures { result ≡ get (grants_map grants.now.entries) key.now }
{
    grants.get(key).copied()
}

/// What is known of a row of an account file.
fn known_grant(
    alloc: Global,
    grants: &Grants,
    accounts: &Accounts,
    row: &GrantRow,
) -> Result<KnownGrant, AllocError>
    ensures { IfOk result (λ k. k ≡ known_in grants.now.entries accounts.now.entries row.now) }
{
    let batch = Name::copy_of(alloc, row.batch.as_str())?;
    let account = Name::copy_of(alloc, row.account.as_str())?;
    let (free, granted) = pages_of(accounts, &account);
    let key = (batch, account);
    Ok(KnownGrant {
        pages: pages_under(grants, &key),
        granted,
        free,
    })
}

/// What is known of each row of an account file.
pub(crate) fn known_rows(
    alloc: Global,
    grants: &Grants,
    accounts: &Accounts,
    rows: &[GrantRow],
) -> Result<Vec<KnownGrant>, AllocError>
    ensures { IfOk result (λ v. v.items ≡ map (known_in grants.now.entries accounts.now.entries) rows.now) }
{
    let mut known = Vec::new(alloc);
    for row in rows {
        known.push(known_grant(alloc, grants, accounts, row)?)?;
    }
    Ok(known)
}

/// Makes room for so many grants.
pub(crate) fn reserve_grants(grants: &mut Grants, more: usize) -> Result<(), AllocError>
    ensures same { grants_map grants.new.entries ≡ grants_map grants.old.entries }
    ensures room { OnOk result (more ≤ spare grants.new) }
{
    grants.reserve(more)?;
    Ok(())
}

/// Writes a grant to an account that is there, and counts its pages.
fn put_grant(grants: &mut Grants, accounts: &mut Accounts, row: GrantRow)
    requires room { 0 < spare grants.old }
    requires there { IsSome (get (free_map accounts.old.entries) row.account) }
    requires fits { total_of accounts.old.entries row.account + row.pages < 2 ^ 32 }
    ensures grants { grants_map grants.new.entries ≡ with_grant (grants_map grants.old.entries) row }
    ensures free { free_map accounts.new.entries ≡ free_map accounts.old.entries }
    ensures totals { (a : List ℕ) → total_of accounts.new.entries a ≡ total_of accounts.old.entries a + (if bytes_eq row.account a then row.pages else 0) }
    ensures room { spare grants.old ≤ spare grants.new + 1 }
{
    let key = (Name::from_text(row.batch), Name::from_text(row.account));
    add_pages(accounts, &key.1, row.pages);
    match grants.insert(key, row.pages) {
        Ok(_) => {}
        Err(_) => unreachable!("there is room for it"),
    }
}

/// Writes grants to accounts that are there, and counts their pages.
pub(crate) fn put_grants(grants: &mut Grants, accounts: &mut Accounts, new: Vec<GrantRow>)
    requires room { length new.items ≤ spare grants.old }
    requires there { HaveAccounts (free_map accounts.old.entries) new.items }
    requires fits { (a : List ℕ) → total_of accounts.old.entries a + pages_to a new.items < 2 ^ 32 }
    ensures grants { grants_map grants.new.entries ≡ fold with_grant (grants_map grants.old.entries) new.items }
    ensures free { free_map accounts.new.entries ≡ free_map accounts.old.entries }
    ensures totals { (a : List ℕ) → total_of accounts.new.entries a ≡ total_of accounts.old.entries a + pages_to a new.items }
{
    for row in new {
        put_grant(grants, accounts, row);
    }
}
