//! The accounts of the book in lists, by name.
ghost use Rattle.std.specs.Prelude.{ℕ, List, ◌≡◌, ◌≤◌, ◌<◌, ◌+◌, ◌^◌, IfOk, IsSome, OnOk, bytes_eq, fold, if◌then◌else◌, length, option_map};
ghost use Rattle.std.specs.FinMap.{get};
ghost use Rattle.std.specs.HashMap.{spare};
ghost use Rattle.std.specs.Map.{lookup};
ghost use Rattle.queue_core.specs.World.{found_row, put_free};
ghost use Rattle.list_book.specs.Tables.{free_map, total_of};

use crate::name::Name;
use queue_types::event::FreeRow;
use std::alloc::{AllocError, Global};
use std::collections::HashMap;

/// An account: its free pages, and the pages that were granted to it in all.
#[derive(Clone, Copy)]
pub(crate) struct Account {
    pub(crate) free: i64,
    pub(crate) granted: u32,
}

pub(crate) type Accounts = HashMap<Name, Account>;

fn account_named(accounts: &Accounts, name: &Name) -> Option<Account>
    ensures { result ≡ lookup (bytes_eq name.now) accounts.now.entries }
{
    accounts.get(name).copied()
}

/// The account's free pages, where it is there, and the pages that were granted to it in all.
pub(crate) fn pages_of(accounts: &Accounts, name: &Name) -> (Option<i64>, u32)
    ensures free { result.0 ≡ get (free_map accounts.now.entries) name.now }
    ensures granted { result.1 ≡ total_of accounts.now.entries name.now }
{
    match account_named(accounts, name) {
        Some(account) => (Some(account.free), account.granted),
        None => (None, 0),
    }
}

/// The account's free pages, where it is there.
fn free_pages(accounts: &Accounts, name: &Name) -> Option<i64>
    ensures { result ≡ get (free_map accounts.now.entries) name.now }
{
    pages_of(accounts, name).0
}

/// The account with its free pages, where it is there.
pub(crate) fn free_row_of(
    alloc: Global,
    accounts: &Accounts,
    account: &str,
) -> Result<Option<FreeRow>, AllocError>
    ensures { IfOk result (λ row. row ≡ option_map (λ free. record { account = account.now; free = free }) (get (free_map accounts.now.entries) account.now)) }
{
    let name = Name::copy_of(alloc, account)?;
    let Some(free) = free_pages(accounts, &name) else {
        return Ok(None);
    };
    Ok(Some(FreeRow {
        account: name.into_text(),
        free,
    }))
}

/// The account with its free pages in a list, where it is there.
pub(crate) fn free_rows_of(
    alloc: Global,
    accounts: &Accounts,
    account: &str,
) -> Result<Vec<FreeRow>, AllocError>
    ensures { IfOk result (λ v. v.items ≡ found_row account.now (get (free_map accounts.now.entries) account.now)) }
{
    let mut rows = Vec::new(alloc);
    if let Some(row) = free_row_of(alloc, accounts, account)? {
        rows.push(row)?;
    }
    Ok(rows)
}

/// Makes room for so many accounts.
pub(crate) fn reserve_accounts(accounts: &mut Accounts, more: usize) -> Result<(), AllocError>
    ensures free { free_map accounts.new.entries ≡ free_map accounts.old.entries }
    ensures totals { (a : List ℕ) → total_of accounts.new.entries a ≡ total_of accounts.old.entries a }
    ensures room { OnOk result (more ≤ spare accounts.new) }
{
    accounts.reserve(more)?;
    Ok(())
}

fn put_free_row(accounts: &mut Accounts, row: FreeRow)
    requires room { 0 < spare accounts.old }
    ensures free { free_map accounts.new.entries ≡ put_free (free_map accounts.old.entries) row }
    ensures totals { (a : List ℕ) → total_of accounts.new.entries a ≡ total_of accounts.old.entries a }
    ensures room { spare accounts.old ≤ spare accounts.new + 1 }
{
    let name = Name::from_text(row.account);
    if let Some(account) = accounts.get_mut(&name) {
        account.free = row.free;
        return;
    }
    let account = Account {
        free: row.free,
        granted: 0,
    };
    match accounts.insert(name, account) {
        Ok(_) => {}
        Err(_) => unreachable!("there is room for it"),
    }
}

pub(crate) fn put_free_rows(accounts: &mut Accounts, changed: Vec<FreeRow>)
    requires room { length changed.items ≤ spare accounts.old }
    ensures free { free_map accounts.new.entries ≡ fold put_free (free_map accounts.old.entries) changed.items }
    ensures totals { (a : List ℕ) → total_of accounts.new.entries a ≡ total_of accounts.old.entries a }
{
    for row in changed {
        put_free_row(accounts, row);
    }
}

/// Counts pages that are granted to an account that is there.
pub(crate) fn add_pages(accounts: &mut Accounts, name: &Name, pages: u32)
    requires there { IsSome (get (free_map accounts.old.entries) name.now) }
    requires fits { total_of accounts.old.entries name.now + pages < 2 ^ 32 }
    ensures free { free_map accounts.new.entries ≡ free_map accounts.old.entries }
    ensures totals { (a : List ℕ) → total_of accounts.new.entries a ≡ total_of accounts.old.entries a + (if bytes_eq name.now a then pages else 0) }
{
    if let Some(account) = accounts.get_mut(name) {
        account.granted += pages;
    }
}
