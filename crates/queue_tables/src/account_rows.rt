//! The statements on accounts.
ghost use Rattle.std.specs.Prelude.{◌≡◌, ◌≢◌, IsTrue, OnOk, IfOk, None, pos, filter, []};
ghost use Rattle.std.specs.FinMap.{get};
ghost use Rattle.sqlite.specs.State.{HasCleanDisk};
ghost use Rattle.sqlite.specs.Held.{state};
ghost use Rattle.queue_core.specs.World.{World};
ghost use Rattle.queue_tables.specs.Making.{MakesQueue, MakesRows};
ghost use Rattle.queue_tables.specs.Content.{Holds, content_of, HoldsWhileOpen};
ghost use Rattle.queue_tables.specs.Leaving.{StaysInside};
ghost use Rattle.queue_tables.specs.Steps.{AreCovered, CanAdd, with_account_row, with_free, with_frees, with_sums, is_named};
ghost use Rattle.queue_tables.specs.Values.{account_values};
ghost use Rattle.queue_tables.specs.Refusing.{DamagedOnlyWhere};

use crate::fault::Fault;
use crate::run::{insert, run, write};
use queue_types::event::FreeRow;
use sqlite::{Alter, Transaction, params};

/// Pages that are added to the sums of an account, below zero where they are taken off.
#[derive(Clone, Copy, Debug)]
pub(crate) struct SumChange {
    pub reserved: i64,
    pub printed: i64,
}

/// Adds to the sums of an account, where it is there. A job that is held takes nothing, and then nothing is written.
pub(crate) fn add_to_sums<S: Alter>(
    tx: &mut Transaction<'_, S>,
    name: &str,
    more: SumChange,
) -> Result<(), Fault>
    ensures same_reference { tx.new.conn.ghost_name ≡ tx.old.conn.ghost_name }
    ensures made { MakesRows (state S.Store tx.old.conn.now) (state S.Store tx.new.conn.now) result (CanAdd name.now more.reserved more.printed) (with_sums name.now more.reserved more.printed) }
{
    if more.reserved == 0 && more.printed == 0 {
        return Ok(());
    }
    write(
        tx,
        "UPDATE accounts SET reserved = reserved + ?2, printed = printed + ?3 WHERE name = ?1",
        params![name, &more.reserved, &more.printed],
    )
}

/// Adds an account whose owner has no pages reserved or printed.
fn insert_account<S: Alter>(tx: &mut Transaction<'_, S>, account: &FreeRow) -> Result<(), Fault>
    ensures same_reference { tx.new.conn.ghost_name ≡ tx.old.conn.ghost_name }
    ensures made { MakesRows (state S.Store tx.old.conn.now) (state S.Store tx.new.conn.now) result (λ c. filter (is_named account.now.account) c.accounts ≡ []) (with_account_row (account_values account.now.account account.now.free (pos 0) (pos 0))) }
{
    insert(
        tx,
        "INSERT INTO accounts (name, free, reserved, printed) VALUES (?1, ?2, ?3, ?4)",
        params![account.account.as_str(), &account.free, 0i64, 0i64],
    )
}

/// Puts the free pages of an account, and tells how many rows were written: none where the account isn't there.
fn update_free<S: Alter>(tx: &mut Transaction<'_, S>, account: &FreeRow) -> Result<usize, Fault>
    ensures same_reference { tx.new.conn.ghost_name ≡ tx.old.conn.ghost_name }
    ensures stays { StaysInside (state S.Store tx.old.conn.now) (state S.Store tx.new.conn.now) result }
    ensures live { HasCleanDisk (state S.Store tx.new.conn.now) → OnOk result (IsTrue (state S.Store tx.new.conn.now).is_open) }
    ensures put { HasCleanDisk (state S.Store tx.new.conn.now) → IfOk result (λ count. (w : World) → Holds (content_of w) (state S.Store tx.old.conn.now) → count ≢ 0 → Holds (content_of (with_free account.now w)) (state S.Store tx.new.conn.now)) }
    ensures lacking { HasCleanDisk (state S.Store tx.new.conn.now) → IfOk result (λ count. (w : World) → Holds (content_of w) (state S.Store tx.old.conn.now) → count ≡ 0 → (get w.free account.now.account ≡ None) × Holds (content_of w) (state S.Store tx.new.conn.now)) }
    ensures damaged { DamagedOnlyWhere (state S.Store tx.old.conn.now) (state S.Store tx.new.conn.now) result ((w : World) → ¬ HoldsWhileOpen (content_of w) (state S.Store tx.old.conn.now)) }
{
    run(
        tx,
        "UPDATE accounts SET free = ?2 WHERE name = ?1",
        params![account.account.as_str(), &account.free],
    )
}

/// Puts the free pages of an account, or adds it where it is not there.
fn put_free<S: Alter>(tx: &mut Transaction<'_, S>, account: &FreeRow) -> Result<(), Fault>
    ensures same_reference { tx.new.conn.ghost_name ≡ tx.old.conn.ghost_name }
    ensures made { MakesQueue (state S.Store tx.old.conn.now) (state S.Store tx.new.conn.now) result AreCovered (with_free account.now) }
{
    let count = update_free(tx, account)?;
    if count > 0 {
        return Ok(());
    }
    insert_account(tx, account)
}

/// Puts the free pages of accounts in turn.
pub(crate) fn put_frees<S: Alter>(
    tx: &mut Transaction<'_, S>,
    accounts: &[FreeRow],
) -> Result<(), Fault>
    ensures same_reference { tx.new.conn.ghost_name ≡ tx.old.conn.ghost_name }
    ensures made { MakesQueue (state S.Store tx.old.conn.now) (state S.Store tx.new.conn.now) result AreCovered (with_frees accounts.now) }
{
    for account in accounts {
        put_free(tx, account)?;
    }
    Ok(())
}
