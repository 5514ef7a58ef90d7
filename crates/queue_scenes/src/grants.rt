//! What is known of the rows of an account file.
ghost use Rattle.std.specs.Prelude.{◌≡◌, ◌+◌, ◌+ℤ◌, pos, All, map, IfOk, OnOk, IfSome, IsNone, IsTrue, option_map, IfErr, IsSomeAnd};
ghost use Rattle.std.specs.FinMap.{get};
ghost use Rattle.sqlite.specs.Held.{state};
ghost use Rattle.sqlite.specs.State.{HasCleanDisk};
ghost use Rattle.queue_core.specs.Limits.{IsKnown};
ghost use Rattle.queue_core.specs.World.{known_grant};
ghost use Rattle.queue_tables.specs.Telling.{ReadsQueue};
ghost use Rattle.queue_scenes.specs.Accounts.{FitAccount};

use crate::accounts::free_in;
use queue_tables::account_pages::{AccountPages, find_account};
use queue_tables::fault::Fault;
use queue_tables::read::value;
use queue_tables::select::select;
use queue_types::event::{GrantRow, KnownGrant};
use sqlite::{Alter, Connection, params};
use std::alloc::Global;

/// The pages granted under the batch to the account, where they are.
fn pages_under<S: Alter>(
    conn: &mut Connection<S>,
    batch: &str,
    account: &str,
) -> Result<Option<u32>, Fault>
    ensures reads { ReadsQueue (state S.Store conn.old) (state S.Store conn.new) result (λ w found. found ≡ get w.grants (batch.now, account.now)) }
    ensures live { HasCleanDisk (state S.Store conn.new) → OnOk result (IsTrue (state S.Store conn.new).is_open) }
{
    let found = select(
        conn,
        "SELECT pages FROM grants WHERE batch = ?1 AND account = ?2",
        params![batch, account],
    )?;
    match found.first() {
        None => Ok(None),
        Some(row) => {
            let pages: u32 = value(row, 0)?;
            Ok(Some(pages))
        }
    }
}

/// What is known of a batch and an account, by the pages granted under them, where they are, and the account's row,
/// where it is there.
fn known_of(pages: Option<u32>, found: Option<AccountPages>) -> Result<KnownGrant, Fault>
    ensures within { IfOk result IsKnown }
    ensures pages { IfOk result (λ k. k.pages ≡ pages) }
    ensures free { IfOk result (λ k. k.free ≡ option_map (λ p. p.free) found) }
    ensures none { IsNone found → IfOk result (λ k. k.granted ≡ 0) }
    ensures sum { IfSome found (λ p. IfOk result (λ k. pos k.granted ≡ p.free +ℤ pos (p.reserved + p.printed))) }
    ensures damaged { IfErr result (λ _. IsSomeAnd found (λ p. ¬ FitAccount p)) }
{
    let Some(account) = found else {
        return Ok(KnownGrant {
            pages,
            granted: 0,
            free: None,
        });
    };
    let granted = account.granted()?;
    let free = free_in(account)?;
    Ok(KnownGrant {
        pages,
        granted,
        free: Some(free),
    })
}

/// What is known of the row's batch and account.
fn known<S: Alter>(conn: &mut Connection<S>, row: &GrantRow) -> Result<KnownGrant, Fault>
    ensures reads { ReadsQueue (state S.Store conn.old) (state S.Store conn.new) result (λ w k. k ≡ known_grant w row.now) }
    ensures live { HasCleanDisk (state S.Store conn.new) → OnOk result (IsTrue (state S.Store conn.new).is_open) }
    ensures within { IfOk result IsKnown }
{
    let batch = row.batch.as_str();
    let account = row.account.as_str();
    let pages = pages_under(conn, batch, account)?;
    let found = find_account(conn, account)?;
    known_of(pages, found)
}

/// What is known of each row.
pub(crate) fn known_rows<S: Alter>(
    alloc: Global,
    conn: &mut Connection<S>,
    rows: &[GrantRow],
) -> Result<Vec<KnownGrant>, Fault>
    ensures reads { ReadsQueue (state S.Store conn.old) (state S.Store conn.new) result (λ w v. v.items ≡ map (known_grant w) rows.now) }
    ensures live { HasCleanDisk (state S.Store conn.new) → OnOk result (IsTrue (state S.Store conn.old).is_open → IsTrue (state S.Store conn.new).is_open) }
    ensures within { IfOk result (λ v. All IsKnown v.items) }
{
    let mut all = Vec::new(alloc);
    for row in rows {
        all.push(known(conn, row)?)?;
    }
    Ok(all)
}
