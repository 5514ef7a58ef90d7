//! One account, by its name.
ghost use Rattle.std.specs.Prelude.{◌≡◌, All, IfOk, IfErr, OnOk, IsTrue};
ghost use Rattle.std.specs.FinMap.{get};
ghost use Rattle.sqlite.specs.Held.{state};
ghost use Rattle.sqlite.specs.State.{HasCleanDisk};
ghost use Rattle.queue_core.specs.Limits.{IsAmount};
ghost use Rattle.queue_core.specs.World.{found_row, owner_row};
ghost use Rattle.queue_tables.specs.Telling.{ReadsQueue};
ghost use Rattle.queue_scenes.specs.Accounts.{FitAccount};

use queue_tables::account_pages::{AccountPages, find_account};
use queue_tables::fault::Fault;
use queue_types::event::FreeRow;
use queue_types::job::Job;
use queue_types::text::Text;
use sqlite::{Alter, Connection};
use std::alloc::Global;

/// 2^60 pages: no sum over an account's jobs comes near it.
const MOST_SUM: i64 = 1 << 60;

/// The free pages of an account. They are damaged where they are out of all bounds.
pub(crate) fn free_in(pages: AccountPages) -> Result<i64, Fault>
    ensures same { IfOk result (λ free. free ≡ pages.free) }
    ensures within { IfOk result IsAmount }
    ensures damaged { IfErr result (λ _. ¬ FitAccount pages) }
{
    if pages.free < -MOST_SUM || pages.free > MOST_SUM {
        return Err(Fault::Damaged);
    }
    Ok(pages.free)
}

/// The account with its free pages, where it is there.
pub(crate) fn free_rows<S: Alter>(
    alloc: Global,
    conn: &mut Connection<S>,
    name: &str,
) -> Result<Vec<FreeRow>, Fault>
    ensures reads { ReadsQueue (state S.Store conn.old) (state S.Store conn.new) result (λ w rows. rows.items ≡ found_row name.now (get w.free name.now)) }
    ensures live { HasCleanDisk (state S.Store conn.new) → OnOk result (IsTrue (state S.Store conn.new).is_open) }
    ensures within { IfOk result (λ rows. All (λ a. IsAmount a.free) rows.items) }
{
    let found = find_account(conn, name)?;
    let mut rows = Vec::new(alloc);
    if let Some(pages) = found {
        let free = free_in(pages)?;
        let account = Text::copy_of(alloc, name)?;
        rows.push(FreeRow { account, free })?;
    }
    Ok(rows)
}

/// The account of the first job's owner.
pub(crate) fn owner_rows<S: Alter>(
    alloc: Global,
    conn: &mut Connection<S>,
    jobs: &[Job],
) -> Result<Vec<FreeRow>, Fault>
    ensures reads { ReadsQueue (state S.Store conn.old) (state S.Store conn.new) result (λ w v. v.items ≡ owner_row w.free jobs.now) }
    ensures live { HasCleanDisk (state S.Store conn.new) → IsTrue (state S.Store conn.old).is_open → OnOk result (IsTrue (state S.Store conn.new).is_open) }
    ensures within { IfOk result (λ v. All (λ a. IsAmount a.free) v.items) }
{
    match jobs {
        [] => Ok(Vec::new(alloc)),
        [job, ..] => free_rows(alloc, conn, job.owner.as_str()),
    }
}
