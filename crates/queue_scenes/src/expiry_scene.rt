//! The rows that a sweep needs: the jobs that have expired, and the accounts of their owners.
ghost use Rattle.std.specs.Prelude.{◌≡◌, ℕ, List, All, filter, IfOk, OnOk, IsTrue};
ghost use Rattle.sqlite.specs.Held.{state};
ghost use Rattle.sqlite.specs.State.{HasCleanDisk};
ghost use Rattle.queue_types.specs.Event.{expire};
ghost use Rattle.queue_core.specs.Limits.{IsAmount, IsFair, IsSoundJob};
ghost use Rattle.queue_core.specs.World.{cut, has_expired, owners, rows, rows_of_accounts};
ghost use Rattle.queue_tables.specs.Telling.{ReadsQueue};
ghost use Rattle.queue_scenes.specs.Expiry.{latest, texts};

use crate::accounts::free_rows;
use crate::call_scene::no_more_than_numbers;
use crate::jobs::select_jobs;
use queue_core::jobs_scene;
use queue_tables::fault::Fault;
use queue_tables::with_job_columns;
use queue_types::event::{FreeRow, Scene};
use queue_types::job::Job;
use queue_types::settings::Settings;
use sqlite::{Alter, Connection, params};
use std::alloc::{AllocError, Global};
use std::collections::BTreeSet;

/// The latest moment of creation of the jobs that have expired by now. It is before all moments if jobs are kept without end.
fn latest_of(keep: u32, now: u32) -> i64
    ensures { result ≡ latest keep now }
{
    if keep == 0 {
        return -1;
    }
    i64::from(now) - i64::from(keep)
}

/// The held and the open jobs that were created no later than this moment, by number.
fn jobs_until<S: Alter>(
    alloc: Global,
    conn: &mut Connection<S>,
    moment: i64,
) -> Result<Vec<Job>, Fault>
    ensures reads { (keep now : ℕ) → moment ≡ latest keep now → ReadsQueue (state S.Store conn.old) (state S.Store conn.new) result (λ w v. v.items ≡ filter (has_expired keep now) (rows w)) }
    ensures live { HasCleanDisk (state S.Store conn.new) → OnOk result (IsTrue (state S.Store conn.new).is_open) }
    ensures sound { IfOk result (λ v. All IsSoundJob v.items) }
{
    select_jobs(
        alloc,
        conn,
        with_job_columns!(
            "SELECT ",
            " FROM jobs WHERE phase = 0 AND hold + incoming > 0 AND created <= ?1 ORDER BY number"
        ),
        params![&moment],
    )
}

/// The jobs that have expired, by number.
fn expired_jobs<S: Alter>(
    alloc: Global,
    conn: &mut Connection<S>,
    keep: u32,
    now: u32,
) -> Result<Vec<Job>, Fault>
    ensures reads { ReadsQueue (state S.Store conn.old) (state S.Store conn.new) result (λ w v. v.items ≡ filter (has_expired keep now) (rows w)) }
    ensures live { HasCleanDisk (state S.Store conn.new) → OnOk result (IsTrue (state S.Store conn.new).is_open) }
    ensures sound { IfOk result (λ v. All IsSoundJob v.items) }
{
    let latest = latest_of(keep, now);
    jobs_until(alloc, conn, latest)
}

/// The owners of the jobs, each once, in the order of their first jobs.
fn owners_of<'a>(alloc: Global, jobs: &'a [Job]) -> Result<Vec<&'a str>, AllocError>
    ensures { IfOk result (λ v. texts v.items ≡ owners jobs.now) }
{
    let mut seen = BTreeSet::new(alloc);
    let mut names = Vec::new(alloc);
    for job in jobs {
        let owner = job.owner.as_str();
        if !seen.insert(owner)? {
            continue;
        }
        names.push(owner)?;
    }
    Ok(names)
}

/// The accounts of these names that are there.
fn accounts_of<S: Alter>(
    alloc: Global,
    conn: &mut Connection<S>,
    names: &[&str],
) -> Result<Vec<FreeRow>, Fault>
    ensures reads { ReadsQueue (state S.Store conn.old) (state S.Store conn.new) result (λ w v. v.items ≡ rows_of_accounts w.free (texts names.now)) }
    ensures live { HasCleanDisk (state S.Store conn.new) → IsTrue (state S.Store conn.old).is_open → OnOk result (IsTrue (state S.Store conn.new).is_open) }
    ensures within { IfOk result (λ v. All (λ a. IsAmount a.free) v.items) }
{
    let mut free = Vec::new(alloc);
    for name in names {
        let mut found = free_rows(alloc, conn, name)?;
        free.append(&mut found)?;
    }
    Ok(free)
}

/// The accounts of the owners of these jobs.
fn accounts_of_owners<S: Alter>(
    alloc: Global,
    conn: &mut Connection<S>,
    jobs: &[Job],
) -> Result<Vec<FreeRow>, Fault>
    ensures reads { ReadsQueue (state S.Store conn.old) (state S.Store conn.new) result (λ w v. v.items ≡ rows_of_accounts w.free (owners jobs.now)) }
    ensures live { HasCleanDisk (state S.Store conn.new) → IsTrue (state S.Store conn.old).is_open → OnOk result (IsTrue (state S.Store conn.new).is_open) }
    ensures within { IfOk result (λ v. All (λ a. IsAmount a.free) v.items) }
{
    let names = owners_of(alloc, jobs)?;
    accounts_of(alloc, conn, names.as_slice())
}

/// The rows that a sweep needs.
pub(crate) fn scene_of_expire<S: Alter>(
    alloc: Global,
    conn: &mut Connection<S>,
    settings: &Settings,
    now: u32,
) -> Result<Scene, Fault>
    ensures reads { ReadsQueue (state S.Store conn.old) (state S.Store conn.new) result (λ w s. settings.now ≡ w.settings → s ≡ cut w now expire) }
    ensures live { HasCleanDisk (state S.Store conn.new) → OnOk result (IsTrue (state S.Store conn.new).is_open) }
    ensures fair { IfOk result IsFair }
{
    let jobs = expired_jobs(alloc, conn, settings.keep(), now)?;
    let jobs = no_more_than_numbers(jobs)?;
    let free = accounts_of_owners(alloc, conn, jobs.as_slice())?;
    let scene = jobs_scene(alloc, settings, jobs, free)?;
    Ok(scene)
}
