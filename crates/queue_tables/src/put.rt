//! The jobs of a change, with the sums of their accounts.
ghost use Rattle.std.specs.Prelude.{◌≡◌, [], ◌∷◌, Some, None, option_map};
ghost use Rattle.sqlite.specs.Held.{state};
ghost use Rattle.queue_core.specs.World.{rows, job_at};
ghost use Rattle.queue_tables.specs.Making.{MakesQueue};
ghost use Rattle.queue_tables.specs.Steps.{CanPut, bare, with_put, with_puts};

use crate::account_rows::add_to_sums;
use crate::fault::Fault;
use crate::job_rows::{find_job, insert_job, update_job};
use crate::pages::{returned_by, taken_by};
use queue_types::job::Job;
use sqlite::{Alter, Transaction};
use std::alloc::Global;

/// Adds a job that is not there, and what it takes of its account.
fn enter_job<S: Alter>(tx: &mut Transaction<'_, S>, job: &Job) -> Result<(), Fault>
    ensures same_reference { tx.new.conn.ghost_name ≡ tx.old.conn.ghost_name }
    ensures made { MakesQueue (state S.Store tx.old.conn.now) (state S.Store tx.new.conn.now) result (λ w. CanPut (job.now ∷ []) w × (job_at job.now.number (rows w) ≡ None)) (with_put job.now) }
{
    let taken = taken_by(job)?;
    insert_job(tx, job)?;
    add_to_sums(tx, job.owner.as_str(), taken)
}

/// Puts a job in place of what it was, and moves the pages that it takes of its account.
fn replace_job<S: Alter>(tx: &mut Transaction<'_, S>, job: &Job, before: &Job) -> Result<(), Fault>
    ensures same_reference { tx.new.conn.ghost_name ≡ tx.old.conn.ghost_name }
    ensures made { MakesQueue (state S.Store tx.old.conn.now) (state S.Store tx.new.conn.now) result (λ w. CanPut (job.now ∷ []) w × (Some before.now ≡ option_map bare (job_at job.now.number (rows w)))) (with_put job.now) }
{
    let back = returned_by(before)?;
    let taken = taken_by(job)?;
    update_job(tx, job)?;
    // back to the owner before, and off the owner now: in a decision these are one, but no premise here says so
    add_to_sums(tx, before.owner.as_str(), back)?;
    add_to_sums(tx, job.owner.as_str(), taken)
}

/// Puts a job anew, or adds it where there is none of its number.
fn put_job<S: Alter>(alloc: Global, tx: &mut Transaction<'_, S>, job: &Job) -> Result<(), Fault>
    ensures same_reference { tx.new.conn.ghost_name ≡ tx.old.conn.ghost_name }
    ensures made { MakesQueue (state S.Store tx.old.conn.now) (state S.Store tx.new.conn.now) result (CanPut (job.now ∷ [])) (with_put job.now) }
{
    match find_job(alloc, tx, job.number)? {
        Some(before) => replace_job(tx, job, &before),
        None => enter_job(tx, job),
    }
}

/// Puts jobs in turn.
pub(crate) fn put_jobs<S: Alter>(
    alloc: Global,
    tx: &mut Transaction<'_, S>,
    jobs: &[Job],
) -> Result<(), Fault>
    ensures same_reference { tx.new.conn.ghost_name ≡ tx.old.conn.ghost_name }
    ensures made { MakesQueue (state S.Store tx.old.conn.now) (state S.Store tx.new.conn.now) result (CanPut jobs.now) (with_puts jobs.now) }
{
    for job in jobs {
        put_job(alloc, tx, job)?;
    }
    Ok(())
}
