//! The statements on jobs.
ghost use Rattle.std.specs.Prelude.{◌≡◌, filter, option_map, []};
ghost use Rattle.sqlite.specs.Held.{state};
ghost use Rattle.sqlite.specs.Values.{bound};
ghost use Rattle.queue_core.specs.World.{rows, job_at};
ghost use Rattle.queue_tables.specs.Making.{MakesRows};
ghost use Rattle.queue_tables.specs.Telling.{ReadsQueueInside};
ghost use Rattle.queue_tables.specs.Steps.{AreDistinct, HasJob, bare, is_numbered, with_job_anew, with_job_row};
ghost use Rattle.queue_tables.specs.Values.{job_values};
ghost use Rattle.queue_tables.specs.Forms.{AreFormed};

use crate::fault::Fault;
use crate::read::read_job;
use crate::run::{select_inside, write};
use crate::with_job_columns;
use queue_rows::codes::{phase_number_of, stopping_number_of, why_number_of};
use queue_rows::laws::numbers_tell_names;
use queue_types::job::Job;
use sqlite::types::{ToSql, ValueRef};
use sqlite::{Alter, Transaction, params};
use std::alloc::Global;

/// The columns of a job, as they are bound to a statement.
fn columns_of(job: &Job) -> [ValueRef<'_>; 14]
    ensures { bound result ≡ job_values job.now }
{
    [
        job.number.to_sql(),
        job.owner.as_str().to_sql(),
        job.name.as_str().to_sql(),
        job.copies.to_sql(),
        job.impressions.to_sql(),
        job.hold.to_sql(),
        job.incoming.to_sql(),
        phase_number_of(job.phase).to_sql(),
        why_number_of(job.phase, job.stopping).to_sql(),
        stopping_number_of(job.phase, job.stopping).to_sql(),
        job.count.to_sql(),
        job.created.to_sql(),
        job.begun.to_sql(),
        job.ended.to_sql(),
    ]
}

/// Adds a job.
pub(crate) fn insert_job<S: Alter>(tx: &mut Transaction<'_, S>, job: &Job) -> Result<(), Fault>
    ensures same_reference { tx.new.conn.ghost_name ≡ tx.old.conn.ghost_name }
    ensures made { MakesRows (state S.Store tx.old.conn.now) (state S.Store tx.new.conn.now) result (λ c. filter (is_numbered job.now.number) c.jobs ≡ []) (with_job_row (job_values job.now)) }
{
    write(
        tx,
        with_job_columns!(
            "INSERT INTO jobs (",
            ") VALUES (?1, ?2, ?3, ?4, ?5, ?6, ?7, ?8, ?9, ?10, ?11, ?12, ?13, ?14)"
        ),
        &columns_of(job),
    )
}

/// Puts the columns of a job anew.
pub(crate) fn update_job<S: Alter>(tx: &mut Transaction<'_, S>, job: &Job) -> Result<(), Fault>
    ensures same_reference { tx.new.conn.ghost_name ≡ tx.old.conn.ghost_name }
    ensures made { MakesRows (state S.Store tx.old.conn.now) (state S.Store tx.new.conn.now) result (HasJob job.now.number) (with_job_anew job.now) }
{
    write(
        tx,
        "UPDATE jobs SET owner = ?2, name = ?3, copies = ?4, impressions = ?5, hold = ?6, incoming = ?7, phase = ?8, why = ?9, stopping = ?10, count = ?11, created = ?12, begun = ?13, ended = ?14 WHERE number = ?1",
        &columns_of(job),
    )
}

/// The job of that number without its documents, where it is there.
pub(crate) fn find_job<S: Alter>(
    alloc: Global,
    tx: &mut Transaction<'_, S>,
    number: u32,
) -> Result<Option<Job>, Fault>
    ensures same_reference { tx.new.conn.ghost_name ≡ tx.old.conn.ghost_name }
    ensures reads { ReadsQueueInside (state S.Store tx.old.conn.now) (state S.Store tx.new.conn.now) result (λ w. AreDistinct w.jobs × AreFormed w.jobs) (λ w found. found ≡ option_map bare (job_at number (rows w))) }
{
    numbers_tell_names();
    let found = select_inside(
        tx,
        with_job_columns!("SELECT ", " FROM jobs WHERE number = ?1"),
        params![number],
    )?;
    match found.first() {
        None => Ok(None),
        Some(row) => {
            let job = read_job(alloc, row)?;
            Ok(Some(job))
        }
    }
}
