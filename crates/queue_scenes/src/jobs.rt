//! Jobs as they are read, each with the sizes of its documents.
ghost use Rattle.std.specs.Prelude.{◌≡◌, ◌≢◌, ◌≤◌, List, Some, All, length, map, IfOk, OnOk, IsTrue, IfErr};
ghost use Rattle.sqlite.specs.Held.{state};
ghost use Rattle.sqlite.specs.State.{HasCleanDisk};
ghost use Rattle.sqlite.specs.Values.{bound};
ghost use Rattle.queue_core.specs.Limits.{IsSoundJob};
ghost use Rattle.queue_core.specs.Sound.{IsSound};
ghost use Rattle.queue_core.specs.World.{World, job_at, numbered, rows};
ghost use Rattle.queue_types.specs.declared.job.Job.{Job as JobValue};
ghost use Rattle.queue_scenes.specs.Jobs.{Selects};
ghost use Rattle.queue_tables.specs.Leaving.{LeavesTables};
ghost use Rattle.queue_tables.specs.Telling.{ReadsQueue};
ghost use Rattle.queue_tables.specs.Content.{AreRowsOf, Holds, content_of};
ghost use Rattle.queue_tables.specs.Queries.{IsQueryText};
ghost use Rattle.queue_tables.specs.Values.{job_values};

use queue_tables::document_sizes::sizes_of;
use queue_tables::fault::Fault;
use queue_tables::read::read_sound_job;
use queue_tables::select::select;
use queue_tables::with_job_columns;
use queue_types::job::Job;
use sqlite::types::ValueRef;
use sqlite::{Alter, Connection, Row, params};
use std::alloc::Global;

/// The job of a row, with the sizes of its documents. It is damaged where it is not within a job's limits.
fn whole_job<S: Alter>(alloc: Global, conn: &mut Connection<S>, row: &Row) -> Result<Job, Fault>
    ensures leaves { LeavesTables (state S.Store conn.old) (state S.Store conn.new) }
    ensures live { HasCleanDisk (state S.Store conn.new) → OnOk result (IsTrue (state S.Store conn.new).is_open) }
    ensures sound { IfOk result IsSoundJob }
    ensures found { HasCleanDisk (state S.Store conn.new) → IfOk result (λ j. (w : World) (k : JobValue) → IsSound w → Holds (content_of w) (state S.Store conn.old) → job_at k.number (rows w) ≡ Some k → row.now ≡ job_values k → j ≡ k) }
    ensures damaged { HasCleanDisk (state S.Store conn.new) → IfErr result (λ e. e ≡ Fault.Damaged → (w : World) (k : JobValue) → IsSound w → Holds (content_of w) (state S.Store conn.old) → job_at k.number (rows w) ≡ Some k → row.now ≢ job_values k) }
{
    let mut job = read_sound_job(alloc, row)?;
    let sizes = sizes_of(conn, job.number)?;
    job.documents = sizes.documents;
    job.octets = sizes.octets;
    Ok(job)
}

/// The jobs of the rows, in their order.
fn whole_jobs<S: Alter>(
    alloc: Global,
    conn: &mut Connection<S>,
    rows: &[Row],
) -> Result<Vec<Job>, Fault>
    ensures leaves { LeavesTables (state S.Store conn.old) (state S.Store conn.new) }
    ensures live { HasCleanDisk (state S.Store conn.new) → OnOk result (IsTrue (state S.Store conn.old).is_open → IsTrue (state S.Store conn.new).is_open) }
    ensures sound { IfOk result (λ v. All IsSoundJob v.items) }
    ensures found { HasCleanDisk (state S.Store conn.new) → IfOk result (λ v. (w : World) (js : List JobValue) → IsSound w → Holds (content_of w) (state S.Store conn.old) → AreRowsOf w js → rows.now ≡ map job_values js → v.items ≡ js) }
    ensures damaged { HasCleanDisk (state S.Store conn.new) → IfErr result (λ e. e ≡ Fault.Damaged → (w : World) (js : List JobValue) → IsSound w → Holds (content_of w) (state S.Store conn.old) → AreRowsOf w js → rows.now ≢ map job_values js) }
{
    let mut jobs = Vec::new(alloc);
    for row in rows {
        jobs.push(whole_job(alloc, conn, row)?)?;
    }
    Ok(jobs)
}

/// The jobs that a SELECT of all columns shows, in its order.
pub(crate) fn select_jobs<S: Alter>(
    alloc: Global,
    conn: &mut Connection<S>,
    sql: &str,
    params: &[ValueRef<'_>],
) -> Result<Vec<Job>, Fault>
    requires query { IsQueryText sql.now }
    ensures leaves { LeavesTables (state S.Store conn.old) (state S.Store conn.new) }
    ensures live { HasCleanDisk (state S.Store conn.new) → OnOk result (IsTrue (state S.Store conn.new).is_open) }
    ensures sound { IfOk result (λ v. All IsSoundJob v.items) }
    ensures reads { (jobs : World → List JobValue) → Selects sql.now (bound params.now) (state S.Store conn.old) jobs → ReadsQueue (state S.Store conn.old) (state S.Store conn.new) result (λ w v. v.items ≡ jobs w) }
{
    let rows = select(conn, sql, params)?;
    whole_jobs(alloc, conn, rows.as_slice())
}

/// The job of that number, or none.
pub(crate) fn with_number<S: Alter>(
    alloc: Global,
    conn: &mut Connection<S>,
    number: u32,
) -> Result<Vec<Job>, Fault>
    ensures reads { ReadsQueue (state S.Store conn.old) (state S.Store conn.new) result (λ w v. v.items ≡ numbered number (rows w)) }
    ensures live { HasCleanDisk (state S.Store conn.new) → OnOk result (IsTrue (state S.Store conn.new).is_open) }
    ensures sound { IfOk result (λ v. All IsSoundJob v.items) }
{
    select_jobs(
        alloc,
        conn,
        with_job_columns!("SELECT ", " FROM jobs WHERE number = ?1"),
        params![number],
    )
}

/// The job of that number, or none. It is damaged where two have the number.
pub(crate) fn only_job<S: Alter>(
    alloc: Global,
    conn: &mut Connection<S>,
    number: u32,
) -> Result<Vec<Job>, Fault>
    ensures reads { ReadsQueue (state S.Store conn.old) (state S.Store conn.new) result (λ w v. v.items ≡ numbered number (rows w)) }
    ensures live { HasCleanDisk (state S.Store conn.new) → OnOk result (IsTrue (state S.Store conn.new).is_open) }
    ensures sound { IfOk result (λ v. All IsSoundJob v.items) }
    ensures few { IfOk result (λ v. length v.items ≤ 1) }
{
    let jobs = with_number(alloc, conn, number)?;
    if jobs.len() > 1 {
        return Err(Fault::Damaged);
    }
    Ok(jobs)
}
