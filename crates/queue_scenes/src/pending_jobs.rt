//! The jobs that the device may start.
ghost use Rattle.std.specs.Prelude.{◌≡◌, OnOk, IsTrue};
ghost use Rattle.sqlite.specs.Held.{state};
ghost use Rattle.sqlite.specs.State.{HasCleanDisk};
ghost use Rattle.queue_core.specs.Shown.{pending_jobs};
ghost use Rattle.queue_tables.specs.Telling.{ReadsQueue};

use crate::jobs::select_jobs;
use queue_tables::fault::Fault;
use queue_tables::with_job_columns;
use queue_types::job::JobList;
use sqlite::{Alter, Connection};
use std::alloc::Global;

/// The jobs in state 3, by number. Whatever rows the tables hold, they hold after it, where the connection is open
/// still; and whatever they hold after it, they held before. Damaged is told only where the tables of an open connection
/// hold no sound queue.
pub fn pending<S: Alter>(alloc: Global, conn: &mut Connection<S>) -> Result<JobList, Fault>
    ensures reads { ReadsQueue (state S.Store conn.old) (state S.Store conn.new) result (λ w js. js ≡ pending_jobs w) }
    ensures live { HasCleanDisk (state S.Store conn.new) → OnOk result (IsTrue (state S.Store conn.new).is_open) }
{
    let jobs = select_jobs(
        alloc,
        conn,
        with_job_columns!(
            "SELECT ",
            " FROM jobs WHERE phase = 0 AND hold = 0 AND incoming = 0 ORDER BY number"
        ),
        &[],
    )?;
    Ok(JobList::from_items(jobs))
}
