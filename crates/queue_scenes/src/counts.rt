//! How many jobs there are, by their phases.
ghost use Rattle.std.specs.Prelude.{◌≡◌, ◌<◌, ◌^◌, ◌≢◌, ℕ, IfOk, OnOk, IsTrue, IfErr, bytes_eq, count_by};
ghost use Rattle.sqlite.specs.Held.{state};
ghost use Rattle.sqlite.specs.State.{HasCleanDisk};
ghost use Rattle.sqlite.specs.Values.{bound};
ghost use Rattle.queue_core.specs.World.{World, live_jobs, queue_counts, rows};
ghost use Rattle.queue_types.specs.declared.job.Job.{Job as JobValue};
ghost use Rattle.queue_scenes.specs.Counts.{Counts};
ghost use Rattle.queue_tables.specs.Leaving.{LeavesTables};
ghost use Rattle.queue_tables.specs.Telling.{ReadsQueue};
ghost use Rattle.queue_tables.specs.Queries.{IsQueryText};

use queue_tables::fault::Fault;
use queue_tables::select::select;
use queue_types::event::QueueCounts;
use queue_types::limits::LAST_JOB_NUMBER;
use sqlite::types::ValueRef;
use sqlite::{Alter, Connection, params};

/// The number that a SELECT of one row and one column shows.
fn count<S: Alter>(
    conn: &mut Connection<S>,
    sql: &str,
    params: &[ValueRef<'_>],
) -> Result<usize, Fault>
    requires query { IsQueryText sql.now }
    ensures leaves { LeavesTables (state S.Store conn.old) (state S.Store conn.new) }
    ensures live { HasCleanDisk (state S.Store conn.new) → OnOk result (IsTrue (state S.Store conn.new).is_open) }
    ensures reads { (number : World → ℕ) → Counts sql.now (bound params.now) (state S.Store conn.old) number → ReadsQueue (state S.Store conn.old) (state S.Store conn.new) result (λ w n. n ≡ number w) }
    ensures never { IfErr result (λ e. e ≢ Fault.Damaged) }
{
    let found = select(conn, sql, params)?;
    let [row] = found.as_slice() else {
        return Err(Fault::Disk);
    };
    let count: u64 = row.get(0)?;
    Ok(count as usize)
}

/// How many jobs of the caller are in states 3 to 6.
pub(crate) fn live_count<S: Alter>(conn: &mut Connection<S>, caller: &str) -> Result<usize, Fault>
    ensures reads { ReadsQueue (state S.Store conn.old) (state S.Store conn.new) result (λ w n. n ≡ live_jobs caller.now (rows w)) }
    ensures live { HasCleanDisk (state S.Store conn.new) → OnOk result (IsTrue (state S.Store conn.new).is_open) }
    ensures never { IfErr result (λ e. e ≢ Fault.Damaged) }
{
    // no phase is 3: an index is read up to the bound with the bound itself, which by `phase < 7` would be each canceled job
    count(
        conn,
        "SELECT count(*) FROM jobs WHERE owner = ?1 AND phase < 3",
        params![caller],
    )
}

/// How many jobs the owner has, in all states.
pub(crate) fn own_count<S: Alter>(conn: &mut Connection<S>, owner: &str) -> Result<usize, Fault>
    ensures reads { ReadsQueue (state S.Store conn.old) (state S.Store conn.new) result (λ w n. n ≡ count_by (λ (j : JobValue). bytes_eq j.owner owner.now) (rows w)) }
    ensures live { HasCleanDisk (state S.Store conn.new) → OnOk result (IsTrue (state S.Store conn.new).is_open) }
    ensures never { IfErr result (λ e. e ≢ Fault.Damaged) }
{
    count(
        conn,
        "SELECT count(*) FROM jobs WHERE owner = ?1",
        params![owner],
    )
}

/// How many jobs are in states 5, 6, and 3 to 6. It is damaged where those are more than there are job numbers.
pub(crate) fn all_counts<S: Alter>(conn: &mut Connection<S>) -> Result<QueueCounts, Fault>
    ensures reads { ReadsQueue (state S.Store conn.old) (state S.Store conn.new) result (λ w c. c ≡ queue_counts (rows w)) }
    ensures live { HasCleanDisk (state S.Store conn.new) → OnOk result (IsTrue (state S.Store conn.new).is_open) }
    ensures few { IfOk result (λ c. c.queued < 2 ^ 31) }
{
    let running = count(conn, "SELECT count(*) FROM jobs WHERE phase = 1", &[])?;
    let stopped = count(conn, "SELECT count(*) FROM jobs WHERE phase = 2", &[])?;
    let queued = count(conn, "SELECT count(*) FROM jobs WHERE phase < 3", &[])?;
    if queued > LAST_JOB_NUMBER as usize {
        return Err(Fault::Damaged);
    }
    Ok(QueueCounts {
        running,
        stopped,
        queued,
    })
}
