//! Who stops each job that is stopping, its cause. The older versions keep none, since only its user stops a job there.
ghost use Rattle.std.specs.Prelude.{◌≡◌, ◌≢◌, ◌↔◌, Err, IfErr, IfOk, IsTrue, List, OnOk, map};
ghost use Rattle.sqlite.specs.Held.{state};
ghost use Rattle.sqlite.specs.State.{HasCleanDisk};
ghost use Rattle.queue_types.specs.declared.job.Job.{Job};
ghost use Rattle.queue_store.specs.Older.{AreCaused, HoldsThird, version_of};
ghost use Rattle.queue_store.specs.declared.version.SchemaVersion.TheVariants.{Third};
ghost use Rattle.queue_tables.specs.Content.{Content, Holds};
ghost use Rattle.queue_tables.specs.Leaving.{LeavesTables, StaysInside};
ghost use Rattle.queue_tables.specs.Tables.{book_schema, schema_of};
ghost use Rattle.queue_tables.specs.Values.{job_values};
ghost use Rattle.queue_tables.specs.declared.fault.Fault.TheVariants.{Damaged};

use crate::run::run;
use crate::version::SchemaVersion;
use queue_tables::fault::Fault;
use queue_tables::select::select;
use sqlite::{Alter, Connection, Transaction};

/// The jobs that are stopping without their cause.
const WITHOUT_CAUSE: &str = "SELECT number FROM jobs WHERE why = 0 AND stopping = 1";

/// Puts their users as that.
const PUT_CAUSES: &str =
    "UPDATE jobs SET why = why + (why = 0 AND stopping = 1) WHERE why = 0 AND stopping = 1";

/// Each job that is stopping has its cause. Within a transaction it is refused as a disk that fails.
fn have_causes<S: Alter>(conn: &mut Connection<S>) -> Result<bool, Fault>
    ensures leaves { LeavesTables (state S.Store conn.old) (state S.Store conn.new) }
    ensures live { HasCleanDisk (state S.Store conn.new) → OnOk result (IsTrue (state S.Store conn.new).is_open) }
    ensures found { (state S.Store conn.old).now.schema ≡ book_schema → HasCleanDisk (state S.Store conn.new) → IfOk result (λ b. IsTrue b ↔ AreCaused (state S.Store conn.old).now) }
    ensures never { IfErr result (λ e. e ≢ Damaged) }
    ensures inside { IsTrue (state S.Store conn.old).in_transaction → (result ≡ Err Fault.Disk) × (conn.new ≡ conn.old) }
{
    let rows = select(conn, WITHOUT_CAUSE, &[])?;
    Ok(rows.as_slice().is_empty())
}

/// Tables of that version are as an open book has them: of the newest version, and each job that is stopping has its cause.
pub(crate) fn is_newest<S: Alter>(
    conn: &mut Connection<S>,
    version: SchemaVersion,
) -> Result<bool, Fault>
    ensures leaves { LeavesTables (state S.Store conn.old) (state S.Store conn.new) }
    ensures live { HasCleanDisk (state S.Store conn.new) → IsTrue (state S.Store conn.old).is_open → OnOk result (IsTrue (state S.Store conn.new).is_open) }
    ensures found { (state S.Store conn.old).now.schema ≡ schema_of (version_of version) → HasCleanDisk (state S.Store conn.new) → IfOk result (λ b. IsTrue b ↔ ((version ≡ Third) × AreCaused (state S.Store conn.old).now)) }
    ensures never { IfErr result (λ e. e ≢ Damaged) }
{
    match version {
        SchemaVersion::Third => have_causes(conn),
        _ => Ok(false),
    }
}

/// Puts its user as the cause of each job that is stopping without one, within a transaction. It commits nothing.
pub(crate) fn put_causes<S: Alter>(tx: &mut Transaction<'_, S>) -> Result<(), Fault>
    ensures same_reference { tx.new.conn.ghost_name ≡ tx.old.conn.ghost_name }
    ensures stays { StaysInside (state S.Store tx.old.conn.now) (state S.Store tx.new.conn.now) result }
    ensures done { HasCleanDisk (state S.Store tx.new.conn.now) → OnOk result ((c : Content) (jobs : List Job) → c.jobs ≡ map job_values jobs → HoldsThird c (state S.Store tx.old.conn.now) → Holds c (state S.Store tx.new.conn.now)) }
    ensures never { IfErr result (λ e. e ≢ Damaged) }
{
    run(tx, PUT_CAUSES, &[])
}
