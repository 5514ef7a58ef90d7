//! Takes tables to the newest version, in one transaction.
ghost use Rattle.std.specs.Prelude.{◌≡◌, ◌≢◌, Err, IfErr, IsTrue, List, OnErr, OnOk, map};
ghost use Rattle.sqlite.specs.State.{HasCleanDisk};
ghost use Rattle.sqlite.specs.Held.{state};
ghost use Rattle.queue_core.specs.World.{World};
ghost use Rattle.queue_rows.specs.Versions.{IsOf, Version, first_version, second_version};
ghost use Rattle.queue_store.specs.Making.{MakesTables};
ghost use Rattle.queue_store.specs.New.{KeepsTables};
ghost use Rattle.queue_store.specs.Older.{HoldsFirst, HoldsQueueOf, HoldsSecond, HoldsThird, HoldsUnended, HoldsUnindexed, version_of, without_policy};
ghost use Rattle.queue_types.specs.declared.job.Job.{Job};
ghost use Rattle.queue_tables.specs.Content.{Content, Holds, content_of, numbered_content};
ghost use Rattle.queue_tables.specs.Leaving.{StaysInside};
ghost use Rattle.queue_tables.specs.Steps.{without_operators};
ghost use Rattle.queue_tables.specs.Values.{job_values};
ghost use Rattle.queue_tables.specs.declared.fault.Fault.TheVariants.{Damaged};

use crate::causes::put_causes;
use crate::create::add_policy;
use crate::run::run;
use crate::version::SchemaVersion;
use queue_rows::rows::PolicyRow;
use queue_tables::fault::Fault;
use queue_tables::meta_rows::update_schema;
use sqlite::{Alter, Connection, Transaction};

/// Makes the table `policy`.
const POLICY_TABLE: &str =
    "CREATE TABLE policy (one INTEGER PRIMARY KEY, keep INTEGER NOT NULL) STRICT";

/// Makes the index by age, over the jobs that are there.
const AGE_INDEX: &str = "CREATE INDEX jobs_by_age ON jobs (phase, created)";

/// Makes the table `operators`.
const OPERATORS_TABLE: &str = "CREATE TABLE operators (name TEXT NOT NULL PRIMARY KEY) STRICT";

/// Makes the index by end, over the jobs that are there.
const ENDED_INDEX: &str = "CREATE INDEX jobs_by_ended ON jobs (ended)";

/// Makes the table `policy`, without rows.
fn create_policy<S: Alter>(tx: &mut Transaction<'_, S>) -> Result<(), Fault>
    ensures same_reference { tx.new.conn.ghost_name ≡ tx.old.conn.ghost_name }
    ensures stays { StaysInside (state S.Store tx.old.conn.now) (state S.Store tx.new.conn.now) result }
    ensures done { HasCleanDisk (state S.Store tx.new.conn.now) → OnOk result ((c : Content) → HoldsFirst c (state S.Store tx.old.conn.now) → HoldsUnindexed (without_policy c) (state S.Store tx.new.conn.now)) }
    ensures never { IfErr result (λ e. e ≢ Damaged) }
{
    run(tx, POLICY_TABLE, &[])
}

/// Makes the index by age.
fn create_age<S: Alter>(tx: &mut Transaction<'_, S>) -> Result<(), Fault>
    ensures same_reference { tx.new.conn.ghost_name ≡ tx.old.conn.ghost_name }
    ensures stays { StaysInside (state S.Store tx.old.conn.now) (state S.Store tx.new.conn.now) result }
    ensures done { HasCleanDisk (state S.Store tx.new.conn.now) → OnOk result ((c : Content) → HoldsUnindexed c (state S.Store tx.old.conn.now) → HoldsSecond c (state S.Store tx.new.conn.now)) }
    ensures never { IfErr result (λ e. e ≢ Damaged) }
{
    run(tx, AGE_INDEX, &[])
}

/// Makes the table `operators`, without rows.
fn create_operators<S: Alter>(tx: &mut Transaction<'_, S>) -> Result<(), Fault>
    ensures same_reference { tx.new.conn.ghost_name ≡ tx.old.conn.ghost_name }
    ensures stays { StaysInside (state S.Store tx.old.conn.now) (state S.Store tx.new.conn.now) result }
    ensures done { HasCleanDisk (state S.Store tx.new.conn.now) → OnOk result ((c : Content) → HoldsSecond c (state S.Store tx.old.conn.now) → HoldsUnended (without_operators c) (state S.Store tx.new.conn.now)) }
    ensures never { IfErr result (λ e. e ≢ Damaged) }
{
    run(tx, OPERATORS_TABLE, &[])
}

/// Makes the index by end.
fn create_ended<S: Alter>(tx: &mut Transaction<'_, S>) -> Result<(), Fault>
    ensures same_reference { tx.new.conn.ghost_name ≡ tx.old.conn.ghost_name }
    ensures stays { StaysInside (state S.Store tx.old.conn.now) (state S.Store tx.new.conn.now) result }
    ensures done { HasCleanDisk (state S.Store tx.new.conn.now) → OnOk result ((c : Content) → HoldsUnended c (state S.Store tx.old.conn.now) → HoldsThird c (state S.Store tx.new.conn.now)) }
    ensures never { IfErr result (λ e. e ≢ Damaged) }
{
    run(tx, ENDED_INDEX, &[])
}

/// Puts the number of the newest schema.
fn put_schema<S: Alter>(tx: &mut Transaction<'_, S>) -> Result<(), Fault>
    ensures same_reference { tx.new.conn.ghost_name ≡ tx.old.conn.ghost_name }
    ensures stays { StaysInside (state S.Store tx.old.conn.now) (state S.Store tx.new.conn.now) result }
    ensures done { HasCleanDisk (state S.Store tx.new.conn.now) → OnOk result ((n : Version) (w : World) → Holds (numbered_content n w) (state S.Store tx.old.conn.now) → Holds (content_of w) (state S.Store tx.new.conn.now)) }
    ensures never { IfErr result (λ e. e ≢ Damaged) }
{
    match update_schema(tx) {
        Ok(()) => Ok(()),
        Err(Fault::Memory) => Err(Fault::Memory),
        Err(_) => Err(Fault::Disk),
    }
}

/// What the third version adds to the tables of the second, without its number.
fn add_third<S: Alter>(tx: &mut Transaction<'_, S>) -> Result<(), Fault>
    ensures same_reference { tx.new.conn.ghost_name ≡ tx.old.conn.ghost_name }
    ensures stays { StaysInside (state S.Store tx.old.conn.now) (state S.Store tx.new.conn.now) result }
    ensures done { HasCleanDisk (state S.Store tx.new.conn.now) → OnOk result ((c : Content) (jobs : List Job) → c.jobs ≡ map job_values jobs → HoldsSecond c (state S.Store tx.old.conn.now) → Holds (without_operators c) (state S.Store tx.new.conn.now)) }
    ensures never { IfErr result (λ e. e ≢ Damaged) }
{
    create_operators(tx)?;
    create_ended(tx)?;
    put_causes(tx)
}

/// The whole migration from the first version, within a transaction. It commits nothing.
fn migrate_first<S: Alter>(tx: &mut Transaction<'_, S>) -> Result<(), Fault>
    ensures same_reference { tx.new.conn.ghost_name ≡ tx.old.conn.ghost_name }
    ensures stays { StaysInside (state S.Store tx.old.conn.now) (state S.Store tx.new.conn.now) result }
    ensures done { HasCleanDisk (state S.Store tx.new.conn.now) → OnOk result ((w : World) → IsOf first_version w → HoldsQueueOf first_version w (state S.Store tx.old.conn.now) → Holds (content_of w) (state S.Store tx.new.conn.now)) }
    ensures never { IfErr result (λ e. e ≢ Damaged) }
{
    create_policy(tx)?;
    create_age(tx)?;
    add_third(tx)?;
    // the first version keeps jobs without end
    add_policy(tx, &PolicyRow { one: 1, keep: 0 })?;
    put_schema(tx)
}

/// The whole migration from the second version, within a transaction. It commits nothing.
fn migrate_second<S: Alter>(tx: &mut Transaction<'_, S>) -> Result<(), Fault>
    ensures same_reference { tx.new.conn.ghost_name ≡ tx.old.conn.ghost_name }
    ensures stays { StaysInside (state S.Store tx.old.conn.now) (state S.Store tx.new.conn.now) result }
    ensures done { HasCleanDisk (state S.Store tx.new.conn.now) → OnOk result ((w : World) → IsOf second_version w → HoldsQueueOf second_version w (state S.Store tx.old.conn.now) → Holds (content_of w) (state S.Store tx.new.conn.now)) }
    ensures never { IfErr result (λ e. e ≢ Damaged) }
{
    add_third(tx)?;
    put_schema(tx)
}

/// The whole migration, within a transaction. It commits nothing.
fn migrate_all<S: Alter>(tx: &mut Transaction<'_, S>, version: SchemaVersion) -> Result<(), Fault>
    ensures same_reference { tx.new.conn.ghost_name ≡ tx.old.conn.ghost_name }
    ensures stays { StaysInside (state S.Store tx.old.conn.now) (state S.Store tx.new.conn.now) result }
    ensures done { HasCleanDisk (state S.Store tx.new.conn.now) → OnOk result ((w : World) → IsOf (version_of version) w → HoldsQueueOf (version_of version) w (state S.Store tx.old.conn.now) → Holds (content_of w) (state S.Store tx.new.conn.now)) }
    ensures never { IfErr result (λ e. e ≢ Damaged) }
{
    match version {
        SchemaVersion::First => migrate_first(tx),
        SchemaVersion::Second => migrate_second(tx),
        SchemaVersion::Third => put_causes(tx),
    }
}

/// Takes tables of that version to the newest, in one transaction. Those of the newest get the causes of jobs that are stopping. An error
/// leaves them as they were, as long as the connection is open. Whatever the answer, a crash then leaves what it might have left before,
/// or the same queue in the newest tables. Inside a transaction of the caller's the answer is Disk, and nothing is done.
pub(crate) fn migrate<S: Alter>(
    conn: &mut Connection<S>,
    version: SchemaVersion,
) -> Result<(), Fault>
    ensures clean { HasCleanDisk (state S.Store conn.new) → HasCleanDisk (state S.Store conn.old) }
    ensures kept { OnErr result (KeepsTables (state S.Store conn.old) (state S.Store conn.new)) }
    ensures makes { (w : World) → IsOf (version_of version) w → HoldsQueueOf (version_of version) w (state S.Store conn.old) → MakesTables w (state S.Store conn.old) (state S.Store conn.new) result }
    ensures never { IfErr result (λ e. e ≢ Damaged) }
    ensures inside { IsTrue (state S.Store conn.old).in_transaction → (result ≡ Err Fault.Disk) × (conn.new ≡ conn.old) }
{
    if !conn.is_autocommit() {
        return Err(Fault::Disk);
    }
    let mut tx = conn.transaction();
    migrate_all(&mut tx, version)?;
    tx.commit()?;
    Ok(())
}
