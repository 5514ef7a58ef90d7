//! A book from tables that are there.
ghost use Rattle.std.specs.Prelude.{◌≡◌, ◌∷◌, [], Err, IfErr, IfOk, IsErrAnd, IsTrue, OnErr};
ghost use Rattle.sqlite.specs.Held.{state};
ghost use Rattle.sqlite.specs.State.{HasCleanDisk};
ghost use Rattle.queue_types.specs.Settings.{AreSettings};
ghost use Rattle.queue_core.specs.World.{World};
ghost use Rattle.queue_rows.specs.Meta.{settings_in};
ghost use Rattle.queue_rows.specs.Rows.{tables_in};
ghost use Rattle.queue_rows.specs.Versions.{keep_in, operators_in};
ghost use Rattle.queue_rows.specs.declared.rows.MetaRow.{MetaRow as MetaValue};
ghost use Rattle.queue_load.specs.Queues.{IsQueueIn};
ghost use Rattle.queue_load.specs.Store.{FitsIn};
ghost use Rattle.queue_store.specs.Kept.{IsHonest, StandsForOne, shown_by, without_limit};
ghost use Rattle.queue_store.specs.New.{KeepsTables};
ghost use Rattle.queue_store.specs.Older.{HaveCauses, IsFound, LeavesNewest, LeavesOldOrTaken, TakesQueue, version_in};
ghost use Rattle.queue_tables.specs.Leaving.{LeavesTables};
ghost use Rattle.queue_tables.specs.Tables.{book_schema};
ghost use Rattle.queue_tables.specs.declared.fault.Fault.TheVariants.{Damaged};

use crate::book::TableBook;
use crate::causes::is_newest;
use crate::migrate::migrate;
use crate::version::SchemaVersion;
use queue_core::BookFault;
use queue_load::load_queue;
use queue_rows::meta::{keep_of, operators_of, settings_of};
use queue_rows::rows::Rows;
use queue_tables::fault::Fault;
use queue_types::settings::{SettingFault, Settings};
use sqlite::{Alter, Connection};
use std::alloc::Global;

/// The settings in the one row of `meta`, and in those of `policy` and `operators` if there are such tables. Damaged is answered only if
/// `meta` has not just one row, or the settings are not within their limits.
fn settings_in_rows(alloc: Global, rows: &Rows) -> Result<Settings, Fault>
    ensures ok { IfOk result (λ s. (m : MetaValue) → (tables_in rows.now).meta ≡ m ∷ [] → s ≡ settings_in (keep_in (tables_in rows.now).policy) (operators_in (tables_in rows.now).operators) m) }
    ensures damaged { IfErr result (λ e. e ≡ Damaged → (m : MetaValue) → (tables_in rows.now).meta ≡ m ∷ [] → ¬ AreSettings (settings_in (keep_in (tables_in rows.now).policy) (operators_in (tables_in rows.now).operators) m)) }
{
    let [meta] = rows.meta.as_slice() else {
        return Err(Fault::Damaged);
    };
    let Some(operators) = operators_of(alloc, &rows.operators)? else {
        return Err(Fault::Damaged);
    };
    match settings_of(alloc, meta, keep_of(&rows.policy), operators) {
        Ok(settings) => Ok(settings),
        Err(SettingFault::Memory) => Err(Fault::Memory),
        Err(SettingFault::Bad) => Err(Fault::Damaged),
    }
}

/// The version of tables with these rows.
fn version_of(rows: &Rows) -> SchemaVersion
    ensures { result ≡ version_in (tables_in rows.now).policy (tables_in rows.now).operators }
{
    match (&rows.policy, &rows.operators) {
        (None, _) => SchemaVersion::First,
        (Some(_), None) => SchemaVersion::Second,
        (Some(_), Some(_)) => SchemaVersion::Third,
    }
}

/// The settings of the sound queue that the tables hold, and the version of the tables. Damaged is answered only if they hold no sound
/// queue. Within a transaction it is refused as a disk that fails.
fn settings_in_tables<S: Alter>(
    alloc: Global,
    conn: &mut Connection<S>,
) -> Result<(Settings, SchemaVersion), Fault>
    ensures leaves { LeavesTables (state S.Store conn.old) (state S.Store conn.new) }
    ensures found { FitsIn (state S.Store conn.old) → HasCleanDisk (state S.Store conn.new) → IfOk result (λ r. IsFound (state S.Store conn.old) (state S.Store conn.new) r.0 r.1) }
    ensures damaged { FitsIn (state S.Store conn.old) → HasCleanDisk (state S.Store conn.new) → IfErr result (λ e. e ≡ Damaged → (w : World) → ¬ IsQueueIn w (state S.Store conn.old).now) }
    ensures inside { IsTrue (state S.Store conn.old).in_transaction → (result ≡ Err Fault.Disk) × (conn.new ≡ conn.old) }
{
    // its contract says that outside a transaction what the tables show is committed
    if !conn.is_autocommit() {
        return Err(Fault::Disk);
    }
    // and of this one that they are those of the schema
    let _schema = conn.schema();
    let rows = load_queue(alloc, conn)?;
    let settings = settings_in_rows(alloc, &rows)?;
    Ok((settings, version_of(&rows)))
}

/// The settings of the sound queue that the tables hold. Tables of an older version are taken to the newest. Those of the newest stay as
/// they were, unless a job is stopping without its cause. Damaged is answered only if they hold no sound queue. Within a transaction it is
/// refused as a disk that fails.
fn settings_in_newest<S: Alter>(alloc: Global, conn: &mut Connection<S>) -> Result<Settings, Fault>
    ensures clean { HasCleanDisk (state S.Store conn.new) → HasCleanDisk (state S.Store conn.old) }
    ensures takes { FitsIn (state S.Store conn.old) → HasCleanDisk (state S.Store conn.new) → IfOk result (TakesQueue (state S.Store conn.old) (without_limit (state S.Store conn.new))) }
    ensures kept { OnErr result (KeepsTables (state S.Store conn.old) (state S.Store conn.new)) }
    ensures newest { LeavesNewest (state S.Store conn.old) (state S.Store conn.new) }
    ensures crash { FitsIn (state S.Store conn.old) → OnErr result (LeavesOldOrTaken (state S.Store conn.old) (state S.Store conn.new)) }
    ensures damaged { FitsIn (state S.Store conn.old) → HasCleanDisk (state S.Store conn.new) → IfErr result (λ e. e ≡ Damaged → (w : World) → ¬ IsQueueIn w (state S.Store conn.old).now) }
    ensures inside { IsTrue (state S.Store conn.old).in_transaction → (result ≡ Err Fault.Disk) × (conn.new ≡ conn.old) }
{
    let (settings, version) = settings_in_tables(alloc, conn)?;
    let newest = is_newest(conn, version)?;
    if newest {
        return Ok(settings);
    }
    migrate(conn, version)?;
    Ok(settings)
}

impl<S: Alter> TableBook<S> {
    /// The book that the tables hold, if they are as `create` makes them or as an older version made them. Tables of an older version are taken
    /// to the newest in one transaction, after they were checked. Tables of the newest stay as they were, unless a job is stopping without
    /// its cause: then its user is put as that, in one transaction. The connection's step limit is lifted. Damaged is answered only if the
    /// tables hold no sound queue. A refusal hands the connection back with its tables as they were; a crash then leaves what it might have
    /// left before, or the same queue in the newest tables. Within a transaction the answer is Disk, and the connection is as it came.
    pub fn adopt(
        alloc: Global,
        mut conn: Connection<S>,
    ) -> Result<TableBook<S>, (BookFault, Connection<S>)>
        ensures stands { FitsIn (state S.Store conn) → IfOk result (λ b. StandsForOne S.Store b) }
        ensures takes { FitsIn (state S.Store conn) → IfOk result (λ b. IsHonest S.Store b → TakesQueue (state S.Store conn) (shown_by S.Store b) b.settings) }
        ensures clean { IfOk result (λ b. IsHonest S.Store b → HasCleanDisk (state S.Store conn)) }
        ensures newest { (state S.Store conn).now.schema ≡ book_schema → HaveCauses (state S.Store conn).now → IfOk result (λ b. IsHonest S.Store b → LeavesTables (without_limit (state S.Store conn)) (shown_by S.Store b)) }
        ensures damaged { FitsIn (state S.Store conn) → IfErr result (λ e. HasCleanDisk (state S.Store e.1) → e.0 ≡ BookFault.Damaged → (w : World) → ¬ IsQueueIn w (state S.Store conn).now) }
        ensures handed { IfErr result (λ e. KeepsTables (state S.Store conn) (state S.Store e.1)) }
        ensures newest_handed { IfErr result (λ e. LeavesNewest (state S.Store conn) (state S.Store e.1)) }
        ensures crash { FitsIn (state S.Store conn) → IfErr result (λ e. LeavesOldOrTaken (state S.Store conn) (state S.Store e.1)) }
        ensures inside { IsTrue (state S.Store conn).in_transaction → IsErrAnd result (λ e. (e.0 ≡ BookFault.Disk) × (e.1 ≡ conn)) }
    {
        match settings_in_newest(alloc, &mut conn) {
            Ok(settings) => Ok(TableBook::over(alloc, conn, settings)),
            Err(fault) => Err((BookFault::from(fault), conn)),
        }
    }
}
