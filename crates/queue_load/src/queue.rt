//! The rows of the queue that the tables hold.
ghost use Rattle.std.specs.Prelude.{◌≡◌, IfOk, IfErr, IsTrue, OnOk};
ghost use Rattle.sqlite.specs.Held.{state};
ghost use Rattle.sqlite.specs.State.{HasCleanDisk, IsUnchanged};
ghost use Rattle.queue_core.specs.World.{World};
ghost use Rattle.queue_rows.specs.Rows.{StandForNoSoundWorld, StandForSoundWorlds, tables_in};
ghost use Rattle.queue_load.specs.Keyed.{HasKeyedOperators, HasKeyedTables};
ghost use Rattle.queue_load.specs.Queues.{HasQueue, IsQueueIn};
ghost use Rattle.queue_load.specs.Reads.{ReadsTable};
ghost use Rattle.queue_load.specs.Store.{FitsIn};
ghost use Rattle.queue_tables.specs.Kept.{AreKeyed};
ghost use Rattle.queue_tables.specs.Leaving.{LeavesTables};
ghost use Rattle.queue_tables.specs.declared.fault.Fault.TheVariants.{Damaged};

use crate::keyed::{accounts_are_keyed, operators_are_keyed};
use crate::laws::{queues_are_loadable, sound_rows_are_a_queue, tables_give_their_queue};
use crate::rows::load_rows;
use queue_rows::rows::Rows;
use queue_rows::sound::are_sound_rows;
use queue_tables::fault::Fault;
use sqlite::{Alter, Connection};
use std::alloc::Global;

/// The accounts have rowids of their own. Damaged is told only where they have not.
fn check_accounts<S: Alter>(alloc: Global, conn: &mut Connection<S>) -> Result<(), Fault>
    ensures reads { ReadsTable (state S.Store conn.old) (state S.Store conn.new) result (λ db u. AreKeyed (db.trees 6)) (λ db. AreKeyed (db.trees 6)) }
{
    let keyed = accounts_are_keyed(alloc, conn)?;
    if !keyed {
        return Err(Fault::Damaged);
    }
    Ok(())
}

/// The operators have rowids of their own, over a connection that is open. Damaged is told only where they have not.
fn check_operators<S: Alter>(alloc: Global, conn: &mut Connection<S>) -> Result<(), Fault>
    ensures reads { (HasCleanDisk (state S.Store conn.old) → IsTrue (state S.Store conn.old).is_open) → ReadsTable (state S.Store conn.old) (state S.Store conn.new) result (λ db u. HasKeyedOperators db) HasKeyedOperators }
{
    if operators_are_keyed(alloc, conn)? {
        return Ok(());
    }
    Err(Fault::Damaged)
}

/// The accounts and the operators have rowids of their own. Damaged is told only where they have not.
fn check_keys<S: Alter>(alloc: Global, conn: &mut Connection<S>) -> Result<(), Fault>
    ensures reads { ReadsTable (state S.Store conn.old) (state S.Store conn.new) result (λ db u. HasKeyedTables db) HasKeyedTables }
{
    check_accounts(alloc, conn)?;
    check_operators(alloc, conn)
}

/// The rows are those of a sound queue, and the accounts and operators have rowids of their own. Damaged is told only where it is not so.
fn check_rows<S: Alter>(alloc: Global, conn: &mut Connection<S>, rows: &Rows) -> Result<(), Fault>
    ensures reads { ReadsTable (state S.Store conn.old) (state S.Store conn.new) result (λ db u. StandForSoundWorlds (tables_in rows.now) × HasKeyedTables db) (λ db. (¬ StandForNoSoundWorld (tables_in rows.now)) × HasKeyedTables db) }
{
    if !are_sound_rows(alloc, rows)? {
        return Err(Fault::Damaged);
    }
    check_keys(alloc, conn)
}

/// The rows of the sound queue that the tables hold. Damaged is told only where they hold none. The tables stay as they were, where the
/// connection is still open. Within a transaction it answers Disk, unless a table is missing.
pub fn load_queue<S: Alter>(alloc: Global, conn: &mut Connection<S>) -> Result<Rows, Fault>
    ensures leaves { LeavesTables (state S.Store conn.old) (state S.Store conn.new) }
    ensures same { HasCleanDisk (state S.Store conn.new) → OnOk result (IsUnchanged (state S.Store conn.old) (state S.Store conn.new)) }
    ensures queue { FitsIn (state S.Store conn.old) → HasCleanDisk (state S.Store conn.new) → IfOk result (λ r. HasQueue (tables_in r) (state S.Store conn.old).now) }
    ensures damaged { FitsIn (state S.Store conn.old) → HasCleanDisk (state S.Store conn.new) → IfErr result (λ e. e ≡ Damaged → (w : World) → ¬ IsQueueIn w (state S.Store conn.old).now) }
{
    queues_are_loadable();
    tables_give_their_queue();
    sound_rows_are_a_queue();
    let rows = load_rows(alloc, conn)?;
    check_rows(alloc, conn, &rows)?;
    Ok(rows)
}
