//! A statement in a transaction.
ghost use Rattle.std.specs.Prelude.{◌≡◌, ◌≢◌, IfErr, OnOk, Ok, ℕ};
ghost use Rattle.sqlite.specs.Held.{state};
ghost use Rattle.sqlite.specs.State.{ExecutesInside, HasCleanDisk};
ghost use Rattle.sqlite.specs.Values.{bound};
ghost use Rattle.queue_tables.specs.Leaving.{StaysInside};
ghost use Rattle.queue_tables.specs.declared.fault.Fault.TheVariants.{Damaged};

use queue_tables::fault::Fault;
use sqlite::types::ValueRef;
use sqlite::{Alter, Transaction};

/// Runs a statement that shows no rows. It commits nothing.
pub(crate) fn run<S: Alter>(
    tx: &mut Transaction<'_, S>,
    sql: &str,
    params: &[ValueRef<'_>],
) -> Result<(), Fault>
    ensures same_reference { tx.new.conn.ghost_name ≡ tx.old.conn.ghost_name }
    ensures stays { StaysInside (state S.Store tx.old.conn.now) (state S.Store tx.new.conn.now) result }
    ensures ran { HasCleanDisk (state S.Store tx.new.conn.now) → OnOk result ((count : ℕ) × ExecutesInside 0 sql.now (bound params.now) (state S.Store tx.old.conn.now) (state S.Store tx.new.conn.now) (Ok count)) }
    ensures never { IfErr result (λ e. e ≢ Damaged) }
{
    tx.execute(sql, params)?;
    Ok(())
}
