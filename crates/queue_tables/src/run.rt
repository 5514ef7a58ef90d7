//! One statement of a transaction.
ghost use Rattle.std.specs.Prelude.{◌≡◌, ◌≢◌, IfOk, IfErr, Ok};
ghost use Rattle.sqlite.specs.State.{ExecutesInside, Shown};
ghost use Rattle.sqlite.specs.Values.{bound};
ghost use Rattle.sqlite.specs.State.{HasCleanDisk};
ghost use Rattle.sqlite.specs.Held.{state};
ghost use Rattle.queue_tables.specs.Making.{Writes};
ghost use Rattle.queue_tables.specs.Leaving.{StaysInside};
ghost use Rattle.queue_tables.specs.Refusing.{DamagedOnlyWhere, IsRefused, IsRefusedByKey, IsRefusedByNothing};

use crate::fault::{Fault, fault_of_insert, fault_of_write};
use sqlite::types::ValueRef;
use sqlite::{Alter, Row, Transaction};

/// Runs a statement that shows no rows, and tells how many it wrote. It commits nothing.
pub(crate) fn run<S: Alter>(
    tx: &mut Transaction<'_, S>,
    sql: &str,
    params: &[ValueRef<'_>],
) -> Result<usize, Fault>
    ensures same_reference { tx.new.conn.ghost_name ≡ tx.old.conn.ghost_name }
    ensures stays { StaysInside (state S.Store tx.old.conn.now) (state S.Store tx.new.conn.now) result }
    ensures ran { HasCleanDisk (state S.Store tx.new.conn.now) → IfOk result (λ count. ExecutesInside 0 sql.now (bound params.now) (state S.Store tx.old.conn.now) (state S.Store tx.new.conn.now) (Ok count)) }
    ensures damaged { DamagedOnlyWhere (state S.Store tx.old.conn.now) (state S.Store tx.new.conn.now) result (IsRefused sql.now (bound params.now) (state S.Store tx.old.conn.now) (state S.Store tx.new.conn.now)) }
{
    tx.execute(sql, params).map_err(fault_of_write)
}

/// Runs a statement that shows no rows. It commits nothing.
pub(crate) fn write<S: Alter>(
    tx: &mut Transaction<'_, S>,
    sql: &str,
    params: &[ValueRef<'_>],
) -> Result<(), Fault>
    ensures same_reference { tx.new.conn.ghost_name ≡ tx.old.conn.ghost_name }
    ensures wrote { Writes sql.now (bound params.now) (state S.Store tx.old.conn.now) (state S.Store tx.new.conn.now) result IsRefused }
{
    run(tx, sql, params)?;
    Ok(())
}

/// Adds a row to a table whose rowids the store chooses. It commits nothing.
pub(crate) fn insert<S: Alter>(
    tx: &mut Transaction<'_, S>,
    sql: &str,
    params: &[ValueRef<'_>],
) -> Result<(), Fault>
    ensures same_reference { tx.new.conn.ghost_name ≡ tx.old.conn.ghost_name }
    ensures wrote { Writes sql.now (bound params.now) (state S.Store tx.old.conn.now) (state S.Store tx.new.conn.now) result IsRefusedByKey }
{
    tx.execute(sql, params).map_err(fault_of_insert)?;
    Ok(())
}

/// Runs a statement that no constraint refuses, so that its error is told as one of a query. It commits nothing.
pub(crate) fn write_unconstrained<S: Alter>(
    tx: &mut Transaction<'_, S>,
    sql: &str,
    params: &[ValueRef<'_>],
) -> Result<(), Fault>
    ensures same_reference { tx.new.conn.ghost_name ≡ tx.old.conn.ghost_name }
    ensures wrote { Writes sql.now (bound params.now) (state S.Store tx.old.conn.now) (state S.Store tx.new.conn.now) result IsRefusedByNothing }
{
    tx.execute(sql, params)?;
    Ok(())
}

/// All rows that a query of a transaction shows.
pub(crate) fn select_inside<S: Alter>(
    tx: &mut Transaction<'_, S>,
    sql: &str,
    params: &[ValueRef<'_>],
) -> Result<Vec<Row>, Fault>
    ensures same_reference { tx.new.conn.ghost_name ≡ tx.old.conn.ghost_name }
    ensures stays { StaysInside (state S.Store tx.old.conn.now) (state S.Store tx.new.conn.now) result }
    ensures shown { HasCleanDisk (state S.Store tx.new.conn.now) → IfOk result (λ rows. Shown sql.now (bound params.now) (state S.Store tx.old.conn.now) (state S.Store tx.new.conn.now) rows.items) }
    ensures never { IfErr result (λ e. e ≢ Fault.Damaged) }
{
    let rows = tx.query_all(sql, params)?;
    Ok(rows)
}
