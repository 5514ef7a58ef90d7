//! A whole table, read a row at a time.
ghost use Rattle.std.specs.Prelude.{◌≡◌, ◌≢◌, IfOk, IfErr, OnOk};
ghost use Rattle.sqlite.specs.Held.{state};
ghost use Rattle.sqlite.specs.Order.{Row as Columns};
ghost use Rattle.sqlite.specs.State.{HasCleanDisk, IsUnchanged};
ghost use Rattle.queue_load.specs.Reads.{FindsFormless, HasRead, IsUnderstood};
ghost use Rattle.queue_load.specs.RowByRow.{ReadsNext, ReadsRows};
ghost use Rattle.queue_tables.specs.Leaving.{LeavesTables};
ghost use Rattle.queue_tables.specs.Queries.{IsQueryText};
ghost use Rattle.queue_tables.specs.declared.fault.Fault.TheVariants.{Damaged, Disk};

use queue_tables::fault::Fault;
use sqlite::{Alter, Connection, Row, Rows};
use std::alloc::Global;

/// A row of a table, typed.
pub(crate) trait TableRow: Drop {
    /// The value tells of the columns.
    ghost tells: { Self → Columns → Type 0 };

    /// No value of the type tells of the columns.
    ghost is_formless: { Columns → Type 0 };

    /// The value of the columns that a SELECT shows. Damaged is told only where there is none.
    fn read(alloc: Global, row: &Row) -> Result<Self, Fault>
        ensures ok { IfOk result (λ t. tells t row.now) }
        ensures err { IfErr result (λ e. e ≡ Damaged → is_formless row.now) }
        ensures never { IfErr result (λ e. e ≢ Disk) };
}

/// The value of the next row, or None where there is none. Damaged is told only where it is formless.
fn read_next<S: Alter, T: TableRow>(alloc: Global, rows: &mut Rows<S>) -> Result<Option<T>, Fault>
    ensures same_reference { rows.new.conn.ghost_name ≡ rows.old.conn.ghost_name }
    ensures reads { ReadsNext S.Store rows.old.conn.now rows.new.conn.now result T.tells T.is_formless }
{
    let Some(row) = rows.next()? else {
        return Ok(None);
    };
    Ok(Some(T::read(alloc, row)?))
}

/// The rows of a query that stands before its first. Damaged is told only where one of them is formless.
fn read_rows<S: Alter, T: TableRow>(alloc: Global, rows: &mut Rows<S>) -> Result<Vec<T>, Fault>
    ensures same_reference { rows.new.conn.ghost_name ≡ rows.old.conn.ghost_name }
    ensures reads { ReadsRows S.Store rows.old.conn.now rows.new.conn.now result T.tells T.is_formless }
{
    let mut items = Vec::new(alloc);
    'rows: for _ in 0..u64::MAX {
        let Some(item) = read_next(alloc, rows)? else {
            return Ok(items);
        };
        items.push(item)?;
    }
    Err(Fault::Disk)
}

/// The rows that a SELECT without parameters shows, in its order. Damaged is told only where one of them is
/// formless. A connection that is inside a transaction is refused as a disk that fails.
pub(crate) fn read_table<S: Alter, T: TableRow>(
    alloc: Global,
    conn: &mut Connection<S>,
    sql: &str,
) -> Result<Vec<T>, Fault>
    requires query { IsQueryText sql.now }
    ensures leaves { LeavesTables (state S.Store conn.old) (state S.Store conn.new) }
    ensures same { HasCleanDisk (state S.Store conn.new) → OnOk result (IsUnchanged (state S.Store conn.old) (state S.Store conn.new)) }
    ensures read { IsUnderstood sql.now (state S.Store conn.old) → HasCleanDisk (state S.Store conn.new) → IfOk result (λ v. HasRead T.tells sql.now (state S.Store conn.old) v.items) }
    ensures formless { IsUnderstood sql.now (state S.Store conn.old) → HasCleanDisk (state S.Store conn.new) → IfErr result (λ e. e ≡ Damaged → FindsFormless T.is_formless sql.now (state S.Store conn.old)) }
{
    if !conn.is_autocommit() {
        return Err(Fault::Disk);
    }
    let mut rows = conn.query(sql, &[])?;
    read_rows(alloc, &mut rows)
}
