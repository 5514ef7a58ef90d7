//! One SELECT, and the rows that it shows.
ghost use Rattle.std.specs.Prelude.{◌≡◌, ◌≢◌, Err, IfOk, IfErr, OnOk, IsTrue};
ghost use Rattle.sqlite.specs.Held.{state};
ghost use Rattle.sqlite.specs.State.{HasCleanDisk, Shown};
ghost use Rattle.sqlite.specs.Values.{bound};
ghost use Rattle.queue_tables.specs.Leaving.{LeavesTables};
ghost use Rattle.queue_tables.specs.Queries.{IsQueryText};

use crate::fault::Fault;
use sqlite::types::ValueRef;
use sqlite::{Alter, Connection, Row};

/// All rows that a SELECT shows. Damaged is never told. A connection that is inside a transaction is refused as a disk that fails.
pub fn select<S: Alter>(
    conn: &mut Connection<S>,
    sql: &str,
    params: &[ValueRef<'_>],
) -> Result<Vec<Row>, Fault>
    requires query { IsQueryText sql.now }
    ensures leaves { LeavesTables (state S.Store conn.old) (state S.Store conn.new) }
    ensures live { HasCleanDisk (state S.Store conn.new) → OnOk result (IsTrue (state S.Store conn.new).is_open) }
    ensures inside { IsTrue (state S.Store conn.old).in_transaction → (result ≡ Err Fault.Disk) × (conn.new ≡ conn.old) }
    ensures never { IfErr result (λ e. e ≢ Fault.Damaged) }
    ensures shown { HasCleanDisk (state S.Store conn.new) → IfOk result (λ rows. Shown sql.now (bound params.now) (state S.Store conn.old) (state S.Store conn.new) rows.items) }
{
    if !conn.is_autocommit() {
        return Err(Fault::Disk);
    }
    let rows = conn.query_all(sql, params)?;
    Ok(rows)
}
