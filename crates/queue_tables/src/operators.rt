//! The operators in one transaction.
ghost use Rattle.std.specs.Prelude.{◌≡◌, IsTrue, Err, false};
ghost use Rattle.sqlite.specs.Held.{state};
ghost use Rattle.queue_core.specs.Sound.{IsSound};
ghost use Rattle.queue_tables.specs.Making.{CommitsQueue};
ghost use Rattle.queue_tables.specs.Steps.{with_operators};

use crate::fault::{Fault, fault_of_write};
use crate::operator_rows::write_operators;
use queue_types::operators::OperatorNames;
use sqlite::{Alter, Connection};

/// Sets the operators as [`set_operators`] says, on a connection outside of any transaction.
fn set_outside<S: Alter>(conn: &mut Connection<S>, operators: &OperatorNames) -> Result<(), Fault>
    requires outside { (state S.Store conn.old).in_transaction ≡ false }
    requires none_open { IsTrue (state S.Store conn.old).is_open → (state S.Store conn.old).now ≡ (state S.Store conn.old).committed }
    ensures commits { CommitsQueue (state S.Store conn.old) (state S.Store conn.new) result IsSound (with_operators operators.now) }
    ensures ended { (state S.Store conn.new).in_transaction ≡ false }
{
    let mut tx = conn.transaction();
    write_operators(&mut tx, operators)?;
    tx.commit().map_err(fault_of_write)
}

/// Puts these operators in place of those of the queue that the tables stand for, in one transaction, which is committed where the answer
/// is Ok. After a refusal they stand for the same queue as before, where the connection is still open. Whatever the answer, a crash then
/// leaves the queue from before it or the one after it. Damaged is told only where the tables stand for no sound queue. Inside a
/// transaction of the caller's it answers Disk and does nothing; else none is under way after it.
pub fn set_operators<S: Alter>(
    conn: &mut Connection<S>,
    operators: &OperatorNames,
) -> Result<(), Fault>
    ensures commits { CommitsQueue (state S.Store conn.old) (state S.Store conn.new) result IsSound (with_operators operators.now) }
    ensures inside { IsTrue (state S.Store conn.old).in_transaction → (result ≡ Err Fault.Disk) × (conn.new ≡ conn.old) }
    ensures mode { (state S.Store conn.new).in_transaction ≡ (state S.Store conn.old).in_transaction }
{
    if !conn.is_autocommit() {
        return Err(Fault::Disk);
    }
    set_outside(conn, operators)
}
