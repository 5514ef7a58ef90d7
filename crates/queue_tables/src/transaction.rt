//! A decision in one transaction.
ghost use Rattle.std.specs.Prelude.{◌≡◌, IsTrue, Err, false};
ghost use Rattle.sqlite.specs.Held.{state};
ghost use Rattle.queue_core.specs.Book.{IsDecisionOn};
ghost use Rattle.queue_types.specs.Event.{change_of, decision_of};
ghost use Rattle.queue_core.specs.Sound.{IsSound};
ghost use Rattle.queue_core.specs.World.{made_on};
ghost use Rattle.queue_tables.specs.Making.{CommitsQueue};

use crate::change::write_change;
use crate::fault::{Fault, fault_of_write};
use queue_core::decisions_are_sound;
use queue_types::event::Decision;
use sqlite::{Alter, Connection};
use std::alloc::Global;

/// Makes a decision as [`make`] says, on a connection outside of any transaction.
fn make_outside<S: Alter>(
    alloc: Global,
    conn: &mut Connection<S>,
    decision: &Decision<'_>,
) -> Result<(), Fault>
    requires outside { (state S.Store conn.old).in_transaction ≡ false }
    requires none_open { IsTrue (state S.Store conn.old).is_open → (state S.Store conn.old).now ≡ (state S.Store conn.old).committed }
    ensures commits { CommitsQueue (state S.Store conn.old) (state S.Store conn.new) result (λ w. IsSound w × IsDecisionOn w (decision_of decision.now)) (made_on (change_of decision.now.change)) }
    ensures ended { (state S.Store conn.new).in_transaction ≡ false }
{
    decisions_are_sound();
    let mut tx = conn.transaction();
    write_change(alloc, &mut tx, decision)?;
    tx.commit().map_err(fault_of_write)
}

/// Makes a decision of the machine on the world that the tables stand for: all of its change in one
/// transaction, which is committed where the answer is Ok. After a refusal they stand for the same world as
/// before, where the connection is still open. Whatever the answer, a crash then leaves the queue from before
/// it or the one after it. Damaged is told only where the tables stand for no such world. Inside a transaction of
/// the caller's it answers Disk and does nothing; else none is under way behind it. Only a disk that fails or
/// refuses shuts the connection: want of memory doesn't.
pub fn make<S: Alter>(
    alloc: Global,
    conn: &mut Connection<S>,
    decision: &Decision<'_>,
) -> Result<(), Fault>
    ensures commits { CommitsQueue (state S.Store conn.old) (state S.Store conn.new) result (λ w. IsSound w × IsDecisionOn w (decision_of decision.now)) (made_on (change_of decision.now.change)) }
    ensures inside { IsTrue (state S.Store conn.old).in_transaction → (result ≡ Err Fault.Disk) × (conn.new ≡ conn.old) }
    ensures mode { (state S.Store conn.new).in_transaction ≡ (state S.Store conn.old).in_transaction }
{
    if !conn.is_autocommit() {
        return Err(Fault::Disk);
    }
    make_outside(alloc, conn, decision)
}
