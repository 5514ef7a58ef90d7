//! The operators of a book: those of a new one, and others in their place.
ghost use Rattle.std.specs.Prelude.{◌≡◌, ◌≢◌, IfErr, IsTrue, OnErr, OnOk};
ghost use Rattle.sqlite.specs.Held.{state};
ghost use Rattle.sqlite.specs.State.{HasCleanDisk};
ghost use Rattle.queue_core.specs.World.{World};
ghost use Rattle.queue_core.specs.declared.book.BookFault.TheVariants.{Damaged};
ghost use Rattle.queue_store.specs.Kept.{IsHonest, StandsFor, shown_by};
ghost use Rattle.queue_store.specs.New.{with_operator_rows};
ghost use Rattle.queue_tables.specs.Content.{Content, Holds, LeavesOneOf};
ghost use Rattle.queue_tables.specs.Leaving.{StaysInside};
ghost use Rattle.queue_tables.specs.Steps.{with_operator_row, with_operators, without_operators};
ghost use Rattle.queue_tables.specs.Values.{operator_values};
ghost use Rattle.queue_tables.specs.declared.fault.Fault.TheVariants as fault;

use crate::book::TableBook;
use crate::run::run;
use queue_core::BookFault;
use queue_tables::fault::Fault;
use queue_types::operators::OperatorNames;
use sqlite::{Alter, Transaction, params};

/// Adds an operator.
fn add_operator<S: Alter>(tx: &mut Transaction<'_, S>, name: &str) -> Result<(), Fault>
    ensures same_reference { tx.new.conn.ghost_name ≡ tx.old.conn.ghost_name }
    ensures stays { StaysInside (state S.Store tx.old.conn.now) (state S.Store tx.new.conn.now) result }
    ensures done { HasCleanDisk (state S.Store tx.new.conn.now) → OnOk result ((c : Content) → Holds c (state S.Store tx.old.conn.now) → Holds (with_operator_row (operator_values name.now) c) (state S.Store tx.new.conn.now)) }
    ensures never { IfErr result (λ e. e ≢ fault.Damaged) }
{
    run(
        tx,
        "INSERT INTO operators (name) VALUES (?1)",
        params![name],
    )
}

/// Adds operators in turn, where there are none. It commits nothing.
pub(crate) fn add_operators<S: Alter>(
    tx: &mut Transaction<'_, S>,
    operators: &OperatorNames,
) -> Result<(), Fault>
    ensures same_reference { tx.new.conn.ghost_name ≡ tx.old.conn.ghost_name }
    ensures stays { StaysInside (state S.Store tx.old.conn.now) (state S.Store tx.new.conn.now) result }
    ensures done { HasCleanDisk (state S.Store tx.new.conn.now) → OnOk result ((c : Content) → Holds (without_operators c) (state S.Store tx.old.conn.now) → Holds (with_operator_rows operators.now c) (state S.Store tx.new.conn.now)) }
    ensures never { IfErr result (λ e. e ≢ fault.Damaged) }
{
    for i in 0..operators.len() {
        add_operator(tx, operators.name(i))?;
    }
    Ok(())
}

impl<S: Alter> TableBook<S> {
    /// Sets the operators, in one transaction. An Ok leaves the same queue with these operators, an error the queue as it was, if the
    /// connection is still open. Whatever the answer, a crash then leaves one of the two. Damaged is answered only if the tables hold no such
    /// queue.
    pub fn set_operators(&mut self, operators: &OperatorNames) -> Result<(), BookFault>
        ensures honest { IsHonest S.Store self.new → IsHonest S.Store self.old }
        ensures done { OnOk result ((w : World) → StandsFor S.Store self.old w → StandsFor S.Store self.new (with_operators operators.now w)) }
        ensures kept { OnErr result ((w : World) → StandsFor S.Store self.old w → StandsFor S.Store self.new w) }
        ensures live { IsHonest S.Store self.new → OnOk result (IsTrue (shown_by S.Store self.new).is_open) }
        ensures crash { IsHonest S.Store self.new → IsTrue (shown_by S.Store self.old).is_open → (w : World) → StandsFor S.Store self.old w
            → LeavesOneOf w (with_operators operators.now w) (shown_by S.Store self.new) }
        ensures damaged { IsHonest S.Store self.new → IfErr result (λ e. e ≡ Damaged → (w : World) → ¬ StandsFor S.Store self.old w) }
    {
        // made before the transaction, so that want of memory can't come after its commit
        let settings = self.settings.with_operators(operators.try_clone()?)?;
        queue_tables::set_operators(&mut self.conn, operators)?;
        self.settings = settings;
        Ok(())
    }
}
