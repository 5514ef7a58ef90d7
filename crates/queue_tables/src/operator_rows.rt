//! The statements on the operators.
ghost use Rattle.std.specs.Prelude.{◌≡◌, ⊤, [], filter};
ghost use Rattle.sqlite.specs.Held.{state};
ghost use Rattle.queue_types.specs.Operators.{AreOperators};
ghost use Rattle.queue_tables.specs.Making.{MakesQueue, MakesRows};
ghost use Rattle.queue_tables.specs.Steps.{is_named, with_operator_row, with_operators, without_operators};
ghost use Rattle.queue_tables.specs.Values.{operator_values};

use crate::fault::Fault;
use crate::run::{insert, write_unconstrained};
use queue_types::operators::OperatorNames;
use sqlite::{Alter, Transaction, params};

/// Removes all operators, to whom no row of another table refers.
fn delete_operators<S: Alter>(tx: &mut Transaction<'_, S>) -> Result<(), Fault>
    ensures same_reference { tx.new.conn.ghost_name ≡ tx.old.conn.ghost_name }
    ensures made { MakesRows (state S.Store tx.old.conn.now) (state S.Store tx.new.conn.now) result (λ c. ⊤) without_operators }
{
    write_unconstrained(tx, "DELETE FROM operators", params![])
}

/// Adds an operator.
fn insert_operator<S: Alter>(tx: &mut Transaction<'_, S>, name: &str) -> Result<(), Fault>
    ensures same_reference { tx.new.conn.ghost_name ≡ tx.old.conn.ghost_name }
    ensures made { MakesRows (state S.Store tx.old.conn.now) (state S.Store tx.new.conn.now) result (λ c. filter (is_named name.now) c.operators ≡ []) (with_operator_row (operator_values name.now)) }
{
    insert(
        tx,
        "INSERT INTO operators (name) VALUES (?1)",
        params![name],
    )
}

/// Puts these operators in place of those that are there, within a transaction. It commits nothing.
pub(crate) fn write_operators<S: Alter>(
    tx: &mut Transaction<'_, S>,
    operators: &OperatorNames,
) -> Result<(), Fault>
    ensures same_reference { tx.new.conn.ghost_name ≡ tx.old.conn.ghost_name }
    ensures made { MakesQueue (state S.Store tx.old.conn.now) (state S.Store tx.new.conn.now) result (λ w. ⊤) (with_operators operators.now) }
    ensures limits { AreOperators operators.now }
{
    let count = operators.len();
    delete_operators(tx)?;
    for i in 0..count {
        insert_operator(tx, operators.name(i))?;
    }
    Ok(())
}
