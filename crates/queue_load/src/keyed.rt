//! Whether the rows of the accounts and of the operators are told apart by their rowids, as a change of one of them needs.
ghost use Rattle.std.specs.Prelude.{◌↔◌, IsTrue};
ghost use Rattle.sqlite.specs.Held.{state};
ghost use Rattle.sqlite.specs.State.{HasCleanDisk};
ghost use Rattle.queue_load.specs.Keyed.{HasKeyedOperators, id_values, id_view};
ghost use Rattle.queue_load.specs.Loaded.{IsTable};
ghost use Rattle.queue_load.specs.Reads.{ReadsTable};
ghost use Rattle.queue_tables.specs.Kept.{AreKeyed};

use crate::load::has_operators;
use crate::table::read_table;
use crate::typed::RowId;
use queue_rows::order::{Keyed, are_in_order};
use queue_tables::fault::Fault;
use sqlite::{Alter, Connection};
use std::alloc::Global;

impl Keyed for RowId {
    ghost use Rattle.queue_load.specs.Keyed.{id_before};

    ghost before = { id_before };

    fn is_before(&self, other: &RowId) -> bool {
        self.id < other.id
    }
}

/// The rowids of the accounts, in their order.
fn read_ids<S: Alter>(alloc: Global, conn: &mut Connection<S>) -> Result<Vec<RowId>, Fault>
    ensures reads { ReadsTable (state S.Store conn.old) (state S.Store conn.new) result (λ db v. IsTable id_values id_view 1 v.items (db.trees 6)) (λ db. AreKeyed (db.trees 6)) }
{
    read_table(alloc, conn, "SELECT rowid FROM accounts ORDER BY rowid")
}

/// Whether the rowids of the accounts are integers, none twice. Damaged is told only where one is no integer.
pub(crate) fn accounts_are_keyed<S: Alter>(
    alloc: Global,
    conn: &mut Connection<S>,
) -> Result<bool, Fault>
    ensures reads { ReadsTable (state S.Store conn.old) (state S.Store conn.new) result (λ db b. IsTrue b ↔ AreKeyed (db.trees 6)) (λ db. AreKeyed (db.trees 6)) }
{
    let ids = read_ids(alloc, conn)?;
    Ok(are_in_order(ids.as_slice()))
}

/// Whether the rowids of the operators are integers, none twice, of a connection that is open; where there is no table of them they are.
/// Damaged is told only where one is no integer.
pub(crate) fn operators_are_keyed<S: Alter>(
    alloc: Global,
    conn: &mut Connection<S>,
) -> Result<bool, Fault>
    ensures reads { (HasCleanDisk (state S.Store conn.old) → IsTrue (state S.Store conn.old).is_open) → ReadsTable (state S.Store conn.old) (state S.Store conn.new) result (λ db b. IsTrue b ↔ HasKeyedOperators db) HasKeyedOperators }
{
    if !has_operators(conn) {
        return Ok(true);
    }
    let ids: Vec<RowId> = read_table(alloc, conn, "SELECT rowid FROM operators ORDER BY rowid")?;
    Ok(are_in_order(ids.as_slice()))
}
