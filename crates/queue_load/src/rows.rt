//! All tables, read whole.
ghost use Rattle.std.specs.Prelude.{◌≡◌, IfOk, IfErr, OnOk};
ghost use Rattle.sqlite.specs.Held.{state};
ghost use Rattle.sqlite.specs.State.{HasCleanDisk, IsUnchanged};
ghost use Rattle.queue_rows.specs.Rows.{tables_in};
ghost use Rattle.queue_load.specs.Reads.{ReadsTable};
ghost use Rattle.queue_load.specs.Store.{AreJobTables, AreAccountTables, AreTables, FitsIn, has_all, IsLoadable, HasJobTables, HasAccountTables};
ghost use Rattle.queue_tables.specs.Leaving.{LeavesTables};
ghost use Rattle.queue_tables.specs.declared.fault.Fault.TheVariants.{Damaged};

use crate::load::{
    read_accounts, read_documents, read_grants, read_jobs, read_meta, read_operators, read_pieces,
    read_policy, read_reports,
};
use queue_rows::rows::Rows;
use queue_tables::FIRST_TABLES;
use queue_tables::fault::Fault;
use sqlite::{Alter, Connection};
use std::alloc::Global;

/// Each table is there that each version of the book has.
fn has_tables<S: Alter>(conn: &Connection<S>) -> bool
    ensures { result ≡ has_all (state S.Store conn.now).now.schema }
{
    let schema = conn.schema();
    FIRST_TABLES
        .iter()
        .all(|name| schema.table_named(name).is_some())
}

/// The row of the book itself, and the jobs with their documents and pieces.
fn fill_jobs<S: Alter>(
    alloc: Global,
    conn: &mut Connection<S>,
    rows: &mut Rows,
) -> Result<(), Fault>
    ensures reads { ReadsTable (state S.Store conn.old) (state S.Store conn.new) result (λ d u. AreJobTables (tables_in rows.new) d.trees) (λ d. HasJobTables d.trees) }
{
    rows.meta = read_meta(alloc, conn)?;
    rows.jobs = read_jobs(alloc, conn)?;
    rows.documents = read_documents(alloc, conn)?;
    rows.pieces = read_pieces(alloc, conn)?;
    Ok(())
}

/// The accounts, the grants, the reports, for how long a held job is kept, and the operators.
fn fill_accounts<S: Alter>(
    alloc: Global,
    conn: &mut Connection<S>,
    rows: &mut Rows,
) -> Result<(), Fault>
    ensures reads { ReadsTable (state S.Store conn.old) (state S.Store conn.new) result (λ d u. AreAccountTables (tables_in rows.new) d) HasAccountTables }
    ensures others { (rows.new.meta ≡ rows.old.meta) × (rows.new.jobs ≡ rows.old.jobs) × (rows.new.documents ≡ rows.old.documents) × (rows.new.pieces ≡ rows.old.pieces) }
{
    rows.accounts = read_accounts(alloc, conn)?;
    rows.grants = read_grants(alloc, conn)?;
    rows.reports = read_reports(alloc, conn)?;
    rows.policy = read_policy(alloc, conn)?;
    rows.operators = read_operators(alloc, conn)?;
    Ok(())
}

/// The rows of all tables. Damaged is told only where a table is missing, or a row has not its form.
pub(crate) fn load_rows<S: Alter>(alloc: Global, conn: &mut Connection<S>) -> Result<Rows, Fault>
    ensures leaves { LeavesTables (state S.Store conn.old) (state S.Store conn.new) }
    ensures same { HasCleanDisk (state S.Store conn.new) → OnOk result (IsUnchanged (state S.Store conn.old) (state S.Store conn.new)) }
    ensures read { FitsIn (state S.Store conn.old) → HasCleanDisk (state S.Store conn.new) → IfOk result (λ r. AreTables (tables_in r) (state S.Store conn.old).now) }
    ensures damaged { FitsIn (state S.Store conn.old) → HasCleanDisk (state S.Store conn.new) → IfErr result (λ e. e ≡ Damaged → ¬ IsLoadable (state S.Store conn.old).now) }
{
    if !has_tables(conn) {
        return Err(Fault::Damaged);
    }
    let mut rows = Rows::new(alloc);
    fill_jobs(alloc, conn, &mut rows)?;
    fill_accounts(alloc, conn, &mut rows)?;
    Ok(rows)
}
