//! The tables, each read whole by one SELECT in the order of its key.
ghost use Rattle.std.specs.Prelude.{◌≡◌, All, IsTrue, option_map};
ghost use Rattle.sqlite.specs.Held.{state};
ghost use Rattle.sqlite.specs.State.{HasCleanDisk};
ghost use Rattle.queue_load.specs.Loaded.{AreFormedRows, ArePieces, IsBare, IsFormedWhole, IsTable, whole_piece};
ghost use Rattle.queue_load.specs.Reads.{ReadsTable};
ghost use Rattle.queue_load.specs.Store.{AreOperatorRows, ArePolicyRows, HasOperatorForm, HasPolicyForm, has_operators, has_policy};
ghost use Rattle.queue_load.specs.Tells.{account_row_values, IsFormedMeta, IsFormedDocument, IsFormedAccount, IsFormedGrant, IsFormedReport};
ghost use Rattle.queue_tables.specs.Forms.{IsFormedJob};
ghost use Rattle.queue_tables.specs.Values.{meta_values, meta_view, job_values, kept_job_view, document_values, document_view, piece_view, account_view, grant_values, grant_view, report_values, report_view};

use crate::table::read_table;
use queue_rows::rows::{AccountRow, DocumentRow, MetaRow, PieceRow, PolicyRow};
use queue_tables::fault::Fault;
use queue_tables::{OPERATORS, POLICY, with_kept_job_columns};
use queue_types::event::{GrantRow, KeptReport};
use queue_types::job::Job;
use queue_types::text::Text;
use sqlite::{Alter, Connection};
use std::alloc::Global;

/// The rows of the book itself. Damaged is told only where one of them is no such row.
pub(crate) fn read_meta<S: Alter>(
    alloc: Global,
    conn: &mut Connection<S>,
) -> Result<Vec<MetaRow>, Fault>
    ensures reads { ReadsTable (state S.Store conn.old) (state S.Store conn.new) result (λ db v. IsTable meta_values meta_view 1 v.items (db.trees 0)) (λ db. AreFormedRows IsFormedMeta meta_values meta_view (db.trees 0)) }
{
    read_table(
        alloc,
        conn,
        "SELECT one, schema, uri, name, estimate, epoch, next_number FROM meta ORDER BY one",
    )
}

/// The jobs by number, without their documents. Damaged is told only where a row is no job's.
pub(crate) fn read_jobs<S: Alter>(
    alloc: Global,
    conn: &mut Connection<S>,
) -> Result<Vec<Job>, Fault>
    ensures reads { ReadsTable (state S.Store conn.old) (state S.Store conn.new) result (λ db v. IsTable job_values kept_job_view 1 v.items (db.trees 1) × All IsBare v.items) (λ db. AreFormedRows IsFormedJob job_values kept_job_view (db.trees 1)) }
{
    read_table(
        alloc,
        conn,
        with_kept_job_columns!("SELECT ", " FROM jobs ORDER BY number"),
    )
}

/// The documents by job and number. Damaged is told only where a row is no document's.
pub(crate) fn read_documents<S: Alter>(
    alloc: Global,
    conn: &mut Connection<S>,
) -> Result<Vec<DocumentRow>, Fault>
    ensures reads { ReadsTable (state S.Store conn.old) (state S.Store conn.new) result (λ db v. IsTable document_values document_view 2 v.items (db.trees 2)) (λ db. AreFormedRows IsFormedDocument document_values document_view (db.trees 2)) }
{
    read_table(
        alloc,
        conn,
        "SELECT job, doc, format, octets FROM documents ORDER BY job, doc",
    )
}

/// The pieces by job, document and number, with the lengths of their bytes. Damaged is told only where a row is no
/// piece.
pub(crate) fn read_pieces<S: Alter>(
    alloc: Global,
    conn: &mut Connection<S>,
) -> Result<Vec<PieceRow>, Fault>
    ensures reads { ReadsTable (state S.Store conn.old) (state S.Store conn.new) result (λ db v. ArePieces v.items (db.trees 4)) (λ db. AreFormedRows IsFormedWhole whole_piece piece_view (db.trees 4)) }
{
    read_table(
        alloc,
        conn,
        "SELECT job, doc, piece, bytes FROM pieces ORDER BY job, doc, piece",
    )
}

/// The accounts by name. Damaged is told only where a row is no account's.
pub(crate) fn read_accounts<S: Alter>(
    alloc: Global,
    conn: &mut Connection<S>,
) -> Result<Vec<AccountRow>, Fault>
    ensures reads { ReadsTable (state S.Store conn.old) (state S.Store conn.new) result (λ db v. IsTable account_row_values account_view 1 v.items (db.trees 6)) (λ db. AreFormedRows IsFormedAccount account_row_values account_view (db.trees 6)) }
{
    read_table(
        alloc,
        conn,
        "SELECT name, free, reserved, printed FROM accounts ORDER BY name",
    )
}

/// The grants by batch and account. Damaged is told only where a row is no grant.
pub(crate) fn read_grants<S: Alter>(
    alloc: Global,
    conn: &mut Connection<S>,
) -> Result<Vec<GrantRow>, Fault>
    ensures reads { ReadsTable (state S.Store conn.old) (state S.Store conn.new) result (λ db v. IsTable grant_values grant_view 2 v.items (db.trees 8)) (λ db. AreFormedRows IsFormedGrant grant_values grant_view (db.trees 8)) }
{
    read_table(
        alloc,
        conn,
        "SELECT batch, account, pages FROM grants ORDER BY batch, account",
    )
}

/// The kept reports by job and sequence number. Damaged is told only where a row is no report.
pub(crate) fn read_reports<S: Alter>(
    alloc: Global,
    conn: &mut Connection<S>,
) -> Result<Vec<KeptReport>, Fault>
    ensures reads { ReadsTable (state S.Store conn.old) (state S.Store conn.new) result (λ db v. IsTable report_values report_view 2 v.items (db.trees 10)) (λ db. AreFormedRows IsFormedReport report_values report_view (db.trees 10)) }
{
    read_table(
        alloc,
        conn,
        "SELECT job, seq, kind, count, state, total FROM reports ORDER BY job, seq",
    )
}

/// There is the table that the first version lacks.
fn has_policy<S: Alter>(conn: &Connection<S>) -> bool
    ensures { result ≡ has_policy (state S.Store conn.now).now.schema }
{
    conn.schema().table_named(POLICY).is_some()
}

/// The rows of `policy`, where there is such a table, of a connection that is open. Damaged is told only where one of them is no such row.
pub(crate) fn read_policy<S: Alter>(
    alloc: Global,
    conn: &mut Connection<S>,
) -> Result<Option<Vec<PolicyRow>>, Fault>
    ensures reads { (HasCleanDisk (state S.Store conn.old) → IsTrue (state S.Store conn.old).is_open) → ReadsTable (state S.Store conn.old) (state S.Store conn.new) result (λ d p. ArePolicyRows (option_map (λ v. v.items) p) d) HasPolicyForm }
{
    if !has_policy(conn) {
        return Ok(None);
    }
    let rows = read_table(alloc, conn, "SELECT one, keep FROM policy ORDER BY one")?;
    Ok(Some(rows))
}

/// There is the table that the first two versions lack.
pub(crate) fn has_operators<S: Alter>(conn: &Connection<S>) -> bool
    ensures { result ≡ has_operators (state S.Store conn.now).now.schema }
{
    conn.schema().table_named(OPERATORS).is_some()
}

/// The names in `operators`, where there is such a table, of a connection that is open. Damaged is told only where one of them is no name.
pub(crate) fn read_operators<S: Alter>(
    alloc: Global,
    conn: &mut Connection<S>,
) -> Result<Option<Vec<Text>>, Fault>
    ensures reads { (HasCleanDisk (state S.Store conn.old) → IsTrue (state S.Store conn.old).is_open) → ReadsTable (state S.Store conn.old) (state S.Store conn.new) result (λ d p. AreOperatorRows (option_map (λ v. v.items) p) d) HasOperatorForm }
{
    if !has_operators(conn) {
        return Ok(None);
    }
    let names = read_table(alloc, conn, "SELECT name FROM operators ORDER BY name")?;
    Ok(Some(names))
}
