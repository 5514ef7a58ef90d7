//! A new book: its tables, and the row of its settings.
ghost use Rattle.std.specs.Prelude.{◌≡◌, ◌≢◌, Err, IfErr, OnOk, IsTrue};
ghost use Rattle.sqlite.specs.State.{HasCleanDisk};
ghost use Rattle.sqlite.specs.Held.{state};
ghost use Rattle.queue_core.specs.World.{World};
ghost use Rattle.queue_store.specs.Making.{MakesTables};
ghost use Rattle.queue_store.specs.New.{new_content, no_content};
ghost use Rattle.queue_tables.specs.Content.{Content, Holds, content_of};
ghost use Rattle.queue_tables.specs.Leaving.{StaysInside};
ghost use Rattle.queue_tables.specs.Steps.{with_meta_row, with_policy_row};
ghost use Rattle.queue_tables.specs.Tables.{no_schema};
ghost use Rattle.queue_tables.specs.Values.{meta_values, policy_values};
ghost use Rattle.queue_tables.specs.declared.fault.Fault.TheVariants.{Damaged};

use crate::operators::add_operators;
use queue_rows::rows::{MetaRow, PolicyRow};
use queue_tables::fault::Fault;
use queue_tables::meta_rows::{insert_meta, insert_policy};
use queue_types::operators::OperatorNames;
use sqlite::{Alter, Connection, Transaction};

/// What makes the tables of the book itself, of jobs, documents and pieces, of accounts, grants and reports, and their indexes.
/// The additions of later versions come last, so that a migrated store has the trees of a new one.
const TABLES_AND_INDEXES: &str = "\
    CREATE TABLE meta (one INTEGER PRIMARY KEY, schema INTEGER NOT NULL, uri TEXT NOT NULL, name TEXT NOT NULL, estimate INTEGER NOT NULL, epoch INTEGER NOT NULL, next_number INTEGER NOT NULL) STRICT;\
    CREATE TABLE jobs (number INTEGER PRIMARY KEY, owner TEXT NOT NULL, name TEXT NOT NULL, copies INTEGER NOT NULL, impressions INTEGER NOT NULL, hold INTEGER NOT NULL, incoming INTEGER NOT NULL, phase INTEGER NOT NULL, why INTEGER NOT NULL, stopping INTEGER NOT NULL, count INTEGER NOT NULL, created INTEGER NOT NULL, begun INTEGER, ended INTEGER) STRICT;\
    CREATE TABLE documents (job INTEGER NOT NULL REFERENCES jobs (number), doc INTEGER NOT NULL, format TEXT NOT NULL, octets INTEGER NOT NULL, PRIMARY KEY (job, doc)) STRICT;\
    CREATE TABLE pieces (job INTEGER NOT NULL, doc INTEGER NOT NULL, piece INTEGER NOT NULL, bytes BLOB NOT NULL, PRIMARY KEY (job, doc, piece), FOREIGN KEY (job, doc) REFERENCES documents (job, doc)) STRICT;\
    CREATE TABLE accounts (name TEXT NOT NULL PRIMARY KEY, free INTEGER NOT NULL, reserved INTEGER NOT NULL, printed INTEGER NOT NULL) STRICT;\
    CREATE TABLE grants (batch TEXT NOT NULL, account TEXT NOT NULL REFERENCES accounts (name), pages INTEGER NOT NULL, PRIMARY KEY (batch, account)) STRICT;\
    CREATE TABLE reports (job INTEGER NOT NULL REFERENCES jobs (number), seq INTEGER NOT NULL, kind INTEGER NOT NULL, count INTEGER NOT NULL, state INTEGER NOT NULL, total INTEGER NOT NULL, PRIMARY KEY (job, seq)) STRICT;\
    CREATE INDEX jobs_by_owner ON jobs (owner, phase);\
    CREATE INDEX jobs_by_end ON jobs (owner, ended);\
    CREATE INDEX jobs_by_phase ON jobs (phase, hold, incoming);\
    CREATE TABLE policy (one INTEGER PRIMARY KEY, keep INTEGER NOT NULL) STRICT;\
    CREATE INDEX jobs_by_age ON jobs (phase, created);\
    CREATE TABLE operators (name TEXT NOT NULL PRIMARY KEY) STRICT;\
    CREATE INDEX jobs_by_ended ON jobs (ended);";

/// All tables and indexes, which have no rows.
fn create_schema<S: Alter>(tx: &mut Transaction<'_, S>) -> Result<(), Fault>
    ensures same_reference { tx.new.conn.ghost_name ≡ tx.old.conn.ghost_name }
    ensures stays { StaysInside (state S.Store tx.old.conn.now) (state S.Store tx.new.conn.now) result }
    ensures done { HasCleanDisk (state S.Store tx.new.conn.now) → OnOk result ((state S.Store tx.old.conn.now).now.schema ≡ no_schema → Holds no_content (state S.Store tx.new.conn.now)) }
    ensures never { IfErr result (λ e. e ≢ Damaged) }
{
    tx.execute_batch(TABLES_AND_INDEXES)?;
    Ok(())
}

/// The first row of the book itself.
fn add_meta<S: Alter>(tx: &mut Transaction<'_, S>, meta: &MetaRow) -> Result<(), Fault>
    ensures same_reference { tx.new.conn.ghost_name ≡ tx.old.conn.ghost_name }
    ensures stays { StaysInside (state S.Store tx.old.conn.now) (state S.Store tx.new.conn.now) result }
    ensures done { HasCleanDisk (state S.Store tx.new.conn.now) → OnOk result ((c : Content) → Holds c (state S.Store tx.old.conn.now) → Holds (with_meta_row (meta_values meta.now) c) (state S.Store tx.new.conn.now)) }
    ensures never { IfErr result (λ e. e ≢ Damaged) }
{
    match insert_meta(tx, meta) {
        Ok(()) => Ok(()),
        Err(Fault::Memory) => Err(Fault::Memory),
        Err(_) => Err(Fault::Disk),
    }
}

/// Adds the row that says for how long a held job is kept.
pub(crate) fn add_policy<S: Alter>(
    tx: &mut Transaction<'_, S>,
    policy: &PolicyRow,
) -> Result<(), Fault>
    ensures same_reference { tx.new.conn.ghost_name ≡ tx.old.conn.ghost_name }
    ensures stays { StaysInside (state S.Store tx.old.conn.now) (state S.Store tx.new.conn.now) result }
    ensures done { HasCleanDisk (state S.Store tx.new.conn.now) → OnOk result ((c : Content) → Holds c (state S.Store tx.old.conn.now) → Holds (with_policy_row (policy_values policy.now) c) (state S.Store tx.new.conn.now)) }
    ensures never { IfErr result (λ e. e ≢ Damaged) }
{
    match insert_policy(tx, policy) {
        Ok(()) => Ok(()),
        Err(Fault::Memory) => Err(Fault::Memory),
        Err(_) => Err(Fault::Disk),
    }
}

/// All tables and indexes, and the first rows.
fn create_all<S: Alter>(
    tx: &mut Transaction<'_, S>,
    meta: &MetaRow,
    policy: &PolicyRow,
    operators: &OperatorNames,
) -> Result<(), Fault>
    ensures same_reference { tx.new.conn.ghost_name ≡ tx.old.conn.ghost_name }
    ensures stays { StaysInside (state S.Store tx.old.conn.now) (state S.Store tx.new.conn.now) result }
    ensures done { HasCleanDisk (state S.Store tx.new.conn.now) → OnOk result ((state S.Store tx.old.conn.now).now.schema ≡ no_schema → Holds (new_content meta.now policy.now operators.now) (state S.Store tx.new.conn.now)) }
    ensures never { IfErr result (λ e. e ≢ Damaged) }
{
    create_schema(tx)?;
    add_meta(tx, meta)?;
    add_policy(tx, policy)?;
    add_operators(tx, operators)
}

/// Makes the tables of a book without jobs in a store without any, in one transaction. Whatever the answer, a crash then leaves
/// what it might have left before, or the new book. Inside a transaction of the caller's it answers Disk and does nothing.
pub(crate) fn make_tables<S: Alter>(
    conn: &mut Connection<S>,
    meta: &MetaRow,
    policy: &PolicyRow,
    operators: &OperatorNames,
) -> Result<(), Fault>
    ensures makes { (state S.Store conn.old).now.schema ≡ no_schema → (w : World) → new_content meta.now policy.now operators.now ≡ content_of w → MakesTables w (state S.Store conn.old) (state S.Store conn.new) result }
    ensures never { IfErr result (λ e. e ≢ Damaged) }
    ensures inside { IsTrue (state S.Store conn.old).in_transaction → (result ≡ Err Fault.Disk) × (conn.new ≡ conn.old) }
{
    if !conn.is_autocommit() {
        return Err(Fault::Disk);
    }
    let mut tx = conn.transaction();
    create_all(&mut tx, meta, policy, operators)?;
    tx.commit()?;
    Ok(())
}
