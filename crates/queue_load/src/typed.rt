//! The rows of each table as typed rows.
ghost use Rattle.std.specs.Prelude.{◌≡◌, ◌≢◌, ◌<◌, ℕ, List, length, IfOk, IfErr};
ghost use Rattle.sqlite.specs.Order.{column};
ghost use Rattle.sqlite.specs.declared.types.Value.TheVariants.{Blob};
ghost use Rattle.queue_tables.specs.declared.fault.Fault.TheVariants.{Damaged, Disk};

use crate::table::TableRow;
use queue_rows::rows::{AccountRow, DocumentRow, MetaRow, PieceRow, PolicyRow};
use queue_tables::fault::Fault;
use queue_tables::read::{format, job_state, kind, read_job, text, value};
use queue_types::event::{GrantRow, KeptReport, Report};
use queue_types::job::Job;
use queue_types::text::Text;
use sqlite::Row;
use sqlite::types::ValueRef;
use std::alloc::Global;

/// How many bytes the blob in a column has. Damaged is told where there is none, or one of 4 GiB or more, which no piece has.
fn blob_length(row: &Row, at: usize) -> Result<u32, Fault>
    ensures ok { IfOk result (λ n. (b : List ℕ) × (column row.now at ≡ Blob b) × (length b ≡ n)) }
    ensures err { IfErr result (λ e. e ≡ Damaged → at < length row.now → (b : List ℕ) → length b < 4294967296 → column row.now at ≢ Blob b) }
    ensures never { IfErr result (λ e. e ≢ Disk) }
{
    match row.get_ref(at) {
        Ok(ValueRef::Blob(bytes)) => u32::try_from(bytes.len()).map_err(|_| Fault::Damaged),
        Ok(_) | Err(_) => Err(Fault::Damaged),
    }
}

/// A rowid.
#[derive(Debug, Drop)]
pub(crate) struct RowId {
    pub id: i64,
}

impl TableRow for RowId {
    ghost use Rattle.queue_load.specs.Keyed.{TellsId, IsNoId};

    ghost tells = { TellsId };

    ghost is_formless = { IsNoId };

    fn read(_alloc: Global, row: &Row) -> Result<RowId, Fault> {
        Ok(RowId { id: value(row, 0)? })
    }
}

impl TableRow for MetaRow {
    ghost use Rattle.queue_load.specs.Tells.{TellsMeta, IsNoMeta};

    ghost tells = { TellsMeta };

    ghost is_formless = { IsNoMeta };

    fn read(alloc: Global, row: &Row) -> Result<MetaRow, Fault> {
        Ok(MetaRow {
            one: value(row, 0)?,
            schema: value(row, 1)?,
            uri: text(alloc, row, 2)?,
            name: text(alloc, row, 3)?,
            estimate: value(row, 4)?,
            epoch: value(row, 5)?,
            next_number: value(row, 6)?,
        })
    }
}

impl TableRow for PolicyRow {
    ghost use Rattle.queue_load.specs.Tells.{TellsPolicy, IsNoPolicy};

    ghost tells = { TellsPolicy };

    ghost is_formless = { IsNoPolicy };

    fn read(_alloc: Global, row: &Row) -> Result<PolicyRow, Fault> {
        Ok(PolicyRow {
            one: value(row, 0)?,
            keep: value(row, 1)?,
        })
    }
}

impl TableRow for Text {
    ghost use Rattle.queue_load.specs.Tells.{TellsOperator, IsNoOperator};

    ghost tells = { TellsOperator };

    ghost is_formless = { IsNoOperator };

    fn read(alloc: Global, row: &Row) -> Result<Text, Fault> {
        text(alloc, row, 0)
    }
}

impl TableRow for Job {
    ghost use Rattle.queue_load.specs.Tells.{TellsJob, IsNoJob};

    ghost tells = { TellsJob };

    ghost is_formless = { IsNoJob };

    fn read(alloc: Global, row: &Row) -> Result<Job, Fault> {
        read_job(alloc, row)
    }
}

impl TableRow for DocumentRow {
    ghost use Rattle.queue_load.specs.Tells.{TellsDocument, IsNoDocument};

    ghost tells = { TellsDocument };

    ghost is_formless = { IsNoDocument };

    fn read(_alloc: Global, row: &Row) -> Result<DocumentRow, Fault> {
        Ok(DocumentRow {
            job: value(row, 0)?,
            doc: value(row, 1)?,
            format: format(row, 2)?,
            octets: value(row, 3)?,
        })
    }
}

impl TableRow for PieceRow {
    ghost use Rattle.queue_load.specs.Tells.{TellsPiece, IsNoPiece};

    ghost tells = { TellsPiece };

    ghost is_formless = { IsNoPiece };

    fn read(_alloc: Global, row: &Row) -> Result<PieceRow, Fault> {
        Ok(PieceRow {
            job: value(row, 0)?,
            doc: value(row, 1)?,
            piece: value(row, 2)?,
            length: blob_length(row, 3)?,
        })
    }
}

impl TableRow for AccountRow {
    ghost use Rattle.queue_load.specs.Tells.{TellsAccount, IsNoAccount};

    ghost tells = { TellsAccount };

    ghost is_formless = { IsNoAccount };

    fn read(alloc: Global, row: &Row) -> Result<AccountRow, Fault> {
        Ok(AccountRow {
            name: text(alloc, row, 0)?,
            free: value(row, 1)?,
            reserved: value(row, 2)?,
            printed: value(row, 3)?,
        })
    }
}

impl TableRow for GrantRow {
    ghost use Rattle.queue_load.specs.Tells.{TellsGrant, IsNoGrant};

    ghost tells = { TellsGrant };

    ghost is_formless = { IsNoGrant };

    fn read(alloc: Global, row: &Row) -> Result<GrantRow, Fault> {
        Ok(GrantRow {
            batch: text(alloc, row, 0)?,
            account: text(alloc, row, 1)?,
            pages: value(row, 2)?,
        })
    }
}

impl TableRow for KeptReport {
    ghost use Rattle.queue_load.specs.Tells.{TellsReport, IsNoReport};

    ghost tells = { TellsReport };

    ghost is_formless = { IsNoReport };

    fn read(_alloc: Global, row: &Row) -> Result<KeptReport, Fault> {
        let report = Report {
            job: value(row, 0)?,
            seq: value(row, 1)?,
            kind: kind(row, 2)?,
            count: value(row, 3)?,
        };
        Ok(KeptReport {
            report,
            state: job_state(row, 4)?,
            total: value(row, 5)?,
        })
    }
}
