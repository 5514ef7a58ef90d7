//! The statements on kept reports.
ghost use Rattle.std.specs.Prelude.{◌≡◌, filter, []};
ghost use Rattle.sqlite.specs.Held.{state};
ghost use Rattle.queue_tables.specs.Making.{MakesRows};
ghost use Rattle.queue_tables.specs.Steps.{are_numbered, is_numbered, with_report_row};
ghost use Rattle.queue_tables.specs.Values.{report_values};
ghost use Rattle.queue_tables.specs.Kept.{HasOne};

use crate::fault::Fault;
use crate::run::insert;
use queue_types::event::KeptReport;
use sqlite::{Alter, Transaction, params};

/// Adds a report, of whose job and sequence number none is kept.
pub(crate) fn insert_report<S: Alter>(
    tx: &mut Transaction<'_, S>,
    kept: &KeptReport,
) -> Result<(), Fault>
    ensures same_reference { tx.new.conn.ghost_name ≡ tx.old.conn.ghost_name }
    ensures made { MakesRows (state S.Store tx.old.conn.now) (state S.Store tx.new.conn.now) result (λ c. HasOne (is_numbered kept.now.report.job) c.jobs × (filter (are_numbered kept.now.report.job kept.now.report.seq) c.reports ≡ [])) (with_report_row (report_values kept.now)) }
{
    let kind = u32::from(kept.report.kind.number());
    let told = u32::from(kept.state.number());
    insert(
        tx,
        "INSERT INTO reports (job, seq, kind, count, state, total) VALUES (?1, ?2, ?3, ?4, ?5, ?6)",
        params![
            kept.report.job,
            kept.report.seq,
            kind,
            kept.report.count,
            told,
            kept.total
        ],
    )
}
