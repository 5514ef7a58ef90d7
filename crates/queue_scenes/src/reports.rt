//! A kept report, by its job and sequence number.
ghost use Rattle.std.specs.Prelude.{◌≡◌, ◌≤◌, ◌≢◌, IfOk, OnOk, IfSome, IsTrue, IfErr};
ghost use Rattle.std.specs.FinMap.{get};
ghost use Rattle.sqlite.specs.Held.{state};
ghost use Rattle.sqlite.specs.Order.{column};
ghost use Rattle.sqlite.specs.State.{HasCleanDisk};
ghost use Rattle.queue_rows.specs.Codes.{job_state_number, kind_number};
ghost use Rattle.queue_tables.specs.Telling.{ReadsQueue};
ghost use Rattle.queue_tables.specs.Values.{number};
ghost use Rattle.queue_types.specs.declared.event.KeptReport.{KeptReport as KeptValue};
ghost use Rattle.queue_scenes.specs.Reports.{IsFormedReport, told_values};

use queue_rows::laws::numbers_tell_names;
use queue_tables::fault::Fault;
use queue_tables::read::{job_state, kind, value};
use queue_tables::select::select;
use queue_types::event::{KeptReport, Report};
use queue_types::limits::MOST_PRINTED_PAGES;
use sqlite::{Alter, Connection, Row, params};

/// The report in a row under that key. It is damaged where its answer is out of bounds.
fn read_report(row: &Row, job: u32, seq: u32) -> Result<KeptReport, Fault>
    ensures job { IfOk result (λ k. k.report.job ≡ job) }
    ensures seq { IfOk result (λ k. k.report.seq ≡ seq) }
    ensures kind { IfOk result (λ k. column row.now 0 ≡ number (kind_number k.report.kind)) }
    ensures count { IfOk result (λ k. column row.now 1 ≡ number k.report.count) }
    ensures told { IfOk result (λ k. column row.now 2 ≡ number (job_state_number k.state)) }
    ensures total { IfOk result (λ k. column row.now 3 ≡ number k.total) }
    ensures within { IfOk result (λ k. k.total ≤ 100000000) }
    ensures damaged { IfErr result (λ e. e ≡ Fault.Damaged → (k : KeptValue) → IsFormedReport k → row.now ≢ told_values k) }
{
    let kind = kind(row, 0)?;
    let count = value(row, 1)?;
    let state = job_state(row, 2)?;
    let total = value(row, 3)?;
    if total > MOST_PRINTED_PAGES {
        return Err(Fault::Damaged);
    }
    Ok(KeptReport {
        report: Report {
            job,
            seq,
            kind,
            count,
        },
        state,
        total,
    })
}

/// The report that is kept of the job under the sequence number.
pub(crate) fn kept_report<S: Alter>(
    conn: &mut Connection<S>,
    job: u32,
    seq: u32,
) -> Result<Option<KeptReport>, Fault>
    ensures reads { ReadsQueue (state S.Store conn.old) (state S.Store conn.new) result (λ w found. found ≡ get w.reports (job, seq)) }
    ensures live { HasCleanDisk (state S.Store conn.new) → OnOk result (IsTrue (state S.Store conn.new).is_open) }
    ensures within { IfOk result (λ found. IfSome found (λ k. k.total ≤ 100000000)) }
{
    numbers_tell_names();
    let found = select(
        conn,
        "SELECT kind, count, state, total FROM reports WHERE job = ?1 AND seq = ?2",
        params![job, seq],
    )?;
    match found.first() {
        None => Ok(None),
        Some(row) => {
            let kept = read_report(row, job, seq)?;
            Ok(Some(kept))
        }
    }
}
