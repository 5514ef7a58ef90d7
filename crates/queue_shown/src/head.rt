//! The head of a document: its format and its length.
ghost use Rattle.std.specs.Prelude.{◌≡◌, ◌≢◌, ◌≤◌, IfSome, IfOk, IfErr, OnOk, IsTrue, option_map};
ghost use Rattle.sqlite.specs.Held.{state};
ghost use Rattle.sqlite.specs.State.{HasCleanDisk};
ghost use Rattle.queue_core.specs.Shown.{document_at, head_of, may_be_fetched};
ghost use Rattle.queue_core.specs.Sound.{IsSoundDocument};
ghost use Rattle.queue_core.specs.World.{rows, job_at};
ghost use Rattle.queue_types.specs.declared.document.Document.{Document};
ghost use Rattle.queue_types.specs.declared.job.Job.{Job as JobValue};
ghost use Rattle.queue_shown.specs.Fetched.{document_in, job_may_be_fetched, state_values};
ghost use Rattle.queue_shown.specs.Heads.{head_values};
ghost use Rattle.queue_tables.specs.Telling.{ReadsQueue};

use queue_rows::codes::course_of;
use queue_rows::laws::numbers_tell_names;
use queue_tables::fault::Fault;
use queue_tables::read::{flag, format, value};
use queue_tables::select::select;
use queue_types::document::DocumentHead;
use queue_types::job::Phase;
use queue_types::limits::MOST_DOCUMENT_OCTETS;
use sqlite::{Alter, Connection, Row, params};

/// Whether the device may fetch the documents of a job in that phase.
fn may_be_fetched_in(phase: Phase, hold: bool, incoming: bool) -> bool
    ensures { (j : JobValue) → j.phase ≡ phase → j.hold ≡ hold → j.incoming ≡ incoming → result ≡ may_be_fetched j }
{
    match phase {
        Phase::Waiting => !hold && !incoming,
        Phase::Running | Phase::Stopped => true,
        Phase::Canceled(_) | Phase::Aborted | Phase::Completed => false,
    }
}

/// The phase of a job, from the columns `phase`, `why` and `stopping` of [`may_fetch`]. Reports Damaged only if they are no job's.
fn phase_in(row: &Row) -> Result<Phase, Fault>
    ensures told { IfOk result (λ p. (j : JobValue) → row.now ≡ state_values j → p ≡ j.phase) }
    ensures damaged { IfErr result (λ e. e ≡ Fault.Damaged → (j : JobValue) → row.now ≢ state_values j) }
{
    numbers_tell_names();
    let phase: i64 = value(row, 2)?;
    let why: i64 = value(row, 3)?;
    let stopping: i64 = value(row, 4)?;
    let (phase, _) = course_of(phase, why, stopping).ok_or(Fault::Damaged)?;
    Ok(phase)
}

/// Whether the device may fetch the documents of the job of those columns. Damaged is told only where they are
/// no job's.
fn row_may_be_fetched(row: &Row) -> Result<bool, Fault>
    ensures told { IfOk result (λ b. (j : JobValue) → row.now ≡ state_values j → b ≡ may_be_fetched j) }
    ensures damaged { IfErr result (λ e. e ≡ Fault.Damaged → (j : JobValue) → row.now ≢ state_values j) }
{
    numbers_tell_names();
    let hold = flag(row, 0)?;
    let incoming = flag(row, 1)?;
    let phase = phase_in(row)?;
    Ok(may_be_fetched_in(phase, hold, incoming))
}

/// Whether the device may fetch the documents of the job of that number. Damaged is told only where the tables
/// hold no sound queue.
fn may_fetch<S: Alter>(conn: &mut Connection<S>, job: u32) -> Result<bool, Fault>
    ensures reads { ReadsQueue (state S.Store conn.old) (state S.Store conn.new) result (λ w b. b ≡ job_may_be_fetched (job_at job (rows w))) }
    ensures live { HasCleanDisk (state S.Store conn.new) → OnOk result (IsTrue (state S.Store conn.new).is_open) }
{
    let found = select(
        conn,
        "SELECT hold, incoming, phase, why, stopping FROM jobs WHERE number = ?1",
        params![job],
    )?;
    match found.first() {
        None => Ok(false),
        Some(row) => row_may_be_fetched(row),
    }
}

/// The head of a document of those columns. Damaged is told only where they are of no document of 1 to 16,777,216 bytes.
fn read_head(row: &Row) -> Result<DocumentHead, Fault>
    ensures head { IfOk result (λ h. (d : Document) → row.now ≡ head_values d → h ≡ head_of d) }
    ensures within { IfOk result (λ h. (1 ≤ h.octets) × (h.octets ≤ 16777216)) }
    ensures damaged { IfErr result (λ e. e ≡ Fault.Damaged → (d : Document) → IsSoundDocument d → row.now ≢ head_values d) }
{
    let format = format(row, 0)?;
    let octets = value(row, 1)?;
    if octets < 1 || octets > u64::from(MOST_DOCUMENT_OCTETS) {
        return Err(Fault::Damaged);
    }
    Ok(DocumentHead { format, octets })
}

/// The head of document n, from 1, of the job of that number. Damaged is told only where the tables hold no
/// sound queue.
fn find_head<S: Alter>(
    conn: &mut Connection<S>,
    job: u32,
    n: u32,
) -> Result<Option<DocumentHead>, Fault>
    ensures reads { ReadsQueue (state S.Store conn.old) (state S.Store conn.new) result (λ w h. h ≡ option_map head_of (document_in w.jobs job n)) }
    ensures live { HasCleanDisk (state S.Store conn.new) → OnOk result (IsTrue (state S.Store conn.new).is_open) }
    ensures within { IfOk result (λ h. IfSome h (λ it. (1 ≤ it.octets) × (it.octets ≤ 16777216))) }
{
    let found = select(
        conn,
        "SELECT format, octets FROM documents WHERE job = ?1 AND doc = ?2",
        params![job, n],
    )?;
    match found.first() {
        None => Ok(None),
        Some(row) => {
            let head = read_head(row)?;
            Ok(Some(head))
        }
    }
}

/// The format and the length, 1 to 16,777,216 bytes, of document n, counted from 1, of a job in state 3, 5 or 6; None where the job has not so many,
/// is in another state or isn't there. It writes nothing: the tables stay as they were, where the connection is still open. Within a transaction it answers Disk. Damaged
/// is told only where the tables hold no sound queue.
pub fn document_head<S: Alter>(
    conn: &mut Connection<S>,
    job: u32,
    n: u32,
) -> Result<Option<DocumentHead>, Fault>
    ensures reads { ReadsQueue (state S.Store conn.old) (state S.Store conn.new) result (λ w h. h ≡ option_map head_of (document_at w job n)) }
    ensures live { HasCleanDisk (state S.Store conn.new) → OnOk result (IsTrue (state S.Store conn.new).is_open) }
    ensures within { IfOk result (λ h. IfSome h (λ it. (1 ≤ it.octets) × (it.octets ≤ 16777216))) }
{
    let is_shown = may_fetch(conn, job)?;
    if !is_shown {
        return Ok(None);
    }
    find_head(conn, job, n)
}
