//! Rows as they are read, column by column.
ghost use Rattle.std.specs.Prelude.{◌≡◌, ◌≢◌, ◌<◌, ◌^◌, length, Bool, Option, IfOk, IfErr, IfSome};
ghost use Rattle.sqlite.specs.Order.{column};
ghost use Rattle.sqlite.specs.declared.types.Value.TheVariants.{Text as Words};
ghost use Rattle.std.specs.Str.{IsUtf8};
ghost use Rattle.std.specs.Prelude.{ℕ, List};
ghost use Rattle.queue_types.specs.Formats.{format_name};
ghost use Rattle.queue_types.specs.declared.document.Format.{Format as FormatValue};
ghost use Rattle.queue_types.specs.declared.event.Kind.{Kind as KindValue};
ghost use Rattle.queue_types.specs.declared.job.Job.{Job as JobValue};
ghost use Rattle.queue_types.specs.declared.job.Phase.{Phase as PhaseValue};
ghost use Rattle.queue_types.specs.declared.job.Why.{Why as WhyValue};
ghost use Rattle.queue_types.specs.declared.states.JobState.{JobState as StateValue};
ghost use Rattle.queue_core.specs.Limits.{IsSoundJob};
ghost use Rattle.queue_rows.specs.Codes.{job_state_number, kind_number, phase_number, stopping_number, why_number};
ghost use Rattle.queue_rows.specs.Jobs.{IsJobRow};
ghost use Rattle.queue_tables.specs.Courses.{IsCourseIn};
ghost use Rattle.queue_tables.specs.Forms.{IsFormedJob};
ghost use Rattle.queue_tables.specs.Steps.{bare};
ghost use Rattle.queue_tables.specs.Values.{job_values, moment, number, truth};

use crate::fault::{Fault, fault_of_value};
use queue_rows::codes::{course_of, flag_of, job_state_of, kind_of};
use queue_rows::jobs::is_job_row;
use queue_rows::laws::numbers_tell_names;
use queue_types::document::Format;
use queue_types::event::Kind;
use queue_types::job::{Job, Phase, Why};
use queue_types::states::JobState;
use queue_types::text::Text;
use sqlite::Row;
use sqlite::types::{FromSql, ValueRef};
use std::alloc::Global;

/// One value. Damaged is told only where the column has not this form.
pub fn value<T: FromSql>(row: &Row, at: usize) -> Result<T, Fault>
    ensures ok { IfOk result (λ x. T.FromSql.reads_as (column row.now at) x) }
    ensures err { IfErr result (λ e. e ≡ Fault.Damaged → at < length row.now → ¬ T.FromSql.is_readable (column row.now at)) }
    ensures never { IfErr result (λ e. e ≢ Fault.Disk) }
{
    row.get(at).map_err(fault_of_value)
}

/// A text.
pub fn text(alloc: Global, row: &Row, at: usize) -> Result<Text, Fault>
    ensures ok { IfOk result (λ t. column row.now at ≡ Words t) }
    ensures err { IfErr result (λ e. e ≡ Fault.Damaged → at < length row.now → (t : List ℕ) → IsUtf8 t → column row.now at ≢ Words t) }
    ensures never { IfErr result (λ e. e ≢ Fault.Disk) }
{
    let Ok(ValueRef::Text(bytes)) = row.get_ref(at) else {
        return Err(Fault::Damaged);
    };
    let Ok(text) = str::from_utf8(bytes) else {
        return Err(Fault::Damaged);
    };
    let text = Text::copy_of(alloc, text)?;
    Ok(text)
}

/// A truth value, which is 0 or 1.
pub fn flag(row: &Row, at: usize) -> Result<bool, Fault>
    ensures ok { IfOk result (λ b. column row.now at ≡ truth b) }
    ensures err { IfErr result (λ e. e ≡ Fault.Damaged → at < length row.now → (b : Bool) → column row.now at ≢ truth b) }
    ensures never { IfErr result (λ e. e ≢ Fault.Disk) }
{
    let code: i64 = value(row, at)?;
    flag_of(code).ok_or(Fault::Damaged)
}

/// The phase of a job and who stops it, of the columns `phase`, `why` and `stopping`.
fn phase_and_stopping(
    row: &Row,
    at: usize,
    why_at: usize,
    stopping_at: usize,
) -> Result<(Phase, Option<Why>), Fault>
    ensures ok { IfOk result (λ c. (column row.now at ≡ number (phase_number c.0)) × (column row.now why_at ≡ number (why_number c.0 c.1)) × (column row.now stopping_at ≡ number (stopping_number c.0 c.1))) }
    ensures err { IfErr result (λ e. e ≡ Fault.Damaged → at < length row.now → why_at < length row.now → stopping_at < length row.now → (p : PhaseValue) (s : Option WhyValue) → column row.now at ≡ number (phase_number p) → column row.now why_at ≡ number (why_number p s) → column row.now stopping_at ≢ number (stopping_number p s)) }
    ensures never { IfErr result (λ e. e ≢ Fault.Disk) }
{
    let code: i64 = value(row, at)?;
    let why: i64 = value(row, why_at)?;
    let stopping: i64 = value(row, stopping_at)?;
    course_of(code, why, stopping).ok_or(Fault::Damaged)
}

/// The kind of a report, by its number.
pub fn kind(row: &Row, at: usize) -> Result<Kind, Fault>
    ensures ok { IfOk result (λ k. column row.now at ≡ number (kind_number k)) }
    ensures err { IfErr result (λ e. e ≡ Fault.Damaged → at < length row.now → (k : KindValue) → column row.now at ≢ number (kind_number k)) }
    ensures never { IfErr result (λ e. e ≢ Fault.Disk) }
{
    let code: i64 = value(row, at)?;
    kind_of(code).ok_or(Fault::Damaged)
}

/// The state of a job, by its number.
pub fn job_state(row: &Row, at: usize) -> Result<JobState, Fault>
    ensures ok { IfOk result (λ s. column row.now at ≡ number (job_state_number s)) }
    ensures err { IfErr result (λ e. e ≡ Fault.Damaged → at < length row.now → (s : StateValue) → column row.now at ≢ number (job_state_number s)) }
    ensures never { IfErr result (λ e. e ≢ Fault.Disk) }
{
    let code: i64 = value(row, at)?;
    job_state_of(code).ok_or(Fault::Damaged)
}

/// A document format, by its name.
pub fn format(row: &Row, at: usize) -> Result<Format, Fault>
    ensures ok { IfOk result (λ f. column row.now at ≡ Words (format_name f)) }
    ensures err { IfErr result (λ e. e ≡ Fault.Damaged → at < length row.now → (f : FormatValue) → column row.now at ≢ Words (format_name f)) }
    ensures never { IfErr result (λ e. e ≢ Fault.Disk) }
{
    let Ok(ValueRef::Text(text)) = row.get_ref(at) else {
        return Err(Fault::Damaged);
    };
    Format::from_name(text).ok_or(Fault::Damaged)
}

/// A moment, or NULL where there is none: `value`, with clauses that speak of the moment.
fn moment_at(row: &Row, at: usize) -> Result<Option<u32>, Fault>
    ensures ok { IfOk result (λ o. column row.now at ≡ moment o) }
    ensures err { IfErr result (λ e. e ≡ Fault.Damaged → at < length row.now → (o : Option ℕ) → IfSome o (λ n. n < 2 ^ 32) → column row.now at ≢ moment o) }
    ensures never { IfErr result (λ e. e ≢ Fault.Disk) }
{
    value(row, at)
}

/// What has become of a job since it came. Its fields are those of [`Job`].
#[derive(Clone, Copy)]
struct Course {
    hold: bool,
    incoming: bool,
    phase: Phase,
    stopping: Option<Why>,
    count: u32,
    begun: Option<u32>,
    ended: Option<u32>,
}

/// What has become of a job, from the columns of [`read_job`]. Damaged is told only where they are no job's.
fn read_course(row: &Row) -> Result<Course, Fault>
    ensures ok { IfOk result (IsCourseIn row.now) }
    ensures err { IfErr result (λ e. e ≡ Fault.Damaged → (j : JobValue) → IsFormedJob j → row.now ≢ job_values j) }
    ensures never { IfErr result (λ e. e ≢ Fault.Disk) }
{
    let (phase, stopping) = phase_and_stopping(row, 7, 8, 9)?;
    Ok(Course {
        hold: flag(row, 5)?,
        incoming: flag(row, 6)?,
        phase,
        stopping,
        count: value(row, 10)?,
        begun: moment_at(row, 12)?,
        ended: moment_at(row, 13)?,
    })
}

/// A job without its documents, from the columns that a SELECT shows. Damaged is told only where they are
/// no job's.
pub fn read_job(alloc: Global, row: &Row) -> Result<Job, Fault>
    ensures ok { IfOk result (λ j. length row.now ≡ 14 → row.now ≡ job_values j) }
    ensures bare { IfOk result (λ j. (j.documents ≡ 0) × (j.octets ≡ 0)) }
    ensures err { IfErr result (λ e. e ≡ Fault.Damaged → (j : JobValue) → IsFormedJob j → row.now ≢ job_values j) }
    ensures never { IfErr result (λ e. e ≢ Fault.Disk) }
{
    let course = read_course(row)?;
    // The texts last: an error after them would have to let them go.
    Ok(Job {
        number: value(row, 0)?,
        copies: value(row, 3)?,
        impressions: value(row, 4)?,
        created: value(row, 11)?,
        hold: course.hold,
        incoming: course.incoming,
        phase: course.phase,
        stopping: course.stopping,
        count: course.count,
        begun: course.begun,
        ended: course.ended,
        documents: 0,
        octets: 0,
        owner: text(alloc, row, 1)?,
        name: text(alloc, row, 2)?,
    })
}

/// As [`read_job`], but also damaged where the job is not within a job's limits; Damaged is told only where the row is of no such
/// job.
pub fn read_sound_job(alloc: Global, row: &Row) -> Result<Job, Fault>
    ensures sound { IfOk result IsJobRow }
    ensures read { IfOk result (λ k. (j : JobValue) → row.now ≡ job_values j → k ≡ bare j) }
    ensures damaged { IfErr result (λ e. e ≡ Fault.Damaged → (j : JobValue) → IsSoundJob j → row.now ≢ job_values j) }
{
    numbers_tell_names();
    let job = read_job(alloc, row)?;
    if !is_job_row(&job) {
        return Err(Fault::Damaged);
    }
    Ok(job)
}
