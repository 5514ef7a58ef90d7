//! The rows of jobs: each one's own limits, and the order of their numbers.
ghost use Rattle.std.specs.Prelude.{◌≡◌, ◌↔◌, All, IsTrue, IsSome, IfSome, None, Some, ◌≢◌, false};
ghost use Rattle.queue_core.specs.Limits.{IsPositive, IsMoment, FitsPhase};
ghost use Rattle.queue_types.specs.declared.job.Why.TheVariants.{AtDevice};
ghost use Rattle.queue_rows.specs.Jobs.{IsJobRow, NumbersRise};

use queue_core::{is_job_name, is_owner};
use queue_types::job::{Job, Phase, Why};
use queue_types::limits::{
    LAST_JOB_NUMBER, LAST_MOMENT, MOST_COPIES, MOST_IMPRESSIONS, MOST_PRINTED_PAGES,
};

fn is_job_number(n: u32) -> bool
    ensures { IsTrue result ↔ IsPositive n }
{
    n >= 1 && n <= LAST_JOB_NUMBER
}

fn is_moment(n: u32) -> bool
    ensures { IsTrue result ↔ IsMoment n }
{
    n >= 1 && n <= LAST_MOMENT
}

fn is_moment_if_some(moment: Option<u32>) -> bool
    ensures { IsTrue result ↔ IfSome moment IsMoment }
{
    moment.is_none_or(is_moment)
}

fn fits_waiting(job: &Job) -> bool
    ensures { IsTrue result ↔ ((job.now.count ≡ 0) × (job.now.begun ≡ None) × (job.now.ended ≡ None) × (job.now.stopping ≡ None)) }
{
    job.count == 0 && job.begun.is_none() && job.ended.is_none() && job.stopping.is_none()
}

/// A job that is stopping was not stopped at the device.
fn may_be_stopping(stopping: Option<Why>) -> bool
    ensures { IsTrue result ↔ (stopping ≢ Some AtDevice) }
{
    match stopping {
        Some(Why::AtDevice) => false,
        Some(Why::ByUser | Why::ByOperator) | None => true,
    }
}

fn fits_at_device(job: &Job) -> bool
    ensures { IsTrue result ↔ ((job.now.hold ≡ false) × (job.now.incoming ≡ false) × IsSome job.now.begun × (job.now.ended ≡ None) × (job.now.stopping ≢ Some AtDevice)) }
{
    !job.hold
        && !job.incoming
        && job.begun.is_some()
        && job.ended.is_none()
        && may_be_stopping(job.stopping)
}

fn fits_ended(job: &Job) -> bool
    ensures { IsTrue result ↔ ((job.now.hold ≡ false) × (job.now.incoming ≡ false) × IsSome job.now.ended × (job.now.stopping ≡ None)) }
{
    !job.hold && !job.incoming && job.ended.is_some() && job.stopping.is_none()
}

fn fits_phase(job: &Job) -> bool
    ensures { IsTrue result ↔ FitsPhase job.now.phase job.now }
{
    match job.phase {
        Phase::Waiting => fits_waiting(job),
        Phase::Running | Phase::Stopped => fits_at_device(job),
        Phase::Canceled(_) | Phase::Aborted | Phase::Completed => fits_ended(job),
    }
}

/// The job is within its own limits, and says nothing of its documents.
pub fn is_job_row(job: &Job) -> bool
    ensures { IsTrue result ↔ IsJobRow job.now }
{
    let texts = is_owner(job.owner.as_str()) && is_job_name(job.name.as_str());
    let moments = is_moment(job.created)
        && is_moment_if_some(job.begun)
        && is_moment_if_some(job.ended);
    let numbers = is_job_number(job.number)
        && job.copies >= 1
        && job.copies <= MOST_COPIES
        && job.impressions <= MOST_IMPRESSIONS
        && job.count <= MOST_PRINTED_PAGES;
    let is_bare = job.documents == 0 && job.octets == 0;
    texts && moments && numbers && is_bare && fits_phase(job)
}

/// Each is a job within its limits, whose phase fits its other columns.
pub(crate) fn jobs_are_sound(jobs: &[Job]) -> bool
    ensures { IsTrue result ↔ All IsJobRow jobs.now }
{
    jobs.iter().all(is_job_row)
}

/// The numbers rise from 1 on, and stay below the next.
pub(crate) fn numbers_rise(jobs: &[Job], next: u32) -> bool
    ensures { IsTrue result ↔ NumbersRise 1 jobs.now next }
{
    let mut least = 1u64;
    for job in jobs {
        if u64::from(job.number) < least {
            return false;
        }
        least = u64::from(job.number) + 1;
    }
    least <= u64::from(next)
}
