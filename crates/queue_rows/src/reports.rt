//! The rows of kept reports: each one's own limits, their order, their jobs, and the jobs' counts.
ghost use Rattle.std.specs.Prelude.{◌≡◌, ◌↔◌, ℕ, All, IsTrue, IfOk, unwrap_or, nat_eq};
ghost use Rattle.std.specs.HashMap.{get};
ghost use Rattle.std.specs.HashSet.{contains};
ghost use Rattle.queue_rows.specs.Jobs.{has_number};
ghost use Rattle.queue_rows.specs.Reports.{IsReportRow, greatest};

use crate::order::Keyed;
use queue_types::event::KeptReport;
use queue_types::job::Job;
use queue_types::limits::{LAST_REPORT_NUMBER, MOST_PRINTED_PAGES};
use std::alloc::{AllocError, Global};
use std::collections::{HashMap, HashSet};

fn is_report(kept: &KeptReport) -> bool
    ensures { IsTrue result ↔ IsReportRow kept.now }
{
    let seq = kept.report.seq >= 1 && kept.report.seq <= LAST_REPORT_NUMBER;
    seq && kept.report.count <= MOST_PRINTED_PAGES && kept.total <= MOST_PRINTED_PAGES
}

/// The numbers of each, and what was told of it, are within their limits.
pub(crate) fn reports_are_sound(reports: &[KeptReport]) -> bool
    ensures { IsTrue result ↔ All IsReportRow reports.now }
{
    reports.iter().all(is_report)
}

/// By job, then by sequence number.
impl Keyed for KeptReport {
    ghost use Rattle.queue_rows.specs.Reports.{report_before};

    ghost before = { report_before };

    fn is_before(&self, other: &KeptReport) -> bool {
        let (a, b) = (self.report, other.report);
        (a.job, a.seq) < (b.job, b.seq)
    }
}

/// The numbers of the jobs.
fn job_numbers(alloc: Global, jobs: &[Job]) -> Result<HashSet<u32>, AllocError>
    ensures { IfOk result (λ s. (n : ℕ) → contains nat_eq s n ≡ has_number n jobs.now) }
{
    let mut numbers = HashSet::new(alloc);
    for job in jobs {
        numbers.insert(job.number)?;
    }
    Ok(numbers)
}

/// Each report's job is there.
pub(crate) fn reports_have_jobs(
    alloc: Global,
    reports: &[KeptReport],
    jobs: &[Job],
) -> Result<bool, AllocError>
    ensures { IfOk result (λ b. IsTrue b ↔ All (λ k. IsTrue (has_number k.report.job jobs.now)) reports.now) }
{
    let numbers = job_numbers(alloc, jobs)?;
    Ok(
        reports
            .iter()
            .all(|kept| numbers.contains(&kept.report.job)),
    )
}

/// The greatest count that was reported of each job.
fn greatest_counts(alloc: Global, reports: &[KeptReport]) -> Result<HashMap<u32, u32>, AllocError>
    ensures { IfOk result (λ m. (n : ℕ) → unwrap_or (get nat_eq m n) 0 ≡ greatest n reports.now) }
{
    let mut counts = HashMap::new(alloc);
    for kept in reports {
        let before = counts.get(&kept.report.job).copied().unwrap_or(0);
        counts.insert(kept.report.job, before.max(kept.report.count))?;
    }
    Ok(counts)
}

/// Each job's count is the greatest of its reports.
pub(crate) fn counts_are_greatest(
    alloc: Global,
    jobs: &[Job],
    reports: &[KeptReport],
) -> Result<bool, AllocError>
    ensures { IfOk result (λ b. IsTrue b ↔ All (λ j. j.count ≡ greatest j.number reports.now) jobs.now) }
{
    let counts = greatest_counts(alloc, reports)?;
    Ok(jobs.iter().all(|job| job.count == counts.get(&job.number).copied().unwrap_or(0)))
}
