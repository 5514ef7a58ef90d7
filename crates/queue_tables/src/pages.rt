//! The pages that a job takes of its owner's account.
ghost use Rattle.std.specs.Prelude.{◌≡◌, IfOk, IfErr, pos, neg_ℤ, ◌≤ℤ◌};
ghost use Rattle.queue_core.specs.Balance.{AreAmounts};
ghost use Rattle.queue_types.specs.Job.{owed};

use crate::account_rows::SumChange;
use crate::fault::Fault;
use queue_types::job::Job;
use queue_types::limits::{MOST_COPIES, MOST_IMPRESSIONS, MOST_PRINTED_PAGES};

/// What the job takes. One of more than 100,000 impressions, 999 copies or 100,000,000 printed pages is damaged.
pub(crate) fn taken_by(job: &Job) -> Result<SumChange, Fault>
    ensures amounts { IfOk result (λ t. AreAmounts job.now) }
    ensures reserved { IfOk result (λ t. t.reserved ≡ pos (owed job.now)) }
    ensures printed { IfOk result (λ t. t.printed ≡ pos job.now.count) }
    ensures small { IfOk result (λ t. (pos 0 ≤ℤ t.reserved) × (t.reserved ≤ℤ pos 100000000) × (pos 0 ≤ℤ t.printed) × (t.printed ≤ℤ pos 100000000)) }
    ensures damaged { IfErr result (λ _. ¬ AreAmounts job.now) }
{
    if job.impressions > MOST_IMPRESSIONS
        || job.copies > MOST_COPIES
        || job.count > MOST_PRINTED_PAGES
    {
        return Err(Fault::Damaged);
    }
    let owed = job.owed();
    Ok(SumChange {
        reserved: owed as i64,
        printed: i64::from(job.count),
    })
}

/// What comes back as the job goes.
pub(crate) fn returned_by(job: &Job) -> Result<SumChange, Fault>
    ensures reserved { IfOk result (λ t. t.reserved ≡ neg_ℤ (pos (owed job.now))) }
    ensures printed { IfOk result (λ t. t.printed ≡ neg_ℤ (pos job.now.count)) }
    ensures damaged { IfErr result (λ _. ¬ AreAmounts job.now) }
{
    let taken = taken_by(job)?;
    Ok(SumChange {
        reserved: -taken.reserved,
        printed: -taken.printed,
    })
}
