//! A job, its states and their reasons.
//!
//! ```text
//!   new --> 4 pending-held <--> 3 pending --> 5 processing <--> 6 processing-stopped
//!                |                  |               |                   |
//!   7 canceled <-+------------------+---------------+-------------------+
//!   8 aborted <-------------------------------------+-------------------+
//!   9 completed <-----------------------------------+
//! ```
//!
//! (RFC 8011, section 5.3.7.) A running or stopped job ends by the device alone: a cancel only marks it
//! as stopping. Only a running job completes, and only a running or stopped one is aborted.
ghost use Rattle.std.specs.Prelude.{◌≡◌, IfOk, Some, None, if◌then◌else◌};
ghost use Rattle.queue_types.specs.Job.{estimate, is_live, job_state, owed, reasons};

use crate::list::ListOf;
use crate::states::JobState;
use crate::text::Text;
use std::alloc::{AllocError, Global};

/// Who canceled a job.
#[derive(Clone, Copy, Debug, PartialEq, Eq)]
pub enum Why {
    /// Its owner.
    ByUser,
    /// The device, unasked.
    AtDevice,
    /// An operator, of another's job.
    ByOperator,
}

/// Where a job is on its way. A waiting job is in state 4 while it is held or still takes documents,
/// and else in state 3.
#[derive(Clone, Copy, Debug, PartialEq, Eq)]
pub enum Phase {
    Waiting,
    Running,
    Stopped,
    Canceled(Why),
    Aborted,
    Completed,
}

/// One keyword of job-state-reasons (RFC 8011, section 5.3.8).
#[derive(Clone, Copy, Debug, PartialEq, Eq)]
pub enum Reason {
    /// The keyword `none`.
    NoReason,
    JobIncoming,
    JobHoldUntilSpecified,
    JobPrinting,
    PrinterStopped,
    ProcessingToStopPoint,
    JobCanceledByUser,
    JobCanceledAtDevice,
    JobCanceledByOperator,
    AbortedBySystem,
    JobCompletedSuccessfully,
}

/// The reasons of a job's state, in order.
#[derive(Clone, Copy, Debug, PartialEq, Eq)]
pub struct Reasons {
    pub first: Reason,
    pub second: Option<Reason>,
}

/// A job without its documents (RFC 8011, section 5.3).
#[derive(Debug, Drop)]
pub struct Job {
    /// 1 to 2,147,483,647.
    pub number: u32,
    /// The requesting user name: 1 to 255 octets without control bytes.
    pub owner: Text,
    /// 1 to 255 octets without a zero byte.
    pub name: Text,
    /// 1 to 999.
    pub copies: u32,
    /// Pages of one copy, 0 to 100,000.
    pub impressions: u32,
    /// The owner has yet to release it.
    pub hold: bool,
    /// More documents may come.
    pub incoming: bool,
    pub phase: Phase,
    /// Who asked to cancel the job while the device has it: its owner or an operator.
    pub stopping: Option<Why>,
    /// Pages that the device has reported, 0 to 100,000,000.
    pub count: u32,
    /// The moment when it came, in seconds of printer up time, 1 to 2,147,483,647.
    pub created: u32,
    /// The moment when the device began it.
    pub begun: Option<u32>,
    /// The moment when it ended.
    pub ended: Option<u32>,
    /// The number of documents, at most 16.
    pub documents: u32,
    /// The sum of their lengths in bytes, each at most 16,777,216.
    pub octets: u64,
}

/// Jobs.
pub type JobList = ListOf<Job>;

impl ListOf<Job> {
    /// A copy. The one error is want of memory.
    pub fn try_clone(&self, alloc: Global) -> Result<JobList, AllocError>
        ensures { IfOk result (λ l. l ≡ self.now) }
    {
        let mut jobs = Vec::new(alloc);
        for job in self.as_slice() {
            jobs.push(job.try_clone()?)?;
        }
        Ok(ListOf::from_items(jobs))
    }
}

fn only(first: Reason) -> Reasons
    ensures { result ≡ record { first = first; second = None } }
{
    Reasons {
        first,
        second: None,
    }
}

fn with_second(first: Reason, second: Reason, is_there: bool) -> Reasons
    ensures { result ≡ record { first = first; second = (if is_there then Some second else None) } }
{
    Reasons {
        first,
        second: is_there.then_some(second),
    }
}

impl Job {
    /// Its state (RFC 8011, section 5.3.7). It takes no memory.
    pub fn state(&self) -> JobState
        ensures { result ≡ job_state self.now }
    {
        match self.phase {
            Phase::Waiting if self.hold || self.incoming => JobState::PendingHeld,
            Phase::Waiting => JobState::Pending,
            Phase::Running => JobState::Processing,
            Phase::Stopped => JobState::ProcessingStopped,
            Phase::Canceled(_) => JobState::Canceled,
            Phase::Aborted => JobState::Aborted,
            Phase::Completed => JobState::Completed,
        }
    }

    /// The reasons of its state, one or two (RFC 8011, section 5.3.8). It takes no memory.
    pub fn reasons(&self) -> Reasons
        ensures { result ≡ reasons self.now }
    {
        match self.phase {
            Phase::Waiting => {
                if self.incoming {
                    with_second(
                        Reason::JobIncoming,
                        Reason::JobHoldUntilSpecified,
                        self.hold,
                    )
                } else if self.hold {
                    only(Reason::JobHoldUntilSpecified)
                } else {
                    only(Reason::NoReason)
                }
            }
            Phase::Running => {
                with_second(
                    Reason::JobPrinting,
                    Reason::ProcessingToStopPoint,
                    self.stopping.is_some(),
                )
            }
            Phase::Stopped => {
                with_second(
                    Reason::PrinterStopped,
                    Reason::ProcessingToStopPoint,
                    self.stopping.is_some(),
                )
            }
            Phase::Canceled(Why::ByUser) => only(Reason::JobCanceledByUser),
            Phase::Canceled(Why::AtDevice) => only(Reason::JobCanceledAtDevice),
            Phase::Canceled(Why::ByOperator) => only(Reason::JobCanceledByOperator),
            Phase::Aborted => only(Reason::AbortedBySystem),
            Phase::Completed => only(Reason::JobCompletedSuccessfully),
        }
    }

    /// It is in one of the states 3 to 6.
    pub fn is_live(&self) -> bool
        ensures { result ≡ is_live self.now }
    {
        match self.phase {
            Phase::Waiting | Phase::Running | Phase::Stopped => true,
            Phase::Canceled(_) | Phase::Aborted | Phase::Completed => false,
        }
    }

    /// The pages that its owner asked for: those of one copy, times the copies.
    pub fn estimate(&self) -> u64
        ensures { result ≡ estimate self.now }
    {
        u64::from(self.impressions) * u64::from(self.copies)
    }

    /// The pages that are still set aside for it: none while it is held or once it has ended.
    pub fn owed(&self) -> u64
        ensures { result ≡ owed self.now }
    {
        if self.hold || !self.is_live() {
            return 0;
        }
        self.estimate().saturating_sub(u64::from(self.count))
    }

    /// A copy. The one error is want of memory.
    pub fn try_clone(&self) -> Result<Job, AllocError>
        ensures { IfOk result (λ j. j ≡ self.now) }
    {
        let owner = self.owner.try_clone()?;
        let name = self.name.try_clone()?;
        Ok(Job {
            number: self.number,
            owner,
            name,
            copies: self.copies,
            impressions: self.impressions,
            hold: self.hold,
            incoming: self.incoming,
            phase: self.phase,
            stopping: self.stopping,
            count: self.count,
            created: self.created,
            begun: self.begun,
            ended: self.ended,
            documents: self.documents,
            octets: self.octets,
        })
    }
}
