//! What may happen to a queue, what it answers, and what becomes of its rows.
ghost use Rattle.std.specs.Prelude.{◌≡◌, IfOk};
ghost use Rattle.queue_types.specs.Event.{call_of, on_job};

use crate::document::Format;
use crate::job::JobList;
use crate::list::ListOf;
use crate::settings::Settings;
use crate::states::{JobState, PrinterState};
use crate::text::Text;
use std::alloc::AllocError;
use std::marker::Model;

/// What a request asks of a new job.
#[derive(Clone, Copy)]
pub struct NewJob<'a> {
    /// 1 to 255 octets without a zero byte.
    pub name: &'a str,
    /// 1 to 999.
    pub copies: u32,
    /// Pages of one copy, 0 to 100,000. Where it is not given, the settings' estimate stands.
    pub impressions: Option<u32>,
}

/// Which jobs Get-Jobs shows (RFC 8011, section 4.2.6.1).
#[derive(Clone, Copy, Debug, PartialEq, Eq)]
pub enum WhichJobs {
    /// Jobs in states 3 to 6.
    NotCompleted,
    /// Jobs in states 7 to 9.
    Completed,
}

/// Job numbers.
pub type NumberList = ListOf<u32>;

/// An operation with its values (RFC 8011, section 4; PWG 5100.11).
#[derive(Drop)]
pub enum Call<'a> {
    /// A new job, on hold. Its document is the payload, of at most 16,777,216 bytes, and there is none where that is empty.
    PrintJob {
        job: NewJob<'a>,
        format: Format,
        payload: &'a [u8],
    },
    /// Whether Print-Job would take such a job: done, or the code that refuses it. Nothing changes.
    ValidateJob {
        job: NewJob<'a>,
    },
    /// A new job, on hold and open for documents.
    CreateJob {
        job: NewJob<'a>,
    },
    /// The open job of that number gets the payload, of at most 16,777,216 bytes, as a document, where it is not empty. With the last
    /// one it takes no more.
    SendDocument {
        job: u32,
        format: Format,
        payload: &'a [u8],
        last: bool,
    },
    /// The job of that number is canceled, or marked as stopping while the device has it. An operator cancels any job, and
    /// anybody else only its own.
    CancelJob {
        job: u32,
    },
    /// The caller's jobs of these numbers are canceled, all of them or none; without numbers those of its
    /// jobs that can be.
    CancelMyJobs {
        jobs: Option<NumberList>,
    },
    /// The waiting job of that number is held. What was set aside for it goes back to its account.
    HoldJob {
        job: u32,
    },
    /// The held job of that number may print, where its account has the pages; they are set aside.
    ReleaseJob {
        job: u32,
    },
    /// The job of that number is shown: to an operator any job, and to anybody else only its own.
    GetJobAttributes {
        job: u32,
    },
    /// Jobs are shown: those that are not completed, or those that are, and no more than the limit. They are the caller's,
    /// and for an operator those of all callers unless it asks for its own alone.
    GetJobs {
        which: WhichJobs,
        limit: Option<u32>,
        /// The attribute my-jobs, which says nothing to callers other than operators (RFC 8011, section 4.2.6.1).
        mine: bool,
    },
    /// The printer is shown.
    GetPrinterAttributes,
}

impl Call<'_> {
    /// The number of the one job that it is about.
    pub fn job(&self) -> Option<u32>
        ensures { result ≡ on_job (call_of self.now) }
    {
        match self {
            Call::SendDocument { job, .. }
            | Call::CancelJob { job }
            | Call::HoldJob { job }
            | Call::ReleaseJob { job }
            | Call::GetJobAttributes { job } => Some(*job),
            Call::PrintJob { .. }
            | Call::ValidateJob { .. }
            | Call::CreateJob { .. }
            | Call::CancelMyJobs { .. }
            | Call::GetJobs { .. }
            | Call::GetPrinterAttributes => None,
        }
    }
}

/// What happens to a queue.
#[derive(Drop)]
pub enum Event<'a> {
    /// A caller, by the requesting user name (1 to 255 octets without control characters), asks for an operation.
    Ask { caller: &'a str, call: Call<'a> },
    /// The device reports of a job.
    Report(Report),
    /// The office grants pages: the rows of an account file, at most 16,777,216.
    Grants(&'a [GrantRow]),
    /// Held and open jobs that are older than the printer keeps them end.
    Expire,
}

/// What the machine answers.
#[derive(Debug, Drop)]
pub enum Reply {
    /// The status code of a refusal (RFC 8011, appendix B). Nothing changes.
    Refused(u16),
    /// What was asked is done, and there is nothing to show.
    Done,
    /// The jobs that are shown, in order: those that were asked for, or the one that was made or sent to.
    Jobs(JobList),
    /// The printer's state, how many jobs are in states 3 to 6, and whether there is a number for a new job.
    Printer {
        state: PrinterState,
        queued: u32,
        accepting: bool,
    },
    /// A report is accepted, now or before: the job's state, and the pages reported of it, as they were after it was
    /// accepted.
    Told {
        state: JobState,
        count: u32,
    },
    /// A report is not accepted. Nothing changes.
    NotTold(ReportRefusal),
    /// The rows of an account file are taken: so many are new, and so many equal one that was accepted before.
    Added {
        added: u32,
        repeats: u32,
    },
    /// None of the rows of an account file is taken, for this one, counted from 1. Nothing changes.
    NotAdded {
        refusal: GrantRefusal,
        row: u32,
    },
    /// The number of jobs that a sweep ended.
    Expired(u32),
}

/// Why a report is not accepted, by its number.
#[derive(Clone, Copy, Debug, PartialEq, Eq)]
pub enum ReportRefusal {
    /// There is no job of that number.
    NoJob = 2,
    /// The job's phase takes no report of that kind.
    State = 3,
    /// Another kind or count was accepted of the job under that sequence number.
    Conflict = 5,
}

/// Why a row of an account file can't be taken, by its number.
#[derive(Clone, Copy, Debug, PartialEq, Eq)]
pub enum GrantRefusal {
    /// The same batch and account were accepted with other pages.
    Conflict = 4,
    /// The account would have more than 1,000,000,000 pages granted.
    TooMany = 5,
}

/// The kinds of a device's reports.
#[derive(Clone, Copy, Debug, PartialEq, Eq)]
pub enum Kind {
    /// The job begins to print.
    Start = 1,
    /// The device stands still in the job.
    Stop = 2,
    /// It goes on with the job.
    Resume = 3,
    /// So many pages of the job are printed by now.
    Count = 4,
    /// The job is printed.
    Done = 5,
    /// The job can't be printed.
    Fail = 6,
    /// The job was ended before it was done.
    Halt = 7,
}

impl Kind {
    ghost use Rattle.queue_types.specs.Event.{kind_number};

    /// 1 to 7, in the order above.
    pub fn number(self) -> u8
        ensures { result ≡ kind_number self }
    {
        self as u8
    }
}

/// What a device reports of a job: numbers of 1 to 2,147,483,647, and 0 to 100,000,000 pages.
#[derive(Clone, Copy, Debug, PartialEq, Eq)]
pub struct Report {
    pub job: u32,
    pub seq: u32,
    pub kind: Kind,
    pub count: u32,
}

/// A report that was accepted, with what its answer told: the state, and the count, at most 100,000,000 pages.
#[derive(Clone, Copy, Debug, PartialEq, Eq)]
pub struct KeptReport {
    pub report: Report,
    pub state: JobState,
    pub total: u32,
}

/// Pages granted to an account (1 to 255 octets), 1 to 1,000,000 of them, under a batch's name: 1 to 40 ASCII letters, digits, `-`, `.` and `_`.
#[derive(Debug, Drop)]
pub struct GrantRow {
    pub batch: Text,
    pub account: Text,
    pub pages: u32,
}

impl GrantRow {
    /// A copy. The one error is want of memory.
    pub fn try_clone(&self) -> Result<GrantRow, AllocError>
        ensures { IfOk result (λ g. g ≡ self.now) }
    {
        let batch = self.batch.try_clone()?;
        let account = self.account.try_clone()?;
        Ok(GrantRow {
            batch,
            account,
            pages: self.pages,
        })
    }
}

/// Grants.
pub type GrantList = ListOf<GrantRow>;

/// What a queue knows of the batch and the account of an account file's row.
#[derive(Clone, Copy, Debug, PartialEq, Eq)]
pub struct KnownGrant {
    /// The pages that were granted under this batch to this account.
    pub pages: Option<u32>,
    /// The pages that were granted to the account in all, at most 1,000,000,000.
    pub granted: u32,
    /// The account's free pages, where it is there.
    pub free: Option<i64>,
}

/// What is known of each row of an account file.
pub type KnownList = ListOf<KnownGrant>;

/// An account with its free pages, below zero by pages printed past what was reserved.
#[derive(Debug, Drop)]
pub struct FreeRow {
    pub account: Text,
    pub free: i64,
}

/// Accounts with their free pages.
pub type FreeList = ListOf<FreeRow>;

/// A document that a job gets after those it has.
#[derive(Clone, Copy)]
pub struct NewDocument<'a> {
    pub job: u32,
    pub format: Format,
    pub bytes: &'a [u8],
}

/// What becomes of the rows: the jobs that change or enter, one more document, the free pages of the
/// accounts concerned, new grants, one more report that is kept, and the next job number.
#[derive(Drop)]
pub struct Change<'a> {
    pub jobs: JobList,
    pub document: Option<NewDocument<'a>>,
    /// In order: an account may stand more than once, and its last row counts.
    pub free: FreeList,
    pub grants: GrantList,
    pub report: Option<KeptReport>,
    pub next: Option<u32>,
}

/// What the machine answers, and the change that comes with it. A refusal changes nothing.
#[derive(Drop)]
pub struct Decision<'a> {
    pub reply: Reply,
    pub change: Change<'a>,
}

/// How many jobs there are in states 5, 6, and 3 to 6.
#[derive(Clone, Copy, Debug, PartialEq, Eq)]
pub struct QueueCounts {
    pub running: usize,
    pub stopped: usize,
    pub queued: usize,
}

/// The rows that an event needs: the jobs that it speaks of, the free pages of the account of the caller, or of
/// the job's owner, how many live jobs its caller has, the counts of the queue, the report that is kept under the
/// same sequence number, what is known of the rows of an account file, and the next job number. What an event doesn't
/// need is as in a queue without jobs and accounts.
#[derive(Drop)]
pub struct Scene {
    pub settings: Settings,
    pub jobs: JobList,
    /// The owner's for a report and for Cancel-Job, and the caller's for Cancel-My-Jobs, Hold-Job and Release-Job, by which pages
    /// may be set aside or come back; and else empty.
    pub free: FreeList,
    /// Counted for Print-Job, Validate-Job and Create-Job, and else 0.
    pub live: usize,
    /// Counted for Get-Printer-Attributes, and else all 0.
    pub counts: QueueCounts,
    pub report: Option<KeptReport>,
    /// Row by row.
    pub known: KnownList,
    /// The number of the next new job, 1 to 2,147,483,648, looked up for Print-Job, Validate-Job, Create-Job,
    /// Get-Printer-Attributes and an account file, and else 1.
    pub next: u32,
}
