//! The job attributes of a reply, as a table in order (RFC 8011, section 5.3).
ghost use Rattle.std.specs.Prelude.{◌≡◌, ◌++◌, ◌∷◌, [], ◌≤◌, ◌^◌, ◌+◌, ◌/◌, IfOk, OnOk, All, length, map};
ghost use Rattle.ipp_wire.specs.Viewed.{values_of};
ghost use Rattle.queue_core.specs.Limits.{IsSoundJob};
ghost use Rattle.ipp_reply.specs.Content.{values_in};
ghost use Rattle.ipp_reply.specs.JobReply as spec;
ghost use Rattle.ipp_reply.specs.Wanted.{of_job, rows_of, words_of};

use crate::content::{Content, ENGLISH, UTF_8, put};
use crate::selection::{Selectable, selected_rows};
use crate::wanted::Wanted;
use ipp_wire::tags::{
    CHARSET, JOB_ATTRIBUTES, KEYWORD, NAME_WITHOUT_LANGUAGE, NATURAL_LANGUAGE, URI,
};
use ipp_wire::{Message, ValueView, plain_attribute};
use queue_types::job::Job;
use std::alloc::{AllocError, Global};

/// A job attribute of a reply.
#[derive(Clone, Copy, Debug)]
pub enum JobAttribute {
    JobUri,
    JobId,
    JobPrinterUri,
    JobName,
    JobOriginatingUserName,
    JobState,
    JobStateReasons,
    TimeAtCreation,
    TimeAtProcessing,
    TimeAtCompleted,
    JobPrinterUpTime,
    AttributesCharset,
    AttributesNaturalLanguage,
    JobKOctets,
    JobImpressions,
    JobImpressionsCompleted,
    NumberOfDocuments,
    Copies,
    JobHoldUntil,
}

/// The rows of the table of job attributes, in order.
pub const JOB_TABLE: [JobAttribute; 19] = [
    JobAttribute::JobUri,
    JobAttribute::JobId,
    JobAttribute::JobPrinterUri,
    JobAttribute::JobName,
    JobAttribute::JobOriginatingUserName,
    JobAttribute::JobState,
    JobAttribute::JobStateReasons,
    JobAttribute::TimeAtCreation,
    JobAttribute::TimeAtProcessing,
    JobAttribute::TimeAtCompleted,
    JobAttribute::JobPrinterUpTime,
    JobAttribute::AttributesCharset,
    JobAttribute::AttributesNaturalLanguage,
    JobAttribute::JobKOctets,
    JobAttribute::JobImpressions,
    JobAttribute::JobImpressionsCompleted,
    JobAttribute::NumberOfDocuments,
    JobAttribute::Copies,
    JobAttribute::JobHoldUntil,
];

/// What is shown of each job, and with what.
#[derive(Clone, Copy)]
pub(crate) struct JobView<'a> {
    /// The printer's URI, at most 255 octets.
    pub uri: &'a str,
    /// The moment of the reply.
    pub now: u32,
    /// The attributes of each group, in order.
    pub rows: &'a [JobAttribute],
}

impl JobAttribute {
    /// The attribute's name.
    pub fn name(self) -> &'static str
        ensures { result.now ≡ spec.name_of self }
    {
        match self {
            JobAttribute::JobUri => "job-uri",
            JobAttribute::JobId => "job-id",
            JobAttribute::JobPrinterUri => "job-printer-uri",
            JobAttribute::JobName => "job-name",
            JobAttribute::JobOriginatingUserName => "job-originating-user-name",
            JobAttribute::JobState => "job-state",
            JobAttribute::JobStateReasons => "job-state-reasons",
            JobAttribute::TimeAtCreation => "time-at-creation",
            JobAttribute::TimeAtProcessing => "time-at-processing",
            JobAttribute::TimeAtCompleted => "time-at-completed",
            JobAttribute::JobPrinterUpTime => "job-printer-up-time",
            JobAttribute::AttributesCharset => "attributes-charset",
            JobAttribute::AttributesNaturalLanguage => "attributes-natural-language",
            JobAttribute::JobKOctets => "job-k-octets",
            JobAttribute::JobImpressions => "job-impressions",
            JobAttribute::JobImpressionsCompleted => "job-impressions-completed",
            JobAttribute::NumberOfDocuments => "number-of-documents",
            JobAttribute::Copies => "copies",
            JobAttribute::JobHoldUntil => "job-hold-until",
        }
    }

    /// The group name by which a request asks for the attribute among others.
    fn family(self) -> &'static str
        ensures { result.now ≡ spec.family_of self }
    {
        match self {
            JobAttribute::Copies | JobAttribute::JobHoldUntil => "job-template",
            _ => "job-description",
        }
    }

    /// What the row says of a job.
    fn content<'a>(
        self,
        alloc: Global,
        uri: &'a str,
        now: u32,
        job: &'a Job,
    ) -> Result<Content<'a>, AllocError>
        requires { job.now.octets ≤ 2 ^ 28 }
        ensures { IfOk result (λ c. values_in c ≡ spec.values_of uri.now now job.now self) }
    {
        Ok(match self {
            JobAttribute::JobUri => Content::Made(
                URI,
                format!(in alloc; "{}/{}", uri, job.number)?,
            ),
            JobAttribute::JobId => Content::Integer(job.number),
            JobAttribute::JobPrinterUri => Content::Text(URI, uri),
            JobAttribute::JobName => Content::Text(NAME_WITHOUT_LANGUAGE, job.name.as_str()),
            JobAttribute::JobOriginatingUserName => Content::Text(
                NAME_WITHOUT_LANGUAGE,
                job.owner.as_str(),
            ),
            JobAttribute::JobState => Content::Enum(u32::from(job.state().number())),
            JobAttribute::JobStateReasons => Content::Reasons(job.reasons()),
            JobAttribute::TimeAtCreation => Content::Integer(job.created),
            JobAttribute::TimeAtProcessing => Content::Moment(job.begun),
            JobAttribute::TimeAtCompleted => Content::Moment(job.ended),
            JobAttribute::JobPrinterUpTime => Content::Integer(now),
            JobAttribute::AttributesCharset => Content::Text(CHARSET, UTF_8),
            JobAttribute::AttributesNaturalLanguage => Content::Text(NATURAL_LANGUAGE, ENGLISH),
            JobAttribute::JobKOctets => Content::Integer(kilo_octets(job.octets)),
            JobAttribute::JobImpressions => Content::Integer(job.impressions),
            JobAttribute::JobImpressionsCompleted => Content::Integer(job.count),
            JobAttribute::NumberOfDocuments => Content::Integer(job.documents),
            JobAttribute::Copies => Content::Integer(job.copies),
            JobAttribute::JobHoldUntil => Content::Text(
                KEYWORD,
                if job.hold { "indefinite" } else { "no-hold" },
            ),
        })
    }
}

/// The octets of a unit of job-k-octets (RFC 8011, section 5.3.17.1).
const OCTETS_PER_K: u64 = 1024;

/// Octets in units of 1,024, rounded up.
fn kilo_octets(octets: u64) -> u32
    requires { octets ≤ 2 ^ 28 }
    ensures { result ≡ (octets + 1023) / 1024 }
{
    ((octets + (OCTETS_PER_K - 1)) / OCTETS_PER_K) as u32
}

/// Adds the group of a job.
fn put_job(
    alloc: Global,
    message: &mut Message,
    view: JobView<'_>,
    job: &Job,
) -> Result<(), AllocError>
    requires uri { length view.uri.now ≤ 255 }
    requires job { IsSoundJob job.now }
    ensures { OnOk result (message.new ≡ record message.old { groups = message.old.groups ++ spec.job_group view.entry.uri.now view.entry.now view.entry.rows.now job.now ∷ [] }) }
{
    plain_attribute();
    message.group(JOB_ATTRIBUTES)?;
    'rows: for row in view.rows {
        let content = row.content(alloc, view.uri, view.now, job)?;
        put(alloc, message, row.name(), &content)?;
    }
    Ok(())
}

/// Adds a group for each job.
pub(crate) fn put_jobs(
    alloc: Global,
    message: &mut Message,
    view: JobView<'_>,
    jobs: &[Job],
) -> Result<(), AllocError>
    requires uri { length view.uri.now ≤ 255 }
    requires jobs { All IsSoundJob jobs.now }
    ensures { OnOk result (message.new ≡ record message.old { groups = message.old.groups ++ map (spec.job_group view.entry.uri.now view.entry.now view.entry.rows.now) jobs.now }) }
{
    for job in jobs {
        put_job(alloc, message, view, job)?;
    }
    Ok(())
}

impl Selectable for JobAttribute {
    ghost selects = { spec.selects };

    fn is_selected(self, word: &[u8]) -> bool {
        word == self.name().as_bytes()
            || word == "all".as_bytes()
            || word == self.family().as_bytes()
    }
}

/// The rows of a job that the names in these values select: a name of a row, its group or `all`
/// (RFC 8011, section 4.3.4). The one error is want of memory.
pub fn select_of_job(alloc: Global, values: &[ValueView<'_>]) -> Result<Wanted, AllocError>
    ensures { IfOk result (λ w. rows_of w ≡ of_job (spec.selected (words_of (values_of values.now)))) }
{
    let rows = selected_rows(alloc, &JOB_TABLE, values)?;
    Ok(Wanted::Job(rows))
}
