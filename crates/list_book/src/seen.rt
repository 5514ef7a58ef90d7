//! What the book in lists shows to the device.
ghost use Rattle.std.specs.Prelude.{◌≡◌, ◌==◌, IfOk, filter, option_map};
ghost use Rattle.std.specs.Option.{option_copied};
ghost use Rattle.queue_types.specs.Job.{state};
ghost use Rattle.queue_core.specs.Shown.{document_at, head_of, may_be_fetched};
ghost use Rattle.list_book.specs.Lists.{nth_of, world_of};

use crate::lists::{KeptDocument, Lists};
use queue_core::numbered_job;
use queue_types::document::{Document, DocumentHead};
use queue_types::job::Job;
use queue_types::states::JobState;
use std::alloc::{AllocError, Global};

/// The jobs in state 3, by number.
pub(crate) fn pending(alloc: Global, jobs: &[Job]) -> Result<Vec<Job>, AllocError>
    ensures { IfOk result (λ v. v.items ≡ filter (λ j. state j == 3) jobs.now) }
{
    let mut pending = Vec::new(alloc);
    for job in jobs {
        if job.state() == JobState::Pending {
            pending.push(job.try_clone()?)?;
        }
    }
    Ok(pending)
}

/// The device may fetch the job's documents.
fn may_be_fetched(job: &Job) -> bool
    ensures { result ≡ may_be_fetched job.now }
{
    matches!(
        job.state(),
        JobState::Pending | JobState::Processing | JobState::ProcessingStopped
    )
}

/// Document n of the job, counted from 1.
fn nth_document(documents: &[KeptDocument], job: u32, n: u32) -> Option<&Document>
    ensures { option_copied result ≡ nth_of job n documents.now }
{
    let before = n.checked_sub(1)?;
    let kept = documents
        .iter()
        .filter(|d| d.job == job)
        .nth(before as usize)?;
    Some(&kept.document)
}

/// Document n, counted from 1, of a job whose documents the device may fetch.
pub(crate) fn document(lists: &Lists, job: u32, n: u32) -> Option<&Document>
    ensures { option_copied result ≡ document_at (world_of lists.now) job n }
{
    let found = numbered_job(lists.jobs.as_slice(), job)?;
    if may_be_fetched(found) {
        nth_document(lists.documents.as_slice(), found.number, n)
    } else {
        None
    }
}

/// The format and the length of such a document.
pub(crate) fn document_head(lists: &Lists, job: u32, n: u32) -> Option<DocumentHead>
    ensures { result ≡ option_map head_of (document_at (world_of lists.now) job n) }
{
    let document = document(lists, job, n)?;
    Some(DocumentHead {
        format: document.format,
        octets: document.bytes.as_slice().len() as u64,
    })
}
