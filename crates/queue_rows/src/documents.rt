//! The rows of documents against those of jobs.
ghost use Rattle.std.specs.Prelude.{◌≡◌, ◌↔◌, ◌≤◌, All, IsTrue, MatchOption, drop, length};
ghost use Rattle.queue_rows.specs.Documents.{HasSize, next_of, IsGroup, AreGrouped};

use crate::rows::DocumentRow;
use queue_types::job::Job;
use queue_types::limits::{MOST_DOCUMENT_OCTETS, MOST_DOCUMENTS};

/// How many documents of the job stand first. None where they are not numbered 1, 2 and so on, or are
/// more than 16.
fn leading_documents(documents: &[DocumentRow], number: u32) -> Option<u32>
    ensures { MatchOption result (¬ IsGroup number documents.now) (λ n. IsGroup number documents.now × (n ≡ next_of number documents.now)) }
{
    let mut count = 0u32;
    for document in documents {
        if document.job != number {
            return Some(count);
        }
        if count == MOST_DOCUMENTS {
            return None;
        }
        if document.doc != count + 1 {
            return None;
        }
        count += 1;
    }
    Some(count)
}

fn behind(documents: &[DocumentRow], count: u32) -> &[DocumentRow]
    requires { count ≤ length documents.now }
    ensures { result.now ≡ drop count documents.now }
{
    &documents[count as usize..]
}

/// The documents are those of the jobs, each job's after another's, numbered from 1.
pub(crate) fn documents_follow(jobs: &[Job], documents: &[DocumentRow]) -> bool
    ensures { IsTrue result ↔ AreGrouped jobs.now documents.now }
{
    let mut rest = documents;
    for job in jobs {
        let Some(count) = leading_documents(rest, job.number) else {
            return false;
        };
        rest = behind(rest, count);
    }
    rest.is_empty()
}

/// Each document has 1 to 16,777,216 octets.
pub(crate) fn documents_have_sizes(documents: &[DocumentRow]) -> bool
    ensures { IsTrue result ↔ All HasSize documents.now }
{
    documents
        .iter()
        .all(|d| d.octets >= 1 && d.octets <= MOST_DOCUMENT_OCTETS)
}
