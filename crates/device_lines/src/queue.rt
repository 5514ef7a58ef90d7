//! The device's queue as text.
ghost use Rattle.std.specs.Prelude.{◌≡◌, ◌++◌, IfOk, OnOk, decimal, string_bytes};
ghost use Rattle.device_lines.specs.Queue.{job_line, queue_lines};

use itoa::Buffer;
use queue_types::job::Job;
use std::alloc::{AllocError, Global};

/// The jobs as text: for each a line `JOB COPIES DOCUMENTS OCTETS` with its number, the copies that are
/// wanted, how many documents it has and how many bytes these have. The one error is want of memory.
#[tactic(auto, unfolding(crate::specs::Queue::queue_lines))]
pub fn queue_text(alloc: Global, jobs: &[Job]) -> Result<String, AllocError>
    ensures { IfOk result (λ text. string_bytes text ≡ queue_lines jobs.now) }
{
    let mut text = String::new(alloc);
    for job in jobs {
        push_job(&mut text, job)?;
    }
    Ok(text)
}

fn push_job(text: &mut String, job: &Job) -> Result<(), AllocError>
    ensures { OnOk result (string_bytes text.new ≡ string_bytes text.old ++ job_line job.now) }
{
    push_number(text, job.number.into(), " ")?;
    push_number(text, job.copies.into(), " ")?;
    push_number(text, job.documents.into(), " ")?;
    push_number(text, job.octets, "\n")
}

/// Adds a number in decimal, and what stands after it.
fn push_number(text: &mut String, n: u64, end: &str) -> Result<(), AllocError>
    ensures { OnOk result (string_bytes text.new ≡ string_bytes text.old ++ decimal n ++ end.now) }
{
    text.push_str(Buffer::new().format(n))?;
    text.push_str(end)
}
