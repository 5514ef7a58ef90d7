//! Names within their limits, and the bytes that they may have.
ghost use Rattle.std.specs.Prelude.{◌≡◌, ◌↔◌, IsTrue, nat_le};
ghost use Rattle.std.specs.List.{list_all};
ghost use Rattle.queue_core.specs.Limits as limits;

use queue_types::limits::{MOST_BATCH_OCTETS, MOST_NAME_OCTETS};

/// No byte is zero, as in the names of jobs.
pub fn has_no_zero(text: &[u8]) -> bool
    ensures { result ≡ list_all (λ b. nat_le 1 b) text.now }
{
    text.iter().all(|b| *b >= 1)
}

fn is_batch_byte(b: u8) -> bool
    ensures { result ≡ limits.is_batch_byte b }
{
    b.is_ascii_alphanumeric() || b == b'-' || b == b'.' || b == b'_'
}

/// Each byte is an ASCII letter or digit, `-`, `.` or `_`, as in the names of batches.
pub fn are_batch_bytes(text: &[u8]) -> bool
    ensures { result ≡ list_all limits.is_batch_byte text.now }
{
    text.iter().all(|b| is_batch_byte(*b))
}

/// The name of a job: 1 to 255 octets without a zero byte.
pub fn is_job_name(text: &str) -> bool
    ensures { IsTrue result ↔ limits.IsJobName text.now }
{
    !text.is_empty() && text.len() <= MOST_NAME_OCTETS && has_no_zero(text.as_bytes())
}

/// The name of a batch: 1 to 40 ASCII letters or digits, `-`, `.` or `_`.
pub fn is_batch(text: &str) -> bool
    ensures { IsTrue result ↔ limits.IsBatch text.now }
{
    !text.is_empty() && text.len() <= MOST_BATCH_OCTETS && are_batch_bytes(text.as_bytes())
}
