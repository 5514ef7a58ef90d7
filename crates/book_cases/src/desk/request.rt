//! Requests by their bytes, as a client sends them.

use std::alloc::{AllocError, Global};

/// What a caller asks.
#[derive(Clone, Copy)]
pub(crate) enum Request<'a> {
    /// Print-Job with the document `hi`.
    Print,
    /// Print-Job with this document.
    PrintThis(&'a [u8]),
    /// Print-Job of so many impressions and copies.
    PrintSized {
        impressions: u32,
        copies: u32,
    },
    /// Create-Job.
    Create,
    /// Send-Document to the job of that number.
    Send {
        job: u32,
        document: &'a [u8],
        last: bool,
    },
    /// Release-Job.
    Release(u32),
    /// Hold-Job.
    Hold(u32),
    /// Cancel-Job.
    Cancel(u32),
    /// Cancel-My-Jobs of all of them, or of one.
    CancelMine(Option<u32>),
    /// Get-Job-Attributes of the state and its reasons.
    Look(u32),
    /// Get-Job-Attributes of all of them.
    LookAtAll(u32),
    /// Get-Jobs of the numbers.
    Jobs(JobsWanted),
    /// Get-Printer-Attributes of all of them.
    Printer,
}

/// The jobs that Get-Jobs lists.
#[derive(Clone, Copy)]
pub(crate) enum JobsWanted {
    /// Those that did not end.
    Live,
    /// The first so many of those that did not end.
    FirstLive(u32),
    /// Those that ended.
    Ended,
    /// The first so many of those that ended.
    FirstEnded(u32),
    /// The caller's own that did not end: `my-jobs` is true.
    OwnLive,
    /// The first so many of the caller's own that ended.
    FirstOwnEnded(u32),
}

impl JobsWanted {
    /// The value of `which-jobs`.
    fn which(self) -> &'static str {
        match self {
            JobsWanted::Live | JobsWanted::FirstLive(_) | JobsWanted::OwnLive => "not-completed",
            JobsWanted::Ended | JobsWanted::FirstEnded(_) | JobsWanted::FirstOwnEnded(_) => {
                "completed"
            }
        }
    }

    /// The value of `limit`.
    fn limit(self) -> Option<u32> {
        match self {
            JobsWanted::Live | JobsWanted::Ended | JobsWanted::OwnLive => None,
            JobsWanted::FirstLive(count)
            | JobsWanted::FirstEnded(count)
            | JobsWanted::FirstOwnEnded(count) => Some(count),
        }
    }

    /// The caller asks for its own jobs alone.
    fn is_own(self) -> bool {
        matches!(self, JobsWanted::OwnLive | JobsWanted::FirstOwnEnded(_))
    }
}

impl<'a> Request<'a> {
    /// The operation's number.
    fn operation(self) -> u8 {
        match self {
            Request::Print | Request::PrintThis(_) | Request::PrintSized { .. } => 0x02,
            Request::Create => 0x05,
            Request::Send { .. } => 0x06,
            Request::Cancel(_) => 0x08,
            Request::Look(_) | Request::LookAtAll(_) => 0x09,
            Request::Jobs(_) => 0x0a,
            Request::Printer => 0x0b,
            Request::Hold(_) => 0x0c,
            Request::Release(_) => 0x0d,
            Request::CancelMine(_) => 0x39,
        }
    }

    /// The job that it is about.
    fn job(self) -> Option<u32> {
        match self {
            Request::Print
            | Request::PrintThis(_)
            | Request::PrintSized { .. }
            | Request::Create
            | Request::CancelMine(_)
            | Request::Jobs(_)
            | Request::Printer => None,
            Request::Send { job, .. }
            | Request::Release(job)
            | Request::Hold(job)
            | Request::Cancel(job)
            | Request::Look(job)
            | Request::LookAtAll(job) => Some(job),
        }
    }

    fn payload(self) -> &'a [u8] {
        match self {
            Request::Print | Request::PrintSized { .. } => b"hi",
            Request::PrintThis(document) | Request::Send { document, .. } => document,
            _ => b"",
        }
    }
}

/// Adds a part behind its length.
fn put_part(bytes: &mut Vec<u8>, part: &[u8]) -> Result<(), AllocError> {
    let [.., high, low] = part.len().to_be_bytes();
    bytes.extend_from_slice(&[high, low])?;
    bytes.extend_from_slice(part)
}

/// Adds an attribute's value: its tag, its name and its bytes.
fn put(bytes: &mut Vec<u8>, tag: u8, name: &str, value: &[u8]) -> Result<(), AllocError> {
    bytes.extend_from_slice(&[tag])?;
    put_part(bytes, name.as_bytes())?;
    put_part(bytes, value)
}

/// Adds what every message begins with behind its head.
fn put_language(bytes: &mut Vec<u8>) -> Result<(), AllocError> {
    bytes.extend_from_slice(b"\x01")?;
    put(bytes, 0x47, "attributes-charset", b"utf-8")?;
    put(bytes, 0x48, "attributes-natural-language", b"en")
}

/// Adds what the request is about.
fn put_target(bytes: &mut Vec<u8>, caller: &str, job: Option<u32>) -> Result<(), AllocError> {
    put(bytes, 0x45, "printer-uri", b"ipp://localhost/ipp/print")?;
    if let Some(number) = job {
        put(bytes, 0x21, "job-id", &number.to_be_bytes())?;
    }
    put(bytes, 0x42, "requesting-user-name", caller.as_bytes())
}

/// Adds the attributes that only this request has.
fn put_own(bytes: &mut Vec<u8>, request: Request<'_>) -> Result<(), AllocError> {
    match request {
        Request::PrintSized {
            impressions,
            copies,
        } => put_size(bytes, impressions, copies),
        Request::Send { last, .. } => put(bytes, 0x22, "last-document", &[u8::from(last)]),
        Request::CancelMine(Some(job)) => put(bytes, 0x21, "job-ids", &job.to_be_bytes()),
        Request::Look(_) => {
            put(bytes, 0x44, "requested-attributes", b"job-state")?;
            put(bytes, 0x44, "", b"job-state-reasons")
        }
        Request::Jobs(wanted) => put_wanted(bytes, wanted),
        _ => Ok(()),
    }
}

/// Adds the impressions, and a job group with the copies.
fn put_size(bytes: &mut Vec<u8>, impressions: u32, copies: u32) -> Result<(), AllocError> {
    put(bytes, 0x21, "job-impressions", &impressions.to_be_bytes())?;
    bytes.extend_from_slice(b"\x02")?;
    put(bytes, 0x21, "copies", &copies.to_be_bytes())
}

/// Adds the jobs that are wanted, by their numbers.
fn put_wanted(bytes: &mut Vec<u8>, wanted: JobsWanted) -> Result<(), AllocError> {
    put(bytes, 0x44, "requested-attributes", b"job-id")?;
    put(bytes, 0x44, "which-jobs", wanted.which().as_bytes())?;
    put_own_jobs(bytes, wanted.is_own())?;
    match wanted.limit() {
        Some(count) => put(bytes, 0x21, "limit", &count.to_be_bytes()),
        None => Ok(()),
    }
}

/// Adds that the caller's own jobs alone are wanted, if they are.
fn put_own_jobs(bytes: &mut Vec<u8>, is_own: bool) -> Result<(), AllocError> {
    if is_own {
        put(bytes, 0x22, "my-jobs", b"\x01")
    } else {
        Ok(())
    }
}

/// The bytes of a caller's request.
pub(super) fn message(
    alloc: Global,
    caller: &str,
    request: Request<'_>,
) -> Result<Vec<u8>, AllocError> {
    let operation = request.operation();
    let mut bytes = Vec::from_slice(alloc, &[1, 1, 0, operation, 10, 11, 12, 13])?;
    put_message(&mut bytes, caller, request)?;
    Ok(bytes)
}

fn put_message(bytes: &mut Vec<u8>, caller: &str, request: Request<'_>) -> Result<(), AllocError> {
    put_language(bytes)?;
    put_target(bytes, caller, request.job())?;
    put_own(bytes, request)?;
    bytes.extend_from_slice(b"\x03")?;
    bytes.extend_from_slice(request.payload())
}

/// The bytes of the reply to [`Request::Look`].
pub(super) fn state_reply(
    alloc: Global,
    state: u8,
    reasons: &[&str],
) -> Result<Vec<u8>, AllocError> {
    let mut bytes = Vec::from_slice(alloc, b"\x01\x01\x00\x00\x0a\x0b\x0c\x0d")?;
    put_state(&mut bytes, state, reasons)?;
    Ok(bytes)
}

fn put_state(bytes: &mut Vec<u8>, state: u8, reasons: &[&str]) -> Result<(), AllocError> {
    put_language(bytes)?;
    bytes.extend_from_slice(b"\x02")?;
    put(bytes, 0x23, "job-state", &[0, 0, 0, state])?;
    let mut name = "job-state-reasons";
    for reason in reasons {
        put(bytes, 0x44, name, reason.as_bytes())?;
        name = "";
    }
    bytes.extend_from_slice(b"\x03")
}

/// The bytes of the reply that tells a fault, `server-error-temporary-error`.
pub(super) fn fault_reply(alloc: Global) -> Result<Vec<u8>, AllocError> {
    let mut bytes = Vec::from_slice(alloc, b"\x01\x01\x05\x05\x0a\x0b\x0c\x0d")?;
    put_language(&mut bytes)?;
    bytes.extend_from_slice(b"\x03")?;
    Ok(bytes)
}

/// The bytes of the reply to [`Request::Jobs`].
pub(super) fn jobs_reply(alloc: Global, numbers: &[u32]) -> Result<Vec<u8>, AllocError> {
    let mut bytes = Vec::from_slice(alloc, b"\x01\x01\x00\x00\x0a\x0b\x0c\x0d")?;
    put_jobs(&mut bytes, numbers)?;
    Ok(bytes)
}

fn put_jobs(bytes: &mut Vec<u8>, numbers: &[u32]) -> Result<(), AllocError> {
    put_language(bytes)?;
    for number in numbers {
        bytes.extend_from_slice(b"\x02")?;
        put(bytes, 0x21, "job-id", &number.to_be_bytes())?;
    }
    bytes.extend_from_slice(b"\x03")
}
