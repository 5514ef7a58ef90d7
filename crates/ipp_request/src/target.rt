//! What a request is about: this printer, or a job of it.
ghost use Rattle.std.specs.Prelude.{◌≡◌};
ghost use Rattle.std.specs.Char.{is_ascii_digit};
ghost use Rattle.std.specs.List.{list_all};
ghost use Rattle.ipp_wire.specs.Viewed.{values_of};
ghost use Rattle.ipp_request.specs.Request as spec;
ghost use Rattle.ipp_request.specs.Request.{request_of};

use crate::attribute::OperationAttribute;
use crate::request::Request;
use crate::value::{is_positive_number, job_of_id, number};
use ipp_wire::ValueView;
use queue_types::text::utf8_text;
use queue_types::uri::{PRINTER_PATH, path};

fn is_printer(uri: &[u8]) -> bool
    ensures { result ≡ spec.is_printer uri.now }
{
    path(uri) == PRINTER_PATH.as_bytes()
}

fn are_digits(text: &[u8]) -> bool
    ensures { result ≡ list_all is_ascii_digit text.now }
{
    text.iter().all(|b| b.is_ascii_digit())
}

/// The number of a job in decimal: digits, the first not zero.
fn number_in(bytes: &[u8]) -> Option<u32>
    ensures { result ≡ spec.number_in bytes.now }
{
    if !are_digits(bytes) || bytes.starts_with(b"0") {
        return None;
    }
    let text = utf8_text(bytes)?;
    match text.parse::<u32>() {
        Ok(n) => job_of_id(n),
        Err(_) => None,
    }
}

fn job_in(path: &[u8]) -> Option<u32>
    ensures { result ≡ spec.job_in path.now }
{
    let behind = path.strip_prefix(PRINTER_PATH.as_bytes())?;
    number_in(behind.strip_prefix(b"/")?)
}

/// The number of the job that a request is about: by job-uri where it is there, else by printer-uri and
/// job-id.
pub fn target_job(request: Request<'_, '_>) -> Option<u32>
    ensures { result ≡ spec.target_job (request_of request.entry) }
{
    if request.has(OperationAttribute::JobUri) {
        return job_in(path(request.bytes_of(OperationAttribute::JobUri)));
    }
    if is_printer(request.bytes_of(OperationAttribute::PrinterUri)) {
        number(request.bytes_of(OperationAttribute::JobId)).and_then(job_of_id)
    } else {
        None
    }
}

fn job_numbers_in(values: &[ValueView<'_>]) -> bool
    ensures { result ≡ list_all spec.is_job_number (values_of values.now) }
{
    values.iter().all(|v| is_positive_number(v.bytes))
}

/// What the request has of job-ids are numbers that jobs may have.
fn are_job_numbers(request: Request<'_, '_>) -> bool
    ensures { result ≡ spec.are_job_numbers (request_of request.entry) }
{
    request
        .known(OperationAttribute::JobIds)
        .is_none_or(|a| job_numbers_in(a.values.as_slice()))
}

/// This printer, or a job of it, is what the request is about.
pub fn is_target(request: Request<'_, '_>) -> bool
    ensures { result ≡ spec.is_target (request_of request.entry) }
{
    if request.is_on_job() {
        target_job(request).is_some()
    } else {
        is_printer(request.bytes_of(OperationAttribute::PrinterUri)) && are_job_numbers(request)
    }
}
