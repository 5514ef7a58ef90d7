//! What a request asks: the first check that refuses it, or else its call.
ghost use Rattle.std.specs.Prelude.{◌≡◌, ◌≤◌, IfOk, length, map, unwrap_or};
ghost use Rattle.ipp_wire.specs.Message.{IsMessage};
ghost use Rattle.ipp_wire.specs.Viewed.{message_of, values_of};
ghost use Rattle.queue_types.specs.Event.{call_of};
ghost use Rattle.ipp_reply.specs.Unsupported.{nothing, unsupported_of};
ghost use Rattle.ipp_reply.specs.Wanted.{rows_of, words_of};
ghost use Rattle.ipp_request.specs.Request.{caller, request_of};
ghost use Rattle.ipp_request.specs.Unsupported.{unsupported};
ghost use Rattle.ipp_request.specs.Values.{number_of};
ghost use Rattle.ipp_ops.specs.Verdict.{call, job, job_ids, passed, refused, rows, rows_by, usual, verdict, ask_content, listed_verdict, checked_verdict, which_jobs, IsWithinLimits, ListsAttributes};
ghost use Rattle.ipp_ops.specs.Checks.{refusal};
ghost use Rattle.ipp_request.specs.Unsupported.{is_refused_for};

use crate::check::first_refusal;
use crate::new_job::{format, new_job};
use crate::verdict::Ask;
use ipp_reply::{
    JOB_TABLE, JobAttribute, Operation, PRINTER_TABLE, Unsupported, Wanted, select_of_job,
    select_of_printer,
};
use ipp_request::Request;
use ipp_request::attribute::OperationAttribute;
use ipp_request::target::target_job;
use ipp_request::unsupported::{is_refused_for, unsupported_in};
use ipp_request::value::number;
use ipp_wire::{ValueView, View};
use queue_types::event::{Call, NumberList, WhichJobs};
use queue_types::status::CLIENT_ERROR_ATTRIBUTES_OR_VALUES_NOT_SUPPORTED;
use std::alloc::{AllocError, Global};

/// Those that are not completed, where the request doesn't say which.
fn which_jobs(request: Request<'_, '_>) -> WhichJobs
    ensures { result ≡ which_jobs (request_of request.entry) }
{
    if request.bytes_of(OperationAttribute::WhichJobs) == "completed".as_bytes() {
        WhichJobs::Completed
    } else {
        WhichJobs::NotCompleted
    }
}

/// The numbers of an attribute's values. Where the checks pass, each is a number; 0 stands for one that is none, and
/// `calls_name_jobs` says that no call has it.
fn numbers(alloc: Global, values: &[ValueView<'_>]) -> Result<Vec<u32>, AllocError>
    ensures { IfOk result (λ n. n.items ≡ map (λ v. unwrap_or (number_of v.bytes) 0) (values_of values.now)) }
{
    let mut numbers = Vec::with_capacity(alloc, values.len())?;
    for value in values {
        numbers.push_reserved(number(value.bytes).unwrap_or(0));
    }
    Ok(numbers)
}

/// None, where the request has no job-ids.
fn job_ids(alloc: Global, request: Request<'_, '_>) -> Result<Option<NumberList>, AllocError>
    ensures { IfOk result (λ n. n ≡ job_ids (request_of request.entry)) }
{
    match request.known(OperationAttribute::JobIds) {
        Some(a) => {
            let ids = numbers(alloc, a.values.as_slice())?;
            Ok(Some(NumberList::from_items(ids)))
        }
        None => Ok(None),
    }
}

/// The number of the job that a request is about. Where the checks pass, there is one; 0 stands for none, and
/// `calls_name_jobs` says that no call has it.
fn job(request: Request<'_, '_>) -> u32
    ensures { result ≡ job (request_of request.entry) }
{
    target_job(request).unwrap_or(0)
}

/// The call that the operation makes of a request.
fn call<'a>(alloc: Global, request: Request<'_, 'a>) -> Result<Call<'a>, AllocError>
    ensures { IfOk result (λ c. call_of c ≡ call (request_of request.entry)) }
{
    Ok(match request.operation {
        Operation::PrintJob => Call::PrintJob {
            job: new_job(request),
            format: format(request),
            payload: request.payload,
        },
        Operation::ValidateJob => Call::ValidateJob {
            job: new_job(request),
        },
        Operation::CreateJob => Call::CreateJob {
            job: new_job(request),
        },
        Operation::SendDocument => Call::SendDocument {
            job: job(request),
            format: format(request),
            payload: request.payload,
            last: request.is_true(OperationAttribute::LastDocument),
        },
        Operation::GetJobs => Call::GetJobs {
            which: which_jobs(request),
            limit: number(request.bytes_of(OperationAttribute::Limit)),
            mine: request.is_true(OperationAttribute::MyJobs),
        },
        Operation::GetPrinterAttributes => Call::GetPrinterAttributes,
        Operation::CancelJob => Call::CancelJob { job: job(request) },
        Operation::GetJobAttributes => Call::GetJobAttributes { job: job(request) },
        Operation::HoldJob => Call::HoldJob { job: job(request) },
        Operation::ReleaseJob => Call::ReleaseJob { job: job(request) },
        Operation::CancelMyJobs => Call::CancelMyJobs {
            jobs: job_ids(alloc, request)?,
        },
    })
}

/// The rows that stand for an absent requested-attributes.
fn usual(alloc: Global, operation: Operation) -> Result<Wanted, AllocError>
    ensures { IfOk result (λ w. rows_of w ≡ usual operation) }
{
    match operation {
        Operation::PrintJob | Operation::CreateJob | Operation::SendDocument => Wanted::of_job(
            alloc,
            &[
                JobAttribute::JobUri,
                JobAttribute::JobId,
                JobAttribute::JobState,
                JobAttribute::JobStateReasons,
            ],
        ),
        Operation::ValidateJob
        | Operation::CancelJob
        | Operation::HoldJob
        | Operation::ReleaseJob
        | Operation::CancelMyJobs => Ok(Wanted::nothing(alloc)),
        Operation::GetJobAttributes => Wanted::of_job(alloc, &JOB_TABLE),
        Operation::GetJobs => {
            Wanted::of_job(alloc, &[JobAttribute::JobUri, JobAttribute::JobId])
        }
        Operation::GetPrinterAttributes => Wanted::of_printer(alloc, &PRINTER_TABLE),
    }
}

/// The rows that the names in these values select, of the table of which the operation shows something.
fn selected(
    alloc: Global,
    operation: Operation,
    values: &[ValueView<'_>],
) -> Result<Wanted, AllocError>
    ensures { IfOk result (λ w. rows_of w ≡ rows_by operation (words_of (values_of values.now))) }
{
    match operation {
        Operation::GetPrinterAttributes => select_of_printer(alloc, values),
        _ => select_of_job(alloc, values),
    }
}

/// The rows that the reply is to have: those that requested-attributes selects, or else the usual ones.
fn rows(alloc: Global, request: Request<'_, '_>) -> Result<Wanted, AllocError>
    ensures { IfOk result (λ w. rows_of w ≡ rows (request_of request.entry)) }
{
    match request.known(OperationAttribute::RequestedAttributes) {
        Some(a) => selected(alloc, request.operation, a.values.as_slice()),
        None => usual(alloc, request.operation),
    }
}

/// A refusal that tells nothing of what is unsupported.
fn refused<'a>(alloc: Global, code: u16) -> Ask<'a>
    ensures { ask_content result ≡ refused code nothing }
{
    Ask::Refused {
        code,
        unsupported: Unsupported::nothing(alloc),
    }
}

/// What a request asks that no check refuses.
fn passed<'a>(
    alloc: Global,
    request: Request<'_, 'a>,
    unsupported: Unsupported<'a>,
) -> Result<Ask<'a>, AllocError>
    ensures { let r = request_of request.entry in IfOk result (λ a. ask_content a ≡ passed (caller r) (call r) (rows r) (unsupported_of unsupported.entry)) }
{
    let wanted = rows(alloc, request)?;
    Ok(Ask::Call {
        caller: request.caller(),
        call: call(alloc, request)?,
        wanted,
        unsupported,
    })
}

/// What a request asks that no check of the table refuses: it is refused by 0x040B, client-error-attributes-or-values-not-supported,
/// where an attribute that its operation knows has values that are not supported, or where something of its job group is unsupported and
/// its ipp-attribute-fidelity is true; else it asks its call. What is unsupported is told in both cases.
fn listed_verdict<'a>(alloc: Global, request: Request<'_, 'a>) -> Result<Ask<'a>, AllocError>
    ensures { let r = request_of request.entry in IfOk result (λ a. ask_content a ≡ listed_verdict r (unsupported r) (is_refused_for r (unsupported r))) }
{
    let unsupported = unsupported_in(alloc, request)?;
    if is_refused_for(request, &unsupported) {
        return Ok(Ask::Refused {
            code: CLIENT_ERROR_ATTRIBUTES_OR_VALUES_NOT_SUPPORTED,
            unsupported,
        });
    }
    passed(alloc, request, unsupported)
}

/// What a request asks whose head is taken and whose first group begins as it has to: it is refused by the code of the first check of the table that applies, and
/// nothing is told of what is unsupported; where none applies, what is unsupported may still refuse it.
fn checked_verdict<'a>(alloc: Global, request: Request<'_, 'a>) -> Result<Ask<'a>, AllocError>
    ensures { let r = request_of request.entry in IfOk result (λ a. ask_content a ≡ checked_verdict r (refusal r)) }
{
    match first_refusal(request) {
        Some(check) => Ok(refused(alloc, check.code())),
        None => listed_verdict(alloc, request),
    }
}

/// What a request asks: the code of the first check that refuses it, or else its call (RFC 8011,
/// section 4.1), with what is unsupported. A call with a payload of at most 16,777,216 bytes is an event
/// within the machine's limits. The one error is want of memory.
pub fn ask<'a>(alloc: Global, view: &View<'a>) -> Result<Ask<'a>, AllocError>
    ensures verdict { IfOk result (λ a. ask_content a ≡ verdict (message_of view.now)) }
    ensures limits { length view.now.payload.now ≤ 16777216 → IfOk result (λ a. IsWithinLimits (ask_content a)) }
    // so that it may stand in a reply
    ensures listed { IsMessage (message_of view.now) → IfOk result (λ a. ListsAttributes (ask_content a)) }
{
    match Request::read(view) {
        Ok(r) => checked_verdict(alloc, r),
        Err(code) => Ok(refused(alloc, code)),
    }
}
