//! What a request asks of a new job (RFC 8011, sections 4.2.1 and 5.2).
ghost use Rattle.std.specs.Prelude.{◌≡◌};
ghost use Rattle.std.specs.Option.{option_copied, option_map};
ghost use Rattle.ipp_wire.specs.Viewed.{attribute_of};
ghost use Rattle.queue_types.specs.Event.{new_job_of};
ghost use Rattle.ipp_request.specs.Attributes.{support_of};
ghost use Rattle.ipp_ops.specs.NewJob as spec;
ghost use Rattle.ipp_request.specs.Request.{request_of};

use ipp_request::attribute::{JobGroupAttribute, OperationAttribute, Support};
use ipp_request::format::format_of;
use ipp_request::value::{are_supported, first_value, number};
use ipp_request::{Request, named};
use ipp_wire::AttrView;
use queue_types::document::Format;
use queue_types::event::NewJob;

/// The number of an attribute, where it is there and supported.
fn supported_number(support: Support, attribute: Option<&AttrView<'_>>) -> Option<u32>
    ensures { result ≡ spec.supported_number (support_of support) (option_map attribute_of (option_copied attribute.entry)) }
{
    let values = attribute?.values.as_slice();
    if are_supported(support, values) {
        number(first_value(values)?.bytes)
    } else {
        None
    }
}

fn job_group_number(request: Request<'_, '_>, attribute: JobGroupAttribute) -> Option<u32>
    ensures { result ≡ spec.job_group_number (request_of request.entry) attribute }
{
    supported_number(
        attribute.support(),
        named(attribute.name().as_bytes(), request.job_attributes),
    )
}

fn impressions(request: Request<'_, '_>) -> Option<u32>
    ensures { result ≡ spec.impressions (request_of request.entry) }
{
    match request.known(OperationAttribute::JobImpressions) {
        Some(a) => {
            let support = OperationAttribute::JobImpressions.row().support;
            supported_number(support, Some(a))
        }
        None => job_group_number(request, JobGroupAttribute::JobImpressions),
    }
}

fn job_name<'a>(request: Request<'_, 'a>) -> &'a str
    ensures { result.now ≡ spec.job_name (request_of request.entry) }
{
    match request.text_in(OperationAttribute::JobName) {
        Some(name) => name,
        None => request
            .text_in(OperationAttribute::DocumentName)
            .unwrap_or("untitled"),
    }
}

/// What the request asks of a new job.
pub(crate) fn new_job<'a>(request: Request<'_, 'a>) -> NewJob<'a>
    ensures { new_job_of result ≡ spec.new_job (request_of request.entry) }
{
    NewJob {
        name: job_name(request),
        copies: job_group_number(request, JobGroupAttribute::Copies).unwrap_or(1),
        impressions: impressions(request),
    }
}

/// The format of the request's document.
pub(crate) fn format(request: Request<'_, '_>) -> Format
    ensures { result ≡ spec.format (request_of request.entry) }
{
    format_of(request.bytes_of(OperationAttribute::DocumentFormat)).unwrap_or(Format::OctetStream)
}
