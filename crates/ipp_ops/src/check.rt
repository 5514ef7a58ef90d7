//! The checks of a request, in their order.
ghost use Rattle.std.specs.Prelude.{◌≡◌, not, map};
ghost use Rattle.std.specs.List.{list_all, list_any};
ghost use Rattle.ipp_ops.specs.Checks.{code, applies, refusal, fails, some_fails, has_needed};
ghost use Rattle.ipp_request.specs.Request.{has, request_of};
ghost use Rattle.ipp_request.specs.Values as values;

use ipp_request::Request;
use ipp_request::attribute::{OPERATION_ATTRIBUTE_TABLE, OperationAttribute, needs};
use ipp_request::format::format_of;
use ipp_request::target::is_target;
use ipp_request::value::{any_long, are_formed};
use queue_types::status;

/// What may be wrong with the attributes of a request, in the order in which it is looked for. Looked for before these: the version and
/// the operation of its head, the form of the message, and that its first group begins with the charset and the language. Behind them:
/// the attributes and values that are not supported.
#[derive(Clone, Copy, Debug)]
pub(crate) enum Check {
    /// The charset isn't UTF-8.
    Charset,
    /// A known attribute has a wrong tag, number of values or shape.
    Form,
    /// A known attribute or the language is too long.
    Length,
    /// An attribute that the operation needs is missing.
    Needed,
    /// The target isn't this printer, or names no job's number.
    Target,
    /// The document is compressed.
    Compression,
    /// The document's format isn't supported.
    Format,
}

/// The checks, in order.
const CHECKS: [Check; 7] = [
    Check::Charset,
    Check::Form,
    Check::Length,
    Check::Needed,
    Check::Target,
    Check::Compression,
    Check::Format,
];

/// It has a wrong tag, number of values or shape.
fn is_misformed(request: Request<'_, '_>, attribute: OperationAttribute) -> bool
    ensures { result ≡ fails (λ row vs. not (values.are_formed row vs)) (request_of request.entry) attribute }
{
    request
        .known(attribute)
        .is_some_and(|a| !are_formed(&attribute.row(), a.values.as_slice()))
}

fn some_misformed(request: Request<'_, '_>) -> bool
    ensures { result ≡ some_fails (λ row vs. not (values.are_formed row vs)) (request_of request.entry) }
{
    OPERATION_ATTRIBUTE_TABLE
        .iter()
        .any(|k| is_misformed(request, *k))
}

/// It is longer than its limit.
fn is_overlong(request: Request<'_, '_>, attribute: OperationAttribute) -> bool
    ensures { result ≡ fails values.any_long (request_of request.entry) attribute }
{
    request
        .known(attribute)
        .is_some_and(|a| any_long(&attribute.row(), a.values.as_slice()))
}

fn some_overlong(request: Request<'_, '_>) -> bool
    ensures { result ≡ some_fails values.any_long (request_of request.entry) }
{
    OPERATION_ATTRIBUTE_TABLE
        .iter()
        .any(|k| is_overlong(request, *k))
}

fn has_all(request: Request<'_, '_>, needed: &[OperationAttribute]) -> bool
    ensures { result ≡ list_all (has (request_of request.entry)) needed.now }
{
    needed.iter().all(|k| request.has(*k))
}

fn has_one_of(request: Request<'_, '_>, lists: &[&[OperationAttribute]]) -> bool
    ensures { result ≡ list_any (λ ks. list_all (has (request_of request.entry)) ks) (map (λ ks. ks.now) lists.now) }
{
    lists.iter().any(|ks| has_all(request, ks))
}

/// The attributes that the operation needs are there.
fn has_needed(request: Request<'_, '_>) -> bool
    ensures { result ≡ has_needed (request_of request.entry) }
{
    has_one_of(request, needs(request.operation))
}

impl Check {
    /// The status code with which it refuses (RFC 8011, appendix B).
    pub(crate) fn code(self) -> u16
        ensures { result ≡ code self }
    {
        match self {
            Check::Form | Check::Needed => status::CLIENT_ERROR_BAD_REQUEST,
            Check::Charset => status::CLIENT_ERROR_CHARSET_NOT_SUPPORTED,
            Check::Length => status::CLIENT_ERROR_REQUEST_VALUE_TOO_LONG,
            Check::Target => status::CLIENT_ERROR_NOT_FOUND,
            Check::Compression => status::CLIENT_ERROR_COMPRESSION_NOT_SUPPORTED,
            Check::Format => status::CLIENT_ERROR_DOCUMENT_FORMAT_NOT_SUPPORTED,
        }
    }

    /// The check refuses the request.
    fn applies(self, request: Request<'_, '_>) -> bool
        ensures { result ≡ applies self (request_of request.entry) }
    {
        match self {
            Check::Charset => {
                let charset = request.bytes_of(OperationAttribute::AttributesCharset);
                !charset.eq_ignore_ascii_case(b"utf-8")
            }
            Check::Form => some_misformed(request),
            Check::Length => some_overlong(request),
            Check::Needed => !has_needed(request),
            Check::Target => !is_target(request),
            Check::Compression => {
                request.has(OperationAttribute::Compression)
                    && request.bytes_of(OperationAttribute::Compression) != "none".as_bytes()
            }
            Check::Format => {
                request.has(OperationAttribute::DocumentFormat)
                    && format_of(request.bytes_of(OperationAttribute::DocumentFormat)).is_none()
            }
        }
    }
}

/// The first check that refuses the request.
pub(crate) fn first_refusal(request: Request<'_, '_>) -> Option<Check>
    ensures { result ≡ refusal (request_of request.entry) }
{
    CHECKS.iter().copied().find(|c| c.applies(request))
}
