//! The checks of a request's head, in their order.
ghost use Rattle.std.specs.Prelude.{◌≡◌, ◌≤◌, Some, length, codes};
ghost use Rattle.std.specs.List.{list_all, list_any};
ghost use Rattle.httparse.specs.Spans.{span_bytes};
ghost use Rattle.http_head.specs.Checks as spec;
ghost use Rattle.http_head.specs.Fields as words;
ghost use Rattle.http_head.specs.Planned.{fields_at};

use crate::end::Refusal;
use crate::fields::{before, has_member, same_word, text_at, values, without_spaces};
use crate::framing::Framing;
use crate::limits::MOST_CONTENT_BYTES;
use crate::target::Target;
use httparse::spans::{HeaderSpan, Span};

fn is_type(asked: &[u8], value: &[u8]) -> bool
    ensures { result ≡ spec.is_type asked.now value.now }
{
    same_word(without_spaces(before(b';', value)), asked)
}

fn are_types(come: &[u8], types: &[Span], asked: &[u8]) -> bool
    ensures { result ≡ list_all (λ s. spec.is_type asked.now (span_bytes come.now s)) types.now }
{
    types.iter().all(|s| is_type(asked, text_at(come, *s)))
}

fn are_identity(come: &[u8], codings: &[Span]) -> bool
    ensures { result ≡ list_all (λ s. spec.is_identity (span_bytes come.now s)) codings.now }
{
    codings
        .iter()
        .all(|s| same_word(text_at(come, *s), b"identity"))
}

/// The content has the media type that is asked, by each Content-Type, and no content coding, by each Content-Encoding.
pub(crate) fn is_typed(asked: &[u8], come: &[u8], fields: &[HeaderSpan]) -> bool
    requires { length fields.now ≤ 64 }
    ensures { result ≡ spec.are_typed asked.now (words.values (codes "content-type") (fields_at come.now fields.now))
        (words.values (codes "content-encoding") (fields_at come.now fields.now)) }
{
    let types = values(come, fields, b"content-type");
    let codings = values(come, fields, b"content-encoding");
    // As in `is_misframed`, no branches.
    !types.is_empty()
        & are_types(come, types.as_slice(), asked)
        & are_identity(come, codings.as_slice())
}

fn any_has(come: &[u8], values: &[Span], word: &[u8]) -> bool
    ensures { result ≡ list_any (λ s. words.has_member word.now (span_bytes come.now s)) values.now }
{
    values.iter().any(|s| has_member(word, text_at(come, *s)))
}

/// A field line of that name has the word among the members of its value.
pub(crate) fn asks_for(come: &[u8], fields: &[HeaderSpan], name: &[u8], word: &[u8]) -> bool
    requires { length fields.now ≤ 64 }
    ensures { result ≡ list_any (words.has_member word.now) (words.values name.now (fields_at come.now fields.now)) }
{
    any_has(come, values(come, fields, name).as_slice(), word)
}

fn first_that_applies(rows: &[(bool, Refusal)]) -> Option<Refusal>
    ensures { result ≡ spec.first_that_applies rows.now }
{
    rows.iter()
        .find(|(applies, _)| *applies)
        .map(|(_, refusal)| *refusal)
}

/// The first check that applies to a request without a route.
pub(crate) fn unrouted_refusal(misframed: bool) -> Refusal
    ensures { Some result ≡ spec.first_that_applies (spec.unrouted misframed) }
{
    if misframed {
        Refusal::BadRequest
    } else {
        Refusal::NotFound
    }
}

/// The first check that applies to a request with a route.
pub(crate) fn routed_refusal(
    target: Target,
    misframed: bool,
    framing: Framing,
    method: &[u8],
    typed: bool,
) -> Option<Refusal>
    ensures { result ≡ spec.first_that_applies (spec.rows target misframed framing method.now typed) }
{
    let posted = target.is_posted();
    let allowed = if posted {
        Refusal::OnlyPostAllowed
    } else {
        Refusal::OnlyGetAllowed
    };
    let size = framing.size();
    first_that_applies(&[
        (misframed, Refusal::BadRequest),
        (method != target.method(), allowed),
        (
            !posted && (framing.is_chunked() || size > 0),
            Refusal::BadRequest,
        ),
        (posted && framing.is_untold(), Refusal::LengthRequired),
        (size > MOST_CONTENT_BYTES, Refusal::ContentTooLarge),
        (posted && !typed, Refusal::UnsupportedMediaType),
    ])
}
