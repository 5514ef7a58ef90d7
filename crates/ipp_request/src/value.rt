//! What the values of an attribute say (RFC 8010, section 3.9; RFC 8011, section 5.1).
ghost use Rattle.std.specs.Prelude.{◌≡◌, false, bytes_eq, map};
ghost use Rattle.std.specs.List.{list_any, list_all};
ghost use Rattle.std.specs.Str.{is_utf8};
ghost use Rattle.std.specs.Option.{option_copied, option_map, option_map_or};
ghost use Rattle.ipp_wire.specs.Viewed.{value_of, values_of};
ghost use Rattle.ipp_request.specs.Attributes.{row_of, support_of};
ghost use Rattle.ipp_request.specs.Request.{first_value, job_of_id};
ghost use Rattle.ipp_request.specs.Values as spec;

use crate::attribute::{Row, Support, Syntax};
use ipp_wire::ValueView;
use ipp_wire::tags::{INTEGER, KEYWORD, NAME_WITH_LANGUAGE};
use queue_core::{has_no_control, has_no_zero};
use queue_types::text::utf8_text;

/// A number of 4 bytes, by its bits: one of 2,147,483,648 or more stands for a number below zero (RFC 8010, section 3.9).
pub fn number(bytes: &[u8]) -> Option<u32>
    ensures { result ≡ spec.number_of bytes.now }
{
    match bytes {
        [a, b, c, d] => Some(u32::from_be_bytes([*a, *b, *c, *d])),
        _ => None,
    }
}

/// The greatest number of 4 bytes that doesn't stand for one below zero (RFC 8010, section 3.9).
const GREATEST_NUMBER: u32 = 2_147_483_647;

/// At least 1, and not one that stands for a number below zero.
fn is_positive(n: u32) -> bool
    ensures { result ≡ spec.is_positive n }
{
    1 <= n && n <= GREATEST_NUMBER
}

/// The number, where a job may have it: 1 to 2,147,483,647.
pub(crate) fn job_of_id(n: u32) -> Option<u32>
    ensures { result ≡ job_of_id n }
{
    is_positive(n).then_some(n)
}

/// A number of 4 bytes, at least 1 (at most 2,147,483,647).
pub(crate) fn is_positive_number(bytes: &[u8]) -> bool
    ensures { result ≡ option_map_or spec.is_positive (spec.number_of bytes.now) false }
{
    number(bytes).is_some_and(is_positive)
}

/// What follows a length in two bytes and that many bytes.
fn after_text(bytes: &[u8]) -> &[u8]
    ensures { result.now ≡ spec.after_text bytes.now }
{
    match bytes {
        [a, b, rest @ ..] => {
            let n = u16::from_be_bytes([*a, *b]) as usize;
            if n <= rest.len() { &rest[n..] } else { &[] }
        }
        _ => &[],
    }
}

/// The text behind a language, each with its length before it, and nothing more.
fn behind_language(bytes: &[u8]) -> Option<&[u8]>
    ensures { option_copied result ≡ spec.behind_language bytes.now }
{
    match after_text(bytes) {
        [a, b, text @ ..] if text.len() == u16::from_be_bytes([*a, *b]) as usize => Some(text),
        _ => None,
    }
}

/// The text of a value: of a nameWithLanguage the name, else all of it.
pub(crate) fn text<'a>(value: ValueView<'a>) -> Option<&'a [u8]>
    ensures { option_copied result ≡ spec.text_of (value_of value.entry) }
{
    if value.tag == NAME_WITH_LANGUAGE {
        behind_language(value.bytes)
    } else {
        Some(value.bytes)
    }
}

/// The first of some values, where there is one.
pub fn first_value<'a>(values: &[ValueView<'a>]) -> Option<ValueView<'a>>
    ensures { option_map value_of result ≡ first_value (values_of values.now) }
{
    match values {
        [v, ..] => Some(*v),
        [] => None,
    }
}

fn is_utf8(text: &[u8]) -> bool
    ensures { result ≡ is_utf8 text.now }
{
    utf8_text(text).is_some()
}

fn has_shape(syntax: Syntax, text: &[u8]) -> bool
    ensures { result ≡ spec.has_shape syntax text.now }
{
    match syntax {
        Syntax::Integer => number(text).is_some(),
        Syntax::Positive => is_positive_number(text),
        Syntax::Boolean => text == [0].as_slice() || text == [1].as_slice(),
        Syntax::UserName => is_utf8(text) && has_no_control(text),
        Syntax::Title => is_utf8(text) && has_no_zero(text),
        Syntax::Charset
        | Syntax::NaturalLanguage
        | Syntax::Uri
        | Syntax::MediaType
        | Syntax::Keyword
        | Syntax::KeywordOrName => true,
    }
}

/// The value has one of the tags of the syntax.
pub(crate) fn is_tagged(syntax: Syntax, value: ValueView<'_>) -> bool
    ensures { result ≡ spec.is_tagged syntax (value_of value.entry) }
{
    syntax.tags().iter().any(|t| *t == value.tag)
}

fn is_shaped(syntax: Syntax, value: ValueView<'_>) -> bool
    ensures { result ≡ spec.is_shaped syntax (value_of value.entry) }
{
    is_tagged(syntax, value) && text(value).is_some_and(|bytes| has_shape(syntax, bytes))
}

fn are_shaped(syntax: Syntax, values: &[ValueView<'_>]) -> bool
    ensures { result ≡ list_all (spec.is_shaped syntax) (values_of values.now) }
{
    values.iter().all(|v| is_shaped(syntax, *v))
}

/// The values are as the row asks.
pub fn are_formed(row: &Row, values: &[ValueView<'_>]) -> bool
    ensures { result ≡ spec.are_formed (row_of row.now) (values_of values.now) }
{
    (row.many || values.len() == 1) && are_shaped(row.syntax, values)
}

fn is_long(syntax: Syntax, value: ValueView<'_>) -> bool
    ensures { result ≡ spec.is_long syntax (value_of value.entry) }
{
    match (syntax.limit(), text(value)) {
        (Some(limit), Some(bytes)) => limit < bytes.len(),
        _ => false,
    }
}

/// A value is longer than the limit of the row's syntax.
pub fn any_long(row: &Row, values: &[ValueView<'_>]) -> bool
    ensures { result ≡ spec.any_long (row_of row.now) (values_of values.now) }
{
    values.iter().any(|v| is_long(row.syntax, *v))
}

fn is_word(words: &[&str], bytes: &[u8]) -> bool
    ensures { result ≡ list_any (λ w. bytes_eq w bytes.now) (map (λ w. w.now) words.now) }
{
    words.iter().any(|w| w.as_bytes() == bytes)
}

fn is_number_within(low: u32, high: u32, value: ValueView<'_>) -> bool
    ensures { result ≡ spec.is_number_within low high (value_of value.entry) }
{
    value.tag == INTEGER && number(value.bytes).is_some_and(|n| low <= n && n <= high)
}

/// The values are supported.
pub fn are_supported(support: Support, values: &[ValueView<'_>]) -> bool
    ensures { result ≡ spec.are_supported (support_of support) (values_of values.now) }
{
    match (support, values) {
        (Support::Anything, _) => true,
        (Support::Between(low, high), [v]) => is_number_within(low, high, *v),
        (Support::Words(words), [v]) => v.tag == KEYWORD && is_word(words, v.bytes),
        _ => false,
    }
}
