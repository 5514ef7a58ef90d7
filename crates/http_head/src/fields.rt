//! Field lines, and the words in their values (RFC 9110, section 5).
ghost use Rattle.std.specs.Prelude.{◌≡◌, ◌≤◌, ◌==◌, length, map, not, if◌then◌else◌, Some, None, true, false, min};
ghost use Rattle.std.specs.List.{before_first, after_first, position, list_all};
ghost use Rattle.std.specs.Option.{option_copied};
ghost use Rattle.std.specs.Char.{is_ascii_digit};
ghost use Rattle.std.specs.Str.{is_utf8};
ghost use Rattle.std.specs.Str.Parse.{digits_value};
ghost use Rattle.httparse.specs.Spans.{span_bytes, header_bytes};
ghost use Rattle.http_head.specs.Fields as spec;

use crate::limits::{MOST_CONTENT_BYTES, MOST_DIGITS, MOST_FIELDS};
use arrayvec::ArrayVec;
use httparse::spans::{HeaderSpan, Span};
use std::str;

/// The bytes that a span covers, of those that have come.
pub(crate) fn text_at(come: &[u8], span: Span) -> &[u8]
    ensures { result.now ≡ span_bytes come.now span }
{
    let end = span.end.min(come.len());
    let start = span.start.min(end);
    &come[start..end]
}

/// The same text, ASCII case aside.
pub(crate) fn same_word(a: &[u8], b: &[u8]) -> bool
    ensures { result ≡ spec.same_word a.now b.now }
{
    a.eq_ignore_ascii_case(b)
}

fn is_named(come: &[u8], header: &HeaderSpan, name: &[u8]) -> bool
    ensures { result ≡ spec.is_named name.now (header_bytes come.now header.now) }
{
    same_word(text_at(come, header.name), name)
}

/// The values of all field lines of that name.
pub(crate) fn values(
    come: &[u8],
    headers: &[HeaderSpan],
    name: &[u8],
) -> ArrayVec<Span, MOST_FIELDS>
    requires { length headers.now ≤ 64 }
    ensures { map (span_bytes come.now) result.items ≡ spec.values name.now (map (header_bytes come.now) headers.now) }
{
    let mut found = ArrayVec::new();
    for header in headers {
        if is_named(come, header, name) {
            found.push(header.value);
        }
    }
    found
}

fn is_blank(tabs: bool, b: u8) -> bool
    ensures { result ≡ spec.is_blank tabs b }
{
    b == b' ' || (tabs && b == b'\t')
}

fn text_starts(text: &[u8], tabs: bool) -> Option<usize>
    ensures { result ≡ position (λ b. not (spec.is_blank tabs b)) text.now }
{
    text.iter().position(|b| !is_blank(tabs, *b))
}

fn front_cut(text: &[u8], tabs: bool) -> &[u8]
    ensures { result.now ≡ spec.front_cut (spec.is_blank tabs) text.now }
{
    match text_starts(text, tabs) {
        Some(i) => &text[i..],
        None => &[],
    }
}

fn end_cut(text: &[u8], tabs: bool) -> &[u8]
    ensures { result.now ≡ spec.end_cut (spec.is_blank tabs) text.now }
{
    let mut end = text.len();
    while end > 0 && is_blank(tabs, text[end - 1]) {
        end -= 1;
    }
    &text[..end]
}

fn trimmed(text: &[u8], tabs: bool) -> &[u8]
    ensures { result.now ≡ spec.trimmed (spec.is_blank tabs) text.now }
{
    end_cut(front_cut(text, tabs), tabs)
}

/// The text without the spaces at both ends.
pub(crate) fn without_spaces(text: &[u8]) -> &[u8]
    ensures { result.now ≡ spec.trimmed (spec.is_blank false) text.now }
{
    trimmed(text, false)
}

/// The text without the spaces and tabs at both ends (OWS: RFC 9110, section 5.6.3).
pub(crate) fn without_white_space(text: &[u8]) -> &[u8]
    ensures { result.now ≡ spec.trimmed (spec.is_blank true) text.now }
{
    trimmed(text, true)
}

fn is_member(member: &[u8], word: &[u8]) -> bool
    ensures { result ≡ spec.same_word (spec.trimmed (spec.is_blank true) member.now) word.now }
{
    same_word(without_white_space(member), word)
}

/// A member of the list that the value is, is that word.
pub(crate) fn has_member(word: &[u8], value: &[u8]) -> bool
    ensures { result ≡ spec.has_member word.now value.now }
{
    value
        .split(|b| *b == b',')
        .any(|member| is_member(member, word))
}

/// Where the byte first stands.
pub(crate) fn place_of(byte: u8, text: &[u8]) -> Option<usize>
    ensures { result ≡ position (λ b. b == byte) text.now }
{
    text.iter().position(|b| *b == byte)
}

/// The text before the byte, or all of it.
pub(crate) fn before(byte: u8, text: &[u8]) -> &[u8]
    ensures { result.now ≡ before_first (λ b. b == byte) text.now }
{
    match place_of(byte, text) {
        Some(i) => &text[..i],
        None => text,
    }
}

/// The text after the byte.
pub(crate) fn after(byte: u8, text: &[u8]) -> &[u8]
    ensures { result.now ≡ after_first (λ b. b == byte) text.now }
{
    match place_of(byte, text) {
        Some(i) => &text[i + 1..],
        None => &[],
    }
}

fn has_only_digits(text: &[u8]) -> bool
    ensures { result ≡ list_all is_ascii_digit text.now }
{
    text.iter().all(|b| b.is_ascii_digit())
}

/// One digit or more, of which there are at most as many as a length may have.
pub(crate) fn is_digits(text: &[u8]) -> bool
    ensures { result ≡ spec.is_digits text.now }
{
    !text.is_empty() && text.len() <= MOST_DIGITS && has_only_digits(text)
}

/// The number that digits write, or 16,777,217 where it is more.
pub(crate) fn capped_number(text: &[u8]) -> u32
    ensures capped { result ≤ 16777217 }
    ensures value { list_all is_ascii_digit text.now ≡ true → result ≡ min (digits_value 10 text.now) 16777217 }
{
    let mut n: u32 = 0;
    for b in text {
        n = (n * 10 + u32::from(b.saturating_sub(b'0'))).min(MOST_CONTENT_BYTES + 1);
    }
    n
}

/// The bytes as text, where they are UTF-8.
pub(crate) fn utf8_text(bytes: &[u8]) -> Option<&str>
    ensures { option_copied result ≡ (if is_utf8 bytes.now then Some bytes.now else None) }
{
    str::from_utf8(bytes).ok()
}

/// A number in decimal without a leading zero, of 32 bits.
pub(crate) fn number_in(text: &[u8]) -> Option<u32>
    ensures { result ≡ spec.number_in text.now }
{
    if !has_only_digits(text) || text.starts_with(b"0") {
        return None;
    }
    utf8_text(text)?.parse::<u32>().ok()
}
