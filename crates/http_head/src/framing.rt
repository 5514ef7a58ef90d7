//! How a body is framed (RFC 9112, section 6), by the values of Transfer-Encoding and of Content-Length.
ghost use Rattle.std.specs.Prelude.{◌≡◌, map, bytes_eq, false};
ghost use Rattle.std.specs.List.{list_all};
ghost use Rattle.httparse.specs.Spans.{span_bytes};
ghost use Rattle.http_head.specs.Fields.{is_digits as is_digits_of};
ghost use Rattle.http_head.specs.Framing as spec;

use crate::fields::{capped_number, is_digits, same_word, text_at};
use httparse::spans::Span;

/// How a body is framed.
#[derive(Clone, Copy)]
pub enum Framing {
    /// There is none.
    Nothing,
    /// By its length in bytes.
    Sized(u32),
    /// By chunks.
    Chunked,
}

impl Framing {
    /// The body comes by chunks.
    pub(crate) fn is_chunked(self) -> bool
        ensures { result ≡ spec.is_chunked self }
    {
        matches!(self, Framing::Chunked)
    }

    /// Neither a length nor chunks are told.
    pub(crate) fn is_untold(self) -> bool
        ensures { result ≡ spec.is_untold self }
    {
        matches!(self, Framing::Nothing)
    }

    /// The length that is told in bytes, or 0.
    pub(crate) fn size(self) -> u32
        ensures { result ≡ spec.size_of self }
    {
        match self {
            Framing::Sized(n) => n,
            Framing::Nothing | Framing::Chunked => 0,
        }
    }
}

fn is_chunked_alone(come: &[u8], codings: &[Span]) -> bool
    ensures { result ≡ spec.is_chunked_alone (map (span_bytes come.now) codings.now) }
{
    match codings {
        [value] => same_word(text_at(come, *value), b"chunked"),
        _ => false,
    }
}

fn all_are_digits(come: &[u8], lengths: &[Span]) -> bool
    ensures { result ≡ list_all (λ s. is_digits_of (span_bytes come.now s)) lengths.now }
{
    lengths.iter().all(|s| is_digits(text_at(come, *s)))
}

fn are_as(come: &[u8], text: &[u8], others: &[Span]) -> bool
    ensures { result ≡ list_all (λ s. bytes_eq (span_bytes come.now s) text.now) others.now }
{
    others.iter().all(|s| text_at(come, *s) == text)
}

fn first_text<'b>(come: &'b [u8], lengths: &[Span]) -> &'b [u8]
    ensures { result.now ≡ spec.first_text (map (span_bytes come.now) lengths.now) }
{
    match lengths {
        [] => &[],
        [first, ..] => text_at(come, *first),
    }
}

fn all_same(come: &[u8], lengths: &[Span]) -> bool
    ensures { result ≡ spec.all_same (map (span_bytes come.now) lengths.now) }
{
    are_as(come, first_text(come, lengths), lengths)
}

/// Both are there, or the transfer codings are not chunked alone, or the lengths are not digits, or differ in their texts.
pub(crate) fn is_misframed(come: &[u8], codings: &[Span], lengths: &[Span]) -> bool
    ensures { result ≡ spec.misframed (map (span_bytes come.now) codings.now) (map (span_bytes come.now) lengths.now) }
{
    let coded = !codings.is_empty();
    let told = !lengths.is_empty();
    let chunked = is_chunked_alone(come, codings);
    let digits = all_are_digits(come, lengths);
    let same = all_same(come, lengths);
    // `&&` and `||` would branch: `&` and `|` leave one goal in place of one for each path.
    (coded & told) | (coded & !chunked) | (told & !(digits & same))
}

/// The framing, where it isn't misframed. A length over the limit is told as the limit and one more.
pub(crate) fn framing_told(come: &[u8], codings: &[Span], lengths: &[Span]) -> Framing
    ensures { spec.misframed (map (span_bytes come.now) codings.now) (map (span_bytes come.now) lengths.now) ≡ false
        → result ≡ spec.capped (spec.framing (map (span_bytes come.now) codings.now) (map (span_bytes come.now) lengths.now)) }
{
    match (codings, lengths) {
        ([_, ..], _) => Framing::Chunked,
        ([], [first, ..]) => Framing::Sized(capped_number(text_at(come, *first))),
        ([], []) => Framing::Nothing,
    }
}
