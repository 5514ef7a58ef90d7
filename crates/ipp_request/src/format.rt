//! The document format that a media type names (RFC 8011, section 5.4.22).
ghost use Rattle.std.specs.Prelude.{◌≡◌, ◌==◌};
ghost use Rattle.std.specs.List.{before_first, position};
ghost use Rattle.std.specs.Str.{byte, str_eq_ignore_ascii_case};
ghost use Rattle.ipp_request.specs.Formats as spec;
ghost use Rattle.queue_types.specs.Formats.{format_name};

use queue_types::document::{FORMATS, Format};

fn semicolon_at(bytes: &[u8]) -> Option<usize>
    ensures { result ≡ position (λ b. b == byte ";") bytes.now }
{
    bytes.iter().position(|b| *b == b';')
}

fn without_parameters(bytes: &[u8]) -> &[u8]
    ensures { result.now ≡ before_first (λ b. b == byte ";") bytes.now }
{
    match semicolon_at(bytes) {
        Some(i) => &bytes[..i],
        None => bytes,
    }
}

fn trimmed(text: &[u8]) -> &[u8]
    ensures { result.now ≡ spec.trimmed text.now }
{
    let mut kept = text;
    while let [front @ .., b' '] = kept {
        kept = front;
    }
    kept
}

fn is_named(format: Format, media_type: &[u8]) -> bool
    ensures { result ≡ str_eq_ignore_ascii_case (format_name format) media_type.now }
{
    format.name().as_bytes().eq_ignore_ascii_case(media_type)
}

/// The supported format of a media type, without its parameters and ASCII case aside.
pub fn format_of(bytes: &[u8]) -> Option<Format>
    ensures { result ≡ spec.format_of bytes.now }
{
    let media_type = trimmed(without_parameters(bytes));
    FORMATS.iter().copied().find(|f| is_named(*f, media_type))
}
