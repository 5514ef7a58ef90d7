//! The documents of a job.
ghost use Rattle.std.specs.Prelude.{◌≡◌, ◌≢◌, ◌≤◌, IfOk, MatchOption, bytes_eq, length};
ghost use Rattle.queue_types.specs.Formats as formats;
ghost use Rattle.queue_types.specs.declared.document.Format.{Format as FormatValue};

use std::alloc::{AllocError, Global};
use std::marker::Model;

/// A supported document format (a MIME media type; RFC 8011, section 5.4.22).
#[derive(Clone, Copy, Debug, PartialEq, Eq)]
pub enum Format {
    /// `application/octet-stream`, the default.
    OctetStream,
    /// `application/pdf`.
    Pdf,
    /// `application/postscript`.
    Postscript,
    /// `image/jpeg`.
    Jpeg,
    /// `image/pwg-raster`.
    PwgRaster,
    /// `image/urf`.
    Urf,
    /// `text/plain`.
    PlainText,
}

/// The supported formats, in order; the first is the default.
pub const FORMATS: [Format; 7] = [
    Format::OctetStream,
    Format::Pdf,
    Format::Postscript,
    Format::Jpeg,
    Format::PwgRaster,
    Format::Urf,
    Format::PlainText,
];

impl Format {
    /// Its name, a MIME media type, which is short.
    pub fn name(self) -> &'static str
        ensures name { result.now ≡ formats.format_name self }
        ensures short { length result.now ≤ 64 }
    {
        match self {
            Format::OctetStream => "application/octet-stream",
            Format::Pdf => "application/pdf",
            Format::Postscript => "application/postscript",
            Format::Jpeg => "image/jpeg",
            Format::PwgRaster => "image/pwg-raster",
            Format::Urf => "image/urf",
            Format::PlainText => "text/plain",
        }
    }

    fn is_named(self, name: &[u8]) -> bool
        ensures { result ≡ bytes_eq (formats.format_name self) name.now }
    {
        self.name().as_bytes() == name
    }

    /// The format of this name, byte for byte, where it is a supported one.
    pub fn from_name(name: &[u8]) -> Option<Format>
        ensures { MatchOption result ((f : FormatValue) → name.now ≢ formats.format_name f) (λ f. name.now ≡ formats.format_name f) }
    {
        FORMATS.iter().copied().find(|f| f.is_named(name))
    }
}

/// Bytes, which contracts see as a list.
#[derive(Debug, Drop)]
pub struct Bytes {
    bytes: Vec<u8>,
}

impl Model for Bytes {
    ghost use Rattle.std.specs.Prelude.{List, ℕ};

    ghost Value = { List ℕ };

    ghost view = { λ b. b.bytes.items };
}

impl Bytes {
    /// A copy of bytes. The one error is want of memory.
    pub fn copy_of(alloc: Global, bytes: &[u8]) -> Result<Self, AllocError>
        ensures { IfOk result (λ b. b ≡ bytes.now) }
    {
        let bytes = Vec::from_slice(alloc, bytes)?;
        Ok(Bytes { bytes })
    }

    /// The bytes, to be looked at. It takes no memory.
    pub fn as_slice(&self) -> &[u8]
        ensures { result.now ≡ self.now }
    {
        self.bytes.as_slice()
    }
}

/// A document with all its bytes, 1 to 16,777,216.
#[derive(Debug, Drop)]
pub struct Document {
    pub format: Format,
    pub bytes: Bytes,
}

/// The format of a document, and its length in bytes.
#[derive(Clone, Copy, Debug, PartialEq, Eq)]
pub struct DocumentHead {
    pub format: Format,
    pub octets: u64,
}
