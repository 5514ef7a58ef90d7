//! A short text that contracts see as its bytes.
ghost use Rattle.std.specs.Prelude.{◌≡◌, IfOk, Some, None, if◌then◌else◌};
ghost use Rattle.std.specs.Option.{option_copied};
ghost use Rattle.std.specs.Str.{is_utf8};
ghost use Rattle.queue_types.specs.Text.{bytes_of};

use arrayvec::ArrayString;
use std::alloc::{AllocError, Global};
use std::marker::Model;
use std::str;

/// A text of at most this many bytes lies in the value itself, as most names do.
const MOST_INLINE: usize = 24;

/// Where the bytes of a text lie.
#[derive(Debug, Drop)]
enum Stored {
    Inline(ArrayString<MOST_INLINE>),
    Allocated(String),
}

/// A text of a few hundred bytes, as a name or a URI, in UTF-8. A short one takes no memory beside the value.
#[derive(Debug, Drop)]
pub struct Text {
    stored: Stored,
}

impl Model for Text {
    ghost use Rattle.std.specs.Prelude.{List, ℕ};
    ghost use Rattle.queue_types.specs.Text.{bytes_of};

    ghost Value = { List ℕ };

    ghost view = { λ t. bytes_of t.stored };
}

/// A copy of a text, in the value itself where it is short.
fn store(alloc: Global, text: &str) -> Result<Stored, AllocError>
    ensures { IfOk result (λ s. bytes_of s ≡ text.now) }
{
    match ArrayString::from(text) {
        Ok(short) => Ok(Stored::Inline(short)),
        Err(_) => Ok(Stored::Allocated(String::from_str(alloc, text)?)),
    }
}

impl Text {
    /// A copy of a text. The one error is want of memory.
    pub fn copy_of(alloc: Global, text: &str) -> Result<Self, AllocError>
        ensures { IfOk result (λ t. t ≡ text.now) }
    {
        let stored = store(alloc, text)?;
        Ok(Text { stored })
    }

    /// The text, to be looked at. It takes no memory.
    pub fn as_str(&self) -> &str
        ensures { result.now ≡ self.now }
    {
        match &self.stored {
            Stored::Inline(text) => text.as_str(),
            Stored::Allocated(text) => text.as_str(),
        }
    }

    /// A copy. The one error is want of memory.
    pub fn try_clone(&self) -> Result<Self, AllocError>
        ensures { IfOk result (λ t. t ≡ self.now) }
    {
        let stored = match &self.stored {
            Stored::Inline(text) => Stored::Inline(*text),
            Stored::Allocated(text) => Stored::Allocated(text.clone()?),
        };
        Ok(Text { stored })
    }
}

/// The bytes as text, where they are UTF-8.
pub fn utf8_text(bytes: &[u8]) -> Option<&str>
    ensures { option_copied result ≡ (if is_utf8 bytes.now then Some bytes.now else None) }
{
    str::from_utf8(bytes).ok()
}
