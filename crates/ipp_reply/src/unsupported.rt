//! The attributes that a reply lists as unsupported (RFC 8011, section 4.1.7).
ghost use Rattle.std.specs.Prelude.{◌≡◌};
ghost use Rattle.ipp_wire.specs.Viewed.{attributes_of};
ghost use Rattle.ipp_reply.specs.Unsupported as spec;

use ipp_wire::AttrView;
use std::alloc::Global;

/// The attributes that the printer doesn't take as they stand, by the group in which they were, each in
/// the request's order: an unknown one with one value of tag 0x10 without bytes, and a known one with its
/// own values.
#[derive(Debug, Drop)]
pub struct Unsupported<'a> {
    pub operation: Vec<AttrView<'a>>,
    pub job: Vec<AttrView<'a>>,
}

/// Some attribute is there. It takes no memory.
pub fn is_filled(attrs: &[AttrView<'_>]) -> bool
    ensures { result ≡ spec.is_filled (attributes_of attrs.now) }
{
    !attrs.is_empty()
}

impl<'a> Unsupported<'a> {
    ghost use Rattle.ipp_reply.specs.Unsupported.{unsupported_of};

    /// Nothing is listed. It takes no memory.
    pub fn nothing(alloc: Global) -> Self
        ensures { unsupported_of result ≡ spec.nothing }
    {
        Unsupported {
            operation: Vec::new(alloc),
            job: Vec::new(alloc),
        }
    }

    /// Something is listed. It takes no memory.
    pub fn is_listed(&self) -> bool
        ensures { result ≡ spec.is_listed (unsupported_of self.now) }
    {
        is_filled(self.operation.as_slice()) || is_filled(self.job.as_slice())
    }
}
