//! What a message's bytes show, and why they may show nothing.

use thiserror::Error;

/// The first eight bytes of a message (RFC 8010, section 3.1.1): the version, the operation of a
/// request or the status code of a reply, and the request-id. Any values may stand there.
#[derive(Clone, Copy, Debug, PartialEq, Eq)]
pub struct Head {
    pub major: u8,
    pub minor: u8,
    pub code: u16,
    pub request_id: u32,
}

/// A message whose names, values and payload are slices of the input (RFC 8010, section 3.1.1).
#[derive(Debug, Drop)]
pub struct View<'a> {
    pub head: Head,
    pub groups: Vec<GroupView<'a>>,
    /// What follows the end-of-attributes tag, such as a document.
    pub payload: &'a [u8],
}

/// An attribute group under its delimiter tag, 0x01, 0x02 or 0x04 to 0x0f (RFC 8010, section 3.1.2).
#[derive(Debug, Drop)]
pub struct GroupView<'a> {
    pub tag: u8,
    pub attrs: Vec<AttrView<'a>>,
}

/// An attribute: a name of 1 to 32,767 bytes and at least one value. The records of a collection are
/// values in a row, from 0x34 to 0x37 (RFC 8010, section 3.1.6), at most eight deep.
#[derive(Debug, Drop)]
pub struct AttrView<'a> {
    pub name: &'a [u8],
    pub values: Vec<ValueView<'a>>,
}

/// A value: a tag of 0x10 to 0xff, and at most 32,767 bytes (RFC 8010, section 3.5.2).
#[derive(Clone, Copy, Debug)]
pub struct ValueView<'a> {
    pub tag: u8,
    pub bytes: &'a [u8],
}

/// Why bytes are not read.
#[derive(Debug, Drop, Error)]
pub enum WireFault {
    /// There are fewer than 8 bytes.
    #[error("there are fewer than 8 octets")]
    Short,
    /// The bytes spell no message. The record or delimiter that can't be read begins at this offset,
    /// in bytes; where the input ends in place of one, it is the input's length.
    #[error("nothing can be read at octet {at}")]
    Malformed { at: usize },
    /// A list could not be allocated.
    #[error("there is no memory")]
    Memory,
}
