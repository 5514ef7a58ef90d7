//! The limits of a connection and of its requests.

/// The most bytes of a head, with the empty line that ends it.
pub(crate) const MOST_HEAD_BYTES: usize = 16_384;

/// The most field lines of a head, and of a trailer section.
pub const MOST_FIELDS: usize = 64;

/// The most bytes that the content of a request may have.
pub const MOST_CONTENT_BYTES: u32 = 16_777_216;

/// The most digits of a length that a head tells: as many as the greatest number of 64 bits has.
pub(crate) const MOST_DIGITS: usize = 20;

/// The most bytes of a chunk line, with its CR LF.
pub const MOST_CHUNK_LINE_BYTES: usize = 1_024;

/// The most bytes of a trailer section, with the empty line that ends it.
pub const MOST_TRAILER_BYTES: usize = 16_384;

/// The most bytes of a chunked body as it stands in the stream.
pub const MOST_RAW_BYTES: usize = 67_108_864;

/// The most requests that a connection may have.
pub const MOST_REQUESTS: u32 = 32;

/// How often in a row a read or a write that is interrupted is tried, before it has failed.
pub const MOST_TRIES: u32 = u32::MAX;
