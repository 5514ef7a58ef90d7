//! The tags of RFC 8010, section 3.5, under its names.

/// The delimiter of the operation group (section 3.5.1).
pub const OPERATION_ATTRIBUTES: u8 = 0x01;

/// The delimiter of a job group (section 3.5.1).
pub const JOB_ATTRIBUTES: u8 = 0x02;

/// The delimiter that ends the groups (section 3.5.1).
pub(crate) const END_OF_ATTRIBUTES: u8 = 0x03;

/// The delimiter of the printer group (section 3.5.1).
pub const PRINTER_ATTRIBUTES: u8 = 0x04;

/// The delimiter of the group of what is unsupported (section 3.5.1).
pub const UNSUPPORTED_ATTRIBUTES: u8 = 0x05;

/// The tags from here on are values', and those below are delimiters (section 3.5.2).
pub(crate) const FIRST_VALUE_TAG: u8 = 0x10;

/// The out-of-band value of an unsupported attribute (section 3.5.2).
pub const UNSUPPORTED: u8 = 0x10;

/// The out-of-band value of an attribute that has none (section 3.5.2).
pub const NO_VALUE: u8 = 0x13;

/// A number of 4 bytes.
pub const INTEGER: u8 = 0x21;

/// One byte, 0 or 1.
pub const BOOLEAN: u8 = 0x22;

/// A number of 4 bytes that stands for one of several words.
pub const ENUM: u8 = 0x23;

/// The value tag that opens a collection (section 3.1.6).
pub(crate) const BEGIN_COLLECTION: u8 = 0x34;

/// A name and its language.
pub const NAME_WITH_LANGUAGE: u8 = 0x36;

/// The value tag that closes a collection (section 3.1.6).
pub(crate) const END_COLLECTION: u8 = 0x37;

/// A name in the language of its message.
pub const NAME_WITHOUT_LANGUAGE: u8 = 0x42;

/// A word of the protocol.
pub const KEYWORD: u8 = 0x44;

/// A URI.
pub const URI: u8 = 0x45;

/// The name of a charset.
pub const CHARSET: u8 = 0x47;

/// The tag of a natural language.
pub const NATURAL_LANGUAGE: u8 = 0x48;

/// A media type.
pub const MIME_MEDIA_TYPE: u8 = 0x49;
