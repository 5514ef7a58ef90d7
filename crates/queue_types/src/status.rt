//! Status codes of replies under their names (RFC 8011, appendix B.1), and where the printer answers with them.

/// All that was asked is done (section B.1.2.1).
pub const SUCCESSFUL_OK: u16 = 0x0000;

/// What was asked is done, but for the attributes that the reply lists as unsupported (section B.1.2.2).
pub const SUCCESSFUL_OK_IGNORED_OR_SUBSTITUTED_ATTRIBUTES: u16 = 0x0001;

/// The request isn't of the form, or lacks an attribute that its operation needs (section B.1.4.1).
pub const CLIENT_ERROR_BAD_REQUEST: u16 = 0x0400;

/// What was asked can't be done now: the job's state or documents, the caller's free pages or the number of its jobs don't
/// allow it (section B.1.4.5).
pub const CLIENT_ERROR_NOT_POSSIBLE: u16 = 0x0404;

/// What was asked for isn't there: the URI isn't this printer's, or the caller has no such job (section B.1.4.7).
pub const CLIENT_ERROR_NOT_FOUND: u16 = 0x0406;

/// A value is longer than its syntax allows (section B.1.4.10).
pub const CLIENT_ERROR_REQUEST_VALUE_TOO_LONG: u16 = 0x0409;

/// The format of the document isn't one of those that are supported (section B.1.4.11).
pub const CLIENT_ERROR_DOCUMENT_FORMAT_NOT_SUPPORTED: u16 = 0x040A;

/// Attributes or values that may not be ignored aren't supported; the reply lists them (section B.1.4.12).
pub const CLIENT_ERROR_ATTRIBUTES_OR_VALUES_NOT_SUPPORTED: u16 = 0x040B;

/// The charset of the request isn't utf-8, the one that is supported (section B.1.4.14).
pub const CLIENT_ERROR_CHARSET_NOT_SUPPORTED: u16 = 0x040D;

/// The document is said to be compressed, which isn't supported (section B.1.4.16).
pub const CLIENT_ERROR_COMPRESSION_NOT_SUPPORTED: u16 = 0x040F;

/// The operation isn't supported (section B.1.5.2).
pub const SERVER_ERROR_OPERATION_NOT_SUPPORTED: u16 = 0x0501;

/// The major version of IPP isn't 1 or 2 (section B.1.5.4).
pub const SERVER_ERROR_VERSION_NOT_SUPPORTED: u16 = 0x0503;

/// The printer could not do its work, for want of memory or by a fault of its store (section B.1.5.6).
pub const SERVER_ERROR_TEMPORARY_ERROR: u16 = 0x0505;

/// The printer takes no new job: the job numbers are used up (section B.1.5.7).
pub const SERVER_ERROR_NOT_ACCEPTING_JOBS: u16 = 0x0506;
