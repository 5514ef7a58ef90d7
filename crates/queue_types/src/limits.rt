//! The limits of a queue.

/// The first number that a job may get.
pub const FIRST_JOB_NUMBER: u32 = 1;

/// The last number that a job may get: job-id is an integer from 1 to the greatest one (RFC 8011, section 5.3.2).
pub const LAST_JOB_NUMBER: u32 = 2_147_483_647;

/// The last moment that a printer knows, in seconds of its up time.
pub const LAST_MOMENT: u32 = 2_147_483_647;

/// The last number that the device may give a report of a job.
pub const LAST_REPORT_NUMBER: u32 = 2_147_483_647;

/// The most pages that the device may report of a job.
pub const MOST_PRINTED_PAGES: u32 = 100_000_000;

/// The most pages of a row of an account file.
pub const MOST_ROW_PAGES: u32 = 1_000_000;

/// The most pages that an account is granted in all.
pub const MOST_GRANTED_PAGES: u32 = 1_000_000_000;

/// The most copies of a job.
pub const MOST_COPIES: u32 = 999;

/// The most pages of one copy.
pub const MOST_IMPRESSIONS: u32 = 100_000;

/// The most octets of a job's name, a user's name or an account's name.
pub const MOST_NAME_OCTETS: usize = 255;

/// The most octets of a batch's name.
pub const MOST_BATCH_OCTETS: usize = 40;

/// The most operators.
pub const MOST_OPERATORS: usize = 16;

/// The most jobs in states 3 to 6 that one caller may have.
pub const MOST_LIVE_JOBS: usize = 100;

/// The most seconds for which a held or open job is kept.
pub const MOST_KEEP: u32 = 2_147_483_647;

/// The most documents of a job.
pub const MOST_DOCUMENTS: u32 = 16;

/// The most octets of a document.
pub const MOST_DOCUMENT_OCTETS: u32 = 16_777_216;
