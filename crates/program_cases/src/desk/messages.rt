//! IPP messages by their bytes, as RFC 8010 writes them.

/// The smallest Print-Job of alice: 145 bytes, with the document `hi`.
pub(crate) const PRINT_JOB: &[u8] =
    b"\x01\x01\x00\x02\x0a\x0b\x0c\x0d\x01G\x00\x12attributes-charset\x00\x05utf-8H\x00\x1battributes-natural-language\x00\x02enE\x00\x0bprinter-uri\x00\x19ipp://localhost/ipp/printB\x00\x14requesting-user-name\x00\x05alice\x03hi";

/// The same without its document: 143 bytes.
pub(crate) const PRINT_JOB_BEGUN: &[u8] =
    b"\x01\x01\x00\x02\x0a\x0b\x0c\x0d\x01G\x00\x12attributes-charset\x00\x05utf-8H\x00\x1battributes-natural-language\x00\x02enE\x00\x0bprinter-uri\x00\x19ipp://localhost/ipp/printB\x00\x14requesting-user-name\x00\x05alice\x03";

/// The same with the PDF document `%PDF`: 182 bytes.
pub(crate) const PRINT_PDF: &[u8] =
    b"\x01\x01\x00\x02\x0a\x0b\x0c\x0d\x01G\x00\x12attributes-charset\x00\x05utf-8H\x00\x1battributes-natural-language\x00\x02enE\x00\x0bprinter-uri\x00\x19ipp://localhost/ipp/printB\x00\x14requesting-user-name\x00\x05aliceI\x00\x0fdocument-format\x00\x0fapplication/pdf\x03%PDF";

/// The smallest Print-Job in version 3.0, which is not spoken here.
pub(crate) const PRINT_JOB_3_0: &[u8] =
    b"\x03\x00\x00\x02\x0a\x0b\x0c\x0d\x01G\x00\x12attributes-charset\x00\x05utf-8H\x00\x1battributes-natural-language\x00\x02enE\x00\x0bprinter-uri\x00\x19ipp://localhost/ipp/printB\x00\x14requesting-user-name\x00\x05alice\x03hi";

/// Release-Job of job 1 by alice: 158 bytes.
pub(crate) const RELEASE_JOB: &[u8] =
    b"\x01\x01\x00\r\x0a\x0b\x0c\x0d\x01G\x00\x12attributes-charset\x00\x05utf-8H\x00\x1battributes-natural-language\x00\x02enE\x00\x0bprinter-uri\x00\x19ipp://localhost/ipp/print!\x00\x06job-id\x00\x04\x00\x00\x00\x01B\x00\x14requesting-user-name\x00\x05alice\x03";

/// Get-Job-Attributes of `job-state` of job 1 by alice: 192 bytes.
pub(crate) const GET_STATE: &[u8] =
    b"\x01\x01\x00\x09\x0a\x0b\x0c\x0d\x01G\x00\x12attributes-charset\x00\x05utf-8H\x00\x1battributes-natural-language\x00\x02enE\x00\x0bprinter-uri\x00\x19ipp://localhost/ipp/print!\x00\x06job-id\x00\x04\x00\x00\x00\x01B\x00\x14requesting-user-name\x00\x05aliceD\x00\x14requested-attributes\x00\x09job-state\x03";

/// The reply of a job in state 4, pending-held.
pub(crate) const IS_HELD: &[u8] =
    b"\x01\x01\x00\x00\x0a\x0b\x0c\x0d\x01G\x00\x12attributes-charset\x00\x05utf-8H\x00\x1battributes-natural-language\x00\x02en\x02#\x00\x09job-state\x00\x04\x00\x00\x00\x04\x03";

/// The reply of a job in state 8, aborted.
pub(crate) const IS_ABORTED: &[u8] =
    b"\x01\x01\x00\x00\x0a\x0b\x0c\x0d\x01G\x00\x12attributes-charset\x00\x05utf-8H\x00\x1battributes-natural-language\x00\x02en\x02#\x00\x09job-state\x00\x04\x00\x00\x00\x08\x03";

/// Get-Jobs by opal, who is an operator: 142 bytes.
pub(crate) const GET_JOBS: &[u8] =
    b"\x01\x01\x00\x0a\x0a\x0b\x0c\x0d\x01G\x00\x12attributes-charset\x00\x05utf-8H\x00\x1battributes-natural-language\x00\x02enE\x00\x0bprinter-uri\x00\x19ipp://localhost/ipp/printB\x00\x14requesting-user-name\x00\x04opal\x03";

/// The same with `my-jobs` true: 155 bytes.
pub(crate) const GET_OWN_JOBS: &[u8] =
    b"\x01\x01\x00\x0a\x0a\x0b\x0c\x0d\x01G\x00\x12attributes-charset\x00\x05utf-8H\x00\x1battributes-natural-language\x00\x02enE\x00\x0bprinter-uri\x00\x19ipp://localhost/ipp/printB\x00\x14requesting-user-name\x00\x04opal\"\x00\x07my-jobs\x00\x01\x01\x03";

/// The reply with jobs 1 and 2.
pub(crate) const JOBS_1_AND_2: &[u8] =
    b"\x01\x01\x00\x00\x0a\x0b\x0c\x0d\x01G\x00\x12attributes-charset\x00\x05utf-8H\x00\x1battributes-natural-language\x00\x02en\x02E\x00\x07job-uri\x00\x1bipp://localhost/ipp/print/1!\x00\x06job-id\x00\x04\x00\x00\x00\x01\x02E\x00\x07job-uri\x00\x1bipp://localhost/ipp/print/2!\x00\x06job-id\x00\x04\x00\x00\x00\x02\x03";

/// Get-Printer-Attributes of `printer-up-time`: 153 bytes.
pub(crate) const GET_UP_TIME: &[u8] =
    b"\x01\x01\x00\x0b\x0a\x0b\x0c\x0d\x01G\x00\x12attributes-charset\x00\x05utf-8H\x00\x1battributes-natural-language\x00\x02enE\x00\x0bprinter-uri\x00\x19ipp://localhost/ipp/printD\x00\x14requested-attributes\x00\x0fprinter-up-time\x03";

/// The reply of a printer that is up for 42 seconds.
pub(crate) const UP_FOR_42: &[u8] =
    b"\x01\x01\x00\x00\x0a\x0b\x0c\x0d\x01G\x00\x12attributes-charset\x00\x05utf-8H\x00\x1battributes-natural-language\x00\x02en\x04!\x00\x0fprinter-up-time\x00\x04\x00\x00\x00*\x03";

/// A message of nine bytes that breaks off: its operation group has no end.
pub(crate) const BROKEN_OFF: &[u8] = b"\x01\x01\x00\x02\x0a\x0b\x0c\x0d\x01";

/// The reply to a Print-Job that is job 1, on hold: 191 bytes.
pub(crate) const JOB_1: &[u8] =
    b"\x01\x01\x00\x00\x0a\x0b\x0c\x0d\x01G\x00\x12attributes-charset\x00\x05utf-8H\x00\x1battributes-natural-language\x00\x02en\x02E\x00\x07job-uri\x00\x1bipp://localhost/ipp/print/1!\x00\x06job-id\x00\x04\x00\x00\x00\x01#\x00\x09job-state\x00\x04\x00\x00\x00\x04D\x00\x11job-state-reasons\x00\x18job-hold-until-specified\x03";

/// The reply to one that is job 2.
pub(crate) const JOB_2: &[u8] =
    b"\x01\x01\x00\x00\x0a\x0b\x0c\x0d\x01G\x00\x12attributes-charset\x00\x05utf-8H\x00\x1battributes-natural-language\x00\x02en\x02E\x00\x07job-uri\x00\x1bipp://localhost/ipp/print/2!\x00\x06job-id\x00\x04\x00\x00\x00\x02#\x00\x09job-state\x00\x04\x00\x00\x00\x04D\x00\x11job-state-reasons\x00\x18job-hold-until-specified\x03";

/// The reply to one that is job 3.
pub(crate) const JOB_3: &[u8] =
    b"\x01\x01\x00\x00\x0a\x0b\x0c\x0d\x01G\x00\x12attributes-charset\x00\x05utf-8H\x00\x1battributes-natural-language\x00\x02en\x02E\x00\x07job-uri\x00\x1bipp://localhost/ipp/print/3!\x00\x06job-id\x00\x04\x00\x00\x00\x03#\x00\x09job-state\x00\x04\x00\x00\x00\x04D\x00\x11job-state-reasons\x00\x18job-hold-until-specified\x03";

/// A bare reply: 72 bytes, successful-ok.
pub(crate) const DONE: &[u8] =
    b"\x01\x01\x00\x00\x0a\x0b\x0c\x0d\x01G\x00\x12attributes-charset\x00\x05utf-8H\x00\x1battributes-natural-language\x00\x02en\x03";

/// The bare reply of client-error-bad-request.
pub(crate) const BAD_REQUEST: &[u8] =
    b"\x01\x01\x04\x00\x0a\x0b\x0c\x0d\x01G\x00\x12attributes-charset\x00\x05utf-8H\x00\x1battributes-natural-language\x00\x02en\x03";

/// The bare reply of server-error-version-not-supported.
pub(crate) const OTHER_VERSION: &[u8] =
    b"\x01\x01\x05\x03\x0a\x0b\x0c\x0d\x01G\x00\x12attributes-charset\x00\x05utf-8H\x00\x1battributes-natural-language\x00\x02en\x03";

/// The bare reply of server-error-temporary-error.
pub(crate) const FAULT: &[u8] =
    b"\x01\x01\x05\x05\x0a\x0b\x0c\x0d\x01G\x00\x12attributes-charset\x00\x05utf-8H\x00\x1battributes-natural-language\x00\x02en\x03";

/// The reply to a Print-Job that got this number, of 1 to 3.
pub(super) fn job_reply(number: u32) -> &'static [u8] {
    match number {
        1 => JOB_1,
        2 => JOB_2,
        _ => JOB_3,
    }
}
