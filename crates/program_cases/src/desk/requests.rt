//! Requests, or their heads, by their bytes.

/// The media type of IPP messages.
pub(crate) const IPP: &str = "application/ipp";

/// The media type of the device's queue and of its lines.
pub(crate) const TEXT: &str = "text/plain";

/// The media type of a document whose format isn't known.
pub(crate) const OCTETS: &str = "application/octet-stream";

/// The head of a POST of the smallest Print-Job.
pub(crate) const POST_JOB: &[u8] =
    b"POST /ipp/print HTTP/1.1\r\nContent-Type: application/ipp\r\nContent-Length: 145\r\n\r\n";

/// The head of a POST of the message that breaks off.
pub(crate) const POST_BROKEN_OFF: &[u8] =
    b"POST /ipp/print HTTP/1.1\r\nContent-Type: application/ipp\r\nContent-Length: 9\r\n\r\n";

/// The head of a POST of the largest message.
pub(crate) const POST_LARGEST: &[u8] =
    b"POST /ipp/print HTTP/1.1\r\nContent-Type: application/ipp\r\nContent-Length: 16777216\r\n\r\n";

/// The head of a POST that asks for the printer's up time.
pub(crate) const POST_UP_TIME: &[u8] =
    b"POST /ipp/print HTTP/1.1\r\nContent-Type: application/ipp\r\nContent-Length: 153\r\n\r\n";

/// The head of a POST that asks for a job's state.
pub(crate) const POST_STATE: &[u8] =
    b"POST /ipp/print HTTP/1.1\r\nContent-Type: application/ipp\r\nContent-Length: 192\r\n\r\n";

/// The head of a POST of an operator's look at jobs.
pub(crate) const POST_GET_JOBS: &[u8] =
    b"POST /ipp/print HTTP/1.1\r\nContent-Type: application/ipp\r\nContent-Length: 142\r\n\r\n";

/// The head of one at its own jobs.
pub(crate) const POST_GET_OWN_JOBS: &[u8] =
    b"POST /ipp/print HTTP/1.1\r\nContent-Type: application/ipp\r\nContent-Length: 155\r\n\r\n";

/// The head of a POST of the release of a job.
pub(crate) const POST_RELEASE: &[u8] =
    b"POST /ipp/print HTTP/1.1\r\nContent-Type: application/ipp\r\nContent-Length: 158\r\n\r\n";

/// The head of a POST whose body comes in chunks.
pub(crate) const POST_CHUNKED: &[u8] =
    b"POST /ipp/print HTTP/1.1\r\nContent-Type: application/ipp\r\nTransfer-Encoding: chunked\r\n\r\n";

/// The same, which waits for leave.
pub(crate) const POST_WAITING: &[u8] =
    b"POST /ipp/print HTTP/1.1\r\nExpect: 100-continue\r\nContent-Type: application/ipp\r\nTransfer-Encoding: chunked\r\n\r\n";

/// A GET of the device's queue.
pub(crate) const GET_QUEUE: &[u8] = b"GET /device/queue HTTP/1.1\r\n\r\n";

/// A GET of the first document of job 1.
pub(crate) const GET_DOCUMENT: &[u8] = b"GET /device/document/1/1 HTTP/1.1\r\n\r\n";

/// A report that is no line of the device: it asks nothing of a book.
pub(crate) const NO_REPORT: &[u8] =
    b"POST /device/report HTTP/1.1\r\nContent-Type: text/plain\r\nContent-Length: 1\r\n\r\nx";

/// The device starts job 1.
pub(crate) const REPORT_START: &[u8] =
    b"POST /device/report HTTP/1.1\r\nContent-Type: text/plain\r\nContent-Length: 12\r\n\r\n1 1 start 0\n";

/// It has printed job 1, of 20 pages.
pub(crate) const REPORT_DONE: &[u8] =
    b"POST /device/report HTTP/1.1\r\nContent-Type: text/plain\r\nContent-Length: 12\r\n\r\n1 2 done 20\n";
