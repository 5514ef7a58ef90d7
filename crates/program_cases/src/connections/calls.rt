//! What clients, an operator, the device and an owner of jobs send, each on a connection of its own, and what stands in the answer that is looked for.

use crate::desk::connection::{filled, in_chunks_of_one_byte};
use crate::desk::messages::{BROKEN_OFF, PRINT_JOB_3_0};
use crate::desk::requests::{
    GET_QUEUE, IPP, POST_BROKEN_OFF, POST_CHUNKED, POST_JOB, POST_WAITING, TEXT,
};
use std::alloc::{AllocError, Global};

/// What is sent.
#[derive(Clone, Copy)]
pub(super) enum Call {
    /// The head of a request, and what is behind it.
    Stream(&'static [u8], &'static [u8]),
    /// A look at the queue whose head has so many fields.
    Fields(usize),
    /// An IPP message: its operation, what its attributes end with, and its document.
    Message(u8, &'static [u8], &'static [u8]),
    /// One about the job.
    OfJob(u8, &'static [u8], &'static [u8]),
    /// A report on the job: its kind, and the pages printed so far.
    Report(&'static str, u32),
    /// The job's document of this number.
    Document(u32),
}

/// What is drawn of a call.
#[derive(Clone, Copy)]
pub(super) struct Drawn {
    /// The job that it is about.
    pub(super) job: u32,
    /// The number of its report.
    pub(super) sequence: u32,
    /// Each byte of its body is a chunk.
    pub(super) in_chunks: bool,
    /// How many bytes a read gives at most.
    pub(super) most: usize,
}

/// A call among those that are drawn: how often it is drawn, in proportion to the others, what is sent, what stands in the answer in one at
/// least of its draws, and what that says.
pub(super) type Row = (u32, Call, &'static [u8], &'static str);

/// The attributes that each message of these begins with, behind its operation.
const ATTRIBUTES: &[u8] =
    b"\x0a\x0b\x0c\x0d\x01G\x00\x12attributes-charset\x00\x05utf-8H\x00\x1battributes-natural-language\x00\x02enE\x00\x0bprinter-uri\x00\x19ipp://localhost/ipp/print";

/// The front of the attribute of the job's number.
const JOB_ID: &[u8] = b"!\x00\x06job-id\x00\x04";

const ALICE: &[u8] = b"B\x00\x14requesting-user-name\x00\x05alice";

const BOB: &[u8] = b"B\x00\x14requesting-user-name\x00\x03bob";

/// A PDF document of alice.
const PDF: &[u8] =
    b"B\x00\x14requesting-user-name\x00\x05aliceI\x00\x0fdocument-format\x00\x0fapplication/pdf";

/// A document of alice behind which others may come.
const MORE: &[u8] =
    b"\"\x00\x0dlast-document\x00\x01\x00B\x00\x14requesting-user-name\x00\x05alice";

/// A last document of alice.
const LAST: &[u8] =
    b"\"\x00\x0dlast-document\x00\x01\x01B\x00\x14requesting-user-name\x00\x05alice";

/// The operator.
const OPAL: &[u8] = b"B\x00\x14requesting-user-name\x00\x04opal";

/// Its own jobs.
const OPALS_OWN: &[u8] = b"B\x00\x14requesting-user-name\x00\x04opal\"\x00\x07my-jobs\x00\x01\x01";

/// Everybody's jobs that have ended, with their reasons.
const ALL_ENDED: &[u8] =
    b"B\x00\x14requesting-user-name\x00\x04opalD\x00\x0awhich-jobs\x00\x09completedD\x00\x14requested-attributes\x00\x11job-state-reasons";

/// The jobs of alice that have ended.
const ENDED: &[u8] =
    b"B\x00\x14requesting-user-name\x00\x05aliceD\x00\x0awhich-jobs\x00\x09completed";

/// How the reply begins that tells a success.
const SUCCESS: &[u8] = b"\x01\x01\x00\x00\x0a\x0b\x0c\x0d\x01G";

/// How the bare reply begins that tells client-error-not-possible.
const NOT_POSSIBLE: &[u8] = b"\x01\x01\x04\x04\x0a\x0b\x0c\x0d\x01G";

/// How the bare reply begins that tells client-error-not-found.
const NO_JOB: &[u8] = b"\x01\x01\x04\x06\x0a\x0b\x0c\x0d\x01G";

/// What the device is told of a report that was taken.
const TAKEN: &[u8] = b"\r\n\r\nok ";

/// How many calls are drawn from.
pub(super) const KINDS: usize = 51;

/// The calls that are drawn of the clients.
static CLIENT_ROWS: [Row; 22] = [
    (
        3,
        Call::Message(0x02, ALICE, b"hi"),
        SUCCESS,
        "alice prints",
    ),
    (
        1,
        Call::Message(0x02, PDF, b"%PDF"),
        SUCCESS,
        "alice prints a PDF document",
    ),
    (2, Call::Message(0x02, BOB, b"bob"), SUCCESS, "bob prints"),
    (
        1,
        Call::Message(0x04, ALICE, b""),
        SUCCESS,
        "alice asks whether she may print",
    ),
    (
        3,
        Call::Message(0x05, ALICE, b""),
        SUCCESS,
        "alice makes a job",
    ),
    (
        5,
        Call::OfJob(0x06, MORE, b"one"),
        JOB_ID,
        "a job gets a document",
    ),
    (
        5,
        Call::OfJob(0x06, LAST, b"second"),
        JOB_ID,
        "a job gets its last document",
    ),
    (
        1,
        Call::OfJob(0x08, ALICE, b""),
        SUCCESS,
        "alice cancels a job",
    ),
    (
        1,
        Call::Message(0x39, BOB, b""),
        SUCCESS,
        "bob cancels his jobs",
    ),
    (2, Call::OfJob(0x09, ALICE, b""), JOB_ID, "alice sees a job"),
    (
        2,
        Call::Message(0x0a, ALICE, b""),
        JOB_ID,
        "alice sees her jobs",
    ),
    (
        2,
        Call::Message(0x0a, ENDED, b""),
        JOB_ID,
        "alice sees her jobs that have ended",
    ),
    (
        1,
        Call::Message(0x0a, BOB, b""),
        JOB_ID,
        "bob sees his jobs",
    ),
    (
        1,
        Call::Message(0x0b, ALICE, b""),
        SUCCESS,
        "alice sees the printer",
    ),
    (
        2,
        Call::OfJob(0x0c, ALICE, b""),
        SUCCESS,
        "alice holds a job",
    ),
    (
        12,
        Call::OfJob(0x0d, ALICE, b""),
        SUCCESS,
        "alice releases a job",
    ),
    (
        3,
        Call::OfJob(0x0d, BOB, b""),
        SUCCESS,
        "bob releases a job",
    ),
    (
        2,
        Call::OfJob(0x0d, ALICE, b""),
        NOT_POSSIBLE,
        "a job can't be released",
    ),
    (
        1,
        Call::OfJob(0x09, BOB, b""),
        NO_JOB,
        "bob doesn't see another's job",
    ),
    (
        1,
        Call::Message(0x03, ALICE, b""),
        b"\x01\x01\x05\x01",
        "an operation isn't there",
    ),
    (
        1,
        Call::Stream(POST_JOB, PRINT_JOB_3_0),
        b"\x01\x01\x05\x03",
        "a version isn't spoken",
    ),
    (
        1,
        Call::Stream(POST_BROKEN_OFF, BROKEN_OFF),
        b"\x01\x01\x04\x00",
        "a message breaks off",
    ),
];

/// The calls that are drawn of the operator.
static OPERATOR_ROWS: [Row; 6] = [
    (
        1,
        Call::Message(0x02, OPAL, b"opal"),
        SUCCESS,
        "the operator prints",
    ),
    (
        2,
        Call::OfJob(0x08, OPAL, b""),
        SUCCESS,
        "the operator cancels a job",
    ),
    (
        1,
        Call::OfJob(0x09, OPAL, b""),
        JOB_ID,
        "the operator sees a job",
    ),
    (
        2,
        Call::Message(0x0a, OPAL, b""),
        JOB_ID,
        "the operator sees everybody's jobs",
    ),
    (
        2,
        Call::Message(0x0a, OPALS_OWN, b""),
        JOB_ID,
        "the operator sees its own jobs",
    ),
    (
        1,
        Call::Message(0x0a, ALL_ENDED, b""),
        b"job-canceled-by-operator",
        "the operator has canceled a job",
    ),
];

/// The calls that are drawn of the device, and those that are neither's.
static DEVICE_ROWS: [Row; 23] = [
    (12, Call::Report("start", 0), TAKEN, "a job begins"),
    (8, Call::Report("stop", 4), TAKEN, "the device stops"),
    (10, Call::Report("resume", 4), TAKEN, "the device goes on"),
    (6, Call::Report("count", 12), TAKEN, "pages are counted"),
    (4, Call::Report("done", 20), TAKEN, "a job is printed"),
    (
        2,
        Call::Report("fail", 3),
        TAKEN,
        "the device fails at a job",
    ),
    (2, Call::Report("halt", 3), TAKEN, "a job is halted"),
    (
        2,
        Call::Report("start", 0),
        b"refused 3 state",
        "a job can't begin",
    ),
    (
        1,
        Call::Report("begin", 0),
        b"refused 1 syntax",
        "a line is no report",
    ),
    (
        3,
        Call::Stream(GET_QUEUE, b""),
        b" 1 1 2\n",
        "a job is in the queue",
    ),
    (
        6,
        Call::Document(1),
        b"\r\n\r\nhi",
        "the device gets a document",
    ),
    (
        1,
        Call::Document(1),
        b"HTTP/1.1 404 Not Found\r\n",
        "a document isn't there",
    ),
    (
        1,
        Call::Document(2),
        b"HTTP/1.1 404 Not Found\r\n",
        "a second document isn't there",
    ),
    (
        1,
        Call::Stream(b"a b c d\r\n\r\n", b""),
        b"HTTP/1.1 400 Bad Request\r\n",
        "a head can't be read",
    ),
    (
        1,
        Call::Stream(POST_CHUNKED, b"zz\r\n"),
        b"HTTP/1.1 400 Bad Request\r\n",
        "chunks can't be read",
    ),
    (
        1,
        Call::Stream(b"PUT /nothing HTTP/1.1\r\n\r\n", b""),
        b"HTTP/1.1 404 Not Found\r\n",
        "a target has no route",
    ),
    (
        1,
        Call::Stream(b"HEAD /device/queue HTTP/1.1\r\n\r\n", b""),
        b"HTTP/1.1 405 Method Not Allowed\r\n",
        "a method isn't the route's",
    ),
    (
        1,
        Call::Stream(b"POST /ipp/print HTTP/1.1\r\n\r\n", b""),
        b"HTTP/1.1 411 Length Required\r\n",
        "a body has no length",
    ),
    (
        1,
        Call::Stream(POST_WAITING, b"1000001\r\n"),
        b"HTTP/1.1 413 Payload Too Large\r\n",
        "a chunk has too many bytes",
    ),
    (
        1,
        Call::Stream(
            b"POST /ipp/print HTTP/1.1\r\nContent-Type: text/plain\r\nContent-Length: 7\r\n\r\n",
            b"",
        ),
        b"HTTP/1.1 415 Unsupported Media Type\r\n",
        "a body has another type",
    ),
    (
        1,
        Call::Fields(65),
        b"HTTP/1.1 431 Request Header Fields Too Large\r\n",
        "a head has too many fields",
    ),
    (
        1,
        Call::Fields(64),
        b"HTTP/1.1 200 OK\r\n",
        "a head has as many fields as it may",
    ),
    (1, Call::Stream(POST_JOB, b""), b"", "a connection is cut"),
];

/// The calls that are drawn of the clients. They are given apart from the others, since one function that names the literals of all rows takes the prover four times as long.
pub(super) fn client_rows() -> &'static [Row] {
    &CLIENT_ROWS
}

/// The calls that are drawn of the operator.
pub(super) fn operator_rows() -> &'static [Row] {
    &OPERATOR_ROWS
}

/// The calls that are drawn of the device, and those that are neither's.
pub(super) fn device_rows() -> &'static [Row] {
    &DEVICE_ROWS
}

/// How often they are drawn, all of them.
pub(super) const ALL_WEIGHTS: u32 = 130;

/// What is asked of the queue as a whole.
pub(super) const LOOKS: [Call; 7] = [
    Call::Message(0x0a, OPAL, b""),
    Call::Message(0x0a, OPALS_OWN, b""),
    Call::Message(0x0a, ALL_ENDED, b""),
    Call::Stream(GET_QUEUE, b""),
    Call::Message(0x0a, ALICE, b""),
    Call::Message(0x0a, ENDED, b""),
    Call::Message(0x0a, BOB, b""),
];

/// What is asked about each job.
pub(super) const LOOKS_AT_JOB: [Call; 4] = [
    Call::OfJob(0x09, ALICE, b""),
    Call::OfJob(0x09, BOB, b""),
    Call::Document(1),
    Call::Document(2),
];

/// A POST of a body, by its length or in chunks of one byte.
fn post(
    alloc: Global,
    path: &str,
    kind: &str,
    body: &[u8],
    in_chunks: bool,
) -> Result<Vec<u8>, AllocError> {
    if in_chunks {
        let head = format!(in alloc;
            "POST {path} HTTP/1.1\r\nContent-Type: {kind}\r\nTransfer-Encoding: chunked\r\n\r\n"
        )?;
        return in_chunks_of_one_byte(alloc, head.as_bytes(), body);
    }
    let length = body.len();
    let head = format!(in alloc;
        "POST {path} HTTP/1.1\r\nContent-Type: {kind}\r\nContent-Length: {length}\r\n\r\n"
    )?;
    [head.as_bytes(), body].concat(alloc)
}

/// A POST of the message that these parts are.
fn post_message(alloc: Global, parts: &[&[u8]], in_chunks: bool) -> Result<Vec<u8>, AllocError> {
    let message = parts.concat(alloc)?;
    post(alloc, "/ipp/print", IPP, message.as_slice(), in_chunks)
}

/// A POST of a report of this kind.
fn post_report(alloc: Global, drawn: Drawn, kind: &str, count: u32) -> Result<Vec<u8>, AllocError> {
    let Drawn { job, sequence, .. } = drawn;
    let line = format!(in alloc; "{job} {sequence} {kind} {count}\n")?;
    post(
        alloc,
        "/device/report",
        TEXT,
        line.as_bytes(),
        drawn.in_chunks,
    )
}

/// A GET of a document.
fn get_document(alloc: Global, job: u32, number: u32) -> Result<Vec<u8>, AllocError> {
    let request = format!(in alloc; "GET /device/document/{job}/{number} HTTP/1.1\r\n\r\n")?;
    Vec::from_slice(alloc, request.as_bytes())
}

/// The bytes that are sent for a call.
pub(super) fn stream_of(alloc: Global, call: Call, drawn: Drawn) -> Result<Vec<u8>, AllocError> {
    let version = b"\x01\x01\x00".as_slice();
    let end = b"\x03".as_slice();
    let job = drawn.job.to_be_bytes();
    match call {
        Call::Stream(head, rest) => [head, rest].concat(alloc),
        Call::Fields(count) => filled(
            alloc,
            &[
                (b"GET /device/queue HTTP/1.1\r\n", 1),
                (b"a:b\r\n", count),
                (b"\r\n", 1),
            ],
        ),
        Call::Message(operation, attributes, document) => post_message(
            alloc,
            &[version, &[operation], ATTRIBUTES, attributes, end, document],
            drawn.in_chunks,
        ),
        Call::OfJob(operation, attributes, document) => post_message(
            alloc,
            &[
                version,
                &[operation],
                ATTRIBUTES,
                JOB_ID,
                &job,
                attributes,
                end,
                document,
            ],
            drawn.in_chunks,
        ),
        Call::Report(kind, count) => post_report(alloc, drawn, kind, count),
        Call::Document(number) => get_document(alloc, drawn.job, number),
    }
}
