//! Messages that are cut or malformed, and where.

use ipp_wire::{WireFault, read};
use std::alloc::Global;
use std::test::Fail;

/// The smallest Print-Job up to the end of its attributes: 142 bytes.
const BEGUN: &[u8] =
    b"\x01\x01\x00\x02\x00\x00\x00\x01\x01\x47\x00\x12attributes-charset\x00\x05utf-8\x48\x00\x1battributes-natural-language\x00\x02en\x45\x00\x0bprinter-uri\x00\x19ipp://localhost/ipp/print\x42\x00\x14requesting-user-name\x00\x05alice";

/// That end, and the document.
const END: &[u8] = b"\x03hi";

/// How many bytes the document has; or at which one the message is malformed, or none where it is too short to have a head.
type Told = Result<usize, Option<usize>>;

/// From which length of its front on, and up to which, this is told of the smallest Print-Job. A front is malformed where its
/// delimiter, an attribute or the end of the attributes begins that isn't whole.
static CUTS: [(usize, usize, Told); 10] = [
    (0, 7, Err(None)),
    (8, 8, Err(Some(8))),
    (9, 36, Err(Some(9))),
    (37, 70, Err(Some(37))),
    (71, 111, Err(Some(71))),
    (112, 141, Err(Some(112))),
    (142, 142, Err(Some(142))),
    (143, 143, Ok(0)),
    (144, 144, Ok(1)),
    (145, 145, Ok(2)),
];

/// The parts of messages, and where each message is malformed.
static MALFORMED: [(&[&[u8]], usize); 3] = [
    // a value of 32,768 bytes
    (
        &[
            b"\x01\x01\x00\x02\x00\x00\x00\x01\x01\x47\x00\x12attributes-charset\x80\x00",
            &[b'a'; 32_768],
            END,
        ],
        9,
    ),
    // a further value of no attribute
    (
        &[b"\x01\x01\x00\x02\x00\x00\x00\x01\x01\x21\x00\x00\x00\x00\x03"],
        9,
    ),
    // a job group with nine collections, one in another
    (
        &[
            BEGUN,
            b"\x02\x34\x00\x01a\x00\x00",
            b"\x34\x00\x00\x00\x00\x34\x00\x00\x00\x00\x34\x00\x00\x00\x00\x34\x00\x00\x00\x00",
            b"\x34\x00\x00\x00\x00\x34\x00\x00\x00\x00\x34\x00\x00\x00\x00\x34\x00\x00\x00\x00",
            END,
        ],
        184,
    ),
];

/// What is told of a message.
fn told(alloc: Global, message: &[u8]) -> Result<Told, WireFault> {
    match read(alloc, message) {
        Ok(view) => Ok(Ok(view.payload.len())),
        Err(WireFault::Short) => Ok(Err(None)),
        Err(WireFault::Malformed { at }) => Ok(Err(Some(at))),
        Err(fault) => Err(fault),
    }
}

/// This is told of a message.
fn is_told(alloc: Global, message: &[u8], wanted: Told) -> Result<(), Fail> {
    let came = told(alloc, message)?;
    if came == wanted {
        return Ok(());
    }
    Err(Fail::new(format_args!("{} bytes: {came:?}, wanted: {wanted:?}", message.len())))
}

/// This is told of the fronts of a message from one length up to another.
fn is_told_of_fronts(
    alloc: Global,
    message: &[u8],
    first: usize,
    last: usize,
    wanted: Told,
) -> Result<(), Fail> {
    for length in first..=last {
        is_told(alloc, message.get(..length).unwrap_or(b""), wanted)?;
    }
    Ok(())
}

#[test]
fn messages_that_are_cut(rt: HostRuntime) -> Result<(), Fail> {
    let whole = [BEGUN, END].concat(rt.alloc())?;
    for (first, last, wanted) in &CUTS {
        is_told_of_fronts(rt.alloc(), whole.as_slice(), *first, *last, *wanted)?;
    }
    Ok(())
}

#[test]
fn messages_that_are_malformed(rt: HostRuntime) -> Result<(), Fail> {
    for (parts, at) in &MALFORMED {
        let message = parts.concat(rt.alloc())?;
        is_told(rt.alloc(), message.as_slice(), Err(Some(*at)))?;
    }
    Ok(())
}
