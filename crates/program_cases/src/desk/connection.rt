//! Connections by the bytes that a client sends and those that it is to get.

use http_front::{End, ServeCause, ServeFault, Served};
use std::alloc::{AllocError, Global};
use std::io;
use std::io::Write;

/// What a client is to get.
#[derive(Clone, Copy)]
pub(crate) enum Wanted<'a> {
    /// That it may send its body.
    Continue,
    /// A success: its media type and its content.
    Success(&'a str, &'a [u8]),
    /// So many of these.
    Successes(usize, &'a str, &'a [u8]),
    /// A success after which the connection ends.
    Last(&'a str, &'a [u8]),
    /// A refusal: its code and phrase, and what follows them up to `Content-Length`.
    Refusal(&'a str),
}

/// A connection, and what is wanted of it.
#[derive(Clone, Copy)]
pub(crate) struct Connection<'a> {
    /// The parts of its stream, one behind the other.
    pub(crate) stream: &'a [&'a [u8]],
    /// How many of its requests act.
    pub(crate) acted: u32,
    pub(crate) end: End,
    pub(crate) wanted: &'a [Wanted<'a>],
}

/// A connection comes to this end, so many of its requests act, and none meets a fault.
pub(crate) fn faultless(acted: u32, end: End) -> Served {
    Served {
        acted,
        faults: 0,
        end,
    }
}

/// A connection is broken off by this, so many of its requests have acted, and none met a fault.
pub(crate) fn broken_off(acted: u32, cause: ServeCause) -> ServeFault {
    ServeFault {
        acted,
        faults: 0,
        cause,
    }
}

/// The bytes of these parts, each so many times.
pub(crate) fn filled(alloc: Global, parts: &[(&[u8], usize)]) -> Result<Vec<u8>, AllocError> {
    let mut all = Vec::new(alloc);
    for (part, count) in parts {
        for _ in 0..*count {
            all.extend_from_slice(part)?;
        }
    }
    Ok(all)
}

/// A request of this head, with a body in chunks of one byte.
pub(crate) fn in_chunks_of_one_byte(
    alloc: Global,
    head: &[u8],
    body: &[u8],
) -> Result<Vec<u8>, AllocError> {
    let mut all = Vec::from_slice(alloc, head)?;
    for byte in body {
        all.extend_from_slice(&[b'1', b'\r', b'\n', *byte, b'\r', b'\n'])?;
    }
    all.extend_from_slice(b"0\r\n\r\n")?;
    Ok(all)
}

fn put_success(out: &mut Vec<u8>, kind: &str, content: &[u8], line: &str) -> io::Result<()> {
    let length = content.len();
    write!(
        out,
        "HTTP/1.1 200 OK\r\nContent-Type: {kind}\r\nContent-Length: {length}\r\n{line}\r\n"
    )?;
    out.write_all(content)
}

/// Adds so many successes.
fn put_successes(out: &mut Vec<u8>, count: usize, kind: &str, content: &[u8]) -> io::Result<()> {
    for _ in 0..count {
        put_success(out, kind, content, "")?;
    }
    Ok(())
}

/// Adds what a client is to get.
fn put_wanted(out: &mut Vec<u8>, wanted: Wanted<'_>) -> io::Result<()> {
    match wanted {
        Wanted::Continue => out.write_all(b"HTTP/1.1 100 Continue\r\n\r\n"),
        Wanted::Success(kind, content) => put_success(out, kind, content, ""),
        Wanted::Successes(count, kind, content) => put_successes(out, count, kind, content),
        Wanted::Last(kind, content) => put_success(out, kind, content, "Connection: close\r\n"),
        Wanted::Refusal(text) => write!(
            out,
            "HTTP/1.1 {text}\r\nContent-Length: 0\r\nConnection: close\r\n\r\n"
        ),
    }
}

/// The bytes that a client is to get.
pub(crate) fn wanted_bytes(alloc: Global, wanted: &[Wanted<'_>]) -> io::Result<Vec<u8>> {
    let mut out = Vec::new(alloc);
    for one in wanted {
        put_wanted(&mut out, *one)?;
    }
    Ok(out)
}
