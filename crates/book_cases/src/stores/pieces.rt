//! Documents in pieces.

use crate::desk::book::StepBook;
use crate::desk::fault::StepFault;
use crate::desk::request::Request::{PrintThis, Release};
use crate::desk::step::Step::{Ask, Dev, Document, Fetch, Grant};
use crate::stores::queue::{empty_book, take_steps};
use crate::stores::tables::Tables;
use std::alloc::{AllocError, Global};
use std::test::Fail;

/// How many bytes a document has, in how many pieces it is kept, and the number and the length of the last one.
const LENGTHS: &[(usize, &str, &str)] = &[
    (1, "1|\n", "0|1|\n"),
    (65_535, "1|\n", "0|65535|\n"),
    (65_536, "1|\n", "0|65536|\n"),
    (65_537, "2|\n", "1|1|\n"),
    (131_073, "3|\n", "2|1|\n"),
    (16_777_073, "256|\n", "255|65393|\n"),
];

/// How many pieces there are.
const COUNT: &str = "SELECT count(*) FROM pieces";

/// The number and the length of the last one.
const LAST: &str = "SELECT piece, length(bytes) FROM pieces ORDER BY piece DESC LIMIT 1";

/// Bytes 0 to 250, again and again, so that pieces of a document which follow each other differ.
fn document_of(alloc: Global, length: usize) -> Result<Vec<u8>, AllocError> {
    (0..=250u8).cycle().take(length).collect(alloc)
}

/// A document of one job, whose device has begun, comes back from a book.
fn comes_back<B: StepBook>(alloc: Global, book: &mut B, document: &[u8]) -> Result<(), StepFault> {
    let steps = [
        Grant(b"f24,alice,30\n", Ok((1, 0))),
        Ask("alice", PrintThis(document), 0x0000),
        Ask("alice", Release(1), 0x0000),
        Dev("1 1 start 0", "ok 1 5 0"),
        Document(1, 1, Some(document.len() as u64)),
        Fetch(1, 1, document),
    ];
    take_steps(alloc, book, &steps)
}

/// A document of that length comes back from a book, which is closed.
fn keep(alloc: Global, length: usize) -> Result<Tables, Fail> {
    let mut book = empty_book(alloc)?;
    let document = document_of(alloc, length)?;
    comes_back(alloc, &mut book, document.as_slice())?;
    Ok(Tables::of(alloc, book))
}

/// A document of that length comes back, and is kept in so many pieces, of which this is the last.
fn keep_document(alloc: Global, length: usize, count: &str, last: &str) -> Result<(), Fail> {
    let mut tables = keep(alloc, length)?;
    tables.show(COUNT, count)?;
    tables.show(LAST, last)
}

#[test]
fn documents_of_many_lengths(rt: HostRuntime) -> Result<(), Fail> {
    for (length, count, last) in LENGTHS {
        keep_document(rt.alloc(), *length, count, last)?;
    }
    Ok(())
}
