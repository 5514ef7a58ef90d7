//! Cases that are run over each book.

use crate::case::{Book, Case, first_difference};
use replay::Fault;
use std::alloc::Global;
use std::io::Write;

/// The books that a case is run over.
const BOOKS: [Book; 2] = [Book::Lists, Book::Tables];

/// How many bytes the input of a replay gives at a time: one, or all that there are room for.
const SIZES: [usize; 2] = [1, usize::MAX];

/// Runs the cases of a text, each behind a `#`, and says whether all are answered as they are to be: a line `ok NAME` of each
/// that is goes to the output, and how a case differs to the complaints.
pub fn run_cases<O: Write, E: Write>(
    alloc: Global,
    text: &[u8],
    output: &mut O,
    complaints: &mut E,
) -> Result<bool, Fault> {
    let mut are_well = true;
    for part in text.split(|byte| *byte == b'#').skip(1) {
        are_well &= run_case(alloc, part, output, complaints)?;
    }
    Ok(are_well)
}

/// Runs one case, and says whether it is answered as it is to be.
fn run_case<O: Write, E: Write>(
    alloc: Global,
    text: &[u8],
    output: &mut O,
    complaints: &mut E,
) -> Result<bool, Fault> {
    let Some(case) = Case::read(text) else {
        write_parts(complaints, &[b"no case: ".as_slice(), text])?;
        return Ok(false);
    };
    let mut is_well = true;
    for book in BOOKS {
        is_well &= run_over(alloc, &case, book, complaints)?;
    }
    if is_well {
        write_parts(output, &[b"ok".as_slice(), case.name, b"\n"])?;
    }
    Ok(is_well)
}

/// Runs one case over a book, and says whether it is answered as it is to be.
fn run_over<E: Write>(
    alloc: Global,
    case: &Case<'_>,
    book: Book,
    complaints: &mut E,
) -> Result<bool, Fault> {
    for size in SIZES {
        let came = case.outcome(alloc, book, size)?;
        if came.as_slice() != case.wanted {
            tell_difference(case, book, came.as_slice(), complaints)?;
            return Ok(false);
        }
    }
    Ok(true)
}

/// Writes the names of a case and of the book, and the first line that differs.
fn tell_difference<E: Write>(
    case: &Case<'_>,
    book: Book,
    came: &[u8],
    complaints: &mut E,
) -> Result<(), Fault> {
    let (wanted, other) = first_difference(case.wanted, came).unwrap_or((case.wanted, came));
    write_parts(
        complaints,
        &[b"differs over ".as_slice(), book.name(), b":"],
    )?;
    let parts = [
        case.name,
        b"\nwanted: ".as_slice(),
        wanted,
        b"\ncame:   ",
        other,
        b"\n",
    ];
    write_parts(complaints, &parts)
}

/// Writes texts, one behind the other.
fn write_parts<W: Write>(writer: &mut W, parts: &[&[u8]]) -> Result<(), Fault> {
    for part in parts {
        writer.write_all(part)?;
    }
    Ok(())
}
