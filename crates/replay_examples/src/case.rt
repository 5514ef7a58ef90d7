//! A worked example: the lines of a replay, and what they are answered.

use list_book::ListBook;
use queue_types::settings::Settings;
use replay::{Fault, replay_over, replay_settings};
use replay_in_memory::replay;
use std::alloc::Global;
use std::io;
use std::io::{Read, Write};

/// Where a replay keeps its queue.
#[derive(Clone, Copy)]
pub(crate) enum Book {
    /// In lists.
    Lists,
    /// In the tables of a store in memory.
    Tables,
}

/// Answers the lines of an input over an empty queue with these settings, in lists.
fn replay_in_lists<R: Read, W: Write>(
    alloc: Global,
    input: &mut R,
    output: &mut W,
    settings: &Settings,
) -> Result<u8, Fault> {
    let mut book = ListBook::new(alloc, settings.try_clone()?);
    replay_over(alloc, input, output, &mut book, settings)
}

impl Book {
    /// What it is called where an answer differs.
    pub(crate) fn name(self) -> &'static [u8] {
        match self {
            Book::Lists => b"lists",
            Book::Tables => b"tables",
        }
    }

    /// Answers the lines of an input over an empty queue.
    fn replay<R: Read, W: Write>(
        self,
        alloc: Global,
        input: &mut R,
        output: &mut W,
    ) -> Result<u8, Fault> {
        match self {
            Book::Lists => replay_in_lists(alloc, input, output, &replay_settings(alloc)?),
            Book::Tables => replay(alloc, input, output),
        }
    }
}

/// A worked example of a replay.
#[derive(Clone, Copy)]
pub(crate) struct Case<'a> {
    /// Its name, behind a space.
    pub name: &'a [u8],
    /// The lines of the replay.
    pub input: &'a [u8],
    /// The lines that are to answer them, and a line `status N`.
    pub wanted: &'a [u8],
}

impl<'a> Case<'a> {
    /// The case of a text that has its name up to a line feed, its lines up to a `=`, and behind the next line feed the
    /// lines that are wanted.
    pub(crate) fn read(text: &'a [u8]) -> Option<Case<'a>> {
        let (name, rest) = cut(text, b'\n')?;
        let (input, rest) = cut(rest, b'=')?;
        let (_, wanted) = cut(rest, b'\n')?;
        Some(Case {
            name,
            input,
            wanted,
        })
    }

    /// What a replay of the case over such a book writes where its input gives at most so many bytes at a time, and a line
    /// `status N`.
    pub(crate) fn outcome(&self, alloc: Global, book: Book, size: usize) -> Result<Vec<u8>, Fault> {
        let mut input = Pieces {
            rest: self.input,
            size,
        };
        let mut output = Vec::new(alloc);
        let status = book.replay(alloc, &mut input, &mut output)?;
        writeln!(output, "status {status}")?;
        Ok(output)
    }
}

/// What stands before the first such byte and what stands behind it, where there is one.
fn cut(text: &[u8], byte: u8) -> Option<(&[u8], &[u8])> {
    let place = text.iter().position(|other| *other == byte)?;
    Some((&text[..place], &text[place + 1..]))
}

/// Gives at most so many bytes at each read.
#[derive(Drop)]
struct Pieces<'a> {
    rest: &'a [u8],
    size: usize,
}

impl Read for Pieces<'_> {
    fn read(&mut self, buf: &mut [u8]) -> io::Result<usize> {
        let wanted = buf.len().min(self.size);
        self.rest.read(&mut buf[..wanted])
    }
}

/// The first line in which two texts differ, as it stands in each.
pub(crate) fn first_difference<'a>(
    wanted: &'a [u8],
    came: &'a [u8],
) -> Option<(&'a [u8], &'a [u8])> {
    wanted
        .split(|byte| *byte == b'\n')
        .zip(came.split(|byte| *byte == b'\n'))
        .find(|(one, other)| one != other)
}
