//! Readers and writers that are slow, have no end, are interrupted, see what is written, or fail: how bytes come and go is data.
ghost use Rattle.std.specs.Io.{ReadsAtMost};

use std::alloc::Global;
use std::cell::Cell;
use std::io;
use std::io::{ErrorKind, Read, Write};

/// How many bytes a read gives at most.
pub(crate) const SPEEDS: [usize; 4] = [1, 2, 7, 4096];

/// The same where a stream is long: what is there of a head or a line is looked at anew behind each read.
const LONG_SPEEDS: [usize; 2] = [100, 4096];

/// The speeds at which a stream of so many bytes comes.
pub(crate) fn speeds_for(length: usize) -> &'static [usize] {
    if length < 8192 { &SPEEDS } else { &LONG_SPEEDS }
}

/// What a reader gives behind its bytes.
#[derive(Clone, Copy)]
pub(crate) enum Behind {
    /// The end.
    Nothing,
    /// This byte, for ever.
    Endless(u8),
    /// A failure.
    Failure,
}

/// How bytes come from a reader and go to a writer.
#[derive(Clone, Copy)]
pub(crate) struct Way {
    /// The most bytes of a read.
    pub(crate) read: usize,
    pub(crate) behind: Behind,
    /// The most bytes of a write.
    pub(crate) write: usize,
    /// How many bytes the writer takes in all, before it fails.
    pub(crate) room: usize,
    /// How often the writer can be flushed, before that fails.
    pub(crate) flushes: u32,
    /// The first read, the first write and each other one behind it are interrupted.
    pub(crate) is_interrupted: bool,
}

/// All bytes come and go at once.
pub(crate) const AT_ONCE: Way = Way {
    read: usize::MAX,
    behind: Behind::Nothing,
    write: usize::MAX,
    room: usize::MAX,
    flushes: u32::MAX,
    is_interrupted: false,
};

/// No line has room: the writer takes five bytes.
pub(crate) const NO_ROOM: Way = Way { room: 5, ..AT_ONCE };

/// The writer can't be flushed.
pub(crate) const NO_FLUSH: Way = Way {
    flushes: 0,
    ..AT_ONCE
};

/// A read gives at most so many bytes.
pub(crate) fn by(read: usize) -> Way {
    Way { read, ..AT_ONCE }
}

/// The ways in which a stream that isn't long comes.
pub(crate) static AT_EACH_SPEED: [Way; 4] = [
    Way { read: 1, ..AT_ONCE },
    Way { read: 2, ..AT_ONCE },
    Way { read: 7, ..AT_ONCE },
    Way {
        read: 4096,
        ..AT_ONCE
    },
];

/// Those in which a long one does.
pub(crate) static AT_LONG_SPEEDS: [Way; 2] = [
    Way {
        read: 100,
        ..AT_ONCE
    },
    Way {
        read: 4096,
        ..AT_ONCE
    },
];

/// A reader that gives bytes in its way, and sees how it is read.
#[derive(Drop)]
pub(crate) struct TestReader<'a> {
    way: Way,
    rest: &'a [u8],
    /// How many bytes its answers have.
    answers: usize,
    /// How many bytes are written.
    written: &'a Cell<usize>,
    /// How many times it was read.
    pub(crate) reads: usize,
    /// What was got behind its last byte: bytes of what has no end, or how often the end.
    pub(crate) past: usize,
    /// It was read behind its last byte before its answers were written.
    pub(crate) is_early: bool,
}

impl<'a> TestReader<'a> {
    /// One that gives these bytes, to which answers of so many bytes are to be written.
    pub(crate) fn new(
        way: Way,
        rest: &'a [u8],
        answers: usize,
        written: &'a Cell<usize>,
    ) -> TestReader<'a> {
        TestReader {
            way,
            rest,
            answers,
            written,
            reads: 0,
            past: 0,
            is_early: false,
        }
    }

    /// A read behind its bytes.
    fn read_past(&mut self, part: &mut [u8]) -> io::Result<usize>
        ensures { ReadsAtMost result part.new }
    {
        if let Behind::Endless(byte) = self.way.behind {
            part.fill(byte);
            self.past = self.past.saturating_add(part.len());
            return Ok(part.len());
        }
        self.is_early = self.is_early || self.written.get() < self.answers;
        self.past = self.past.saturating_add(1);
        match self.way.behind {
            Behind::Failure => Err(io::Error::other("broken")),
            _ => Ok(0),
        }
    }
}

impl Read for TestReader<'_> {
    fn read(&mut self, buf: &mut [u8]) -> io::Result<usize> {
        self.reads = self.reads.saturating_add(1);
        if self.way.is_interrupted && self.reads % 2 == 1 {
            return Err(io::Error::from(ErrorKind::Interrupted));
        }
        let most = buf.len().min(self.way.read);
        let part = &mut buf[..most];
        if self.rest.is_empty() {
            self.read_past(part)
        } else {
            self.rest.read(part)
        }
    }
}

/// A writer that takes bytes in its way, and tells how many are written.
#[derive(Drop)]
pub(crate) struct TestWriter<'a> {
    way: Way,
    pub(crate) taken: Vec<u8>,
    written: &'a Cell<usize>,
    writes: usize,
    flushes: u32,
}

impl<'a> TestWriter<'a> {
    /// One that has taken nothing.
    pub(crate) fn new(alloc: Global, way: Way, written: &'a Cell<usize>) -> TestWriter<'a> {
        TestWriter {
            way,
            taken: Vec::new(alloc),
            written,
            writes: 0,
            flushes: 0,
        }
    }
}

impl Write for TestWriter<'_> {
    fn write(&mut self, buf: &[u8]) -> io::Result<usize> {
        self.writes = self.writes.saturating_add(1);
        if self.way.is_interrupted && self.writes % 2 == 1 {
            return Err(io::Error::from(ErrorKind::Interrupted));
        }
        let room = self.way.room.saturating_sub(self.taken.len());
        let part = &buf[..buf.len().min(room).min(self.way.write)];
        if part.is_empty() || self.taken.extend_from_slice(part).is_err() {
            return Err(io::Error::other("no room"));
        }
        self.written.set(self.taken.len());
        Ok(part.len())
    }

    fn flush(&mut self) -> io::Result<()> {
        if self.flushes == self.way.flushes {
            return Err(io::Error::other("full"));
        }
        self.flushes = self.flushes.saturating_add(1);
        Ok(())
    }
}
