//! A queue in a book, and the connections that a test makes to it.

use crate::desk::books::{DeskBook, GRANT, grant_in};
use crate::desk::compare::{Mismatch, Place, Subject};
use crate::desk::connection::Wanted::Success;
use crate::desk::connection::{Connection, faultless, wanted_bytes};
use crate::desk::messages::{PRINT_JOB, job_reply};
use crate::desk::requests::{IPP, POST_JOB};
use crate::desk::streams::{AT_ONCE, TestReader, TestWriter, Way};
use http_front::{End, ServeFault, Served, serve};
use queue_core::QueueBook;
use queue_types::operators::operator_names;
use queue_types::settings::Settings;
use std::alloc::Global;
use std::cell::Cell;

/// What every connection and file comes at.
const MOMENT: u32 = 1;

/// A printer with an estimate of 20 pages, which keeps a held job for an hour and whose operator is opal.
pub(crate) fn settings(alloc: Global) -> Result<Settings, Mismatch> {
    let operators = operator_names(alloc, &["opal"])?;
    let settings = Settings::new(
        alloc,
        "ipp://localhost/ipp/print",
        "release",
        20,
        0,
        3600,
        operators,
    )?;
    Ok(settings)
}

/// The book of its empty queue.
pub(crate) fn new_book<B: DeskBook>(alloc: Global) -> Result<B, Mismatch> {
    B::empty(alloc, settings(alloc)?)
}

/// The bytes of a connection.
#[derive(Clone, Copy)]
pub(crate) struct Exchange<'a> {
    pub(crate) stream: &'a [u8],
    /// What a client is to get, as far as its writer takes it.
    pub(crate) answers: &'a [u8],
    /// What it comes to.
    pub(crate) outcome: Result<Served, ServeFault>,
    /// How many bytes at most are read of what has no end, or how often at most the end.
    pub(crate) past: usize,
}

/// A queue of a printer with an estimate of 20 pages, in a book. It keeps what first wasn't as it is to be.
#[derive(Drop)]
pub(crate) struct Queue<B: QueueBook> {
    alloc: Global,
    settings: Settings,
    book: B,
    subject: Subject,
    found: Result<(), Mismatch>,
}

impl<B: DeskBook> Queue<B> {
    /// An empty queue.
    pub(crate) fn new(alloc: Global) -> Result<Queue<B>, Mismatch> {
        Queue::over(alloc, new_book(alloc)?, B::subject())
    }

    /// A queue in which alice has 30 pages.
    pub(crate) fn granted(alloc: Global) -> Result<Queue<B>, Mismatch> {
        let mut queue = Queue::new(alloc)?;
        queue.found = grant_in(alloc, &mut queue.book, MOMENT, GRANT, 1);
        Ok(queue)
    }
}

impl<B: QueueBook + Drop> Queue<B> {
    /// The queue of a book of such a printer.
    pub(crate) fn over(alloc: Global, book: B, subject: Subject) -> Result<Queue<B>, Mismatch> {
        let settings = settings(alloc)?;
        Ok(Queue {
            alloc,
            settings,
            book,
            subject,
            found: Ok(()),
        })
    }

    /// The book, where all was as it is to be.
    pub(crate) fn into_book(self) -> Result<B, Mismatch> {
        let Queue {
            alloc: _,
            settings: _,
            book,
            subject: _,
            found,
        } = self;
        found?;
        Ok(book)
    }

    /// All was as it is to be.
    pub(crate) fn end(&self) -> Result<(), Mismatch> {
        self.found
    }

    /// Keeps what a comparison came to, if it is the first that failed.
    fn note(&mut self, came: Result<(), Mismatch>) {
        if self.found.is_ok() {
            self.found = came;
        }
    }

    /// Bytes come and go in this way. What is written before a read behind the last byte is all of the answers.
    pub(crate) fn exchange(&mut self, exchange: &Exchange<'_>, way: Way) {
        let written = Cell::new(0);
        let answers = exchange.answers.get(..way.room).unwrap_or(exchange.answers);
        let mut reader = TestReader::new(way, exchange.stream, answers.len(), &written);
        let mut writer = TestWriter::new(self.alloc, way, &written);
        let served = serve(
            self.alloc,
            &mut reader,
            &mut writer,
            &mut self.book,
            &self.settings,
            MOMENT,
        );
        let place = Place {
            subject: self.subject,
            most: way.read,
        };
        self.note(place.same_bytes(answers, writer.taken.as_slice()));
        self.note(place.same_outcome(exchange.outcome, served));
        self.note(place.is_so(reader.past <= exchange.past, "few reads"));
        self.note(place.is_so(!reader.is_early, "an answer before more is read"));
    }

    /// A connection comes in this way.
    pub(crate) fn take(&mut self, connection: &Connection<'_>, way: Way) {
        let stream = connection.stream.concat(self.alloc);
        let answers = wanted_bytes(self.alloc, connection.wanted);
        match (&stream, &answers) {
            (Ok(stream), Ok(answers)) => {
                let exchange = Exchange {
                    stream: stream.as_slice(),
                    answers: answers.as_slice(),
                    outcome: Ok(faultless(connection.acted, connection.end)),
                    past: 1,
                };
                self.exchange(&exchange, way);
            }
            _ => self.note(Err(Mismatch::Memory)),
        }
    }

    /// Connections come in this way, one after another.
    pub(crate) fn take_each(&mut self, connections: &[Connection<'_>], way: Way) {
        for connection in connections {
            self.take(connection, way);
        }
    }

    /// The next Print-Job gets this number, of 1 to 3.
    fn take_job(&mut self, number: u32) {
        let connection = Connection {
            stream: &[POST_JOB, PRINT_JOB],
            acted: 1,
            end: End::Closed,
            wanted: &[Success(IPP, job_reply(number))],
        };
        self.take(&connection, AT_ONCE)
    }

    /// It does, and all was as it is to be.
    pub(crate) fn end_at_job(&mut self, number: u32) -> Result<(), Mismatch> {
        self.take_job(number);
        self.end()
    }
}
