//! What reaches a queue, and what comes of it.

use device_lines::ReportAnswer;
use grants_csv::{ImportFault, Imported};
use http_front::{ServeFault, Served};
use queue_core::BookFault;

/// What reaches a queue at a moment.
#[derive(Clone, Copy)]
pub struct Arrival<'a> {
    /// Seconds of the printer's up time, from 1 to 2,147,483,647. Moments need not rise.
    pub moment: u32,
    /// What comes then.
    pub what: Arrived<'a>,
}

/// What reaches a queue.
#[derive(Clone, Copy)]
pub enum Arrived<'a> {
    /// All that a client sends on a connection of HTTP/1.1.
    Connection(&'a [u8]),
    /// A line of the device, with its line feed.
    Line(&'a [u8]),
    /// An account file.
    AccountFile(&'a [u8]),
    /// Nothing but the moment: every job that has expired ends.
    Sweep,
}

/// What came of it.
#[derive(Drop)]
pub enum Outcome {
    /// The connection was served to its end.
    Served(Served),
    /// The connection broke off, as its answers could not be written or the book failed inside a document.
    Broken(ServeFault),
    /// What the device was answered.
    Told(ReportAnswer),
    /// How many rows of the account file were added, and how many are repeats.
    Imported(Imported),
    /// Why the account file was refused.
    Refused(ImportFault),
    /// A sweep, and the number of jobs that it ended.
    Swept(u32),
    /// A sweep during which the book failed: no job ended.
    Unswept(BookFault),
}
