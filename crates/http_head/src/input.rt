//! The input of a connection.
ghost use Rattle.std.specs.Prelude.{◌≡◌, ◌+◌, ◌<◌, ◌≤◌, [], length, IfOk};
ghost use Rattle.std.specs.Io.{StartsWith};
ghost use Rattle.std.specs.Io.KnownBytes.{Keeps, IsAtEnd};
ghost use Rattle.http_head.specs.Reads.{bytes_left, come, reader_of, reads_left, without_first};
ghost use Rattle.http_head.specs.Limits.{head_limit};

use crate::buffer::Buffer;
use crate::fault::ReadFault;
use crate::limits::{MOST_HEAD_BYTES, MOST_RAW_BYTES, MOST_REQUESTS};
use std::io::Read;

/// The most reads of a connection, 2,148,007,937: one more than its requests have bytes, those of a head and of a body in each.
/// A read takes at least one byte or is the last, and none is made where a request has as many bytes as it may have, so the
/// count never ends a connection. A read that is interrupted and tried again counts once.
const MOST_READS: u32 = MOST_REQUESTS * (MOST_HEAD_BYTES + MOST_RAW_BYTES) as u32 + 1;

/// The input of a connection: the bytes that have come and are not taken yet, the reader that more come from, and how many reads may
/// still be made.
#[derive(Drop)]
pub struct Input<R> {
    buffer: Buffer,
    reader: R,
    reads_left: u32,
}

impl<R: Read> Input<R> {
    /// Nothing has come.
    pub fn new(reader: R) -> Input<R>
        ensures empty { come result ≡ [] }
        ensures reader { reader_of result ≡ reader }
        ensures reads { reads_left result ≡ 2148007937 }
    {
        Input {
            buffer: Buffer::new(),
            reader,
            reads_left: MOST_READS,
        }
    }

    /// What has come.
    pub fn bytes(&self) -> &[u8]
        ensures value { result.now ≡ come self.now }
        ensures fits { length (come self.now) ≤ head_limit }
    {
        self.buffer.bytes()
    }

    /// Takes the first n bytes.
    pub fn take(&mut self, n: usize)
        requires { n ≤ length (come self.old) }
        ensures { self.new ≡ without_first n self.old }
    {
        self.buffer.take(n);
    }

    /// Reads once, and answers how many bytes came: none only at the end. There is room, as fewer than 16,384 are held. Past the most
    /// reads of a connection it fails.
    pub fn fill(&mut self) -> Result<usize, ReadFault>
        requires { length (come self.old) < head_limit }
        ensures kept { Keeps (bytes_left R.Read self.old) (bytes_left R.Read self.new) }
        ensures grows { IfOk result (λ n. length (come self.new) ≡ length (come self.old) + n) }
        ensures end { IfOk result (λ n. n ≡ 0 → (come self.new ≡ come self.old) × IsAtEnd (R.remaining (reader_of self.new))) }
        ensures front { StartsWith (come self.new) (come self.old) }
        ensures fits { length (come self.new) ≤ head_limit }
        ensures counted { IfOk result (λ n. reads_left self.new + 1 ≡ reads_left self.old) }
        ensures never_more { reads_left self.new ≤ reads_left self.old }
    {
        let Some(reads_left) = self.reads_left.checked_sub(1) else {
            return Err(ReadFault);
        };
        self.reads_left = reads_left;
        self.buffer.fill(&mut self.reader)
    }
}
