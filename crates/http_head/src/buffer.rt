//! The bytes of a connection that have come and are not taken yet.
ghost use Rattle.std.specs.Prelude.{◌≡◌, ◌+◌, ◌<◌, ◌≤◌, ℕ, List, [], length, take, drop, slice_range, IfOk, OnErr};
ghost use Rattle.std.specs.Io.{StartsWith};
ghost use Rattle.std.specs.Io.KnownBytes.{Consumes, Keeps, IsAtEnd};
ghost use Rattle.http_head.specs.Left.{left};
ghost use Rattle.http_head.specs.Limits.{head_limit};

use crate::fault::ReadFault;
use crate::limits::{MOST_HEAD_BYTES, MOST_TRIES};
use std::io::{ErrorKind, Read};
use std::marker::Model;

/// How many bytes it holds at most: as many as a head may have.
const CAPACITY: usize = MOST_HEAD_BYTES;

/// Bytes that have come. A contract sees them as a list.
#[derive(Drop)]
pub struct Buffer {
    bytes: [u8; CAPACITY],
    start: usize,
    end: usize,
}

impl Model for Buffer {
    ghost Value = { List ℕ };

    ghost view = { λ b. slice_range b.bytes b.start b.end };

    ghost invariant = { λ b. (b.start ≤ b.end) × (b.end ≤ head_limit) };
}

impl Buffer {
    /// Nothing has come.
    pub fn new() -> Buffer
        ensures { result ≡ [] }
    {
        Buffer {
            bytes: [0; CAPACITY],
            start: 0,
            end: 0,
        }
    }

    /// What has come.
    pub fn bytes(&self) -> &[u8]
        ensures value { result.now ≡ self.now }
        ensures fits { length self.now ≤ head_limit }
    {
        &self.bytes[self.start..self.end]
    }

    /// Takes the first n bytes.
    pub fn take(&mut self, n: usize)
        requires { n ≤ length self.old }
        ensures { self.new ≡ drop n self.old }
    {
        self.start += n;
    }

    /// Reads once, and answers how many bytes came: none only at the end. There is room, as fewer than 16,384 are held. A read that is
    /// interrupted is tried again.
    pub fn fill<R: Read>(&mut self, reader: &mut R) -> Result<usize, ReadFault>
        requires { length self.old < head_limit }
        ensures kept { Keeps (left self.old (R.remaining reader.old)) (left self.new (R.remaining reader.new)) }
        ensures grows { IfOk result (λ n. length self.new ≡ length self.old + n) }
        ensures end { IfOk result (λ n. n ≡ 0 → (self.new ≡ self.old) × IsAtEnd (R.remaining reader.new)) }
        ensures front { StartsWith self.new self.old }
        ensures fits { length self.new ≤ head_limit }
    {
        self.end = pack(&mut self.bytes, self.start, self.end);
        self.start = 0;
        let n = read_at(reader, &mut self.bytes, self.end)?;
        self.end += n;
        Ok(n)
    }
}

/// Moves these bytes to the front, and answers where they end.
fn pack(bytes: &mut [u8], start: usize, end: usize) -> usize
    requires ordered { start ≤ end }
    requires in_range { end ≤ length bytes.old }
    ensures size { result + start ≡ end }
    ensures front { take result bytes.new ≡ slice_range bytes.old start end }
{
    bytes.copy_within(start..end, 0);
    end - start
}

/// Reads once into the bytes from this place on.
fn read_at<R: Read>(reader: &mut R, bytes: &mut [u8], at: usize) -> Result<usize, ReadFault>
    requires { at ≤ length bytes.old }
    ensures within { IfOk result (λ n. at + n ≤ length bytes.new) }
    ensures got { IfOk result (λ n. Consumes (R.remaining reader.old) (R.remaining reader.new) (slice_range bytes.new at (at + n))) }
    ensures kept { take at bytes.new ≡ take at bytes.old }
    ensures end { IfOk result (λ n. n ≡ 0 → at < length bytes.old → IsAtEnd (R.remaining reader.new)) }
    ensures err { OnErr result (Keeps (R.remaining reader.old) (R.remaining reader.new)) }
{
    read_once(reader, &mut bytes[at..])
}

/// Reads once. A read that is interrupted is tried again.
fn read_once<R: Read>(reader: &mut R, bytes: &mut [u8]) -> Result<usize, ReadFault>
    ensures within { IfOk result (λ n. n ≤ length bytes.new) }
    ensures got { IfOk result (λ n. Consumes (R.remaining reader.old) (R.remaining reader.new) (take n bytes.new)) }
    ensures end { IfOk result (λ n. n ≡ 0 → 0 < length bytes.old → IsAtEnd (R.remaining reader.new)) }
    ensures err { OnErr result (Keeps (R.remaining reader.old) (R.remaining reader.new)) }
{
    'tries: for _ in 0..MOST_TRIES {
        match reader.read(bytes) {
            Ok(n) => return Ok(n),
            Err(error) if error.kind() == ErrorKind::Interrupted => {}
            Err(_) => return Err(ReadFault),
        }
    }
    Err(ReadFault)
}
