//! The lines of an input.

ghost use Rattle.std.specs.Prelude.{◌≡◌, ◌+◌, ◌<◌, ◌≤◌, ◌++◌, ◌∷◌, ℕ, List, [], length, vec_len, drop, take, IfSome, IfNone, IfErr, IfOk, OnOk, OnErr};
ghost use Rattle.std.specs.Bool.{MatchBool, OnFalse};
ghost use Rattle.std.specs.Io.KnownBytes.{Consumes, IsAtEnd, Keeps};
ghost use Rattle.replay.specs.Faults.{IsOfStream};
ghost use Rattle.replay.specs.Line.{GivesLine, IsFrontOf, IsOneLine, Lengthens, LosesPiece};
ghost use Rattle.replay.specs.Unread.{left};

use crate::fault::Fault;
use crate::hexadecimal::MOST_MESSAGE_BYTES;
use memchr::memchr;
use std::alloc::{AllocError, Global};
use std::io;
use std::io::{ErrorKind, Read, Write};
use std::marker::Model;

/// The most bytes of a line that are kept, 33,554,436: what a line with the longest message has, two digits a byte.
pub(crate) const MOST_LINE_BYTES: usize = b"ipp ".len() + 2 * MOST_MESSAGE_BYTES;

/// How many times an input is read at most. After that it ends as by a read that fails.
pub(crate) const MOST_READS: u32 = u32::MAX;

/// How many bytes a read may give.
const BUFFER: usize = 65_536;

/// A line without its line feed.
#[derive(Drop)]
pub(crate) struct Line {
    /// Its first bytes, at most [`MOST_LINE_BYTES`].
    pub bytes: Vec<u8>,
    /// Whether it has more bytes than those.
    pub is_cut: bool,
}

impl Line {
    /// The empty line. It takes no memory.
    pub fn new(alloc: Global) -> Line
        ensures { IsFrontOf [] result }
    {
        Line {
            bytes: Vec::new(alloc),
            is_cut: false,
        }
    }

    fn clear(&mut self)
        ensures { IsFrontOf [] self.new }
    {
        self.bytes.clear();
        self.is_cut = false;
    }

    /// Adds a piece at the end, as far as it is kept.
    fn push(&mut self, piece: &[u8]) -> Result<(), AllocError>
        ensures { OnOk result (Lengthens piece.now self.old self.new) }
    {
        let room = MOST_LINE_BYTES.saturating_sub(self.bytes.len());
        let kept = piece.len().min(room);
        self.bytes.extend_from_slice(&piece[..kept])?;
        self.is_cut |= kept < piece.len();
        Ok(())
    }
}

/// Reads the lines of an input through a buffer of its own, and counts its reads.
#[derive(Drop)]
pub(crate) struct LineReader {
    buffer: Vec<u8>,
    start: usize,
    end: usize,
    reads: u32,
}

impl Model for LineReader {
    ghost use Rattle.std.specs.Prelude.{◌≡◌, ◌≤◌, slice_range, vec_len};
    ghost use Rattle.replay.specs.Unread.{Unread};

    ghost Value = { Unread };

    ghost view = { λ r. record { come = slice_range r.buffer.items r.start r.end; reads = r.reads } };

    ghost invariant = { λ r. (r.start ≤ r.end) × (r.end ≤ vec_len r.buffer) × (vec_len r.buffer ≡ 65536) };
}

impl LineReader {
    /// A reader of an input that was not read yet.
    pub fn new(alloc: Global) -> Result<LineReader, AllocError>
        ensures { IfOk result (λ r. (r.come ≡ []) × (r.reads ≡ 0)) }
    {
        Ok(LineReader {
            buffer: vec![in alloc; 0; BUFFER]?,
            start: 0,
            end: 0,
            reads: 0,
        })
    }

    /// Reads the next line, and says whether there is one. A last line without a line feed is one
    /// too, unless it is empty. Before each read the writer is flushed, so that whoever waits for
    /// its text has it. A read that was interrupted is tried again. After a fault what was read of
    /// the line is lost.
    pub fn next_line<R: Read, W: Write>(
        &mut self,
        input: &mut R,
        tied: &mut W,
        line: &mut Line,
    ) -> Result<bool, Fault>
        ensures given { IfOk result (λ is_there. MatchBool is_there
            (GivesLine (left self.old (R.remaining input.old)) (left self.new (R.remaining input.new)) line.new)
            (IsAtEnd (left self.old (R.remaining input.old)))) }
        ensures counted { (self.old.reads ≤ self.new.reads) × (self.new.reads ≤ 4294967295) }
        ensures flushed { Keeps (W.contents tied.old) (W.contents tied.new) }
        ensures failed { IfErr result IsOfStream }
    {
        line.clear();
        'pieces: loop {
            if self.take_piece(line)? {
                return Ok(true);
            }
            tied.flush()?;
            if !self.fill(input)? {
                return Ok(!line.bytes.is_empty());
            }
        }
    }

    /// Moves what has come of a line to the line, and says whether its line feed has come.
    fn take_piece(&mut self, line: &mut Line) -> Result<bool, AllocError>
        ensures taken { IfOk result (λ is_ended. (piece : List ℕ) × IsOneLine piece
            × Lengthens piece line.old line.new × LosesPiece is_ended piece self.old.come self.new.come) }
        ensures reads { (self.new.reads ≡ self.old.reads) × (self.new.reads ≤ 4294967295) }
    {
        let come = &self.buffer.as_slice()[self.start..self.end];
        match feed_place(come) {
            Some(place) => {
                line.push(&come[..place])?;
                self.start += place + 1;
                Ok(true)
            }
            None => {
                line.push(come)?;
                self.start = self.end;
                Ok(false)
            }
        }
    }

    /// Reads once, where nothing is left of what had come, and says whether there may be more.
    fn fill<R: Read>(&mut self, input: &mut R) -> Result<bool, Fault>
        requires { self.old.come ≡ [] }
        ensures kept { Keeps (left self.old (R.remaining input.old)) (left self.new (R.remaining input.new)) }
        ensures end { IfOk result (λ is_more. OnFalse is_more ((self.new.come ≡ []) × IsAtEnd (R.remaining input.new))) }
        ensures counted { OnOk result (self.new.reads ≡ self.old.reads + 1) }
        ensures few { (self.old.reads ≤ self.new.reads) × (self.new.reads ≤ 4294967295) }
        ensures failed { IfErr result IsOfStream }
    {
        if self.reads == MOST_READS {
            return Err(Fault::Io);
        }
        self.reads += 1;
        self.start = 0;
        self.end = 0;
        match read_into(input, &mut self.buffer) {
            Ok(count) => {
                self.end = count;
                Ok(count > 0)
            }
            Err(error) if error.kind() == ErrorKind::Interrupted => Ok(true),
            Err(error) => Err(Fault::from(error)),
        }
    }
}

/// Reads once over the whole buffer, and says how many bytes came.
fn read_into<R: Read>(input: &mut R, buffer: &mut Vec<u8>) -> io::Result<usize>
    ensures size { vec_len buffer.new ≡ vec_len buffer.old }
    ensures bound { IfOk result (λ count. count ≤ vec_len buffer.new) }
    ensures ok { IfOk result (λ count. Consumes (R.remaining input.old) (R.remaining input.new) (take count buffer.new.items)) }
    ensures end { IfOk result (λ count. count ≡ 0 → 0 < vec_len buffer.old → IsAtEnd (R.remaining input.new)) }
    ensures err { OnErr result (Keeps (R.remaining input.old) (R.remaining input.new)) }
{
    input.read(buffer.as_mut_slice())
}

/// Where the first line feed stands.
fn feed_place(come: &[u8]) -> Option<usize>
    ensures none { IfNone result (IsOneLine come.now) }
    ensures front { IfSome result (λ place. IsOneLine (take place come.now)) }
    ensures feed { IfSome result (λ place. (place < length come.now)
        × (come.now ≡ take place come.now ++ 10 ∷ drop (place + 1) come.now)) }
{
    memchr(b'\n', come)
}
