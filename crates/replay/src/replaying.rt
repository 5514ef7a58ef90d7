//! A replay over any book: requests that stand on lines, and the lines that answer them.

ghost use Rattle.std.specs.Prelude.{◌≡◌, ◌≤◌, IfErr, IfOk};
ghost use Rattle.std.specs.Io.KnownBytes.{Appends, Keeps};
ghost use Rattle.queue_core.specs.World.{World};
ghost use Rattle.replay.specs.Books.{HasReplayed};
ghost use Rattle.replay.specs.Faults.{IsOfStream};
ghost use Rattle.replay.specs.Replay.{bad_line, first};
ghost use Rattle.replay.specs.Session.{state};
ghost use Rattle.replay.specs.Unread.{left};

use crate::context::Context;
use crate::fault::Fault;
use crate::lines::{Line, LineReader};
use crate::session::take_line;
use queue_core::QueueBook;
use queue_types::settings::Settings;
use std::alloc::Global;
use std::io::{Read, Write};

/// The moment before the first line that tells one.
const FIRST_MOMENT: u32 = 1;

/// Answers the lines of an input over a book, whose settings these are, until the input ends, and gives the program's exit
/// status: 0, or 1 at a bad line: one that is of no form, or an `ipp` line that is too long or whose digits stand for no message of
/// at most 16,777,216 bytes. It is answered by `bad line K`, where lines count from 1, and none behind it is answered. A `dev` or
/// `grant` line that is too long is answered for what is kept of it. Answers are flushed before the program waits for more of the
/// input. A fault of the book is told in the answer to its line and ends nothing: a replay ends by a fault only where there was no
/// memory or a stream failed.
pub fn replay_over<R: Read, W: Write, B: QueueBook>(
    alloc: Global,
    input: &mut R,
    output: &mut W,
    book: &mut B,
    settings: &Settings,
) -> Result<u8, Fault>
    ensures began { B.is_honest book.new → B.is_honest book.old }
    ensures status { IfOk result (λ status. status ≤ 1) }
    ensures answered { B.is_honest book.new → IfOk result (λ status. (w : World) → B.stands book.old w → settings.now ≡ w.settings
        → HasReplayed (R.remaining input.old) (first w) status (B.stands book.new) (W.contents output.old) (W.contents output.new)) }
    ensures failed { IfErr result IsOfStream }
{
    let mut lines = LineReader::new(alloc)?;
    let mut line = Line::new(alloc);
    let first = Context {
        alloc,
        settings,
        now: FIRST_MOMENT,
    };
    answer_lines(first, book, input, output, &mut lines, &mut line)
}

/// Answers the lines that are left. The line is room for each.
fn answer_lines<R: Read, W: Write, B: QueueBook>(
    first: Context<'_>,
    book: &mut B,
    input: &mut R,
    output: &mut W,
    lines: &mut LineReader,
    line: &mut Line,
) -> Result<u8, Fault>
    ensures began { B.is_honest book.new → B.is_honest book.old }
    ensures status { IfOk result (λ status. status ≤ 1) }
    ensures answered { B.is_honest book.new → IfOk result (λ status. (w : World) → B.stands book.old w → first.entry.settings.now ≡ w.settings
        → HasReplayed (left lines.old (R.remaining input.old)) (state first.entry.now w) status (B.stands book.new)
        (W.contents output.old) (W.contents output.new)) }
    ensures failed { IfErr result IsOfStream }
{
    let mut now = first.now;
    for number in 1..u64::MAX {
        if !lines.next_line(input, output, line)? {
            return end(output);
        }
        match take_line(first.at(now), book, line, output)? {
            Some(next) => now = next,
            None => return end_at_bad_line(output, number),
        }
    }
    // It can't come: the reads that are allowed bring fewer bytes than so many lines have.
    Err(Fault::Io)
}

/// Ends a replay all of whose lines are answered: flushes what was written, and gives the exit status, 0.
fn end<W: Write>(output: &mut W) -> Result<u8, Fault>
    ensures ended { IfOk result (λ status. (status ≡ 0) × Keeps (W.contents output.old) (W.contents output.new)) }
    ensures failed { IfErr result IsOfStream }
{
    output.flush()?;
    Ok(0)
}

/// Ends a replay at a bad line: writes which line it is, at once, and gives the exit status, 1.
fn end_at_bad_line<W: Write>(output: &mut W, number: u64) -> Result<u8, Fault>
    ensures ended { IfOk result (λ status. (status ≡ 1) × Appends (W.contents output.old) (W.contents output.new) (bad_line number)) }
    ensures failed { IfErr result IsOfStream }
{
    writeln!(output, "bad line {number}")?;
    output.flush()?;
    Ok(1)
}
