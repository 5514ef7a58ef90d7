//! What a line of a replay asks is done, over any book, and answered.

ghost use Rattle.std.specs.Prelude.{◌≡◌, ◌<◌, ◌≤◌, ◌++◌, ◌∷◌, [], Ok, IfErr, IfOk, IfNone, IfSome, OnErr, OnOk, codes, length};
ghost use Rattle.std.specs.Fmt.{decimal};
ghost use Rattle.std.specs.Bool.{OnFalse, OnTrue};
ghost use Rattle.std.specs.Io.KnownBytes.{Appends};
ghost use Rattle.device_lines.specs.Reports.{AnswersLine};
ghost use Rattle.grants_csv.specs.Fault.{code_of};
ghost use Rattle.ipp_ops.specs.Answer.{BringsReply, bytes_of};
ghost use Rattle.queue_core.specs.Limits.{IsMoment};
ghost use Rattle.queue_core.specs.World.{World};
ghost use Rattle.replay.specs.Books.{AnswersEach, AnswersEachWith};
ghost use Rattle.replay.specs.Faults.{IsOfStream};
ghost use Rattle.replay.specs.Replay.{IsBadLine, TakesLine};
ghost use Rattle.replay.specs.Session.{AnswersDigits, AnswersFile, AnswersMessage, AnswersSweep, IsNoMessage, file_of, import_line, state, sweep_line};

use crate::context::Context;
use crate::fault::Fault;
use crate::hexadecimal::{HexFault, put_hex, read_hex};
use crate::lines::Line;
use crate::request_line::RequestLine;
use device_lines::report;
use grants_csv::{ImportCause, ImportFault, Imported, import};
use ipp_ops::{Answer, TooShort, answer};
use queue_core::{BookFault, QueueBook, sweep};
use std::alloc::{AllocError, Global};
use std::io::Write;

/// Does what a line asks, writes what answers it, and tells the moment of the next line. There is none where the line is bad,
/// and then nothing happens.
pub(crate) fn take_line<B: QueueBook, W: Write>(
    context: Context<'_>,
    book: &mut B,
    line: &Line,
    output: &mut W,
) -> Result<Option<u32>, Fault>
    ensures began { B.is_honest book.new → B.is_honest book.old }
    ensures moment { IfOk result (λ next. IfSome next IsMoment) }
    ensures taken { B.is_honest book.new → IfOk result (λ next. IfSome next (λ moment.
        AnswersEachWith B.QueueBook W.contents book.old book.new output.old output.new context.entry.settings.now
        (λ w u text. TakesLine line.now (state context.entry.now w) (state moment u) text))) }
    ensures bad { IfOk result (λ next. IfNone next (IsBadLine line.now × (book.new ≡ book.old) × (output.new ≡ output.old))) }
    ensures failed { IfErr result IsOfStream }
{
    let Some(request) = RequestLine::read(line.bytes.as_slice()) else {
        return Ok(None);
    };
    match request {
        RequestLine::Now(moment) => Ok(Some(moment)),
        RequestLine::Ipp(digits) => {
            // other lines that are so long are refused by what is kept of them
            if line.is_cut {
                return Ok(None);
            }
            if answer_digits(context, book, digits, output)? {
                Ok(Some(context.now))
            } else {
                Ok(None)
            }
        }
        RequestLine::Dev(text) => {
            answer_device(context, book, text, output)?;
            Ok(Some(context.now))
        }
        RequestLine::Grant(row) => {
            import_row(context, book, row, output)?;
            Ok(Some(context.now))
        }
        RequestLine::Expire => {
            expire_jobs(context, book, output)?;
            Ok(Some(context.now))
        }
    }
}

/// Writes the line that answers the message of these digits, and says whether they stand for one. Else nothing happens.
fn answer_digits<B: QueueBook, W: Write>(
    context: Context<'_>,
    book: &mut B,
    digits: &[u8],
    output: &mut W,
) -> Result<bool, Fault>
    ensures began { B.is_honest book.new → B.is_honest book.old }
    ensures answered { B.is_honest book.new → IfOk result (λ is_message. OnTrue is_message
        (AnswersEachWith B.QueueBook W.contents book.old book.new output.old output.new context.entry.settings.now
        (λ w u text. AnswersDigits w context.entry.now digits.now u text))) }
    ensures refused { IfOk result (λ is_message. OnFalse is_message (IsNoMessage digits.now × (book.new ≡ book.old) × (output.new ≡ output.old))) }
    ensures failed { IfErr result IsOfStream }
{
    match read_hex(context.alloc, digits) {
        Ok(message) => {
            answer_message(context, book, message.as_slice(), output)?;
            Ok(true)
        }
        Err(HexFault::NotOfTheForm | HexFault::TooLong) => Ok(false),
        Err(HexFault::Memory) => Err(Fault::Memory),
    }
}

/// Writes the line that answers a message.
fn answer_message<B: QueueBook, W: Write>(
    context: Context<'_>,
    book: &mut B,
    message: &[u8],
    output: &mut W,
) -> Result<(), Fault>
    requires { length message.now ≤ 16777216 }
    ensures began { B.is_honest book.new → B.is_honest book.old }
    ensures answered { B.is_honest book.new → OnOk result
        (AnswersEachWith B.QueueBook W.contents book.old book.new output.old output.new context.entry.settings.now
        (λ w u text. AnswersMessage w context.entry.now message.now u text)) }
    ensures failed { IfErr result IsOfStream }
{
    match answered(context, book, message) {
        Ok(reply) => {
            output.write_all(b"ipp ")?;
            put_hex(output, reply.bytes())?;
            output.write_all(b"\n")?;
        }
        Err(TooShort) => output.write_all(b"ipp short\n")?,
    }
    Ok(())
}

/// The answer to a message.
fn answered<B: QueueBook>(
    context: Context<'_>,
    book: &mut B,
    message: &[u8],
) -> Result<Answer, TooShort>
    requires { length message.now ≤ 16777216 }
    ensures began { B.is_honest book.new → B.is_honest book.old }
    ensures reply { B.is_honest book.new → IfOk result (λ reply. (w : World) → B.stands book.old w → context.entry.settings.now ≡ w.settings
        → (u : World) × BringsReply w context.entry.now message.now u (bytes_of reply) × B.stands book.new u) }
    ensures headed { OnOk result (8 ≤ length message.now) }
    ensures short { OnErr result ((length message.now < 8) × ((w : World) → B.stands book.old w → B.stands book.new w)) }
{
    answer(context.alloc, book, context.settings, context.now, message)
}

/// Writes the answer to a line of the device.
fn answer_device<B: QueueBook, W: Write>(
    context: Context<'_>,
    book: &mut B,
    text: &[u8],
    output: &mut W,
) -> Result<(), Fault>
    ensures began { B.is_honest book.new → B.is_honest book.old }
    ensures answered { B.is_honest book.new → OnOk result
        (AnswersEach B.QueueBook W.contents book.old book.new output.old output.new
        (λ w u out. AnswersLine w context.entry.now (text.now ++ 10 ∷ []) u out)) }
    ensures failed { IfErr result IsOfStream }
{
    let line = ended_line(context.alloc, text)?;
    let answer = report(book, context.now, line.as_slice());
    output.write_all(answer.bytes())?;
    Ok(())
}

/// Imports the account file of one row, and writes what came of it.
fn import_row<B: QueueBook, W: Write>(
    context: Context<'_>,
    book: &mut B,
    row: &[u8],
    output: &mut W,
) -> Result<(), Fault>
    ensures began { B.is_honest book.new → B.is_honest book.old }
    ensures answered { B.is_honest book.new → OnOk result
        (AnswersEach B.QueueBook W.contents book.old book.new output.old output.new
        (λ w u text. AnswersFile w context.entry.now (file_of row.now) u text)) }
    ensures failed { IfErr result IsOfStream }
{
    let file = account_file(context.alloc, row)?;
    let answer = import(context.alloc, book, context.now, file.as_slice());
    tell_import(output, &answer)?;
    Ok(())
}

/// Ends the jobs that have expired, and writes the answer.
fn expire_jobs<B: QueueBook, W: Write>(
    context: Context<'_>,
    book: &mut B,
    output: &mut W,
) -> Result<(), Fault>
    ensures began { B.is_honest book.new → B.is_honest book.old }
    ensures answered { B.is_honest book.new → OnOk result
        (AnswersEach B.QueueBook W.contents book.old book.new output.old output.new
        (λ w u text. AnswersSweep w context.entry.now u text)) }
    ensures failed { IfErr result IsOfStream }
{
    let answer = sweep(book, context.now);
    tell_sweep(output, &answer)?;
    Ok(())
}

/// A line with its line feed.
fn ended_line(alloc: Global, text: &[u8]) -> Result<Vec<u8>, AllocError>
    ensures { IfOk result (λ line. line.items ≡ text.now ++ 10 ∷ []) }
{
    let mut line = Vec::from_slice(alloc, text)?;
    line.push(b'\n')?;
    Ok(line)
}

/// The account file of one row.
fn account_file(alloc: Global, row: &[u8]) -> Result<Vec<u8>, AllocError>
    ensures { IfOk result (λ file. file.items ≡ file_of row.now) }
{
    let mut file = Vec::from_slice(alloc, b"batch,account,pages\n".as_slice())?;
    file.extend_from_slice(row)?;
    file.push(b'\n')?;
    Ok(file)
}

/// Writes what came of an import.
fn tell_import<W: Write>(
    output: &mut W,
    answer: &Result<Imported, ImportFault>,
) -> Result<(), Fault>
    ensures told { OnOk result (Appends (W.contents output.old) (W.contents output.new) (import_line answer.now)) }
    ensures failed { IfErr result IsOfStream }
{
    match answer {
        Ok(n) => tell_added(output, *n),
        Err(fault) => tell_refused(output, fault.cause),
    }
}

/// Writes the answer to a sweep.
fn tell_sweep<W: Write>(output: &mut W, answer: &Result<u32, BookFault>) -> Result<(), Fault>
    ensures told { OnOk result (Appends (W.contents output.old) (W.contents output.new) (sweep_line answer.now)) }
    ensures failed { IfErr result IsOfStream }
{
    match answer {
        Ok(ended) => tell_expired(output, *ended),
        Err(_) => tell_unswept(output),
    }
}

fn tell_expired<W: Write>(output: &mut W, ended: u32) -> Result<(), Fault>
    ensures told { OnOk result (Appends (W.contents output.old) (W.contents output.new) (codes "expired " ++ decimal ended ++ 10 ∷ [])) }
    ensures failed { IfErr result IsOfStream }
{
    writeln!(output, "expired {ended}")?;
    Ok(())
}

fn tell_unswept<W: Write>(output: &mut W) -> Result<(), Fault>
    ensures told { OnOk result (Appends (W.contents output.old) (W.contents output.new) (codes "expire refused" ++ 10 ∷ [])) }
    ensures failed { IfErr result IsOfStream }
{
    output.write_all(b"expire refused\n")?;
    Ok(())
}

fn tell_added<W: Write>(output: &mut W, imported: Imported) -> Result<(), Fault>
    ensures told { OnOk result (Appends (W.contents output.old) (W.contents output.new) (import_line (Ok imported))) }
    ensures failed { IfErr result IsOfStream }
{
    let Imported { added, repeats } = imported;
    writeln!(output, "grant new {added} repeats {repeats}")?;
    Ok(())
}

fn tell_refused<W: Write>(output: &mut W, cause: ImportCause) -> Result<(), Fault>
    ensures told { OnOk result (Appends (W.contents output.old) (W.contents output.new) (codes "grant refused " ++ decimal (code_of cause) ++ 10 ∷ [])) }
    ensures failed { IfErr result IsOfStream }
{
    let code = cause.code();
    writeln!(output, "grant refused {code}")?;
    Ok(())
}
