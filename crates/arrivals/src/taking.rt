//! What reaches a queue is taken, one after another.
ghost use Rattle.std.specs.Prelude.{◌≡◌, All, IfOk, OnErr};
ghost use Rattle.std.specs.List.{AllByRecursion};
ghost use Rattle.std.specs.Io.KnownBytes.{Keeps};
ghost use Rattle.queue_core.specs.Limits.{IsMoment};
ghost use Rattle.queue_core.specs.World.{World};
ghost use Rattle.arrivals.specs.Books.{CameTo, HistoryOver, IsTakenOver, LeavesAtMostOneMore};
ghost use Rattle.arrivals.specs.Crash.{IsAskedBy, outcomes_of};
ghost use Rattle.arrivals.specs.Taken.{IsFaultless};
ghost use Rattle.arrivals.specs.declared.arrival.Arrived.TheVariants.{AccountFile, Connection, Line, Sweep};

use crate::arrival::{Arrival, Arrived, Outcome};
use device_lines::{lines_are_events, report};
use grants_csv::{files_are_events, import};
use http_front::{connections_are_runs, serve};
use queue_core::{QueueBook, run_keeps, sweep};
use queue_types::settings::Settings;
use std::alloc::{AllocError, Global};
use std::io::Write;

/// Serves a connection; what answers it is written.
fn take_connection<W: Write, B: QueueBook>(
    alloc: Global,
    book: &mut B,
    settings: &Settings,
    now: u32,
    stream: &[u8],
    writer: &mut W,
) -> Outcome
    requires { IsMoment now }
    ensures began { B.is_honest book.new → B.is_honest book.old }
    ensures taken { B.is_honest book.new → (w : World) → B.stands book.old w → settings.now ≡ w.settings
        → IsTakenOver B.QueueBook book.old book.new w now (Connection stream.entry) result (W.contents writer.old) (W.contents writer.new) }
    ensures live { B.is_honest book.new → B.is_live book.old → IsFaultless result → B.is_live book.new }
{
    connections_are_runs();
    let mut reader = stream;
    match serve(alloc, &mut reader, writer, book, settings, now) {
        Ok(served) => Outcome::Served(served),
        Err(fault) => Outcome::Broken(fault),
    }
}

/// Answers a line of the device.
fn take_line<B: QueueBook>(book: &mut B, now: u32, line: &[u8]) -> Outcome
    requires { IsMoment now }
    ensures began { B.is_honest book.new → B.is_honest book.old }
    ensures taken { B.is_honest book.new → (w : World) → B.stands book.old w → (v : _)
        → IsTakenOver B.QueueBook book.old book.new w now (Line line.entry) result v v }
    ensures live { B.is_honest book.new → B.is_live book.old → IsFaultless result → B.is_live book.new }
{
    lines_are_events();
    Outcome::Told(report(book, now, line))
}

/// Imports an account file.
fn take_file<B: QueueBook>(alloc: Global, book: &mut B, now: u32, file: &[u8]) -> Outcome
    requires { IsMoment now }
    ensures began { B.is_honest book.new → B.is_honest book.old }
    ensures taken { B.is_honest book.new → (w : World) → B.stands book.old w → (v : _)
        → IsTakenOver B.QueueBook book.old book.new w now (AccountFile file.entry) result v v }
    ensures live { B.is_honest book.new → B.is_live book.old → IsFaultless result → B.is_live book.new }
{
    files_are_events();
    match import(alloc, book, now, file) {
        Ok(imported) => Outcome::Imported(imported),
        Err(fault) => Outcome::Refused(fault),
    }
}

/// Ends the jobs that have expired at this moment.
fn take_sweep<B: QueueBook>(book: &mut B, now: u32) -> Outcome
    requires { IsMoment now }
    ensures began { B.is_honest book.new → B.is_honest book.old }
    ensures taken { B.is_honest book.new → (w : World) → B.stands book.old w → (v : _)
        → IsTakenOver B.QueueBook book.old book.new w now Sweep result v v }
    ensures live { B.is_honest book.new → B.is_live book.old → IsFaultless result → B.is_live book.new }
{
    match sweep(book, now) {
        Ok(ended) => Outcome::Swept(ended),
        Err(fault) => Outcome::Unswept(fault),
    }
}

/// Takes one thing.
fn take<W: Write, B: QueueBook>(
    alloc: Global,
    book: &mut B,
    settings: &Settings,
    arrival: Arrival<'_>,
    writer: &mut W,
) -> Outcome
    requires { IsMoment arrival.moment }
    ensures began { B.is_honest book.new → B.is_honest book.old }
    ensures taken { B.is_honest book.new → (w : World) → B.stands book.old w → settings.now ≡ w.settings
        → IsTakenOver B.QueueBook book.old book.new w arrival.entry.moment arrival.entry.what result (W.contents writer.old) (W.contents writer.new) }
    ensures live { B.is_honest book.new → B.is_live book.old → IsFaultless result → B.is_live book.new }
{
    match arrival.what {
        Arrived::Connection(stream) => {
            take_connection(alloc, book, settings, arrival.moment, stream, writer)
        }
        Arrived::Line(line) => take_line(book, arrival.moment, line),
        Arrived::AccountFile(file) => take_file(alloc, book, arrival.moment, file),
        Arrived::Sweep => take_sweep(book, arrival.moment),
    }
}

/// Takes a list of things, one after another, over any book of a queue with these settings: serves connections, answers lines of the device, imports
/// account files, ends jobs that have expired. What answers the connections is written, and what came of each thing is handed back in order.
///
/// The one error is want of memory, before anything is taken or written.
pub fn take_all<W: Write, B: QueueBook>(
    alloc: Global,
    book: &mut B,
    settings: &Settings,
    arrivals: &[Arrival<'_>],
    writer: &mut W,
) -> Result<Vec<Outcome>, AllocError>
    requires { All (λ a. IsMoment a.moment) arrivals.now }
    ensures began { B.is_honest book.new → B.is_honest book.old }
    // the promise of the whole
    ensures history { B.is_honest book.new → IfOk result (λ outcomes. (w : World) → B.stands book.old w → settings.now ≡ w.settings
        → HistoryOver B.QueueBook book.old book.new w arrivals.now outcomes.items (W.contents writer.old) (W.contents writer.new)) }
    // what shuts a book is told as a fault, or breaks a document off
    ensures live { B.is_honest book.new → B.is_live book.old → IfOk result (λ outcomes. AllByRecursion IsFaultless outcomes.items → B.is_live book.new) }
    // whatever it answers, a crash at any moment leaves the queue to which the arrivals brought the machine, or that queue after one event more: one of
    // them asked for that event at its moment and was told a fault of it, and the queue before it was the same already
    ensures crash { B.is_honest book.new → B.is_live book.old → (w : World) → B.stands book.old w → settings.now ≡ w.settings
        → LeavesAtMostOneMore B.QueueBook book.new w (CameTo w arrivals.now result) (IsAskedBy arrivals.now (outcomes_of result) w) }
    ensures err { OnErr result (book.new ≡ book.old) }
    ensures unwritten { OnErr result (Keeps (W.contents writer.old) (W.contents writer.new)) }
{
    run_keeps();
    let mut outcomes = Vec::with_capacity(alloc, arrivals.len())?;
    for arrival in arrivals {
        let outcome = take(alloc, book, settings, *arrival, writer);
        outcomes.push_reserved(outcome);
    }
    Ok(outcomes)
}
