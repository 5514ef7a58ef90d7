//! One line of the device, from its bytes to those of its answer.
ghost use Rattle.std.specs.Prelude.{◌≡◌, ◌⊎◌, Err, Ok, IfOk, IsErr, OnOk, OnErr, false, true};
ghost use Rattle.std.specs.Bool.{OnFalse, OnTrue};
ghost use Rattle.queue_types.specs.Event.{tell};
ghost use Rattle.queue_types.specs.declared.event.Report.{Report};
ghost use Rattle.queue_core.specs.Crash.{Carries, Leaves};
ghost use Rattle.queue_core.specs.Limits.{IsMoment, IsReport, IsReportReply};
ghost use Rattle.queue_core.specs.Machine.{step as step_of};
ghost use Rattle.queue_core.specs.World.{World};
ghost use Rattle.device_lines.specs.Lines.{Reads};
ghost use Rattle.device_lines.specs.Reports.{AnswersLine, AnswersReport, BringsLine, IsReplyToReport, IsReported, IsUntaken, ToldBy, fault_line, is_fault_line, unread_line};
ghost use Rattle.device_lines.specs.declared.line.LineFault.{LineFault};

use crate::line::read_report;
use crate::report_answer::ReportAnswer;
use queue_core::{BookFault, QueueBook};
use queue_types::event::{Event, Reply, Report};

/// Answers one line of the device at a moment from 1 to 2,147,483,647: it reads the line, and takes one step of the machine on its report. A
/// line that is no report is refused and changes nothing; the book never sees it. A fault of the book is
/// answered by `refused 6 fault`, which stands for nothing else, and changes nothing. Any other answer to a report is
/// one that the machine may give to a report of its job, whatever the book is. It takes no memory of its own.
pub fn report<B: QueueBook>(book: &mut B, now: u32, line: &[u8]) -> ReportAnswer
    requires moment { IsMoment now }
    ensures began { B.is_honest book.new → B.is_honest book.old }

    // What is answered, and what becomes of the queue: a crash at any moment leaves the report, or leaves it out; which of the two is open only behind a
    // fault. This is the whole of it: the next three clauses are read off it.
    ensures crash { B.is_honest book.new → (w : World) → B.stands book.old w
        → (after : World) × BringsLine w now line.now after result × B.stands book.new after
        × Carries (B.crash_leaves book.old) (B.crash_leaves book.new) (ToldBy line.now) (is_fault_line result ≡ true) now w after }
    ensures answers { B.is_honest book.new → (w : World) → B.stands book.old w
        → (after : World) × AnswersLine w now line.now after result × B.stands book.new after }
    ensures told { B.is_honest book.new → OnFalse (is_fault_line result) ((w : World) → B.stands book.old w
        → (after : World) × IsReported w now line.now after result × B.stands book.new after) }
    ensures failed { B.is_honest book.new → OnTrue (is_fault_line result) ((w : World) → B.stands book.old w
        → IsUntaken line.now result × B.stands book.new w) }
    // What shuts a book is answered as a fault.
    ensures live { B.is_honest book.new → B.is_live book.old → is_fault_line result ≡ false → B.is_live book.new }

    // These hold on any book, also on one that is not honest.
    ensures unread { (f : LineFault) → Reads line.now (Err f) → (result ≡ unread_line f)
        × ((w : World) → B.stands book.old w → B.stands book.new w) }
    ensures unseen { (f : LineFault) → Reads line.now (Err f) → book.new ≡ book.old }
    ensures replies { (r : Report) → Reads line.now (Ok r) → (result ≡ fault_line) ⊎ IsReplyToReport r.job result }
{
    match read_report(line) {
        Ok(r) => match step(book, now, r) {
            Ok(answer) => answer,
            Err(_) => ReportAnswer::fault(),
        },
        Err(fault) => ReportAnswer::unread(fault),
    }
}

/// One step of the machine on a report, or a fault and no change.
fn step<B: QueueBook>(book: &mut B, now: u32, report: Report) -> Result<ReportAnswer, BookFault>
    requires moment { IsMoment now }
    requires report { IsReport report }
    ensures began { B.is_honest book.new → B.is_honest book.old }
    ensures answer { B.is_honest book.new → IfOk result (λ a. (w : World) → B.stands book.old w
        → AnswersReport report.job (step_of w now (tell report)).reply a) }
    ensures world { B.is_honest book.new → OnOk result ((w : World) → B.stands book.old w
        → B.stands book.new (step_of w now (tell report)).world) }
    ensures quiet { IfOk result (λ a. is_fault_line a ≡ false) }
    ensures live { B.is_honest book.new → OnOk result (B.is_live book.new) }
    ensures err { OnErr result ((w : World) → B.stands book.old w → B.stands book.new w) }
    ensures crash { B.is_honest book.new → OnErr result ((w v : World) → B.stands book.old w → B.crash_leaves book.old w v
        → (x : World) × B.crash_leaves book.new w x × Leaves (λ e. e ≡ tell report) (IsErr result) now w v w x) }
    // On any book, also on one that is not honest.
    ensures replies { IfOk result (λ a. IsReplyToReport report.job a) }
{
    let decision = book.decide(now, &Event::Report(report))?;
    let answer = answer_to(report.job, &decision.reply);
    book.apply(decision)?;
    Ok(answer)
}

/// What the device is answered where the machine replies so to its report of that job.
fn answer_to(job: u32, reply: &Reply) -> ReportAnswer
    requires { IsReportReply reply.now }
    ensures answer { AnswersReport job reply.now result }
    ensures quiet { is_fault_line result ≡ false }
{
    match reply {
        Reply::Told { state, count } => ReportAnswer::told(job, *state, *count),
        Reply::NotTold(refusal) => ReportAnswer::untold(*refusal),
        _ => unreachable!("no other reply is to a report"),
    }
}
