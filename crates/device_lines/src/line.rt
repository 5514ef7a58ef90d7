//! A line in which the device reports of a job.
ghost use Rattle.std.specs.Prelude.{◌≡◌, ◌≢◌, ◌<◌, ◌≤◌, ◌^◌, ◌==◌, ◌↔◌, IsTrue, ◌++◌, ◌∷◌, ℕ, List, IfSome, IfNone, Ok, Err, decimal, not};
ghost use Rattle.std.specs.List.{AllPass};
ghost use Rattle.queue_core.specs.Limits.{IsReport};
ghost use Rattle.queue_types.specs.declared.event.Kind.{Kind};
ghost use Rattle.queue_types.specs.declared.event.Report.{Report};
ghost use Rattle.device_lines.specs.Forms.{report_of};
ghost use Rattle.device_lines.specs.Lines.{Reads, Spells, kind_word};

use itoa::Buffer;
use queue_types::event::{Kind, Report};
use queue_types::limits::{LAST_JOB_NUMBER, LAST_REPORT_NUMBER, MOST_PRINTED_PAGES};
use std::str;
use thiserror::Error;

/// The greatest number of ten digits.
const MOST_IN_TEN_DIGITS: u64 = 9_999_999_999;

/// Why a line is no report, by its number.
#[derive(Clone, Copy, Debug, PartialEq, Eq, Error)]
pub enum LineFault {
    /// It isn't of the form.
    #[error("the line is not of the form")]
    Syntax = 1,
    /// It is of the form, but the job or the sequence number isn't 1 to 2,147,483,647, or the count is over
    /// 100,000,000.
    #[error("a number is not within its limits")]
    Range = 4,
}

/// What a line of the form says, in numbers of up to ten digits.
#[derive(Clone, Copy)]
struct Form {
    job: u64,
    seq: u64,
    kind: Kind,
    count: u64,
}

/// Reads a line `JOB SEQ KIND COUNT` with single spaces and a line feed at its end. The numbers are 1 to 10
/// decimal digits without leading zeros, and KIND is start, stop, resume, count, done, fail or halt. It
/// takes no memory.
pub fn read_report(line: &[u8]) -> Result<Report, LineFault>
    ensures ok { (r : Report) → (result ≡ Ok r) ↔ Reads line.now (Ok r) }
    ensures syntax { (result ≡ Err LineFault.Syntax) ↔ Reads line.now (Err LineFault.Syntax) }
    ensures range { (result ≡ Err LineFault.Range) ↔ Reads line.now (Err LineFault.Range) }
{
    let form = read_form(line).ok_or(LineFault::Syntax)?;
    within(form).ok_or(LineFault::Range)
}

/// The report of that form, where its numbers are within the limits.
fn within(form: Form) -> Option<Report>
    ensures some { IfSome result (λ r. (r ≡ report_of form) × IsReport r) }
    ensures none { IfNone result (IsReport (report_of form) → ⊥) }
{
    Some(Report {
        job: number_within(form.job, 1, LAST_JOB_NUMBER)?,
        seq: number_within(form.seq, 1, LAST_REPORT_NUMBER)?,
        kind: form.kind,
        count: number_within(form.count, 0, MOST_PRINTED_PAGES)?,
    })
}

/// The number, where it is from the least to the last one.
fn number_within(n: u64, least: u32, last: u32) -> Option<u32>
    ensures some { IfSome result (λ m. (m ≡ n) × (least ≤ n) × (n ≤ last)) }
    ensures none { IfNone result (least ≤ n → n ≤ last → ⊥) }
{
    let n = u32::try_from(n).ok()?;
    if least <= n && n <= last {
        Some(n)
    } else {
        None
    }
}

/// What the line says, where it is of the form.
fn read_form(line: &[u8]) -> Option<Form>
    ensures some { IfSome result (λ f. Spells line.now (report_of f)) }
    ensures none { IfNone result ((r : Report) → Spells line.now r → ⊥) }
{
    let (job, rest) = number_before(line, b' ')?;
    let (seq, rest) = number_before(rest, b' ')?;
    let (kind, rest) = kind_before_space(rest)?;
    let (count, rest) = number_before(rest, b'\n')?;
    if !rest.is_empty() {
        return None;
    }
    Some(Form {
        job,
        seq,
        kind,
        count,
    })
}

/// The number that stands before the first such byte, and what stands after that.
fn number_before(bytes: &[u8], end: u8) -> Option<(u64, &[u8])>
    requires { end < 48 }
    ensures some { IfSome result (λ p. (p.0 < 10 ^ 10) × (bytes.now ≡ decimal p.0 ++ end ∷ p.1.now)) }
    ensures none { IfNone result ((n : ℕ) (rest : List ℕ) → n < 10 ^ 10 → bytes.now ≢ decimal n ++ end ∷ rest) }
{
    let (digits, rest) = cut_at(bytes, end)?;
    let n = read_number(digits)?;
    Some((n, rest))
}

/// The kind whose word stands before the first space, and what stands after that.
fn kind_before_space(bytes: &[u8]) -> Option<(Kind, &[u8])>
    ensures some { IfSome result (λ p. bytes.now ≡ kind_word p.0 ++ 32 ∷ p.1.now) }
    ensures none { IfNone result ((k : Kind) (rest : List ℕ) → bytes.now ≢ kind_word k ++ 32 ∷ rest) }
{
    let (word, rest) = cut_at(bytes, b' ')?;
    let kind = read_kind(word)?;
    Some((kind, rest))
}

/// What stands before the first such byte, and what stands after it.
fn cut_at(bytes: &[u8], end: u8) -> Option<(&[u8], &[u8])>
    ensures front { IfSome result (λ p. AllPass (λ b. not (b == end)) p.0.now) }
    ensures parts { IfSome result (λ p. bytes.now ≡ p.0.now ++ end ∷ p.1.now) }
    ensures none { IfNone result (AllPass (λ b. not (b == end)) bytes.now) }
{
    let place = bytes.iter().position(|b| *b == end)?;
    Some((&bytes[..place], &bytes[place + 1..]))
}

/// The number of these digits, one to ten of them without leading zeros.
fn read_number(digits: &[u8]) -> Option<u64>
    ensures some { IfSome result (λ n. (n < 10 ^ 10) × (digits.now ≡ decimal n)) }
    ensures none { IfNone result ((n : ℕ) → n < 10 ^ 10 → digits.now ≢ decimal n) }
{
    let text = str::from_utf8(digits).ok()?;
    let n = text.parse::<u64>().ok()?;
    if n <= MOST_IN_TEN_DIGITS && is_decimal(text, n) {
        Some(n)
    } else {
        None
    }
}

/// The text is the number without leading zeros.
fn is_decimal(text: &str, n: u64) -> bool
    ensures { IsTrue result ↔ (text.now ≡ decimal n) }
{
    Buffer::new().format(n) == text
}

/// The kind of that word.
fn read_kind(word: &[u8]) -> Option<Kind>
    ensures some { IfSome result (λ k. word.now ≡ kind_word k) }
    ensures none { IfNone result ((k : Kind) → word.now ≢ kind_word k) }
{
    match word {
        b"start" => Some(Kind::Start),
        b"stop" => Some(Kind::Stop),
        b"resume" => Some(Kind::Resume),
        b"count" => Some(Kind::Count),
        b"done" => Some(Kind::Done),
        b"fail" => Some(Kind::Fail),
        b"halt" => Some(Kind::Halt),
        _ => None,
    }
}
