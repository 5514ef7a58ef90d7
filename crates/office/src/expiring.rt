//! Held and open jobs that have expired end.
ghost use Rattle.std.specs.Prelude.{◌≡◌, ◌⊎◌, ℕ, IfErr, IsErr, Ok, OnOk};
ghost use Rattle.std.specs.Io.KnownBytes.{Appends};
ghost use Rattle.office.specs.declared.fault.OfficeFault.TheVariants.{Damaged};
ghost use Rattle.office.specs.Faults.{IsOfStream, fault_of_book};
ghost use Rattle.office.specs.Told.{HaveExpired, expired_line};
ghost use Rattle.queue_core.specs.Crash.{Carries};
ghost use Rattle.queue_core.specs.Limits.{IsMoment};
ghost use Rattle.queue_core.specs.World.{World};
ghost use Rattle.queue_core.specs.declared.book.BookFault.{BookFault as FaultOfBook};
ghost use Rattle.queue_types.specs.Event.{expire};

use crate::fault::OfficeFault;
use queue_core::{QueueBook, sweep};
use std::io::Write;

/// Writes `expired N`.
fn tell<W: Write>(writer: &mut W, ended: u32) -> Result<(), OfficeFault>
    ensures told { OnOk result (Appends (W.contents writer.old) (W.contents writer.new) (expired_line ended)) }
    ensures failed { IfErr result IsOfStream }
{
    writeln!(writer, "expired {ended}")?;
    Ok(())
}

/// Ends the jobs that have expired at this moment, all of them or none, and writes `expired N` with their number.
///
/// If the book fails, no job ends and nothing is written. The error is that of a stream only if the jobs ended and the line could not be
/// written.
pub fn expire_jobs<W: Write, B: QueueBook>(
    writer: &mut W,
    book: &mut B,
    now: u32,
) -> Result<(), OfficeFault>
    requires { IsMoment now }
    ensures began { B.is_honest book.new → B.is_honest book.old }
    ensures expired { B.is_honest book.new → OnOk result ((w : World) → B.stands book.old w
        → (n : ℕ) × (u : World) × HaveExpired now w u n × B.stands book.new u
        × Appends (W.contents writer.old) (W.contents writer.new) (expired_line n)) }
    // the book failed; or the jobs ended, the book is live, and the writer failed
    ensures why { B.is_honest book.new → IfErr result (λ f. (w : World) → B.stands book.old w
        → ((told : FaultOfBook) × (f ≡ fault_of_book told) × B.stands book.new w × (writer.new ≡ writer.old))
        ⊎ (IsOfStream f × B.is_live book.new × (n : ℕ) × (u : World) × HaveExpired now w u n × B.stands book.new u)) }
    ensures damaged { B.is_honest book.new → IfErr result (λ f. f ≡ Damaged → (w : World) → ¬ B.stands book.old w) }
    ensures live { B.is_honest book.new → OnOk result (B.is_live book.new) }
    // a crash at any moment leaves all the expired jobs ended, or none of them; only after an error is it open which
    ensures crash { B.is_honest book.new → (w : World) → B.stands book.old w
        → (u : World) × B.stands book.new u × Carries (B.crash_leaves book.old) (B.crash_leaves book.new) (λ e. e ≡ expire) (IsErr result) now w u }
    // over any book, also one that is not honest
    ensures written { OnOk result ((n : ℕ) × Appends (W.contents writer.old) (W.contents writer.new) (expired_line n)) }
    ensures told { IfErr result (λ f. IsOfStream f ⊎ ((told : FaultOfBook) × (f ≡ fault_of_book told))) }
    // a stream failed or there was no memory, or nothing was written
    ensures quiet { IfErr result (λ f. IsOfStream f ⊎ (writer.new ≡ writer.old)) }
{
    let ended = sweep(book, now)?;
    tell(writer, ended)
}
