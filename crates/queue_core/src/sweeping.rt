//! Jobs that have expired end, in any book.
ghost use Rattle.std.specs.Prelude.{◌≡◌, ◌<◌, ◌^◌, IfErr, IfOk, IsErr, OnErr, OnOk};
ghost use Rattle.queue_core.specs.Crash.{Carries};
ghost use Rattle.queue_core.specs.Limits.{IsMoment};
ghost use Rattle.queue_core.specs.Machine.{step};
ghost use Rattle.queue_core.specs.Sweep.{Sweeps};
ghost use Rattle.queue_core.specs.World.{World};
ghost use Rattle.queue_types.specs.Event.{expire};
ghost use Rattle.queue_types.specs.declared.event.Reply.TheVariants.{Expired};

use crate::book::{BookFault, QueueBook};
use queue_types::event::{Event, Reply};

/// Ends every job that has expired at this moment, from 1 to 2,147,483,647, and answers how many jobs it ended. It ends all of them
/// or none: an error changes nothing.
pub fn sweep<B: QueueBook>(book: &mut B, now: u32) -> Result<u32, BookFault>
    requires moment { IsMoment now }
    ensures began { B.is_honest book.new → B.is_honest book.old }
    ensures ok { B.is_honest book.new → IfOk result (λ n. (w : World) → B.stands book.old w
        → ((step w now expire).reply ≡ Expired n) × B.stands book.new (step w now expire).world) }
    ensures err { OnErr result ((w : World) → B.stands book.old w → B.stands book.new w) }
    ensures damaged { B.is_honest book.new → IfErr result (λ e. e ≡ BookFault.Damaged → (w : World) → ¬ B.stands book.old w) }
    ensures live { B.is_honest book.new → OnOk result (B.is_live book.new) }
    ensures opened { B.is_honest book.new → B.is_live book.new → B.is_live book.old }
    // a crash at any moment leaves all the expired jobs ended, or none of them; only after an error is it open which
    ensures crash { B.is_honest book.new → (w : World) → B.stands book.old w
        → (after : World) × Sweeps w now after result × B.stands book.new after
        × Carries (B.crash_leaves book.old) (B.crash_leaves book.new) (λ e. e ≡ expire) (IsErr result) now w after }
    // on any book, also one that is not honest
    ensures few { IfOk result (λ n. n < 2 ^ 31) }
{
    let decision = book.decide(now, &Event::Expire)?;
    let Reply::Expired(ended) = decision.reply else {
        unreachable!("no other reply is to a sweep");
    };
    book.apply(decision)?;
    Ok(ended)
}
