//! The effect of a sweep.
ghost use Rattle.std.specs.Prelude.{ℕ, pos, ◌≡◌, ◌+ℤ◌, List, length, map, option_map};
ghost use Rattle.std.specs.FinMap.{get};
ghost use Rattle.queue_types.specs.Event.{expire};
ghost use Rattle.queue_core.specs.Sound.{IsSound, reserved_for};
ghost use Rattle.queue_core.specs.World.{World};
ghost use Rattle.queue_types.specs.declared.event.Reply.TheVariants.{Expired};
ghost use Rattle.queue_laws.specs.Expiring.{overdue, aborted_if_due};
ghost use Rattle.queue_laws.specs.Steps.{after, answer};

/// A sweep ends exactly the overdue jobs: each is aborted, and the pages that were set aside for it are free again
/// in its owner's account. Every other job stays as it is. All jobs keep their documents and their places. The
/// settings, the grants, the kept reports and the next number stay. The answer is the number of jobs that ended.
pub fn held_jobs_expire()
    ensures jobs { (w : World) (now : ℕ) → IsSound w → (after w now expire).jobs ≡ map (aborted_if_due w now) w.jobs }
    ensures free { (w : World) (now : ℕ) (a : List ℕ) → get (after w now expire).free a ≡ option_map (λ f. f +ℤ pos (reserved_for a (overdue w now))) (get w.free a) }
    ensures counted { (w : World) (now : ℕ) → answer w now expire ≡ Expired (length (overdue w now)) }
    ensures settings { (w : World) (now : ℕ) → (after w now expire).settings ≡ w.settings }
    ensures grants { (w : World) (now : ℕ) → (after w now expire).grants ≡ w.grants }
    ensures reports { (w : World) (now : ℕ) → (after w now expire).reports ≡ w.reports }
    ensures next { (w : World) (now : ℕ) → (after w now expire).next ≡ w.next }
{}
