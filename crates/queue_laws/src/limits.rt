//! Who is refused a new job.
ghost use Rattle.std.specs.Prelude.{ℕ, ◌≡◌, ◌≤◌, ◌<◌, ◌^◌, List, true, false};
ghost use Rattle.queue_types.specs.Event.{Call, ask};
ghost use Rattle.queue_core.specs.World.{World, rows};
ghost use Rattle.queue_types.specs.declared.event.Reply.TheVariants.{Refused};
ghost use Rattle.queue_laws.specs.Calls.{asks_new_job};
ghost use Rattle.queue_laws.specs.Jobs.{unfinished_of};
ghost use Rattle.queue_laws.specs.Replies.{refuses};
ghost use Rattle.queue_laws.specs.Steps.{answer};

/// A caller with 100 jobs of its own in states 3 to 6 is refused a new one, and so is every caller once the
/// numbers are used up; nobody else is, whatever jobs others have.
pub fn hundred_own_jobs_are_most()
    ensures full { (w : World) (now : ℕ) (u : List ℕ) (call : Call) → asks_new_job call ≡ true → 100 ≤ unfinished_of u (rows w) → answer w now (ask u call) ≡ Refused 0x0404 }
    ensures used_up { (w : World) (now : ℕ) (u : List ℕ) (call : Call) → asks_new_job call ≡ true → unfinished_of u (rows w) < 100 → 2 ^ 31 ≤ w.next → answer w now (ask u call) ≡ Refused 0x0506 }
    ensures room { (w : World) (now : ℕ) (u : List ℕ) (call : Call) → asks_new_job call ≡ true → unfinished_of u (rows w) < 100 → w.next < 2 ^ 31 → refuses (answer w now (ask u call)) ≡ false }
{}
