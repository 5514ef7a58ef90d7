//! What requests and reports take of an account's free pages, and what a report moves.
ghost use Rattle.std.specs.Prelude.{ℕ, ℤ, pos, ◌≡◌, ◌⊎◌, ◌≤ℤ◌, ◌+ℤ◌, ◌-ℤ◌, ◌+◌, ◌-◌, List, Some};
ghost use Rattle.std.specs.FinMap.{get};
ghost use Rattle.queue_types.specs.Event.{Call, ask, tell};
ghost use Rattle.queue_types.specs.Job.{owed};
ghost use Rattle.queue_core.specs.Machine.{step};
ghost use Rattle.queue_core.specs.Sound.{IsSound};
ghost use Rattle.queue_core.specs.World.{World};
ghost use Rattle.queue_types.specs.declared.event.Report.{Report};
ghost use Rattle.queue_types.specs.declared.job.Job.{Job};
ghost use Rattle.queue_laws.specs.Steps.{after, MovesFree, Turns};

/// No request takes an account's free pages below zero: whatever is asked, they are no fewer afterwards, or zero or
/// more.
pub fn requests_leave_no_debt()
    ensures { (w : World) (now : ℕ) (u a : List ℕ) (call : Call) (f g : ℤ) → IsSound w → get w.free a ≡ Some f → get (after w now (ask u call)).free a ≡ Some g → (f ≤ℤ g) ⊎ (pos 0 ≤ℤ g) }
{}

/// A report takes from the owner's free pages no more than the pages by which the job's count afterwards passes those
/// that were printed of it and set aside for it before.
pub fn reports_take_what_passes()
    ensures { (w : World) (now : ℕ) (r : Report) (j k : Job) (f g : ℤ) → Turns w now (tell r) r.job j k → get w.free j.owner ≡ Some f → get (after w now (tell r)).free j.owner ≡ Some g → f ≤ℤ (g +ℤ pos (k.count - (j.count + owed j))) }
{}

/// What a report moves: the owner's free pages become fewer by exactly what was printed beyond what was set aside, and
/// what is not needed any more goes back. What the job had printed and set aside before, less what it has afterwards,
/// is added to them.
pub fn reports_move_what_is_owed()
    ensures { (w : World) (now : ℕ) (r : Report) (j k : Job) (f : ℤ) → Turns w now (tell r) r.job j k → MovesFree w j.owner f (f +ℤ (pos (owed j + j.count) -ℤ pos (owed k + k.count))) (step w now (tell r)) }
{}
