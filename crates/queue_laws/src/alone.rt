//! What a request leaves alone.
ghost use Rattle.std.specs.Prelude.{ℕ, ◌≡◌, ◌≤◌, ◌+◌, ◌⊎◌, List, Some, bytes_eq, false};
ghost use Rattle.std.specs.FinMap.{get};
ghost use Rattle.queue_types.specs.Event.{Call, ask};
ghost use Rattle.queue_types.specs.Job.{state};
ghost use Rattle.queue_core.specs.Sound.{IsSound};
ghost use Rattle.queue_core.specs.World.{World};
ghost use Rattle.queue_types.specs.declared.job.Job.{Job};
ghost use Rattle.queue_types.specs.declared.job.Phase.TheVariants.{Canceled};
ghost use Rattle.queue_types.specs.declared.job.Why.{Why};
ghost use Rattle.queue_laws.specs.Jobs.{Waits, HasEnded, IsSameWork, IsSameButStopping};
ghost use Rattle.queue_laws.specs.Operating.{CancelsOwn, canceler};
ghost use Rattle.queue_laws.specs.Own.{own_jobs};
ghost use Rattle.queue_laws.specs.Steps.{after, Turns};

/// Whatever a caller asks: the jobs of another with their documents stay as they are, and so do the free pages of
/// another's account. The one exception is an operator's Cancel-Job: [`operators_cancel`](crate::operators_cancel).
pub fn others_are_left_alone()
    ensures jobs { (w : World) (now : ℕ) (u other : List ℕ) (call : Call) → IsSound w → CancelsOwn u call w → bytes_eq u other ≡ false → own_jobs other (after w now (ask u call)).jobs ≡ own_jobs other w.jobs }
    ensures account { (w : World) (now : ℕ) (u other : List ℕ) (call : Call) → IsSound w → CancelsOwn u call w → bytes_eq u other ≡ false → get (after w now (ask u call)).free other ≡ get w.free other }
{}

/// Whatever is asked: the settings, the grants and the kept reports stay as they are, and one job number is drawn
/// or none.
pub fn records_are_left_alone()
    ensures settings { (w : World) (now : ℕ) (u : List ℕ) (call : Call) → (after w now (ask u call)).settings ≡ w.settings }
    ensures grants { (w : World) (now : ℕ) (u : List ℕ) (call : Call) → (after w now (ask u call)).grants ≡ w.grants }
    ensures reports { (w : World) (now : ℕ) (u : List ℕ) (call : Call) → (after w now (ask u call)).reports ≡ w.reports }
    ensures next { (w : World) (now : ℕ) (u : List ℕ) (call : Call) → IsSound w → ((after w now (ask u call)).next ≡ w.next) ⊎ ((after w now (ask u call)).next ≡ w.next + 1) }
{}

/// No request changes a job's number, owner, name, copies or impressions, when it was created or began, or what was
/// printed of it.
pub fn work_is_left_alone()
    ensures { (w : World) (now n : ℕ) (u : List ℕ) (call : Call) (j k : Job) → IsSound w → Turns w now (ask u call) n j k → IsSameWork k j }
{}

/// No request starts a job, and none ends a job that the device has. A job in state 5 or above stays as it is, but for
/// its mark that it is to stop, which no request takes away. The mark says who asked first; a later request does not change
/// it. A job that ended stays wholly as it is. A job in state 3 or 4 stays in one of these, or is canceled: by its owner if
/// that is the caller, else by an operator.
pub fn begun_jobs_are_left_alone()
    ensures begun { (w : World) (now n : ℕ) (u : List ℕ) (call : Call) (j k : Job) → IsSound w → Turns w now (ask u call) n j k → 5 ≤ state j → IsSameButStopping k j }
    ensures waiting { (w : World) (now n : ℕ) (u : List ℕ) (call : Call) (j k : Job) → IsSound w → Turns w now (ask u call) n j k → Waits j → Waits k ⊎ (k.phase ≡ Canceled (canceler u j)) }
    ensures ended { (w : World) (now n : ℕ) (u : List ℕ) (call : Call) (j k : Job) → IsSound w → Turns w now (ask u call) n j k → HasEnded j → k ≡ j }
    ensures marked { (w : World) (now n : ℕ) (u : List ℕ) (call : Call) (j k : Job) (why : Why) → IsSound w → Turns w now (ask u call) n j k → j.stopping ≡ Some why → k.stopping ≡ Some why }
{}
