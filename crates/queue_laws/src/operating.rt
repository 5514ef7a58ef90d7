//! What operators may do to others' jobs, and what they are shown of them.
ghost use Rattle.std.specs.Prelude.{ℕ, ℤ, pos, ◌≡◌, ◌+ℤ◌, ◌&&◌, List, ◌∷◌, [], Bool, Option, Some, None, false, count_by};
ghost use Rattle.std.specs.FinMap.{get};
ghost use Rattle.queue_types.specs.Event.{ask, cancel_job, get_jobs, get_job_attributes};
ghost use Rattle.queue_types.specs.Job.{owed};
ghost use Rattle.queue_core.specs.Machine.{step};
ghost use Rattle.queue_core.specs.Sound.{IsSound};
ghost use Rattle.queue_core.specs.Visible.{in_order};
ghost use Rattle.queue_core.specs.World.{World, Entry, rows, job_at};
ghost use Rattle.queue_types.specs.declared.event.Reply.TheVariants.{Jobs};
ghost use Rattle.queue_types.specs.declared.event.WhichJobs.{WhichJobs};
ghost use Rattle.queue_types.specs.declared.job.Job.{Job};
ghost use Rattle.queue_types.specs.declared.job.Why.{Why};
ghost use Rattle.queue_types.specs.declared.job.Why.TheVariants.{ByOperator};
ghost use Rattle.queue_laws.specs.Doing.{IsDone, entry_at};
ghost use Rattle.queue_laws.specs.Jobs.{Waits, IsAtDevice, HasEnded, is_owned_by, is_of_kind, up_to};
ghost use Rattle.queue_laws.specs.Operating.{IsOperator, HasOthers, canceled_by_operator, all_of_kind};
ghost use Rattle.queue_laws.specs.Steps.{after, answer, unchanged, not_possible, MovesFree};

use queue_core::get_jobs_in_order;

/// Cancel-Job of another's job, asked by an operator. Where the job waits, it is canceled by an operator at this moment, and
/// neither held nor open for documents any more; what is set aside for it goes back to the account of its owner. Where the
/// device has it, it is asked to stop for an operator, once, and no pages move. Nothing else of it or of its documents
/// changes. Where it was asked to stop before, by whomever, or ended, client-error-not-possible, and nothing changes.
/// Whoever cancels a job, no account changes but its owner's.
pub fn operators_cancel()
    ensures canceled { (w : World) (now n : ℕ) (u : List ℕ) (e : Entry) → HasOthers u n e w → Waits e.row → IsDone n e (canceled_by_operator now e.row) (step w now (ask u (cancel_job n))) }
    ensures stopping { (w : World) (now n : ℕ) (u : List ℕ) (e : Entry) → HasOthers u n e w → IsAtDevice e.row → e.row.stopping ≡ None → IsDone n e (record e.row { stopping = Some ByOperator }) (step w now (ask u (cancel_job n))) }
    ensures again { (w : World) (now n : ℕ) (u : List ℕ) (e : Entry) (why : Why) → HasOthers u n e w → IsAtDevice e.row → e.row.stopping ≡ Some why → step w now (ask u (cancel_job n)) ≡ not_possible w }
    ensures ended { (w : World) (now n : ℕ) (u : List ℕ) (e : Entry) → HasOthers u n e w → HasEnded e.row → step w now (ask u (cancel_job n)) ≡ not_possible w }
    ensures pages { (w : World) (now n : ℕ) (u : List ℕ) (e : Entry) (f : ℤ) → HasOthers u n e w → Waits e.row → MovesFree w e.row.owner f (f +ℤ pos (owed e.row)) (step w now (ask u (cancel_job n))) }
    ensures no_pages { (w : World) (now n : ℕ) (u : List ℕ) (e : Entry) (f : ℤ) → HasOthers u n e w → IsAtDevice e.row → e.row.stopping ≡ None → MovesFree w e.row.owner f f (step w now (ask u (cancel_job n))) }
    ensures accounts { (w : World) (now n : ℕ) (u a : List ℕ) (e : Entry) → IsSound w → entry_at n w.jobs ≡ Some e → is_owned_by a e.row ≡ false → get (after w now (ask u (cancel_job n))).free a ≡ get w.free a }
{}

/// To an operator that does not ask for its own jobs alone, Get-Jobs shows the first jobs, up to the limit, of all callers' jobs
/// of that kind, in the order in which everybody is shown its own ([`own_jobs_are_in_order`](crate::own_jobs_are_in_order)), and
/// changes nothing. Without a limit it shows each of them once, and no other job. Get-Job-Attributes shows an operator any job
/// as it is.
pub fn all_jobs_are_shown()
    ensures list { (w : World) (now : ℕ) (u : List ℕ) (which : WhichJobs) (limit : Option ℕ) → IsOperator u w → step w now (ask u (get_jobs which limit false)) ≡ unchanged w (Jobs (up_to limit (in_order which (all_of_kind which (rows w))))) }
    ensures each { (w : World) (now : ℕ) (u : List ℕ) (kind : WhichJobs) (p : Job → Bool) (js : List Job) → IsOperator u w → answer w now (ask u (get_jobs kind None false)) ≡ Jobs js → count_by p js ≡ count_by (λ j. is_of_kind kind j && p j) (rows w) }
    ensures one { (w : World) (now n : ℕ) (u : List ℕ) (j : Job) → IsOperator u w → job_at n (rows w) ≡ Some j → answer w now (ask u (get_job_attributes n)) ≡ Jobs (j ∷ []) }
{
    get_jobs_in_order();
}
