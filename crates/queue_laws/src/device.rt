//! What the reports of a device change.
ghost use Rattle.std.specs.Prelude.{ℕ, ◌≡◌, ◌==◌, ◌&&◌, List, Some, false, bytes_eq, max};
ghost use Rattle.std.specs.FinMap.{get};
ghost use Rattle.queue_types.specs.Event.{tell};
ghost use Rattle.queue_types.specs.Job.{job_state};
ghost use Rattle.queue_core.specs.Limits.{IsMoment, IsReport};
ghost use Rattle.queue_core.specs.Machine.{step};
ghost use Rattle.queue_core.specs.Runs.{Place, run};
ghost use Rattle.queue_core.specs.Sound.{IsSound};
ghost use Rattle.queue_core.specs.World.{World, rows, job_at};
ghost use Rattle.queue_types.specs.declared.event.Report.{Report};
ghost use Rattle.queue_types.specs.declared.event.Reply.TheVariants.{Told};
ghost use Rattle.queue_types.specs.declared.job.Job.{Job};
ghost use Rattle.queue_types.specs.declared.states.JobState.{JobState};
ghost use Rattle.queue_laws.specs.Alike.{ArePlaces};
ghost use Rattle.queue_laws.specs.Jobs.{jobs_but};
ghost use Rattle.queue_laws.specs.Reporting.{IsNew, IsSameJob, documents_in};
ghost use Rattle.queue_laws.specs.Steps.{after, answer, unchanged, LeadsTo, Turns};

use queue_core::run_keeps;

/// A report changes nothing but the job that it names, in its phase with its moments, its mark that it is to stop, and its
/// count; the free pages of that job's owner; and the report that is kept under its own job and sequence number.
pub fn reports_change_their_job()
    ensures settings { (w : World) (now : ℕ) (r : Report) → (after w now (tell r)).settings ≡ w.settings }
    ensures grants { (w : World) (now : ℕ) (r : Report) → (after w now (tell r)).grants ≡ w.grants }
    ensures next { (w : World) (now : ℕ) (r : Report) → (after w now (tell r)).next ≡ w.next }
    ensures other_jobs { (w : World) (now : ℕ) (r : Report) → jobs_but r.job (after w now (tell r)).jobs ≡ jobs_but r.job w.jobs }
    ensures documents { (w : World) (now : ℕ) (r : Report) → documents_in (after w now (tell r)).jobs ≡ documents_in w.jobs }
    ensures job { (w : World) (now : ℕ) (r : Report) (j k : Job) → Turns w now (tell r) r.job j k → IsSameJob k j }
    ensures accounts { (w : World) (now : ℕ) (r : Report) (j : Job) (a : List ℕ) → job_at r.job (rows w) ≡ Some j → bytes_eq j.owner a ≡ false → get (after w now (tell r)).free a ≡ get w.free a }
    ensures other_reports { (w : World) (now : ℕ) (r : Report) (job seq : ℕ) → (job == r.job && seq == r.seq) ≡ false → get (after w now (tell r)).reports (job, seq) ≡ get w.reports (job, seq) }
{}

/// A report that is accepted for the first time sets its job's count to the greater of the two, tells the job's state
/// and count as they are then, and is kept with what it told.
pub fn accepted_reports_are_kept()
    ensures kept { (w : World) (now : ℕ) (r : Report) (s : JobState) (c : ℕ) → IsNew r w → answer w now (tell r) ≡ Told s c → get (after w now (tell r)).reports (r.job, r.seq) ≡ Some (record { report = r; state = s; total = c }) }
    ensures told { (w : World) (now : ℕ) (r : Report) (s : JobState) (c : ℕ) (k : Job) → IsNew r w → answer w now (tell r) ≡ Told s c → job_at r.job (rows (after w now (tell r))) ≡ Some k → (s ≡ job_state k) × (c ≡ k.count) }
    ensures counted { (w : World) (now : ℕ) (r : Report) (s : JobState) (c : ℕ) (j : Job) → IsNew r w → answer w now (tell r) ≡ Told s c → job_at r.job (rows w) ≡ Some j → c ≡ max j.count r.count }
{}

/// A report that was accepted has the same answer whenever it comes again, whatever happened in between, and changes
/// nothing then.
pub fn repeated_reports_are_answered_again()
    ensures { (w v : World) (now later c : ℕ) (r : Report) (ps : List Place) (s : JobState) → IsSound w → IsMoment now → IsReport r → ArePlaces ps → LeadsTo w now (tell r) v (Told s c) → step (run v ps) later (tell r) ≡ unchanged (run v ps) (Told s c) }
{
    run_keeps();
}
