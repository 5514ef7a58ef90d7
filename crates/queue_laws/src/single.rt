//! Operations on one job.
ghost use Rattle.std.specs.Prelude.{ℕ, ◌≡◌, ◌≢◌, ◌⊎◌, List, Some, None, true, false};
ghost use Rattle.queue_types.specs.Event.{Call, ask, on_job};
ghost use Rattle.queue_core.specs.World.{World, rows, job_at};
ghost use Rattle.queue_types.specs.declared.event.Reply.TheVariants.{Refused};
ghost use Rattle.queue_types.specs.declared.job.Job.{Job};
ghost use Rattle.queue_laws.specs.Calls.{cancels, is_on_any};
ghost use Rattle.queue_laws.specs.Jobs.{is_owned_by, has_jobs, jobs_but};
ghost use Rattle.queue_laws.specs.Operating.{IsNoOperator};
ghost use Rattle.queue_laws.specs.Steps.{after, answer};

/// To each operation on one job, another's job and no job are one answer, client-error-not-found, which an
/// operation on a job of the caller's own never has. The exceptions are an operator's Cancel-Job and Get-Job-Attributes: to
/// these only no job is. Cancel-My-Jobs has that answer where one of its numbers is not that of a job of the caller's own, and
/// only there.
pub fn others_jobs_are_none()
    ensures none { (w : World) (now n : ℕ) (u : List ℕ) (call : Call) → on_job call ≡ Some n → job_at n (rows w) ≡ None → answer w now (ask u call) ≡ Refused 0x0406 }
    ensures others { (w : World) (now n : ℕ) (u : List ℕ) (call : Call) (j : Job) → on_job call ≡ Some n → job_at n (rows w) ≡ Some j → is_owned_by u j ≡ false → IsNoOperator u w ⊎ (is_on_any call ≡ false) → answer w now (ask u call) ≡ Refused 0x0406 }
    ensures own { (w : World) (now n : ℕ) (u : List ℕ) (call : Call) (j : Job) → on_job call ≡ Some n → job_at n (rows w) ≡ Some j → is_owned_by u j ≡ true → answer w now (ask u call) ≢ Refused 0x0406 }
    ensures named_others { (w : World) (now : ℕ) (u numbers : List ℕ) → has_jobs u numbers (rows w) ≡ false → answer w now (cancels u numbers) ≡ Refused 0x0406 }
    ensures named_own { (w : World) (now : ℕ) (u numbers : List ℕ) → has_jobs u numbers (rows w) ≡ true → answer w now (cancels u numbers) ≢ Refused 0x0406 }
{}

/// An operation on one job leaves every other job as it is, with its documents.
pub fn other_jobs_are_left_alone()
    ensures { (w : World) (now n : ℕ) (u : List ℕ) (call : Call) → on_job call ≡ Some n → jobs_but n (after w now (ask u call)).jobs ≡ jobs_but n w.jobs }
{}
