//! What Get-Jobs, Get-Job-Attributes and Get-Printer-Attributes show (RFC 8011, sections 4.2.5, 4.2.6 and 4.3.4).
ghost use Rattle.std.specs.Prelude.{ℕ, ◌≡◌, ◌&&◌, [], ◌∷◌, Bool, true, List, Option, Some, None, count_by, nat_le};
ghost use Rattle.queue_types.specs.Event.{ask, get_jobs, get_job_attributes, get_printer_attributes};
ghost use Rattle.queue_core.specs.Machine.{step};
ghost use Rattle.queue_core.specs.Order.{AreByRank};
ghost use Rattle.queue_core.specs.Sound.{IsSound};
ghost use Rattle.queue_core.specs.Visible.{in_order};
ghost use Rattle.queue_core.specs.World.{World, rows, job_at};
ghost use Rattle.queue_types.specs.declared.event.Reply.TheVariants.{Jobs, Printer};
ghost use Rattle.queue_types.specs.declared.event.WhichJobs.{WhichJobs};
ghost use Rattle.queue_types.specs.declared.event.WhichJobs.TheVariants.{NotCompleted, Completed as CompletedJobs};
ghost use Rattle.queue_types.specs.declared.job.Job.{Job};
ghost use Rattle.queue_laws.specs.Jobs.{own_of_kind, up_to, is_owned_by, is_of_kind, is_unfinished, printer_state};
ghost use Rattle.queue_laws.specs.Operating.{AsksForOwn};
ghost use Rattle.queue_laws.specs.Steps.{after, answer, unchanged};
ghost use Rattle.queue_laws.specs.Turn.{EndInTurn};

use queue_core::get_jobs_in_order;

/// Get-Jobs shows the first jobs, up to the limit, of the caller's own jobs of that kind in their order, and
/// changes nothing. So it is for an operator that asks for its own jobs alone.
pub fn own_jobs_are_shown()
    ensures { (w : World) (now : ℕ) (u : List ℕ) (which : WhichJobs) (limit : Option ℕ) (mine : Bool) → AsksForOwn u mine w → step w now (ask u (get_jobs which limit mine)) ≡ unchanged w (Jobs (up_to limit (in_order which (own_of_kind u which (rows w))))) }
{}

/// Without a limit it shows each job of the caller's own of that kind, once, and no other. Those that ended come
/// from the newest on, the others by rank (those that the device has, those that it may start, those that are on hold or
/// still take documents)
/// and number; in this order an operator is shown the jobs of all callers too.
pub fn own_jobs_are_in_order()
    ensures each { (w : World) (now : ℕ) (u : List ℕ) (kind : WhichJobs) (mine : Bool) (p : Job → Bool) (js : List Job) → AsksForOwn u mine w → answer w now (ask u (get_jobs kind None mine)) ≡ Jobs js → count_by p js ≡ count_by (λ j. is_owned_by u j && is_of_kind kind j && p j) (rows w) }
    ensures completed { (w : World) (now : ℕ) (u : List ℕ) (limit : Option ℕ) (mine : Bool) (js : List Job) → answer w now (ask u (get_jobs CompletedJobs limit mine)) ≡ Jobs js → EndInTurn js }
    ensures not_completed { (w : World) (now : ℕ) (u : List ℕ) (limit : Option ℕ) (mine : Bool) (js : List Job) → IsSound w → answer w now (ask u (get_jobs NotCompleted limit mine)) ≡ Jobs js → AreByRank js }
{
    get_jobs_in_order();
}

/// Get-Job-Attributes shows the caller's own job as it is. It changes nothing, nor does Get-Printer-Attributes.
pub fn own_job_is_shown()
    ensures shown { (w : World) (now n : ℕ) (u : List ℕ) (j : Job) → job_at n (rows w) ≡ Some j → is_owned_by u j ≡ true → answer w now (ask u (get_job_attributes n)) ≡ Jobs (j ∷ []) }
    ensures kept { (w : World) (now n : ℕ) (u : List ℕ) → after w now (ask u (get_job_attributes n)) ≡ w }
    ensures printer { (w : World) (now : ℕ) (u : List ℕ) → after w now (ask u get_printer_attributes) ≡ w }
{}

/// Get-Printer-Attributes shows everybody the printer's state (processing while a job is in state 5, else stopped while
/// one is in state 6, else idle), how many jobs are in states 3 to 6, and whether there is a number for a new job.
pub fn printer_is_shown()
    ensures { (w : World) (now : ℕ) (u : List ℕ) → answer w now (ask u get_printer_attributes) ≡ Printer (printer_state (rows w)) (count_by is_unfinished (rows w)) (nat_le w.next 2147483647) }
{}
